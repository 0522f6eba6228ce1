ghost use Rattle.std.specs.Prelude.{◌↔◌, List};
ghost use Rattle.cops_types.specs.declared.op.OpName.{OpName};
ghost use Rattle.cops_types.specs.Histories.{Sessions};
ghost use Rattle.cops_types.specs.Convergence.{ConvergesBy, IsCausallyConvergent};
ghost use Rattle.cops_types.specs.Verdicts.{IsAccepted};
ghost use Rattle.cops_types.specs.VersionOrder.{IsVersionOrder, NoneDoubled};
ghost use Rattle.cops_audit.specs.declared.verdict.Verdict.{Verdict};
ghost use Rattle.cops_audit.specs.declared.verdict.SoFar.{SoFar};
ghost use Rattle.cops_audit.specs.SoFar.{Continues, IsSoFar};
ghost use Rattle.cops_audit.specs.Verdicts.{Accepts, ConvergesByVersions, IsVerdict, SameVerdict};

/// A law of the definitions: a history is accepted exactly where no two puts have the same version and it is causally
/// convergent with the version order as its arbitration.
pub fn accepted_exactly_where_convergent()
    ensures { (h : Sessions) (puts : List OpName) →
        IsAccepted h puts ↔ (NoneDoubled h × IsVersionOrder h puts × ConvergesBy h puts) }
{}

/// A law of the definitions: a history has one verdict.
pub fn one_verdict()
    ensures { (h : Sessions) (v w : Verdict) → IsVerdict h v → IsVerdict h w → SameVerdict v w }
{}

/// A law of the definitions: a history is clean so far exactly where it is accepted.
pub fn clean_exactly_where_accepted()
    ensures { (h : Sessions) (v : Verdict) → IsVerdict h v → IsSoFar h SoFar.Clean ↔ Accepts v }
{}

/// A law of the definitions: a history that is refused so far is refused however it goes on.
pub fn refused_stays_refused()
    ensures { (h longer : Sessions) (v : Verdict) → IsSoFar h SoFar.Refused → Continues h longer → IsVerdict longer v → ¬ Accepts v }
{}

/// A law of the definitions: an accepted history is causally convergent, and a history is accepted exactly where no two
/// puts have the same version and it converges by the order of its versions.
pub fn verdict_on_convergence()
    ensures convergent { (h : Sessions) (v : Verdict) → IsVerdict h v → Accepts v → IsCausallyConvergent h }
    ensures exactly { (h : Sessions) (v : Verdict) → IsVerdict h v → Accepts v ↔ ConvergesByVersions h }
{}
