ghost use Rattle.std.specs.Prelude.{◌≡◌};
ghost use Rattle.cops_types.specs.declared.refusal.Refusal.{Refusal};
ghost use Rattle.cops_node.specs.declared.outcome.Outcome.{Outcome};
ghost use Rattle.cops_node.specs.declared.outcome.Outcome.TheVariants.{Refused};
ghost use Rattle.cops_core.specs.Invariants.{Invariants};
ghost use Rattle.cops_core.specs.World.{IsReached, Act, Happens, IsSetting, Setting, World, home};
ghost use Rattle.cops_types.specs.Verdicts.{HasAcceptedVerdict};
ghost use Rattle.cops_core.specs.Machine.{Step, view};

/// A theorem about the definitions, stated as the contract of a function with an empty body. Whatever events happen in
/// a new world, in whatever order, and wherever memory runs out: the verdict of the recorded history is Accepted. Each
/// act is a step of the machine that has one set of puts in each data centre, or changes nothing there; the invariants
/// hold; and a refused act changes nothing.
pub fn every_interleaving_is_accepted()
    ensures accepted { (s : Setting) (w : World) → IsSetting s → IsReached s w → HasAcceptedVerdict w.sessions }
    ensures steps { (s : Setting) (w new : World) (act : Act) (outcome : Outcome) → IsSetting s → IsReached s w
        → Happens s w act outcome new → Step (home s) (view w) (view new) }
    ensures invariants { (s : Setting) (w : World) → IsSetting s → IsReached s w → Invariants s w }
    ensures refused { (s : Setting) (w new : World) (act : Act) (refused : Refusal) → Happens s w act (Refused refused) new → new ≡ w }
{}
