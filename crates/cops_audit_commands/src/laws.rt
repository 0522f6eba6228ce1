ghost use Rattle.std.specs.Prelude.{◌≡◌, ◌↔◌, List, ℕ};
ghost use Rattle.cops_wire.specs.Answer.{IsBytes};
ghost use Rattle.cops_audit_commands.specs.declared.explain.Request.{Request};
ghost use Rattle.cops_trace.specs.declared.fault.TraceFault.TheVariants.{Cut};
ghost use Rattle.cops_trace.specs.Answer.{HasFault};
ghost use Rattle.cops_audit_commands.specs.Audit.{AuditSays};
ghost use Rattle.cops_audit_commands.specs.Explain.{ExplainSays};
ghost use Rattle.cops_audit_commands.specs.SoFar.{SaysSoFar};
ghost use Rattle.cops_audit_commands.specs.declared.audit.Answer.{Answer};

/// A law of the definitions: for any bytes the audit has one answer and one text.
pub fn one_audit()
    ensures { (bytes : List ℕ) → IsBytes bytes → (answer other : Answer) (reported text : List ℕ) →
        AuditSays bytes answer reported → AuditSays bytes other text → (answer ≡ other) × (reported ≡ text) }
{}

/// A law of the definitions: for any bytes the audit that allows a cut has one answer and one text, and where the bytes
/// are not cut these are the ones of `audit_stream`.
pub fn one_audit_so_far()
    ensures one { (bytes : List ℕ) → IsBytes bytes → (answer other : Answer) (reported text : List ℕ) →
        SaysSoFar bytes answer reported → SaysSoFar bytes other text → (answer ≡ other) × (reported ≡ text) }
    ensures uncut { (bytes : List ℕ) → ((offset : ℕ) → ¬ HasFault bytes (Cut offset)) → (answer : Answer) (reported : List ℕ) →
        SaysSoFar bytes answer reported ↔ AuditSays bytes answer reported }
{}

/// A law of the definitions: for any bytes and whatever is asked for the explanation has one answer and one text, and
/// the answer is that of the audit.
pub fn one_explanation()
    ensures one { (bytes : List ℕ) → IsBytes bytes → (request : Request) (answer other : Answer) (reported text : List ℕ) →
        ExplainSays request bytes answer reported → ExplainSays request bytes other text → (answer ≡ other) × (reported ≡ text) }
    ensures audited { (bytes : List ℕ) → IsBytes bytes → (request : Request) (answer other : Answer) (reported text : List ℕ) →
        ExplainSays request bytes answer reported → AuditSays bytes other text → answer ≡ other }
{}
