ghost use Rattle.std.specs.Prelude.{◌≡◌, List, ℕ};
ghost use Rattle.cops_types.specs.declared.selection.Selection.{Selection as ASelection};
ghost use Rattle.cops_audit.specs.Verdicts.{IsVerdict};
ghost use Rattle.cops_audit.specs.declared.verdict.Verdict.{Verdict as AVerdict};
ghost use Rattle.cops_explain.specs.Naming.{ANamedHistory};
ghost use Rattle.cops_explain_json.specs.Explanations.{IsExplainedJson};

/// A law of the definitions: a history has one explanation in JSON for each selection of faults.
pub fn one_json()
    ensures { (named : ANamedHistory) (verdict other : AVerdict) (asked : ASelection) (text reported : List ℕ) →
        IsVerdict named.sessions verdict → IsVerdict named.sessions other →
        IsExplainedJson named verdict asked text → IsExplainedJson named other asked reported → text ≡ reported }
{}
