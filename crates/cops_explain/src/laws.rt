ghost use Rattle.std.specs.Prelude.{◌≡◌, List, ℕ};
ghost use Rattle.cops_types.specs.Histories.{Sessions};
ghost use Rattle.cops_audit.specs.Verdicts.{IsVerdict};
ghost use Rattle.cops_audit.specs.declared.verdict.Verdict.{Verdict as AVerdict};
ghost use Rattle.cops_types.specs.declared.selection.Selection.{Selection as ASelection};
ghost use Rattle.cops_types.specs.declared.op.OpName.{OpName};
ghost use Rattle.cops_report.specs.Chains.{IsChain};
ghost use Rattle.cops_explain.specs.Explained.{IsExplained};
ghost use Rattle.cops_explain.specs.Naming.{ANamedHistory};
ghost use Rattle.cops_explain.specs.Steps.{known_by};

/// A law of the definitions: a named history has one explanation for each selection of faults.
pub fn one_explanation()
    ensures { (h : ANamedHistory) (verdict other : AVerdict) (asked : ASelection) (text reported : List ℕ) →
        IsVerdict h.sessions verdict → IsVerdict h.sessions other → IsExplained h verdict asked text → IsExplained h other asked reported → text ≡ reported }
{}

/// A law of the definitions: the operation by which the client of a chain's last operation came to know of its first
/// one is of that client.
pub fn known_by_its_client()
    ensures { (h : Sessions) (newer op : OpName) (chain : List OpName) → IsChain h newer op chain → (known_by newer chain).client ≡ op.client }
{}
