ghost use Rattle.std.specs.Prelude.{◌≡◌, ◌≤◌, List, length};
ghost use Rattle.cops_types.specs.declared.op.OpName.{OpName};
ghost use Rattle.cops_types.specs.Histories.{Sessions};
ghost use Rattle.cops_types.specs.Past.{Past};
ghost use Rattle.cops_report.specs.Chains.{IsChain, IsFirstChain};

/// A law of the definitions: among the shortest chains from one operation to another, at most one is the first.
#[tactic(auto, using(crate::proofs::ChainLaws::one_first))]
pub fn one_chain()
    ensures { (h : Sessions) (from to : OpName) (a b : List OpName) →
        IsFirstChain h from to a → IsFirstChain h from to b → a ≡ b }
{}

/// A law of the definitions: a chain of two names or more is evidence that its first is in the past of its last.
#[tactic(auto, using(crate::proofs::ChainLaws::evidence))]
pub fn chain_is_evidence()
    ensures { (h : Sessions) (from to : OpName) (names : List OpName) →
        IsChain h from to names → 2 ≤ length names → Past h from to }
{}

/// A law of the definitions: each operation in the past of another has a chain to it.
#[tactic(auto, using(crate::proofs::ChainLemmas::past_chain))]
pub fn past_has_a_chain()
    ensures { (h : Sessions) (from to : OpName) →
        Past h from to → (names : List OpName) × IsChain h from to names }
{}
