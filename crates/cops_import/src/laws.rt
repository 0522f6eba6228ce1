//! Theorems about the definitions, stated as the contracts of functions that do nothing.
ghost use Rattle.std.specs.Prelude.{◌≡◌, List, ℕ, Option};
ghost use Rattle.cops_import.specs.Line.{IsFaulty, IsOrdered, LineGives, LineLacksRank};
ghost use Rattle.cops_import.specs.Lines.{LinesGive, lines};
ghost use Rattle.cops_import.specs.Stores.{KeepsOrder};
ghost use Rattle.cops_import.specs.declared.fault.JsonLineFault.{JsonLineFault as AFault};
ghost use Rattle.cops_import.specs.declared.reported.Reported.{Reported as AReported};
ghost use Rattle.cops_import.specs.declared.rules.Rules.{Rules as ARules};

use crate::ranks::Ranks;

/// However lines are read, those of a text describe at most one list of operations, and a line that describes one, or
/// is blank, is not faulty, and does not lack a rank.
pub fn lines_determine_one()
    ensures one { (rules : ARules) → IsOrdered rules.versions → (bytes : List ℕ) (a b : List AReported) → LinesGive rules (lines bytes) a → LinesGive rules (lines bytes) b → a ≡ b }
    ensures right { (rules : ARules) → IsOrdered rules.versions → (number : ℕ) (line : List ℕ) (reported : Option AReported) (fault : AFault) → LineGives rules number line reported → IsFaulty rules line fault → ⊥ }
    ensures ranked { (rules : ARules) → IsOrdered rules.versions → (number : ℕ) (line : List ℕ) (reported : Option AReported) → LineGives rules number line reported → LineLacksRank rules line → ⊥ }
{}

/// Ranks keep which versions of a store are equal, and their order.
pub fn ranks_keep_order(ranks: &Ranks)
    ensures { KeepsOrder ranks.now }
{
    let _ = ranks.len();
}
