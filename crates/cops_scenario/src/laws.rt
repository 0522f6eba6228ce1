//! A theorem about the definitions alone, stated as the contract of a function with an empty body.
ghost use Rattle.std.specs.Prelude.{ℕ, List};
ghost use Rattle.cops_scenario.specs.Scenario.{AScenario};
ghost use Rattle.cops_scenario.specs.File.{IsTextOf, IsNoText, IsWrongText};
ghost use Rattle.cops_scenario.specs.declared.fault.Field.{Field as AField};

/// The text of a scenario is a JSON text, and no field of it is wrong. So bytes that encode a scenario are never
/// refused as `NotJson` or `BadField`.
pub fn text_is_right()
    ensures right { (bytes : List ℕ) (s : AScenario) (field : AField) → IsTextOf bytes s → IsWrongText bytes field → ⊥ }
    ensures json { (bytes : List ℕ) (s : AScenario) → IsTextOf bytes s → IsNoText bytes → ⊥ }
{}
