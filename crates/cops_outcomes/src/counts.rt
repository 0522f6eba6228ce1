//! How many puts of unknown outcome there are.
ghost use Rattle.std.specs.Prelude.{◌≡◌, IfOk, string_bytes};

use std::alloc::{AllocError, Global};

/// How many puts of unknown outcome took effect, and how many are left out of the history.
#[derive(Clone, Copy, Debug, PartialEq, Eq)]
pub struct OutcomeCounts {
    pub took_effect: usize,
    pub left_out: usize,
}

impl OutcomeCounts {
    ghost use Rattle.std.specs.Prelude.{◌≡◌, ◌↔◌, IsTrue, IfOk, OnErr, string_bytes};
    ghost use Rattle.cops_outcomes.specs.Words.{has_none, outcome_text};

    /// Whether there are no such puts.
    pub fn is_empty(self) -> bool
        ensures { result ≡ has_none self }
    {
        self.took_effect == 0 && self.left_out == 0
    }

    /// The line that reports them, with its line feed, or nothing if there are none, which allocates nothing. Fails if
    /// memory runs out.
    pub fn text(self, alloc: Global) -> Result<String, AllocError>
        ensures ok { IfOk result (λ text. string_bytes text ≡ outcome_text self) }
        ensures err { OnErr result (¬ IsTrue (has_none self)) }
    {
        if self.is_empty() {
            return Ok(String::new(alloc));
        }
        let OutcomeCounts {
            took_effect,
            left_out,
        } = self;
        format!(in alloc; "unknown outcomes: {took_effect} took effect, {left_out} left out\n")
    }
}
