ghost use Rattle.std.specs.Prelude.{◌≡◌, ℕ, List};
ghost use Rattle.cops_types.specs.Histories.{Sessions};
ghost use Rattle.cops_core.specs.World.{Setting, World};
ghost use Rattle.cops_core.specs.declared.event.Event.{Event};
ghost use Rattle.cops_scenario.specs.declared.script.ScriptedClient.{ScriptedClient};
ghost use Rattle.cops_node.specs.declared.entry.Entry.{Entry};
ghost use Rattle.cops_tie.specs.NoRun.{IsNoRun};
ghost use Rattle.cops_tie.specs.Runs.{IsRun};
ghost use Rattle.cops_tie.specs.Tie.{IsTiedTo};
ghost use Rattle.cops_tie.specs.Untied.{IsTied, IsUntied};
ghost use Rattle.cops_tie.specs.declared.outcome.ClientOutcome.{ClientOutcome};

use cops_core::every_interleaving_is_accepted;

/// A law of the definitions: books that stop at a ticket, or whose run shows the clients something else, are not a run
/// of the world with these sessions. So the two answers exclude each other.
pub fn untied_is_not_tied()
    ensures { (s : Setting) (books : List (List Entry)) (sessions : Sessions) (ticket : ℕ) (events : List Event) →
        IsUntied s books sessions ticket → IsTied s books sessions events → ⊥ }
{
    every_interleaving_is_accepted();
}

/// A law of the definitions: books that are a run of the world with these sessions have exactly one end.
pub fn tied_books_have_one_end()
    ensures { (s : Setting) (books : List (List Entry)) (sessions : Sessions) (events others : List Event) (end other : World) →
        IsTiedTo s books sessions events end → IsTiedTo s books sessions others other → end ≡ other }
{
    every_interleaving_is_accepted();
}

/// A law of the definitions: what `IsNoRun` describes is not a run, with whatever events. So the two answers exclude
/// each other.
pub fn no_run_is_not_run()
    ensures { (s : Setting) (clients : List ScriptedClient) (books : List (List Entry)) (sessions : Sessions) (outcomes : List ClientOutcome) (ticket : ℕ) (events : List Event) →
        IsNoRun s clients books sessions outcomes ticket → IsRun s clients books sessions events outcomes → ⊥ }
{
    untied_is_not_tied();
    tied_books_have_one_end();
}
