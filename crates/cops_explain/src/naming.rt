//! What the operations of a history are called, and how many puts of unknown outcome it has.
use cops_outcomes::OutcomeCounts;
use cops_types::{History, OpName};
use std::marker::Model;

/// What a recorder's lines call operations: the name of each client, and for each client the numbers of the lines of
/// its operations, counted from 1, in their order. With them, how many puts of unknown outcome the lines have.
#[derive(Debug, Drop)]
pub struct LineNames {
    names: Vec<Vec<u8>>,
    lines: Vec<Vec<u64>>,
    outcomes: OutcomeCounts,
}

impl Model for LineNames {
    ghost use Rattle.std.specs.Prelude.{map};
    ghost use Rattle.cops_explain.specs.LineNames.{ALineNames};

    ghost Value = { ALineNames };

    ghost view = { λ n. record { names = map (λ name. name.items) n.names.items; lines = map (λ lines. lines.items) n.lines.items; outcomes = n.outcomes } };
}

impl LineNames {
    ghost use Rattle.std.specs.Prelude.{◌≡◌, [], map, slice_index_or};

    /// The names of clients, each at its client's number, the numbers of the lines of their operations, and how many
    /// puts of unknown outcome there are.
    pub fn new(names: Vec<Vec<u8>>, lines: Vec<Vec<u64>>, outcomes: OutcomeCounts) -> LineNames
        ensures { result ≡ record { names = map (λ name. name.items) names.items; lines = map (λ lines. lines.items) lines.items; outcomes = outcomes } }
    {
        LineNames {
            names,
            lines,
            outcomes,
        }
    }

    /// The name of a client, empty for a client without one.
    pub fn name(&self, client: u16) -> &[u8]
        ensures { result.now ≡ slice_index_or self.now.names client [] }
    {
        match self.names.get(usize::from(client)) {
            Some(name) => name.as_slice(),
            None => &[],
        }
    }

    /// The number of the line of an operation, 0 for an operation without one.
    pub fn line(&self, name: OpName) -> u64
        ensures { result ≡ slice_index_or (slice_index_or self.now.lines name.client []) name.index 0 }
    {
        match self.lines.get(usize::from(name.client)) {
            Some(lines) => lines.get(name.index as usize).copied().unwrap_or(0),
            None => 0,
        }
    }
}

/// What operations are called.
#[derive(Debug, Drop)]
pub enum Naming {
    /// As in a trace: a client by its number, and an operation by `(client,index)`.
    Trace,
    /// As in a recorder's lines: a client by its name, and an operation by its client and the number of its line.
    Lines(LineNames),
}

impl Naming {
    ghost use Rattle.std.specs.Prelude.{◌≡◌};
    ghost use Rattle.cops_explain.specs.Naming.{outcomes_of};

    /// How many puts of unknown outcome there are: none in a trace.
    pub fn outcomes(&self) -> OutcomeCounts
        ensures { result ≡ outcomes_of self.now }
    {
        match self {
            Naming::Trace => OutcomeCounts {
                took_effect: 0,
                left_out: 0,
            },
            Naming::Lines(names) => names.outcomes,
        }
    }
}

/// A history, and what its operations are called.
#[derive(Clone, Copy)]
pub struct NamedHistory<'a> {
    pub history: &'a History,
    pub naming: &'a Naming,
}
