//! The values on which test cases act.

use crate::rows::tie::TieRun;
use crate::rows::{
    book, clock, context, explain, held, history, node, place, scenario, store, tie, trace, types,
    wire, world,
};
use crate::words::no_row;
use anyhow::Error;
use cops_context::Context;
use cops_core::World;
use cops_held::Held;
use cops_node::Node;
use cops_place::Place;
use cops_scenario::Scenario;
use cops_store::Store;
use cops_tie::Book;
use cops_trace::Trace;
use cops_types::{Clock, History};
use cops_wire::Feeder;
use std::alloc::Global;

/// The values for cases of traces and messages.
#[derive(Drop)]
struct Traces {
    feeder: Feeder,
    history: Option<History>,
    trace: Option<Trace>,
}

impl Traces {
    fn new(alloc: Global) -> Self {
        Traces {
            feeder: Feeder::new(alloc),
            history: None,
            trace: None,
        }
    }
}

/// The values for cases of nodes.
#[derive(Drop)]
struct Nodes {
    book: Book,
    clock: Clock,
    context: Context,
    held: Held,
    node: Node,
    store: Store,
}

impl Nodes {
    fn new(alloc: Global) -> Self {
        Nodes {
            book: Book::open(alloc, 0),
            clock: Clock::new(0),
            context: Context::new(alloc),
            held: Held::new(alloc),
            node: Node::open(alloc, 0),
            store: Store::new(alloc),
        }
    }
}

/// The values for cases of worlds.
#[derive(Drop)]
struct Worlds {
    place: Option<Place>,
    run: Option<TieRun>,
    scenario: Option<Scenario>,
    world: Option<World>,
}

impl Worlds {
    fn new() -> Self {
        Worlds {
            place: None,
            run: None,
            scenario: None,
            world: None,
        }
    }

    fn answer(&mut self, alloc: Global, on: &str, call: &[&str]) -> Result<String, Error> {
        match on {
            "place" => place::answer(alloc, &mut self.place, call),
            "scenario" => scenario::answer(alloc, &mut self.scenario, call),
            "tie" => tie::answer(alloc, &mut self.run, call),
            "world" => world::answer(alloc, &mut self.world, call),
            _ => Err(no_row()),
        }
    }
}

/// The values on which the cases of one file act. Each case finds what those before it left.
#[derive(Drop)]
pub struct Subjects {
    traces: Traces,
    nodes: Nodes,
    worlds: Worlds,
}

impl Subjects {
    /// The subjects before the first case.
    pub fn new(alloc: Global) -> Self {
        Subjects {
            traces: Traces::new(alloc),
            nodes: Nodes::new(alloc),
            worlds: Worlds::new(),
        }
    }

    /// The answer to a case that acts on nodes or on worlds.
    fn answer_of_nodes(&mut self, alloc: Global, on: &str, call: &[&str]) -> Result<String, Error> {
        match on {
            "book" => book::answer(alloc, &mut self.nodes.book, call),
            "clock" => clock::answer(alloc, &mut self.nodes.clock, call),
            "context" => context::answer(alloc, &mut self.nodes.context, call),
            "held" => held::answer(alloc, &mut self.nodes.held, call),
            "node" => node::answer(alloc, &mut self.nodes.node, call),
            "store" => store::answer(alloc, &mut self.nodes.store, call),
            _ => self.worlds.answer(alloc, on, call),
        }
    }

    /// The answer to a case's words. The first word names the subject.
    pub fn answer(&mut self, alloc: Global, words: &[&str]) -> Result<String, Error> {
        let [on, call @ ..] = words else {
            return Err(no_row());
        };
        match *on {
            "explain" => explain::answer(alloc, &self.traces.trace, call),
            "history" => history::answer(alloc, &mut self.traces.history, call),
            "trace" => trace::answer(alloc, &mut self.traces.trace, call),
            "types" => types::answer(alloc, call),
            "wire" => wire::answer(alloc, &mut self.traces.feeder, call),
            on => self.answer_of_nodes(alloc, on, call),
        }
    }
}
