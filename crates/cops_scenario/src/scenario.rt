//! Scenarios.
use crate::script::ScriptedClient;
use cops_core::{Event, Setting};
use cops_place::Place;
use cops_types::{Format, Memory};
use std::alloc::{AllocError, Global};
use std::marker::Model;

/// The greatest number of a format.
pub const MAX_FORMAT: u16 = 2;

/// The number of the format if a file names none.
pub const DEFAULT_FORMAT: u16 = 1;

/// The most clients of a scenario.
pub const MAX_CLIENTS: usize = 64;

/// The greatest number of a client in an event.
pub const MAX_CLIENT: u16 = 65_535;

/// The greatest number of a data centre in an event.
pub const MAX_DC: u8 = 255;

/// The greatest index of a dependency in an event.
pub const MAX_DEP: u16 = 65_535;

/// The most operations of a script.
pub const MAX_SCRIPT: usize = 10_000;

/// The most events of a scenario.
pub const MAX_EVENTS: usize = 100_000;

/// The greatest capacity of a link, in frames.
pub const MAX_LINK: u16 = 1_024;

/// The capacity of a link if a file names none.
pub const DEFAULT_LINK: u16 = 16;

/// The most turns of a loop.
pub const MAX_TURNS: u32 = 1_000_000_000;

/// The turns of a loop if a file names none.
pub const DEFAULT_TURNS: u32 = 1_000_000;

/// The most times that a client's operation is tried again after memory ran out.
pub const MAX_RETRIES: u8 = 3;

/// How often an operation is tried again if a file names no number.
pub const DEFAULT_RETRIES: u8 = 0;

/// The most times that a record is sent again on each link.
pub const MAX_REPEAT: u8 = 3;

/// How often a record is sent again if a file names no number.
pub const DEFAULT_REPEAT: u8 = 0;

/// The most late turns of a receiver.
pub const MAX_HOLD: u16 = 1_000;

/// The number of late turns if a file names none.
pub const DEFAULT_HOLD: u16 = 0;

/// The parts of a cluster, and what happens in it: the format of the cluster and of its trace; the placement of keys;
/// the capacity of a link in frames, 1 to 1,024; the number of turns that a loop may make, 1 to 1,000,000,000; how
/// often a client's operation is tried again after memory ran out, 0 to 3; how often each record is sent again on each
/// link, 0 to 3; the number of late turns of a receiver, 0 to 1,000; at most 64 clients; and, if no client has a
/// script, at most 100,000 events.
#[derive(Debug, Drop)]
pub struct Scenario {
    format: Format,
    place: Place,
    link: u16,
    turns: u32,
    retries: u8,
    repeat: u8,
    hold: u16,
    clients: Vec<ScriptedClient>,
    events: Option<Vec<Event>>,
}

impl Model for Scenario {
    ghost use Rattle.std.specs.Prelude.{option_map};
    ghost use Rattle.cops_scenario.specs.Scenario.{AScenario};
    ghost use Rattle.cops_scenario.specs.Limits.{IsScenario};

    ghost Value = { AScenario };

    ghost view = { λ s. record { format = s.format; place = s.place; link = s.link; turns = s.turns; retries = s.retries; repeat = s.repeat; hold = s.hold; clients = s.clients.items; events = option_map (λ e. e.items) s.events } };

    ghost invariant = { λ s. IsScenario (record { format = s.format; place = s.place; link = s.link; turns = s.turns; retries = s.retries; repeat = s.repeat; hold = s.hold; clients = s.clients.items; events = option_map (λ e. e.items) s.events }) };
}

impl Scenario {
    ghost use Rattle.std.specs.Prelude.{◌≡◌, ◌≤◌, length, All, IfOk, option_map};
    ghost use Rattle.cops_place.specs.Clients.{AreClients};
    ghost use Rattle.cops_scenario.specs.declared.scenario.TheConstants.{MAX_CLIENTS, MAX_HOLD, MAX_LINK, MAX_REPEAT, MAX_RETRIES, MAX_TURNS};
    ghost use Rattle.cops_scenario.specs.Scenario.{homes_of, setting_of};
    ghost use Rattle.cops_scenario.specs.Limits.{IsScenario, IsClientOf, AreEventsOf};

    /// The scenario of these parts, which have to be within their limits.
    pub(crate) fn new(
        format: Format,
        place: Place,
        link: u16,
        turns: u32,
        retries: u8,
        repeat: u8,
        hold: u16,
        clients: Vec<ScriptedClient>,
        events: Option<Vec<Event>>,
    ) -> Scenario
        requires link { (1 ≤ link) × (link ≤ MAX_LINK) }
        requires turns { (1 ≤ turns) × (turns ≤ MAX_TURNS) }
        requires retries { retries ≤ MAX_RETRIES }
        requires repeat { repeat ≤ MAX_REPEAT }
        requires hold { hold ≤ MAX_HOLD }
        requires clients { (length clients.items ≤ MAX_CLIENTS) × All (IsClientOf place.dcs) clients.items }
        requires events { AreEventsOf clients.items (option_map (λ e. e.items) events) }
        ensures scenario { IsScenario result }
        ensures parts { result ≡ record { format = format; place = place; link = link; turns = turns; retries = retries; repeat = repeat; hold = hold; clients = clients.items; events = option_map (λ e. e.items) events } }
    {
        let _dcs = place.dcs();
        Scenario {
            format,
            place,
            link,
            turns,
            retries,
            repeat,
            hold,
            clients,
            events,
        }
    }

    /// The format of the cluster and of its trace.
    pub fn format(&self) -> Format
        ensures value { result ≡ self.now.format }
        ensures scenario { IsScenario self.now }
    {
        self.format
    }

    /// The placement of keys, and the number of data centres.
    pub fn place(&self) -> &Place
        ensures place { result.now ≡ self.now.place }
        ensures scenario { IsScenario self.now }
    {
        &self.place
    }

    /// The capacity of a link in frames, 1 to 1,024.
    pub fn link(&self) -> u16
        ensures value { result ≡ self.now.link }
        ensures scenario { IsScenario self.now }
    {
        self.link
    }

    /// The number of turns that a loop may make, 1 to 1,000,000,000.
    pub fn turns(&self) -> u32
        ensures value { result ≡ self.now.turns }
        ensures scenario { IsScenario self.now }
    {
        self.turns
    }

    /// How often a client's operation is tried again after memory ran out, 0 to 3.
    pub fn retries(&self) -> u8
        ensures value { result ≡ self.now.retries }
        ensures scenario { IsScenario self.now }
    {
        self.retries
    }

    /// How often each record is sent again on each link, 0 to 3.
    pub fn repeat(&self) -> u8
        ensures value { result ≡ self.now.repeat }
        ensures scenario { IsScenario self.now }
    {
        self.repeat
    }

    /// The number of turns without a frame that a receiver makes first, once the clients are joined, 0 to 1,000. If it
    /// is above 0, the receiver makes no turns before that.
    pub fn hold(&self) -> u16
        ensures value { result ≡ self.now.hold }
        ensures scenario { IsScenario self.now }
    {
        self.hold
    }

    /// The clients, at most 64.
    pub fn clients(&self) -> &[ScriptedClient]
        ensures clients { result.now ≡ self.now.clients }
        ensures scenario { IsScenario self.now }
    {
        &self.clients
    }

    /// The scenario's format, its data centres, and each client's data centre. Fails if memory runs out.
    pub fn setting(&self, alloc: Global) -> Result<Setting, Memory>
        ensures { IfOk result (λ setting. setting ≡ setting_of self.now) }
    {
        match Setting::new_in(self.format, self.place.clone()?, self.homes(alloc)?) {
            Some(setting) => Ok(setting),
            None => unreachable!(),
        }
    }

    /// The data centre of each client. Fails if memory runs out.
    fn homes(&self, alloc: Global) -> Result<Vec<u8>, AllocError>
        ensures homes { IfOk result (λ homes. homes.items ≡ homes_of self.now) }
        ensures there { IfOk result (λ homes. AreClients self.now.place homes.items) }
    {
        let mut homes = Vec::new(alloc);
        for client in &self.clients {
            homes.push(client.at)?;
        }
        Ok(homes)
    }

    /// The events, at most 100,000, if the scenario has a list of them: then no client has a script.
    pub fn events(&self) -> Option<&[Event]>
        ensures events { option_map (λ e. e.now) result ≡ self.now.events }
        ensures scenario { IsScenario self.now }
    {
        self.events.as_ref().map(|events| events.as_slice())
    }
}
