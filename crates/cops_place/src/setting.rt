ghost use Rattle.std.specs.Prelude.{◌≡◌, ◌<◌, ◌↔◌, All, IsTrue};

use crate::place::Place;
use cops_types::{Format, Key, MAX_CLIENTS};
use std::alloc::AllocError;
use std::marker::Model;

/// What never changes in a cluster: the format, which sets the limits; where keys live; and the data centre of each
/// client. There are at most 65,535 clients, and their data centres exist.
#[derive(Debug, Drop)]
pub struct Setting {
    format: Format,
    place: Place,
    homes: Vec<u8>,
}

impl Model for Setting {
    ghost use Rattle.cops_place.specs.Place.{Setting as ASetting, IsSetting};

    ghost Value = { ASetting };

    ghost view = { λ s. record { format = s.format; place = s.place; homes = s.homes.items } };

    ghost invariant = { λ s. IsSetting (record { format = s.format; place = s.place; homes = s.homes.items }) };
}

impl Setting {
    ghost use Rattle.std.specs.Prelude.{◌≡◌, ◌<◌, ◌+◌, ◌≤◌, length, IfSome, IfNone};
    ghost use Rattle.cops_place.specs.Clients.{AreClients};
    ghost use Rattle.cops_place.specs.Place.{IsSetting, home, primary_in};

    /// The setting, in format 1; `None` where a client's data centre does not exist, or there are more than 65,535
    /// clients.
    pub fn new(place: Place, homes: Vec<u8>) -> Option<Self>
        ensures some { IfSome result (λ setting. setting ≡ record { format = Format.One; place = place; homes = homes.items }) }
        ensures none { IfNone result (AreClients place homes.items → ⊥) }
    {
        Setting::new_in(Format::One, place, homes)
    }

    /// The setting, in the given format; `None` where a client's data centre does not exist, or there are more than
    /// 65,535 clients.
    pub fn new_in(format: Format, place: Place, homes: Vec<u8>) -> Option<Self>
        ensures some { IfSome result (λ setting. setting ≡ record { format = format; place = place; homes = homes.items }) }
        ensures none { IfNone result (AreClients place homes.items → ⊥) }
    {
        if homes.len() > usize::from(MAX_CLIENTS) || !are_below(&homes, place.dcs()) {
            return None;
        }
        Some(Setting {
            format,
            place,
            homes,
        })
    }

    /// The format, which sets the limits.
    pub fn format(&self) -> Format
        ensures format { result ≡ self.now.format }
        ensures setting { IsSetting self.now }
    {
        self.format
    }

    /// Where keys live, and in how many data centres.
    pub fn place(&self) -> &Place
        ensures place { result.now ≡ self.now.place }
        ensures setting { IsSetting self.now }
    {
        &self.place
    }

    /// The data centre of each client.
    pub fn homes(&self) -> &[u8]
        ensures homes { result.now ≡ self.now.homes }
        ensures setting { IsSetting self.now }
    {
        &self.homes
    }

    /// The number of clients.
    pub fn clients(&self) -> usize
        ensures count { result ≡ length self.now.homes }
        ensures setting { IsSetting self.now }
    {
        self.homes.len()
    }

    /// The data centre of a client.
    pub fn home(&self, client: u16) -> u8
        requires { client < length self.now.homes }
        ensures { result ≡ home self.now client }
    {
        self.homes[client as usize]
    }

    /// The number of data centres.
    pub fn dcs(&self) -> u8
        ensures count { result ≡ self.now.place.dcs }
        ensures setting { IsSetting self.now }
    {
        self.place.dcs()
    }

    /// The number of nodes of each data centre.
    pub fn nodes(&self) -> u8
        ensures count { result ≡ length self.now.place.splits + 1 }
        ensures setting { IsSetting self.now }
    {
        self.place.nodes()
    }

    /// The place of a key's node in each data centre.
    pub fn primary(&self, key: &Key) -> u8
        ensures count { result ≡ primary_in self.now key.now }
        ensures range { result ≤ length self.now.place.splits }
        ensures setting { IsSetting self.now }
    {
        self.place.primary(key)
    }
}

/// A clone is equal to its original.
impl Clone for Setting {
    ghost use Rattle.std.specs.Prelude.{◌≡◌};

    ghost is_clone = { λ s t. t ≡ s };

    fn clone(&self) -> Result<Setting, AllocError> {
        Ok(Setting {
            format: self.format,
            place: self.place.clone()?,
            homes: self.homes.clone()?,
        })
    }
}

/// Whether each number is below this one.
fn are_below(numbers: &[u8], end: u8) -> bool
    ensures { IsTrue result ↔ All (λ n. n < end) numbers.now }
{
    numbers.iter().all(|n| *n < end)
}
