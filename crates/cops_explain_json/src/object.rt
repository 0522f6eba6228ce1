//! JSON objects, made member by member, and their lines.
ghost use Rattle.std.specs.Prelude.{◌≡◌, false, map, IfOk, OnOk};
ghost use Rattle.serde_json.specs.Data.{no_members, null, object};
ghost use Rattle.serde_json.specs.View.{view};
ghost use Rattle.serde_json.specs.Written.{has_float};
ghost use Rattle.cops_json.specs.Json.{number_json, text_json};
ghost use Rattle.cops_explain_json.specs.Objects.{bytes_member, line_text, list_json, members_in, with_member};

use serde_json::{Map, Value as Json};
use std::alloc::{AllocError, Global};
use std::str;

/// An object that gains members.
#[derive(Drop)]
pub struct Object {
    alloc: Global,
    members: Map<String, Json>,
}

impl Object {
    /// An object without members.
    pub fn new(alloc: Global) -> Object
        ensures { members_in result ≡ no_members }
    {
        let members = Map::new(alloc);
        Object { alloc, members }
    }

    /// Adds a member. Fails if memory runs out, as each of the methods below.
    pub fn add(&mut self, name: &str, json: Json) -> Result<(), AllocError>
        ensures { OnOk result (members_in self.new ≡ with_member (members_in self.old) name.now (view json)) }
    {
        serde_json::put(&mut self.members, self.alloc, name, json)
    }

    /// Adds a number.
    pub fn add_number(&mut self, name: &str, number: u64) -> Result<(), AllocError>
        ensures { OnOk result (members_in self.new ≡ with_member (members_in self.old) name.now (number_json number)) }
    {
        self.add(name, Json::from(number))
    }

    /// Adds a text.
    pub fn add_text(&mut self, name: &str, text: &str) -> Result<(), AllocError>
        ensures { OnOk result (members_in self.new ≡ with_member (members_in self.old) name.now (text_json text.now)) }
    {
        let json = Json::try_from_str(self.alloc, text)?;
        self.add(name, json)
    }

    /// Adds a member without a value.
    pub fn add_null(&mut self, name: &str) -> Result<(), AllocError>
        ensures { OnOk result (members_in self.new ≡ with_member (members_in self.old) name.now null) }
    {
        self.add(name, Json::Null)
    }

    /// Adds a list.
    pub fn add_list(&mut self, name: &str, list: Vec<Json>) -> Result<(), AllocError>
        ensures { OnOk result (members_in self.new ≡ with_member (members_in self.old) name.now (list_json (map view list.items))) }
    {
        self.add(name, Json::Array(list))
    }

    /// Adds bytes, as a text, or, where they are no UTF-8, under the other name as hexadecimal digits.
    pub fn add_bytes(&mut self, name: &str, hex_name: &str, bytes: &[u8]) -> Result<(), AllocError>
        ensures { OnOk result (let member = bytes_member name.now hex_name.now bytes.now
            in members_in self.new ≡ with_member (members_in self.old) member.0 member.1) }
    {
        match str::from_utf8(bytes) {
            Ok(text) => self.add_text(name, text),
            Err(_) => {
                let digits = hex::encode(self.alloc, bytes)?;
                self.add_text(hex_name, digits.as_str())
            }
        }
    }

    /// The object in JSON.
    pub fn into_json(self) -> Json
        ensures { view result ≡ object (members_in self) }
    {
        Json::Object(self.members)
    }
}

/// The text of JSON without floats, in a line of its own.
pub fn line_of(alloc: Global, json: &Json) -> Result<Vec<u8>, AllocError>
    requires { has_float (view json.now) ≡ false }
    ensures { IfOk result (λ line. line.items ≡ line_text (view json.now)) }
{
    let mut line = json.to_vec(alloc)?;
    line.push(b'\n')?;
    Ok(line)
}
