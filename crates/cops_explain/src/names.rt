//! What clients, operations and faults are called.
ghost use Rattle.std.specs.Prelude.{◌≡◌, ◌++◌, OnOk, string_bytes};
ghost use Rattle.cops_audit.specs.Faults.{class_text};
ghost use Rattle.cops_explain.specs.Names.{client_text, fault_text, name_text, opening_text};

use crate::contents::{Form, Written, push_content};
use crate::naming::Naming;
use cops_audit::Fault;
use cops_types::OpName;
use std::fmt::Write;

/// Writes a client: `client 0`, or its name.
pub fn push_client(out: &mut String, form: Form, naming: &Naming, client: u16) -> Written
    ensures { OnOk result (string_bytes out.new ≡ string_bytes out.old ++ client_text form naming.now client) }
{
    match naming {
        Naming::Trace => write!(out, "client {client}"),
        Naming::Lines(names) => push_content(out, form, names.name(client)),
    }
}

/// Writes the name of an operation: `(0,0)`, or its client and the number of its line, as in `ann, line 2`.
pub fn push_name(out: &mut String, form: Form, naming: &Naming, name: OpName) -> Written
    ensures { OnOk result (string_bytes out.new ≡ string_bytes out.old ++ name_text form naming.now name) }
{
    match naming {
        Naming::Trace => write!(out, "{name}"),
        Naming::Lines(names) => {
            push_client(out, form, naming, name.client)?;
            let line = names.line(name);
            write!(out, ", line {line}")
        }
    }
}

/// Writes the beginning of a line about an operation: `(0,0) client 0 `, or `ann, line 2: `.
pub fn push_opening(out: &mut String, form: Form, naming: &Naming, name: OpName) -> Written
    ensures { OnOk result (string_bytes out.new ≡ string_bytes out.old ++ opening_text form naming.now name) }
{
    push_name(out, form, naming, name)?;
    match naming {
        Naming::Trace => {
            out.push_str(" ")?;
            push_client(out, form, naming, name.client)?;
            out.push_str(" ")
        }
        Naming::Lines(_) => out.push_str(": "),
    }
}

/// The name of a fault's class.
fn class_word(fault: Fault) -> &'static str
    ensures { result.now ≡ class_text fault }
{
    match fault {
        Fault::Doubled(_) => "doubled",
        Fault::NoSource(_) => "no source",
        Fault::NotAbove(_) => "not above",
        Fault::Stale(_) => "stale",
    }
}

/// Writes the class of a fault and the name of its operation.
pub fn push_fault(out: &mut String, form: Form, naming: &Naming, fault: Fault) -> Written
    ensures { OnOk result (string_bytes out.new ≡ string_bytes out.old ++ fault_text form naming.now fault) }
{
    out.push_str(class_word(fault))?;
    out.push_str(" ")?;
    push_name(out, form, naming, fault.name())
}
