//! The kinds of arguments of the subcommands.
ghost use Rattle.std.specs.Prelude.{◌≡◌, false};
ghost use Rattle.clap.specs.Words.{rule_of};
ghost use Rattle.cops_command_line.specs.Commands.{flag_option, number_option, numbers_to, port_argument, positional, taking, value_option};

use crate::job::MAX_PORT;
use crate::texts::{PORT_HELP, Text};
use clap::builder::ValueParser;
use clap::{Arg, ArgAction, value_parser};
use std::alloc::Global;

/// An argument that takes a value.
fn taking_arg<'a>(alloc: Global, id: Text, name: Text, help: Text) -> Arg<'a>
    ensures rule { rule_of result ≡ taking id.now }
    ensures local { result.global ≡ false }
{
    Arg::new(alloc, id)
        .action(ArgAction::Set)
        .value_name(name)
        .help(help)
}

/// A required argument of a subcommand.
pub fn file_arg<'a>(alloc: Global, id: Text, name: Text, help: Text) -> Arg<'a>
    ensures rule { rule_of result ≡ positional id.now }
    ensures local { result.global ≡ false }
{
    taking_arg(alloc, id, name, help).required(true)
}

/// An option that takes a value.
pub fn value_arg<'a>(alloc: Global, id: Text, name: Text, help: Text) -> Arg<'a>
    ensures rule { rule_of result ≡ value_option id.now }
    ensures local { result.global ≡ false }
{
    taking_arg(alloc, id, name, help).long(id)
}

/// An option that takes no value.
pub fn flag_arg<'a>(alloc: Global, id: Text, help: Text) -> Arg<'a>
    ensures rule { rule_of result ≡ flag_option id.now }
    ensures local { result.global ≡ false }
{
    Arg::new(alloc, id)
        .long(id)
        .action(ArgAction::SetTrue)
        .help(help)
}

/// The numbers from 1 to `most`.
fn numbers_to<'a>(most: u32) -> ValueParser<'a>
    ensures { result ≡ numbers_to most }
{
    value_parser!(u32).range(1..=i64::from(most))
}

/// An option that takes a number from 1 to `most`.
pub fn number_arg<'a>(alloc: Global, id: Text, name: Text, most: u32, help: Text) -> Arg<'a>
    ensures rule { rule_of result ≡ number_option id.now most }
    ensures local { result.global ≡ false }
{
    value_arg(alloc, id, name, help).value_parser(numbers_to(most))
}

/// The port, which is required.
pub fn port_arg<'a>(alloc: Global) -> Arg<'a>
    ensures rule { rule_of result ≡ port_argument }
    ensures local { result.global ≡ false }
{
    file_arg(alloc, "port", "PORT", PORT_HELP).value_parser(numbers_to(u32::from(MAX_PORT)))
}
