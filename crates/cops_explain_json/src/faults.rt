//! Faults as JSON objects.
ghost use Rattle.std.specs.Prelude.{◌≡◌, ◌++◌, map, take, IfOk, OnOk};
ghost use Rattle.serde_json.specs.View.{view};
ghost use Rattle.cops_audit.specs.Faults.{IsFault, fault_of_number, faults_of};
ghost use Rattle.cops_explain.specs.Refused.{HasItsFaults, HasItsPuts, history_of};
ghost use Rattle.cops_explain_json.specs.Objects.{members_in, with_members};
ghost use Rattle.cops_explain_json.specs.Operations.{seen};
ghost use Rattle.cops_explain_json.specs.Faults.{AddsShown, AreFaults, IsFaultJson, chain_members, puts_members};
ghost use Rattle.cops_explain_json.specs.Explanations.{IsOne};

use crate::object::Object;
use crate::operations::{add_operation, operation_json, operations_json};
use cops_audit::Fault;
use cops_explain::{MOST_OTHERS, NamedHistory, Refused};
use cops_types::{Memory, OpName};
use serde_json::Value as Json;
use std::alloc::{AllocError, Global};

/// Adds the first of the other puts with a version, and how many more there are.
fn add_puts(
    alloc: Global,
    object: &mut Object,
    named: &NamedHistory<'_>,
    others: &[OpName],
) -> Result<(), AllocError>
    ensures { OnOk result (members_in object.new ≡ with_members (members_in object.old) (puts_members (seen named.now) others.now)) }
{
    let listed = MOST_OTHERS.min(others.len());
    let list = operations_json(alloc, named, &others[..listed])?;
    object.add_list("puts", list)?;
    object.add_number("more_puts", (others.len() - listed) as u64)
}

/// Adds the newer put that a stale get had to know of, and the chain from it to the get.
fn add_chain(
    alloc: Global,
    object: &mut Object,
    named: &NamedHistory<'_>,
    newer: OpName,
    chain: &[OpName],
) -> Result<(), AllocError>
    ensures { OnOk result (members_in object.new ≡ with_members (members_in object.old) (chain_members (seen named.now) newer chain.now)) }
{
    let put = operation_json(alloc, named, newer)?;
    object.add("newer", put)?;
    let list = operations_json(alloc, named, chain)?;
    object.add_list("chain", list)
}

/// Adds the operations that show a fault, by its class.
fn add_shown(object: &mut Object, refused: Refused<'_>, fault: Fault) -> Result<(), Memory>
    requires puts { HasItsPuts refused }
    requires fault { IsFault (history_of refused).sessions fault }
    ensures { OnOk result
        (AddsShown (history_of refused.entry) fault (members_in object.old) (members_in object.new)) }
{
    let alloc = refused.alloc;
    let named = &refused.named;
    match fault {
        Fault::Doubled(op) => {
            let others = refused.others(op)?;
            add_puts(alloc, object, named, &others)?;
        }
        Fault::NoSource(op) => {
            let others = refused.others(op)?;
            add_puts(alloc, object, named, &others)?;
        }
        Fault::NotAbove(fault) => {
            let earlier = operation_json(alloc, named, fault.earlier)?;
            object.add("earlier", earlier)?;
        }
        Fault::Stale(fault) => {
            let chain = refused.chain(fault)?;
            add_chain(alloc, object, named, fault.newer, &chain)?;
        }
    }
    Ok(())
}

/// The fault of a number: the number, the operation at fault, and the operations that show the fault.
fn fault_json(refused: Refused<'_>, number: usize, fault: Fault) -> Result<Json, Memory>
    requires puts { HasItsPuts refused }
    requires fault { IsFault (history_of refused).sessions fault }
    ensures { IfOk result (λ json. IsFaultJson (history_of refused.entry) number fault (view json)) }
{
    let mut object = Object::new(refused.alloc);
    object.add_number("number", number as u64)?;
    add_operation(refused.alloc, &mut object, &refused.named, fault.name())?;
    add_shown(&mut object, refused, fault)?;
    Ok(object.into_json())
}

/// The objects of the first `count` faults, or of all where there are fewer.
pub fn faults_json(refused: Refused<'_>, count: usize) -> Result<Vec<Json>, Memory>
    requires puts { HasItsPuts refused }
    requires faults { HasItsFaults refused }
    ensures { IfOk result (λ list. let faults = faults_of refused.entry.faults.now in
        AreFaults (history_of refused.entry) 1 (take count faults) (map view list.items)) }
{
    let mut list = Vec::new(refused.alloc);
    for place in 0..count {
        if let Some(fault) = refused.faults.get(place) {
            let json = fault_json(refused, place + 1, fault)?;
            list.push(json)?;
        }
    }
    Ok(list)
}

/// The object of the fault with a number, if there is one.
pub fn one_fault(refused: Refused<'_>, number: u32) -> Result<Vec<Json>, Memory>
    requires puts { HasItsPuts refused }
    requires faults { HasItsFaults refused }
    ensures { IfOk result (λ list. let faults = faults_of refused.entry.faults.now in
        IsOne (history_of refused.entry) number (fault_of_number faults number) (map view list.items)) }
{
    let mut list = Vec::new(refused.alloc);
    if let Some(fault) = refused.faults.of_number(number) {
        let json = fault_json(refused, number as usize, fault)?;
        list.push(json)?;
    }
    Ok(list)
}
