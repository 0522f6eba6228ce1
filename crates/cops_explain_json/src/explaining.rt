ghost use Rattle.std.specs.Prelude.{◌≡◌, codes, map, IfOk, OnOk};
ghost use Rattle.serde_json.specs.View.{view};
ghost use Rattle.cops_audit.specs.Faults.{faults_of};
ghost use Rattle.cops_audit.specs.Verdicts.{IsVerdict};
ghost use Rattle.cops_explain.specs.Refused.{HasItsFaults, HasItsPuts, history_of};
ghost use Rattle.cops_explain_json.specs.Objects.{members_in, object_json, with_members};
ghost use Rattle.cops_explain_json.specs.Operations.{seen};
ghost use Rattle.cops_explain_json.specs.Explanations.{AreAsked, IsExplainedJson, IsVerdictJson, class_text, later_classes, outcome_members, outcomes_json, refusal_members, texts_json, verdict_members};

use crate::faults::{faults_json, one_fault};
use crate::object::{Object, line_of};
use cops_audit::{Faults, Verdict, puts_by_version};
use cops_explain::{FIRST_FAULTS, NamedHistory, Naming, Refused};
use cops_outcomes::OutcomeCounts;
use cops_types::{History, Memory, Selection};
use serde_json::{Value as Json, json};
use std::alloc::{AllocError, Global};

/// The objects of the faults that are asked for.
fn asked_json(refused: Refused<'_>, asked: Selection) -> Result<Vec<Json>, Memory>
    requires puts { HasItsPuts refused }
    requires faults { HasItsFaults refused }
    ensures { IfOk result (λ list.
        AreAsked (history_of refused.entry) (faults_of refused.entry.faults.now) asked (map view list.items)) }
{
    match asked {
        Selection::First => faults_json(refused, FIRST_FAULTS),
        Selection::All => faults_json(refused, refused.faults.len()),
        Selection::One(number) => one_fault(refused, number),
    }
}

/// How many puts of unknown outcome took effect, and how many are left out.
fn outcomes_json(alloc: Global, outcomes: OutcomeCounts) -> Result<Json, AllocError>
    ensures { IfOk result (λ json. view json ≡ outcomes_json outcomes) }
{
    let mut object = Object::new(alloc);
    object.add_number("took_effect", outcomes.took_effect as u64)?;
    object.add_number("left_out", outcomes.left_out as u64)?;
    Ok(object.into_json())
}

/// Adds the puts of unknown outcome, if there are any.
fn add_outcomes(
    alloc: Global,
    object: &mut Object,
    outcomes: OutcomeCounts,
) -> Result<(), AllocError>
    ensures { OnOk result (members_in object.new ≡ with_members (members_in object.old) (outcome_members outcomes)) }
{
    if outcomes.is_empty() {
        return Ok(());
    }
    object.add("unknown_outcomes", outcomes_json(alloc, outcomes)?)
}

/// Adds the verdict, the numbers of operations, puts and faults, and the puts of unknown outcome, if there are any.
fn add_verdict(
    alloc: Global,
    object: &mut Object,
    named: &NamedHistory<'_>,
    verdict: &str,
    faults: usize,
) -> Result<(), AllocError>
    ensures { OnOk result (members_in object.new ≡ with_members (members_in object.old) (verdict_members (seen named.now) verdict.now faults)) }
{
    object.add_text("verdict", verdict)?;
    object.add_number("operations", named.history.len() as u64)?;
    object.add_number("puts", named.history.puts() as u64)?;
    object.add_number("faults", faults as u64)?;
    add_outcomes(alloc, object, named.naming.outcomes())
}

/// The name of the class of faults.
fn class_text(faults: &Faults) -> &'static str
    ensures { result.now ≡ class_text faults.now }
{
    match faults {
        Faults::Doubled(_) => "doubled",
        Faults::NoSource(_) => "no source",
        Faults::NotAbove(_) => "not above",
        Faults::Stale(_) => "stale",
    }
}

/// The classes that were not looked for because of these faults.
fn later_classes(alloc: Global, faults: &Faults) -> Result<Json, AllocError>
    ensures { IfOk result (λ json. view json ≡ texts_json (later_classes faults.now)) }
{
    match faults {
        Faults::Doubled(_) => json!(in alloc; ["no source", "not above", "stale"]),
        Faults::NoSource(_) => json!(in alloc; ["not above", "stale"]),
        Faults::NotAbove(_) => json!(in alloc; ["stale"]),
        Faults::Stale(_) => json!(in alloc; []),
    }
}

/// Adds the class of faults, the objects of those that are asked for, and the classes that were not looked for.
fn add_refusal(
    alloc: Global,
    object: &mut Object,
    faults: &Faults,
    explained: Vec<Json>,
) -> Result<(), AllocError>
    ensures { OnOk result (members_in object.new ≡ with_members (members_in object.old) (refusal_members faults.now (map view explained.items))) }
{
    object.add_text("class", class_text(faults))?;
    object.add_list("explained", explained)?;
    object.add("not_looked_for", later_classes(alloc, faults)?)
}

/// The object of an accepted history.
fn accepted_json(alloc: Global, named: &NamedHistory<'_>) -> Result<Json, AllocError>
    ensures { IfOk result (λ json. view json ≡ object_json (verdict_members (seen named.now) (codes "accepted") 0)) }
{
    let mut object = Object::new(alloc);
    add_verdict(alloc, &mut object, named, "accepted", 0)?;
    Ok(object.into_json())
}

/// The object of a refused history, with the faults that are asked for.
fn refused_json(refused: Refused<'_>, asked: Selection) -> Result<Json, Memory>
    requires puts { HasItsPuts refused }
    requires faults { HasItsFaults refused }
    ensures { IfOk result (λ json.
        IsVerdictJson (history_of refused.entry) (Verdict.Refused refused.entry.faults.now) asked (view json)) }
{
    let alloc = refused.alloc;
    let faults = refused.faults;
    let explained = asked_json(refused, asked)?;
    let mut object = Object::new(alloc);
    add_verdict(alloc, &mut object, &refused.named, "refused", faults.len())?;
    add_refusal(alloc, &mut object, faults, explained)?;
    Ok(object.into_json())
}

/// The object of a verdict.
fn verdict_json(
    alloc: Global,
    named: &NamedHistory<'_>,
    verdict: &Verdict,
    asked: Selection,
) -> Result<Json, Memory>
    requires { IsVerdict named.now.history.now.sessions verdict.now }
    ensures { IfOk result (λ json. IsVerdictJson (seen named.now) verdict.now asked (view json)) }
{
    match verdict {
        Verdict::Accepted(_) => Ok(accepted_json(alloc, named)?),
        Verdict::Refused(faults) => {
            let puts = puts_by_version(alloc, named.history)?;
            let refused = Refused {
                alloc,
                named: *named,
                puts: &puts,
                faults,
            };
            refused_json(refused, asked)
        }
    }
}

/// The explanation of a verdict on a history, for programs: one JSON object in a line that ends with a line feed. It
/// has the verdict, and how many operations, puts and faults there are. Where lines have puts of unknown outcome, it
/// also has how many of them took effect, and how many are left out of the history. That of a refused history also has
/// the class of the faults, an object for each fault that is asked for, in order of names, and the classes that were
/// not looked for.
///
/// A fault's object has its number, counted from 1 among all faults, what its operation is called and did, and the
/// operations that show it: for a doubled put and a get without a source the first 20 other puts of its version, and
/// how many more there are; for a put that is not above what its client did before, the first such operation; for a
/// stale get the newer put, and the chain of `chain` from that put to the get.
///
/// An operation has its client and index, and in a recorder's lines also its client's name and its line. Bytes that are
/// no UTF-8 stand as hexadecimal digits under `key_hex`, `value_hex` or `name_hex`. The only error is `Memory`, where
/// memory runs out.
pub fn explain_json(
    alloc: Global,
    history: &History,
    naming: &Naming,
    verdict: &Verdict,
    asked: Selection,
) -> Result<Vec<u8>, Memory>
    requires { IsVerdict history.now.sessions verdict.now }
    ensures { IfOk result (λ text.
        IsExplainedJson (record { sessions = history.now.sessions; naming = naming.now }) verdict.now asked text.items) }
{
    let named = NamedHistory { history, naming };
    let json = verdict_json(alloc, &named, verdict, asked)?;
    Ok(line_of(alloc, &json)?)
}
