//! The table of a node's events and outcomes, from which the `match` expressions of this crate are generated.

/// Calls a macro with its arguments followed by the table of a node's events. Each row has an event, the node's call
/// for it, and the outcome for each answer of the part of the node that this call asks.
macro_rules! events {
    ($make:ident $($given:tt)*) => {
        $make! {
            $($given)*;
            Put { client, key, value, deps } => put(client, key, value, deps) {
                Ok(version) => PutDone(version),
                Err(refused) => Refused(refused)
            }
            Del { client, key, deps } => del(client, key, deps) {
                Ok(version) => Deleted(version),
                Err(refused) => Refused(refused)
            }
            Get { client, key } => get(client, &key) {
                Ok(Some((content, version))) => found(content, version),
                Ok(None) => Missed,
                Err(Memory) => Refused(Refusal::Memory)
            }
            Deliver(put) => deliver(put) {
                Ok(Taken::New) => Held,
                Ok(Taken::Repeat) => Repeat,
                Err(Memory) => Refused(Refusal::Memory)
            }
            Ask { key, version } => ask(&key, version) {
                true => Yes,
                false => Wait
            }
            Mark { version, dep } => mark(version, dep) {
                Ok(()) => Marked,
                Err(fault) => Refused(refusal(fault))
            }
            Settle { version } => settle(version) {
                Ok(()) => Settled,
                Err(fault) => Refused(refusal(fault))
            }
        }
    };
}

/// Generates the `match` from an event's answers to its outcomes, from the event's row.
macro_rules! row {
    (Put $answer:expr; Put $($rows:tt)*) => { row!(@ $answer; $($rows)*) };
    (Del $answer:expr; Del $($rows:tt)*) => { row!(@ $answer; $($rows)*) };
    (Get $answer:expr; Get $($rows:tt)*) => { row!(@ $answer; $($rows)*) };
    (Deliver $answer:expr; Deliver $($rows:tt)*) => { row!(@ $answer; $($rows)*) };
    (Ask $answer:expr; Ask $($rows:tt)*) => { row!(@ $answer; $($rows)*) };
    (Mark $answer:expr; Mark $($rows:tt)*) => { row!(@ $answer; $($rows)*) };
    (Settle $answer:expr; Settle $($rows:tt)*) => { row!(@ $answer; $($rows)*) };
    (@ $answer:expr; $fields:tt => $call:ident $arguments:tt { $($given:pat => $outcome:ident $(($($value:expr),*))?),* } $($rows:tt)*) => {
        match $answer {
            $($given => Outcome::$outcome $(($($value),*))?,)*
        }
    };
    ($event:ident $answer:expr; $other:ident $fields:tt => $call:ident $arguments:tt $outcomes:tt $($rows:tt)*) => {
        row!($event $answer; $($rows)*)
    };
}

pub(crate) use events;
pub(crate) use row;
