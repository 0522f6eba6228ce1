//! The table of a world's events, from which macros generate the cases of its step.

/// Calls a macro with the given tokens and the events of a world. Each row has an event and the call of the state that
/// applies it. The outcomes are those of the node, and the refusals are in the calls, in their order.
macro_rules! events {
    ($make:ident $($given:tt)*) => {
        $make! {
            $($given)*;
            Put { client, key, value } => put(*client, key, value)
            Del { client, key } => del(*client, key)
            Get { client, key } => get(*client, key)
            Deliver { dc, version } => deliver(*dc, *version)
            Ask { dc, key, version } => ask(*dc, key, *version)
            Mark { dc, version, dep } => mark(*dc, *version, *dep)
            Settle { dc, version } => settle(*dc, *version)
        }
    };
}

/// Generates the match of an event to the state's call, from the rows.
macro_rules! answer {
    ($state:expr, $setting:expr, $event:expr; $($name:ident { $($field:ident),* } => $call:ident($($argument:expr),*))*) => {
        match $event {
            $(Event::$name { $($field),* } => $state.$call($setting, $($argument),*),)*
        }
    };
}

pub(crate) use answer;
pub(crate) use events;
