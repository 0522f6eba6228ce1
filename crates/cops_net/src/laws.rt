//! A law of the protocol alone, stated as the contract of a function that does nothing.
ghost use Rattle.std.specs.Prelude.{◌≡◌, List, false, length};
ghost use Rattle.cops_types.specs.declared.format.Format.{Format};
ghost use Rattle.cops_wire.specs.declared.message.Message.{Message};
ghost use Rattle.cops_net.specs.declared.reply.Call.{Call};
ghost use Rattle.cops_net.specs.Protocol.{AreCallsOf, replies};

/// Where the calls are those of the messages, each message has exactly one reply.
pub fn one_reply_each()
    ensures { (format : Format) (ms : List Message) (calls : List Call) → AreCallsOf format false ms calls
        → length (replies format false ms calls) ≡ length ms }
{}
