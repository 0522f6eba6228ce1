//! Encoding and decoding of messages: what clients, nodes and traces send and store, each as one frame.
//!
//! A frame is a length of four bytes, big-endian, and then a body of that length: a byte for the kind, and the fields
//! of that kind in order. `specs/Grammar.antt` has the table of kinds and fields as a function of the format.
//! `specs/Answer.antt` defines what any bytes decode to: a message, or the first of the faults in a fixed order.
//! `encode` writes the only encoding of a message, `decode` returns exactly what those definitions say, and `Feeder`
//! does so for a stream that comes in pieces. `show` writes a message as the text that `specs/Shown.antt` gives it.
//! `laws` states what follows from the definitions alone: no encoding is a prefix of another, decoding has one result,
//! and more bytes do not change it.
//!
//! Stands on `cops_types` (keys, values, versions, dependencies, formats and their limits). The layers above use
//! `Message` and the calls here, the definitions of `specs/`, and for their proofs the lemmas of `proofs/Codec.antt`.
//! A new kind is a row of the table in `src/table.rt`, a row of the grammar, and a row of each function in
//! `specs/Message.antt`, `specs/Shown.antt` and `proofs/Messages.antt`; a new format is a row of each limit.
#![tactic(auto)]

mod buffer;
mod decoding;
mod encoding;
mod fault;
mod feeder;
mod field;
mod laws;
mod legality;
mod limits;
mod message;
mod put;
mod reading;
mod record;
mod record_view;
mod showing;
mod table;

pub use buffer::Buffer;
pub use decoding::{Decoded, decode, decode_in, whole_body};
pub use encoding::{body_len, encode, encode_put_after, encode_record, kind};
pub use fault::WireFault;
pub use feeder::Feeder;
pub use laws::{
    answer_is_read, answer_splits, answer_stays, encoding_is_answered, encoding_is_bounded,
    first_is_in_second, known_is_from_fields, one_answer, one_encoding, parts_determine_messages,
    prefix_is_short, taking_is_known,
};
pub use legality::{legal, legal_in};
pub use message::Message;
pub use record::{TraceRecord, record_of_message};
pub use record_view::{RecordView, record_at};
pub use showing::{show, show_bytes};
