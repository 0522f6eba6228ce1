//! Theorems about the grammar alone, for every format. Each is stated as the contract of a function with an empty body.
ghost use Rattle.std.specs.Prelude.{◌≡◌, ◌≢◌, ◌<◌, ◌≤◌, ◌+◌, ◌++◌, ◌↔◌, ℕ, [], List, Result, Ok, Err, length, drop};
ghost use Rattle.cops_types.specs.declared.format.Format.{Format};
ghost use Rattle.cops_types.specs.Format.{longest_body};
ghost use Rattle.cops_wire.specs.declared.fault.WireFault.{WireFault};
ghost use Rattle.cops_wire.specs.declared.message.Message.{Message};
ghost use Rattle.cops_wire.specs.Answer.{IsBytes, IsAnswer, IsShort, BeginsWithKnown, BeginsWithTaking, IsFromFields};
ghost use Rattle.cops_wire.specs.Grammar.{grammar, grammar_one, grammar_two, Parts, encoding};
ghost use Rattle.cops_wire.specs.Legal.{IsMessage};
ghost use Rattle.cops_wire.specs.Message.{parts};
ghost use Rattle.cops_wire.specs.Reading.{frame_at};

/// No encoding of a message is a prefix of another's, and each encodes only one message.
pub fn one_encoding()
    ensures { (format : Format) (m n : Message) (x y : List ℕ) → IsMessage (grammar format) (parts m) → IsMessage (grammar format) (parts n)
        → encoding (grammar format) (parts m) ++ x ≡ encoding (grammar format) (parts n) ++ y → (m ≡ n) × (x ≡ y) }
{}

/// A message of format 1 has the same encoding in format 2.
pub fn first_is_in_second()
    ensures { (m : Message) → IsMessage grammar_one (parts m) → IsMessage grammar_two (parts m) × (encoding grammar_two (parts m) ≡ encoding grammar_one (parts m)) }
{}

/// Decoding bytes has at most one result.
pub fn one_answer()
    ensures { (format : Format) (bytes : List ℕ) → IsBytes bytes → (a b : Result (Parts × ℕ) WireFault)
        → IsAnswer (grammar format) bytes a → IsAnswer (grammar format) bytes b → a ≡ b }
{}

/// More bytes at the end change no result of decoding except `Short`. So a fault at the front of a stream stays.
pub fn answer_stays()
    ensures { (format : Format) (bytes more : List ℕ) (a : Result (Parts × ℕ) WireFault) → a ≢ Err WireFault.Short
        → IsAnswer (grammar format) bytes a → IsAnswer (grammar format) (bytes ++ more) a }
{}

/// An encoding decodes to its message, whatever follows it.
pub fn encoding_is_answered()
    ensures { (format : Format) (m : Message) (rest : List ℕ) → IsMessage (grammar format) (parts m)
        → IsAnswer (grammar format) (encoding (grammar format) (parts m) ++ rest) (Ok (parts m, length (encoding (grammar format) (parts m)))) }
{}

/// If bytes decode to a message, they are the message's encoding and then the bytes that were not used.
pub fn answer_splits()
    ensures { (format : Format) (bytes : List ℕ) (p : Parts) (used : ℕ) → IsAnswer (grammar format) bytes (Ok (p, used))
        → IsMessage (grammar format) p × (used ≡ length (encoding (grammar format) p)) × (bytes ≡ encoding (grammar format) p ++ drop used bytes) }
{}

/// The result of decoding is what reading from left to right gives.
pub fn answer_is_read()
    ensures { (format : Format) (bytes : List ℕ) → IsBytes bytes → (a : Result (Parts × ℕ) WireFault)
        → IsAnswer (grammar format) bytes a ↔ (a ≡ frame_at (grammar format) bytes) }
{}

/// Messages of the same kind with the same contents are equal.
pub fn parts_determine_messages()
    ensures { (m n : Message) → parts m ≡ parts n → m ≡ n }
{}

/// A legal message's encoding has more than 4 bytes, and at most as many as a frame may have.
pub fn encoding_is_bounded()
    ensures { (format : Format) (m : Message) → IsMessage (grammar format) (parts m)
        → (4 < length (encoding (grammar format) (parts m))) × (length (encoding (grammar format) (parts m)) ≤ 4 + longest_body format) }
{}

/// A proper prefix of an encoding is no whole frame.
pub fn prefix_is_short()
    ensures { (format : Format) (m : Message) (x y : List ℕ) → IsMessage (grammar format) (parts m)
        → encoding (grammar format) (parts m) ≡ x ++ y → y ≢ [] → IsShort (grammar format) x }
{}

/// If memory may run out, at a field whose reading allocates, then the bytes begin with a whole frame of a known kind.
pub fn taking_is_known()
    ensures { (format : Format) (bytes : List ℕ) → BeginsWithTaking (grammar format) bytes → BeginsWithKnown (grammar format) bytes }
{}

/// A whole frame of a known kind decodes to a message, a bad field or trailing bytes.
pub fn known_is_from_fields()
    ensures { (format : Format) (bytes : List ℕ) → IsBytes bytes → BeginsWithKnown (grammar format) bytes
        → (a : Result (Parts × ℕ) WireFault) → IsAnswer (grammar format) bytes a → IsFromFields a }
{}
