//! Laws of the definitions in `specs`, each the contract of a function with an empty body, for the crates above to cite: on numbers that move together, on
//! checksums, and on packets and messages that are read back, or damaged and refused.

ghost use Rattle.std.specs.Prelude.{◌≡◌, ◌<◌, ◌≤◌, ◌+◌, ◌-◌, ◌*◌, ◌/◌, ◌%◌, ◌^◌, ℕ, ℤ, pos, ◌-ℤ◌, ◌≤ℤ◌, false, List, ◌∷◌, ◌++◌, length, take};
ghost use Rattle.std.specs.Prelude.{Ok, Err, IsErr};
ghost use Rattle.seq_arith.specs.Number.{gap, number_at, offset_of};
ghost use Rattle.seq_arith.specs.Checksum.{word_sum, odd_after, check_of, Summed, with_bytes};
ghost use Rattle.seq_arith.specs.Damage.{flipped};
ghost use Rattle.seq_arith.specs.Packet.{Segment};
ghost use Rattle.seq_arith.specs.PacketGrammar.{IsSpellable, reading, spelling};
ghost use Rattle.seq_arith.specs.Message.{Message};
ghost use Rattle.seq_arith.specs.MessageGrammar.{IsSpellable as IsSpellableMessage, reading as message_reading, spelling as message_spelling};
ghost use Rattle.seq_arith.specs.MessageGrammar.{IsSpellableBy, reading_by, spelling_by};
ghost use Rattle.seq_arith.specs.declared.kinds.BadMsg.{BadMsg};
ghost use Rattle.seq_arith.specs.declared.kinds.Grammar.{Grammar};
ghost use Rattle.seq_arith.specs.TwinDatagram.{TwinDatagram};
ghost use Rattle.seq_arith.specs.TwinGrammar.{IsSpellable as IsSpellableTwin, reading as twin_reading, spelling as twin_spelling};
ghost use Rattle.seq_arith.specs.Mark.{MarkMessage};
ghost use Rattle.seq_arith.specs.MarkGrammar.{IsSpellable as IsSpellableMark, reading as mark_reading, spelling as mark_spelling};

/// A gap stays the same if both its ends move by the same number.
pub fn gap_shifts()
    ensures { (to from d : ℕ) → to < 2 ^ 32 → from < 2 ^ 32
        → gap ((to + d) % 2 ^ 32) ((from + d) % 2 ^ 32) ≡ gap to from }
{}

/// The gap from a number to the one k further on is k.
pub fn gap_is_the_way()
    ensures { (from k : ℕ) → from < 2 ^ 32 → k < 2 ^ 31 → gap ((from + k) % 2 ^ 32) from ≡ pos k }
{}

/// A gap is smaller by k if it begins k further on, as long as it stays in its range.
pub fn gap_shortens()
    ensures { (to from k : ℕ) → to < 2 ^ 32 → from < 2 ^ 32 → k < 2 ^ 31 → (pos k -ℤ pos (2 ^ 31)) ≤ℤ gap to from
        → gap to ((from + k) % 2 ^ 32) ≡ gap to from -ℤ pos k }
{}

/// The number of an offset names that offset, if the offset is below 2^31.
pub fn number_names_its_offset()
    ensures { (isn k : ℕ) → k < 2 ^ 31 → offset_of isn (number_at isn k) ≡ pos k }
{}

/// A number names the same offset if the number and the initial sequence number move by the same distance.
pub fn offset_shifts()
    ensures { (isn number d : ℕ) → number < 2 ^ 32
        → offset_of ((isn + d) % 2 ^ 32) ((number + d) % 2 ^ 32) ≡ offset_of isn number }
{}

/// Two pieces sum as the one string that they make.
pub fn pieces_sum_as_one()
    ensures { (summed : Summed) (a b : List ℕ) → with_bytes (with_bytes summed a) b ≡ with_bytes summed (a ++ b) }
{}

/// A string with its checksum in the place of a zero word has the checksum 0.
pub fn checksum_fits_in_place()
    ensures { (front rest : List ℕ) (check : ℕ) → odd_after false front ≡ false → check ≡ check_of (word_sum false (front ++ 0 ∷ 0 ∷ rest))
        → check_of (word_sum false (front ++ check / 256 % 256 ∷ check % 256 ∷ rest)) ≡ 0 }
{}

/// Replacing a word of a string changes its sum by the difference of the two words.
pub fn word_replaced()
    ensures { (front rest : List ℕ) (x y z w : ℕ) → odd_after false front ≡ false
        → word_sum false (front ++ z ∷ w ∷ rest) ≡ word_sum false (front ++ x ∷ y ∷ rest) - (256 * x + y) + (256 * z + w) }
{}

/// The spelling of a segment is read back as that segment.
pub fn spelling_is_read()
    ensures { (segment : Segment) → IsSpellable segment → reading (spelling segment) ≡ Ok segment }
{}

/// The spelling of a message is read back as that message.
pub fn message_is_read()
    ensures { (message : Message) → IsSpellableMessage message → message_reading (message_spelling message) ≡ Ok message }
{}

/// A packet with one bit inverted is refused.
pub fn flipped_packet_is_refused()
    ensures { (bit : ℕ) (bytes : List ℕ) (segment : Segment) → reading bytes ≡ Ok segment → bit < 8 * length bytes → IsErr (reading (flipped bit bytes)) }
{}

/// So is a packet that lost bytes at its end.
pub fn shortened_packet_is_refused()
    ensures { (n : ℕ) (bytes : List ℕ) (segment : Segment) → reading bytes ≡ Ok segment → n < length bytes → IsErr (reading (take n bytes)) }
{}

/// And so is one with further bytes after it.
pub fn lengthened_packet_is_refused()
    ensures { (bytes behind : List ℕ) (segment : Segment) → reading bytes ≡ Ok segment → 0 < length behind → IsErr (reading (bytes ++ behind)) }
{}

/// A message with one bit inverted is refused.
pub fn flipped_message_is_refused()
    ensures { (bit : ℕ) (bytes : List ℕ) (message : Message) → message_reading bytes ≡ Ok message → bit < 8 * length bytes
        → IsErr (message_reading (flipped bit bytes)) }
{}

/// So is a message that lost bytes at its end.
pub fn shortened_message_is_refused()
    ensures { (n : ℕ) (bytes : List ℕ) (message : Message) → message_reading bytes ≡ Ok message → n < length bytes → IsErr (message_reading (take n bytes)) }
{}

/// And so is one with further bytes after it.
pub fn lengthened_message_is_refused()
    ensures { (bytes behind : List ℕ) (message : Message) → message_reading bytes ≡ Ok message → 0 < length behind → IsErr (message_reading (bytes ++ behind)) }
{}

/// In each grammar the spelling of a message is read back as that message.
pub fn message_is_read_in_its_grammar()
    ensures { (grammar : Grammar) (message : Message) → IsSpellableBy grammar message → reading_by grammar (spelling_by grammar message) ≡ Ok message }
{}

/// What one grammar reads, the other refuses, because of its version.
pub fn no_grammar_reads_the_other()
    ensures { (grammar other : Grammar) (bytes : List ℕ) (message : Message) → reading_by grammar bytes ≡ Ok message → (grammar ≡ other → ⊥)
        → reading_by other bytes ≡ Err BadMsg.Version }
{}

/// A message of either grammar with one bit inverted is refused by it.
pub fn flipped_message_is_refused_by_its_grammar()
    ensures { (grammar : Grammar) (bit : ℕ) (bytes : List ℕ) (message : Message) → reading_by grammar bytes ≡ Ok message → bit < 8 * length bytes
        → IsErr (reading_by grammar (flipped bit bytes)) }
{}

/// The spelling of a datagram between two loggers is read back as that datagram.
pub fn twin_is_read()
    ensures { (datagram : TwinDatagram) → IsSpellableTwin datagram → twin_reading (twin_spelling datagram) ≡ Ok datagram }
{}

/// Such a datagram with one bit inverted is refused.
pub fn flipped_twin_is_refused()
    ensures { (bit : ℕ) (bytes : List ℕ) (datagram : TwinDatagram) → twin_reading bytes ≡ Ok datagram → bit < 8 * length bytes
        → IsErr (twin_reading (flipped bit bytes)) }
{}

/// The spelling of a message about marks is read back as that message.
pub fn mark_is_read()
    ensures { (message : MarkMessage) → IsSpellableMark message → mark_reading (mark_spelling message) ≡ Ok message }
{}

/// Such a message with one bit inverted is refused.
pub fn flipped_mark_is_refused()
    ensures { (bit : ℕ) (bytes : List ℕ) (message : MarkMessage) → mark_reading bytes ≡ Ok message → bit < 8 * length bytes
        → IsErr (mark_reading (flipped bit bytes)) }
{}
