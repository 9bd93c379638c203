//! Laws of the definitions in `specs`, each the contract of a function with an empty body, for the crates above to cite. Most say that a test on offsets has
//! the same result if both sides of it move by the same number.

ghost use Rattle.std.specs.Prelude.{◌≡◌, ◌<◌, ◌≤◌, ◌+◌, ◌-◌, ◌*◌, ℕ, ℤ, pos, ◌+ℤ◌, Bool, true, false, List, [], length, take, drop};
ghost use Rattle.std.specs.Prelude.{nat_abs, ◌==◌, nat_le, min, if◌then◌else◌};
ghost use Rattle.tcp_rules.specs.Arrival.{is_acceptable, is_usable, below, text_between, is_new_ack, is_beyond, una_after, updates_window};
ghost use Rattle.tcp_rules.specs.Coming.{Early, early_from, came_from, nothing_came, comes, StandsBehind};
ghost use Rattle.tcp_rules.specs.Congestion.{Congestion, most_window, initial_congestion, growth, with_new_data, lowered_threshold, is_third};
ghost use Rattle.tcp_rules.specs.Congestion.{with_duplicate, with_expiry, IsOpen};
ghost use Rattle.tcp_rules.specs.Timing.{initial_timing, with_acknowledged, with_tick, without_trip, with_backoff, with_sent};

/// Whether a segment is acceptable stays the same if RCV.NXT and the segment's offset move by the same number.
pub fn acceptable_shifts()
    ensures { (next window k : ℕ) (first : ℤ) (len : ℕ)
        → is_acceptable (next + k) window (first +ℤ pos k) len ≡ is_acceptable next window first len }
{}

/// Whether a segment is used stays the same if RCV.NXT and the segment's offset move by the same number.
pub fn usable_shifts()
    ensures { (next window k : ℕ) (first : ℤ) (len : ℕ) → is_usable (next + k) window (first +ℤ pos k) len ≡ is_usable next window first len }
{}

/// What a segment does to the stream stays the same if all offsets move by the same number; the offsets of what is held move by it too.
pub fn coming_shifts()
    ensures { (n edge k : ℕ) (fin : Bool) (early : Early) (first : ℤ) (text : List ℕ) (has_fin : Bool)
        → comes (n + k) (edge + k) fin (early_from k early) (first +ℤ pos k) text has_fin ≡ came_from k (comes n edge fin early first text has_fin) }
{}

/// How much of a text is below an offset stays the same if that offset and the text's move by the same number.
pub fn below_shifts()
    ensures { (next k : ℕ) (first : ℤ) → below (next + k) (first +ℤ pos k) ≡ below next first }
{}

/// Whether an acknowledgement is new stays the same if it, SND.UNA and SND.NXT move by the same number.
pub fn new_ack_shifts()
    ensures { (una sent k : ℕ) (ack : ℤ) → is_new_ack (una + k) (sent + k) (ack +ℤ pos k) ≡ is_new_ack una sent ack }
{}

/// Whether an acknowledgement is of something never sent stays the same if it and SND.NXT move by the same number.
pub fn beyond_shifts()
    ensures { (sent k : ℕ) (ack : ℤ) → is_beyond (sent + k) (ack +ℤ pos k) ≡ is_beyond sent ack }
{}

/// SND.UNA after an acknowledgement moves by k if SND.UNA before it and the acknowledgement do.
pub fn una_shifts()
    ensures { (una k ack : ℕ) → una_after (una + k) (ack + k) ≡ una_after una ack + k }
{}

/// Whether a segment updates the window stays the same if the offsets in the peer's stream move by j and those in our stream by k.
pub fn window_update_shifts()
    ensures { (una : ℕ) (wl1 : ℤ) (wl2 : ℕ) (first : ℤ) (ack j k : ℕ)
        → updates_window (una + k) (wl1 +ℤ pos j) (wl2 + k) (first +ℤ pos j) (ack + k) ≡ updates_window una wl1 wl2 first ack }
{}

/// Held data stays after the bytes taken, the bytes taken stay below the right edge, and a FIN that is newly taken is below it.
pub fn coming_keeps_to_the_edge()
    ensures behind { (n edge : ℕ) (fin : Bool) (early : Early) (first : ℤ) (text : List ℕ) (has_fin : Bool) → StandsBehind n edge fin early
        → StandsBehind (n + length (comes n edge fin early first text has_fin).added) edge (comes n edge fin early first text has_fin).fin
        (comes n edge fin early first text has_fin).early }
    ensures bytes { (n edge : ℕ) (fin : Bool) (early : Early) (first : ℤ) (text : List ℕ) (has_fin : Bool) → StandsBehind n edge fin early
        → n + length (comes n edge fin early first text has_fin).added ≤ edge }
    ensures fin { (n edge : ℕ) (early : Early) (first : ℤ) (text : List ℕ) (has_fin : Bool) → StandsBehind n edge false early
        → (comes n edge false early first text has_fin).fin ≡ true → n + length (comes n edge false early first text has_fin).added < edge }
{}

/// A segment changes nothing once the bytes taken reach the right edge, once the FIN is taken, or if it has neither text nor FIN. What is held stays held.
pub fn nothing_comes()
    ensures shut { (n : ℕ) (fin : Bool) (early : Early) (first : ℤ) (text : List ℕ) (has_fin : Bool) → StandsBehind n n fin early
        → comes n n fin early first text has_fin ≡ nothing_came early fin }
    ensures ended { (n edge : ℕ) (early : Early) (first : ℤ) (text : List ℕ) (has_fin : Bool) → StandsBehind n edge true early
        → comes n edge true early first text has_fin ≡ nothing_came early true }
    ensures bare { (n edge : ℕ) (fin : Bool) (early : Early) (first : ℤ) → StandsBehind n edge fin early
        → comes n edge fin early first [] false ≡ nothing_came early fin }
{}

/// Neither the congestion window nor the slow start threshold ever becomes 0.
#[tactic(auto, using(crate::proofs::Congested::opens))]
pub fn congestion_window_stays_open()
    ensures initially { (recovers : Bool) (mss : ℕ) → 1 ≤ mss → IsOpen mss (initial_congestion recovers mss) }
    ensures new_data { (mss units : ℕ) (c : Congestion) → IsOpen mss c → IsOpen mss (with_new_data mss units c) }
    ensures duplicate { (mss flight : ℕ) (c : Congestion) → IsOpen mss c → IsOpen mss (with_duplicate mss flight c) }
    ensures expiry { (mss flight : ℕ) (first : Bool) (c : Congestion) → IsOpen mss c → IsOpen mss (with_expiry mss flight first c) }
{}

/// No change takes the congestion window above 2^20.
#[tactic(auto, using(crate::proofs::Congested::new_data_bounded, crate::proofs::Congested::duplicate_bounded, crate::proofs::Congested::expiry_bounded))]
pub fn congestion_window_is_bounded()
    ensures new_data { (mss units : ℕ) (c : Congestion) → (with_new_data mss units c).cwnd ≤ most_window }
    ensures duplicate { (mss flight : ℕ) (c : Congestion) → c.cwnd ≤ most_window → (with_duplicate mss flight c).cwnd ≤ most_window }
    ensures expiry { (mss flight : ℕ) (first : Bool) (c : Congestion) → (with_expiry mss flight first c).cwnd ≤ most_window }
{}

/// Without recovery of further losses, congestion control is that of RFC 5681, and no loss is noted.
#[tactic(auto, using(crate::proofs::Cited::plain_congestion_notes_no_loss_lemmas))]
pub fn plain_congestion_notes_no_loss()
    ensures new_data { (mss units : ℕ) (c : Congestion) → c.recovers ≡ false → c.lost ≡ 0
        → with_new_data mss units c ≡ record c { cwnd = min most_window (if nat_le 3 c.dups then c.ssthresh else c.cwnd + growth mss units c); dups = 0 } }
    ensures third { (c : Congestion) → c.recovers ≡ false → is_third c ≡ (c.dups == 2) }
    ensures duplicate { (mss flight : ℕ) (c : Congestion) → c.recovers ≡ false → c.lost ≡ 0
        → with_duplicate mss flight c ≡ (if nat_le 3 c.dups then record c { cwnd = min most_window (c.cwnd + mss); dups = 4 }
        else (if c.dups == 2
        then record c { cwnd = min most_window (lowered_threshold mss flight + 3 * mss); ssthresh = lowered_threshold mss flight; dups = 3 }
        else record c { dups = c.dups + 1 })) }
    ensures expiry { (mss flight : ℕ) (first : Bool) (c : Congestion) → c.recovers ≡ false → c.lost ≡ 0
        → with_expiry mss flight first c ≡ record c {
          cwnd = min most_window mss;
          ssthresh = if first then lowered_threshold mss flight else c.ssthresh;
          dups = 0;
        } }
{}

/// The estimate of a sender that doesn't measure never changes, and its timer starts with one tick.
#[tactic(auto, unfolding(crate::proofs::Unfolded::unmeasured_timing_stays_words))]
pub fn unmeasured_timing_stays()
    ensures acknowledged { (units : ℕ) → with_acknowledged units (initial_timing false) ≡ initial_timing false }
    ensures tick { with_tick (initial_timing false) ≡ initial_timing false }
    ensures retransmission { without_trip (initial_timing false) ≡ initial_timing false }
    ensures expiry { (interval : ℕ) → with_backoff interval (initial_timing false) ≡ initial_timing false }
    ensures sent { (ahead : ℕ) → with_sent ahead (initial_timing false) ≡ initial_timing false }
    ensures base { (initial_timing false).base ≡ 1 }
{}

/// The text between two offsets is the text without its bytes below the first offset, cut at the second.
pub fn text_between_is_cut()
    ensures { (from to : ℕ) (first : ℤ) (text : List ℕ)
        → text_between from to first text ≡ take (to - nat_abs (first +ℤ pos (below from first))) (drop (below from first) text) }
{}
