//! At the point of its connection, the wrapper does what the model's laws say.

ghost use Rattle.std.specs.Prelude.{◌≡◌, ◌≤◌, ◌+◌, ℕ, max, length};
ghost use Rattle.seq_arith.specs.Packet.{Segment};
ghost use Rattle.ft_model.specs.Point.{Point, acknowledgement, window as window_by_law};
ghost use Rattle.ft_model.specs.Copy.{copy_start, copied_text, copies_fin};
ghost use Rattle.ft_model.specs.Taken.{acknowledges_unsent};
ghost use Rattle.ft_model.specs.Segments as model;
ghost use Rattle.south_wrap.specs.SouthState.{acknowledged, acknowledges_unsent as is_unsent, window, with_stable};
ghost use Rattle.ft_model.specs.News.News.{Comes};
ghost use Rattle.ft_model.specs.Timestamps.{is_timely as timely_by_law, timestamping_after};
ghost use Rattle.south_wrap.specs.Translation.{repeats_syn, copied, is_timely, with_value_of};
ghost use Rattle.south_wrap.specs.SouthPoint.{south_at};

/// It acknowledges and advertises what the laws Acknowledgement and Window say.
pub fn it_reports_what_the_laws_say()
    ensures acknowledgement { (delta : ℕ) (p : Point) → acknowledged (south_at delta p) ≡ acknowledgement p }
    ensures window { (delta : ℕ) (p : Point) → window (south_at delta p) ≡ window_by_law p }
{}

/// It copies what the law Copy says.
pub fn it_copies_what_the_law_says()
    ensures offset { (delta : ℕ) (p : Point) (segment : Segment) → (copied (south_at delta p) segment).offset ≡ copy_start p segment }
    ensures text { (delta : ℕ) (p : Point) (segment : Segment) → (copied (south_at delta p) segment).text ≡ copied_text p segment }
    ensures fin { (delta : ℕ) (p : Point) (segment : Segment) → (copied (south_at delta p) segment).fin ≡ copies_fin p segment }
{}

/// It answers with the SYN-ACK of the logged numbers where the law on segments does.
pub fn it_repeats_the_syn_ack_as_the_law_says()
    ensures { (delta : ℕ) (p : Point) (segment : Segment) → repeats_syn (south_at delta p) segment ≡ model.repeats_syn p segment }
{}

/// It knows which acknowledgements are of what was never sent, as the law Taken does.
#[tactic(auto, unfolding(ft_model::specs::Taken::acknowledges_unsent))]
pub fn it_knows_what_was_never_sent()
    ensures { (delta : ℕ) (p : Point) (segment : Segment) → is_unsent (south_at delta p) segment.head.ack ≡ acknowledges_unsent p segment }
{}

/// What is known to be logged rises as the law Answered says.
pub fn it_receives_what_is_logged()
    ensures { (delta : ℕ) (p : Point) (units : ℕ) → with_stable units (south_at delta p) ≡ south_at delta (record p { answered = max p.answered units }) }
{}

/// It notes which value of the client is echoed as the law Timestamps says, and its segments then carry what the law has them carry.
#[tactic(auto, unfolding(ft_model::specs::Timestamps::is_timely, ft_model::specs::Taken::accepts))]
pub fn it_echoes_what_the_law_says()
    ensures timely { (delta : ℕ) (p : Point) (segment : Segment) → is_timely (south_at delta p) segment ≡ timely_by_law p segment }
    ensures value { (delta : ℕ) (p : Point) (segment : Segment)
        → with_value_of segment (south_at delta p) ≡ south_at delta (record p { timestamping = timestamping_after (Comes segment) p }) }
{}
