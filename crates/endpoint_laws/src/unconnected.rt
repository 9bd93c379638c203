//! What an endpoint without a connection does: in CLOSED, LISTEN and SYN-SENT (RFC 9293, 3.10.7.1 to 3.10.7.3 and 3.10.8).

ghost use Rattle.std.specs.Prelude.{◌≡◌, ℕ, ◌++◌, ◌&&◌, ◌||◌, false, List, [], ◌∷◌, None, if◌then◌else◌};
ghost use Rattle.std.specs.Prelude.{true};
ghost use Rattle.std.specs.List.{AllByRecursion};
ghost use Rattle.seq_arith.specs.Packet.{Segment};
ghost use Rattle.ft_model.specs.News.{News};
ghost use Rattle.ft_model.specs.News.News.{Comes};
ghost use Rattle.ft_model.specs.Opening.{is_syn};
ghost use Rattle.tcp_endpoint.specs.Arrival.{received};
ghost use Rattle.endpoint_laws.specs.Advertisement.{Advertises, is_reported, ReadsOnlyTaken};
ghost use Rattle.tcp_endpoint.specs.declared.states.StateName.TheVariants.{Closed, Listen, SynSent};
ghost use Rattle.tcp_endpoint.specs.States.{is_syn_sent, has_begun};
ghost use Rattle.tcp_endpoint.specs.Tcb.{Tcb};
ghost use Rattle.endpoint_laws.specs.Laws.{IsTimedBy};
ghost use Rattle.endpoint_laws.specs.Turn.{Call, MayUse, arrived, before_flush, turned, sent_in};
ghost use Rattle.endpoint_laws.specs.PassiveOpen.{IsListening, brings_syn};
ghost use Rattle.endpoint_laws.specs.ActiveOpen.{IsConnecting};
ghost use Rattle.endpoint_laws.specs.Unconnected.{sent_in_closed, sent_in_listen, refused_in_syn_sent, resets_in_syn_sent, state_after_syn_sent, syn_of};
ghost use Rattle.endpoint_laws.specs.Unconnected.{expires_at, interval_waiting, rest_waiting};

/// CLOSED answers each segment except a RST with a RST, and sends nothing else.
pub fn closed_endpoints_refuse()
    ensures { (news : News) (calls : List Call) (e : Tcb) → e.name ≡ Closed → e.reset_reply ≡ None → sent_in news calls e ≡ sent_in_closed e.local news }
{}

/// A CLOSED endpoint stays CLOSED, whatever arrives and whatever the user does.
pub fn closed_endpoints_stay_closed()
    ensures { (news : News) (calls : List Call) (e : Tcb) → e.name ≡ Closed → e.reset_reply ≡ None
        → ((turned news calls e).name ≡ Closed) × ((turned news calls e).reset_reply ≡ None) × ((turned news calls e).local ≡ e.local)
        × ((turned news calls e).reset ≡ e.reset) }
{}

/// LISTEN answers an acknowledgement with a RST, unless the segment has RST itself, and sends nothing else while no SYN arrives that opens a connection.
pub fn listening_endpoints_refuse()
    ensures { (iss limit : ℕ) (news : News) (calls : List Call) (e : Tcb) → IsListening iss limit e → brings_syn news ≡ false
        → sent_in news calls e ≡ sent_in_listen e.local news }
{}

/// Of all that arrives only a SYN that opens a connection ends LISTEN, and nothing resets a listening endpoint.
pub fn listening_endpoints_wait_for_a_syn()
    ensures { (iss limit : ℕ) (news : News) (e : Tcb) → IsListening iss limit e → brings_syn news ≡ false
        → ((arrived news e).name ≡ Listen) × ((arrived news e).reset ≡ e.reset) }
{}

/// In the turn of that SYN at least one segment is sent that isn't a RST, and each such segment has ACK, acknowledges exactly the SYN, and advertises the
/// window. This holds for every limit.
pub fn syns_are_acknowledged()
    ensures { (iss limit : ℕ) (syn : Segment) (calls : List Call) (e : Tcb) → IsListening iss limit e → is_syn syn ≡ true
        → ReadsOnlyTaken calls (received e syn)
        → AllByRecursion (Advertises (before_flush (Comes syn) calls e)) (sent_in (Comes syn) calls e)
        × (is_reported (sent_in (Comes syn) calls e) ≡ true) }
{}

/// While an active open waits, it sends a RST in reply to an acknowledgement of anything but the SYN, retransmits the SYN when the timer expires, and sends
/// nothing else.
pub fn active_opens_send_their_syn_again()
    ensures { (iss limit : ℕ) (news : News) (calls : List Call) (e : Tcb) → IsConnecting iss limit e → MayUse calls (arrived news e)
        → has_begun (before_flush news calls e).name ≡ false
        → sent_in news calls e
        ≡ refused_in_syn_sent e.local iss news
        ++ (if is_syn_sent (before_flush news calls e).name && expires_at news e.sending then syn_of e.local e.remote iss limit ∷ [] else []) }
{}

/// While an active open waits, its timer continues at each tick, and no segment changes it.
pub fn active_opens_time_by_law()
    ensures { (iss limit : ℕ) (news : News) (calls : List Call) (e : Tcb) → IsConnecting iss limit e → MayUse calls (arrived news e)
        → (before_flush news calls e).name ≡ SynSent
        → IsTimedBy (turned news calls e).sending (interval_waiting news e.sending) (rest_waiting news e.sending) }
{}

/// A SYN that acknowledges the endpoint's own SYN establishes the connection, a RST that does so resets it, and nothing else ends SYN-SENT.
pub fn active_opens_wait_for_an_answer()
    ensures { (iss limit : ℕ) (news : News) (e : Tcb) → IsConnecting iss limit e
        → ((arrived news e).name ≡ state_after_syn_sent iss news) × ((arrived news e).reset ≡ (e.reset || resets_in_syn_sent iss news)) }
{}
