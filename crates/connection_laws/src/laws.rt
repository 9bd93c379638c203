//! The laws of a wrapped connection and its inner TCP.

ghost use Rattle.limits.specs.Limits.{longest_stream};
ghost use Rattle.std.specs.Prelude.{◌≡◌, ◌≤◌, ◌<◌, ◌^◌, ◌++◌, ℕ, false, List, [], length};
ghost use Rattle.ft_io.specs.declared.Addr.{Addr};
ghost use Rattle.server_trait.specs.Service.{machine};
ghost use Rattle.tcp_rules.specs.Profile.{Profile};
ghost use Rattle.tcp_rules.specs.declared.timestamping.Timestamping.{Timestamping};
ghost use Rattle.ft_model.specs.Log.{Entry};
ghost use Rattle.ft_model.specs.Restart.{point_of, resumed_at};
ghost use Rattle.ft_model.specs.Network.{Packet};
ghost use Rattle.ft_model.specs.News.{News};
ghost use Rattle.ft_model.specs.News.News.{Comes, Ticks, Begins};
ghost use Rattle.ft_model.specs.Opening.{point_opened};
ghost use Rattle.ft_model.specs.ResetAndEnd.{reset_after};
ghost use Rattle.ft_model.specs.Sending.{acknowledged_after};
ghost use Rattle.ft_model.specs.Connection.{LiveTurn, ResetTurn};
ghost use Rattle.ft_model.specs.Point.{Point};
ghost use Rattle.seq_arith.specs.Packet.{Segment};
ghost use Rattle.seq_arith.specs.Message.{Numbers};
ghost use Rattle.tcp_endpoint.specs.Arrival.{received};
ghost use Rattle.tcp_endpoint.specs.UserCalls.{after_tick, write_room};
ghost use Rattle.tcp_endpoint.specs.Tcb.{Tcb};
ghost use Rattle.endpoint_laws.specs.Turn.{Call, MayUse, arrived};
ghost use Rattle.endpoint_laws.specs.ConnectionEnd.{IsNamedRightly, resets};
ghost use Rattle.north_wrap.specs.declared.read_record.ReadRecord.{ReadRecord};
ghost use Rattle.north_wrap.specs.NorthState.{Turns as NorthTurns, NorthState, lengths_of};
ghost use Rattle.north_wrap.specs.Refinement.{NorthStands, HasReplayed, given_text, off_socket};
ghost use Rattle.connection_laws.specs.FirstSyn.{MayOpen, BeginsInside, opened_syn, listens_with};
ghost use Rattle.connection_laws.specs.ClosedTcp.{StandsClosed, LeavesInside, EndsInside, ReadsOn, ProceedsClosed};
ghost use Rattle.connection_laws.specs.OutputFeed.{tcp_reader, tcp_writer, TurnsNorth, FedInside, north_calls, before_reads, given_after};
ghost use Rattle.connection_laws.specs.Traffic.{news_inside};
ghost use Rattle.connection_laws.specs.Parts.{PartsStand, PartsRest, PartsTurn, north_after_news, adds};
ghost use Rattle.connection_laws.specs.PointNumbers.{PartsShow, NewsShow};
ghost use Rattle.connection_laws.specs.Turn.{NewsFit, IsLater, Turns, StandsInside, UsesInside, TurnsInside};
ghost use Rattle.connection_laws.specs.Splice.{ProceedsFrom, delta_from, StandsAtEntry, spliced_measuring};

use server_trait::Service;

/// A lawful turn of a connection is also one of its inner TCP: if TCP is at the point inside before it, and its user is the service without the output that was
/// acknowledged before TCP began, TCP is at the point inside after it. TCP's segments, as the client receives them and with what the connection adds, are the
/// law's.
pub fn connections_turn_by_their_tcp<S: Service>()
    ensures { (fresh : S) (boot u i delta : ℕ) (news : News) (before after : Point) (calls : List Call) (e : Tcb) (sent : List Packet)
        → StandsInside u i delta before e → Turns (machine fresh S.after S.greeting) e.local boot news before after sent u i delta
        → UsesInside (machine fresh S.after S.greeting) u i delta news before after calls e
        → TurnsInside (machine fresh S.after S.greeting) u i delta news before after calls e }
{}

/// A fresh endpoint that has received the forged segments of an entry is at the point inside that of the entry. The parts of a connection are then at the point
/// of the entry, if its north wrapper was replayed.
pub fn splices_stand_at_the_entry<S: Service>()
    ensures tcp { (fresh : S) (profile : Profile) (i : ℕ) (local : Addr) (e : Entry) → ProceedsFrom (machine fresh S.after S.greeting) e i
        → StandsAtEntry (machine fresh S.after S.greeting) profile e i (spliced_measuring profile.measures e.key local e.cisn (length e.bytes) e.mss i e.fin) }
    ensures parts { (fresh : S) (profile : Profile) (i : ℕ) (local : Addr) (e : Entry) (n : NorthState S) → ProceedsFrom (machine fresh S.after S.greeting) e i
        → HasReplayed (machine fresh S.after S.greeting) (point_of (machine fresh S.after S.greeting) profile e)
        (resumed_at (machine fresh S.after S.greeting) e) n
        → PartsStand (machine fresh S.after S.greeting) (resumed_at (machine fresh S.after S.greeting) e) i (delta_from (machine fresh S.after S.greeting) e i)
        (resumed_at (machine fresh S.after S.greeting) e) (point_of (machine fresh S.after S.greeting) profile e) n
        (spliced_measuring profile.measures e.key local e.cisn (length e.bytes) e.mss i e.fin) }
{}

/// A new connection begins with its SYN: its TCP is at the point inside, with delta 0, and sends only the law's SYN-ACK.
pub fn new_connections_begin_by_their_syn<S: Service>()
    ensures { (fresh : S) (profile : Profile) (timestamping : Timestamping) (boot : ℕ) (local : Addr) (numbers : Numbers) (after : Point)
        (calls : List Call) (sent : List Packet) → MayOpen numbers
        → MayUse calls (received (listens_with profile.measures local numbers) (opened_syn local numbers))
        → LiveTurn (machine fresh S.after S.greeting) local boot Begins (point_opened profile timestamping numbers) after sent
        → BeginsInside (machine fresh S.after S.greeting) profile timestamping local numbers after calls }
{}

/// In the turn in which TCP becomes CLOSED, since it has taken the client's FIN and its own is acknowledged, TCP sends nothing, and the connection is over. A
/// pure ACK is sent if an ACK is pending, and nothing else.
pub fn connections_end_with_their_tcp<S: Service>()
    ensures { (fresh : S) (boot u i delta : ℕ) (news : News) (before after : Point) (calls : List Call) (e : Tcb) (sent : List Packet)
        → StandsInside u i delta before e → IsNamedRightly e → before.reset ≡ false → reset_after news before ≡ false → e.reset ≡ false
        → Turns (machine fresh S.after S.greeting) e.local boot news before after sent u i delta
        → LeavesInside (machine fresh S.after S.greeting) u i delta news before after calls e
        → EndsInside (machine fresh S.after S.greeting) u i delta news before after calls e }
{}

/// From then on the connection continues without TCP: TCP answers at most with a RST, which isn't passed on, and only its user's reads change it.
pub fn connections_outlive_their_tcp<S: Service>()
    ensures { (fresh : S) (boot u i delta : ℕ) (server : Addr) (news : News) (before after : Point) (calls : List Call) (e : Tcb) (sent : List Packet)
        → StandsClosed (machine fresh S.after S.greeting) u i delta before e → LiveTurn (machine fresh S.after S.greeting) server boot news before after sent
        → ReadsOn delta news before after calls e
        → ProceedsClosed (machine fresh S.after S.greeting) server u i delta news before after calls e }
{}

/// A RST at exactly the next number would reset TCP where it resets the connection, and nowhere else.
pub fn connections_are_reset_at_the_next_number()
    ensures { (u i delta : ℕ) (p : Point) (segment : Segment) (e : Tcb) → StandsInside u i delta p e → p.reset ≡ false → segment.head.seq < 2 ^ 32
        → resets (news_inside delta p (Comes segment)) e ≡ reset_after (Comes segment) p }
{}

/// A turn leads the parts of a connection from a point to the point after it: whatever arrives, except a RST at the next number, and whatever the north wrapper
/// then reads, the turn is lawful, and what is sent is what the laws say. This holds in every incarnation, from the turn on in which a connection becomes live
/// at the end of a restart, with its TCP open or CLOSED.
pub fn connections_turn_by_their_parts<S: Service>()
    ensures { (fresh : S) (boot u i delta given : ℕ) (news : News) (before : Point) (old new : NorthState S) (reads : List ReadRecord) (e t : Tcb)
        → PartsStand (machine fresh S.after S.greeting) u i delta given before old e → NewsFit before news → IsLater news before
        → reset_after news before ≡ false
        → NorthTurns S.after tcp_reader tcp_writer (acknowledged_after news before) (north_after_news news old)
        (arrived (news_inside delta before news) e) reads new t
        → new.run.made ≤ longest_stream
        → PartsTurn (machine fresh S.after S.greeting) e.local boot u i delta news before (lengths_of reads) new t }
{}

/// A new connection starts in the same way, from the SYN that its TCP has received: only its SYN-ACK is sent.
pub fn new_connections_start_with_their_parts<S: Service>()
    ensures { (fresh : S) (profile : Profile) (timestamping : Timestamping) (boot : ℕ) (local : Addr) (numbers : Numbers) (old new : NorthState S)
        (reads : List ReadRecord) (t : Tcb) → MayOpen numbers
        → NorthStands (machine fresh S.after S.greeting) (point_opened profile timestamping numbers) 0 old → old.shut ≡ false
        → NorthTurns S.after tcp_reader tcp_writer 0 old (received (listens_with profile.measures local numbers) (opened_syn local numbers)) reads new t
        → new.run.made ≤ longest_stream
        → PartsTurn (machine fresh S.after S.greeting) local boot 0 numbers.sisn 0 Begins (point_opened profile timestamping numbers) (lengths_of reads) new t }
{}

/// At a tick the north wrapper needs no turn, since nothing is due between two turns, and the connection adds nothing.
pub fn connections_tick_by_their_tcp<S: Service>()
    ensures turn { (fresh : S) (boot u i delta given : ℕ) (before : Point) (n : NorthState S) (e : Tcb)
        → PartsRest (machine fresh S.after S.greeting) u i delta given before n e
        → PartsTurn (machine fresh S.after S.greeting) e.local boot u i delta Ticks before [] n (after_tick e) }
    ensures adds { (fresh : S) (server : Addr) (boot : ℕ) (before after : Point) (t : Tcb) (sent : List Packet)
        → LiveTurn (machine fresh S.after S.greeting) server boot Ticks before after sent → after.lengths ≡ before.lengths ++ []
        → adds (machine fresh S.after S.greeting) Ticks before after t ≡ false }
{}

/// If the north wrapper makes its calls to TCP in a lawful turn, TCP is used as `connections_turn_by_their_tcp` requires, and `Feeds` holds after the turn.
pub fn north_feeds_tcp<S: Service>()
    ensures { (fresh : S) (boot u i delta given : ℕ) (news : News) (before after : Point) (sent : List Packet) (old new : NorthState S)
        (reads : List ReadRecord) (e t : Tcb)
        → StandsInside u i delta before e
        → (k : TurnsNorth (machine fresh S.after S.greeting) boot u i delta news before after sent given old new reads e t)
        → FedInside (machine fresh S.after S.greeting) u i delta news before after
        (given_after (machine fresh S.after S.greeting) before after given (arrived (news_inside delta before news) e)) new
        (north_calls
        (given_text (machine fresh S.after S.greeting) (before_reads before after) (write_room (arrived (news_inside delta before news) e)) given)
        k.turn.closes (off_socket (length old.rest) (lengths_of reads)))
        e t }
{}

/// Between two turns the parts of a connection show its numbers: the bytes taken, the FIN, whether it is over, and what is sent and acknowledged. TCP's numbers
/// are the client's, less delta. It is in TIME-WAIT or CLOSED exactly where the connection is over.
pub fn parts_show_the_point<S: Service>()
    ensures { (fresh : S) (u i delta given : ℕ) (p : Point) (n : NorthState S) (e : Tcb) → PartsStand (machine fresh S.after S.greeting) u i delta given p n e
        → PartsShow (machine fresh S.after S.greeting) delta p n e }
{}

/// Once a turn's news has arrived, the parts show what the laws on taking and on acknowledgements lead to.
pub fn news_show_the_point<S: Service>()
    ensures { (fresh : S) (u i delta given : ℕ) (news : News) (p : Point) (n : NorthState S) (e : Tcb)
        → PartsStand (machine fresh S.after S.greeting) u i delta given p n e
        → NewsFit p news → reset_after news p ≡ false → NewsShow delta news p n (arrived (news_inside delta p news) e) }
{}

/// A connection that its client has reset only learns what is logged, and so does its north wrapper.
pub fn reset_connections_receive_what_is_logged<S: Service>()
    ensures { (fresh : S) (boot given : ℕ) (news : News) (before after : Point) (n : NorthState S) (sent : List Packet)
        → NorthStands (machine fresh S.after S.greeting) before given n → ResetTurn boot news before after sent
        → NorthStands (machine fresh S.after S.greeting) after given (north_after_news news n) }
{}
