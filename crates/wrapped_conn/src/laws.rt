//! A turn of a connection is a lawful turn of the server's model, with the packets that the model says, byte for byte.

ghost use Rattle.std.specs.Prelude.{◌≡◌, ℕ, List, length};
ghost use Rattle.ft_io.specs.declared.Addr.{Addr};
ghost use Rattle.seq_arith.specs.Message.{Numbers};
ghost use Rattle.seq_arith.specs.Packet.{Segment};
ghost use Rattle.server_trait.specs.Service.{machine};
ghost use Rattle.tcp_rules.specs.Profile.{Profile};
ghost use Rattle.tcp_rules.specs.declared.timestamping.Timestamping.{Timestamping};
ghost use Rattle.ft_model.specs.Log.{Entry};
ghost use Rattle.ft_model.specs.News.News.{Comes, Logged, Ticks, Begins};
ghost use Rattle.ft_model.specs.Opening.{point_opened};
ghost use Rattle.ft_model.specs.Point.{Point};
ghost use Rattle.ft_model.specs.Restart.{point_of, resumed_at};
ghost use Rattle.logger_wire.specs.declared.Body.TheVariants.{Stable, Reads};
ghost use Rattle.logger_wire.specs.declared.records.Kept.{Kept};
ghost use Rattle.logger_wire.specs.Records.{kept_said};
ghost use Rattle.north_wrap.specs.NorthState.{NorthState};
ghost use Rattle.north_wrap.specs.Refinement.{HasReplayed};
ghost use Rattle.south_wrap.specs.SouthPoint.{south_at};
ghost use Rattle.connection_laws.specs.FirstSyn.{MayOpen};
ghost use Rattle.connection_laws.specs.Splice.{ProceedsFrom, delta_from, spliced_measuring};
ghost use Rattle.connection_laws.specs.Turn.{NewsFit};
ghost use Rattle.wrapped_conn.specs.ConnState.{ConnState};
ghost use Rattle.wrapped_conn.specs.NewConnection.{first_conn_in, joined_conn_in};
ghost use Rattle.wrapped_conn.specs.Sound.{IsSound};
ghost use Rattle.wrapped_conn.specs.Refinement.{Stands, StandsBefore, Leads, Reports};
ghost use Rattle.wrapped_conn.specs.Turn.{Starts, Receives, IsReported, Ticks as TicksOn};

use server_trait::Service;

/// A connection that a restart joins from three parts, which continue from an entry of the log, is at the point of that entry.
pub fn joined_connections_stand_at_the_entry<S: Service>()
    ensures { (fresh : S) (profile : Profile) (boot : ℕ) (local : Addr) (e : Entry) (i : ℕ) (n : NorthState S)
        → ProceedsFrom (machine fresh S.after S.greeting) e i
        → HasReplayed (machine fresh S.after S.greeting) (point_of (machine fresh S.after S.greeting) profile e)
        (resumed_at (machine fresh S.after S.greeting) e) n
        → StandsBefore (machine fresh S.after S.greeting)
        (joined_conn_in profile boot e.key local
        (south_at (delta_from (machine fresh S.after S.greeting) e i) (point_of (machine fresh S.after S.greeting) profile e))
        (spliced_measuring profile.measures e.key local e.cisn (length e.bytes) e.mss i e.fin) n) (point_of (machine fresh S.after S.greeting) profile e) }
{}

/// The turn in which a connection becomes live is lawful: that of a new one from the point that its client's SYN opens, and that of one at the end of a restart
/// from the point of its parts.
pub fn connections_start_as_the_law_says<S: Service>()
    ensures new { (fresh : S) (profile : Profile) (timestamping : Timestamping) (boot : ℕ) (local : Addr) (numbers : Numbers) (new : ConnState S)
        (segments messages : List (List ℕ)) → MayOpen numbers
        → IsSound new
        → Starts S.after (first_conn_in profile timestamping boot numbers.key local numbers.cisn numbers.sisn numbers.mss fresh (S.greeting fresh))
        new segments messages
        → Leads (machine fresh S.after S.greeting) local boot Begins (point_opened profile timestamping numbers) new segments messages }
    ensures joined { (fresh : S) (p : Point) (old new : ConnState S) (segments messages : List (List ℕ)) → IsSound old → IsSound new
        → StandsBefore (machine fresh S.after S.greeting) old p
        → Starts S.after old new segments messages → Leads (machine fresh S.after S.greeting) old.local old.boot Begins p new segments messages }
{}

/// A segment's turn is lawful, also if the segment resets the connection or arrives after a reset.
pub fn connections_receive_as_the_law_says<S: Service>()
    ensures { (fresh : S) (p : Point) (segment : Segment) (old new : ConnState S) (segments messages : List (List ℕ)) → IsSound old → IsSound new
        → Stands (machine fresh S.after S.greeting) old p
        → NewsFit p (Comes segment) → Receives S.after segment old new segments messages
        → Leads (machine fresh S.after S.greeting) old.local old.boot (Comes segment) p new segments messages }
{}

/// The turn of a message that says how much of the connection is logged is lawful.
pub fn connections_receive_messages_as_the_law_says<S: Service>()
    ensures stable { (fresh : S) (p : Point) (kept : Kept) (old new : ConnState S) (segments messages : List (List ℕ)) → IsSound old → IsSound new
        → Stands (machine fresh S.after S.greeting) old p → IsReported S.after (Stable kept) old new segments messages
        → Leads (machine fresh S.after S.greeting) old.local old.boot (Logged (kept_said kept)) p new segments messages }
    ensures reads { (fresh : S) (p : Point) (kept : Kept) (old new : ConnState S) (segments messages : List (List ℕ)) → IsSound old → IsSound new
        → Stands (machine fresh S.after S.greeting) old p → IsReported S.after (Reads kept) old new segments messages
        → Leads (machine fresh S.after S.greeting) old.local old.boot (Logged (kept_said kept)) p new segments messages }
{}

/// A tick's turn is lawful.
pub fn connections_tick_as_the_law_says<S: Service>()
    ensures { (fresh : S) (p : Point) (old new : ConnState S) (segments messages : List (List ℕ)) → IsSound old
        → Stands (machine fresh S.after S.greeting) old p
        → TicksOn old new segments messages → Leads (machine fresh S.after S.greeting) old.local old.boot Ticks p new segments messages }
{}

/// Between two turns the numbers that `inside` returns are the point's, also for a connection that its client has reset.
pub fn connections_show_their_point<S: Service>()
    ensures { (fresh : S) (p : Point) (c : ConnState S) → IsSound c → Stands (machine fresh S.after S.greeting) c p → Reports p c }
{}
