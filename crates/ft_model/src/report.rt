//! The report of a run is only a definition, `specs/Report.antt`. Here are lines of it that were worked out by hand, for a run in which a client says hello to
//! an echo service, and the laws by which a report determines what it says.

ghost use Rattle.std.specs.Prelude.{◌≡◌, ◌<◌, ◌^◌, ℕ, Bool, Option, decimal, List, [], ◌∷◌, codes, None, Some, false};
ghost use Rattle.std.specs.List.{AllByRecursion};
ghost use Rattle.hex.specs.Hex.{IsBytes};
ghost use Rattle.ft_model.specs.Readable.{IsReadable, FitsSchedule, IsReadableTurn, IsWord, FitsU64, FitsOption, FitsWay};
ghost use Rattle.ft_model.specs.Texts.{line, hex_text, list_text, mss_text, bit_text, address_text, flags_text, way_text};
ghost use Rattle.ft_io.specs.declared.Addr.{Addr};
ghost use Rattle.seq_arith.specs.Message.Body.{HelloMsg};
ghost use Rattle.ft_model.specs.Client.{Client};
ghost use Rattle.ft_model.specs.Network.{Packet};
ghost use Rattle.ft_model.specs.FirstPath.{client_key, from_client, from_server, hello, opening, bytes_to_log, read, stable, reads, entry, part, cuts, lens};
ghost use Rattle.ft_model.specs.Report.{event_line, packet_line, line_of_packet, forward_words, got_words, way_of, turns_of, report, profile_line};
ghost use Rattle.ft_model.specs.Report.{lasting_line, phase_line};
ghost use Rattle.ft_model.specs.Report.{entry_line, end_line};
ghost use Rattle.ft_model.specs.Schedule.{clients_of};
ghost use Rattle.ft_model.specs.World.{Moment};
ghost use Rattle.ft_model.specs.Legal.{Legal, machines};
ghost use Rattle.ft_model.specs.declared.schedule.Schedule.{Schedule};
ghost use Rattle.ft_model.specs.declared.way.Way.{Way};
ghost use Rattle.ft_model.specs.declared.way.Way.TheVariants.{ClientToServer, ServerToClient, ServerToLogger, LoggerToServer, HeadToTail, TailToHead};
ghost use Rattle.ft_model.specs.declared.event.Event.TheVariants.{Begin, Boot, Deliver, Send, Stop};
ghost use Rattle.ft_model.specs.declared.phase.Phase.TheVariants.{Established};
ghost use Rattle.tcp_rules.specs.declared.profile.Profile.TheVariants.{Plain, Wan};

use server_trait::Service;

/// Each form of line, by an example: segments, messages, events, and the state of client and log at the end.
pub fn worked_lines()
    ensures boot { event_line 1 (Boot 1 5000) ≡ codes "event 1 boot 1 5000\n" }
    ensures deliver { event_line 2 (Deliver 1) ≡ codes "event 2 deliver 1\n" }
    ensures begin { event_line 4 (Begin 1 65535) ≡ codes "event 4 open 1 65535\n" }
    ensures send { event_line 11 (Send 1 0 5) ≡ codes "event 11 send 1 0 5\n" }
    ensures stop { event_line 9 (Stop 1) ≡ codes "event 9 stop 1\n" }

    ensures syn { packet_line 3 (ClientToServer 1) (from_client 1000 0 2 [])
        ≡ codes "packet 3 1>S S seq 1000 ack 0 window 65535 mss - data -\n" }
    ensures syn_ack { packet_line 6 (ServerToClient 1) (from_server 5000 1001 18 (Some 1460) [])
        ≡ codes "packet 6 S>1 AS seq 5000 ack 1001 window 65535 mss 1460 data -\n" }
    ensures text { packet_line 8 (ClientToServer 1) (from_client 1001 5001 16 (codes "hello"))
        ≡ codes "packet 8 1>S A seq 1001 ack 5001 window 65535 mss - data 68656c6c6f\n" }

    ensures hello { packet_line 1 ServerToLogger hello ≡ codes "packet 1 S>L Hello boot 1\n" }
    ensures opening { packet_line 4 ServerToLogger opening
        ≡ codes "packet 4 S>L Open boot 1 key 192.0.2.1:40000 cisn 1000 sisn 5000 mss 536\n" }
    ensures bytes { packet_line 10 ServerToLogger bytes_to_log
        ≡ codes "packet 10 S>L Data boot 1 key 192.0.2.1:40000 offset 0 acked 0 fin 0 bytes 68656c6c6f\n" }
    ensures read { packet_line 11 ServerToLogger read
        ≡ codes "packet 11 S>L Read boot 1 key 192.0.2.1:40000 index 0 length 5\n" }
    ensures stable { packet_line 12 LoggerToServer stable
        ≡ codes "packet 12 L>S Stable boot 1 key 192.0.2.1:40000 length 5 fin 0 reads 0\n" }
    ensures reads { packet_line 14 LoggerToServer reads
        ≡ codes "packet 14 L>S Reads boot 1 key 192.0.2.1:40000 length 5 fin 0 reads 1\n" }

    ensures entry { packet_line 19 LoggerToServer entry
        ≡ codes "packet 19 L>S Entry boot 2 index 0 key 192.0.2.1:40000 cisn 1000 sisn 5000 mss 536 length 5 fin 0 done 0 reads 1 acked 0\n" }
    ensures part { packet_line 21 LoggerToServer part
        ≡ codes "packet 21 L>S Part boot 2 key 192.0.2.1:40000 offset 0 bytes 68656c6c6f\n" }
    ensures cuts { packet_line 22 ServerToLogger cuts ≡ codes "packet 22 S>L Cuts boot 2 key 192.0.2.1:40000 first 0\n" }
    ensures lens { packet_line 23 LoggerToServer lens
        ≡ codes "packet 23 L>S Lens boot 2 key 192.0.2.1:40000 first 0 lens 2,1\n" }

    ensures forward { line_of_packet 2 HeadToTail (forward_words 1 (record { boot = 1; body = HelloMsg }))
        ≡ codes "packet 2 H>T Forward number 1 Hello boot 1\n" }
    ensures got { line_of_packet 4 TailToHead (got_words 1) ≡ codes "packet 4 T>H Got number 1\n" }

    ensures profile { profile_line Wan ≡ codes "profile wan\n" }
    ensures plain_profile { profile_line Plain ≡ [] }
    ensures lasting { lasting_line (Some (record { wait = 2; silence = 0 })) ≡ codes "lasting 2 0\n" }
    ensures not_lasting { lasting_line None ≡ [] }
    ensures client { phase_line 1 Established (codes "hello") ≡ codes "client 1 open accepted 5 68656c6c6f\n" }
    ensures log { entry_line client_key 5 false 0 false (5 ∷ [])
        ≡ codes "log 192.0.2.1:40000 length 5 fin 0 acked 0 done 0 reads 5\n" }
    ensures end { end_line 17 ≡ codes "end 17\n" }
{}

/// A line determines its words.
pub fn words_of_a_line()
    ensures { (first : List ℕ) (ws vs : List (List ℕ)) → AllByRecursion IsWord ws → AllByRecursion IsWord vs
        → line first ws ≡ line first vs → ws ≡ vs }
{}

/// A spelling determines its value: no two values of a kind are spelled alike.
pub fn values_of_spellings()
    ensures number { (m n : ℕ) → FitsU64 m → FitsU64 n → decimal m ≡ decimal n → m ≡ n }
    ensures bytes { (xs ys : List ℕ) → IsBytes xs → IsBytes ys → hex_text xs ≡ hex_text ys → xs ≡ ys }
    ensures list { (xs ys : List ℕ) → AllByRecursion FitsU64 xs → AllByRecursion FitsU64 ys → list_text xs ≡ list_text ys → xs ≡ ys }
    ensures mss { (m n : Option ℕ) → FitsOption m → FitsOption n → mss_text m ≡ mss_text n → m ≡ n }
    ensures bit { (b c : Bool) → bit_text b ≡ bit_text c → b ≡ c }
    ensures address { (ip other port door : ℕ) → ip < 2 ^ 32 → other < 2 ^ 32 → port < 2 ^ 16 → door < 2 ^ 16
        → address_text ip port ≡ address_text other door → (ip ≡ other) × (port ≡ door) }
    ensures flags { (m n : ℕ) → m < 256 → n < 256 → flags_text m ≡ flags_text n → m ≡ n }
    ensures way { (v w : Way) → FitsWay v → FitsWay w → way_text v ≡ way_text w → v ≡ w }
{}

/// A packet's line determines its number and the packet, for segments between a client of the schedule and the server, and for messages.
pub fn packets_of_lines()
    ensures { (server : Addr) (clients : List Client) (m n : ℕ) (p q : Packet) → FitsU64 m → FitsU64 n
        → IsReadable server clients p → IsReadable server clients q
        → packet_line m (way_of clients p) p ≡ packet_line n (way_of clients q) q → (m ≡ n) × (p ≡ q) }
{}

/// A report's text determines what it says: header and turns, of any traces whose packets are segments between a client and the server, or messages, with
/// numbers of at most 64 bits.
pub fn turns_of_reports()
    ensures { (schedule other : Schedule) (trace also : List Moment) → FitsSchedule schedule → FitsSchedule other
        → AllByRecursion (IsReadableTurn schedule.server (clients_of schedule.server schedule.clients)) trace
        → AllByRecursion (IsReadableTurn other.server (clients_of other.server other.clients)) also
        → report schedule trace ≡ report other also
        → (schedule.service ≡ other.service) × (schedule.server ≡ other.server) × (schedule.profile ≡ other.profile) × (schedule.twin ≡ other.twin)
        × (schedule.marks ≡ other.marks) × (schedule.lasting ≡ other.lasting) × (schedule.clients ≡ other.clients) × (turns_of trace ≡ turns_of also) }
{}

/// A report determines its schedule and its trace: two legal traces have the same report only where their schedules are the same, and the traces too.
pub fn reports_determine_their_traces<S: Service>()
    ensures { (schedule other : Schedule) (trace also : List Moment) → FitsSchedule schedule → FitsSchedule other
        → Legal (machines S.started S.after S.greeting) schedule trace → Legal (machines S.started S.after S.greeting) other also
        → report schedule trace ≡ report other also → (schedule ≡ other) × (trace ≡ also) }
{}

/// All that is sent in a legal trace has a line that determines it: it has a wire, and a segment has the addresses of a client and of the server. The premise
/// is that the schedule's numbers fit their types.
pub fn legal_turns_are_readable<S: Service>()
    ensures { (schedule : Schedule) (trace : List Moment) → FitsSchedule schedule → Legal (machines S.started S.after S.greeting) schedule trace
        → AllByRecursion (IsReadableTurn schedule.server (clients_of schedule.server schedule.clients)) trace }
{}
