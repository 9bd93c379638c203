//! A server that lasts: the law of its turn, as definitions, and what follows from it. It keeps what is done in quarantine, has it recycled and forgets it,
//! and it watches its clients: it asks a silent one for a sign of life, and lets go of one that is gone. Nothing here runs; each function is a theorem.
#![tactic(auto)]

ghost use Rattle.std.specs.Prelude.{◌≡◌, ◌<◌, ◌≤◌, ◌+◌, ◌*◌, ℕ, true, false, [], ◌∷◌, Some, None};
ghost use Rattle.ft_io.specs.declared.Key.{Key};
ghost use Rattle.seq_arith.specs.Packet.{Segment};
ghost use Rattle.ft_model.specs.Node.{Node};
ghost use Rattle.ft_model.specs.Node.Input.{Packet_comes, Message_comes, Tick_comes};
ghost use Rattle.ft_model.specs.Point.{Point};
ghost use Rattle.ft_model.specs.ServingTurn.{concerns};
ghost use Rattle.seq_arith.specs.Message.{Message};
ghost use Rattle.std.specs.Prelude.{List, map};
ghost use Rattle.server_trait.specs.Service.{machine};
ghost use Rattle.ft_model.specs.Keys.{AreDistinct};
ghost use Rattle.ft_model.specs.Network.{Packet};
ghost use Rattle.ft_model.specs.Node.{Place, Stage, Input, key_of, place_at};
ghost use Rattle.ft_model.specs.ServingTurn.{PlaceTurn, AllGo};
ghost use Rattle.long_laws.specs.LongTrace.{places_at};
ghost use Rattle.long_laws.specs.Quarantine.{Quarantined, quarantined_at, quarantine_after};
ghost use Rattle.ft_model.specs.declared.event.Event.TheVariants.{Deliver};
ghost use Rattle.long_laws.specs.QuarantineWorld.{QuarantineWorld, event_input};
ghost use Rattle.lasting_laws.specs.AsMoments.{IsServerOf, world_then, OpensFresh, IsOneMoment, AreMoments};
ghost use Rattle.lasting_laws.specs.LastingTurn.{LastingNode, LastingSent, LastingTurn, Patience};
ghost use Rattle.lasting_laws.specs.LastingTurn.LastingInput.{Usual_comes};
ghost use Rattle.lasting_laws.specs.ByKey.{quarantine_at, KeyWent};
ghost use Rattle.lasting_laws.specs.Watching.Origin.{Opened_here, Restored_empty, Restored};
ghost use Rattle.lasting_laws.specs.WorkedSilence.{open_point, half_open_point, asked_at, let_go_at};
ghost use Rattle.lasting_laws.specs.Watching.{Watch, watched, is_half_open, is_unreceived, is_let_go, is_asked};
ghost use Rattle.std.specs.Prelude.{codes};
ghost use Rattle.ft_model.specs.Report.{line_of_packet};
ghost use Rattle.ft_model.specs.declared.way.Way.TheVariants.{ServerToLogger, LoggerToServer};
ghost use Rattle.long_laws.specs.Forgetting.{forget, forgotten_message};
ghost use Rattle.lasting_laws.specs.LastingReport.{forget_words, gone_line, number_of_guest};
ghost use Rattle.lasting_laws.specs.WorkedReuse.{first_named, recycled_entry, two_guests};

use server_trait::Service;

/// A connection that is neither half-open nor restored empty and unheard is let go of only after its client was silent for twice the threshold; never without a
/// threshold, and never once it is reset.
pub fn established_connections_are_let_go_after_silence()
    ensures silent { (silence : ℕ) (w : Watch) (p : Point) → is_half_open w p ≡ false → is_unreceived w.origin ≡ false → is_let_go silence w p ≡ true
        → (0 < silence) × (2 * silence ≤ w.silent) }
    ensures reset { (silence : ℕ) (w : Watch) (p : Point) → p.reset ≡ true → is_let_go silence w p ≡ false }
{}

/// Only ticks count as silence, each as one, and a packet of the client ends it.
pub fn silence_is_counted_in_ticks()
    ensures receipt { (node : Node) (segment : Segment) (key : Key) (w : Watch) → concerns node (Packet_comes segment) key ≡ true
        → ((watched node (Packet_comes segment) key w).silent ≡ 0) × (is_unreceived (watched node (Packet_comes segment) key w).origin ≡ false) }
    ensures others { (node : Node) (segment : Segment) (key : Key) (w : Watch) → concerns node (Packet_comes segment) key ≡ false
        → watched node (Packet_comes segment) key w ≡ w }
    ensures messages { (node : Node) (message : Message) (key : Key) (w : Watch) → watched node (Message_comes message) key w ≡ w }
    ensures ticks { (node : Node) (key : Key) (w : Watch) → (watched node Tick_comes key w).silent ≤ w.silent + 1 }
{}

/// A half-open connection is let go of at its 250th tick and not before, whatever the threshold is, and is sent no keep-alive.
pub fn half_open_connections_are_let_go()
    ensures late { (silence : ℕ) (w : Watch) (p : Point) → is_half_open w p ≡ true → p.reset ≡ false → 250 ≤ w.age → is_let_go silence w p ≡ true }
    ensures early { (silence : ℕ) (w : Watch) (p : Point) → is_half_open w p ≡ true → w.age < 250 → is_let_go silence w p ≡ false }
    ensures unasked { (silence : ℕ) (w : Watch) (p : Point) → is_half_open w p ≡ true → is_asked silence w p ≡ false }
{}

/// Worked: with a threshold of 16 ticks a silent client is asked at every second tick from the 16th to the 30th, and let go of at the 32nd; with one of 5,
/// which is below 8, at each tick from the 5th to the 9th, and let go of at the 10th. Without a threshold nothing happens to it.
pub fn worked_silences()
    ensures sixteen { asked_at 16 Opened_here open_point 32 ≡ 16 ∷ 18 ∷ 20 ∷ 22 ∷ 24 ∷ 26 ∷ 28 ∷ 30 ∷ [] }
    ensures then_gone { let_go_at 16 Opened_here open_point 40 ≡ Some 32 }
    ensures five { asked_at 5 Restored open_point 12 ≡ 5 ∷ 6 ∷ 7 ∷ 8 ∷ 9 ∷ [] }
    ensures soon_gone { let_go_at 5 Restored open_point 12 ≡ Some 10 }
    ensures never { (asked_at 0 Restored open_point 300 ≡ []) × (let_go_at 0 Restored open_point 300 ≡ None) }
{}

/// Worked: whatever the threshold, a half-open connection is let go of at the 250th tick, unasked; and one that may be half-open is asked at each fiftieth tick
/// before.
pub fn worked_half_open_connections()
    ensures half_open { (asked_at 5 Opened_here half_open_point 250 ≡ []) × (let_go_at 5 Opened_here half_open_point 260 ≡ Some 250) }
    ensures empty { (asked_at 5 Restored_empty open_point 260 ≡ 50 ∷ 100 ∷ 150 ∷ 200 ∷ []) × (let_go_at 5 Restored_empty open_point 260 ≡ Some 250) }
{}

/// A turn does at a key what it does at the key's own place: the quarantine that the key then has depends on that place and on the key's earlier quarantine
/// alone, and no other key's place becomes the key's.
pub fn each_key_has_its_own_turn<S: Service>()
    ensures quarantine { (node : Node) (input : Input) (later : Stage) (qs : List Quarantined) (key : Key) → AreDistinct (map key_of (places_at later))
        → quarantined_at key (quarantine_after node input later qs) ≡ quarantine_at node input key (quarantined_at key qs) (place_at key (places_at later)) }
    ensures one_each { (node : Node) (input : Input) (later : Stage) (qs : List Quarantined) → AreDistinct (map key_of (places_at later))
        → AreDistinct (map (λ q. q.named.key) (quarantine_after node input later qs)) }
    ensures place { (kind : ℕ) (node : Node) (input : Input) (key : Key) (before after : List Place) (sent : List Packet)
        → AreDistinct (map key_of before) → AllGo (PlaceTurn (machine (S.started kind) S.after S.greeting) node input) before after sent
        → KeyWent (machine (S.started kind) S.after S.greeting) node input key (place_at key before) after }
{}

/// The turn of a server that lasts on what comes by a delivery is one moment of a world with a quarantine: it drops what is for a connection that is leaving,
/// or ends a quarantine early, or drops an opening silently, or takes the turn of a server without quarantine. A tick is several moments: the tick of such a
/// server, and then one for each client that is asked or let go of, and none of them changes the log or the clients. So what is proved of the traces of such
/// worlds holds of it.
pub fn lasting_turns_are_quarantine_steps<S: Service>()
    ensures delivery { (kind : ℕ) (patience : Patience) (n after : LastingNode) (w : QuarantineWorld) (number : ℕ) (input : Input) (sent : LastingSent)
        → IsServerOf n w → event_input w.now (Deliver number) ≡ Some input → OpensFresh n input w
        → LastingTurn (machine (S.started kind) S.after S.greeting) patience n (Usual_comes input) sent after
        → IsOneMoment (machine (S.started kind) S.after S.greeting) patience.wait w sent.packets (world_then after sent w) }
    ensures tick { (kind : ℕ) (patience : Patience) (n after : LastingNode) (w : QuarantineWorld) (sent : LastingSent) → IsServerOf n w
        → AreDistinct (map key_of (places_at n.node.stage))
        → LastingTurn (machine (S.started kind) S.after S.greeting) patience n (Usual_comes Tick_comes) sent after
        → AreMoments (machine (S.started kind) S.after S.greeting) patience.wait w sent.packets (world_then after sent w) }
{}

/// Worked: the lines of the messages about forgetting and of a recycled entry; and the number of the client that came last to an address.
pub fn worked_lines()
    ensures forget { line_of_packet 21 ServerToLogger (forget_words (forget 1 first_named))
        ≡ codes "packet 21 S>L Forget boot 1 key 192.0.2.1:40000 cisn 1000 sisn 5000\n" }
    ensures forgotten { line_of_packet 22 LoggerToServer (forget_words (forgotten_message 1 first_named))
        ≡ codes "packet 22 L>S Forgotten boot 1 key 192.0.2.1:40000 cisn 1000 sisn 5000\n" }
    ensures gone { gone_line recycled_entry ≡ codes "gone 192.0.2.1:40000 length 0 fin 1 acked 1 done 1 reads 0\n" }
    ensures second { number_of_guest two_guests first_named.key ≡ 2 }
    ensures nobody { number_of_guest [] first_named.key ≡ 0 }
{}
