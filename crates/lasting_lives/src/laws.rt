//! Theorems about what is known of keys. Nothing here runs.

ghost use Rattle.std.specs.Prelude.{◌≡◌, ◌≤◌, ◌-◌, ◌^◌, ◌==◌, ℕ, true, false, nat_le, List, Option, None, Some, [], find, map};
ghost use Rattle.ft_io.specs.declared.Addr.{Addr as Address};
ghost use Rattle.ft_io.specs.declared.Key.{Key};
ghost use Rattle.ft_io.specs.Key.{key_eq};
ghost use Rattle.ft_model.specs.Keys.{AreDistinct};
ghost use Rattle.ft_model.specs.Lawful.{LawfulTurn, fence};
ghost use Rattle.ft_model.specs.Network.{Packet, source_of};
ghost use Rattle.ft_model.specs.Node.{Node, Place, key_of, place_at, is_for};
ghost use Rattle.ft_model.specs.Node.Input.{Packet_comes, Message_comes, Noise_comes, Tick_comes};
ghost use Rattle.ft_model.specs.Node.Stage.{Asking, Fetching, Serving};
ghost use Rattle.ft_model.specs.Restart.{Fetched};
ghost use Rattle.seq_arith.specs.Message.{Message};
ghost use Rattle.seq_arith.specs.Message.Body.{EndedMsg};
ghost use Rattle.seq_arith.specs.Packet.{Segment};
ghost use Rattle.server_trait.specs.Service.{machine};
ghost use Rattle.long_laws.specs.LongTrace.{places_at};
ghost use Rattle.long_laws.specs.Quarantine.{fetched_now, is_dropped};
ghost use Rattle.lasting_laws.specs.LastingTurn.{LastingNode, after_turn};
ghost use Rattle.lasting_lives.specs.declared.life.Life.{Life};
ghost use Rattle.lasting_lives.specs.declared.life.Resting.{Resting};
ghost use Rattle.lasting_lives.specs.Known.{LivesStand, LifeStands, IsInQuarantine, life_after, EndsPlace, FetchedStands, Settles, EndsBy, restored_life};
ghost use Rattle.lasting_lives.specs.Noted.{NotesServing, NotesRestart};
ghost use Rattle.lasting_lives.specs.Lives.{resting_in};

use server_trait::Service;

/// Where a node serves, what is known of each key stays true in its turn on a packet, on noise and at a tick, if the packet's client is heard and at the tick
/// everything becomes a tick older.
pub fn what_is_known_stays_true<S: Service>()
    ensures packet { (kind : ℕ) (n : LastingNode) (segment : Segment) (later : Node) (opened : ℕ) (places : List Place) (sent : List Packet)
        (lives : Key → Option Life) → n.node.stage ≡ Serving opened places → AreDistinct (map key_of places) → AreDistinct (map key_of (places_at later.stage))
        → LawfulTurn (machine (S.started kind) S.after S.greeting) n.node (Packet_comes segment) sent later → LivesStand n n.node.stage lives
        → LivesStand (after_turn n (Packet_comes segment) later) later.stage (λ key. life_after n.node (Packet_comes segment) key (lives key)) }
    ensures noise { (kind : ℕ) (n : LastingNode) (later : Node) (opened : ℕ) (places : List Place) (sent : List Packet)
        (lives : Key → Option Life) → n.node.stage ≡ Serving opened places → AreDistinct (map key_of places) → AreDistinct (map key_of (places_at later.stage))
        → LawfulTurn (machine (S.started kind) S.after S.greeting) n.node Noise_comes sent later → LivesStand n n.node.stage lives
        → LivesStand (after_turn n Noise_comes later) later.stage (λ key. life_after n.node Noise_comes key (lives key)) }
    ensures tick { (kind : ℕ) (n : LastingNode) (later : Node) (opened : ℕ) (places : List Place) (sent : List Packet)
        (lives : Key → Option Life) → n.node.stage ≡ Serving opened places → AreDistinct (map key_of places) → AreDistinct (map key_of (places_at later.stage))
        → LawfulTurn (machine (S.started kind) S.after S.greeting) n.node Tick_comes sent later → LivesStand n n.node.stage lives
        → LivesStand (after_turn n Tick_comes later) later.stage (λ key. life_after n.node Tick_comes key (lives key)) }
{}

/// Where a node serves, what is known of each key stays true in its turn on a message, if a watch begins with a connection, and a quarantine where one ends.
pub fn messages_settle_what_is_known<S: Service>()
    ensures { (kind : ℕ) (n : LastingNode) (message : Message) (later : Node) (opened : ℕ) (places : List Place) (sent : List Packet)
        (lives next : Key → Option Life) (ends : Option Resting) → n.node.stage ≡ Serving opened places → AreDistinct (map key_of places)
        → AreDistinct (map key_of (places_at later.stage)) → fence n.node (Message_comes message) ≡ None
        → LawfulTurn (machine (S.started kind) S.after S.greeting) n.node (Message_comes message) sent later
        → ((key : Key) → message.body ≡ EndedMsg key → EndsPlace (place_at key places) ends)
        → ((key : Key) → Settles (place_at key places) (place_at key (places_at later.stage)) ends (lives key) (next key))
        → LivesStand n n.node.stage lives → LivesStand (after_turn n (Message_comes message) later) later.stage next }
{}

/// Where a restart ends, what is known of each key is true, if each entry that was fetched as done is noted, and a watch begins for each restored connection.
pub fn restarts_end_with_what_is_known<S: Service>()
    ensures { (kind : ℕ) (n : LastingNode) (message : Message) (later : Node) (count opened : ℕ) (fetched : List Fetched) (places : List Place)
        (sent : List Packet) (mid next : Key → Option Life) → n.node.stage ≡ Fetching count fetched → fence n.node (Message_comes message) ≡ None
        → later.stage ≡ Serving opened places → AreDistinct (map key_of places)
        → LawfulTurn (machine (S.started kind) S.after S.greeting) n.node (Message_comes message) sent later → n.quarantine ≡ []
        → ((key : Key) → FetchedStands (find (λ f. key_eq f.head.key key) (fetched_now n.node (Message_comes message) count fetched)) (mid key))
        → ((key : Key) → next key ≡ restored_life (place_at key places) (mid key))
        → LivesStand (after_turn n (Message_comes message) later) later.stage next }
{}

/// What is known of a segment's key says whether the segment is dropped: where its connection is in quarantine for `wait` ticks.
pub fn what_is_known_says_what_is_dropped()
    ensures leaving { (n : LastingNode) (wait : ℕ) (server : Address) (segment : Segment) (place : Option Place) (l : Option Life) (r : Resting)
        → is_for server segment ≡ true → wait ≤ 2 ^ 32 - 1 → LifeStands n (source_of segment) place l → resting_in l ≡ Some r → nat_le wait r.age ≡ true
        → is_dropped wait server (Packet_comes segment) n.quarantine ≡ true }
    ensures waiting { (n : LastingNode) (wait : ℕ) (server : Address) (segment : Segment) (place : Option Place) (l : Option Life) (r : Resting)
        → is_for server segment ≡ true → wait ≤ 2 ^ 32 - 1 → AreDistinct (map (λ q. q.named.key) n.quarantine) → LifeStands n (source_of segment) place l
        → resting_in l ≡ Some r → nat_le wait r.age ≡ false → is_dropped wait server (Packet_comes segment) n.quarantine ≡ false }
    ensures others { (n : LastingNode) (wait : ℕ) (server : Address) (segment : Segment) (place : Option Place) (l : Option Life) → is_for server segment ≡ true
        → LifeStands n (source_of segment) place l → resting_in l ≡ None → is_dropped wait server (Packet_comes segment) n.quarantine ≡ false }
    ensures numbers { (n : LastingNode) (key : Key) (place : Option Place) (l : Option Life) (r : Resting) → LifeStands n key place l → resting_in l ≡ Some r
        → IsInQuarantine n key r }
{}

/// What is noted of a message of the node's own boot is what must be known after it, while the node serves and while it restarts.
pub fn what_is_noted_is_known<S: Service>()
    ensures serving { (kind : ℕ) (n : LastingNode) (message : Message) (later : Node) (opened : ℕ) (places : List Place) (sent : List Packet)
        (old new : Key → Option Life) (ends : Option Resting) → n.node.stage ≡ Serving opened places → AreDistinct (map key_of places)
        → AreDistinct (map key_of (places_at later.stage)) → fence n.node (Message_comes message) ≡ None
        → LawfulTurn (machine (S.started kind) S.after S.greeting) n.node (Message_comes message) sent later → (message.boot == n.node.boot) ≡ true
        → EndsBy n.node.stage message.body ends → NotesServing message.body ends later.stage old new → LivesStand n n.node.stage old
        → LivesStand (after_turn n (Message_comes message) later) later.stage new }
    ensures asking { (kind : ℕ) (n : LastingNode) (message : Message) (later : Node) (sent : List Packet) (old new : Key → Option Life)
        → n.node.stage ≡ Asking → fence n.node (Message_comes message) ≡ None
        → LawfulTurn (machine (S.started kind) S.after S.greeting) n.node (Message_comes message) sent later
        → NotesRestart message.body later.stage old new → ((key : Key) → old key ≡ None)
        → LivesStand (after_turn n (Message_comes message) later) later.stage new }
    ensures fetching { (kind : ℕ) (n : LastingNode) (message : Message) (later : Node) (count : ℕ) (fetched : List Fetched) (sent : List Packet)
        (old new : Key → Option Life) → n.node.stage ≡ Fetching count fetched → fence n.node (Message_comes message) ≡ None
        → AreDistinct (map key_of (places_at later.stage))
        → LawfulTurn (machine (S.started kind) S.after S.greeting) n.node (Message_comes message) sent later → n.quarantine ≡ []
        → NotesRestart message.body later.stage old new → ((key : Key) → FetchedStands (find (λ f. key_eq f.head.key key) fetched) (old key))
        → LivesStand (after_turn n (Message_comes message) later) later.stage new }
{}

/// A message of another boot changes nothing that is known.
pub fn messages_of_other_boots_settle_nothing<S: Service>()
    ensures serving { (kind : ℕ) (n : LastingNode) (message : Message) (later : Node) (opened : ℕ) (places : List Place) (sent : List Packet)
        (lives : Key → Option Life) (ends : Option Resting) → n.node.stage ≡ Serving opened places → AreDistinct (map key_of places)
        → AreDistinct (map key_of (places_at later.stage)) → fence n.node (Message_comes message) ≡ None
        → LawfulTurn (machine (S.started kind) S.after S.greeting) n.node (Message_comes message) sent later → (message.boot == n.node.boot) ≡ false
        → EndsBy n.node.stage message.body ends → LivesStand n n.node.stage lives
        → LivesStand (after_turn n (Message_comes message) later) later.stage lives }
    ensures asking { (kind : ℕ) (n : LastingNode) (message : Message) (later : Node) (sent : List Packet) (lives : Key → Option Life)
        → n.node.stage ≡ Asking → fence n.node (Message_comes message) ≡ None
        → LawfulTurn (machine (S.started kind) S.after S.greeting) n.node (Message_comes message) sent later → (message.boot == n.node.boot) ≡ false
        → ((key : Key) → lives key ≡ None) → LivesStand (after_turn n (Message_comes message) later) later.stage lives }
    ensures fetching { (kind : ℕ) (n : LastingNode) (message : Message) (later : Node) (count : ℕ) (fetched : List Fetched) (sent : List Packet)
        (lives : Key → Option Life) → n.node.stage ≡ Fetching count fetched → fence n.node (Message_comes message) ≡ None
        → LawfulTurn (machine (S.started kind) S.after S.greeting) n.node (Message_comes message) sent later → (message.boot == n.node.boot) ≡ false
        → ((key : Key) → FetchedStands (find (λ f. key_eq f.head.key key) fetched) (lives key))
        → LivesStand (after_turn n (Message_comes message) later) later.stage lives }
{}

/// A turn on a packet keeps what is known true of the node after it, where nothing is noted of it: so it is where a client is let go of.
pub fn what_is_known_outlasts_a_packet<S: Service>()
    ensures { (kind : ℕ) (n : LastingNode) (segment : Segment) (next : Node) (opened : ℕ) (places : List Place) (sent : List Packet)
        (lives : Key → Option Life) → n.node.stage ≡ Serving opened places → AreDistinct (map key_of places)
        → LawfulTurn (machine (S.started kind) S.after S.greeting) n.node (Packet_comes segment) sent next → LivesStand n n.node.stage lives
        → LivesStand (record n { node = next }) next.stage lives }
{}
