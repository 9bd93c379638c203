//! The server of one incarnation.

ghost use Rattle.std.specs.Prelude.{◌≤◌};
ghost use Rattle.server_node.specs.Stages.{IsSoundStage, IsSoundStage-prop};

use crate::input::{Input, TurnEnd};
use crate::places;
use crate::serving_turn::go_in_place;
use crate::stage::{Stage, conn_in, send_hello};
use ft_io::{Addr, Key, NoMemory};
use logger_wire::EntryHead;
use node_serving::{Identity, OutPacket, Turn};
use server_trait::{Saved, Service};
use std::alloc::Global;
use tcp_rules::Profile;
use wrapped_conn::Conn;

/// The server of one incarnation: it asks the logger for its log, restarts every connection, and serves.
#[derive(Drop)]
pub struct Node<S: Service> {
    who: Identity,
    stage: Stage<S>,
    turn: Turn,
    ghost booted: { 1 ≤ who.boot },
    ghost sound: { IsSoundStage who stage } by { IsSoundStage-prop who stage },
}

impl<S: Saved> Node<S> {
    ghost use Rattle.std.specs.Prelude.{◌≡◌, ◌≤◌, ℕ, map, IfOk, IfErr, IsErrOf, IfSome, OnOk, option_copied};
    ghost use Rattle.std.specs.Borrow.{sem};
    ghost use Rattle.tcp_rules.specs.Profile.{grammar_of, plain};
    ghost use Rattle.tcp_rules.specs.Profiles.{profile_of};
    ghost use Rattle.ft_model.specs.Node.{Stage as Standing, booted};
    ghost use Rattle.ft_model.specs.Lawful.{hello};
    ghost use Rattle.ft_model.specs.Wire.{wire_by, wire_of};
    ghost use Rattle.wrapped_conn.specs.Sound.{IsSound};
    ghost use Rattle.node_serving.specs.Identity.{node_of, service_of, grammar_in};
    ghost use Rattle.server_node.specs.Inputs.{input_of};
    ghost use Rattle.node_serving.specs.Loan.{IsConnAt, place_in};
    ghost use Rattle.server_node.specs.NodeTurns.{NodeTurns, Leaves};
    ghost use Rattle.mark_laws.specs.MarkedNode.{MarkedNode, booted_to_mark};
    ghost use Rattle.node_serving.specs.Markers.{saving, marker_of};
    ghost use Rattle.server_node.specs.MarkedTurns.{MarkedNodeStands, MarkedNodeTurns, MarkedNodeApart, marked_input_of};
    ghost use Rattle.server_node.specs.Stages.{StageStands};
    ghost use Rattle.server_node.specs.StageTurns.{IsUnfenced, IsFenceOf};
    ghost use Rattle.server_trait.specs.Service.{machine};
    ghost use Rattle.std.specs.Prelude.{List, length, option_map, slice_get};
    ghost use Rattle.std.specs.List.{IsDistinct};
    ghost use Rattle.std.specs.Map.{lookup, keys_of};
    ghost use Rattle.ft_io.specs.Key.{key_eq};
    ghost use Rattle.logger_wire.specs.Records.{head_said};
    ghost use Rattle.ft_model.specs.Restart.{Fetched};
    ghost use Rattle.server_node.specs.Places.{slots_at, is_serving, is_done, HasFetched, Forgets};

    /// Boots a server without marks, with the plain profile. The boot number is at least 1; initial sequence numbers are counted from `isn`; `kind` chooses the
    /// service. `sent` then has the Hello.
    pub fn boot(
        alloc: Global,
        boot: u64,
        isn: u32,
        kind: u8,
        local: Addr,
    ) -> Result<Node<S>, NoMemory>
        requires { 1 ≤ boot }
        ensures stands { IfOk result (λ n. StageStands (machine (S.started kind) S.after S.greeting) (booted local plain boot isn) n.stage) }
        ensures hello { IfOk result (λ n. n.turn.sent.items ≡ map wire_of (hello (booted local plain boot isn))) }
        ensures same { IfOk result (λ n. n.who ≡ record { boot = boot; isn = isn; kind = kind; local = local; profile = Profile.Plain }) }
    {
        Node::boot_marked(alloc, boot, isn, kind, local, 0)
    }

    /// Boots a server with marks, with the plain profile. Whenever a connection is quiet (`Conn::quiet`), has no unanswered mark, and has made at least `every`
    /// reads since its last mark, the form of its service's state is sent to the logger, if it has at most 1,100 bytes. A restart begins each connection at its
    /// mark, if it has one. If `every` is 0, or the service isn't savable, no marks are made.
    pub fn boot_marked(
        alloc: Global,
        boot: u64,
        isn: u32,
        kind: u8,
        local: Addr,
        every: u32,
    ) -> Result<Node<S>, NoMemory>
        requires { 1 ≤ boot }
        ensures plain { IfOk result (λ n. every ≡ 0 → StageStands (machine (S.started kind) S.after S.greeting) (booted local plain boot isn) n.stage) }
        ensures marked { IfOk result (λ n. 1 ≤ every
            → MarkedNodeStands (marker_of S.Service (saving S.form S.state_of S.is_savable) n.who every) (booted_to_mark local plain boot isn) n) }
        ensures hello { IfOk result (λ n. n.turn.sent.items ≡ map wire_of (hello (booted local plain boot isn))) }
        ensures same { IfOk result (λ n. n.who ≡ record { boot = boot; isn = isn; kind = kind; local = local; profile = Profile.Plain }) }
    {
        Node::boot_in(alloc, Profile::Plain, boot, isn, kind, local, every)
    }

    /// Boots a server with this profile, without marks if `every` is 0, and otherwise with marks as `boot_marked` does. Every server of one log has the same
    /// profile.
    pub fn boot_in(
        alloc: Global,
        profile: Profile,
        boot: u64,
        isn: u32,
        kind: u8,
        local: Addr,
        every: u32,
    ) -> Result<Node<S>, NoMemory>
        requires { 1 ≤ boot }
        ensures plain { IfOk result (λ n. every ≡ 0
            → StageStands (machine (S.started kind) S.after S.greeting) (booted local (profile_of profile) boot isn) n.stage) }
        ensures marked { IfOk result (λ n. 1 ≤ every
            → MarkedNodeStands (marker_of S.Service (saving S.form S.state_of S.is_savable) n.who every)
            (booted_to_mark local (profile_of profile) boot isn) n) }
        ensures hello { IfOk result (λ n. n.turn.sent.items
            ≡ map (wire_by (grammar_of (profile_of profile))) (hello (booted local (profile_of profile) boot isn))) }
        ensures same { IfOk result (λ n. n.who ≡ record { boot = boot; isn = isn; kind = kind; local = local; profile = profile }) }
    {
        let who = Identity {
            boot,
            isn,
            kind,
            local,
            profile,
        };
        let mut turn = Turn::new(alloc)?;
        send_hello(who, &mut turn)?;
        let stage = Stage::begun(alloc, every);
        Ok(Node { who, stage, turn })
    }

    /// The connection of a key, while it is live. It is at the point that the model has for the key, and each of its calls may be made.
    #[tactic(auto, unfolding(node_serving::specs::Conn::IsSound))]
    pub fn conn(&self, key: Key) -> Option<&Conn<S>>
        ensures stands { (standing : Standing) → StageStands (service_of S.Service self.now.who) (node_of self.now.who standing) self.now.stage
            → IsConnAt (service_of S.Service self.now.who) (node_of self.now.who standing) (option_copied result) (place_in key standing) }
        ensures marked { (every : ℕ) (node : MarkedNode)
            → MarkedNodeStands (marker_of S.Service (saving S.form S.state_of S.is_savable) self.now.who every) node self.now
            → IsConnAt (service_of S.Service self.now.who) node.plain (option_copied result) (place_in key node.plain.stage) }
        ensures sound { IfSome result (λ c. IsSound c.now) }
    {
        conn_in(&self.stage, key)
    }

    /// What never changes in this incarnation.
    pub fn who(&self) -> Identity
        ensures { result ≡ self.now.who }
    {
        self.who
    }

    /// Whether it serves, without marks.
    pub fn is_serving(&self) -> bool
        ensures { result ≡ is_serving self.now.stage }
    {
        places::is_serving(&self.stage)
    }

    /// How many places it has, while it serves without marks.
    pub fn places(&self) -> usize
        ensures { result ≡ length (slots_at self.now.stage) }
    {
        places::count(&self.stage)
    }

    /// The key at place `i`, counted from 0, while it serves without marks.
    pub fn key_at(&self, i: usize) -> Option<Key>
        ensures { result ≡ option_map (λ e. e.0) (slice_get (slots_at self.now.stage) i) }
    {
        places::key_at(&self.stage, i)
    }

    /// A fact for proofs: no key has two slots, in a node without marks.
    pub fn apart(&self)
        ensures { IsDistinct key_eq (keys_of (slots_at self.now.stage)) }
    {
        places::apart(&self.stage);
    }

    /// Whether the connection of a key has ended, in a node that serves without marks.
    pub fn is_done(&self, key: Key) -> bool
        ensures { result ≡ is_done (lookup (key_eq key) (slots_at self.now.stage)) }
    {
        places::is_done(&self.stage, key)
    }

    /// The head of a key's entry, if it has come and the log is still fetched.
    pub fn fetched(&self, key: Key) -> Option<EntryHead>
        ensures { (kind : ℕ) (fetched : List Fetched) → HasFetched S.Service kind fetched self.now.stage key (option_map head_said result) }
    {
        places::fetched(&self.stage, key)
    }

    /// Forgets a key, while the node serves without marks.
    pub fn forget(&mut self, key: Key)
        ensures stage { Forgets key self.old.stage self.new.stage }
        ensures same { self.new.who ≡ self.old.who }
        ensures sent { self.new.turn.sent.items ≡ self.old.turn.sent.items }
    {
        places::forget(&mut self.stage, key);
    }

    /// What the boot or the last turn sent.
    pub fn sent(&self) -> &[OutPacket]
        ensures { result.now ≡ self.now.turn.sent.items }
    {
        self.turn.sent.as_slice()
    }

    /// Takes one turn. It is lawful if a packet to a live connection is near and a fetched entry is sound. With marks, `IsFairTo` has a further premise,
    /// about a fetched mark.
    pub fn advance(&mut self, alloc: Global, input: Input<'_>) -> Result<(), TurnEnd>
        ensures turn { OnOk result (NodeTurns (input_of (grammar_in self.old.who) input.entry) self.old self.new self.new.turn.sent.items) }
        ensures marked { OnOk result (MarkedNodeTurns (saving S.form S.state_of S.is_savable)
            (marked_input_of (grammar_in self.old.who) input.entry) self.old self.new self.new.turn.sent.items) }
        ensures beside { OnOk result (MarkedNodeApart (marked_input_of (grammar_in self.old.who) input.entry) self.old self.new self.new.turn.sent.items) }
        ensures unfenced { OnOk result (IsUnfenced self.old.who (input_of (grammar_in self.old.who) input.entry)) }
        ensures fenced { IfErr result (IsFenceOf self.old.who (input_of (grammar_in self.old.who) input.entry)) }
        ensures memory { IsErrOf result TurnEnd.NoMemory → IsUnfenced self.old.who (input_of (grammar_in self.old.who) input.entry) }
        ensures same { self.new.who ≡ self.old.who }
    {
        self.turn.alloc = alloc;
        self.turn.sent.clear();
        match go_in_place(self.who, &mut self.stage, input, &mut self.turn) {
            Ok(()) => Ok(()),
            Err(end) => {
                self.stage = Stage::Lost;
                Err(end)
            }
        }
    }

    /// Takes one turn, and returns the packets that it sends. Without marks: whatever the input is, keys that it isn't about stay unchanged; the turn of each
    /// key whose own packets are near is lawful, and at the end of a restart so is that of each key whose own entry is sound. With marks the turn is lawful
    /// under the premises `IsFairTo`, and while the node serves it is, but for its marks, one of a node without marks: whatever the input is, keys that it
    /// isn't about stay unchanged, with their marks, and the turn of each key whose own packets are near is lawful. After an error the node may only be
    /// dropped. A Stale of the node's boot that names a larger boot number ends it by `Fenced`, even if no memory is left, and nothing else ends it so.
    pub fn turn(&mut self, alloc: Global, input: Input<'_>) -> Result<&[OutPacket], TurnEnd>
        ensures* after { sem 𝓛 (Leaves S.row S.Service self.entry
            (λ node. IfOk result (λ sent. NodeTurns (input_of (grammar_in self.old.who) input.entry) self.old node sent.now
            × MarkedNodeTurns (saving S.form S.state_of S.is_savable) (marked_input_of (grammar_in self.old.who) input.entry) self.old node sent.now
            × MarkedNodeApart (marked_input_of (grammar_in self.old.who) input.entry) self.old node sent.now))) }
        ensures unfenced { OnOk result (IsUnfenced self.old.who (input_of (grammar_in self.old.who) input.entry)) }
        ensures fenced { IfErr result (IsFenceOf self.old.who (input_of (grammar_in self.old.who) input.entry)) }
        ensures memory { IsErrOf result TurnEnd.NoMemory → IsUnfenced self.old.who (input_of (grammar_in self.old.who) input.entry) }
    {
        self.advance(alloc, input)?;
        Ok(self.turn.sent.as_slice())
    }
}
