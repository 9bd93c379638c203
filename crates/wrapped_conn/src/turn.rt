//! The turns of a connection.

ghost use Rattle.limits.specs.Limits.{longest_stream};
ghost use Rattle.std.specs.Prelude.{◌≡◌, ◌≤◌, ◌<◌, ◌+◌, ◌*◌, ◌^◌, ◌∷◌, ◌++◌, [], true, false, Bool, List, ℕ, length, nat_lt, OnOk, IsOk, IfOk, if◌then◌else◌};
ghost use Rattle.seq_arith.specs.PacketGrammar.{reading};
ghost use Rattle.seq_arith.specs.Message.{Body as Reported};
ghost use Rattle.segment_codec.specs.Change.{changed};
ghost use Rattle.logger_wire.specs.Value.{IsSendableBy};
ghost use Rattle.segment_codec.specs.Value.{segment_of};
ghost use Rattle.south_wrap.specs.Translation.{answer_in, repeats_syn, passed_in};
ghost use Rattle.north_wrap.specs.NorthState.{Turns};
ghost use Rattle.tcp_endpoint.specs.Output.{leaving, packets};
ghost use Rattle.tcp_endpoint.specs.UserCalls.{after_tick};
ghost use Rattle.north_wrap.specs.Refinement.{messages_of};
ghost use Rattle.wrapped_conn.specs.Output.{passed};
ghost use Rattle.wrapped_conn.specs.Numbers.{una_units};
ghost use Rattle.connection_laws.specs.OutputFeed.{tcp_reader, tcp_writer};
ghost use Rattle.wrapped_conn.specs.Arrival.{arrived, reached, noted, before_segment, before_other, stamped};
ghost use Rattle.wrapped_conn.specs.Turn.{served, tcp_used, CompletesTurn, Starts, Receives, OnReceipt, with_logged, is_news, IsReported, Ticks};
ghost use Rattle.wrapped_conn.specs.Turn.{ticked, counted};
ghost use Rattle.wrapped_conn.specs.LoggerMessages.{grammar_by, spelled, copies, AreShort, AreWritable};
ghost use Rattle.wrapped_conn.specs.Sound.{IsSound};

use crate::conn::Conn;
use crate::stage::{Before, ConnStage};
use crate::turn_out::TurnOut;
use ft_io::NoMemory;
use logger_wire::{Body, Kept, Msg};
use north_wrap::ReadRecords;
use segment_codec::{Head, read_accepted};
use seq_arith::{RST, has};
use server_trait::Service;
use south_wrap::Inward;
use std::alloc::Global;
use tcp_endpoint::Outbox;

impl<S: Service> Conn<S> {
    /// The turn in which the connection becomes live. A new one sends its SYN-ACK. One at the end of a restart sends at least an ACK, which advertises its
    /// window (the answers during the restart had window 0), and makes the reads that are due.
    pub fn start(&mut self, alloc: Global, out: &mut TurnOut) -> Result<(), NoMemory>
        requires sound { IsSound self.old }
        requires no_segment { out.old.segments ≡ [] }
        requires no_message { out.old.messages ≡ [] }
        ensures turn { OnOk result (Starts S.after self.old self.new out.new.segments out.new.messages) }
        ensures sound { OnOk result (IsSound self.new) }
    {
        let before = self.before(true);
        self.proceed(alloc, before, false, out)
    }

    /// The turn of a client's segment. A RST at exactly the next number resets the connection, which then only reports to the logger that it has ended.
    pub fn on_packet(
        &mut self,
        alloc: Global,
        packet: &mut [u8],
        out: &mut TurnOut,
    ) -> Result<(), NoMemory>
        requires sound { IsSound self.old }
        requires accepted { IsOk (reading packet.old) }
        requires no_segment { out.old.segments ≡ [] }
        requires no_message { out.old.messages ≡ [] }
        ensures turn { OnOk result (IfOk (reading packet.old) (λ segment. Receives S.after segment self.old self.new out.new.segments out.new.messages)) }
        ensures sound { OnOk result (IsSound self.new) }
    {
        if self.reset {
            return Ok(());
        }
        if self.is_reset_by(&read_accepted(packet)) {
            self.reset = true;
            self.send_done(&mut out.messages);
            return Ok(());
        }
        self.take_packet(alloc, packet, out)
    }

    /// The turn of a segment that doesn't reset the connection.
    fn take_packet(
        &mut self,
        alloc: Global,
        packet: &mut [u8],
        out: &mut TurnOut,
    ) -> Result<(), NoMemory>
        requires sound { IsSound self.old }
        requires accepted { IsOk (reading packet.old) }
        requires no_segment { out.old.segments ≡ [] }
        requires no_message { out.old.messages ≡ [] }
        ensures turn { OnOk result (IfOk (reading packet.old)
            (λ segment. CompletesTurn S.after (before_segment self.old segment) (repeats_syn self.old.south segment)
            (copies (before_segment self.old segment) segment (arrived segment self.old))
            (arrived segment self.old) self.new out.new.segments out.new.messages)) }
        ensures sound { OnOk result (IsSound self.new) }
    {
        let before = self.before_segment(packet);
        let repeats = self.arrive(packet, before, &mut out.messages);
        self.proceed(alloc, before, repeats, out)
    }

    /// What a turn with this segment has to know of the connection before it.
    fn before_segment(&self, packet: &[u8]) -> Before
        requires sound { IsSound self.now }
        requires accepted { IsOk (reading packet.now) }
        ensures value { IfOk (reading packet.now) (λ segment. result ≡ before_segment self.now segment) }
        ensures taken { result.taken ≤ longest_stream }
    {
        let segment = read_accepted(packet);
        Before {
            taken: self.taken(),
            fin: self.has_fin(),
            una: self.una(),
            edge: self.edge(),
            asks: self.is_over() && !has(segment.head.flags, RST),
            needs_ack: self.needs_ack(&segment),
            segment: true,
            acknowledgeable: self.acknowledgeable(),
        }
    }

    /// What a turn without a segment has to know. `asks` says whether an ACK is pending for a reason that TCP doesn't know.
    fn before(&self, asks: bool) -> Before
        requires sound { IsSound self.now }
        ensures { result ≡ before_other asks self.now }
    {
        Before {
            taken: self.taken(),
            fin: self.has_fin(),
            una: self.una(),
            edge: self.edge(),
            asks,
            needs_ack: false,
            segment: false,
            acknowledgeable: self.acknowledgeable(),
        }
    }

    /// Passes a segment to TCP, and sends the logger the Data of `send_copy`. Returns whether the segment repeats the client's SYN.
    fn arrive(&mut self, packet: &mut [u8], before: Before, messages: &mut Outbox) -> bool
        requires sound { IsSound self.old }
        requires accepted { IsOk (reading packet.old) }
        requires before { before.taken ≤ longest_stream }
        requires empty { messages.old ≡ [] }
        ensures repeats { IfOk (reading packet.old) (λ segment. result ≡ repeats_syn self.old.south segment) }
        ensures state { IfOk (reading packet.old) (λ segment. self.new ≡ arrived segment self.old) }
        ensures reported { IfOk (reading packet.old) (λ segment. messages.new
            ≡ spelled self.old.batches self.old.boot (copies before segment (arrived segment self.old))) }
        ensures few { length messages.new ≤ 46 }
        ensures short { AreShort messages.new }
        ensures sound { IsSound self.new }
    {
        self.note_timestamps(packet);
        let repeats = self.reach_tcp(packet);
        self.note_arrival();
        self.send_copy(packet, before, messages);
        repeats
    }

    /// Passes a segment to TCP, unless it repeats the client's SYN. Returns whether it does.
    fn reach_tcp(&mut self, packet: &mut [u8]) -> bool
        requires sound { IsSound self.old }
        requires accepted { IsOk (reading packet.old) }
        ensures repeats { IfOk (reading packet.old) (λ segment. result ≡ repeats_syn self.old.south segment) }
        ensures state { IfOk (reading packet.old) (λ segment. self.new ≡ reached segment self.old) }
        ensures accepted { IsOk (reading packet.new) }
        ensures read { reading packet.new ≡ changed (passed_in self.old.south) (reading packet.old) }
        ensures sound { IsSound self.new }
    {
        match self.south.inward(packet) {
            Inward::Repeat => true,
            Inward::Pass => {
                let segment = read_accepted(packet);
                fields_fit(&segment.head);
                self.endpoint.on_packet(segment);
                false
            }
        }
    }

    /// The south wrapper notes a segment's timestamps.
    fn note_timestamps(&mut self, packet: &[u8])
        requires sound { IsSound self.old }
        requires accepted { IsOk (reading packet.now) }
        ensures state { IfOk (reading packet.now) (λ segment. self.new ≡ stamped segment self.old) }
        ensures sound { IsSound self.new }
    {
        self.south.note_timestamps(packet);
    }

    /// The south wrapper learns what TCP has taken, and what the client has acknowledged.
    fn note_arrival(&mut self)
        requires sound { IsSound self.old }
        ensures state { self.new ≡ noted self.old }
        ensures sound { IsSound self.new }
    {
        let taken = self.taken();
        let fin = self.has_fin();
        let una = self.una();
        self.south.taken(taken, fin);
        self.south.acked(una);
    }

    /// The north wrapper's turn.
    fn serve(&mut self, alloc: Global, news: &mut ReadRecords) -> Result<(), NoMemory>
        requires sound { IsSound self.old }
        ensures north { OnOk result (Turns S.after tcp_reader tcp_writer (una_units self.old) self.old.north self.old.endpoint news.new self.new.north
            (tcp_used self.old news.new)) }
        ensures state { OnOk result (self.new ≡ served self.new.north news.new self.old) }
        ensures writable { OnOk result (AreWritable news.new) }
        ensures sound { OnOk result (IsSound self.new) }
    {
        let una = self.una();
        self.north.turn(alloc, &mut self.endpoint, una, news)?;
        self.south.read_to(self.north.read());
        Ok(())
    }

    /// Completes a turn, once its news is noted.
    fn proceed(
        &mut self,
        alloc: Global,
        before: Before,
        repeats: bool,
        out: &mut TurnOut,
    ) -> Result<(), NoMemory>
        requires sound { IsSound self.old }
        requires no_segment { out.old.segments ≡ [] }
        requires few { length out.old.messages ≤ 46 }
        requires short { AreShort out.old.messages }
        ensures turn { (copied : List Reported) → out.old.messages ≡ spelled self.old.batches self.old.boot copied
            → OnOk result (CompletesTurn S.after before repeats copied self.old self.new out.new.segments out.new.messages) }
        ensures sound { OnOk result (IsSound self.new) }
    {
        self.serve(alloc, &mut out.reads)?;
        self.delay_ack(before);
        self.flush(&mut out.segments, &mut out.spare);
        self.send_syn_ack(repeats, &mut out.segments);
        self.send_bare(self.is_ack_pending(before), &mut out.segments);
        self.send_reads(&out.reads, &mut out.messages);
        Ok(())
    }

    /// The turn of a message from the logger.
    pub fn on_msg(&mut self, alloc: Global, m: &Msg<'_>, out: &mut TurnOut) -> Result<(), NoMemory>
        requires sound { IsSound self.old }
        requires sendable { IsSendableBy (grammar_by self.old.batches) m.now }
        requires no_segment { out.old.segments ≡ [] }
        requires no_message { out.old.messages ≡ [] }
        ensures turn { OnOk result (IsReported S.after m.now.body self.old self.new out.new.segments out.new.messages) }
        ensures sound { OnOk result (IsSound self.new) }
    {
        match m.body {
            Body::Stable(kept) => self.receive(alloc, kept, out),
            Body::Reads(kept) => self.receive(alloc, kept, out),
            Body::Ended { .. } => {
                self.stage = ConnStage::Done;
                Ok(())
            }
            _ => Ok(()),
        }
    }

    /// The turn of an answer that says how much of the connection is logged.
    fn receive(&mut self, alloc: Global, kept: Kept, out: &mut TurnOut) -> Result<(), NoMemory>
        requires sound { IsSound self.old }
        requires most { kept.length ≤ longest_stream }
        requires no_segment { out.old.segments ≡ [] }
        requires no_message { out.old.messages ≡ [] }
        ensures turn { OnOk result (OnReceipt S.after kept.length kept.fin kept.reads self.old self.new out.new.segments out.new.messages) }
        ensures sound { OnOk result (IsSound self.new) }
    {
        let is_news = self.note_logged(kept.length, kept.fin, kept.reads);
        if self.reset {
            return Ok(());
        }
        let before = self.before(is_news);
        self.proceed(alloc, before, false, out)
    }

    /// Both wrappers learn what is logged. Returns whether more of the client's units are known to be logged.
    fn note_logged(&mut self, length: u32, fin: bool, reads: u32) -> bool
        requires sound { IsSound self.old }
        requires most { length ≤ longest_stream }
        ensures state { self.new ≡ with_logged length fin reads self.old }
        ensures news { result ≡ is_news length fin self.old }
        ensures sound { IsSound self.new }
    {
        self.north.on_reads(reads);
        self.south.on_stable(length, fin).is_some()
    }

    /// A tick's turn. It allocates nothing: each turn before it has made all reads that are due.
    pub fn on_tick(&mut self, out: &mut TurnOut)
        requires sound { IsSound self.old }
        requires no_segment { out.old.segments ≡ [] }
        requires no_message { out.old.messages ≡ [] }
        ensures turn { Ticks self.old self.new out.new.segments out.new.messages }
        ensures sound { IsSound self.new }
    {
        if self.reset {
            self.send_done(&mut out.messages);
            return;
        }
        self.tick(out);
        if self.end_ticks == 4 {
            self.send_done(&mut out.messages);
        }
    }

    /// A tick passes for TCP.
    #[tactic(auto, using(crate::proofs::Flushed::sound_ticked))]
    fn tick_tcp(&mut self)
        requires sound { IsSound self.old }
        ensures state { self.new ≡ record self.old { endpoint = after_tick self.old.endpoint } }
        ensures sound { IsSound self.new }
    {
        self.endpoint.on_tick();
    }

    /// A tick of a connection that isn't reset, without the report that it has ended.
    fn tick(&mut self, out: &mut TurnOut)
        requires sound { IsSound self.old }
        requires no_segment { out.old.segments ≡ [] }
        requires no_message { out.old.messages ≡ [] }
        ensures state { self.new ≡ counted (ticked self.old) }
        ensures sent { out.new.segments ≡ packets (passed (ticked self.old).south (leaving (after_tick self.old.endpoint))) }
        ensures reported { out.new.messages ≡ spelled self.old.batches self.old.boot (messages_of self.old.key self.old.north.reads) }
        ensures few { length out.new.messages ≤ 32 }
        ensures short { AreShort out.new.messages }
        ensures sound { IsSound self.new }
    {
        self.tick_tcp();
        self.flush(&mut out.segments, &mut out.spare);
        self.send_reads(self.north.unanswered(), &mut out.messages);
        self.count_end_tick();
    }

    /// Counts an end tick, up to four, if the connection is over and all that is taken is known to be logged.
    pub(crate) fn count_end_tick(&mut self)
        requires sound { IsSound self.old }
        ensures state { self.new ≡ counted self.old }
        ensures sound { IsSound self.new }
    {
        if self.is_over() && self.taken_units() <= self.logged() && self.end_ticks < 4 {
            self.end_ticks += 1;
        }
    }
}

/// Facts for proofs: a header's fields fit their types.
fn fields_fit(head: &Head)
    ensures seq { head.now.seq.0 < 2 ^ 32 }
    ensures window { head.now.window ≤ 65535 }
{
    let _number = head.seq.0;
    let _window = head.window;
}
