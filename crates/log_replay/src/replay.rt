//! A service that gets the logged reads again.

ghost use Rattle.limits.specs.Limits.{longest_stream};
ghost use Rattle.std.specs.Prelude.{◌≡◌, ℕ, ◌^◌, ◌-◌, ◌+◌, ◌≤◌, List, [], ◌++◌, length, take, drop, true, false, IfOk, OnOk};
ghost use Rattle.north_wrap.specs.NorthState.{resumed_north};
ghost use Rattle.log_replay.specs.ReadLengths.{HaveBytes};
ghost use Rattle.log_replay.specs.Replay.{begun_replay, served_on, fed_on};

use crate::cuts::Cuts;
use crate::held::Held;
use ft_io::NoMemory;
use limits::STREAM;
use north_wrap::{North, ReplayedReads};
use server_trait::{Next, Service};
use std::alloc::Global;
use std::marker::Model;

/// A service that has replayed the fetched reads so far. It holds the bytes that aren't replayed, and the output after the client's acknowledgement.
#[derive(Drop)]
pub struct Replay<S: Service> {
    /// The service's state.
    service: S,
    /// Whether the service has closed.
    closed: bool,
    /// How many bytes of output the service has made.
    made: u32,
    /// The units of output that the client has acknowledged.
    acked: u32,
    /// The output after those units.
    output: Vec<u8>,
    /// The output of one chunk, before it is known how much of it is needed.
    fresh: Vec<u8>,
    /// The bytes that are fetched and not replayed.
    held: Held,
}

impl<S: Service> Model for Replay<S> {
    ghost use Rattle.limits.specs.Limits.{longest_stream};
    ghost use Rattle.std.specs.Prelude.{◌≤◌, ◌^◌, length};
    ghost use Rattle.log_replay.specs.Replay.{ReplayState};

    ghost Value = { ReplayState S };

    ghost view = { λ r. record { service = r.service; closed = r.closed; made = r.made; acked = r.acked; pending = r.output.items; held = r.held } };

    ghost invariant = { λ r. (r.made ≤ longest_stream) × (length r.output.items ≤ r.made) };
}

impl<S: Service> Replay<S> {
    /// A service before its first read, of a connection whose client has acknowledged `acked` units of output: its output is its greeting.
    pub fn new(alloc: Global, kind: u8, acked: u32) -> Result<Replay<S>, NoMemory>
        ensures { IfOk result (λ replay. replay ≡ begun_replay (S.started kind) (S.greeting (S.started kind)) acked) }
    {
        let service = S::fresh(alloc, kind);
        let mut output = Vec::new(alloc);
        let greeting = service.greeting();
        let made = greeting.len() as u32;
        hold_unacknowledged(&mut output, greeting, acked)?;
        Ok(Replay {
            service,
            closed: false,
            made,
            acked,
            output,
            fresh: Vec::new(alloc),
            held: Held::new(alloc),
        })
    }

    /// A service at a mark. It has made `made` bytes of output, and the client has acknowledged them all.
    pub fn resumed(alloc: Global, service: S, made: u32, acked: u32) -> Replay<S>
        requires { made ≤ longest_stream }
        ensures { result ≡ record { service = service; closed = false; made = made; acked = acked; pending = []; held = [] } }
    {
        Replay {
            service,
            closed: false,
            made,
            acked,
            output: Vec::new(alloc),
            fresh: Vec::new(alloc),
            held: Held::new(alloc),
        }
    }

    /// How many fetched bytes aren't replayed.
    pub fn held(&self) -> usize
        ensures { result ≡ length self.now.held }
    {
        self.held.len()
    }

    /// The output after the client's acknowledgement.
    pub fn pending(&self) -> &[u8]
        ensures { result.now ≡ self.now.pending }
    {
        &self.output
    }

    /// How many bytes of output the service has made.
    pub fn made(&self) -> u32
        ensures value { result ≡ self.now.made }
        ensures most { result ≤ longest_stream }
        ensures pending { length self.now.pending ≤ result }
    {
        self.made
    }

    /// Whether the service has closed.
    pub fn has_closed(&self) -> bool
        ensures { result ≡ self.now.closed }
    {
        self.closed
    }

    /// A north wrapper that continues after these reads.
    pub fn into_north(self, cuts: Cuts) -> North<S>
        requires have { HaveBytes cuts }
        requires within { cuts.sum + length self.held ≤ longest_stream }
        ensures { result ≡ resumed_north self.service self.held self.pending cuts.count cuts.sum self.made cuts.ended self.closed }
    {
        let Replay {
            service,
            closed,
            made,
            acked: _,
            output,
            fresh: _,
            held,
        } = self;
        North::after_reads(ReplayedReads {
            service,
            rest: held.into_vec(),
            pending: output,
            count: cuts.count,
            read: cuts.sum,
            made,
            ended: cuts.ended,
            closed,
        })
    }

    /// Adds fetched bytes to those that wait.
    pub fn hold(&mut self, bytes: &[u8]) -> Result<(), NoMemory>
        ensures { OnOk result (self.new ≡ record self.old { held = self.old.held ++ bytes.now }) }
    {
        self.held.push(bytes)
    }

    /// Replays a read of this length.
    #[tactic(auto, unfolding(crate::specs::Replay::fed_on))]
    pub fn feed(&mut self, size: usize) -> Result<(), NoMemory>
        requires short { size ≤ 2048 }
        requires there { size ≤ length self.old.held }
        ensures { OnOk result (self.new ≡ fed_on S.after size self.old) }
    {
        if !self.closed {
            self.serve(size)?;
        }
        self.held.skip(size);
        Ok(())
    }

    /// Gives the service the next chunk. If its output would pass the end of the stream, none of it counts, and the service counts as closed.
    pub(crate) fn serve(&mut self, size: usize) -> Result<(), NoMemory>
        requires short { size ≤ 2048 }
        requires there { size ≤ length self.old.held }
        ensures state { OnOk result (self.new ≡ served_on self.old (S.after self.old.service (take size self.old.held))) }
        ensures held { self.new.held ≡ self.old.held }
    {
        self.fresh.clear();
        let next = self.service.take(self.held.front(size), &mut self.fresh)?;
        let made = self.fresh.len() as u32;
        if STREAM - self.made < made {
            self.closed = true;
            return Ok(());
        }
        let known = self.acked.saturating_sub(self.made);
        self.made += made;
        hold_unacknowledged(&mut self.output, &self.fresh, known)?;
        self.closed = next == Next::Close;
        Ok(())
    }
}

/// Stores the output of a chunk, or the greeting, from where the client's acknowledgement ends, which is after its first `known` bytes.
fn hold_unacknowledged(output: &mut Vec<u8>, fresh: &[u8], known: u32) -> Result<(), NoMemory>
    ensures items { OnOk result (output.new.items ≡ output.old.items ++ drop known fresh.now) }
    ensures few { length output.new.items ≤ length output.old.items + length fresh.now }
{
    let known = (known as usize).min(fresh.len());
    output.extend_from_slice(&fresh[known..])?;
    Ok(())
}
