//! An endpoint on which a script acts. A segment or a tick begins a turn. The turn ends where the script names what is sent, by `flush`, or where the next turn
//! begins. The script must name each segment that is sent.

use crate::script::{Deed, Opening, Quantity, Segment, Text};
use crate::text::{write_bytes, write_segment};
use crate::words::Why;
use ft_io::{Addr, NoMemory};
use segment_codec::{Head, PacketRef, read_packet};
use seq_arith::{SYN, Seq, has};
use socket_layer::Socket;
use std::alloc::{AllocError, Global};
use std::fmt::Display;
use tcp_endpoint::{Endpoint, Outbox};
use test_data::Said;

/// Where the segments come from that go to a listening endpoint.
const PEER: Addr = Addr {
    ip: 0xC000_0201,
    port: 40_000,
};

/// The peer's initial sequence number where no SYN came.
const PEER_ISN: Seq = Seq(1_000);

/// Why a step fails.
#[derive(Drop)]
pub(crate) enum Miss {
    NoMemory,
    Refused(Why),
    /// This is seen, which is something else.
    Differs(Said),
}

impl From<AllocError> for Miss {
    fn from(_error: AllocError) -> Miss {
        Miss::NoMemory
    }
}

impl From<NoMemory> for Miss {
    fn from(_error: NoMemory) -> Miss {
        Miss::NoMemory
    }
}

/// A step is done, and what it expects is there.
pub(crate) type Met = Result<(), Miss>;

/// An endpoint, and how many of the segments that it sent the script has named.
#[derive(Drop)]
pub(crate) struct Scene {
    pub(crate) endpoint: Endpoint,
    pub(crate) out: Outbox,
    pub(crate) local: Addr,
    pub(crate) peer: Addr,
    /// The endpoint's initial sequence number, and the peer's.
    pub(crate) isn: Seq,
    pub(crate) peer_isn: Seq,
    /// How many of the last turn's segments the script has named.
    reported: usize,
    /// Whether something happened since the last flush.
    is_open: bool,
    pub(crate) alloc: Global,
}

/// This is seen, which is something else.
pub(crate) fn differs<D: Display + Drop>(alloc: Global, seen: D) -> Met {
    let mut said = Said::new(alloc);
    said.write_fmt(seen);
    Err(Miss::Differs(said))
}

/// Whether two packets have the same headers.
fn is_same_head(a: Head, b: Head) -> bool {
    let same_addresses = a.src == b.src
        && a.dst == b.dst
        && a.sport == b.sport
        && a.dport == b.dport;
    let same_numbers = a.seq == b.seq && a.ack == b.ack && a.window == b.window;
    same_addresses && same_numbers && a.flags == b.flags && a.mss == b.mss
}

impl Segment<'_> {
    /// The headers of a segment from one address to another.
    fn head(self, from: Addr, to: Addr) -> Head {
        Head {
            src: from.ip,
            dst: to.ip,
            sport: from.port,
            dport: to.port,
            seq: Seq(self.seq),
            ack: Seq(self.ack),
            flags: self.flags,
            window: self.window,
            mss: self.mss,
            timestamps: None,
        }
    }
}

impl Scene {
    pub(crate) fn new(alloc: Global, opening: Opening) -> Result<Scene, NoMemory> {
        let Opening {
            local,
            remote,
            isn,
            limit,
            measures,
        } = opening;
        let isn = Seq(isn);
        let endpoint = match remote {
            Some(remote) => {
                Endpoint::connect_measuring(alloc, local, remote, isn, limit, measures)?
            }
            None => Endpoint::listen_measuring(alloc, local, isn, limit, measures)?,
        };
        Ok(Scene {
            endpoint,
            out: Outbox::new(alloc)?,
            local,
            peer: remote.unwrap_or(PEER),
            isn,
            peer_isn: PEER_ISN,
            reported: 0,
            is_open: true,
            alloc,
        })
    }

    /// Does what a step asks for.
    pub(crate) fn act(&mut self, deed: Deed<'_>) -> Met {
        match deed {
            Deed::Comes(segment) => self.comes(segment),
            Deed::Tick => {
                self.end_turn()?;
                self.endpoint.on_tick();
                self.is_open = true;
                Ok(())
            }
            Deed::EndTurn => self.end_turn(),
            Deed::Close => {
                self.endpoint.close();
                self.is_open = true;
                Ok(())
            }
            Deed::Write { text, taken } => {
                let count = self.endpoint.write(&text.bytes(self.alloc)?);
                self.is_open = true;
                self.meets(count as u64, taken as u64)
            }
            Deed::Read { from, room, text } => self.read(from, room, text),
            Deed::Leaves(segment) => self.leaves(segment),
            Deed::Segments(count) => {
                self.flush();
                let left = self.out.len().saturating_sub(self.reported);
                self.reported = self.out.len();
                self.meets(left as u64, u64::from(count))
            }
            Deed::State(wanted) => {
                let state = self.endpoint.state();
                if state.name == wanted.name && state.reset == wanted.reset {
                    return Ok(());
                }
                let (name, reset) = (state.name, if state.reset { ", reset" } else { "" });
                differs(self.alloc, format_args!("{name:?}{reset}"))
            }
            Deed::Shows(quantity, number) => self.meets(self.shown(quantity), u64::from(number)),
        }
    }

    /// A number must be this one.
    fn meets(&self, found: u64, wanted: u64) -> Met {
        if found == wanted {
            return Ok(());
        }
        differs(self.alloc, found)
    }

    /// What is seen of the endpoint between its calls.
    fn shown(&self, quantity: Quantity) -> u64 {
        let endpoint = &self.endpoint;
        match quantity {
            Quantity::Readable => endpoint.readable() as u64,
            Quantity::Room => endpoint.room() as u64,
            Quantity::Ended => u64::from(endpoint.ended()),
            Quantity::Sent => u64::from(endpoint.sent().0),
            Quantity::Acked => u64::from(endpoint.acked().0),
        }
    }

    /// Sends what is due.
    pub(crate) fn send(&mut self) {
        self.out.clear();
        self.endpoint.flush(&mut self.out);
    }

    /// Ends the turn, if one is open.
    fn flush(&mut self) {
        if self.is_open {
            self.send();
            self.reported = 0;
            self.is_open = false;
        }
    }

    /// Ends the turn. The script must have named all segments that were sent.
    pub(crate) fn end_turn(&mut self) -> Met {
        self.flush();
        if self.reported < self.out.len() {
            return self.differs();
        }
        Ok(())
    }

    /// What leaves next differs from what the script names.
    fn differs(&self) -> Met {
        let mut said = Said::new(self.alloc);
        if self.reported >= self.out.len() {
            said.add(b"nothing leaves");
            return Err(Miss::Differs(said));
        }
        match read_packet(self.out.packet(self.reported)) {
            Ok(p) => {
                said.add(b"out ");
                write_segment(p, &mut said);
            }
            Err(why) => write!(said, "no packet: {why:?}"),
        }
        Err(Miss::Differs(said))
    }

    fn comes(&mut self, segment: Segment<'_>) -> Met {
        self.end_turn()?;
        let text = segment.text.bytes(self.alloc)?;
        let head = segment.head(self.peer, self.local);
        if has(head.flags, SYN) {
            self.peer_isn = head.seq;
        }
        self.endpoint.on_packet(PacketRef {
            head,
            payload: text.as_slice(),
        });
        self.is_open = true;
        Ok(())
    }

    /// Reads into so many bytes, or peeks from a place on. This text must be read.
    fn read(&mut self, from: Option<u16>, room: u16, text: Text<'_>) -> Met {
        let wanted = text.bytes(self.alloc)?;
        let mut read = vec![in self.alloc; 0; usize::from(room)]?;
        let count = match from {
            Some(from) => self.endpoint.peek(usize::from(from), read.as_mut_slice()),
            None => self.endpoint.read(read.as_mut_slice()),
        };
        self.is_open = self.is_open || from.is_none();
        read.truncate(count);
        if read.as_slice() == wanted.as_slice() {
            return Ok(());
        }
        let mut said = Said::new(self.alloc);
        write_bytes(read.as_slice(), &mut said);
        Err(Miss::Differs(said))
    }

    /// This segment leaves next: it has these headers and this text.
    fn leaves(&mut self, segment: Segment<'_>) -> Met {
        self.flush();
        let text = segment.text.bytes(self.alloc)?;
        let head = segment.head(self.local, self.peer);
        if self.reported < self.out.len()
            && let Ok(p) = read_packet(self.out.packet(self.reported))
            && is_same_head(p.head, head)
            && p.payload == text.as_slice()
        {
            self.reported = self.reported.saturating_add(1);
            return Ok(());
        }
        self.differs()
    }
}
