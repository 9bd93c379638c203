//! The service, with its output that isn't given to TCP yet.

ghost use Rattle.limits.specs.Limits.{longest_stream};
ghost use Rattle.std.specs.Prelude.{◌≡◌, ℕ, ◌^◌, ◌-◌, ◌≤◌, List, [], length, take, drop, false, OnOk};
ghost use Rattle.north_wrap.specs.RunState.{run_on, gives, given_to};

use ft_io::NoMemory;
use server_trait::{CHUNK_LIMIT, Next, Service};
use socket_layer::Socket;
use std::marker::Model;

/// The most bytes of a short read.
const SHORT_READ: usize = 128;

/// A service that has run so far.
#[derive(Drop)]
pub(crate) struct ServiceRun<S: Service> {
    /// The service's state.
    service: S,
    /// Output. The bytes before `at` are given to TCP, the others aren't.
    output: Vec<u8>,
    /// How many bytes of `output` are given to TCP.
    at: usize,
    /// The bytes of all output.
    made: u32,
    /// Whether the service has closed.
    closed: bool,
}

impl<S: Service> Model for ServiceRun<S> {
    ghost use Rattle.limits.specs.Limits.{longest_stream};
    ghost use Rattle.std.specs.Prelude.{drop, ◌≤◌, ◌^◌, vec_len};
    ghost use Rattle.north_wrap.specs.RunState.{RunState};

    ghost Value = { RunState S };

    ghost view = { λ r. record { service = r.service; pending = drop r.at r.output.items; made = r.made; closed = r.closed } };

    ghost invariant = { λ r. (r.at ≤ vec_len r.output) × (r.made ≤ longest_stream) };
}

impl<S: Service> ServiceRun<S> {
    pub(crate) fn new(service: S, output: Vec<u8>, made: u32, closed: bool) -> ServiceRun<S>
        requires { made ≤ longest_stream }
        ensures { result ≡ record { service = service; pending = output.items; made = made; closed = closed } }
    {
        ServiceRun {
            service,
            output,
            at: 0,
            made,
            closed,
        }
    }

    pub(crate) fn service(&self) -> &S
        ensures { result.now ≡ self.now.service }
    {
        &self.service
    }

    pub(crate) fn made(&self) -> u32
        ensures { result ≡ self.now.made }
    {
        self.made
    }

    pub(crate) fn is_closed(&self) -> bool
        ensures { result ≡ self.now.closed }
    {
        self.closed
    }

    pub(crate) fn pending(&self) -> usize
        ensures { result ≡ length self.now.pending }
    {
        self.output.len() - self.at
    }

    /// Gives the service a chunk, unless it has closed.
    pub(crate) fn feed(&mut self, chunk: &[u8]) -> Result<(), NoMemory>
        requires short { length chunk.now ≤ 2048 }
        requires room { self.old.made ≤ longest_stream - 2 ^ 20 }
        ensures { OnOk result (self.new ≡ run_on S.after self.old chunk.now) }
    {
        if self.closed {
            return Ok(());
        }
        self.take(chunk)
    }

    /// Reads `size` bytes from a socket, and gives them to the service, unless it has closed. A short read has a short buffer, which takes less time to clear.
    pub(crate) fn feed_from<K: Socket>(&mut self, sock: &mut K, size: usize) -> Result<(), NoMemory>
        requires most { size ≤ 2048 }
        requires there { size ≤ length (K.unread sock.old) }
        requires room { self.old.made ≤ longest_stream - 2 ^ 20 }
        ensures state { OnOk result (self.new ≡ run_on S.after self.old (take size (K.unread sock.old))) }
        ensures socket { sock.new ≡ K.after_read sock.old size }
    {
        if size <= SHORT_READ {
            return self.feed_through(sock, &mut [0; SHORT_READ][..size]);
        }
        self.feed_through(sock, &mut [0; CHUNK_LIMIT][..size])
    }

    /// Fills a buffer from a socket, and gives the service what it then has, unless it has closed.
    #[tactic(auto, using(std::proofs::lemmas::Grind::common_steps))]
    fn feed_through<K: Socket>(&mut self, sock: &mut K, chunk: &mut [u8]) -> Result<(), NoMemory>
        requires most { length chunk.old ≤ 2048 }
        requires there { length chunk.old ≤ length (K.unread sock.old) }
        requires room { self.old.made ≤ longest_stream - 2 ^ 20 }
        ensures state { OnOk result (self.new ≡ run_on S.after self.old (take (length chunk.old) (K.unread sock.old))) }
        ensures socket { sock.new ≡ K.after_read sock.old (length chunk.old) }
    {
        read_whole(sock, chunk);
        self.feed(chunk)
    }

    fn take(&mut self, chunk: &[u8]) -> Result<(), NoMemory>
        requires short { length chunk.now ≤ 2048 }
        requires room { self.old.made ≤ longest_stream - 2 ^ 20 }
        requires goes { self.old.closed ≡ false }
        ensures { OnOk result (self.new ≡ run_on S.after self.old chunk.now) }
    {
        let before = self.output.len();
        match self.service.take(chunk, &mut self.output) {
            Ok(next) => {
                self.made += (self.output.len() - before) as u32;
                self.closed = next == Next::Close;
                Ok(())
            }
            Err(refused) => {
                self.at = 0;
                Err(refused)
            }
        }
    }

    /// Gives the socket output, as much as it has room for, except the last `kept` bytes.
    pub(crate) fn write_output<K: Socket>(&mut self, sock: &mut K, kept: u32)
        ensures state { self.new ≡ given_to (K.write_room sock.old) kept self.old }
        ensures socket { sock.new ≡ K.after_write sock.old (gives (K.write_room sock.old) kept self.old) }
    {
        let most = self.pending().saturating_sub(kept as usize);
        let n = sock.write(&self.output[self.at..self.at + most]);
        self.at += n;
        self.forget_given();
    }

    /// Reuses the room of the output once all is given.
    fn forget_given(&mut self)
        ensures { self.new ≡ self.old }
    {
        if self.at == self.output.len() {
            self.output.clear();
            self.at = 0;
        }
    }
}

/// Fills a buffer. The socket has enough bytes.
#[tactic(auto, using(std::proofs::lemmas::Grind::common_steps))]
fn read_whole<K: Socket>(sock: &mut K, buf: &mut [u8])
    requires { length buf.old ≤ length (K.unread sock.old) }
    ensures bytes { buf.new ≡ take (length buf.old) (K.unread sock.old) }
    ensures socket { sock.new ≡ K.after_read sock.old (length buf.old) }
{
    sock.read(buf);
}
