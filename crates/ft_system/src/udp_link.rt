//! Std's UDP socket as a link. It records no calls: what is sent and what arrives depends on the system. Contracts know how many calls failed.

ghost use Rattle.std.specs.Prelude.{◌≡◌, ◌≤◌, IfSome, None, length};
ghost use Rattle.ft_io.specs.Link.{HasAtMost};
ghost use Rattle.ft_system.specs.UdpLink.{fresh_link};

use ft_io::{Addr, Failed, Link, Receipt};
use std::io;
use std::marker::Model;
use std::net::{IpAddr, Ipv4Addr, Net, SocketAddr, UdpSocket};
use std::time::{Clock, Duration, Instant};

/// The receive timeout, in milliseconds: `Receipt::Nothing` is due this long after the last send and after the last `Receipt::Nothing`, whatever arrives. A
/// timer that advanced only in silence would stop while datagrams arrive.
const PATIENCE: u64 = 20;

/// The longest time from one `Receipt::Nothing` to the next, in milliseconds, however much is sent in the meantime. It is the minimum retransmission timeout of
/// RFC 6298 (2.4).
const LONGEST: u64 = 1_000;

/// The socket's timeout is set again only where it differs from the time that is left by at least this many milliseconds. So it is set some five times in 20
/// milliseconds, however many datagrams arrive.
const LEEWAY: u64 = 4;

/// The shortest timeout that is set, in milliseconds. A timeout of 0 would wait forever.
const SHORTEST: u64 = 1;

/// A UDP socket. A call before the first successful bind is a fault. So are a datagram from an address that isn't IPv4, and a monotonic clock that can't be
/// read. A receive returns the next datagram, or `Receipt::Nothing` once 20 milliseconds have passed since the bind, the last send and the last
/// `Receipt::Nothing`, whatever arrives. A datagram that waits in the socket then stays there for the next receive. Sends put `Receipt::Nothing` off for at
/// most a second: a process that answers what arrives doesn't wait for its peer, so its retransmission timer needn't advance. After a receive that timed out
/// both times begin with the next receive.
#[derive(Drop)]
pub struct UdpLink<'a, R: Net + Clock> {
    system: &'a R,
    bound: Option<Bound>,
    faults: u64,
    bind_faults: u64,
}

impl<'a, R: Net + Clock> Model for UdpLink<'a, R> {
    ghost use Rattle.ft_system.specs.UdpLink.{LinkCounts};

    ghost Value = { LinkCounts };

    ghost view = { λ link. record { faults = link.faults; bind_faults = link.bind_faults } };
}

impl<'a, R: Net + Clock> UdpLink<'a, R> {
    /// Makes a link that isn't bound, with no fault yet.
    pub fn new(system: &'a R) -> UdpLink<'a, R>
        ensures { result ≡ fresh_link }
    {
        UdpLink {
            system,
            bound: None,
            faults: 0,
            bind_faults: 0,
        }
    }
}

impl<'a, R: Net + Clock> Link for UdpLink<'a, R> {
    ghost reported = { λ _. None };

    ghost fault_count = { λ counts. counts.faults };

    ghost bind_fault_count = { λ counts. counts.bind_faults };

    fn faults(&self) -> u64 {
        self.faults
    }

    fn bind_faults(&self) -> u64 {
        self.bind_faults
    }

    fn bind(&mut self, at: Addr) -> Result<(), Failed> {
        match Bound::open(self.system, at) {
            Ok(bound) => {
                self.bound = Some(bound);
                Ok(())
            }
            Err(_) => {
                self.faults = self.faults.saturating_add(1);
                self.bind_faults = self.bind_faults.saturating_add(1);
                Err(Failed)
            }
        }
    }

    fn send(&mut self, to: Addr, bytes: &[u8]) -> Result<(), Failed> {
        if send_by(&mut self.bound, to, bytes) {
            return Ok(());
        }
        self.faults = self.faults.saturating_add(1);
        Err(Failed)
    }

    fn recv(&mut self, buf: &mut [u8]) -> Result<Receipt, Failed> {
        match recv_by(self.system, &mut self.bound, buf) {
            Some(receipt) => Ok(receipt),
            None => {
                self.faults = self.faults.saturating_add(1);
                Err(Failed)
            }
        }
    }
}

/// A bound socket, and when its receives time out.
#[derive(Drop)]
struct Bound {
    socket: UdpSocket,
    /// The socket's timeout.
    timeout: Duration,
    /// When the last `Receipt::Nothing` was given. After a timeout it counts from the next receive.
    since: Option<Instant>,
    /// When the timeout began: then, or with a later send.
    patient_since: Option<Instant>,
    /// Whether something was sent since the last receive. The timeout then begins with the next one.
    has_sent: bool,
}

impl Bound {
    fn open<R: Net + Clock>(system: &R, at: Addr) -> io::Result<Bound> {
        let socket = UdpSocket::bind(system, socket_addr(at))?;
        let timeout = Duration::from_millis(PATIENCE);
        socket.set_read_timeout(Some(timeout))?;
        let now = Instant::now(system)?;
        Ok(Bound {
            socket,
            timeout,
            since: Some(now),
            patient_since: Some(now),
            has_sent: false,
        })
    }

    /// Receives a datagram, or times out. `None` where the socket fails.
    fn receive(&mut self, now: Instant, buf: &mut [u8]) -> Option<Receipt>
        ensures { IfSome result (λ receipt. HasAtMost receipt (length buf.new)) }
    {
        let left = self.patience_left(now);
        if left.is_zero() {
            self.begin(Some(now));
            return Some(Receipt::Nothing);
        }
        self.wait_for(left).ok()?;
        match self.socket.recv_from(buf) {
            Ok((len, from)) => Some(Receipt::Got {
                len,
                from: addr_of(from)?,
            }),
            Err(error) if is_silence(error.kind()) => {
                self.begin(None);
                Some(Receipt::Nothing)
            }
            Err(_) => None,
        }
    }

    /// Both times begin at this one, or else with the next receive.
    fn begin(&mut self, at: Option<Instant>) {
        self.since = at;
        self.patient_since = at;
        self.has_sent = false;
    }

    /// What is left at this time until `Receipt::Nothing` is due; 0 once it is.
    fn patience_left(&mut self, now: Instant) -> Duration {
        let since = self.since.unwrap_or(now);
        let patient_since = match self.patient_since {
            Some(begun) if !self.has_sent => begun,
            _ => now,
        };
        self.since = Some(since);
        self.patient_since = Some(patient_since);
        self.has_sent = false;
        let patience = left_of(PATIENCE, now, patient_since);
        patience.min(left_of(LONGEST, now, since))
    }

    /// Sets the socket's timeout, unless it is about as long already.
    fn wait_for(&mut self, left: Duration) -> io::Result<()> {
        if left.abs_diff(self.timeout) < Duration::from_millis(LEEWAY) {
            return Ok(());
        }
        let timeout = left.max(Duration::from_millis(SHORTEST));
        self.socket.set_read_timeout(Some(timeout))?;
        self.timeout = timeout;
        Ok(())
    }
}

/// What is left, at the time `now`, of `millis` milliseconds that began at `since`.
fn left_of(millis: u64, now: Instant, since: Instant) -> Duration {
    Duration::from_millis(millis).saturating_sub(now.duration_since(since))
}

/// Whether there is a socket and it took the complete datagram.
fn send_by(bound: &mut Option<Bound>, to: Addr, bytes: &[u8]) -> bool {
    let Some(bound) = bound else {
        return false;
    };
    bound.has_sent = true;
    matches!(bound.socket.send_to(bytes, socket_addr(to)), Ok(sent) if sent == bytes.len())
}

/// What the socket received, or `None` where there is no socket, or it or the clock failed.
fn recv_by<R: Clock>(clock: &R, bound: &mut Option<Bound>, buf: &mut [u8]) -> Option<Receipt>
    ensures { IfSome result (λ receipt. HasAtMost receipt (length buf.new)) }
{
    let Some(bound) = bound else {
        return None;
    };
    bound.receive(Instant::now(clock).ok()?, buf)
}

fn is_silence(kind: io::ErrorKind) -> bool {
    matches!(kind, io::ErrorKind::WouldBlock | io::ErrorKind::TimedOut)
}

fn socket_addr(at: Addr) -> SocketAddr {
    SocketAddr::new(IpAddr::V4(Ipv4Addr::from_bits(at.ip)), at.port)
}

fn addr_of(from: SocketAddr) -> Option<Addr> {
    match from {
        SocketAddr::V4(from) => Some(Addr {
            ip: from.ip().to_bits(),
            port: from.port(),
        }),
        SocketAddr::V6(_) => None,
    }
}
