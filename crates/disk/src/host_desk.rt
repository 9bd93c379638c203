//! Std's UDP socket and std's file as a desk. Their content isn't specified: contracts know only how many calls failed.

ghost use Rattle.std.specs.Prelude.{◌≡◌, ◌≤◌, IfSome, IfOk, None, length};
ghost use Rattle.ft_io.specs.Link.{HasAtMost};
ghost use Rattle.disk.specs.HostDesk.{fresh_desk};

use crate::file_disk::counted;
use crate::std_file::keep_name;
use crate::{Desk, Disk, FileDisk, ShelfEnd, StdFile};
use ft_io::{Addr, Failed, Receipt};
use std::alloc::{AllocError, Global};
use std::fs::{File, Files};
use std::marker::Model;
use std::net::{IpAddr, Ipv4Addr, Net, SocketAddr, UdpSocket};
use std::time::{Clock, Duration, SystemTime, UNIX_EPOCH};
use std::{fs, io};

/// The longest wait of a receive, in milliseconds.
const PATIENCE: u64 = 20;

/// A file, and its name.
#[derive(Drop)]
struct Held {
    disk: FileDisk<StdFile>,
    name: String,
    /// Whether it took this name, and the folder isn't synced yet.
    is_new: bool,
}

/// A UDP socket and a file. A sync is a fault if the file's name is gone then, or another file's. A call on the file before the first successful open is a
/// fault, and so is one on the network before the first successful bind. A datagram from an address that isn't IPv4 is a fault too.
#[derive(Drop)]
pub struct HostDesk<'a, R: Net + Clock + Files<File = File>> {
    alloc: Global,
    system: &'a R,
    file: Option<Held>,
    aside: Option<Held>,
    socket: Option<Bound>,
    faults: u64,
    refusals: u64,
    link_faults: u64,
    bind_faults: u64,
}

impl<'a, R: Net + Clock + Files<File = File>> Model for HostDesk<'a, R> {
    ghost use Rattle.disk.specs.HostDesk.{DeskCounts};

    ghost Value = { DeskCounts };

    ghost view = { λ d. record { faults = d.faults; refusals = d.refusals; link_faults = d.link_faults; bind_faults = d.bind_faults } };
}

impl<'a, R: Net + Clock + Files<File = File>> HostDesk<'a, R> {
    /// A desk with no file open and no address bound, and with no fault yet.
    pub fn new(alloc: Global, system: &'a R) -> HostDesk<'a, R>
        ensures { result ≡ fresh_desk }
    {
        HostDesk {
            alloc,
            system,
            file: None,
            aside: None,
            socket: None,
            faults: 0,
            refusals: 0,
            link_faults: 0,
            bind_faults: 0,
        }
    }
}

/// Opens the file of this name.
fn open_held<R: Files<File = File>>(
    alloc: Global,
    files: &R,
    name: &str,
) -> Result<Held, ShelfEnd> {
    let disk = FileDisk::open(files, name)?;
    let held = named(alloc, disk, name)?;
    clear_aside(alloc, files, &held);
    Ok(held)
}

/// Makes a file of this name.
fn begin_held<R: Files<File = File>>(
    alloc: Global,
    files: &R,
    name: &str,
) -> Result<Held, ShelfEnd> {
    let disk = FileDisk::begin(files, name)?;
    named(alloc, disk, name)
}

/// A file with its name, if there is memory for that.
fn named(alloc: Global, disk: FileDisk<StdFile>, name: &str) -> Result<Held, ShelfEnd> {
    match String::from_str(alloc, name) {
        Ok(name) => Ok(Held {
            disk,
            name,
            is_new: false,
        }),
        Err(_) => Err(ShelfEnd::Failed),
    }
}

/// Syncs a file, and its folder if the file has just taken its name. Then its name still has to be its name.
fn sync_named<R: Files<File = File>>(files: &R, held: &mut Held) -> Result<(), Failed> {
    held.disk.sync()?;
    if held.is_new {
        keep_name(files, held.name.as_str()).map_err(|_| Failed)?;
        held.is_new = false;
    }
    if held.disk.is_at(files, held.name.as_str()) {
        Ok(())
    } else {
        Err(Failed)
    }
}

/// The name of the new file that is to take the place of the one of this name.
fn aside_name(alloc: Global, name: &str) -> Result<String, AllocError> {
    let mut aside = String::from_str(alloc, name)?;
    aside.push_str(".new")?;
    Ok(aside)
}

/// Removes what is left of an earlier new file, if there is any.
fn remove_left<R: Files<File = File>>(files: &R, name: &str) -> Result<(), Failed> {
    match fs::remove_file(files, name) {
        Ok(()) => Ok(()),
        Err(error) if error.kind() == io::ErrorKind::NotFound => Ok(()),
        Err(_) => Err(Failed),
    }
}

/// Removes a new file that an earlier process has left beside this one. If that fails it stays: it is never read, and is in the way of the next one only.
fn clear_aside<R: Files<File = File>>(alloc: Global, files: &R, held: &Held) {
    if let Ok(name) = aside_name(alloc, held.name.as_str()) {
        let _removed = remove_left(files, name.as_str());
    }
}

/// Makes the new file that is to take the place of this one.
fn make_aside<R: Files<File = File>>(
    alloc: Global,
    files: &R,
    held: &Held,
) -> Result<Held, Failed> {
    let name = aside_name(alloc, held.name.as_str()).map_err(|_| Failed)?;
    remove_left(files, name.as_str())?;
    let disk = FileDisk::begin(files, name.as_str()).map_err(|_| Failed)?;
    Ok(Held {
        disk,
        name,
        is_new: false,
    })
}

/// The new file takes the name of the old one, which still has to be its name.
fn rename_over<R: Files<File = File>>(files: &R, old: &Held, aside: &Held) -> Result<(), Failed> {
    if !old.disk.is_at(files, old.name.as_str()) || !aside.disk.is_at(files, aside.name.as_str()) {
        return Err(Failed);
    }
    fs::rename(files, aside.name.as_str(), old.name.as_str()).map_err(|_| Failed)
}

/// The new file takes the place and the name of the old one.
fn take_place<R: Files<File = File>>(
    files: &R,
    file: &mut Option<Held>,
    aside: &mut Option<Held>,
) -> Result<(), Failed> {
    let (Some(old), Some(new)) = (file.take(), aside.take()) else {
        return Err(Failed);
    };
    rename_over(files, &old, &new)?;
    *file = Some(Held {
        disk: new.disk,
        name: old.name,
        is_new: true,
    });
    Ok(())
}

/// The time since 1970, in nanoseconds.
fn nanoseconds<R: Clock>(clock: &R) -> Option<u64> {
    let now = SystemTime::now(clock).ok()?;
    let since = now.duration_since(UNIX_EPOCH).ok()?;
    u64::try_from(since.as_nanos()).ok()
}

impl<'a, R: Net + Clock + Files<File = File>> Disk for HostDesk<'a, R> {
    ghost reported = { λ _. None };

    ghost left = { λ _. None };

    ghost fault_count = { λ counts. counts.faults };

    ghost beside = { λ counts. record { refusals = counts.refusals; link_faults = counts.link_faults; bind_faults = counts.bind_faults; waits = None } };

    fn faults(&self) -> u64 {
        self.faults
    }

    fn read(&mut self, buf: &mut [u8]) -> Result<usize, Failed> {
        let done = match &mut self.file {
            Some(file) => file.disk.read(buf),
            None => Err(Failed),
        };
        counted(&mut self.faults, done)
    }

    fn append(&mut self, bytes: &[u8]) -> Result<(), Failed> {
        let done = match &mut self.file {
            Some(file) => file.disk.append(bytes),
            None => Err(Failed),
        };
        counted(&mut self.faults, done)
    }

    fn put(&mut self, at: u64, byte: u8) -> Result<(), Failed> {
        let done = match &mut self.file {
            Some(file) => file.disk.put(at, byte),
            None => Err(Failed),
        };
        counted(&mut self.faults, done)
    }

    fn cut(&mut self, at: u64) -> Result<(), Failed> {
        let done = match &mut self.file {
            Some(file) => file.disk.cut(at),
            None => Err(Failed),
        };
        counted(&mut self.faults, done)
    }

    fn sync(&mut self) -> Result<(), Failed> {
        let done = match &mut self.file {
            Some(file) => sync_named(self.system, file),
            None => Err(Failed),
        };
        counted(&mut self.faults, done)
    }
}

impl<'a, R: Net + Clock + Files<File = File>> Desk for HostDesk<'a, R> {
    ghost file_of = { λ _ _. None };

    ghost aside = { λ _. None };

    ghost aside_synced = { λ _. None };

    fn refusals(&self) -> u64 {
        self.refusals
    }

    fn link_faults(&self) -> u64 {
        self.link_faults
    }

    fn bind_faults(&self) -> u64 {
        self.bind_faults
    }

    fn time(&self) -> u64 {
        nanoseconds(self.system).unwrap_or(0)
    }

    fn open(&mut self, name: &str) -> Result<(), ShelfEnd> {
        match open_held(self.alloc, self.system, name) {
            Ok(held) => {
                self.file = Some(held);
                Ok(())
            }
            Err(ShelfEnd::InUse) => {
                self.refusals = self.refusals.saturating_add(1);
                Err(ShelfEnd::InUse)
            }
            Err(ShelfEnd::Missing) => {
                self.refusals = self.refusals.saturating_add(1);
                Err(ShelfEnd::Missing)
            }
            Err(_) => {
                self.faults = self.faults.saturating_add(1);
                Err(ShelfEnd::Failed)
            }
        }
    }

    fn begin(&mut self, name: &str) -> Result<(), ShelfEnd> {
        match begin_held(self.alloc, self.system, name) {
            Ok(held) => {
                self.file = Some(held);
                Ok(())
            }
            Err(ShelfEnd::InUse) => {
                self.refusals = self.refusals.saturating_add(1);
                Err(ShelfEnd::InUse)
            }
            Err(ShelfEnd::Present) => {
                self.refusals = self.refusals.saturating_add(1);
                Err(ShelfEnd::Present)
            }
            Err(_) => {
                self.faults = self.faults.saturating_add(1);
                Err(ShelfEnd::Failed)
            }
        }
    }

    fn begin_aside(&mut self) -> Result<(), Failed> {
        self.aside = None;
        let made = match &self.file {
            Some(file) => make_aside(self.alloc, self.system, file),
            None => Err(Failed),
        };
        let made = counted(&mut self.faults, made)?;
        self.aside = Some(made);
        Ok(())
    }

    fn append_aside(&mut self, bytes: &[u8]) -> Result<(), Failed> {
        let done = match &mut self.aside {
            Some(aside) => aside.disk.append(bytes),
            None => Err(Failed),
        };
        counted(&mut self.faults, done)
    }

    fn sync_aside(&mut self) -> Result<(), Failed> {
        let done = match &mut self.aside {
            Some(aside) => aside.disk.sync(),
            None => Err(Failed),
        };
        counted(&mut self.faults, done)
    }

    fn drop_aside(&mut self) {
        if let Some(aside) = self.aside.take() {
            let _removed = remove_left(self.system, aside.name.as_str());
        }
    }

    fn replace(&mut self) -> Result<(), Failed> {
        let done = take_place(self.system, &mut self.file, &mut self.aside);
        counted(&mut self.faults, done)
    }

    fn bind(&mut self, at: Addr) -> Result<(), Failed> {
        match Bound::open(self.system, at) {
            Ok(bound) => {
                self.socket = Some(bound);
                Ok(())
            }
            Err(_) => {
                self.link_faults = self.link_faults.saturating_add(1);
                self.bind_faults = self.bind_faults.saturating_add(1);
                Err(Failed)
            }
        }
    }

    fn send(&mut self, to: Addr, bytes: &[u8]) -> Result<(), Failed> {
        let sent = send_by(&mut self.socket, to, bytes);
        counted(&mut self.link_faults, sent)
    }

    fn recv(&mut self, buf: &mut [u8]) -> Result<Receipt, Failed> {
        let receipt = receive_by(&mut self.socket, true, buf);
        counted(&mut self.link_faults, receipt)
    }

    fn recv_waiting(&mut self, buf: &mut [u8]) -> Result<Receipt, Failed> {
        let receipt = receive_by(&mut self.socket, false, buf);
        counted(&mut self.link_faults, receipt)
    }
}

/// A socket that is bound.
#[derive(Drop)]
struct Bound {
    socket: UdpSocket,
    /// Whether its calls wait.
    waits: bool,
}

impl Bound {
    fn open<R: Net>(system: &R, at: Addr) -> io::Result<Bound> {
        let socket = UdpSocket::bind(system, socket_addr(at))?;
        socket.set_read_timeout(Some(Duration::from_millis(PATIENCE)))?;
        Ok(Bound {
            socket,
            waits: true,
        })
    }

    /// Makes the calls wait from now on, or not.
    fn set_waits(&mut self, waits: bool) -> io::Result<()> {
        if self.waits != waits {
            self.socket.set_nonblocking(!waits)?;
            self.waits = waits;
        }
        Ok(())
    }

    /// Receives a datagram, or nothing. `None` where the socket fails.
    fn receive(&mut self, waits: bool, buf: &mut [u8]) -> Option<Receipt>
        ensures { IfSome result (λ receipt. HasAtMost receipt (length buf.new)) }
    {
        self.set_waits(waits).ok()?;
        match self.socket.recv_from(buf) {
            Ok((len, from)) => Some(Receipt::Got {
                len,
                from: addr_of(from)?,
            }),
            Err(error) if is_silence(error.kind()) => Some(Receipt::Nothing),
            Err(_) => None,
        }
    }

    /// Sends a datagram, and returns whether the socket took all of it. The send waits for room in the socket's buffer, so that no answer is lost because that
    /// is full.
    fn send(&mut self, to: Addr, bytes: &[u8]) -> bool {
        self.set_waits(true).is_ok()
            && matches!(self.socket.send_to(bytes, socket_addr(to)), Ok(sent) if sent == bytes.len())
    }
}

fn send_by(socket: &mut Option<Bound>, to: Addr, bytes: &[u8]) -> Result<(), Failed> {
    let Some(bound) = socket else {
        return Err(Failed);
    };
    if bound.send(to, bytes) {
        Ok(())
    } else {
        Err(Failed)
    }
}

fn receive_by(socket: &mut Option<Bound>, waits: bool, buf: &mut [u8]) -> Result<Receipt, Failed>
    ensures { IfOk result (λ receipt. HasAtMost receipt (length buf.new)) }
{
    let Some(bound) = socket else {
        return Err(Failed);
    };
    bound.receive(waits, buf).ok_or(Failed)
}

fn is_silence(kind: io::ErrorKind) -> bool {
    matches!(kind, io::ErrorKind::WouldBlock | io::ErrorKind::TimedOut)
}

fn socket_addr(at: Addr) -> SocketAddr {
    SocketAddr::new(IpAddr::V4(Ipv4Addr::from_bits(at.ip)), at.port)
}

fn addr_of(from: SocketAddr) -> Option<Addr> {
    match from {
        SocketAddr::V4(from) => Some(Addr {
            ip: from.ip().to_bits(),
            port: from.port(),
        }),
        SocketAddr::V6(_) => None,
    }
}
