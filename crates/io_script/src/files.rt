//! A file of the system as a disk, and with a UDP socket as a desk.

use crate::numbers;
use disk::{Desk, Disk, FileDisk, HostDesk, MemFile, ShelfEnd, StdFile};
use ft_io::{Addr, Failed, NoMemory, Receipt};
use std::alloc::Global;
use std::fs;
use std::fs::{File, Files};
use std::net::Net;
use std::os::unix::fs::symlink;
use std::time::Clock;
use test_data::Said;

/// Appends three bytes, replaces one, cuts one off, and appends two, up to a call that fails. Whether none did.
fn change<D: Disk>(disk: &mut D) -> bool {
    disk.append(b"XYZ").is_ok()
        && disk.sync().is_ok()
        && disk.put(1, b'!').is_ok()
        && disk.sync().is_ok()
        && disk.cut(2).is_ok()
        && disk.sync().is_ok()
        && disk.append(b"U").is_ok()
        && disk.append(b"V").is_ok()
}

/// Says how an opening or a making ended.
fn write_end(end: Result<FileDisk<StdFile>, ShelfEnd>, said: &mut Said) {
    said.word(match end {
        Ok(_) => b"opened",
        Err(ShelfEnd::InUse) => b"in use",
        Err(ShelfEnd::Failed) => b"failed",
        Err(ShelfEnd::Missing) => b"missing",
        Err(ShelfEnd::Present) => b"there",
    });
}

/// Says whether the file of this name is opened.
fn write_opening<R: Files<File = File>>(system: &R, name: &str, said: &mut Said) {
    write_end(FileDisk::open(system, name), said);
}

/// Says whether a file of this name is made.
fn write_making<R: Files<File = File>>(system: &R, name: &str, said: &mut Said) {
    write_end(FileDisk::begin(system, name), said);
}

/// Changes a new file: says how the changes ended, and whether the file was opened a second time meanwhile.
fn change_kept<R: Files<File = File>>(system: &R, said: &mut Said) {
    match FileDisk::begin(system, "kept") {
        Ok(mut disk) => {
            said.done(change(&mut disk));
            write_opening(system, "kept", said);
        }
        Err(_) => said.word(b"no file"),
    }
}

/// Says what two reads of the disk give.
fn write_reads<D: Disk>(disk: &mut D, said: &mut Said) {
    let mut back = [b'.'; 9];
    for _ in 0..2 {
        let read = disk.read(&mut back);
        said.given(read);
        said.word(&back);
    }
}

/// Changes a new file, and opens it while it is open and after that: says how the changes ended, whether it was opened a second time, what two reads of it
/// give.
pub fn keep_file<R: Files<File = File>>(system: &R, said: &mut Said) {
    change_kept(system, said);
    match FileDisk::open(system, "./kept") {
        Ok(mut disk) => write_reads(&mut disk, said),
        Err(_) => said.word(b"no file"),
    }
}

/// A file that isn't there, is made, and is there; a symbolic link to it, a folder, a file in a folder that isn't there; and the file once it has a second
/// name, by each of the two: says which are opened, and which are made.
pub fn open_names<R: Files<File = File>>(system: &R, said: &mut Said) {
    write_opening(system, "plain", said);
    write_making(system, "plain", said);
    write_making(system, "plain", said);
    write_opening(system, "plain", said);
    said.done(symlink(system, "plain", "link").is_ok());
    said.done(fs::create_dir(system, "folder").is_ok());
    for name in ["link", "folder", "none/plain"] {
        write_opening(system, name, said);
        write_making(system, name, said);
    }
    said.done(fs::hard_link(system, "plain", "second").is_ok());
    for name in ["plain", "second"] {
        write_opening(system, name, said);
    }
}

/// Changes a new file as a disk, by calls on a desk. Says how the changes ended.
fn change_by_desk<K: Desk>(desk: &mut K, said: &mut Said) {
    match desk.begin("desk") {
        Ok(()) => said.done(change(desk)),
        Err(_) => said.word(b"no file"),
    }
}

/// Opens this file by a desk, and says what two reads of it give.
fn read_by_desk<K: Desk>(desk: &mut K, said: &mut Said) {
    match desk.open("./desk") {
        Ok(()) => write_reads(desk, said),
        Err(_) => said.word(b"no file"),
    }
}

/// Appends, puts, cuts and syncs through a desk of the system; then another desk opens the file and reads it.
pub fn keep_by_desk<R: AllocGlobal + Net + Clock + Files<File = File>>(
    system: &R,
    said: &mut Said,
) {
    change_by_desk(&mut HostDesk::new(system.alloc(), system), said);
    read_by_desk(&mut HostDesk::new(system.alloc(), system), said);
}

/// Appends to a file and puts a new one in its place, of which another was begun before, and appends to that, up to a call that fails. Whether none did.
fn change_place<K: Desk>(desk: &mut K) -> bool {
    desk.append(b"abcdef").is_ok()
        && desk.sync().is_ok()
        && desk.begin_aside().is_ok()
        && desk.append_aside(b"lost").is_ok()
        && desk.begin_aside().is_ok()
        && desk.append_aside(b"VW").is_ok()
        && desk.sync_aside().is_ok()
        && desk.replace().is_ok()
        && desk.sync().is_ok()
        && desk.append(b"X").is_ok()
        && desk.sync().is_ok()
}

/// Says how calls end that put a new file in the place of an open one, and those on a desk whose new file was removed. A folder then has the new file's name:
/// says how one more is begun, and how a sync of the open file ends.
fn write_places<K: Desk>(desk: &mut K, said: &mut Said) {
    match desk.begin("place") {
        Ok(()) => said.done(change_place(desk)),
        Err(_) => said.word(b"no file"),
    }
    said.done(desk.begin_aside().is_ok());
    desk.drop_aside();
    said.done(desk.append_aside(b"Y").is_ok());
    said.value(desk.faults());
}

/// Puts a new file in the place of an open one by a desk of the system; then another desk opens it and reads it. What is left of a new file is removed then;
/// a folder isn't, and no new file is begun while it is there.
pub fn replace_by_desk<R: AllocGlobal + Net + Clock + Files<File = File>>(
    system: &R,
    said: &mut Said,
) {
    write_places(&mut HostDesk::new(system.alloc(), system), said);
    write_making(system, "place.new", said);
    let mut desk = HostDesk::new(system.alloc(), system);
    match desk.open("place") {
        Ok(()) => write_reads(&mut desk, said),
        Err(_) => said.word(b"no file"),
    }
    said.done(fs::create_dir(system, "place.new").is_ok());
    said.done(desk.begin_aside().is_ok());
    said.done(desk.replace().is_ok());
    said.value(desk.faults());
}

/// Makes the eight calls of `change` on a disk over a file in memory of three bytes, each whatever the one before gave. Of its writes, changes of its length
/// and syncs those fail whose numbers come before a semicolon, and those writes take only half the bytes whose numbers come after it. Says how each call
/// ended, the count of faults, what the file has, and what it had at its last sync.
pub fn change_short_file(alloc: Global, lists: &str, said: &mut Said) -> Result<(), NoMemory> {
    let (fails, halves) = lists.split_once(';').unwrap_or((lists, ""));
    let (fails, halves) = (numbers(alloc, fails)?, numbers(alloc, halves)?);
    let file = MemFile::new(alloc, b"abc".to_vec(alloc)?, fails, halves);
    match FileDisk::over(file) {
        Ok(mut disk) => write_changes(&mut disk, said),
        Err(_) => said.word(b"no disk"),
    }
    Ok(())
}

/// Makes the calls of `change_short_file`.
fn write_changes(disk: &mut FileDisk<MemFile>, said: &mut Said) {
    said.done(disk.append(b"XYZ").is_ok());
    said.done(disk.sync().is_ok());
    said.done(disk.put(1, b'!').is_ok());
    said.done(disk.put(99, b'?').is_ok());
    said.done(disk.cut(5).is_ok());
    said.done(disk.cut(99).is_ok());
    said.done(disk.append(b"UVWXYZ").is_ok());
    said.done(disk.sync().is_ok());
    said.value(disk.faults());
    said.word(disk.file().content());
    said.word(disk.file().synced());
}

/// Binds the desk to a port of this machine, one of 16 of which some may be taken.
fn bind_desk<K: Desk>(desk: &mut K) -> Option<Addr> {
    for port in 7415..7431u16 {
        let here = Addr {
            ip: 0x7F00_0001,
            port,
        };
        if desk.bind(here).is_ok() {
            return Some(here);
        }
    }
    None
}

/// Says what a receive gave.
fn write_receive<K: Desk>(desk: &mut K, waits: bool, said: &mut Said) {
    let mut buf = [0u8; 2048];
    let receipt = if waits {
        desk.recv(&mut buf)
    } else {
        desk.recv_waiting(&mut buf)
    };
    match receipt {
        Ok(Receipt::Got { len, .. }) => said.word(&buf[..len.min(2048)]),
        Ok(Receipt::Nothing) => said.word(b"silent"),
        Err(Failed) => said.word(b"failed"),
    }
}

/// Says what calls give at a desk without a file and an address, with the counts of faults.
fn write_unused<K: Desk>(desk: &mut K, said: &mut Said) {
    said.done(desk.sync().is_ok());
    said.done(desk.send(Addr { ip: 1, port: 2 }, b"a").is_ok());
    said.done(desk.open("/").is_ok());
    said.value(desk.faults());
    said.value(desk.link_faults());
}

/// Says what receives give before and after two datagrams of another desk.
fn write_exchange<K: Desk>(desk: &mut K, other: &mut K, said: &mut Said) {
    let (Some(here), Some(_)) = (bind_desk(desk), bind_desk(other)) else {
        return said.word(b"no port is free");
    };
    write_receive(desk, false, said);
    write_receive(desk, true, said);
    said.done(other.send(here, b"abc").is_ok());
    said.done(other.send(here, b"defg").is_ok());
    write_receive(desk, true, said);
    write_receive(desk, false, said);
    write_receive(desk, false, said);
}

/// A sync, a send and the opening of a folder at a desk without a file and an address, with the counts of faults; then two datagrams from one desk to another:
/// says what receives give before and after.
pub fn use_desks<R: AllocGlobal + Net + Clock + Files<File = File>>(system: &R, said: &mut Said) {
    let mut desk = HostDesk::new(system.alloc(), system);
    let mut other = HostDesk::new(system.alloc(), system);
    write_unused(&mut desk, said);
    write_exchange(&mut desk, &mut other, said);
}
