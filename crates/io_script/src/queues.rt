//! A socket in memory, and a user that knows it by its trait alone.

use ft_io::NoMemory;
use socket_layer::{MemSocket, Socket};
use std::alloc::Global;
use test_data::Said;

/// Reads up to four bytes, writes back as many of them as there is room for, and closes once the peer's stream is read to its end. How many bytes it wrote.
fn echo<S: Socket>(socket: &mut S) -> usize {
    let mut buf = [0; 4];
    let n = socket.read(&mut buf);
    let written = socket.write(&buf[..n]);
    if socket.ended() {
        socket.close();
    }
    written
}

/// Echoes, and says how many bytes were written, are unread and have room, and whether the user has closed.
fn echo_once(socket: &mut MemSocket, said: &mut Said) {
    let written = echo(socket);
    let (unread, room) = (socket.readable(), socket.room());
    let state = if socket.is_closed() { "closed" } else { "open" };
    said.value(written);
    write!(said, " {unread} {room} {state}");
}

/// Echoes three times a stream of twelve bytes that has ended, and says what was written; then the room of a closed socket.
pub(crate) fn echo_thrice(alloc: Global, said: &mut Said) -> Result<(), NoMemory> {
    let came = Vec::from_slice(alloc, b"hello, world")?;
    let mut socket = MemSocket::new(alloc, came, true)?;
    for _ in 0..3 {
        echo_once(&mut socket, said);
    }
    said.word(socket.written());
    let mut empty = MemSocket::new(alloc, Vec::new(alloc), false)?;
    empty.close();
    said.value(empty.room());
    Ok(())
}
