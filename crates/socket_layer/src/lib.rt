//! A TCP connection as its user sees it (RFC 9293, 3.9.1): a queue of bytes each way and an end on each side. Ghost functions name what a call does to the
//! connection, so a caller knows the connection after it, and that nothing else of it changed. No call here refuses, and none allocates.
#![tactic(auto)]

ghost use Rattle.std.specs.Prelude.{◌≡◌, ℕ, ◌-◌, ◌==◌, ◌&&◌, Bool, true, List, ◌++◌, length, min, take, drop};

pub use mem_socket::MemSocket;

mod mem_socket;

/// A connection's two queues. Lengths and rooms are in bytes.
pub trait Socket {
    /// The peer's bytes that are received and not read, in order.
    ghost unread: { Self → List ℕ };

    /// Whether the peer's FIN is taken: no byte follows the unread ones.
    ghost has_end: { Self → Bool };

    /// How many bytes a write takes at most.
    ghost write_room: { Self → ℕ };

    /// Whether this side has ended its stream, by `close` or because the connection no longer exists.
    ghost is_closed: { Self → Bool };

    /// The connection after this many bytes are read.
    ghost after_read: { Self → ℕ → Self };

    /// The connection after these bytes are written.
    ghost after_write: { Self → List ℕ → Self };

    /// The connection after its user has closed it.
    ghost after_close: { Self → Self };

    /// How many bytes are unread.
    fn readable(&self) -> usize
        ensures { result ≡ length (unread self.now) };

    /// Moves the first unread bytes to the beginning of `buf`, as many as fit, and returns how many. The rest of `buf` stays.
    fn read(&mut self, buf: &mut [u8]) -> usize
        ensures count { result ≡ min (length (unread self.old)) (length buf.old) }
        ensures bytes { buf.new ≡ take result (unread self.old) ++ drop result buf.old }
        ensures state { self.new ≡ after_read self.old result };

    /// How many bytes a write takes at most: 0 once this side has ended its stream.
    fn room(&self) -> usize
        ensures { result ≡ write_room self.now };

    /// Takes the first bytes of `bytes` to be sent, as many as there is room for, and returns how many.
    fn write(&mut self, bytes: &[u8]) -> usize
        ensures count { result ≡ min (write_room self.old) (length bytes.now) }
        ensures state { self.new ≡ after_write self.old (take result bytes.now) };

    /// Ends this side's stream after the bytes that were written.
    fn close(&mut self)
        ensures { self.new ≡ after_close self.old };

    /// Whether the peer's stream is read to its end: its FIN is taken and nothing is unread.
    fn ended(&self) -> bool
        ensures { result ≡ (has_end self.now && length (unread self.now) == 0) };

    /// A closed connection takes no more bytes.
    ghost closed_has_no_room: { (s : Self) → is_closed s ≡ true → write_room s ≡ 0 };

    /// Reading takes the first bytes ..
    ghost read_takes_the_front: { (s : Self) (n : ℕ) → unread (after_read s n) ≡ drop n (unread s) };

    /// .. and leaves the peer's end and this side's stream as they are.
    ghost read_keeps_the_end: { (s : Self) (n : ℕ) → has_end (after_read s n) ≡ has_end s };

    ghost read_keeps_the_room: { (s : Self) (n : ℕ) → write_room (after_read s n) ≡ write_room s };

    ghost read_keeps_open: { (s : Self) (n : ℕ) → is_closed (after_read s n) ≡ is_closed s };

    /// Writing uses up room ..
    ghost write_fills_the_room: { (s : Self) (bytes : List ℕ) → write_room (after_write s bytes) ≡ write_room s - length bytes };

    /// .. and leaves the peer's stream as it is.
    ghost write_keeps_the_unread: { (s : Self) (bytes : List ℕ) → unread (after_write s bytes) ≡ unread s };

    ghost write_keeps_the_end: { (s : Self) (bytes : List ℕ) → has_end (after_write s bytes) ≡ has_end s };

    ghost write_keeps_open: { (s : Self) (bytes : List ℕ) → is_closed (after_write s bytes) ≡ is_closed s };

    /// Closing is final, and leaves the peer's stream as it is.
    ghost close_closes: { (s : Self) → is_closed (after_close s) ≡ true };

    ghost close_keeps_the_unread: { (s : Self) → unread (after_close s) ≡ unread s };

    ghost close_keeps_the_end: { (s : Self) → has_end (after_close s) ≡ has_end s };
}
