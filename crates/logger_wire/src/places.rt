//! Writing numbers and bytes at a position.

ghost use Rattle.std.specs.Prelude.{◌≡◌, ◌≤◌, ◌<◌, ◌+◌, ◌++◌, length};
ghost use Rattle.seq_arith.specs.MessageGrammar.{number_bytes, flag};
ghost use Rattle.logger_wire.specs.Spelling.{put};

use crate::layout::{KEY, PORT};
use byteorder::{BigEndian, ByteOrder};
use ft_io::Key;

pub(crate) fn put_bytes(out: &mut [u8], at: usize, new: &[u8])
    requires { at + length new.now ≤ length out.old }
    ensures { out.new ≡ put at new.now out.old }
{
    out[at..at + new.len()].copy_from_slice(new);
}

pub(crate) fn put_flag(out: &mut [u8], at: usize, is_set: bool)
    requires { at < length out.old }
    ensures { out.new ≡ put at (number_bytes 1 (flag is_set)) out.old }
{
    put_bytes(out, at, &[u8::from(is_set)]);
}

pub(crate) fn put_byte(out: &mut [u8], at: usize, n: u8)
    requires { at < length out.old }
    ensures { out.new ≡ put at (number_bytes 1 n) out.old }
{
    put_bytes(out, at, &[n]);
}

pub(crate) fn put_word(out: &mut [u8], at: usize, n: u16)
    requires { at + 2 ≤ length out.old }
    ensures { out.new ≡ put at (number_bytes 2 n) out.old }
{
    BigEndian::write_u16(&mut out[at..], n);
}

pub(crate) fn put_long(out: &mut [u8], at: usize, n: u32)
    requires { at + 4 ≤ length out.old }
    ensures { out.new ≡ put at (number_bytes 4 n) out.old }
{
    BigEndian::write_u32(&mut out[at..], n);
}

pub(crate) fn put_huge(out: &mut [u8], at: usize, n: u64)
    requires { at + 8 ≤ length out.old }
    ensures { out.new ≡ put at (number_bytes 8 n) out.old }
{
    BigEndian::write_u64(&mut out[at..], n);
}

/// Writes a key: its address, and then its port.
pub(crate) fn put_key(out: &mut [u8], at: usize, key: Key)
    requires { at + KEY ≤ length out.old }
    ensures { out.new ≡ put (at + PORT) (number_bytes 2 key.port) (put at (number_bytes 4 key.ip) out.old) }
{
    put_long(out, at, key.ip);
    put_word(out, at + PORT, key.port);
}
