//! The records that make up messages, as in the message grammar.

ghost use Rattle.std.specs.Prelude.{◌≡◌, ◌≤◌, length};
ghost use Rattle.seq_arith.specs.Message.Body.{EntryMsg, OpenMsg, DataMsg, StableMsg};
ghost use Rattle.seq_arith.specs.MessageGrammar.{fields_of, numbers_of, numbers_bytes, behind_at, ending as ending_lem};
ghost use Rattle.logger_wire.specs.Spelling.{put, body_bytes};
ghost use Rattle.logger_wire.specs.Records.{numbers_said, kept_said, head_said, part_said};
ghost use Rattle.logger_wire.specs.Places.{opening_at, kept_at, head_at, part_at, read_as};

use crate::fields::{behind, ending, flag, key, long, offset, segment_size, stream_length, units};
use crate::layout::{AFTER_KEY, HEADER, KEY};
use crate::places::{put_byte, put_flag, put_key, put_long, put_word};
use ft_io::Key;
use seq_arith::{BadMsg, Grammar, Kind};

/// The numbers of a connection.
#[derive(Clone, Copy)]
pub struct Numbers {
    /// The client's address and port.
    pub key: Key,
    /// The client's initial sequence number.
    pub cisn: u32,
    /// The server's initial sequence number, as the client knows it.
    pub sisn: u32,
    /// The segment size, 64 to 1,460 bytes.
    pub mss: u16,
}

/// How much of a connection is logged.
#[derive(Clone, Copy)]
pub struct Kept {
    /// The client's address and port.
    pub key: Key,
    /// How many of the client's bytes are logged, at most 2^24.
    pub length: u32,
    /// Whether the client's FIN is logged.
    pub fin: bool,
    /// How many reads are logged, at most 2^24 + 1.
    pub reads: u32,
}

/// An entry of the log without its bytes and lengths.
#[derive(Clone, Copy)]
pub struct EntryHead {
    /// The client's address and port.
    pub key: Key,
    /// The client's initial sequence number.
    pub cisn: u32,
    /// The server's initial sequence number, as the client knows it.
    pub sisn: u32,
    /// The segment size, 64 to 1,460 bytes.
    pub mss: u16,
    /// How many of the client's bytes are logged, at most 2^24.
    pub length: u32,
    /// Whether the client's FIN is logged.
    pub fin: bool,
    /// Whether the connection has ended.
    pub done: bool,
    /// How many reads are logged, at most 2^24 + 1.
    pub reads: u32,
    /// How many units of output the client has acknowledged, at most 2^24 + 1.
    pub acked: u32,
}

/// A part of a client's stream.
#[derive(Clone, Copy)]
pub struct Part<'a> {
    /// The client's address and port.
    pub key: Key,
    /// Where the bytes begin in the stream. They end at 2^24 at most.
    pub offset: u32,
    /// How many units of output the client has acknowledged, at most 2^24 + 1.
    pub acked: u32,
    /// Whether the client's FIN follows the bytes.
    pub fin: bool,
    /// Whether the same turn sends a later part, which is answered in place of this one. Then no FIN follows.
    pub more: bool,
    /// The bytes of text.
    pub bytes: &'a [u8],
}

impl Numbers {
    const CISN: usize = AFTER_KEY;

    const SISN: usize = Self::CISN + 4;

    const MSS: usize = Self::SISN + 4;

    /// The length of an Open and of an Opened.
    pub(crate) const END: usize = Self::MSS + 2;

    /// Reads the record of an Open or an Opened.
    pub(crate) fn read(bytes: &[u8]) -> Result<Numbers, BadMsg>
        requires { behind_at Kind.Open ≤ length bytes.now }
        ensures { read_as numbers_said result ≡ opening_at bytes.now }
    {
        Ok(Numbers {
            key: key(bytes, HEADER),
            cisn: long(bytes, Self::CISN),
            sisn: long(bytes, Self::SISN),
            mss: segment_size(bytes, Self::MSS)?,
        })
    }

    /// Writes the record after a header.
    pub(crate) fn put(&self, out: &mut [u8])
        requires { behind_at Kind.Open ≤ length out.old }
        ensures { out.new ≡ put 16 (body_bytes (OpenMsg (numbers_said self.now))) out.old }
    {
        put_key(out, HEADER, self.key);
        put_long(out, Self::CISN, self.cisn);
        put_long(out, Self::SISN, self.sisn);
        put_word(out, Self::MSS, self.mss);
    }
}

impl Kept {
    const LENGTH: usize = AFTER_KEY;

    const FIN: usize = Self::LENGTH + 4;

    const READS: usize = Self::FIN + 1;

    /// The length of a Stable and of a Reads.
    pub(crate) const END: usize = Self::READS + 4;

    /// Reads the record of a Stable or a Reads.
    pub(crate) fn read(bytes: &[u8]) -> Result<Kept, BadMsg>
        requires { behind_at Kind.Stable ≤ length bytes.now }
        ensures { read_as kept_said result ≡ kept_at bytes.now }
    {
        Ok(Kept {
            key: key(bytes, HEADER),
            length: stream_length(bytes, Self::LENGTH)?,
            fin: flag(bytes, Self::FIN)?,
            reads: units(bytes, Self::READS)?,
        })
    }

    /// Writes the record after a header.
    pub(crate) fn put(&self, out: &mut [u8])
        requires { behind_at Kind.Stable ≤ length out.old }
        ensures { out.new ≡ put 16 (body_bytes (StableMsg (kept_said self.now))) out.old }
    {
        put_key(out, HEADER, self.key);
        put_long(out, Self::LENGTH, self.length);
        put_flag(out, Self::FIN, self.fin);
        put_long(out, Self::READS, self.reads);
    }
}

impl EntryHead {
    const KEY: usize = HEADER + 2;

    const CISN: usize = Self::KEY + KEY;

    const SISN: usize = Self::CISN + 4;

    const MSS: usize = Self::SISN + 4;

    const LENGTH: usize = Self::MSS + 2;

    const FIN: usize = Self::LENGTH + 4;

    const DONE: usize = Self::FIN + 1;

    const READS: usize = Self::DONE + 1;

    const ACKED: usize = Self::READS + 4;

    /// The length of an Entry.
    pub(crate) const END: usize = Self::ACKED + 4;

    /// Reads the record of an Entry, which follows its index.
    pub(crate) fn read(bytes: &[u8]) -> Result<EntryHead, BadMsg>
        requires { behind_at Kind.Entry ≤ length bytes.now }
        ensures { read_as head_said result ≡ head_at bytes.now }
    {
        Ok(EntryHead {
            key: key(bytes, Self::KEY),
            cisn: long(bytes, Self::CISN),
            sisn: long(bytes, Self::SISN),
            mss: segment_size(bytes, Self::MSS)?,
            length: stream_length(bytes, Self::LENGTH)?,
            fin: flag(bytes, Self::FIN)?,
            done: flag(bytes, Self::DONE)?,
            reads: units(bytes, Self::READS)?,
            acked: units(bytes, Self::ACKED)?,
        })
    }

    /// Writes the index and the record after a header.
    pub(crate) fn put(&self, index: u16, out: &mut [u8])
        requires { behind_at Kind.Entry ≤ length out.old }
        ensures { out.new ≡ put 16 (body_bytes (EntryMsg index (head_said self.now))) out.old }
    {
        put_word(out, HEADER, index);
        put_key(out, Self::KEY, self.key);
        put_long(out, Self::CISN, self.cisn);
        put_long(out, Self::SISN, self.sisn);
        put_word(out, Self::MSS, self.mss);
        put_long(out, Self::LENGTH, self.length);
        put_flag(out, Self::FIN, self.fin);
        put_flag(out, Self::DONE, self.done);
        put_long(out, Self::READS, self.reads);
        put_long(out, Self::ACKED, self.acked);
    }
}

impl<'a> Part<'a> {
    const OFFSET: usize = AFTER_KEY;

    const ACKED: usize = Self::OFFSET + 4;

    const FIN: usize = Self::ACKED + 4;

    /// Where the bytes of a Data begin.
    pub(crate) const END: usize = Self::FIN + 1;

    /// Reads the record of a Data.
    pub(crate) fn read(grammar: Grammar, bytes: &'a [u8]) -> Result<Part<'a>, BadMsg>
        requires long { behind_at Kind.Data ≤ length bytes.now }
        requires short { length bytes.now ≤ 65535 }
        ensures { read_as part_said result ≡ part_at grammar bytes.now }
    {
        let offset = offset(bytes, Self::OFFSET, Self::END)?;
        let acked = units(bytes, Self::ACKED)?;
        let ending = ending(grammar, bytes, Self::FIN)?;
        Ok(Part {
            key: key(bytes, HEADER),
            offset,
            acked,
            fin: ending == 1,
            more: ending == 2,
            bytes: behind(bytes, Self::END),
        })
    }

    /// Writes the fields of the record after a header.
    pub(crate) fn put(&self, out: &mut [u8])
        requires { behind_at Kind.Data ≤ length out.old }
        ensures { out.new ≡ put 16 (numbers_bytes (fields_of Kind.Data) (numbers_of (DataMsg (part_said self.now)))) out.old }
    {
        put_key(out, HEADER, self.key);
        put_long(out, Self::OFFSET, self.offset);
        put_long(out, Self::ACKED, self.acked);
        put_byte(out, Self::FIN, self.ending());
    }

    /// Returns how the Data ends, as a number.
    fn ending(&self) -> u8
        ensures { result ≡ ending_lem (part_said self.now) }
    {
        u8::from(self.fin) + if self.more { 2 } else { 0 }
    }
}
