//! Reading a message in place: one match on the kind, and each field at a constant position. The message borrows the bytes or lengths after the fields from
//! the buffer.

ghost use Rattle.std.specs.Prelude.{◌≡◌, ◌≤◌, ◌<◌, ◌+◌, ◌^◌, true, length, IfOk, nat_le};
ghost use Rattle.std.specs.List.{list_all};
ghost use Rattle.seq_arith.specs.Bytes.{word_at as word_at_lem};
ghost use Rattle.seq_arith.specs.Checksum.{checksum};
ghost use Rattle.seq_arith.specs.MessageGrammar.{kind_numbered, reading_of, reading, reading_by, version, lens_in};
ghost use Rattle.seq_arith.specs.declared.kinds.Grammar.{Grammar};
ghost use Rattle.logger_wire.specs.Value.{seen, left_over, IsSendable, IsSendableBy};
ghost use Rattle.logger_wire.specs.Places.{opened, placed};

use crate::fields::{
    LONGEST_READ, behind, count, flag, huge, key, long, newer, offset, place, read_length,
    segment_size, units,
};
use crate::layout::{
    AFTER_COUNT, AFTER_KEY, AFTER_LENGTH, AFTER_NEWER, AFTER_START, BOOT_AT, HEADER, KIND_AT,
    LENGTH_AT, MAGIC, MAGIC_AT, VERSION, VERSION_AT, WIDE_VERSION,
};
use crate::records::{EntryHead, Kept, Numbers, Part};
use crate::{Body, Msg};
use byteorder::{BigEndian, ByteOrder};
use limits::SEGMENT;
use seq_arith::{BadMsg, Grammar, Kind, Sum16};

/// The most bytes in a Part, and in the lengths of a Lens.
const MOST_LOGGED: usize = 1024;

/// Reads a message of the plain grammar. The error is the first test of the grammar that it fails; a wide message fails that of the version. It copies none of
/// the message's bytes.
pub fn read_msg(bytes: &[u8]) -> Result<Msg<'_>, BadMsg>
    ensures value { seen result ≡ reading bytes.now }
    // A message that was read may be sent.
    ensures sendable { IfOk result (λ msg. IsSendable msg) }
{
    read_msg_by(Grammar::Plain, bytes)
}

/// Reads a message of the wide grammar. A plain message fails the test of the version.
pub fn read_wide_msg(bytes: &[u8]) -> Result<Msg<'_>, BadMsg>
    ensures value { seen result ≡ reading_by Grammar.Wide bytes.now }
    ensures sendable { IfOk result (λ msg. IsSendableBy Grammar.Wide msg) }
{
    read_msg_by(Grammar::Wide, bytes)
}

/// Reads a message of a grammar.
#[tactic(auto, unfolding(seq_arith::specs::MessageGrammar::reading_by))]
pub fn read_msg_by(grammar: Grammar, bytes: &[u8]) -> Result<Msg<'_>, BadMsg>
    ensures value { seen result ≡ reading_by grammar bytes.now }
    ensures sendable { IfOk result (λ msg. IsSendableBy grammar msg) }
{
    if bytes.len() < HEADER {
        return Err(BadMsg::Short);
    }
    if word_at(bytes, MAGIC_AT) != MAGIC {
        return Err(BadMsg::Magic);
    }
    if bytes[VERSION_AT] != version_of(grammar) {
        return Err(BadMsg::Version);
    }
    match kind_of_number(bytes[KIND_AT]) {
        Some(kind) => read_kind(grammar, kind, bytes),
        None => Err(BadMsg::Kind),
    }
}

/// Returns the version of a grammar's messages.
pub(crate) fn version_of(grammar: Grammar) -> u8
    ensures { result ≡ version grammar }
{
    match grammar {
        Grammar::Plain => VERSION,
        Grammar::Wide => WIDE_VERSION,
    }
}

/// Returns the number in the two bytes at a position.
#[tactic(auto, using(std::proofs::lemmas::List::take_rest), unfolding(seq_arith::specs::Bytes::word_at))]
pub fn word_at(bytes: &[u8], at: usize) -> u16
    requires { at + 2 ≤ length bytes.now }
    ensures { result ≡ word_at_lem bytes.now at }
{
    BigEndian::read_u16(&bytes[at..])
}

/// Returns the checksum over all bytes of a complete message, including its checksum field.
pub fn checksum_of(bytes: &[u8]) -> u16
    requires { length bytes.now < 2 ^ 16 }
    ensures { result ≡ checksum bytes.now }
{
    let mut sum = Sum16::new();
    sum.take(bytes);
    sum.check()
}

/// Returns the kind with this number on the wire, if there is one.
#[tactic(auto, unfolding(seq_arith::specs::MessageGrammar::kind_numbered))]
fn kind_of_number(number: u8) -> Option<Kind>
    ensures { result ≡ kind_numbered number }
{
    match number {
        1 => Some(Kind::Hello),
        2 => Some(Kind::Summary),
        3 => Some(Kind::List),
        4 => Some(Kind::Entry),
        5 => Some(Kind::Bytes),
        6 => Some(Kind::Part),
        7 => Some(Kind::Cuts),
        8 => Some(Kind::Lens),
        9 => Some(Kind::Open),
        10 => Some(Kind::Opened),
        11 => Some(Kind::Data),
        12 => Some(Kind::Stable),
        13 => Some(Kind::Read),
        14 => Some(Kind::Reads),
        15 => Some(Kind::Done),
        16 => Some(Kind::Ended),
        17 => Some(Kind::Stale),
        18 => Some(Kind::Full),
        _ => None,
    }
}

/// Reads a message of a kind. Only a Data depends on the grammar.
fn read_kind(grammar: Grammar, kind: Kind, bytes: &[u8]) -> Result<Msg<'_>, BadMsg>
    requires { HEADER ≤ length bytes.now }
    ensures value { seen result ≡ placed grammar kind bytes.now }
    ensures whole { IfOk result (λ msg. left_over msg.body ≡ 0) }
{
    match kind {
        Kind::Hello => read_hello(bytes),
        Kind::Summary => read_summary(bytes),
        Kind::List => read_list(bytes),
        Kind::Entry => read_entry(bytes),
        Kind::Bytes => read_bytes(bytes),
        Kind::Part => read_part(bytes),
        Kind::Cuts => read_cuts(bytes),
        Kind::Lens => read_lens(bytes),
        Kind::Open => read_open(bytes),
        Kind::Opened => read_opened(bytes),
        Kind::Data => read_data(grammar, bytes),
        Kind::Stable => read_stable(bytes),
        Kind::Read => read_read(bytes),
        Kind::Reads => read_reads(bytes),
        Kind::Done => read_done(bytes),
        Kind::Ended => read_ended(bytes),
        Kind::Stale => read_stale(bytes),
        Kind::Full => read_full(bytes),
    }
}

/// Returns the boot number of a message of this length, after testing its length and checksum.
fn open(bytes: &[u8], len: usize) -> Result<u64, BadMsg>
    requires { HEADER ≤ length bytes.now }
    ensures value { result ≡ opened len len bytes.now }
    ensures long { IfOk result (λ _. len ≤ length bytes.now) }
    ensures short { IfOk result (λ _. length bytes.now ≤ 65535) }
{
    open_within(bytes, len, len)
}

/// Returns the boot number of a message, after testing that its length is the one in its header and within these bounds, and that its checksum is right.
#[tactic(auto, unfolding(crate::specs::Places::opened))]
pub(crate) fn open_within(bytes: &[u8], least: usize, most: usize) -> Result<u64, BadMsg>
    requires { HEADER ≤ length bytes.now }
    ensures value { result ≡ opened least most bytes.now }
    ensures long { IfOk result (λ _. least ≤ length bytes.now) }
    ensures short { IfOk result (λ _. length bytes.now ≤ 65535) }
{
    let len = bytes.len();
    if usize::from(word_at(bytes, LENGTH_AT)) != len || len < least || most < len {
        return Err(BadMsg::Length);
    }
    if checksum_of(bytes) != 0 {
        return Err(BadMsg::Sum);
    }
    let boot = huge(bytes, BOOT_AT);
    if boot == 0 {
        return Err(BadMsg::Field);
    }
    Ok(boot)
}

fn read_hello(bytes: &[u8]) -> Result<Msg<'_>, BadMsg>
    requires { HEADER ≤ length bytes.now }
    ensures value { seen result ≡ placed Grammar.Plain Kind.Hello bytes.now }
    ensures whole { IfOk result (λ msg. left_over msg.body ≡ 0) }
{
    let boot = open(bytes, HEADER)?;
    let body = Body::Hello;
    Ok(Msg { boot, body })
}

fn read_summary(bytes: &[u8]) -> Result<Msg<'_>, BadMsg>
    requires { HEADER ≤ length bytes.now }
    ensures value { seen result ≡ placed Grammar.Plain Kind.Summary bytes.now }
    ensures whole { IfOk result (λ msg. left_over msg.body ≡ 0) }
{
    let boot = open(bytes, AFTER_COUNT)?;
    let body = Body::Summary {
        count: count(bytes, HEADER)?,
    };
    Ok(Msg { boot, body })
}

fn read_list(bytes: &[u8]) -> Result<Msg<'_>, BadMsg>
    requires { HEADER ≤ length bytes.now }
    ensures value { seen result ≡ placed Grammar.Plain Kind.List bytes.now }
    ensures whole { IfOk result (λ msg. left_over msg.body ≡ 0) }
{
    let boot = open(bytes, AFTER_COUNT)?;
    let body = Body::List {
        index: place(bytes, HEADER)?,
    };
    Ok(Msg { boot, body })
}

fn read_entry(bytes: &[u8]) -> Result<Msg<'_>, BadMsg>
    requires { HEADER ≤ length bytes.now }
    ensures value { seen result ≡ placed Grammar.Plain Kind.Entry bytes.now }
    ensures whole { IfOk result (λ msg. left_over msg.body ≡ 0) }
{
    let boot = open(bytes, EntryHead::END)?;
    let body = Body::Entry {
        index: place(bytes, HEADER)?,
        head: EntryHead::read(bytes)?,
    };
    Ok(Msg { boot, body })
}

fn read_bytes(bytes: &[u8]) -> Result<Msg<'_>, BadMsg>
    requires { HEADER ≤ length bytes.now }
    ensures value { seen result ≡ placed Grammar.Plain Kind.Bytes bytes.now }
    ensures whole { IfOk result (λ msg. left_over msg.body ≡ 0) }
{
    let boot = open(bytes, AFTER_START)?;
    let body = Body::Bytes {
        key: key(bytes, HEADER),
        offset: offset(bytes, AFTER_KEY, AFTER_START)?,
    };
    Ok(Msg { boot, body })
}

fn read_part(bytes: &[u8]) -> Result<Msg<'_>, BadMsg>
    requires { HEADER ≤ length bytes.now }
    ensures value { seen result ≡ placed Grammar.Plain Kind.Part bytes.now }
    ensures whole { IfOk result (λ msg. left_over msg.body ≡ 0) }
{
    let boot = open_within(bytes, AFTER_START + 1, AFTER_START + MOST_LOGGED)?;
    let body = Body::Part {
        key: key(bytes, HEADER),
        offset: offset(bytes, AFTER_KEY, AFTER_START)?,
        bytes: behind(bytes, AFTER_START),
    };
    Ok(Msg { boot, body })
}

fn read_cuts(bytes: &[u8]) -> Result<Msg<'_>, BadMsg>
    requires { HEADER ≤ length bytes.now }
    ensures value { seen result ≡ placed Grammar.Plain Kind.Cuts bytes.now }
    ensures whole { IfOk result (λ msg. left_over msg.body ≡ 0) }
{
    let boot = open(bytes, AFTER_START)?;
    let body = Body::Cuts {
        key: key(bytes, HEADER),
        first: units(bytes, AFTER_KEY)?,
    };
    Ok(Msg { boot, body })
}

fn read_lens(bytes: &[u8]) -> Result<Msg<'_>, BadMsg>
    requires { HEADER ≤ length bytes.now }
    ensures value { seen result ≡ placed Grammar.Plain Kind.Lens bytes.now }
    ensures whole { IfOk result (λ msg. left_over msg.body ≡ 0) }
{
    if bytes.len() % 2 != 0 {
        return Err(BadMsg::Length);
    }
    let boot = open_within(bytes, AFTER_START + 2, AFTER_START + MOST_LOGGED)?;
    let lens = behind(bytes, AFTER_START);
    if !lens_in_range(lens) {
        return Err(BadMsg::Field);
    }
    let body = Body::Lens {
        key: key(bytes, HEADER),
        first: units(bytes, AFTER_KEY)?,
        lens,
    };
    Ok(Msg { boot, body })
}

fn read_open(bytes: &[u8]) -> Result<Msg<'_>, BadMsg>
    requires { HEADER ≤ length bytes.now }
    ensures value { seen result ≡ placed Grammar.Plain Kind.Open bytes.now }
    ensures whole { IfOk result (λ msg. left_over msg.body ≡ 0) }
{
    let boot = open(bytes, Numbers::END)?;
    let body = Body::Open(Numbers::read(bytes)?);
    Ok(Msg { boot, body })
}

fn read_opened(bytes: &[u8]) -> Result<Msg<'_>, BadMsg>
    requires { HEADER ≤ length bytes.now }
    ensures value { seen result ≡ placed Grammar.Plain Kind.Opened bytes.now }
    ensures whole { IfOk result (λ msg. left_over msg.body ≡ 0) }
{
    let boot = open(bytes, Numbers::END)?;
    let body = Body::Opened(Numbers::read(bytes)?);
    Ok(Msg { boot, body })
}

fn read_data(grammar: Grammar, bytes: &[u8]) -> Result<Msg<'_>, BadMsg>
    requires { HEADER ≤ length bytes.now }
    ensures value { seen result ≡ placed grammar Kind.Data bytes.now }
    ensures whole { IfOk result (λ msg. left_over msg.body ≡ 0) }
{
    let boot = open_within(bytes, Part::END, Part::END + usize::from(SEGMENT))?;
    let body = Body::Data(Part::read(grammar, bytes)?);
    Ok(Msg { boot, body })
}

fn read_stable(bytes: &[u8]) -> Result<Msg<'_>, BadMsg>
    requires { HEADER ≤ length bytes.now }
    ensures value { seen result ≡ placed Grammar.Plain Kind.Stable bytes.now }
    ensures whole { IfOk result (λ msg. left_over msg.body ≡ 0) }
{
    let boot = open(bytes, Kept::END)?;
    let body = Body::Stable(Kept::read(bytes)?);
    Ok(Msg { boot, body })
}

fn read_read(bytes: &[u8]) -> Result<Msg<'_>, BadMsg>
    requires { HEADER ≤ length bytes.now }
    ensures value { seen result ≡ placed Grammar.Plain Kind.Read bytes.now }
    ensures whole { IfOk result (λ msg. left_over msg.body ≡ 0) }
{
    let boot = open(bytes, AFTER_LENGTH)?;
    let body = Body::Read {
        key: key(bytes, HEADER),
        index: units(bytes, AFTER_KEY)?,
        length: read_length(bytes, AFTER_START)?,
    };
    Ok(Msg { boot, body })
}

fn read_reads(bytes: &[u8]) -> Result<Msg<'_>, BadMsg>
    requires { HEADER ≤ length bytes.now }
    ensures value { seen result ≡ placed Grammar.Plain Kind.Reads bytes.now }
    ensures whole { IfOk result (λ msg. left_over msg.body ≡ 0) }
{
    let boot = open(bytes, Kept::END)?;
    let body = Body::Reads(Kept::read(bytes)?);
    Ok(Msg { boot, body })
}

fn read_done(bytes: &[u8]) -> Result<Msg<'_>, BadMsg>
    requires { HEADER ≤ length bytes.now }
    ensures value { seen result ≡ placed Grammar.Plain Kind.Done bytes.now }
    ensures whole { IfOk result (λ msg. left_over msg.body ≡ 0) }
{
    let boot = open(bytes, AFTER_KEY)?;
    let body = Body::Done {
        key: key(bytes, HEADER),
    };
    Ok(Msg { boot, body })
}

fn read_ended(bytes: &[u8]) -> Result<Msg<'_>, BadMsg>
    requires { HEADER ≤ length bytes.now }
    ensures value { seen result ≡ placed Grammar.Plain Kind.Ended bytes.now }
    ensures whole { IfOk result (λ msg. left_over msg.body ≡ 0) }
{
    let boot = open(bytes, AFTER_KEY)?;
    let body = Body::Ended {
        key: key(bytes, HEADER),
    };
    Ok(Msg { boot, body })
}

fn read_stale(bytes: &[u8]) -> Result<Msg<'_>, BadMsg>
    requires { HEADER ≤ length bytes.now }
    ensures value { seen result ≡ placed Grammar.Plain Kind.Stale bytes.now }
    ensures whole { IfOk result (λ msg. left_over msg.body ≡ 0) }
{
    let boot = open(bytes, AFTER_NEWER)?;
    let body = Body::Stale {
        newer: newer(bytes, HEADER, boot)?,
    };
    Ok(Msg { boot, body })
}

fn read_full(bytes: &[u8]) -> Result<Msg<'_>, BadMsg>
    requires { HEADER ≤ length bytes.now }
    ensures value { seen result ≡ placed Grammar.Plain Kind.Full bytes.now }
    ensures whole { IfOk result (λ msg. left_over msg.body ≡ 0) }
{
    let boot = open(bytes, AFTER_KEY)?;
    let body = Body::Full {
        key: key(bytes, HEADER),
    };
    Ok(Msg { boot, body })
}

/// Returns whether each length is in its range.
#[tactic(auto, using(std::proofs::lemmas::List::take_rest, crate::proofs::Lens::lens_step, crate::proofs::Lens::lens_end))]
fn lens_in_range(lens: &[u8]) -> bool
    ensures { result ≡ list_all (λ len. nat_le len 2048) (lens_in lens.now) }
{
    let mut rest = lens;
    while rest.len() >= 2 {
        if BigEndian::read_u16(rest) > LONGEST_READ {
            return false;
        }
        rest = &rest[2..];
    }
    true
}
