//! The entry that the log has before the restarts.

ghost use Rattle.std.specs.Prelude.{◌≤◌, ◌+◌, ◌^◌, length};

use crate::logger::{BOOT, Logger};
use crate::{CLIENT, STREAM};
use ft_io::NoMemory;
use logger_wire::{Body, Mark, MarkBody, MarkMsg, Msg, Part};
use sample_servers::AnyService;
use server_trait::Service;
use std::alloc::Global;

/// The most bytes of a Data.
const DATA: u32 = limits::SEGMENT as u32;

/// Logs a connection with this many bytes, in reads of this size, whose client has acknowledged all output.
pub(crate) fn fill(
    alloc: Global,
    logger: &mut Logger,
    bytes: u32,
    read: u16,
) -> Result<(), NoMemory>
    requires bytes { bytes ≤ 2 ^ 24 }
    requires read { read ≤ 2048 }
{
    logger.open(alloc, CLIENT)?;
    let text = [b'a'; limits::TEXT];
    for i in 0..bytes.div_ceil(DATA) {
        let offset = i * DATA;
        let len = DATA.min(bytes.saturating_sub(offset));
        deliver_bytes(alloc, logger, offset, &text[..len as usize])?;
    }
    cut(alloc, logger, bytes, read)
}

/// Gives the reads.
fn cut(alloc: Global, logger: &mut Logger, bytes: u32, read: u16) -> Result<(), NoMemory>
    requires bytes { bytes ≤ 2 ^ 24 }
    requires read { read ≤ 2048 }
{
    let mut left = bytes;
    for i in 0..bytes {
        let len = left.min(u32::from(read));
        if len == 0 {
            return Ok(());
        }
        deliver_read(alloc, logger, i, len)?;
        left -= len;
    }
    Ok(())
}

#[tactic(auto, unfolding(seq_arith::specs::MessageGrammar::has_length, seq_arith::specs::MessageGrammar::is_sound_by))]
fn deliver_bytes(
    alloc: Global,
    logger: &mut Logger,
    offset: u32,
    bytes: &[u8],
) -> Result<(), NoMemory>
    requires few { length bytes.now ≤ 1460 }
    requires within { offset + length bytes.now ≤ 2 ^ 24 }
{
    let body = Body::Data(Part {
        key: CLIENT,
        offset,
        acked: STREAM,
        fin: false,
        more: false,
        bytes,
    });
    logger.send(alloc, &Msg { boot: BOOT, body })
}

#[tactic(auto, unfolding(seq_arith::specs::MessageGrammar::has_length, seq_arith::specs::MessageGrammar::is_sound_by))]
fn deliver_read(alloc: Global, logger: &mut Logger, index: u32, len: u32) -> Result<(), NoMemory>
    requires index { index ≤ 2 ^ 24 }
    requires len { len ≤ 2048 }
{
    let body = Body::Read {
        key: CLIENT,
        index,
        length: len as u16,
    };
    logger.send(alloc, &Msg { boot: BOOT, body })
}

/// Logs a mark after so many reads, all of this size, of a service of this kind.
#[tactic(auto, unfolding(seq_arith::specs::MarkGrammar::has_length, seq_arith::specs::MarkGrammar::is_sound))]
pub(crate) fn mark(
    alloc: Global,
    logger: &mut Logger,
    kind: u8,
    read: u16,
    reads: u32,
) -> Result<(), NoMemory>
    requires { read ≤ 2048 }
{
    let output = output_of(alloc, kind, read)?;
    let body = MarkBody::Mark {
        key: CLIENT,
        mark: Mark {
            reads: reads.max(1).min(STREAM),
            length: reads.saturating_mul(u32::from(read)).min(STREAM),
            made: reads.saturating_mul(output).min(STREAM),
            state: &[],
        },
    };
    logger.send_mark(alloc, &MarkMsg { boot: BOOT, body })
}

/// How many bytes of output a service of this kind writes for a read of this size.
fn output_of(alloc: Global, kind: u8, read: u16) -> Result<u32, NoMemory>
    requires { read ≤ 2048 }
{
    let text = [b'a'; 2_048];
    let mut output = Vec::new(alloc);
    let mut service = AnyService::fresh(alloc, kind);
    match service.take(&text[..usize::from(read)], &mut output) {
        Ok(_) => Ok(output.len().min(STREAM as usize) as u32),
        Err(NoMemory) => Err(NoMemory),
    }
}
