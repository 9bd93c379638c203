//! Messages, read or written many times: `messages WHAT KIND ROUNDS`, where WHAT is `read` or `write` and KIND `data`, a Data of 1,460 bytes, or
//! `cut`, the length of a read. There are 64 messages, each ROUNDS times. It gives what their numbers and lengths add up to, or the checksums of
//! what is written.

ghost use Rattle.std.specs.Prelude.{◌≡◌, ◌<◌, ◌≤◌, length};
ghost use Rattle.logger_wire.specs.Value.{IsSendable};

use crate::CLIENT;
use anyhow::{Context, Result, bail};
use logger_wire::{Body, Msg, Part, read_msg, write_msg};
use std::alloc::{AllocError, Global};

const MESSAGES: u32 = 64;

/// What the messages of these words add up to.
pub(crate) fn total(alloc: Global, words: &[&str]) -> Result<u64> {
    let [what, kind, rounds] = words else {
        bail!("messages WHAT KIND ROUNDS");
    };
    let rounds: u32 = rounds.parse().context("ROUNDS")?;
    let is_data = *kind == "data";
    let text = [b'a'; limits::TEXT];
    if *what == "write" {
        return Ok(write_all(is_data, &text, rounds));
    }
    let mut messages = Vec::new(alloc);
    read_all(is_data, &text, rounds, &mut messages)
}

/// The ith Data with this text, or the ith length of a read.
#[tactic(auto, unfolding(seq_arith::specs::MessageGrammar::has_length, seq_arith::specs::MessageGrammar::is_sound_by))]
fn message(is_data: bool, i: u32, text: &[u8]) -> Msg<'_>
    requires few { i < 64 }
    requires size { length text.now ≡ 1460 }
    ensures { IsSendable result }
{
    if is_data {
        return Msg {
            boot: 1,
            body: Body::Data(Part {
                key: CLIENT,
                offset: i,
                acked: 0,
                fin: false,
                more: false,
                bytes: text,
            }),
        };
    }
    Msg {
        boot: 1,
        body: Body::Read {
            key: CLIENT,
            index: i,
            length: 5,
        },
    }
}

/// The messages, one after the other.
fn push_messages(is_data: bool, text: &[u8], messages: &mut Vec<u8>) -> Result<(), AllocError>
    requires { length text.now ≡ 1460 }
{
    let mut out = [0u8; 2048];
    for i in 0..MESSAGES {
        let len = write_msg(&message(is_data, i, text), &mut out);
        messages.extend_from_slice(&out[..len.min(2048)])?;
    }
    Ok(())
}

fn write_all(is_data: bool, text: &[u8], rounds: u32) -> u64
    requires { length text.now ≡ 1460 }
{
    let mut out = [0u8; 2048];
    let mut total = 0u64;
    for _ in 0..rounds {
        for i in 0..MESSAGES {
            let len = write_msg(&message(is_data, i, text), &mut out);
            let check = u64::from(u16::from_be_bytes([out[6], out[7]]));
            total = total.wrapping_add(len as u64).wrapping_add(check);
        }
    }
    total
}

/// Writes the messages into an empty vector, reads each of them so many times, and returns what they add up to.
fn read_all(is_data: bool, text: &[u8], rounds: u32, messages: &mut Vec<u8>) -> Result<u64>
    requires { length text.now ≡ 1460 }
{
    push_messages(is_data, text, messages)?;
    let len = if is_data { limits::MESSAGE } else { 28 };
    let mut total = 0u64;
    for _ in 0..rounds {
        for message in messages.chunks_exact(len) {
            total = total.wrapping_add(match read_msg(message) {
                Ok(msg) => reported(&msg.body),
                Err(_) => 0,
            });
        }
    }
    Ok(total)
}

/// Its number, and how many bytes or which length it brings.
fn reported(body: &Body<'_>) -> u64 {
    match body {
        Body::Data(part) => u64::from(part.offset) + part.bytes.len() as u64 % 65_536,
        Body::Read { index, length, .. } => u64::from(*index) + u64::from(*length),
        _ => 0,
    }
}
