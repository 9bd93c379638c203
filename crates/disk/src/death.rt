//! What a death leaves of a file in memory, by a choice of how much of the unsynced changes is on the disk.

ghost use Rattle.std.specs.Prelude.{◌≡◌, OnOk, IfOk, take};
ghost use Rattle.disk.specs.Remains.{with_byte, seen_after};
ghost use Rattle.disk.specs.Death.{held_after, remains};

use crate::{DeskCall, DiskCall};
use ft_io::NoMemory;
use std::alloc::Global;

/// When a death comes, and how much of the unsynced changes is on the disk then.
#[derive(Clone, Copy, PartialEq, Eq)]
pub struct Death {
    /// How many calls came before it.
    pub calls: usize,
    /// How many of the first bytes of an unsynced append are on the disk; all if it has fewer.
    pub kept: usize,
    /// Whether an unsynced byte that was put is on the disk, and whether a new file has the name before the folder is synced.
    pub is_put: bool,
}

/// Puts a byte in the place of another, or after the end.
fn put_byte(bytes: &mut Vec<u8>, at: u64, byte: u8) -> Result<(), NoMemory>
    ensures { OnOk result (bytes.new.items ≡ with_byte at byte bytes.old.items) }
{
    let at = at as usize;
    if at < bytes.len() {
        bytes[at] = byte;
    } else {
        bytes.push(byte)?;
    }
    Ok(())
}

/// Cuts off the bytes from this place on.
pub(crate) fn cut_off(bytes: &mut Vec<u8>, at: u64)
    ensures { bytes.new.items ≡ take at bytes.old.items }
{
    bytes.truncate(at as usize);
}

/// Makes `held`, which is on the disk before a call, into what is there after it. A read before the call gave `file`.
fn hold(
    alloc: Global,
    death: Death,
    file: &[u8],
    held: &mut Vec<u8>,
    call: &DiskCall,
) -> Result<(), NoMemory>
    ensures { OnOk result (held.new.items ≡ held_after death file.now held.old.items call.now) }
{
    match call {
        DiskCall::Appended(bytes, _) => {
            if held.len() == file.len() {
                let bytes = bytes.as_slice();
                held.extend_from_slice(&bytes[..death.kept.min(bytes.len())])?;
            }
        }
        DiskCall::Put(at, byte, _) => {
            if death.is_put {
                put_byte(held, *at, *byte)?;
            }
        }
        DiskCall::Cut(at, _) => cut_off(held, *at),
        DiskCall::Synced(true) => (),
        DiskCall::Synced(false) => *held = file.to_vec(alloc)?,
        DiskCall::Replaced(bytes, _) => {
            if death.is_put {
                *held = bytes.as_slice().to_vec(alloc)?;
            }
        }
    }
    Ok(())
}

/// Makes `file`, which a read gives before a call, into what one gives after it.
fn see(file: &mut Vec<u8>, call: &DiskCall) -> Result<(), NoMemory>
    ensures { OnOk result (file.new.items ≡ seen_after file.old.items call.now) }
{
    match call {
        DiskCall::Appended(bytes, _) => file.extend_from_slice(bytes.as_slice())?,
        DiskCall::Put(at, byte, _) => put_byte(file, *at, *byte)?,
        DiskCall::Cut(at, _) => cut_off(file, *at),
        DiskCall::Synced(_) | DiskCall::Replaced(_, true) => (),
        DiskCall::Replaced(bytes, false) => {
            file.clear();
            file.extend_from_slice(bytes.as_slice())?;
        }
    }
    Ok(())
}

/// What is on the disk after these calls, of a file that had `first` when it was opened.
pub(crate) fn left_behind(
    alloc: Global,
    death: Death,
    first: &[u8],
    calls: &[DeskCall],
) -> Result<Vec<u8>, NoMemory>
    ensures { IfOk result (λ held. held.items ≡ remains death first.now first.now calls.now) }
{
    let mut file = first.to_vec(alloc)?;
    let mut held = first.to_vec(alloc)?;
    let mut rest = calls;
    while let Some((call, behind)) = rest.split_first() {
        if let DeskCall::OnDisk(call) = call {
            hold(alloc, death, &file, &mut held, call)?;
            see(&mut file, call)?;
        }
        rest = behind;
    }
    Ok(held)
}
