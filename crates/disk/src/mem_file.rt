//! An open file in memory, for tests. Its content is specified. Listed calls fail, and listed writes write only the first half of the bytes.

ghost use Rattle.std.specs.Prelude.{◌≡◌, Some, IfOk, length};
ghost use Rattle.disk.specs.FileContent.{written};
ghost use Rattle.disk.specs.MemFile.{fresh_file};

use crate::OpenFile;
use ft_io::{Failed, NoMemory};
use ft_system::NumberedCalls;
use std::alloc::Global;
use std::marker::Model;

/// A file of given bytes. A call that fails does nothing.
#[derive(Drop)]
pub struct MemFile {
    alloc: Global,
    content: Vec<u8>,
    synced: Vec<u8>,
    /// How much of the content was read.
    at: usize,
    changes: NumberedCalls,
    writes: NumberedCalls,
}

impl Model for MemFile {
    ghost use Rattle.disk.specs.MemFile.{FileState};

    ghost Value = { FileState };

    ghost view = { λ f. record { content = f.content.items; synced = f.synced.items; changes = f.changes; writes = f.writes } };
}

impl MemFile {
    /// A file of these bytes, none of which is synced. Of its writes, changes of its length and syncs those fail whose numbers, counted from 1, are in `fails`.
    /// The writes whose numbers, also counted from 1, are in `halves` write only the first half of the bytes, rounded down.
    pub fn new(alloc: Global, content: Vec<u8>, fails: Vec<u32>, halves: Vec<u32>) -> MemFile
        ensures { result ≡ fresh_file content.items fails.items halves.items }
    {
        MemFile {
            alloc,
            content,
            synced: Vec::new(alloc),
            at: 0,
            changes: NumberedCalls::new(fails),
            writes: NumberedCalls::new(halves),
        }
    }

    /// What the file has.
    pub fn content(&self) -> &[u8]
        ensures { result.now ≡ self.now.content }
    {
        self.content.as_slice()
    }

    /// What it had at its last sync.
    pub fn synced(&self) -> &[u8]
        ensures { result.now ≡ self.now.synced }
    {
        self.synced.as_slice()
    }
}

/// A file with other bytes at a place.
#[tactic(auto, using(std::proofs::lemmas::List::take_min, std::proofs::lemmas::List::drop_min))]
fn written_over(alloc: Global, file: &[u8], bytes: &[u8], at: u64) -> Result<Vec<u8>, NoMemory>
    ensures { IfOk result (λ v. v.items ≡ written at bytes.now file.now) }
{
    let front = (at as usize).min(file.len());
    let end = (at as usize).saturating_add(bytes.len()).min(file.len());
    let mut after = file[..front].to_vec(alloc)?;
    after.extend_from_slice(bytes)?;
    after.extend_from_slice(&file[end..])?;
    Ok(after)
}

impl OpenFile for MemFile {
    ghost content = { λ f. Some f.content };

    ghost synced = { λ f. Some f.synced };

    fn read(&mut self, buf: &mut [u8]) -> Result<usize, Failed> {
        let rest = self.content.get(self.at..).unwrap_or(&[]);
        let count = rest.len().min(buf.len());
        buf[..count].copy_from_slice(&rest[..count]);
        self.at = self.at.saturating_add(count);
        Ok(count)
    }

    fn write_at(&mut self, bytes: &[u8], at: u64) -> Result<usize, Failed> {
        let is_half = self.writes.next_fails();
        if self.changes.next_fails() {
            return Err(Failed);
        }
        let count = if is_half {
            bytes.len() / 2
        } else {
            bytes.len()
        };
        match written_over(self.alloc, &self.content, &bytes[..count], at) {
            Ok(content) => self.content = content,
            Err(NoMemory) => return Err(Failed),
        }
        Ok(count)
    }

    fn set_len(&mut self, len: u64) -> Result<(), Failed> {
        if self.changes.next_fails() {
            return Err(Failed);
        }
        self.content.truncate(len as usize);
        Ok(())
    }

    fn sync(&mut self) -> Result<(), Failed> {
        if self.changes.next_fails() {
            return Err(Failed);
        }
        match self.content.to_vec(self.alloc) {
            Ok(synced) => self.synced = synced,
            Err(_) => return Err(Failed),
        }
        Ok(())
    }

    fn sync_all(&mut self) -> Result<(), Failed> {
        self.sync()
    }

    fn drop_cached(&mut self) -> Result<(), Failed> {
        Ok(())
    }

    fn count(&mut self) -> Result<u64, Failed> {
        Ok(self.content.len() as u64)
    }
}
