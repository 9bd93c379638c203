//! Appending a block to a journal.

ghost use Rattle.std.specs.Prelude.{◌≡◌, ◌<◌, ◌≤◌, ◌^◌, ℕ, length, List, IfOk, OnOk, OnErr, IsErrOf};
ghost use Rattle.ft_io.specs.Faults.{Rose};
ghost use Rattle.ft_io.specs.Reported.{Reports};
ghost use Rattle.disk.specs.declared.calls.DiskCall.{DiskCall};
ghost use Rattle.disk.specs.Remains.{IsFrontOf};
ghost use Rattle.disk.specs.CallRecord.{on_disk};
ghost use Rattle.kept_log.specs.Format.{seal, block, next_tip, keeping};
ghost use Rattle.kept_log.specs.declared.journal.KeepEnd.TheVariants as ends;

use crate::tip::{DIGEST, HEAD, Tip, head_of, seal_of};
use disk::Disk;
use ft_io::Failed;
use std::alloc::{AllocError, AllocFailed, Global};

/// Why a block wasn't appended.
#[derive(Clone, Copy, PartialEq, Eq)]
pub enum KeepEnd {
    NoMemory,
    /// A call on the disk failed; the disk may be full.
    Failed,
}

impl From<AllocError> for KeepEnd {
    ghost from_gives = { λ _ e. e ≡ ends.NoMemory };

    fn from(_: AllocError) -> KeepEnd {
        KeepEnd::NoMemory
    }
}

impl<T: Drop> From<AllocFailed<T>> for KeepEnd {
    ghost from_gives = { λ _ e. e ≡ ends.NoMemory };

    fn from(_: AllocFailed<T>) -> KeepEnd {
        KeepEnd::NoMemory
    }
}

impl From<Failed> for KeepEnd {
    ghost from_gives = { λ _ e. e ≡ ends.Failed };

    fn from(_: Failed) -> KeepEnd {
        KeepEnd::Failed
    }
}

/// The next block, which has this digest and this body.
pub(crate) fn block_of(
    alloc: Global,
    tip: &Tip,
    digest: &[u8; DIGEST],
    body: &[u8],
) -> Result<Vec<u8>, AllocError>
    requires small { length body.now < 2 ^ 32 }
    requires digest { digest.now ≡ seal tip.now body.now }
    ensures { IfOk result (λ made. made.items ≡ block tip.now body.now) }
{
    let mut block = head_of(alloc, tip, digest, body.len() as u32)?;
    block.extend_from_slice(body)?;
    Ok(block)
}

impl Tip {
    /// Goes behind a block whose body has this many bytes.
    pub(crate) fn pass(&mut self, len: usize, digest: [u8; DIGEST])
        requires number { self.old.number < 2 ^ 63 }
        requires end { self.old.end < 2 ^ 63 }
        requires small { len < 2 ^ 32 }
        ensures { (body : List ℕ) → length body ≡ len → digest ≡ seal self.old body → self.new ≡ next_tip self.old body }
    {
        self.number += 1;
        self.previous = digest;
        self.end += (HEAD + len) as u64;
    }

    /// Appends a block with this body. After `Ok` every death leaves a file that has the block. After an error the file may only be closed; it can then be
    /// opened again.
    pub(crate) fn keep<D: Disk>(
        &mut self,
        alloc: Global,
        disk: &mut D,
        body: &[u8],
    ) -> Result<(), KeepEnd>
        requires small { length body.now < 2 ^ 32 }
        requires number { self.old.number < 2 ^ 63 }
        requires end { self.old.end < 2 ^ 63 }
        ensures kept { OnOk result (Reports (D.reported disk.old) (D.reported disk.new) (on_disk (keeping self.old body.now))) }
        ensures next { OnOk result (self.new ≡ next_tip self.old body.now) }
        ensures stopped { OnErr result ((done : List DiskCall) × IsFrontOf (keeping self.old body.now) done
            × Reports (D.reported disk.old) (D.reported disk.new) (on_disk done)) }
        ensures cause { IsErrOf result KeepEnd.Failed → Rose (D.fault_count disk.old) (D.fault_count disk.new) }
        ensures never_falls { D.fault_count disk.old ≤ D.fault_count disk.new }
        ensures beside { D.beside disk.new ≡ D.beside disk.old }
    {
        let digest = seal_of(self, body);
        let block = block_of(alloc, self, &digest, body)?;
        disk.append(&block)?;
        disk.sync()?;
        self.pass(body.len(), digest);
        Ok(())
    }
}
