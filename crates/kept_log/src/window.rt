//! What was read of a file and isn't used up.

ghost use Rattle.std.specs.Prelude.{[], ◌≡◌, ◌≤◌, ◌<◌, ◌++◌, List, ℕ, drop, false, true, length, IfOk, OnOk, IsErrOf};
ghost use Rattle.std.specs.Io.KnownBytes.{Consumes, IsAtEnd};
ghost use Rattle.ft_io.specs.Faults.{Rose};
ghost use Rattle.ft_io.specs.Reported.{Reports};

use crate::journal::KeepEnd;
use disk::Disk;
use std::alloc::{AllocError, Global};
use std::marker::Model;

/// The bytes that were read from a file and aren't used up.
#[derive(Drop)]
pub struct Window {
    bytes: Vec<u8>,
    at: usize,
}

impl Model for Window {
    ghost use Rattle.std.specs.Prelude.{ℕ, ◌≤◌, List, drop, length};

    ghost Value = { List ℕ };

    ghost view = { λ w. drop w.at w.bytes.items };

    ghost invariant = { λ w. w.at ≤ length w.bytes.items };
}

impl Window {
    /// An empty window. Nothing is allocated yet.
    pub fn new(alloc: Global) -> Window
        ensures { result ≡ [] }
    {
        Window {
            bytes: Vec::new(alloc),
            at: 0,
        }
    }

    /// The bytes that are read from the file and not yet used.
    pub fn bytes(&self) -> &[u8]
        ensures { result.now ≡ self.now }
    {
        &self.bytes[self.at..]
    }

    /// Removes the first `n` bytes.
    pub fn skip(&mut self, n: usize)
        requires { n ≤ length self.old }
        ensures { self.new ≡ drop n self.old }
    {
        self.at += n;
    }

    /// Moves the bytes to the beginning of their room, and appends others.
    fn add(&mut self, bytes: &[u8]) -> Result<(), AllocError>
        ensures { OnOk result (self.new ≡ self.old ++ bytes.now) }
    {
        let len = self.bytes.len() - self.at;
        self.bytes.copy_within(self.at.., 0);
        self.bytes.truncate(len);
        self.at = 0;
        self.bytes.extend_from_slice(bytes)
    }
}

/// Reads once, through `chunk`, and appends what was read to the window. Returns false at the file's end.
pub fn fill<D: Disk>(disk: &mut D, window: &mut Window, chunk: &mut [u8]) -> Result<bool, KeepEnd>
    requires { 0 < length chunk.old }
    ensures read { IfOk result (λ more. (bytes : List ℕ) × Consumes (D.left disk.old) (D.left disk.new) bytes × (window.new ≡ window.old ++ bytes)) }
    ensures grows { IfOk result (λ more. more ≡ true → length window.old < length window.new) }
    ensures same { IfOk result (λ more. more ≡ false → window.new ≡ window.old) }
    ensures end { IfOk result (λ more. more ≡ false → IsAtEnd (D.left disk.old) × IsAtEnd (D.left disk.new)) }
    ensures reported { Reports (D.reported disk.old) (D.reported disk.new) [] }
    ensures cause { IsErrOf result KeepEnd.Failed → Rose (D.fault_count disk.old) (D.fault_count disk.new) }
    ensures never_falls { D.fault_count disk.old ≤ D.fault_count disk.new }
    ensures beside { D.beside disk.new ≡ D.beside disk.old }
{
    let n = disk.read(chunk)?;
    window.add(&chunk[..n])?;
    Ok(n > 0)
}
