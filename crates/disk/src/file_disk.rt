//! A disk in an open file. Each call is done completely, or is a fault. What the file itself does with bytes is specified for a file in memory, and for std's
//! file depends on the system.

ghost use Rattle.std.specs.Prelude.{◌≡◌, ◌≤◌, ◌<◌, ◌+◌, ◌^◌, None, false, IfOk, OnOk, OnErr, length};
ghost use Rattle.ft_io.specs.Faults.{Rose};
ghost use Rattle.disk.specs.Counts.{nothing};
ghost use Rattle.disk.specs.FileContent.{written_in, HasPlace, EndsAt, Becomes};
ghost use Rattle.disk.specs.declared.calls.DiskCall.TheVariants.{Appended, Put, Cut};

use crate::{Disk, OpenFile, ShelfEnd, StdFile};
use ft_io::Failed;
use std::fs::{File, Files};

/// A file, which is its disk's alone.
#[derive(Drop)]
pub struct FileDisk<F: OpenFile> {
    file: F,
    /// How many bytes it has.
    count: u64,
    faults: u64,
}

impl FileDisk<StdFile> {
    /// Opens the file of the system at `path`, for this process only. A symbolic link, a directory and a device are refused, and so is a file with a second
    /// name (hard link).
    pub fn open<R: Files<File = File>>(files: &R, path: &str) -> Result<FileDisk<StdFile>, ShelfEnd>
        ensures { IfOk result (λ disk. disk.faults ≡ 0) }
    {
        let file = StdFile::open(files, path)?;
        FileDisk::over(file).map_err(|_| ShelfEnd::Failed)
    }

    /// Makes a file of the system at `path`, where none is, for this process only.
    pub fn begin<R: Files<File = File>>(
        files: &R,
        path: &str,
    ) -> Result<FileDisk<StdFile>, ShelfEnd>
        ensures { IfOk result (λ disk. disk.faults ≡ 0) }
    {
        let file = StdFile::begin(files, path)?;
        FileDisk::over(file).map_err(|_| ShelfEnd::Failed)
    }

    /// Whether `path` is the file's name, and nothing else is.
    pub(crate) fn is_at<R: Files<File = File>>(&self, files: &R, path: &str) -> bool {
        self.file.is_at(files, path)
    }
}

impl<F: OpenFile + Drop> FileDisk<F> {
    /// Makes a disk of a file that nobody else changes, and that isn't read yet. The file is synced before its first read: a process that died may have written
    /// more than it had synced, and what is read and answered from then on must survive a loss of power.
    pub fn over(file: F) -> Result<FileDisk<F>, Failed>
        ensures same { IfOk result (λ disk. F.content disk.file ≡ F.content file) }
        ensures synced { IfOk result (λ disk. F.synced disk.file ≡ F.content disk.file) }
        ensures counted { IfOk result (λ disk. EndsAt (F.content disk.file) disk.count) }
        ensures no_fault { IfOk result (λ disk. disk.faults ≡ 0) }
    {
        let mut file = file;
        file.sync_all()?;
        file.drop_cached()?;
        let count = file.count()?;
        Ok(FileDisk {
            file,
            count,
            faults: 0,
        })
    }

    /// The file.
    pub fn file(&self) -> &F
        ensures { result.now ≡ self.now.file }
    {
        &self.file
    }

    /// Appends all bytes.
    fn append_whole(&mut self, bytes: &[u8]) -> Result<(), Failed>
        ensures appended { OnOk result (Becomes (F.content self.old.file) self.old.count (F.content self.new.file) self.new.count (Appended bytes.now false)) }
        ensures faults { self.new.faults ≡ self.old.faults }
    {
        let len = bytes.len() as u64;
        if len > u64::MAX - self.count {
            return Err(Failed);
        }
        write_whole(&mut self.file, bytes, self.count)?;
        self.count += len;
        Ok(())
    }

    /// Replaces a byte, or appends it.
    fn put_byte(&mut self, at: u64, byte: u8) -> Result<(), Failed>
        ensures put { OnOk result (Becomes (F.content self.old.file) self.old.count (F.content self.new.file) self.new.count (Put at byte false)) }
        ensures faults { self.new.faults ≡ self.old.faults }
    {
        // After the end the system would leave a hole.
        let at = at.min(self.count);
        if at == u64::MAX {
            return Err(Failed);
        }
        write_whole(&mut self.file, &[byte], at)?;
        self.count = self.count.max(at + 1);
        Ok(())
    }
}

/// Writes all bytes at the place `at`, with as many calls as that takes.
fn write_whole<F: OpenFile>(file: &mut F, bytes: &[u8], at: u64) -> Result<(), Failed>
    requires { at + length bytes.now < 2 ^ 64 }
    ensures whole { OnOk result (HasPlace (F.content file.old) at → F.content file.new ≡ written_in at bytes.now (F.content file.old)) }
{
    let mut done = 0;
    while done < bytes.len() {
        let more = file.write_at(&bytes[done..], at + done as u64)?;
        if more == 0 {
            return Err(Failed);
        }
        done += more;
    }
    Ok(())
}

/// Counts a call, if it failed.
pub(crate) fn counted<T: Drop>(faults: &mut u64, done: Result<T, Failed>) -> Result<T, Failed>
    ensures same { result ≡ done }
    ensures cause { OnErr result (Rose faults.old faults.new) }
    ensures no_fault { OnOk result (faults.new ≡ faults.old) }
    ensures never_falls { faults.old ≤ faults.new }
{
    if done.is_err() {
        *faults = faults.saturating_add(1);
    }
    done
}

impl<F: OpenFile + Drop> Disk for FileDisk<F> {
    ghost reported = { λ _. None };

    ghost left = { λ _. None };

    ghost fault_count = { λ disk. disk.faults };

    ghost beside = { λ _. nothing };

    fn faults(&self) -> u64 {
        self.faults
    }

    fn read(&mut self, buf: &mut [u8]) -> Result<usize, Failed>
        requires { 0 < length buf.old }
        ensures same { (F.content self.new.file ≡ F.content self.old.file) × (self.new.count ≡ self.old.count) }

        // What every disk promises.
        ensures within { IfOk result (λ n. n ≤ length buf.new) }
        ensures cause { OnErr result (Rose self.old.faults self.new.faults) }
        ensures never_falls { self.old.faults ≤ self.new.faults }
    {
        let read = self.file.read(buf);
        counted(&mut self.faults, read)
    }

    fn append(&mut self, bytes: &[u8]) -> Result<(), Failed>
        // All bytes are at the end of the file, or it is a fault.
        ensures appended { OnOk result (Becomes (F.content self.old.file) self.old.count (F.content self.new.file) self.new.count (Appended bytes.now false)) }

        // What every disk promises.
        ensures cause { OnErr result (Rose self.old.faults self.new.faults) }
        ensures never_falls { self.old.faults ≤ self.new.faults }
    {
        let done = self.append_whole(bytes);
        counted(&mut self.faults, done)
    }

    fn put(&mut self, at: u64, byte: u8) -> Result<(), Failed>
        ensures put { OnOk result (Becomes (F.content self.old.file) self.old.count (F.content self.new.file) self.new.count (Put at byte false)) }

        // What every disk promises.
        ensures cause { OnErr result (Rose self.old.faults self.new.faults) }
        ensures never_falls { self.old.faults ≤ self.new.faults }
    {
        let done = self.put_byte(at, byte);
        counted(&mut self.faults, done)
    }

    fn cut(&mut self, at: u64) -> Result<(), Failed>
        // The file has no byte from this place on, or it is a fault.
        ensures cut { OnOk result (Becomes (F.content self.old.file) self.old.count (F.content self.new.file) self.new.count (Cut at false)) }

        // What every disk promises.
        ensures cause { OnErr result (Rose self.old.faults self.new.faults) }
        ensures never_falls { self.old.faults ≤ self.new.faults }
    {
        // A length after the end would make the file longer.
        let count = at.min(self.count);
        let done = self.file.set_len(count);
        self.count = count;
        counted(&mut self.faults, done)
    }

    fn sync(&mut self) -> Result<(), Failed>
        // All that the file has is on the disk, or it is a fault.
        ensures synced { OnOk result (F.synced self.new.file ≡ F.content self.new.file) }
        ensures same { (F.content self.new.file ≡ F.content self.old.file) × (self.new.count ≡ self.old.count) }

        // What every disk promises.
        ensures cause { OnErr result (Rose self.old.faults self.new.faults) }
        ensures never_falls { self.old.faults ≤ self.new.faults }
    {
        let done = self.file.sync();
        counted(&mut self.faults, done)
    }
}
