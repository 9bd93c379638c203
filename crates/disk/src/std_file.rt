//! Std's file as an open file. Its content isn't specified: what is written, and whether it is on the disk after a sync that returns `Ok`, depends on the
//! system.

ghost use Rattle.std.specs.Prelude.{None};

use crate::named::{is_named, make_new, open_there};
use crate::{OpenFile, ShelfEnd};
use ft_io::Failed;
use std::fs::{File, Files, OpenOptions};
use std::io;
use std::io::Read;
use std::os::fd::AsRawFd;
use std::os::unix::fs::FileExt;
use std::path::Path;

/// A file of the system, locked for this process only, until it is dropped or the process dies.
#[derive(Drop)]
pub struct StdFile {
    file: File,
}

impl StdFile {
    /// Opens the file at `path`, for this process only, and syncs its directory, so that a new name stays. A symbolic link, a directory and a device are
    /// refused, and so is a file with a second name (hard link).
    pub fn open<R: Files<File = File>>(files: &R, path: &str) -> Result<StdFile, ShelfEnd> {
        let file = open_there(files, path)?;
        keep_name(files, path)?;
        Ok(StdFile { file })
    }

    /// Makes a file at `path`, where none is, for this process only, and syncs its directory.
    pub fn begin<R: Files<File = File>>(files: &R, path: &str) -> Result<StdFile, ShelfEnd> {
        let file = make_new(files, path)?;
        keep_name(files, path)?;
        Ok(StdFile { file })
    }

    /// Whether `path` is the file's name, and nothing else is.
    pub(crate) fn is_at<R: Files<File = File>>(&self, files: &R, path: &str) -> bool {
        matches!(is_named(files, &self.file, path), Ok(true))
    }
}

/// Syncs the directory of a file, so that a new name stays.
pub(crate) fn keep_name<R: Files<File = File>>(files: &R, path: &str) -> io::Result<()> {
    let folder = OpenOptions::new().read(true).open(files, folder_of(path))?;
    folder.sync_all()
}

fn folder_of(path: &str) -> &str {
    match Path::new(path).parent() {
        Some(folder) if !folder.as_os_str().is_empty() => folder.as_os_str(),
        _ => ".",
    }
}

impl OpenFile for StdFile {
    ghost content = { λ _. None };

    ghost synced = { λ _. None };

    fn read(&mut self, buf: &mut [u8]) -> Result<usize, Failed> {
        self.file.read(buf).map_err(|_| Failed)
    }

    fn write_at(&mut self, bytes: &[u8], at: u64) -> Result<usize, Failed> {
        self.file.write_at(bytes, at).map_err(|_| Failed)
    }

    fn set_len(&mut self, len: u64) -> Result<(), Failed> {
        self.file.set_len(len).map_err(|_| Failed)
    }

    fn sync(&mut self) -> Result<(), Failed> {
        self.file.sync_data().map_err(|_| Failed)
    }

    fn sync_all(&mut self) -> Result<(), Failed> {
        self.file.sync_all().map_err(|_| Failed)
    }

    fn drop_cached(&mut self) -> Result<(), Failed> {
        match libc::posix_fadvise(self.file.as_raw_fd(), 0, 0, libc::POSIX_FADV_DONTNEED) {
            0 => Ok(()),
            _ => Err(Failed),
        }
    }

    fn count(&mut self) -> Result<u64, Failed> {
        self.file
            .metadata()
            .map(|found| found.len())
            .map_err(|_| Failed)
    }
}
