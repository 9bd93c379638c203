//! Files of the system by their names: one that is there, or a new one. Nothing of them is specified.

use crate::ShelfEnd;
use std::fs::{File, Files, OpenOptions};
use std::os::fd::AsRawFd;
use std::os::unix::fs::{MetadataExt, OpenOptionsExt};
use std::{fs, io};

/// Opens the regular file of this name, and locks it for this process until it is closed. A symbolic link, a directory and a device are refused. The file isn't
/// opened in append mode: Linux would then write each byte at the end, whatever its place.
pub(crate) fn open_there<R: Files<File = File>>(files: &R, path: &str) -> Result<File, ShelfEnd> {
    let named = match fs::symlink_metadata(files, path) {
        Err(error) if error.kind() == io::ErrorKind::NotFound => return Err(ShelfEnd::Missing),
        named => named?,
    };
    if !named.is_file() {
        return Err(ShelfEnd::Failed);
    }
    let file = OpenOptions::new().read(true).write(true).open(files, path)?;
    locked(files, file, path)
}

/// Makes a file of this name where none is, and locks it.
pub(crate) fn make_new<R: Files<File = File>>(files: &R, path: &str) -> Result<File, ShelfEnd> {
    let made = OpenOptions::new()
        .read(true)
        .write(true)
        .create_new(true)
        .mode(0o600)
        .open(files, path);
    match made {
        Err(error) if error.kind() == io::ErrorKind::AlreadyExists => Err(ShelfEnd::Present),
        made => locked(files, made?, path),
    }
}

/// Locks a file. Its name is compared after that: another process may have taken it away in between.
fn locked<R: Files<File = File>>(files: &R, file: File, path: &str) -> Result<File, ShelfEnd> {
    // If a standard stream is closed, its descriptor is free: what is written to that stream must not end up in the file.
    let file = if file.as_raw_fd() <= 2 {
        file.try_clone()?
    } else {
        file
    };
    file.try_lock()?;
    if is_named(files, &file, path)? {
        Ok(file)
    } else {
        Err(ShelfEnd::Failed)
    }
}

/// Whether this is the regular file of this name, and has no second name (hard link).
pub(crate) fn is_named<R: Files<File = File>>(
    files: &R,
    file: &File,
    path: &str,
) -> io::Result<bool> {
    let found = file.metadata()?;
    let named = fs::symlink_metadata(files, path)?;
    let is_same = found.dev() == named.dev() && found.ino() == named.ino();
    Ok(is_same && found.is_file() && found.nlink() == 1)
}
