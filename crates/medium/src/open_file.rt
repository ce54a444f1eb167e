//! A real file, taken for a medium: a regular file, locked for this handle, and settled before anything is read.

use std::fs::OpenOptions;
use std::io::ErrorKind;
use std::os::fd::AsRawFd;
use std::os::unix::fs::{MetadataExt, OpenOptionsExt};
use std::path::Path;
use std::{fs, io};

// Only the owner writes a file that is made here.
const MODE: u32 = 0o644;

/// Opens the file for reading and writing, and makes an empty one where there is none.
pub fn open_settled(rt: &HostRuntime, path: &str) -> io::Result<fs::File> {
    let file = open_regular(rt, path)?;
    file.try_lock()?;
    settle(&file, &open_folder(rt, path)?)?;
    Ok(file)
}

// A link or a device at the name isn't opened. What is put in the name's place meanwhile is refused before it is changed.
fn open_regular(rt: &HostRuntime, path: &str) -> io::Result<fs::File> {
    let mut file = open_or_make(rt, path)?;
    // What is meant for a standard stream that was closed mustn't land in the file.
    if file.as_raw_fd() <= 2 {
        file = file.try_clone()?;
    }
    let (found, named) = (file.metadata()?, fs::symlink_metadata(rt, path)?);
    let is_named = found.dev() == named.dev() && found.ino() == named.ino();
    if is_named && found.is_file() {
        Ok(file)
    } else {
        Err(ErrorKind::Unsupported.into())
    }
}

fn open_or_make(rt: &HostRuntime, path: &str) -> io::Result<fs::File> {
    let made = OpenOptions::new()
        .read(true)
        .write(true)
        .create_new(true)
        .mode(MODE)
        .open(rt, path);
    match made {
        Err(error) if error.kind() == ErrorKind::AlreadyExists => {
            if !fs::symlink_metadata(rt, path)?.is_file() {
                return Err(ErrorKind::Unsupported.into());
            }
            OpenOptions::new().read(true).write(true).open(rt, path)
        }
        other => other,
    }
}

fn open_folder(rt: &HostRuntime, path: &str) -> io::Result<fs::File> {
    match Path::new(path).parent() {
        Some(folder) if !folder.as_str().is_empty() => fs::File::open(rt, folder.as_str()),
        _ => fs::File::open(rt, "."),
    }
}

// Where an earlier process's sync failed, the system's cache may hold what the disk hasn't, and a later sync of it passes. So
// the cache is dropped once all of the file that can be is on the disk. The folder's sync keeps the file's name.
fn settle(file: &fs::File, folder: &fs::File) -> io::Result<()> {
    file.sync_all()?;
    let advised = libc::posix_fadvise(file.as_raw_fd(), 0, 0, libc::POSIX_FADV_DONTNEED);
    if advised != 0 {
        return Err(io::Error::from_raw_os_error(advised));
    }
    folder.sync_all()
}
