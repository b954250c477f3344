//! Where content goes: files and standard output.

use crate::content::Content;
use crate::faults::RunFault;
use std::fs::{self, File, Metadata, OpenOptions};
use std::os::unix::fs::{MetadataExt, OpenOptionsExt};
use std::path::PathBuf;
use std::{io, process};

/// How many names are tried for the file beside one that is written.
const TRIES: u32 = 100;

/// Opens a new file beside the one of a path, with permission bits of which the mask of the process takes some away; its path
/// is kept in `beside`.
///
/// Errors: no file can be made there.
pub fn create_beside(rt: &HostRuntime, beside: &mut PathBuf, mode: u32) -> io::Result<File> {
    let alloc = rt.alloc();
    let id = process::id(rt.process());
    for number in 0..TRIES {
        let name = format!(in alloc; ".sort_names-{id}-{number}")?;
        beside.set_file_name(name.as_str())?;
        let opened = OpenOptions::new()
            .read(true)
            .write(true)
            .create_new(true)
            .mode(mode)
            .open(rt, beside.as_path());
        match opened {
            Err(error) if error.kind() == io::ErrorKind::AlreadyExists => {}
            opened => return opened,
        }
    }
    Err(io::Error::from(io::ErrorKind::AlreadyExists))
}

/// Gives a file the mode and, where it may be given, the owner of another.
fn take_over(rt: &HostRuntime, beside: &PathBuf, file: &File, like: &Metadata) -> io::Result<()> {
    let _ = std::os::unix::fs::chown(rt, beside.as_path(), Some(like.uid()), Some(like.gid()));
    file.set_permissions(like.permissions())
}

/// Writes content to a new file beside the one of a path, and then puts it in that one's place, with the mode of `like`.
fn write_beside<'w, C: Content<'w>>(
    rt: &HostRuntime,
    path: &'w str,
    place: &str,
    like: Option<&Metadata>,
    content: C,
) -> Result<(), RunFault<'w>> {
    let mut beside = PathBuf::new(rt.alloc());
    beside.push(place)?;
    let file = match create_beside(rt, &mut beside, 0o666) {
        Ok(file) => file,
        Err(error) => return Err(RunFault::Unwritable(Some(path), error)),
    };
    let taken = match like {
        Some(like) => take_over(rt, &beside, &file, like),
        None => Ok(()),
    };
    let written = match taken {
        Ok(()) => content.write_to(Some(path), &file),
        Err(error) => Err(RunFault::Unwritable(Some(path), error)),
    };
    let fault = match written {
        Ok(()) => match fs::rename(rt, beside.as_path(), place) {
            Ok(()) => return Ok(()),
            Err(error) => RunFault::Unwritable(Some(path), error),
        },
        Err(fault) => fault,
    };
    let _ = fs::remove_file(rt, beside.as_path());
    Err(fault)
}

/// Writes content to a file as it is, from its start.
fn write_straight<'w, C: Content<'w>>(
    rt: &HostRuntime,
    path: &'w str,
    content: C,
) -> Result<(), RunFault<'w>> {
    match File::create(rt, path) {
        Ok(file) => content.write_to(Some(path), file),
        Err(error) => Err(RunFault::Unwritable(Some(path), error)),
    }
}

/// Writes content to the file of a path: a regular file is written beside it and put in its place once all is written, with
/// its mode, a link to one at the end of the link; what is no regular file, and a link that leads nowhere, is written
/// straight.
///
/// Errors: those of the content; a regular file is then as before.
fn write_file<'w, C: Content<'w>>(
    rt: &HostRuntime,
    path: &'w str,
    content: C,
) -> Result<(), RunFault<'w>> {
    match fs::metadata(rt, path) {
        Ok(like) if like.is_file() => match fs::canonicalize(rt, path) {
            Ok(place) => write_beside(rt, path, place.as_str(), Some(&like), content),
            Err(error) => Err(RunFault::Unwritable(Some(path), error)),
        },
        Ok(_) => write_straight(rt, path, content),
        Err(_) => match fs::symlink_metadata(rt, path) {
            Ok(_) => write_straight(rt, path, content),
            Err(_) => write_beside(rt, path, path, None, content),
        },
    }
}

/// What became of content.
#[derive(Clone, Copy, Debug, PartialEq, Eq)]
pub enum Sent {
    /// All of it was written.
    Whole,
    /// Nobody reads standard output any more.
    Unread,
}

/// Writes content to the file of a path, or to standard output.
///
/// Errors: those of the content.
pub fn write_content<'w, C: Content<'w>>(
    rt: &HostRuntime,
    output: Option<&'w str>,
    content: C,
) -> Result<Sent, RunFault<'w>> {
    if let Some(path) = output {
        write_file(rt, path, content)?;
        return Ok(Sent::Whole);
    }
    match content.write_to(None, io::writer(rt)) {
        Ok(()) => Ok(Sent::Whole),
        Err(RunFault::Unwritable(None, error)) if error.kind() == io::ErrorKind::BrokenPipe => {
            Ok(Sent::Unread)
        }
        Err(fault) => Err(fault),
    }
}
