//! What the system tells in files and folders of its own.
ghost use Rattle.std.specs.Prelude.{IsTrue};
ghost use Rattle.std.specs.IoError.{error_kind};
ghost use Rattle.mig_host.specs.Systems.{IsNowhere};

use crate::system::System;
use std::alloc::Global;
use std::io::{self, ErrorKind, Read};

/// The text that is left of a file, with U+FFFD for what is no text.
pub fn text_of<F: Read>(alloc: Global, file: &mut F) -> io::Result<String> {
    let mut bytes = Vec::new(alloc);
    file.read_to_end(&mut bytes)?;
    Ok(String::from_utf8_lossy(alloc, &bytes)?)
}

/// Whether an error says that nothing is there.
pub fn is_nowhere(error: &io::Error) -> bool
    ensures { IsTrue result → IsNowhere (error_kind error.now) }
{
    matches!(error.kind(), ErrorKind::NotFound | ErrorKind::NotADirectory)
}

/// The text of a file.
pub fn text_at<S: System>(sys: &S, path: &str) -> io::Result<String> {
    let mut file = sys.table(path)?;
    text_of(sys.alloc(), &mut file)
}

/// The path of what has this name in a folder.
pub fn path_in(alloc: Global, folder: &str, name: &str) -> io::Result<String> {
    Ok(format!(in alloc; "{folder}/{name}")?)
}

/// The text of a file in a folder.
pub fn text_in<S: System>(sys: &S, folder: &str, name: &str) -> io::Result<String> {
    text_at(sys, path_in(sys.alloc(), folder, name)?.as_str())
}

/// The same of a file that may be missing.
pub fn text_if_there<S: System>(sys: &S, folder: &str, name: &str) -> io::Result<Option<String>> {
    match text_in(sys, folder, name) {
        Ok(text) => Ok(Some(text)),
        Err(error) if is_nowhere(&error) => Ok(None),
        Err(error) => Err(error),
    }
}

/// Adds the paths of what stands in a folder of another one, if it is there. A link is followed.
pub fn list<S: System>(
    sys: &S,
    folder: &str,
    name: &str,
    paths: &mut Vec<String>,
) -> io::Result<()> {
    let folder = path_in(sys.alloc(), folder, name)?;
    let names = names_in(sys, folder.as_str())?;
    note_names(sys.alloc(), folder.as_str(), names.as_str(), paths)
}

fn note_names(alloc: Global, at: &str, names: &str, paths: &mut Vec<String>) -> io::Result<()> {
    for name in names.split('\0') {
        if !matches!(name, "" | "." | "..") {
            paths.push(path_in(alloc, at, name)?)?;
        }
    }
    Ok(())
}

/// The names in a folder, and `.` and `..`, each ended by a NUL; none where it isn't there.
fn names_in<S: System>(sys: &S, path: &str) -> io::Result<String> {
    let path = path_in(sys.alloc(), path, "")?;
    match sys.folder(path.as_str()) {
        Ok(folder) => read_names(sys.alloc(), folder),
        Err(error) if error.kind() == ErrorKind::NotFound => Ok(String::new(sys.alloc())),
        Err(error) => Err(error),
    }
}

fn read_names<D: Read + Drop>(alloc: Global, mut folder: D) -> io::Result<String> {
    let mut names = Vec::new(alloc);
    let mut some = [0; 4096];
    for _ in 0..u64::MAX {
        let count = folder.read(&mut some)?;
        if count == 0 {
            return Ok(String::from_utf8_lossy(alloc, &names)?);
        }
        names.extend_from_slice(&some[..count])?;
    }
    Err(ErrorKind::TimedOut.into())
}

/// The number of a device that is written as two numbers with a colon between.
pub fn number_of(text: &str) -> Option<u64> {
    let (major, minor) = text.trim_end().split_once(':')?;
    let (major, minor) = (major.parse::<u32>().ok()?, minor.parse::<u32>().ok()?);
    Some(makedev(u64::from(major), u64::from(minor)))
}

/// The number as the C library packs it.
fn makedev(major: u64, minor: u64) -> u64 {
    ((major & 0xffff_f000) << 32)
        | ((major & 0xfff) << 8)
        | ((minor & 0xffff_ff00) << 12)
        | (minor & 0xff)
}

/// The two numbers that are packed in it.
pub fn major_and_minor(number: u64) -> (u64, u64) {
    (
        (number >> 32) & 0xffff_f000 | (number >> 8) & 0xfff,
        (number >> 12) & 0xffff_ff00 | number & 0xff,
    )
}
