//! The system's table of mounts.
use crate::system::{Kind, System};
use crate::tables::{number_of, text_at};
use std::alloc::{AllocError, Global};
use std::io::{self, Error};

/// What a line of the table tells.
#[derive(Clone, Copy)]
struct Mount<'a> {
    /// The number of the file system, as two numbers with a colon between.
    number: &'a str,
    kind: &'a str,
    source: &'a str,
}

/// Reads a line of the table.
fn mount_of(line: &str) -> Option<Mount<'_>> {
    let (place, mounted) = line.split_once(" - ")?;
    let (kind, rest) = mounted.split_once(' ')?;
    Some(Mount {
        number: place.split(' ').nth(2)?,
        kind,
        source: rest.split(' ').next()?,
    })
}

/// Refuses devices of which one is mounted, and a node that isn't one of the system's own table of devices, which has the number `table`.
pub fn check_mounts<S: System>(sys: &S, numbers: &[u64], table: u64) -> io::Result<()> {
    let text = text_at(sys, "/proc/self/mountinfo")?;
    check_lines(sys, text.as_str(), numbers, table)
}

fn check_lines<S: System>(sys: &S, text: &str, numbers: &[u64], table: u64) -> io::Result<()> {
    let mut is_own = false;
    for line in text.lines() {
        if let Some(mount) = mount_of(line) {
            if names_one(sys, &mount, numbers)? {
                return Err(Error::other("the device is mounted, or a part of it is"));
            }
            is_own = is_own || mount.kind == "devtmpfs" && number_of(mount.number) == Some(table);
        }
    }
    if is_own {
        return Ok(());
    }
    Err(Error::other("/dev isn't the system's own table of devices"))
}

/// Whether one of the devices is mounted: a file system has its number, or a number of its own, and then the path that was mounted tells.
fn names_one<S: System>(sys: &S, mount: &Mount<'_>, numbers: &[u64]) -> io::Result<bool> {
    if matches!(number_of(mount.number), Some(number) if numbers.contains(&number)) {
        return Ok(true);
    }
    if !mount.number.starts_with("0:") || !mount.source.starts_with('/') {
        return Ok(false);
    }
    let source = unescaped(sys.alloc(), mount.source)?;
    if source.as_str().contains('\u{fffd}') {
        return Err(Error::other("the table of mounts has a path that is no text"));
    }
    let found = sys.entry(source.as_str());
    Ok(matches!(found, Ok(found) if found.kind == Kind::Device && numbers.contains(&found.number)))
}

/// The path that a word of the table stands for: a blank is `\040` there, and a few other bytes are written so.
fn unescaped(alloc: Global, word: &str) -> Result<String, AllocError> {
    let mut parts = word.split('\\');
    let mut path = String::from_str(alloc, parts.next().unwrap_or(""))?;
    for part in parts {
        match part.split_at_checked(3) {
            Some((code, rest)) => {
                path.push(char::from(u8::from_str_radix(code, 8).unwrap_or(b'?')))?;
                path.push_str(rest)?;
            }
            None => path.push_str(part)?,
        }
    }
    Ok(path)
}
