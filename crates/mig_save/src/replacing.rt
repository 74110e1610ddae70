//! Saving a file whole: after a crash a plain file holds what it held before, or the new bytes.
ghost use Rattle.std.specs.Prelude.{◌≡◌, ◌≤◌, ◌++◌, [], Some, ℕ, IsTrue, IfErr, OnOk, OnErr, length};
ghost use Rattle.mig_base.specs.FaultCounts.{Rose};
ghost use Rattle.mig_save.specs.Saves.{IsBytes, IsContentSettled, IsPlaced, LeavesOldOrNew, SaveChange, StandsAs, Stays};

use crate::save_calls::{Inode, SaveCalls, Target};
use std::fmt::{self, Display, Formatter};
use std::io::{self, Error, ErrorKind};

/// Why a file was not saved, and what stands under its name.
#[derive(Clone, Copy)]
pub enum Unsaved {
    /// Nothing was changed.
    Unchanged(Error),
    /// The file that was there stands as it was.
    OldStands(Error),
    /// What was written in place may be there in part.
    InPart(Error),
    /// The new file stands, but its folder was not synced.
    NewStands(Error),
}

impl Display for Unsaved {
    fn fmt<W: fmt::Write>(&self, f: &mut Formatter<W>) -> fmt::Result {
        match self {
            Unsaved::Unchanged(error) => write!(f, "{error}; nothing was changed"),
            Unsaved::OldStands(error) => write!(f, "{error}; the old file stands"),
            Unsaved::InPart(error) => write!(f, "{error}; a part may have been written"),
            Unsaved::NewStands(error) => {
                write!(
                    f,
                    "{error}; the new file stands, but a power cut may lose it"
                )
            }
        }
    }
}

/// Makes the file hold these bytes, and answers which one it is. A plain file is replaced whole: a crash at any moment leaves what it might have left before, or the new bytes. A terminal, a pipe, or what a link leads to is written in place.
pub fn save_over<C: SaveCalls>(calls: &mut C, bytes: &[u8]) -> Result<Option<Inode>, Unsaved>
    ensures whole { IsTrue (C.SaveCalls.state calls.old).told → LeavesOldOrNew bytes.now (C.SaveCalls.state calls.old) (C.SaveCalls.state calls.new) }
    ensures saved { OnOk result (IsTrue (C.SaveCalls.state calls.old).told → (C.SaveCalls.state calls.new).stands ≡ Some bytes.now) }
    ensures settled { OnOk result (IsTrue (C.SaveCalls.state calls.old).told → IsTrue (C.SaveCalls.state calls.old).listed → IsContentSettled (C.SaveCalls.state calls.new)) }
    ensures stands { IfErr result (λ unsaved. IsTrue (C.SaveCalls.state calls.old).told → StandsAs bytes.now (C.SaveCalls.state calls.old) (C.SaveCalls.state calls.new) unsaved) }
    ensures failed { OnErr result (Rose (C.SaveCalls.state calls.old).failures (C.SaveCalls.state calls.new).failures) }
{
    let made = match calls.look() {
        Ok(Target::Plain(mode)) => match replace(calls, bytes, Some(mode)) {
            Ok(made) => made,
            Err(error) => return Err(Unsaved::OldStands(error)),
        },
        Ok(Target::Missing) => match replace(calls, bytes, None) {
            Ok(made) => made,
            Err(error) => return Err(Unsaved::Unchanged(error)),
        },
        Ok(Target::InPlace) => return calls.save_in_place(bytes).map_err(Unsaved::InPart),
        Err(error) => return Err(Unsaved::Unchanged(error)),
    };
    match calls.sync_folder() {
        Ok(()) => Ok(made),
        Err(error) => Err(Unsaved::NewStands(error)),
    }
}

/// Writes a new file beside the name, and gives it the name once it is whole. The new file is removed where that fails.
fn replace<C: SaveCalls>(
    calls: &mut C,
    bytes: &[u8],
    mode: Option<u32>,
) -> io::Result<Option<Inode>>
    ensures placed { OnOk result (IsPlaced bytes.now (C.SaveCalls.state calls.old) (C.SaveCalls.state calls.new)) }
    ensures unchanged { OnErr result ((C.SaveCalls.state calls.new).stands ≡ (C.SaveCalls.state calls.old).stands) }
    ensures change { SaveChange (IsBytes bytes.now (C.SaveCalls.state calls.old)) (C.SaveCalls.state calls.old) (C.SaveCalls.state calls.new) }
    ensures failed { OnErr result (Rose (C.SaveCalls.state calls.old).failures (C.SaveCalls.state calls.new).failures) }
{
    make_new(calls)?;
    let done = fill_and_rename(calls, bytes, mode);
    if done.is_err() {
        let _ = calls.remove();
    }
    done
}

/// Makes the new file. One that a run left which was cut off is removed first.
fn make_new<C: SaveCalls>(calls: &mut C) -> io::Result<()>
    ensures made { OnOk result (IsTrue (C.SaveCalls.state calls.new).made) }
    ensures empty { OnOk result (IsTrue (C.SaveCalls.state calls.old).told → (C.SaveCalls.state calls.new).beside ≡ []) }
    ensures stays { Stays (C.SaveCalls.state calls.old) (C.SaveCalls.state calls.new) }
    ensures failed { OnErr result (Rose (C.SaveCalls.state calls.old).failures (C.SaveCalls.state calls.new).failures) }
{
    match calls.make() {
        Err(error) if error.kind() == ErrorKind::AlreadyExists => {
            calls.check_left()?;
            calls.remove()?;
            calls.make()
        }
        made => made,
    }
}

/// Fills the new file, brings it to the device, and then gives it the name.
fn fill_and_rename<C: SaveCalls>(
    calls: &mut C,
    bytes: &[u8],
    mode: Option<u32>,
) -> io::Result<Option<Inode>>
    requires made { IsTrue (C.SaveCalls.state calls.old).made }
    requires empty { IsTrue (C.SaveCalls.state calls.old).told → (C.SaveCalls.state calls.old).beside ≡ [] }
    ensures placed { OnOk result (IsPlaced bytes.now (C.SaveCalls.state calls.old) (C.SaveCalls.state calls.new)) }
    ensures unchanged { OnErr result ((C.SaveCalls.state calls.new).stands ≡ (C.SaveCalls.state calls.old).stands) }
    ensures change { SaveChange (IsBytes bytes.now (C.SaveCalls.state calls.old)) (C.SaveCalls.state calls.old) (C.SaveCalls.state calls.new) }
    ensures failed { OnErr result (Rose (C.SaveCalls.state calls.old).failures (C.SaveCalls.state calls.new).failures) }
{
    let made = fill(calls, bytes, mode)?;
    calls.check_made(made)?;
    calls.rename()?;
    Ok(made)
}

/// Fills the new file, and brings it to the device.
fn fill<C: SaveCalls>(calls: &mut C, bytes: &[u8], mode: Option<u32>) -> io::Result<Option<Inode>>
    requires made { IsTrue (C.SaveCalls.state calls.old).made }
    requires empty { IsTrue (C.SaveCalls.state calls.old).told → (C.SaveCalls.state calls.old).beside ≡ [] }
    ensures filled { OnOk result (IsTrue (C.SaveCalls.state calls.old).told → (C.SaveCalls.state calls.new).beside ≡ bytes.now) }
    ensures flushed { OnOk result (IsTrue (C.SaveCalls.state calls.new).flushed) }
    ensures made { OnOk result (IsTrue (C.SaveCalls.state calls.new).made) }
    ensures stays { Stays (C.SaveCalls.state calls.old) (C.SaveCalls.state calls.new) }
    ensures failed { OnErr result (Rose (C.SaveCalls.state calls.old).failures (C.SaveCalls.state calls.new).failures) }
{
    if let Some(mode) = mode {
        calls.set_mode(mode)?;
    }
    let made = calls.node()?;
    write_all(calls, bytes)?;
    calls.sync()?;
    Ok(made)
}

/// Writes all bytes at the end of the new file.
fn write_all<C: SaveCalls>(calls: &mut C, bytes: &[u8]) -> io::Result<()>
    requires { IsTrue (C.SaveCalls.state calls.old).made }
    ensures written { OnOk result (IsTrue (C.SaveCalls.state calls.old).told → (C.SaveCalls.state calls.new).beside ≡ (C.SaveCalls.state calls.old).beside ++ bytes.now) }
    ensures made { IsTrue (C.SaveCalls.state calls.new).made }
    ensures stays { Stays (C.SaveCalls.state calls.old) (C.SaveCalls.state calls.new) }
    ensures failed { OnErr result (Rose (C.SaveCalls.state calls.old).failures (C.SaveCalls.state calls.new).failures) }
{
    let mut done = 0;
    while done < bytes.len() {
        done += calls.write(&bytes[done..])?;
    }
    Ok(())
}
