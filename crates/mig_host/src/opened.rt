//! A file that is open, with reads and writes at an offset.
ghost use Rattle.std.specs.Prelude.{◌≡◌, ◌⊎◌, ◌≤◌, ◌<◌, ℕ, IsTrue, IfOk, IfSome, IfNone, OnOk, length};
ghost use Rattle.mig_host.specs.Systems.{Absent, Finds, Goes, IsLookedAt, IsOpenedAt, IsOwn, Led, Made};
ghost use Rattle.mig_host.specs.declared.system.FileIdentity.{FileIdentity as Nodes};
ghost use Rattle.mig_host.specs.declared.system.FileIdentity.TheVariants.{Device as DeviceOf};

use crate::devices::{DevicePart, find_device};
use crate::identity::{PathKind, exchanged, found_at};
use crate::system::{Access, FileIdentity, System};
use mig_calls::Extent;
use std::io::{self, Error, ErrorKind};

/// A file that is open.
#[derive(Drop)]
pub struct Opened<S: System> {
    file: S::File,
    /// It is this process's alone.
    pub taken: bool,
    /// It may be read only.
    pub fixed: bool,
    /// Which file of the system it is.
    pub node: FileIdentity,
    /// What its bytes lie in: the file itself, and of a device the others.
    pub parts: Vec<DevicePart>,
    /// Its permissions.
    pub mode: u32,
    /// A link stands under its name.
    pub linked: bool,
    /// How many bytes it has.
    len: u64,
}

/// Opens a file for reading, if it is there.
pub fn open_to_read<S: System>(sys: &mut S, path: &str) -> io::Result<Option<Opened<S>>>
    ensures there { IfOk result (λ found. IfSome found (λ opened. Finds (S.System.state sys.old) (S.System.state sys.new) (Led path.now opened.node))) }
    ensures absent { IfOk result (λ found. IfNone found (Finds (S.System.state sys.old) (S.System.state sys.new) (Absent path.now))) }
    ensures goes { Goes (S.System.state sys.old) (S.System.state sys.new) }
{
    match found_at(sys, path)? {
        PathKind::Nothing => Ok(None),
        PathKind::Device(number) => Ok(Some(open_device(sys, number, Access::Read)?)),
        PathKind::File => open_if_there(sys, path),
    }
}

/// Opens a file for reading, unless it was removed since it was found.
fn open_if_there<S: System>(sys: &mut S, path: &str) -> io::Result<Option<Opened<S>>>
    ensures there { IfOk result (λ found. IfSome found (λ opened. Finds (S.System.state sys.old) (S.System.state sys.new) (Led path.now opened.node))) }
    ensures absent { IfOk result (λ found. IfNone found (Finds (S.System.state sys.old) (S.System.state sys.new) (Absent path.now))) }
    ensures goes { Goes (S.System.state sys.old) (S.System.state sys.new) }
{
    match sys.open(path, Access::Read) {
        Ok(file) => Ok(Some(look_at(sys, file)?)),
        Err(error) if error.kind() == ErrorKind::NotFound => Ok(None),
        Err(error) => Err(error),
    }
}

/// Opens a file for reading and writing, and says whether it was made. Nothing of it is cut off.
pub fn open_to_write<S: System>(sys: &mut S, path: &str) -> io::Result<(Opened<S>, bool)>
    ensures led { IfOk result (λ found. Finds (S.System.state sys.old) (S.System.state sys.new) (Led path.now found.0.node)) }
    ensures made { IfOk result (λ found. IsTrue found.1 → Finds (S.System.state sys.old) (S.System.state sys.new) (Made found.0.node)) }
    ensures goes { Goes (S.System.state sys.old) (S.System.state sys.new) }
{
    match found_at(sys, path)? {
        PathKind::Nothing => make_or_open(sys, path),
        PathKind::Device(number) => Ok((open_device(sys, number, Access::Both)?, false)),
        PathKind::File => Ok((open_there(sys, path, Access::Both)?, false)),
    }
}

/// Makes a new file, and opens it where another process made it at this moment.
fn make_or_open<S: System>(sys: &mut S, path: &str) -> io::Result<(Opened<S>, bool)>
    ensures led { IfOk result (λ found. Finds (S.System.state sys.old) (S.System.state sys.new) (Led path.now found.0.node)) }
    ensures made { IfOk result (λ found. IsTrue found.1 → Finds (S.System.state sys.old) (S.System.state sys.new) (Made found.0.node)) }
    ensures goes { Goes (S.System.state sys.old) (S.System.state sys.new) }
{
    match open_there(sys, path, Access::Make) {
        Ok(opened) => Ok((opened, true)),
        Err(error) if error.kind() == ErrorKind::AlreadyExists => {
            Ok((open_there(sys, path, Access::Both)?, false))
        }
        Err(error) => Err(error),
    }
}

/// Opens what was found at a path.
fn open_found<S: System>(
    sys: &mut S,
    path: &str,
    found: PathKind,
    access: Access,
) -> io::Result<Opened<S>>
    ensures node { IfOk result (λ opened. IsOpenedAt (S.System.state sys.old) (S.System.state sys.new) path.now opened.node found) }
    ensures of { IfOk result (λ opened. S.File.is_of opened.file opened.node) }
    ensures goes { Goes (S.System.state sys.old) (S.System.state sys.new) }
{
    match found {
        PathKind::Nothing => Err(exchanged()),
        PathKind::Device(number) => open_device(sys, number, access),
        PathKind::File => open_there(sys, path, access),
    }
}

/// Opens a file that was open before, and has its name still.
pub fn open_again<S: System>(
    sys: &mut S,
    path: &str,
    node: FileIdentity,
    access: Access,
) -> io::Result<Opened<S>>
    ensures same { IfOk result (λ opened. opened.node ≡ node) }
    ensures led { OnOk result (Finds (S.System.state sys.old) (S.System.state sys.new) (Led path.now node)) }
    ensures of { IfOk result (λ opened. S.File.is_of opened.file opened.node) }
    ensures goes { Goes (S.System.state sys.old) (S.System.state sys.new) }
{
    let found = found_at(sys, path)?;
    let opened = open_found(sys, path, found, access)?;
    if opened.node == node {
        Ok(opened)
    } else {
        Err(exchanged())
    }
}

/// Opens a device by the node that the system has of it, whatever node has the path: all processes lock it there.
fn open_device<S: System>(sys: &mut S, number: u64, access: Access) -> io::Result<Opened<S>>
    ensures node { IfOk result (λ opened. opened.node ≡ DeviceOf number) }
    ensures of { IfOk result (λ opened. S.File.is_of opened.file opened.node) }
    ensures goes { Goes (S.System.state sys.old) (S.System.state sys.new) }
{
    let device = find_device(sys, number)?;
    let mut opened = open_there(sys, device.path.as_str(), access)?;
    if opened.node != (FileIdentity::Device { number }) {
        return Err(Error::other("/dev has another node under the device's name"));
    }
    opened.parts = device.parts;
    Ok(opened)
}

fn open_there<S: System>(sys: &mut S, path: &str, access: Access) -> io::Result<Opened<S>>
    ensures led { IfOk result (λ opened. Finds (S.System.state sys.old) (S.System.state sys.new) (Led path.now opened.node)) }
    ensures made { IfOk result (λ opened. access ≡ Access.Make → Finds (S.System.state sys.old) (S.System.state sys.new) (Made opened.node)) }
    ensures of { IfOk result (λ opened. S.File.is_of opened.file opened.node) }
    ensures goes { Goes (S.System.state sys.old) (S.System.state sys.new) }
{
    let file = sys.open(path, access)?;
    look_at(sys, file)
}

/// Notes what a file is that was opened.
fn look_at<S: System>(sys: &S, file: S::File) -> io::Result<Opened<S>>
    ensures found { IfOk result (λ opened. S.File.is_of file opened.node) }
    ensures of { IfOk result (λ opened. S.File.is_of opened.file opened.node) }
{
    let file = above_streams(sys, file)?;
    let stat = sys.fstat(&file)?;
    let node = stat.node();
    let len = match node {
        FileIdentity::Plain { .. } => stat.len,
        FileIdentity::Device { .. } => sys.end(&file)?,
    };
    let parts = vec![in sys.alloc(); DevicePart { node, whole: true }]?;
    Ok(Opened {
        file,
        taken: false,
        fixed: false,
        node,
        parts,
        mode: stat.mode & 0o777,
        linked: false,
        len,
    })
}

/// What is meant for a standard stream that was closed must not land in the file.
fn above_streams<S: System>(sys: &S, file: S::File) -> io::Result<S::File>
    ensures { IfOk result (λ other. (node : FileIdentity) → S.File.is_of other node → S.File.is_of file node) }
{
    if sys.descriptor(&file) <= 2 {
        return sys.duplicate(&file);
    }
    Ok(file)
}

/// Takes a file for this process alone, until it is closed.
pub fn take<S: System>(sys: &mut S, path: &str, opened: &mut Opened<S>) -> io::Result<()>
    ensures own { OnOk result (IsOwn (S.System.state sys.new) path.now opened.new.node (S.File.holds opened.new.file) (S.File.since opened.new.file)) }
    ensures taken { OnOk result (IsTrue opened.new.taken) }
    ensures node { opened.new.node ≡ opened.old.node }
    ensures goes { Goes (S.System.state sys.old) (S.System.state sys.new) }
{
    opened.lock(sys)?;
    check_taken(sys, path, opened.node)?;
    opened.taken = true;
    Ok(())
}

/// Sees that a path leads to a file that this process has taken, and that nobody who opens it there gets its lock.
pub fn check_taken<S: System>(sys: &mut S, path: &str, node: FileIdentity) -> io::Result<()>
    ensures looked { OnOk result (IsLookedAt (S.System.state sys.old) (S.System.state sys.new) path.now node) }
    ensures goes { Goes (S.System.state sys.old) (S.System.state sys.new) }
{
    let mut other = open_again(sys, path, node, Access::Both)?;
    if sys.lock(&mut other.file)? {
        return Err(Error::other("locks keep nobody out on its file system"));
    }
    Ok(())
}

impl<S: System> Opened<S> {
    /// Locks the file, until it is closed. It is refused where another process has done so.
    fn lock(&mut self, sys: &mut S) -> io::Result<()>
        ensures held { OnOk result (IsTrue (S.File.holds self.new.file)) }
        ensures since { OnOk result (S.File.since self.new.file ≡ (S.System.state sys.new).moment) }
        ensures node { self.new.node ≡ self.old.node }
        ensures goes { Goes (S.System.state sys.old) (S.System.state sys.new) }
    {
        if sys.lock(&mut self.file)? {
            return Ok(());
        }
        Err(Error::other("another process is at work with it"))
    }

    /// Whether it is this process's alone.
    pub fn is_taken(&self) -> bool
        ensures { result ≡ self.now.taken }
    {
        self.taken
    }

    /// Whether no other process writes to it by this program: it is this one's alone, or may be read only.
    pub fn is_steady(&self) -> bool
        ensures { IsTrue result → IsTrue self.now.taken ⊎ IsTrue self.now.fixed }
    {
        self.taken || self.fixed
    }

    /// Whether both have bytes in common.
    pub fn overlaps(&self, other: &Opened<S>) -> bool {
        for part in self.parts.iter() {
            if part.overlaps(&other.parts) {
                return true;
            }
        }
        false
    }

    /// Whether this process may open three files: the next one, and two that another part of it may need.
    pub fn leaves_some(&self, sys: &S) -> bool {
        let (one, another) = (sys.duplicate(&self.file), sys.duplicate(&self.file));
        let third = sys.duplicate(&self.file);
        one.is_ok() && another.is_ok() && third.is_ok()
    }

    /// How many bytes it has.
    pub fn extent(&self) -> Extent {
        match self.node {
            FileIdentity::Plain { .. } => Extent::File { len: self.len },
            FileIdentity::Device { .. } => Extent::Device { len: self.len },
        }
    }

    /// Reads some bytes at an offset.
    pub fn read_at(&self, sys: &mut S, offset: u64, into: &mut [u8]) -> io::Result<usize>
        ensures { IfOk result (λ n. n ≤ length into.old) }
    {
        sys.read_at(&self.file, offset, into)
    }

    /// Writes some of the bytes at an offset of a file that was taken. A write of no byte is a fault.
    pub fn write_at(&mut self, sys: &mut S, offset: u64, bytes: &[u8]) -> io::Result<usize>
        ensures count { IfOk result (λ n. n ≤ length bytes.now) }
        ensures some { IfOk result (λ n. 0 < length bytes.now → 0 < n) }
        ensures taken { OnOk result (IsTrue self.old.taken) }
        ensures goes { Goes (S.System.state sys.old) (S.System.state sys.new) }
    {
        if !self.taken {
            return Err(Error::other("it was not taken"));
        }
        let count = sys.write_at(&self.file, offset, bytes)?;
        if count == 0 && !bytes.is_empty() {
            return Err(ErrorKind::WriteZero.into());
        }
        self.len = self.len.max(offset.saturating_add(count as u64));
        Ok(count)
    }

    /// Gives the file these permissions.
    pub fn set_mode(&self, sys: &mut S, mode: u32) -> io::Result<()>
        ensures { Goes (S.System.state sys.old) (S.System.state sys.new) }
    {
        sys.set_mode(&self.file, mode)
    }

    /// Waits until the device has all that was written to the file, by whatever process. It need not be writable.
    pub fn sync(&self, sys: &mut S) -> io::Result<()>
        ensures { Goes (S.System.state sys.old) (S.System.state sys.new) }
    {
        sys.sync_data(&self.file)
    }
}
