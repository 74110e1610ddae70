//! What the store asks of the system, call by call, and what the answers tell while other processes act.
ghost use Rattle.std.specs.Prelude.{◌≡◌, ◌≤◌, ℕ, Bool, IsTrue, IsFalse, IfOk, IfErr, OnOk, length};
ghost use Rattle.std.specs.IoError.{error_kind};
ghost use Rattle.mig_host.specs.Systems.{SystemState, Finds, Goes, IsNowhere, stat_node, Led, Absent, Bare, Made, Denied};
ghost use Rattle.mig_host.specs.declared.system.FileIdentity.{FileIdentity as Nodes};

use std::alloc::Global;
use std::fmt::Display;
use std::io::{self, Read, Write};

/// Which file of the system it is, whatever its name. A device has a number, whatever file names it.
#[derive(Clone, Copy, PartialEq, Eq, Hash)]
pub enum FileIdentity {
    Plain { device: u64, inode: u64 },
    Device { number: u64 },
}

/// What kind of file it is.
#[derive(Clone, Copy, PartialEq, Eq)]
pub enum Kind {
    Plain,
    /// A block device.
    Device,
    Folder,
    Link,
    Other,
}

/// What the system tells of a file.
#[derive(Clone, Copy)]
pub struct Stat {
    pub kind: Kind,
    /// The number of the file system that it stands in.
    pub device: u64,
    pub inode: u64,
    /// The number of the device that it is.
    pub number: u64,
    pub mode: u32,
    pub len: u64,
    /// When it was changed, or a name in it: seconds and nanoseconds.
    pub changed: (i64, i64),
}

impl Stat {
    /// Which file it is.
    pub fn node(&self) -> FileIdentity
        ensures { result ≡ stat_node self.now }
    {
        match self.kind {
            Kind::Device => FileIdentity::Device {
                number: self.number,
            },
            _ => FileIdentity::Plain {
                device: self.device,
                inode: self.inode,
            },
        }
    }
}

/// How a file is opened.
#[derive(Clone, Copy, PartialEq, Eq)]
pub enum Access {
    Read,
    /// For reading and writing.
    Both,
    /// The same, of a file that isn't there and is made.
    Make,
    /// For writing, from the beginning of a file that is emptied, or made.
    Anew,
}

/// A file that is open, until it is dropped, which gives up its lock.
pub trait Handle {
    /// Whether it is a file of this node.
    ghost is_of: { Self → Nodes → Type 0 };

    /// Whether it holds the lock of its file, and since which moment.
    ghost holds: { Self → Bool };

    ghost since: { Self → ℕ };
}

/// The calls of the system. Each of those that change what this process knows tells what was so at a moment of this call; the lock alone, of a file that this process has open, lasts. The others are of a file that is open, or of the system's own tables.
pub trait System: Drop {
    type File: Handle + Read + Write + Drop;

    /// A folder, which reads as the names in it, each ended by a NUL.
    type Folder: Read + Drop;

    /// What this process saw of the system.
    ghost state: { Self → SystemState };

    /// The memory for what is told.
    fn alloc(&self) -> Global;

    /// What a path leads to, over links.
    fn stat(&mut self, path: &str) -> io::Result<Stat>
        ensures led { IfOk result (λ found. Finds (state self.old) (state self.new) (Led path.now (stat_node found))) }
        ensures absent { IfErr result (λ error. IsNowhere (error_kind error) → Finds (state self.old) (state self.new) (Absent path.now)) }
        ensures goes { Goes (state self.old) (state self.new) };

    /// What stands at a path: a link is not followed.
    fn lstat(&mut self, path: &str) -> io::Result<Stat>
        ensures bare { IfErr result (λ error. IsNowhere (error_kind error) → Finds (state self.old) (state self.new) (Bare path.now)) }
        ensures goes { Goes (state self.old) (state self.new) };

    /// Opens the file that a path leads to. One that is to be made must not be there, nor a link.
    fn open(&mut self, path: &str, access: Access) -> io::Result<Self::File>
        ensures led { IfOk result (λ file. (node : FileIdentity) → Self.File.is_of file node
            → Finds (state self.old) (state self.new) (Led path.now node)) }
        ensures made { IfOk result (λ file. (node : FileIdentity) → Self.File.is_of file node → access ≡ Access.Make → Finds (state self.old) (state self.new) (Made node)) }
        ensures absent { IfErr result (λ error. IsNowhere (error_kind error) → Finds (state self.old) (state self.new) (Absent path.now)) }
        ensures goes { Goes (state self.old) (state self.new) };

    /// Takes the file's lock, unless another opening of it has it.
    fn lock(&mut self, file: &mut Self::File) -> io::Result<bool>
        ensures same { (node : FileIdentity) → Self.File.is_of file.old node → Self.File.is_of file.new node }
        ensures held { IfOk result (λ got. IsTrue got → IsTrue (Self.File.holds file.new)) }
        ensures since { IfOk result (λ got. IsTrue got → Self.File.since file.new ≡ (state self.new).moment) }
        ensures denied { IfOk result (λ got. IsFalse got → (node : FileIdentity) → Self.File.is_of file.old node → Finds (state self.old) (state self.new) (Denied node)) }
        ensures goes { Goes (state self.old) (state self.new) };

    /// Reads some bytes at an offset.
    fn read_at(&mut self, file: &Self::File, offset: u64, into: &mut [u8]) -> io::Result<usize>
        ensures count { IfOk result (λ n. n ≤ length into.old) }
        ensures goes { Goes (state self.old) (state self.new) };

    /// Writes some of the bytes at an offset.
    fn write_at(&mut self, file: &Self::File, offset: u64, bytes: &[u8]) -> io::Result<usize>
        ensures count { IfOk result (λ n. n ≤ length bytes.now) }
        ensures goes { Goes (state self.old) (state self.new) };

    /// Gives a file these permissions.
    fn set_mode(&mut self, file: &Self::File, mode: u32) -> io::Result<()>
        ensures { Goes (state self.old) (state self.new) };

    /// Waits until the device has all bytes of a file, by whatever process they were written.
    fn sync_data(&mut self, file: &Self::File) -> io::Result<()>
        ensures { Goes (state self.old) (state self.new) };

    /// The same of all that the system keeps of it; of a folder the names in it.
    fn sync_all(&mut self, file: &Self::File) -> io::Result<()>
        ensures { Goes (state self.old) (state self.new) };

    /// Takes the name away.
    fn remove(&mut self, path: &str) -> io::Result<()>
        ensures absent { OnOk result (Finds (state self.old) (state self.new) (Absent path.now)) }
        ensures goes { Goes (state self.old) (state self.new) };

    /// What file is open.
    fn fstat(&self, file: &Self::File) -> io::Result<Stat>
        ensures { IfOk result (λ found. Self.File.is_of file.now (stat_node found)) };

    /// Opens the open file once more, under another number.
    fn duplicate(&self, file: &Self::File) -> io::Result<Self::File>
        ensures { IfOk result (λ other. (node : FileIdentity) → Self.File.is_of other node → Self.File.is_of file.now node) };

    /// The number of an open file in this process.
    fn descriptor(&self, file: &Self::File) -> i32;

    /// The offset of the end of a file or a device.
    fn end(&self, file: &Self::File) -> io::Result<u64>;

    /// Opens one of the system's tables.
    fn table(&self, path: &str) -> io::Result<Self::File>;

    /// Opens one of its folders.
    fn folder(&self, path: &str) -> io::Result<Self::Folder>;

    /// What a path in its tables leads to.
    fn entry(&self, path: &str) -> io::Result<Stat>;

    /// Says this on standard error, in a line that begins with the program's name.
    fn say<D: Display + Drop>(&self, what: D);
}
