//! What saving a file asks of the system: a few calls on what stands under one name, and on a new file beside it.
ghost use Rattle.std.specs.Prelude.{◌≡◌, ◌≤◌, ◌<◌, ◌++◌, [], Some, IsTrue, IsFalse, IfOk, OnOk, OnErr, length, take};
ghost use Rattle.mig_base.specs.FaultCounts.{Rose};
ghost use Rattle.mig_save.specs.Saves.{SaveState, IsSaveState, IsNewWhole, IsContentSettled, KeepsNew, SaveChange, Stays};

use std::io;

/// Which file of the system it is, whatever its name.
#[derive(Clone, Copy, PartialEq, Eq)]
pub struct Inode {
    pub device: u64,
    pub inode: u64,
}

/// What a name leads to before its file is saved.
#[derive(Clone, Copy)]
pub enum Target {
    /// A plain file, with its mode.
    Plain(u32),
    /// Nothing, and no link.
    Missing,
    /// A device, a pipe, or a link to what it leads to.
    InPlace,
}

/// The calls with which the file of one name is saved.
pub trait SaveCalls {
    /// What the name and the new file beside it tell.
    ghost state: { Self → SaveState };

    /// Finds what the name leads to, and opens what is to be written in place, which is nothing that is told. An error where it may not be saved.
    fn look(&mut self) -> io::Result<Target>
        ensures in_place { IfOk result (λ target. target ≡ Target.InPlace → IsFalse (state self.old).told) }
        ensures stays { Stays (state self.old) (state self.new) }
        ensures failed { OnErr result (Rose (state self.old).failures (state self.new).failures) };

    /// Makes the new file, with no byte. An error where its own name is taken.
    fn make(&mut self) -> io::Result<()>
        ensures made { OnOk result (IsTrue (state self.new).made) }
        ensures empty { OnOk result (IsTrue (state self.old).told → (state self.new).beside ≡ []) }
        ensures stays { Stays (state self.old) (state self.new) }
        ensures failed { OnErr result (Rose (state self.old).failures (state self.new).failures) };

    /// An error where what has the new file's own name is nothing that a save left which was cut off.
    fn check_left(&mut self) -> io::Result<()>
        ensures stays { Stays (state self.old) (state self.new) }
        ensures failed { OnErr result (Rose (state self.old).failures (state self.new).failures) };

    /// Removes what has the new file's own name.
    fn remove(&mut self) -> io::Result<()>
        ensures stays { Stays (state self.old) (state self.new) }
        ensures failed { OnErr result (Rose (state self.old).failures (state self.new).failures) };

    /// Gives the new file a mode.
    fn set_mode(&mut self, mode: u32) -> io::Result<()>
        requires { IsTrue (state self.old).made }
        ensures new_file { KeepsNew (state self.old) (state self.new) }
        ensures stays { Stays (state self.old) (state self.new) }
        ensures failed { OnErr result (Rose (state self.old).failures (state self.new).failures) };

    /// Which file of the system the new one is, if it is a plain one.
    fn node(&mut self) -> io::Result<Option<Inode>>
        requires { IsTrue (state self.old).made }
        ensures new_file { KeepsNew (state self.old) (state self.new) }
        ensures stays { Stays (state self.old) (state self.new) }
        ensures failed { OnErr result (Rose (state self.old).failures (state self.new).failures) };

    /// Writes some of the bytes, and at least one, at the end of the new file.
    fn write(&mut self, bytes: &[u8]) -> io::Result<usize>
        requires made { IsTrue (state self.old).made }
        requires some { 0 < length bytes.now }
        ensures count { IfOk result (λ n. n ≤ length bytes.now) }
        ensures some { IfOk result (λ n. 0 < n) }
        ensures written { IfOk result (λ n. IsTrue (state self.old).told → (state self.new).beside ≡ (state self.old).beside ++ take n bytes.now) }
        ensures made { IsTrue (state self.new).made }
        ensures stays { Stays (state self.old) (state self.new) }
        ensures failed { OnErr result (Rose (state self.old).failures (state self.new).failures) };

    /// Brings all that was written to the new file to the device, and closes it.
    fn sync(&mut self) -> io::Result<()>
        requires { IsTrue (state self.old).made }
        ensures flushed { OnOk result (IsTrue (state self.new).flushed) }
        ensures same { (state self.new).beside ≡ (state self.old).beside }
        ensures made { IsTrue (state self.new).made }
        ensures stays { Stays (state self.old) (state self.new) }
        ensures failed { OnErr result (Rose (state self.old).failures (state self.new).failures) };

    /// An error where the new file's own name leads to another file by now.
    fn check_made(&mut self, made: Option<Inode>) -> io::Result<()>
        requires { IsTrue (state self.old).made }
        ensures new_file { KeepsNew (state self.old) (state self.new) }
        ensures stays { Stays (state self.old) (state self.new) }
        ensures failed { OnErr result (Rose (state self.old).failures (state self.new).failures) };

    /// Gives the new file the name, over what stood there. Where the device doesn't have all of it, a crash may leave anything.
    fn rename(&mut self) -> io::Result<()>
        requires { IsTrue (state self.old).made }
        ensures renamed { OnOk result (IsTrue (state self.old).told → (state self.new).stands ≡ Some (state self.old).beside) }
        ensures placed { OnOk result (IsTrue (state self.new).placed) }
        ensures flushed { (state self.new).flushed ≡ (state self.old).flushed }
        ensures unchanged { OnErr result ((state self.new).stands ≡ (state self.old).stands) }
        ensures change { SaveChange (IsNewWhole (state self.old)) (state self.old) (state self.new) }
        ensures failed { OnErr result (Rose (state self.old).failures (state self.new).failures) };

    /// Brings the name to the device, where its folder can be opened.
    fn sync_folder(&mut self) -> io::Result<()>
        ensures settled { OnOk result (IsTrue (state self.old).listed → IsTrue (state self.old).placed → IsTrue (state self.old).flushed → IsContentSettled (state self.new)) }
        ensures stays { Stays (state self.old) (state self.new) }
        ensures failed { OnErr result (Rose (state self.old).failures (state self.new).failures) };

    /// Writes the bytes into what `look` opened, and says which plain file that is. Nothing that is told is written so.
    fn save_in_place(&mut self, bytes: &[u8]) -> io::Result<Option<Inode>>
        requires { IsFalse (state self.old).told }
        ensures failed { OnErr result (Rose (state self.old).failures (state self.new).failures) };

    ghost is_state: { (calls : Self) → IsSaveState (state calls) };
}
