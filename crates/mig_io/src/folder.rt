ghost use Rattle.std.specs.Prelude.{◌≡◌, ◌≤◌, take, vec_len, None, IfOk, OnOk, OnErr, IsErrOf};
ghost use Rattle.std.specs.Option.{IfSome, IsSomeAnd};
ghost use Rattle.mig_base.specs.FaultCounts.{Rose};
ghost use Rattle.mig_io.specs.Files.{FolderState, file, HasSaved, ChangedOnly};

use std::alloc::Global;

/// Why a file was not loaded.
#[derive(Clone, Copy, Debug, PartialEq, Eq)]
pub enum LoadFault {
    /// The folder failed, and counted it.
    Failed,
    /// The file isn't there, which is no fault of the folder.
    Missing,
    /// Memory was refused.
    Memory,
}

/// A file was not saved.
#[derive(Clone, Copy, Debug, PartialEq, Eq)]
pub struct SaveFailed;

/// A place of named files, with a count of its faults that never falls.
pub trait Folder {
    /// Its files, where it tells them, and how often it has failed.
    ghost state: { Self → FolderState };

    /// The first `most` bytes of a file.
    fn load(&mut self, alloc: Global, name: &str, most: usize) -> Result<Vec<u8>, LoadFault>
        ensures bytes { IfOk result (λ bytes. IfSome (state self.old).files (λ files.
            IsSomeAnd (file files name.now) (λ whole. bytes.items ≡ take most whole))) }
        ensures most { IfOk result (λ bytes. vec_len bytes ≤ most) }
        ensures missing { IsErrOf result LoadFault.Missing → IfSome (state self.old).files (λ files. file files name.now ≡ None) }
        ensures same { (state self.new).files ≡ (state self.old).files }

        ensures later { (state self.old).faults ≤ (state self.new).faults }
        ensures failed { IsErrOf result LoadFault.Failed → Rose (state self.old).faults (state self.new).faults }
        ensures missing_is_no_fault { IsErrOf result LoadFault.Missing → (state self.new).faults ≡ (state self.old).faults };

    /// Makes the file hold these bytes. Where it fails, the file holds any bytes, or is not there.
    fn save(&mut self, name: &str, bytes: &[u8]) -> Result<(), SaveFailed>
        ensures saved { OnOk result (HasSaved name.now bytes.now (state self.old) (state self.new)) }
        ensures others { ChangedOnly name.now (state self.old) (state self.new) }

        ensures later { (state self.old).faults ≤ (state self.new).faults }
        ensures failed { OnErr result (Rose (state self.old).faults (state self.new).faults) };
}
