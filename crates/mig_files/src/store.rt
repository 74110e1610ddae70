//! The store over files: disk NAME is the file NAME.disk, slot s at byte 4096 s; the journal is the file journal.mig.
ghost use Rattle.std.specs.Prelude.{ℕ, List, Contains, IsTrue, IfOk};
ghost use Rattle.mig_calls.specs.declared.places.Place.TheVariants.{Disk as DiskFile};
ghost use Rattle.mig_files.specs.Derived.{ShowsFiles};
ghost use Rattle.mig_files.specs.Seeing.{AreHeld};
ghost use Rattle.mig_files.specs.Tracking.{IsTracked};

mod serving;

use crate::disk_set::NamedDisks;
use crate::seen::SeenItems;
use crate::tracked::{Notes, Tracked};
use lru::LruCache;
use mig_base::Name;
use mig_calls::Calls;
use mig_store::Store;
use std::alloc::{AllocError, Global};
use std::num::NonZeroUsize;

/// How many files are kept open. Most systems allow 1,024 for a process.
pub const MOST_OPEN: usize = 900;

/// The store over these calls. It tells of its cells what the files tell of their bytes. A missing file, and what lies past a file's end, reads as zeros. A copy has ended when `begin` returns; a slot that holds no item isn't copied, and no item is written over or erased that was seen nowhere else. What was seen at a slot is known until this store writes to it. After a sync that failed each call fails.
#[derive(Drop)]
pub struct FileStore<C: Calls> {
    calls: C,
    tracked: Tracked,
    seen: SeenItems,
    /// Nothing was written so far: a slot that was read needs no second look.
    fresh: bool,
    ghost tracks: { IsTracked tracked.notes (C.Calls.state calls) },
    ghost held: { AreHeld (C.Calls.state calls) seen },
}

/// No disk's file is open.
fn none_open(alloc: Global) -> Result<LruCache<Name, ()>, AllocError> {
    match NonZeroUsize::new(MOST_OPEN) {
        Some(most) => LruCache::new(alloc, most),
        None => Err(AllocError),
    }
}

impl<C: Calls + Drop> FileStore<C> {
    #[tactic(auto, using(crate::proofs::Errs::err_any, crate::proofs::Holding::none_held))]
    /// The store over these calls, which has opened no file. The disks are handed in whose files the device may lack some bytes of, as where an earlier process ended without a sync; all others count so once they are looked at. An error is want of memory.
    pub fn new(alloc: Global, calls: C, dirty: NamedDisks) -> Result<FileStore<C>, AllocError>
        requires { (disk : List ℕ) → ¬ Contains dirty disk → IsTrue ((C.Calls.state calls).flushed (DiskFile disk)) }
        ensures shows { IfOk result (λ store. ShowsFiles (C.Calls.state calls) (⟦<FileStore<C> as Store>⟧.state store)) }
    {
        let open = none_open(alloc)?;
        Ok(FileStore {
            calls,
            tracked: Tracked {
                notes: Notes {
                    dirty,
                    unsynced: true,
                    claimed: false,
                    made: true,
                    lost: false,
                },
                met: NamedDisks::new(alloc),
                open,
                most: MOST_OPEN,
            },
            seen: SeenItems::new(alloc),
            fresh: true,
        })
    }
}

impl<C: Calls> FileStore<C> {
    /// The calls, with the files as the store leaves them. It takes no memory.
    pub fn into_calls(self) -> C
        ensures { ShowsFiles (C.Calls.state result) (⟦<FileStore<C> as Store>⟧.state self) }
    {
        let FileStore {
            calls,
            tracked: _tracked,
            seen: _seen,
            fresh: _,
        } = self;
        calls
    }
}
