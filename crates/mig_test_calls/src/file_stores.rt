//! The store over the working folder, and over files in memory.
ghost use Rattle.std.specs.Prelude.{IsTrue, ℕ, List};
ghost use Rattle.mig_calls.specs.declared.places.Place.TheVariants.{Disk as DiskFile};

use mig_calls::{Calls, FilePick, MemCalls};
use mig_files::{FileStore, NamedDisks};
use mig_host::{HostSystem, SystemCalls};
use std::fs::File;
use std::panic::Expect;
use std::process::Abort;
use std::rt::Files;

/// The calls over the working folder, by this runtime's files.
pub type RealCalls<'a, R> = SystemCalls<HostSystem<'a, R>>;

/// Calls over the working folder that have opened no file.
pub fn real_calls<'a, R: AllocGlobal + Files<File = File> + Eprint>(rt: &'a R) -> RealCalls<'a, R> {
    SystemCalls::new(HostSystem::new(rt, rt.alloc()))
}

/// A store over these calls that has opened no file.
pub fn store_over<C: Calls + Drop>(rt: &(impl Abort + AllocGlobal), calls: C) -> FileStore<C>
    requires { (disk : List ℕ) → IsTrue ((C.Calls.state calls).flushed (DiskFile disk)) }
{
    FileStore::new(rt.alloc(), calls, NamedDisks::new(rt.alloc())).expect(rt, "ample memory")
}

/// A store over the working folder.
pub fn real_store<'a, R: Abort + AllocGlobal + Files<File = File> + Eprint>(
    rt: &'a R,
) -> FileStore<RealCalls<'a, R>> {
    store_over(rt, SystemCalls::new(HostSystem::new(rt, rt.alloc())))
}

/// A store over the files in memory that a crash of this one leaves.
pub fn crashed(
    rt: &(impl Abort + AllocGlobal),
    store: FileStore<MemCalls>,
    pick: FilePick,
) -> FileStore<MemCalls> {
    let calls = store.into_calls().crash(pick).expect(rt, "ample memory");
    store_over(rt, calls)
}
