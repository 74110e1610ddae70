//! Stores in memory for small clusters.
ghost use Rattle.std.specs.Prelude.{◌≡◌, []};
ghost use Rattle.mig_store.specs.Memories.{aloft};

use indexmap::IndexSet;
use mig_base::{Cell, Name};
use mig_store::MemStore;
use std::panic::Expect;
use std::process::Abort;

/// A slot of the disk that the letter names.
pub fn slot_of(disk: u8, slot: u32) -> Cell {
    match Name::read(&[disk]) {
        Some(disk) => Cell::Slot { disk, slot },
        None => Cell::Head,
    }
}

/// The head, the gate, the first four marks, and the first four slots of the disks a, b and c.
fn few_cells(rt: &(impl Abort + AllocGlobal)) -> IndexSet<Cell> {
    let mut cells = IndexSet::new(rt.alloc());
    cells.insert(Cell::Head).expect(rt, "ample memory");
    cells.insert(Cell::Gate).expect(rt, "ample memory");
    for n in 0..4 {
        cells
            .insert(Cell::Mark { n: n + 1 })
            .expect(rt, "ample memory");
        for disk in [b'a', b'b', b'c'] {
            cells.insert(slot_of(disk, n)).expect(rt, "ample memory");
        }
    }
    cells
}

#[tactic(auto, using(mig_keys::proofs::KeyLists::different_cells))]
/// A store of these cells, all zeros. Its calls with these numbers fail.
pub fn store_of(rt: &(impl Abort + AllocGlobal), failing: &[u64]) -> MemStore
    ensures { aloft result ≡ [] }
{
    let failing = Vec::from_slice(rt.alloc(), failing).expect(rt, "ample memory");
    MemStore::new(rt.alloc(), few_cells(rt).as_slice(), 200, failing).expect(rt, "ample memory")
}

/// SHA-256 of the plan of two rounds.
pub const DIGEST: [u8; 32] =
    *b"\x6e\x02\xb0\x0f\x13\xc0\xb1\xaf\x17\x33\xca\x34\x37\xd1\xb2\x8e\x36\xfc\xd8\x62\xdf\x45\xdc\x43\x18\x4f\xe6\xeb\x3f\x48\xcf\x4e";

/// SHA-256 of the plan of the items that change places by the third disk.
pub const BY_THIRD_DIGEST: [u8; 32] =
    *b"\x54\x97\x34\x87\xf0\x67\x67\xca\xf2\x16\x83\x9f\xbd\x63\xb8\xce\xc6\x9d\xd6\xd3\x93\x1f\xf4\xad\xbe\xf0\x3c\x75\x48\x73\xe1\x89";

/// The journal says that the plan with this digest and so many rounds is carried out.
pub fn is_done(store: &MemStore, digest: &[u8; 32], rounds: u32) -> bool {
    for n in 1..=rounds {
        if store.cell(&Cell::Mark { n }) != Some([1].as_slice()) {
            return false;
        }
    }
    store.cell(&Cell::Gate) == Some([1].as_slice())
        && store.cell(&Cell::Head) == Some(digest.as_slice())
}

/// Each of the first two disks holds what the other one held in the earlier store.
pub fn are_exchanged(earlier: &MemStore, store: &MemStore) -> bool {
    for slot in 0..4 {
        let one = slot_of(b'a', slot);
        let other = slot_of(b'b', slot);
        if store.cell(&one) != earlier.cell(&other) || store.cell(&other) != earlier.cell(&one) {
            return false;
        }
    }
    true
}
