//! Which file a cell lies in, and where.
ghost use Rattle.std.specs.Prelude.{◌≡◌, ◌+◌, ◌<◌, ◌^◌};
ghost use Rattle.mig_base.specs.Cells.{cell_len};
ghost use Rattle.mig_calls.specs.Places.{file_of, offset_of};

use mig_base::Cell;
use mig_calls::Place;

/// How many bytes of a disk's file a slot takes.
const SLOT: u64 = 4096;

/// How many bytes of the journal's file a cell takes: a device writes a sector whole.
const SECTOR: u64 = 512;

/// The file of a cell, and the byte that it begins at. The journal has the head, the gate and then the marks, which count from 1.
pub fn place_of(cell: &Cell) -> (Place, u64)
    ensures file { result.0 ≡ file_of cell.now }
    ensures offset { result.1 ≡ offset_of cell.now }
    ensures room { result.1 + cell_len cell.now < 2 ^ 62 }
{
    match cell {
        Cell::Slot { disk, slot } => (Place::Disk(*disk), SLOT * u64::from(*slot)),
        Cell::Head => (Place::Journal, 0),
        Cell::Gate => (Place::Journal, SECTOR),
        Cell::Mark { n } => (Place::Journal, mark_at(*n)),
    }
}

/// Where a mark lies in the journal. Mark 0 is none of a plan's.
fn mark_at(n: u32) -> u64
    ensures at { result ≡ Rattle.mig_calls.specs.Places.mark_at n }
    ensures room { result < 2 ^ 61 }
{
    if n == 0 {
        return SECTOR / 2;
    }
    SECTOR * (u64::from(n) + 1)
}

/// The byte of its file that follows a cell.
pub fn end_of(cell: &Cell) -> u64
    ensures { result ≡ offset_of cell.now + cell_len cell.now }
{
    let (_, offset) = place_of(cell);
    offset + cell.len() as u64
}
