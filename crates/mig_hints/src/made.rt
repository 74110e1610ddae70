//! The bytes that `fill` writes.
ghost use Rattle.std.specs.Prelude.{◌≡◌, ◌≤◌, ◌<◌, ◌+◌, ◌-◌, ◌%◌, ◌↔◌, ℕ, IsTrue, length, slice_index_or};
ghost use Rattle.mig_hints.specs.MadeBytes.{HoldsNames};

/// How many bytes a slot has.
pub(crate) const SLOT: usize = 4096;

/// Where the header of a slot ends.
pub(crate) const HEADER: usize = 34;

/// Whether the bytes after a slot's header are those that `fill` writes: the item's name over and over.
pub(crate) fn holds_made(bytes: &[u8; SLOT], name: &[u8]) -> bool
    requires { 1 ≤ length name.now }
    ensures { IsTrue result ↔ HoldsNames bytes.now name.now }
{
    for place in HEADER..SLOT {
        if bytes[place] != name[(place - HEADER) % name.len()] {
            return false;
        }
    }
    true
}
