//! What slots show of the items in them.
ghost use Rattle.std.specs.Prelude.{◌≡◌, ◌<◌, [], All, IfOk, MatchBool, length};
ghost use Rattle.mig_base.specs.Images.{NoCell};
ghost use Rattle.mig_base.specs.Slots.{HasHeader, IsThere, IsLost, IsUsed, IsUnused};
ghost use Rattle.mig_base.specs.Stores.{State, flights, ChangesOnly, HasCause};

use crate::jobs::spot_cell;
use mig_base::{Input, Name, Spot};
use mig_store::{Store, StoreFailed, padded};

/// Whether a slot's header names an item.
pub fn has_header(slot: &[u8], name: &Name) -> bool
    requires { length slot.now ≡ 4096 }
    ensures { MatchBool result (HasHeader name.now slot.now) (¬ HasHeader name.now slot.now) }
{
    if slot[0] != 1 {
        return false;
    }
    if slot[1] as usize != name.bytes().len() {
        return false;
    }
    slot[2..34] == padded(name)[..]
}

/// Whether the header at an item's spot of now names it. The slot is read into the given bytes.
///
/// # Errors
///
/// A fault of the store.
pub fn is_there<S: Store>(
    input: &Input,
    store: &mut S,
    item: usize,
    slot: &mut [u8; 4096],
) -> Result<bool, StoreFailed>
    requires item { item < length input.now.items }
    requires none { flights (S.state store.old) ≡ [] }
    ensures answer { IfOk result (λ yes. MatchBool yes (IsThere input.now (S.state store.old).reads item) (IsLost input.now (S.state store.old).reads item)) }
    ensures change { ChangesOnly NoCell (S.state store.old) (S.state store.new) }
    ensures cause { HasCause (S.state store.old) (S.state store.new) result }
{
    input.keeps_rules();
    store.read(&spot_cell(input, input.now()[item]), slot)?;
    Ok(has_header(slot, &input.items()[item]))
}

/// Whether the slot of a spot is used. It is read into the given bytes.
///
/// # Errors
///
/// A fault of the store.
pub fn is_used<S: Store>(
    input: &Input,
    store: &mut S,
    spot: Spot,
    slot: &mut [u8; 4096],
) -> Result<bool, StoreFailed>
    requires disk { spot.disk.0 < length input.now.disks }
    requires none { flights (S.state store.old) ≡ [] }
    ensures answer { IfOk result (λ yes. MatchBool yes (IsUsed input.now (S.state store.old).reads spot) (IsUnused input.now (S.state store.old).reads spot)) }
    ensures change { ChangesOnly NoCell (S.state store.old) (S.state store.new) }
    ensures cause { HasCause (S.state store.old) (S.state store.new) result }
{
    store.read(&spot_cell(input, spot), slot)?;
    Ok(slot[0] == 1)
}
