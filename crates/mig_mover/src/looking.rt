//! Looking at the slots where items are listed.
ghost use Rattle.std.specs.Prelude.{◌≡◌, ◌<◌, IfOk, IfSome, MatchBool, length};
ghost use Rattle.mig_base.specs.Slots.{HasHeader, item_cell};
ghost use Rattle.mig_base.specs.Stores.{State, IsMoving, Looks, HasCause};
ghost use Rattle.mig_base.specs.Texts.{item_name};
ghost use Rattle.sha2.specs.Sha256.{sha256};

use crate::sights::Sight;
use mig_base::{Input, ItemId};
use mig_jobs::{has_header, spot_cell};
use mig_journal::digest_of;
use mig_store::{Store, StoreFailed};

/// Looks at the slot where an item is listed: whether its header names the item, and the digest of its bytes.
///
/// # Errors
///
/// A fault of the store.
pub fn sight<S: Store>(input: &Input, item: ItemId, store: &mut S) -> Result<Sight, StoreFailed>
    requires { item.0 < length input.now.items }
    ensures named { IfOk result (λ sight. ¬ IsMoving (S.state store.old) (item_cell input.now item.0) → IfSome ((S.state store.old).reads (item_cell input.now item.0)) (λ slot.
        MatchBool sight.named (HasHeader (item_name input.now item.0) slot) (¬ HasHeader (item_name input.now item.0) slot))) }
    ensures digest { IfOk result (λ sight. ¬ IsMoving (S.state store.old) (item_cell input.now item.0) → IfSome ((S.state store.old).reads (item_cell input.now item.0)) (λ slot. sight.digest ≡ sha256 slot)) }
    ensures change { Looks (S.state store.old) (S.state store.new) }
    ensures cause { HasCause (S.state store.old) (S.state store.new) result }
{
    input.keeps_rules();
    let place = item.0 as usize;
    let mut slot = [0u8; 4096];
    store.read(&spot_cell(input, input.now()[place]), &mut slot)?;
    Ok(Sight {
        named: has_header(&slot, &input.items()[place]),
        digest: digest_of(&slot),
    })
}
