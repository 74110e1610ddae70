//! Migrations of three numbers.
ghost use Rattle.std.specs.Prelude.{◌≡◌, ◌↔◌, IfOk, IsTrue, false};
ghost use Rattle.mig_base.specs.InputLists.{is_duplex};
ghost use Rattle.mig_base.specs.Targets.{IsRoomy};
ghost use Rattle.mig_gen.specs.MadeCases.{IsCaseSize, case_of};

use crate::lists::{make_disks, make_items, number_next, number_spots};
use mig_base::{Input, MAX_DISKS, MAX_ITEMS, MAX_LIMIT};
use std::alloc::{AllocError, Global};

/// Whether a case can be made of these numbers: 2 to 1,024 disks, at least one item from each disk to each other, at
/// most 65,536 items in all, and a limit of 1 to 1,024.
pub fn is_case_size(disks: u64, per_pair: u64, limit: u64) -> bool
    ensures { IsTrue result ↔ IsCaseSize disks per_pair limit }
{
    let most = MAX_ITEMS as u64;
    if disks < 2 || disks > MAX_DISKS as u64 || per_pair < 1 || per_pair > most {
        return false;
    }
    disks * (disks - 1) * per_pair <= most && limit >= 1 && limit <= u64::from(MAX_LIMIT)
}

/// The migration of so many disks of one limit, each with `per_pair` items for each other disk.
///
/// Disks are `d0`, `d1` and so on, items are `i0`, `i1` and so on. The items of `d0` come first, those of them that go
/// to the first other disk before the others, and so on. A disk's items are in its slots from 0 on, and it has twice as
/// many slots as items. Errs for want of memory only.
pub fn make_case(alloc: Global, disks: u32, per_pair: u32, limit: u32) -> Result<Input, AllocError>
    requires { IsCaseSize disks per_pair limit }
    ensures case { IfOk result (λ input. input ≡ case_of disks per_pair limit) }
    ensures roomy { IfOk result IsRoomy }
    ensures joint { IfOk result (λ input. is_duplex input.disks ≡ false) }
{
    let on_each = (disks - 1) * per_pair;
    let items = disks * on_each;
    let disks = make_disks(alloc, disks, limit, 2 * on_each)?;
    let names = make_items(alloc, items)?;
    let spots = number_spots(alloc, items, on_each)?;
    let next = number_next(alloc, items, on_each, per_pair)?;
    Ok(Input::new(disks, names, spots, next))
}
