//! Checks over numbers.
ghost use Rattle.std.specs.Prelude.{◌≡◌, ◌⊎◌, IfErr, IfOk};
ghost use Rattle.mig_numbers.specs.Judged.{AreRightNumbers, IsBlamed, IsUnspelled, blame_by, right, says};
ghost use Rattle.mig_numbers.specs.Refusals.{Refuses};
ghost use Rattle.mig_numbers.specs.Spelled.{IsCheckFault};

use crate::numbers::{
    DiskNumbers, Found, ItemNumbers, Judged, NumbersRefusal, Refused, ShiftNumbers,
};
use crate::reading::read_numbers;
use crate::spelling::{read_found, read_rows, row_fault};
use crate::writing::refused_in;
use mig_base::Blame;
use mig_check::judge;
use std::alloc::Global;

/// Numbers of a verdict.
fn says(what: u32, round: u32, place: u32, kept: u32, counted: u32) -> Judged
    ensures { result ≡ says what round place kept counted }
{
    Judged {
        what,
        round,
        place,
        kept,
        counted,
    }
}

/// The numbers of a blame.
fn blame_by(blame: Blame) -> Judged
    ensures { result ≡ blame_by blame }
{
    match blame {
        Blame::EmptyRound { round } => says(2, round, 0, 0, 0),
        Blame::NotHere { round, item } => says(3, round, item.0, 0, 0),
        Blame::TwiceInRound { round, item } => says(4, round, item.0, 0, 0),
        Blame::SlotNotFree { round, item } => says(5, round, item.0, 0, 0),
        Blame::OverLimit { round, disk, count } => says(6, round, disk.0, 0, count),
        Blame::WrongEnd { item } => says(7, 0, item.0, 0, 0),
        Blame::MovedTooOften { item, count } => says(8, 0, item.0, 0, count),
        Blame::RoundsDiffer { kept, counted } => says(9, 0, 0, kept, counted),
        Blame::QuotientDiffers { kept, counted } => says(10, 0, 0, kept, counted),
        Blame::ClassDiffers => says(11, 0, 0, 0, 0),
        Blame::LoadDiffers { kept, counted } => says(12, 0, 0, kept, counted),
        Blame::ValueDiffers { kept, counted } => says(13, 0, 0, kept, counted),
        Blame::Memory => says(0, 0, 0, 0, 0),
    }
}

/// Why a plan isn't right.
#[derive(Clone, Copy, Drop)]
enum CheckFault {
    /// The numbers stand for no input, or memory is wanting.
    Refused(NumbersRefusal),
    /// They spell no plan with a certificate.
    Unspelled(Judged),
    /// The plan or what was found is wrong.
    Blamed(Judged),
}

/// Judges a plan, and what was found.
fn judged(
    alloc: Global,
    split: bool,
    disks: &[DiskNumbers],
    items: &[ItemNumbers],
    rows: &[ShiftNumbers],
    set: &[u32],
    found: Found,
) -> Result<Judged, CheckFault>
    ensures right { IfOk result (AreRightNumbers split disks.now items.now rows.now set.now found) }
    ensures fault { IfErr result (IsCheckFault split disks.now items.now rows.now set.now found) }
{
    let input = match read_numbers(alloc, split, disks, items) {
        Ok(input) => input,
        Err(why) => return Err(CheckFault::Refused(why)),
    };
    let cert = match read_found(alloc, &input, set, found) {
        Ok(Some(cert)) => cert,
        Ok(None) => return Err(CheckFault::Unspelled(says(15, 0, 0, 0, 0))),
        Err(_) => return Err(CheckFault::Refused(NumbersRefusal::Memory)),
    };
    if let Some(row) = row_fault(disks, items, found.rounds, rows) {
        return Err(CheckFault::Unspelled(says(14, 0, row, 0, 0)));
    }
    let Ok(plan) = read_rows(alloc, disks, items, found.rounds, rows) else {
        return Err(CheckFault::Refused(NumbersRefusal::Memory));
    };
    match judge(alloc, &input, &plan, &cert) {
        Ok(_) => Ok(right(found)),
        Err(Blame::Memory) => Err(CheckFault::Refused(NumbersRefusal::Memory)),
        Err(blame) => Err(CheckFault::Blamed(blame_by(blame))),
    }
}

/// The numbers of a plan that is right.
fn right(found: Found) -> Judged
    ensures { result ≡ right found }
{
    let is_shortest = found.rounds == found.value;
    says(if is_shortest { 0 } else { 1 }, 0, 0, 0, 0)
}

/// Judges a plan over numbers, and what was found with it: whether the plan runs and moves each item that is to go to another disk once, and no
/// other, and what was found is so. A shift takes its item from where the item is in the beginning. What is wrong first is told; or why the numbers
/// stand for no input.
///
/// Statuses: 0 where nothing is wrong, 1 where something is, 3 where disks and items are refused, 7 where memory is wanting, 10 where shifts and what
/// was found are of no plan.
pub fn check_numbers(
    alloc: Global,
    split: bool,
    disks: &[DiskNumbers],
    items: &[ItemNumbers],
    shifts: &[ShiftNumbers],
    set: &[u32],
    found: &Found,
    verdict: &mut Judged,
    refused: &mut Refused,
) -> u32
    ensures right { result ≡ 0 → AreRightNumbers split disks.now items.now shifts.now set.now found.now verdict.new }
    ensures blamed { result ≡ 1 → IsBlamed split disks.now items.now shifts.now set.now found.now verdict.new }
    ensures refused { result ≡ 3 → Refuses split disks.now items.now refused.new }
    ensures unspelled { result ≡ 10 → IsUnspelled split disks.now items.now shifts.now set.now found.now verdict.new }
    ensures statuses { (result ≡ 0) ⊎ (result ≡ 1) ⊎ (result ≡ 3) ⊎ (result ≡ 7) ⊎ (result ≡ 10) }
{
    match judged(alloc, split, disks, items, shifts, set, *found) {
        Ok(right) => {
            *verdict = right;
            0
        }
        Err(CheckFault::Blamed(blame)) => {
            *verdict = blame;
            1
        }
        Err(CheckFault::Unspelled(what)) => {
            *verdict = what;
            10
        }
        Err(CheckFault::Refused(NumbersRefusal::Memory)) => 7,
        Err(CheckFault::Refused(why)) => {
            *refused = refused_in(why);
            3
        }
    }
}
