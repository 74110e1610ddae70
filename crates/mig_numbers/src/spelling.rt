//! The plan and the certificate that numbers spell.
ghost use Rattle.std.specs.Prelude.{◌≡◌, ◌≤◌, ◌<◌, ◌↔◌, [], All, AllPairs, IfNone, IfOk, IfSome, IsTrue, MatchOption, length, map, slice_index_or, vec_len, ◌⊎◌, ◌-◌};
ghost use Rattle.mig_base.specs.Certificates.{CertFits, IsOfKind, is_duplex_class};
ghost use Rattle.mig_base.specs.Bounding.{BoundFits};
ghost use Rattle.mig_base.specs.Transfers.{transfer_graph};
ghost use Rattle.mig_numbers.specs.Judged.{AreRowsSound, IsFirstWrongRow, IsFoundSound, IsRowSound, bound_by, cert_by, class_by, disk_id, plan_by, shift_by, side_by};
ghost use Rattle.mig_numbers.specs.Spelled.{AreSorted, round_shifts};

use crate::numbers::{DiskNumbers, Found, ItemNumbers, ShiftNumbers};
use crate::writing::found_in;
use mig_base::{
    Bound, Cert, Class, DiskId, DiskSet, Input, ItemId, MAX_ROUNDS, MAX_SHIFTS, MAX_SLOTS, Plan,
    Round, Shift, Side, Spot,
};
use std::alloc::{AllocError, Global};

/// Whether a row at a place can be one of a plan.
fn is_row_sound(
    disks: &[DiskNumbers],
    items: &[ItemNumbers],
    rounds: u32,
    place: usize,
    row: ShiftNumbers,
) -> bool
    ensures { IsTrue result ↔ IsRowSound disks.now items.now rounds place row }
{
    let there = (row.item as usize) < items.len() && (row.to_disk as usize) < disks.len();
    let in_rounds = 1 <= row.round && row.round <= rounds;
    place < MAX_SHIFTS && there && row.to_slot < MAX_SLOTS && in_rounds
}

/// The first row that can't be one of a plan.
pub(crate) fn row_fault(
    disks: &[DiskNumbers],
    items: &[ItemNumbers],
    rounds: u32,
    rows: &[ShiftNumbers],
) -> Option<u32>
    ensures { MatchOption result (AreRowsSound disks.now items.now rounds rows.now (length rows.now)) (IsFirstWrongRow disks.now items.now rounds rows.now) }
{
    for (k, row) in rows.iter().enumerate() {
        if !is_row_sound(disks, items, rounds, k, *row) {
            return Some(k as u32);
        }
    }
    None
}

/// A row's shift.
fn shift_by(items: &[ItemNumbers], row: ShiftNumbers) -> Shift
    requires { row.item < length items.now }
    ensures { result ≡ shift_by items.now row }
{
    let item = items[row.item as usize];
    Shift {
        item: ItemId(row.item),
        from: Spot {
            disk: DiskId(item.disk),
            slot: item.slot,
        },
        to: Spot {
            disk: DiskId(row.to_disk),
            slot: row.to_slot,
        },
    }
}

/// No shifts in each of so many rounds.
fn empty_rounds(alloc: Global, rounds: u32) -> Result<Vec<Vec<Shift>>, AllocError>
    ensures len { IfOk result (λ v. vec_len v ≡ rounds) }
    ensures empty { IfOk result (λ v. All (λ round. round.items ≡ []) v.items) }
{
    let mut made = Vec::with_capacity(alloc, rounds as usize)?;
    for _ in 0..rounds {
        made.push(Vec::new(alloc))?;
    }
    Ok(made)
}

/// The shifts of each round.
fn sort_rows(
    alloc: Global,
    items: &[ItemNumbers],
    rounds: u32,
    rows: &[ShiftNumbers],
) -> Result<Vec<Vec<Shift>>, AllocError>
    requires items { All (λ row. row.item < length items.now) rows.now }
    requires from_one { All (λ row. 1 ≤ row.round) rows.now }
    requires in_rounds { All (λ row. row.round ≤ rounds) rows.now }
    ensures { IfOk result (λ v. AreSorted items.now rows.now rounds (length rows.now) v.items) }
{
    let mut made = empty_rounds(alloc, rounds)?;
    for row in rows {
        let shift = shift_by(items, *row);
        made[(row.round - 1) as usize].push(shift)?;
    }
    Ok(made)
}

/// The plan of these rounds.
fn plan_of(alloc: Global, made: Vec<Vec<Shift>>) -> Result<Plan, AllocError>
    ensures { IfOk result (λ plan. plan ≡ map round_shifts made.items) }
{
    let mut rounds = Vec::with_capacity(alloc, made.len())?;
    for round in made {
        rounds.push(Round::of(round))?;
    }
    Ok(Plan::of(rounds))
}

/// The plan that rows spell.
pub(crate) fn read_rows(
    alloc: Global,
    disks: &[DiskNumbers],
    items: &[ItemNumbers],
    rounds: u32,
    rows: &[ShiftNumbers],
) -> Result<Plan, AllocError>
    requires { AreRowsSound disks.now items.now rounds rows.now (length rows.now) }
    ensures { IfOk result (λ plan. plan ≡ plan_by items.now rows.now rounds) }
{
    let made = sort_rows(alloc, items, rounds, rows)?;
    plan_of(alloc, made)
}

/// Whether the number at a place is above the one before it.
fn is_above(set: &[u32], k: usize) -> bool
    requires { k < length set.now }
    ensures { IsTrue result ↔ ((k ≡ 0) ⊎ (slice_index_or set.now (k - 1) 0 < slice_index_or set.now k 0)) }
{
    k == 0 || set[k - 1] < set[k]
}

/// Whether numbers are in order, and each is there once.
fn is_increasing(set: &[u32]) -> bool
    ensures { IsTrue result ↔ AllPairs (λ v w. v < w) set.now }
{
    for k in 0..set.len() {
        if !is_above(set, k) {
            return false;
        }
    }
    true
}

/// A class by its number.
fn class_by(number: u32) -> Class
    ensures { result ≡ class_by number }
{
    if number == 0 {
        Class::Even
    } else if number == 1 {
        Class::General
    } else {
        Class::Duplex
    }
}

/// A side by its number.
fn side_by(number: u32) -> Side
    ensures { result ≡ side_by number }
{
    if number == 0 {
        Side::Outgoing
    } else {
        Side::Incoming
    }
}

/// Disks by their numbers.
fn ids_by(alloc: Global, set: &[u32]) -> Result<Vec<DiskId>, AllocError>
    ensures { IfOk result (λ v. v.items ≡ map disk_id set.now) }
{
    set.iter().map(|disk| DiskId(*disk)).collect(alloc)
}

/// The disks of a set.
fn set_by(alloc: Global, set: &[u32]) -> Result<DiskSet, AllocError>
    requires { AllPairs (λ v w. v < w) set.now }
    ensures { IfOk result (λ made. made ≡ map disk_id set.now) }
{
    let ids = ids_by(alloc, set)?;
    Ok(DiskSet::of(ids))
}

/// The bound that was found.
fn bound_by(alloc: Global, set: &[u32], found: Found) -> Result<Bound, AllocError>
    requires { AllPairs (λ v w. v < w) set.now }
    ensures { IfOk result (λ bound. bound ≡ bound_by found set.now) }
{
    let disk = DiskId(found.disk);
    if found.bound == 0 {
        return Ok(Bound::Nothing);
    }
    if found.bound == 1 {
        return Ok(Bound::OfDisk {
            disk,
            load: found.load,
            value: found.value,
        });
    }
    if found.bound == 2 {
        return Ok(Bound::OfSide {
            disk,
            side: side_by(found.side),
            load: found.load,
            value: found.value,
        });
    }
    Ok(Bound::OfSet {
        disks: set_by(alloc, set)?,
        inside: found.load,
        value: found.value,
    })
}

/// Whether a bound is one of limits of this kind.
fn is_of_kind(duplex: bool, bound: &Bound) -> bool
    ensures { IsTrue result ↔ IsOfKind duplex bound.now }
{
    match bound {
        Bound::Nothing => true,
        Bound::OfDisk { .. } | Bound::OfSet { .. } => !duplex,
        Bound::OfSide { .. } => duplex,
    }
}

/// Whether a class is one of limits of this kind.
fn is_class_of(duplex: bool, class: Class) -> bool
    ensures { IsTrue result ↔ (is_duplex_class class ≡ duplex) }
{
    match class {
        Class::Even | Class::General => !duplex,
        Class::Duplex => duplex,
    }
}

/// Whether all these disks are among the first so many.
fn are_there(count: usize, ids: &[DiskId]) -> bool
    ensures { IsTrue result ↔ All (λ disk. disk.0 < count) ids.now }
{
    for id in ids {
        if id.0 as usize >= count {
            return false;
        }
    }
    true
}

/// Whether the disks of a bound are there.
fn is_within(input: &Input, bound: &Bound) -> bool
    ensures { IsTrue result ↔ BoundFits (transfer_graph input.now) bound.now }
{
    let count = input.disks().len();
    match bound {
        Bound::Nothing => true,
        Bound::OfDisk { disk, .. } | Bound::OfSide { disk, .. } => (disk.0 as usize) < count,
        Bound::OfSet { disks, .. } => are_there(count, disks.ids()),
    }
}

/// Whether a certificate fits the input.
fn fits(input: &Input, cert: &Cert) -> bool
    ensures { IsTrue result ↔ CertFits input.now cert.now }
{
    let duplex = input.duplex();
    let of_kind = is_class_of(duplex, cert.class) && is_of_kind(duplex, &cert.bound);
    of_kind && is_within(input, &cert.bound)
}

/// The certificate that was found, where there is one and it fits.
pub(crate) fn read_found(
    alloc: Global,
    input: &Input,
    set: &[u32],
    found: Found,
) -> Result<Option<Cert>, AllocError>
    ensures cert { IfOk result (λ made. IfSome made (λ cert. (cert ≡ cert_by found set.now) × IsFoundSound input.now set.now found)) }
    ensures none { IfOk result (λ made. IfNone made (¬ IsFoundSound input.now set.now found)) }
{
    if found.rounds as usize > MAX_ROUNDS || !is_increasing(set) {
        return Ok(None);
    }
    let cert = Cert {
        rounds: found.rounds,
        quotient: found.quotient,
        class: class_by(found.class),
        bound: bound_by(alloc, set, found)?,
    };
    if found_in(&cert) == found && fits(input, &cert) {
        Ok(Some(cert))
    } else {
        Ok(None)
    }
}
