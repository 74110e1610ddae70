//! What is handed back.
ghost use Rattle.std.specs.Prelude.{◌≡◌, ◌≤◌, ◌<◌, ◌+◌, ◌^◌, ◌++◌, All, List, length, map, slice_set};
ghost use Rattle.mig_base.specs.Bounding.{side_place};
ghost use Rattle.mig_base.specs.DiskNumbers.{numbers};
ghost use Rattle.mig_numbers.specs.Handed.{IsHanded, class_number, covered, found_of, plan_rows, row_of, set_in};
ghost use Rattle.mig_numbers.specs.Refusals.{refused_of};
ghost use Rattle.mig_numbers.specs.declared.numbers.ShiftNumbers.{ShiftNumbers};

use crate::numbers::{Found, NumbersRefusal, Refused, ShiftNumbers};
use mig_base::{Bound, Cert, Class, DiskId, MAX_ROUNDS, MAX_SHIFTS, Plan, Shift, Side};

/// A shift in numbers.
fn row_of(round: u32, shift: Shift) -> ShiftNumbers
    ensures { result ≡ row_of round shift }
{
    ShiftNumbers {
        item: shift.item.0,
        to_disk: shift.to.disk.0,
        to_slot: shift.to.slot,
        round,
    }
}

/// Puts an element at a place, where the slice has it.
fn put<T: Copy>(slice: &mut [T], at: usize, element: T)
    ensures { slice.new ≡ slice_set slice.old at element }
{
    if at < slice.len() {
        slice[at] = element;
    }
}

/// Puts the shifts of a round behind so many rows, and answers how many rows there are then.
fn write_round(rows: &mut [ShiftNumbers], at: usize, round: u32, shifts: &[Shift]) -> usize
    requires { at + length shifts.now < 2 ^ 48 }
    ensures count { result ≡ at + length shifts.now }
    ensures rows { (old before : List ShiftNumbers) → rows.old ≡ covered old before → at ≡ length before → rows.new ≡ covered old (before ++ map (row_of round) shifts.now) }
{
    let mut place = at;
    for shift in shifts {
        put(rows, place, row_of(round, *shift));
        place += 1;
    }
    place
}

/// Puts the shifts of a plan, as far as they fit, and answers how many there are.
pub(crate) fn write_plan(rows: &mut [ShiftNumbers], plan: &Plan) -> usize
    requires rounds { length plan.now ≤ MAX_ROUNDS }
    requires shifts { All (λ round. length round ≤ MAX_SHIFTS) plan.now }
    ensures { IsHanded (plan_rows plan.now) rows.old rows.new result }
{
    let mut at = 0;
    for (k, round) in plan.rounds().iter().enumerate() {
        at = write_round(rows, at, k as u32 + 1, round.shifts());
    }
    at
}

/// A class in numbers.
fn class_in(class: Class) -> u32
    ensures { result ≡ class_number class }
{
    match class {
        Class::Even => 0,
        Class::General => 1,
        Class::Duplex => 2,
    }
}

/// A side in numbers.
fn side_in(side: Side) -> u32
    ensures { result ≡ side_place side }
{
    match side {
        Side::Outgoing => 0,
        Side::Incoming => 1,
    }
}

/// A certificate in numbers.
pub(crate) fn found_in(cert: &Cert) -> Found
    ensures { result ≡ found_of cert.now }
{
    let none = Found {
        rounds: cert.rounds,
        quotient: cert.quotient,
        class: class_in(cert.class),
        bound: 0,
        disk: 0,
        side: 0,
        load: 0,
        value: 0,
    };
    match &cert.bound {
        Bound::Nothing => none,
        Bound::OfDisk { disk, load, value } => Found {
            bound: 1,
            disk: disk.0,
            load: *load,
            value: *value,
            ..none
        },
        Bound::OfSide {
            disk,
            side,
            load,
            value,
        } => Found {
            bound: 2,
            disk: disk.0,
            side: side_in(*side),
            load: *load,
            value: *value,
            ..none
        },
        Bound::OfSet { inside, value, .. } => Found {
            bound: 3,
            load: *inside,
            value: *value,
            ..none
        },
    }
}

/// The disks of a bound that is a set.
fn ids_in(bound: &Bound) -> &[DiskId]
    ensures { numbers result.now ≡ set_in bound.now }
{
    match bound {
        Bound::OfSet { disks, .. } => disks.ids(),
        Bound::Nothing | Bound::OfDisk { .. } | Bound::OfSide { .. } => &[],
    }
}

/// Puts the disks of a bound that is a set, as far as they fit, and answers how many there are.
pub(crate) fn write_set(set: &mut [u32], bound: &Bound) -> usize
    ensures { IsHanded (set_in bound.now) set.old set.new result }
{
    write_ids(set, ids_in(bound))
}

/// Puts disks, as far as they fit, and answers how many there are.
pub(crate) fn write_ids(set: &mut [u32], ids: &[DiskId]) -> usize
    ensures { IsHanded (numbers ids.now) set.old set.new result }
{
    for (k, id) in ids.iter().enumerate() {
        put(set, k, id.0);
    }
    ids.len()
}

/// A cause, and the place where it is.
pub(crate) fn refusal(cause: u32, place: u32) -> Refused
    ensures { result ≡ record { cause = cause; place = place; needs = 0; has = 0 } }
{
    Refused {
        cause,
        place,
        needs: 0,
        has: 0,
    }
}

/// A refusal in numbers.
pub(crate) fn refused_in(why: NumbersRefusal) -> Refused
    ensures { result ≡ refused_of why }
{
    match why {
        NumbersRefusal::Memory => refusal(0, 0),
        NumbersRefusal::TooManyDisks => refusal(1, 0),
        NumbersRefusal::TooManyItems => refusal(2, 0),
        NumbersRefusal::OutOfRange { disk } => refusal(3, disk),
        NumbersRefusal::UnknownDisk { item } => refusal(4, item),
        NumbersRefusal::SlotTooHigh { item } => refusal(5, item),
        NumbersRefusal::SlotTaken { item } => refusal(6, item),
        NumbersRefusal::UnknownNext { item } => refusal(7, item),
        NumbersRefusal::NoRoom { disk, needs, slots } => Refused {
            cause: 8,
            place: disk,
            needs,
            has: slots,
        },
    }
}
