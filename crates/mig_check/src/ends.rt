//! The limits of disks in a round. Joint limits are one part of ends to count, split limits two. A round costs time in proportion to its own shifts: only the
//! disks at their ends are looked at, and their counts are set back to 0 behind it.
ghost use Rattle.std.specs.Prelude.{◌≡◌, ℕ, ◌+◌, ◌-◌, ◌^◌, ◌<◌, ◌≤◌, All, IfNone, IfSome, MatchOption, false, if◌then◌else◌, length, map, slice_index, true};
ghost use Rattle.mig_base.specs.InputLists.{IsDiskInRange, is_duplex};
ghost use Rattle.mig_base.specs.Transfers.{KeepsLimits, load, touches};
ghost use Rattle.mig_base.specs.Judging.{IsOver};
ghost use Rattle.mig_base.specs.Running.{ShiftFits, transfer_of};
ghost use Rattle.mig_check.specs.Parts.{IsLeastOver, IsLesserOf, KeepsPart, counts_at, part_load};
ghost use Rattle.mig_check.specs.Tables.{IsCovered, IsFoundOver, KeepsPartLimit};

use crate::parts::{Part, part_limit};
use mig_base::{Disk, DiskId, Input, MAX_SHIFTS, Shift};

/// Counts a shift at its two disks, or at its one.
fn count_both(counts: &mut [u32], s: &Shift)
    requires from { s.now.from.disk.0 < length counts.old }
    requires to { s.now.to.disk.0 < length counts.old }
    requires room { All (λ n. n < 2 ^ 32 - 1) counts.old }
    ensures { (v : ℕ) → v < length counts.new
        → slice_index counts.new v ≡ slice_index counts.old v + (if touches v (transfer_of s.now) then 1 else 0) }
{
    let from = s.from.disk.0 as usize;
    let to = s.to.disk.0 as usize;
    counts[from] += 1;
    if to != from {
        counts[to] += 1;
    }
}

/// Counts a shift at the disks where it counts.
fn count_shift(part: Part, counts: &mut [u32], s: &Shift)
    requires from { s.now.from.disk.0 < length counts.old }
    requires to { s.now.to.disk.0 < length counts.old }
    requires room { All (λ n. n < 2 ^ 32 - 1) counts.old }
    ensures { (v : ℕ) → v < length counts.new
        → slice_index counts.new v ≡ slice_index counts.old v + (if counts_at part v (transfer_of s.now) then 1 else 0) }
{
    match part {
        Part::Both => count_both(counts, s),
        Part::Leaving => counts[s.from.disk.0 as usize] += 1,
        Part::Reaching => counts[s.to.disk.0 as usize] += 1,
    }
}

/// Counts the shifts that count at each disk, where nothing is counted yet.
fn count_ends(part: Part, counts: &mut [u32], round: &[Shift])
    requires zero { All (λ n. n ≡ 0) counts.old }
    requires few { length round.now ≤ MAX_SHIFTS }
    requires disks { All (λ s. (s.from.disk.0 < length counts.old) × (s.to.disk.0 < length counts.old)) round.now }
    ensures { (v : ℕ) → v < length counts.new → slice_index counts.new v ≡ part_load part v (map transfer_of round.now) }
{
    for s in round {
        count_shift(part, counts, s);
    }
}

/// Sets the counts of a round back to 0. No more is counted than its ends.
fn clear_ends(counts: &mut [u32], round: &[Shift])
    requires counted { (v : ℕ) → v < length counts.old → slice_index counts.old v ≤ load v (map transfer_of round.now) }
    requires disks { All (λ s. (s.from.disk.0 < length counts.old) × (s.to.disk.0 < length counts.old)) round.now }
    ensures { All (λ n. n ≡ 0) counts.new }
{
    for s in round {
        counts[s.from.disk.0 as usize] = 0;
        counts[s.to.disk.0 as usize] = 0;
    }
}

/// The lesser of the disk that was found and this one, where this one is over its limit.
fn lesser_over(
    part: Part,
    disks: &[Disk],
    counts: &[u32],
    found: Option<DiskId>,
    disk: DiskId,
) -> Option<DiskId>
    requires there { disk.0 < length disks.now }
    requires len { length counts.now ≡ length disks.now }
    requires valid { All IsDiskInRange disks.now }
    ensures over { IsFoundOver part disks.now counts.now found → IsFoundOver part disks.now counts.now result }
    ensures this { IsCovered part disks.now counts.now result disk.0 }
    ensures others { (v : ℕ) → IsCovered part disks.now counts.now found v → IsCovered part disks.now counts.now result v }
{
    let at = disk.0 as usize;
    if counts[at] <= part_limit(part, disks[at].limits) {
        return found;
    }
    match found {
        Some(other) if other.0 <= disk.0 => Some(other),
        _ => Some(disk),
    }
}

/// The least disk at an end of the round's shifts that is over its limit.
fn find_over(part: Part, disks: &[Disk], counts: &[u32], round: &[Shift]) -> Option<DiskId>
    requires len { length counts.now ≡ length disks.now }
    requires valid { All IsDiskInRange disks.now }
    requires ends { All (λ s. (s.from.disk.0 < length disks.now) × (s.to.disk.0 < length disks.now)) round.now }
    ensures over { IsFoundOver part disks.now counts.now result }
    ensures covered { All (λ s. IsCovered part disks.now counts.now result s.from.disk.0
        × IsCovered part disks.now counts.now result s.to.disk.0) round.now }
{
    let mut found = None;
    for s in round {
        let first = lesser_over(part, disks, counts, found, s.from.disk);
        found = lesser_over(part, disks, counts, first, s.to.disk);
    }
    found
}

/// The least disk that is over its limit, and how many shifts count at it.
fn over_in(part: Part, disks: &[Disk], counts: &[u32], round: &[Shift]) -> Option<(DiskId, u32)>
    requires len { length counts.now ≡ length disks.now }
    requires valid { All IsDiskInRange disks.now }
    requires ends { All (λ s. (s.from.disk.0 < length disks.now) × (s.to.disk.0 < length disks.now)) round.now }
    requires counted { (v : ℕ) → v < length counts.now → slice_index counts.now v ≡ part_load part v (map transfer_of round.now) }
    ensures { MatchOption result (KeepsPart part disks.now (map transfer_of round.now)) (λ r. IsLeastOver part disks.now round.now r.0.0 r.1) }
{
    match find_over(part, disks, counts, round) {
        Some(disk) => Some((disk, counts[disk.0 as usize])),
        None => None,
    }
}

/// The same of a round, where nothing is counted yet. Nothing is counted then either.
fn check_part(
    part: Part,
    input: &Input,
    counts: &mut [u32],
    round: &[Shift],
) -> Option<(DiskId, u32)>
    requires fits { All (ShiftFits input.now) round.now }
    requires few { length round.now ≤ MAX_SHIFTS }
    requires len { length counts.old ≡ length input.now.disks }
    requires zero { All (λ n. n ≡ 0) counts.old }
    ensures over { MatchOption result (KeepsPart part input.now.disks (map transfer_of round.now)) (λ r. IsLeastOver part input.now.disks round.now r.0.0 r.1) }
    ensures zero_after { All (λ n. n ≡ 0) counts.new }
{
    count_ends(part, counts, round);
    let over = over_in(part, input.disks(), counts, round);
    clear_ends(counts, round);
    over
}

/// The lesser disk of two, the first where both are the same.
fn lesser_of(first: Option<(DiskId, u32)>, second: Option<(DiskId, u32)>) -> Option<(DiskId, u32)>
    ensures { IsLesserOf first second result }
{
    match (first, second) {
        (Some(a), Some(b)) => Some(if b.0.0 < a.0.0 { b } else { a }),
        (Some(a), None) => Some(a),
        (None, b) => b,
    }
}

/// The least disk over its limit in the round, and the number that is too great. The counts are 0 again.
pub fn check_limits(input: &Input, counts: &mut [u32], round: &[Shift]) -> Option<(DiskId, u32)>
    requires fits { All (ShiftFits input.now) round.now }
    requires few { length round.now ≤ MAX_SHIFTS }
    requires len { length counts.old ≡ length input.now.disks }
    requires zero { All (λ n. n ≡ 0) counts.old }
    ensures none { IfNone result (KeepsLimits input.now.disks (map transfer_of round.now)) }
    ensures some { IfSome result (λ r. (r.0.0 < length input.now.disks)
        × IsOver input.now round.now r.0.0 r.1
        × ((v c : ℕ) → v < r.0.0 → ¬ IsOver input.now round.now v c)) }
    ensures zero_after { All (λ n. n ≡ 0) counts.new }
{
    input.keeps_rules();
    if !input.duplex() {
        return check_part(Part::Both, input, counts, round);
    }
    let outgoing = check_part(Part::Leaving, input, counts, round);
    let incoming = check_part(Part::Reaching, input, counts, round);
    lesser_of(outgoing, incoming)
}
