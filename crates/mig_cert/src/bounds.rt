//! The line of a bound.
ghost use Rattle.std.specs.Prelude.{◌≡◌, ◌≢◌, ◌≤◌, ◌<◌, ◌^◌, ◌∷◌, ℕ, List, [], codes, length, IfErr, IfOk, MatchOption};
ghost use Rattle.std.specs.Fmt.{decimal};
ghost use Rattle.mig_base.specs.CertLines.{FitsLine};
ghost use Rattle.mig_base.specs.InputLists.{IsInput};
ghost use Rattle.mig_base.specs.Transfers.{side_limit};
ghost use Rattle.mig_base.specs.Texts.{BoundLine, bound_line, disk_name, side_word};
ghost use Rattle.mig_base.specs.declared.certs.Side.{Side};
ghost use Rattle.mig_text.specs.Reads.{IsMiss, Took};
ghost use Rattle.mig_cert.specs.BoundParts.{bound_words, line_of_head, IsBoundLine, limit_of, side_limit_of};

use mig_base::{DiskId, Limits, MAX_DISKS, Side};
use mig_text::{Finder, Lines, Parts, TextError, is_number, last_number, read_number};

/// What the line of a bound says: all but the disks of a set.
#[derive(Clone, Copy)]
pub(crate) enum Head {
    Nothing,
    OfDisk {
        disk: DiskId,
        load: u32,
        value: u32,
    },
    OfSide {
        disk: DiskId,
        side: Side,
        load: u32,
        value: u32,
    },
    OfSet {
        count: u32,
        inside: u32,
        value: u32,
    },
}

/// Takes the line of a bound.
pub(crate) fn take_head(lines: &mut Lines<'_>, finder: &Finder<'_>) -> Result<Head, TextError>
    ensures ok { IfOk result (λ h. FitsLine finder.now (line_of_head h) × Took lines.old (bound_line finder.now (line_of_head h)) lines.new) }
    ensures err { IfErr result (IsMiss (IsBoundLine finder.now) lines.old) }
{
    match read_head(finder, lines.take_line()?) {
        Some(head) => Ok(head),
        None => Err(lines.misfit()),
    }
}

/// What a line of a bound says.
fn read_head(finder: &Finder<'_>, line: &[u8]) -> Option<Head>
    ensures { MatchOption result ((b : BoundLine) → FitsLine finder.now b → line.now ≢ bound_line finder.now b)
        (λ h. FitsLine finder.now (line_of_head h) × (line.now ≡ bound_line finder.now (line_of_head h))) }
{
    finder.keeps_rules();
    bound_of(finder, Parts::of(line, b' '))
}

/// The same of the line's words.
fn bound_of(finder: &Finder<'_>, mut parts: Parts<'_>) -> Option<Head>
    ensures { MatchOption result ((b : BoundLine) → FitsLine finder.now b → parts.entry ≢ bound_words finder.now b)
        (λ h. FitsLine finder.now (line_of_head h) × (parts.entry ≡ bound_words finder.now (line_of_head h))) }
{
    if parts.take_part()? != b"bound".as_slice() {
        return None;
    }
    let kind = parts.take_part()?;
    if kind == b"nothing".as_slice() {
        return nothing_of(finder, parts);
    }
    if kind == b"disk".as_slice() {
        return disk_of(finder, parts);
    }
    if kind == b"side".as_slice() {
        return side_of(finder, parts);
    }
    if kind == b"set".as_slice() {
        return set_of(finder, parts);
    }
    None
}

/// The same of the words after `bound nothing`.
fn nothing_of(finder: &Finder<'_>, parts: Parts<'_>) -> Option<Head>
    ensures { MatchOption result ((b : BoundLine) → FitsLine finder.now b → codes "bound" ∷ codes "nothing" ∷ parts.entry ≢ bound_words finder.now b)
        (λ h. FitsLine finder.now (line_of_head h) × (codes "bound" ∷ codes "nothing" ∷ parts.entry ≡ bound_words finder.now (line_of_head h))) }
{
    if parts.is_done() {
        Some(Head::Nothing)
    } else {
        None
    }
}

/// The same of the words after `bound disk`.
fn disk_of(finder: &Finder<'_>, parts: Parts<'_>) -> Option<Head>
    ensures { MatchOption result ((b : BoundLine) → FitsLine finder.now b → codes "bound" ∷ codes "disk" ∷ parts.entry ≢ bound_words finder.now b)
        (λ h. FitsLine finder.now (line_of_head h) × (codes "bound" ∷ codes "disk" ∷ parts.entry ≡ bound_words finder.now (line_of_head h))) }
{
    if finder.input().duplex() {
        return None;
    }
    let (disk, load, value) = disk_fields(finder, parts)?;
    Some(Head::OfDisk { disk, load, value })
}

/// The same of the words after `bound side`.
fn side_of(finder: &Finder<'_>, parts: Parts<'_>) -> Option<Head>
    ensures { MatchOption result ((b : BoundLine) → FitsLine finder.now b → codes "bound" ∷ codes "side" ∷ parts.entry ≢ bound_words finder.now b)
        (λ h. FitsLine finder.now (line_of_head h) × (codes "bound" ∷ codes "side" ∷ parts.entry ≡ bound_words finder.now (line_of_head h))) }
{
    if !finder.input().duplex() {
        return None;
    }
    let (disk, side, load, value) = side_fields(finder, parts)?;
    Some(Head::OfSide {
        disk,
        side,
        load,
        value,
    })
}

/// The same of the words after `bound set`.
fn set_of(finder: &Finder<'_>, parts: Parts<'_>) -> Option<Head>
    ensures { MatchOption result ((b : BoundLine) → FitsLine finder.now b → codes "bound" ∷ codes "set" ∷ parts.entry ≢ bound_words finder.now b)
        (λ h. FitsLine finder.now (line_of_head h) × (codes "bound" ∷ codes "set" ∷ parts.entry ≡ bound_words finder.now (line_of_head h))) }
{
    if finder.input().duplex() {
        return None;
    }
    let (count, inside, value) = set_fields(parts)?;
    Some(Head::OfSet {
        count,
        inside,
        value,
    })
}

/// NAME, LOAD and VALUE of `NAME LOAD LIMIT VALUE`.
fn disk_fields(finder: &Finder<'_>, mut parts: Parts<'_>) -> Option<(DiskId, u32, u32)>
    ensures { MatchOption result
        ((d : ℕ) (load : ℕ) (value : ℕ) → d < length finder.now.disks → load < 2 ^ 32 → value < 2 ^ 32
        → parts.entry ≢ disk_name finder.now d ∷ decimal load ∷ decimal (limit_of finder.now d) ∷ decimal value ∷ [])
        (λ r. (r.0.0 < length finder.now.disks) × (r.1 < 2 ^ 32) × (r.2 < 2 ^ 32)
        × (parts.entry ≡ disk_name finder.now r.0.0 ∷ decimal r.1 ∷ decimal (limit_of finder.now r.0.0) ∷ decimal r.2 ∷ [])) }
{
    let disk = finder.disk(parts.take_part()?)?;
    let load = read_number(parts.take_part()?, u32::MAX)?;
    if !is_number(parts.take_part()?, limit_of(finder, disk)) {
        return None;
    }
    let value = last_number(parts, u32::MAX)?;
    Some((disk, load, value))
}

/// NAME, the side, LOAD and VALUE of `NAME out LOAD LIMIT VALUE`, or of the same with `in`.
fn side_fields(finder: &Finder<'_>, mut parts: Parts<'_>) -> Option<(DiskId, Side, u32, u32)>
    ensures { MatchOption result
        ((d : ℕ) (side : Side) (load : ℕ) (value : ℕ) → d < length finder.now.disks → load < 2 ^ 32 → value < 2 ^ 32
        → parts.entry ≢ disk_name finder.now d ∷ side_word side ∷ decimal load ∷ decimal (side_limit_of finder.now side d) ∷ decimal value ∷ [])
        (λ r. (r.0.0 < length finder.now.disks) × (r.2 < 2 ^ 32) × (r.3 < 2 ^ 32)
        × (parts.entry ≡ disk_name finder.now r.0.0 ∷ side_word r.1 ∷ decimal r.2 ∷ decimal (side_limit_of finder.now r.1 r.0.0) ∷ decimal r.3 ∷ [])) }
{
    let disk = finder.disk(parts.take_part()?)?;
    let side = read_side(parts.take_part()?)?;
    let load = read_number(parts.take_part()?, u32::MAX)?;
    if !is_number(parts.take_part()?, side_limit_of(finder, side, disk)) {
        return None;
    }
    let value = last_number(parts, u32::MAX)?;
    Some((disk, side, load, value))
}

/// The side that a word names.
fn read_side(word: &[u8]) -> Option<Side>
    ensures { MatchOption result ((side : Side) → word.now ≢ side_word side) (λ side. word.now ≡ side_word side) }
{
    if word == b"out".as_slice() {
        return Some(Side::Outgoing);
    }
    if word == b"in".as_slice() {
        return Some(Side::Incoming);
    }
    None
}

/// The limit of a side of a disk.
fn side_limit_of(finder: &Finder<'_>, side: Side, disk: DiskId) -> u32
    requires { disk.0 < length finder.now.disks }
    ensures limit { result ≡ side_limit_of finder.now side disk.0 }
    ensures valid { IsInput finder.now }
{
    on_side(finder.input().disks()[disk.0 as usize].limits, side)
}

/// The limit on a side. A joint limit holds for each.
pub(crate) fn on_side(limits: Limits, side: Side) -> u32
    ensures { result ≡ side_limit side limits }
{
    match limits {
        Limits::Joint { limit } => limit,
        Limits::Split { outgoing, incoming } => match side {
            Side::Outgoing => outgoing,
            Side::Incoming => incoming,
        },
    }
}

/// The limit of a disk.
fn limit_of(finder: &Finder<'_>, disk: DiskId) -> u32
    requires { disk.0 < length finder.now.disks }
    ensures limit { result ≡ limit_of finder.now disk.0 }
    ensures valid { IsInput finder.now }
{
    finder.input().disks()[disk.0 as usize].limits.most_ends()
}

/// COUNT, INSIDE and VALUE.
fn set_fields(mut parts: Parts<'_>) -> Option<(u32, u32, u32)>
    ensures { MatchOption result
        ((count : ℕ) (inside : ℕ) (value : ℕ) → count ≤ MAX_DISKS → inside < 2 ^ 32 → value < 2 ^ 32 → parts.entry ≢ decimal count ∷ decimal inside ∷ decimal value ∷ [])
        (λ r. (r.0 ≤ MAX_DISKS) × (r.1 < 2 ^ 32) × (r.2 < 2 ^ 32) × (parts.entry ≡ decimal r.0 ∷ decimal r.1 ∷ decimal r.2 ∷ [])) }
{
    let count = read_number(parts.take_part()?, MAX_DISKS as u32)?;
    let inside = read_number(parts.take_part()?, u32::MAX)?;
    let value = last_number(parts, u32::MAX)?;
    Some((count, inside, value))
}
