//! The disks of a bound's set.
ghost use Rattle.std.specs.Prelude.{◌≡◌, ◌≢◌, ◌≤◌, ◌<◌, ℕ, length, IfErr, IfOk, MatchOption};
ghost use Rattle.mig_base.specs.CertLines.{before_members, CertNext, Over};
ghost use Rattle.mig_base.specs.Texts.{disk_name};
ghost use Rattle.mig_text.specs.Reads.{IsMiss, IsStop, Took};
ghost use Rattle.mig_cert.specs.BoundParts.{IsMemberLine};
ghost use Rattle.mig_cert.specs.MemberParts.{AreMembersRead};

use mig_base::{DiskId, MAX_DISKS};
use mig_text::{Finder, Lines, TextError};
use std::alloc::Global;

/// Takes the names of the disks of a set, one line each.
pub(crate) fn take_members(
    alloc: Global,
    lines: &mut Lines<'_>,
    finder: &Finder<'_>,
    count: u32,
) -> Result<Vec<DiskId>, TextError>
    ensures ok { IfOk result (λ ids. AreMembersRead finder.now count ids.items lines.old lines.new) }
    ensures err { IfErr result (IsStop (CertNext finder.now) (before_members count 0) Over lines.old) }
{
    let mut ids = Vec::new(alloc);
    let mut from = 0;
    'members: for _ in 0..count {
        let disk = take_member(lines, finder, from)?;
        if ids.push(disk).is_err() {
            return Err(TextError::Memory);
        }
        from = disk.0 + 1;
    }
    Ok(ids)
}

/// Takes the name of the disk numbered `from` or a later one.
fn take_member(lines: &mut Lines<'_>, finder: &Finder<'_>, from: u32) -> Result<DiskId, TextError>
    ensures ok { IfOk result (λ d. (from ≤ d.0) × (d.0 < length finder.now.disks) × Took lines.old (disk_name finder.now d.0) lines.new) }
    ensures err { IfErr result (IsMiss (IsMemberLine finder.now from) lines.old) }
    ensures few { length finder.now.disks ≤ MAX_DISKS }
{
    finder.keeps_rules();
    match member_of(finder, lines.take_line()?, from) {
        Some(disk) => Ok(disk),
        None => Err(lines.misfit()),
    }
}

/// The disk numbered `from` or a later one with this name.
fn member_of(finder: &Finder<'_>, line: &[u8], from: u32) -> Option<DiskId>
    ensures { MatchOption result ((d : ℕ) → from ≤ d → d < length finder.now.disks → line.now ≢ disk_name finder.now d)
        (λ d. (from ≤ d.0) × (d.0 < length finder.now.disks) × (line.now ≡ disk_name finder.now d.0)) }
{
    let disk = finder.disk(line)?;
    if disk.0 >= from { Some(disk) } else { None }
}
