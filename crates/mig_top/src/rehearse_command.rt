//! `rehearse`: makes a case from three numbers, plans it, and tells how good the plan is.
ghost use Rattle.std.specs.Prelude.{[]};
ghost use Rattle.mig_top.specs.Ends.{EndsOrStops, IsRehearsalEnd};
ghost use Rattle.mig_top.specs.rehearse.Texts.{case_in};
ghost use Rattle.mig_words.specs.Words.{AreCaseWords};

use mig_commands::rehearsed;
use mig_io::Sink;
use mig_words::{CommandError, show};
use std::alloc::Global;

/// `rehearse`, with its text.
pub fn run_rehearse<K: Sink>(
    alloc: Global,
    out: &mut K,
    disks: &str,
    per_pair: &str,
    limit: &str,
) -> Result<u8, CommandError>
    requires { AreCaseWords disks.now per_pair.now limit.now }
    ensures { EndsOrStops [] (IsRehearsalEnd (case_in disks.now per_pair.now limit.now)) (K.state out.old) (K.state out.new) result }
{
    let text = rehearsed(alloc, disks, per_pair, limit)?;
    Ok(show(out, &text))
}
