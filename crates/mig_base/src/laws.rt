//! What the definitions promise of one another.
ghost use Rattle.std.specs.Prelude.{length};
ghost use Rattle.mig_base.specs.Refusals.{AcceptedIsInput, AcceptedIsOne};
ghost use Rattle.mig_base.specs.Transfers.{transfer_graph};
ghost use Rattle.mig_base.specs.Targets.{TargetsAreOne};
ghost use Rattle.mig_base.specs.Schedules.{Needs, IsSchedule, Obeys};
ghost use Rattle.mig_base.specs.Bounding.{ClassTells, BoundFits, BoundHolds, bound_value};
ghost use Rattle.mig_base.specs.Sides.{OneWayIsTwoSided};
ghost use Rattle.mig_base.specs.Running.{Runs, Once, round_of};
ghost use Rattle.mig_base.specs.Judging.{RightIsBlameless};
ghost use Rattle.mig_base.specs.Planned.{PartitionIsPlan};
ghost use Rattle.mig_base.specs.Texts.{IsOneCert, IsOnePlan};

use crate::certs::Bound;
use crate::inputs::Input;
use crate::plans::Plan;

/// What files list is an input, where nothing is wrong with them.
pub fn accepted_is_input()
    ensures { AcceptedIsInput }
{}

/// Files list one input at most.
pub fn accepted_is_one()
    ensures { AcceptedIsOne }
{}

/// The spots that relocated items are given are determined.
pub fn targets_are_one()
    ensures { TargetsAreOne }
{}

/// A plan that runs and moves each relocated item once is a schedule that keeps each limit.
pub fn plan_is_schedule(input: &Input, plan: &Plan)
    requires runs { Runs input.now plan.now }
    requires once { Once input.now plan.now }
    ensures schedule { IsSchedule input.now (length plan.now) (round_of plan.now) }
    ensures obeys { Obeys input.now (length plan.now) (round_of plan.now) }
{
    input.keeps_rules();
}

/// The moves' shifts, each in one round, are a plan where the rounds keep the limits and each disk has room.
pub fn partition_is_plan()
    ensures { PartitionIsPlan }
{}

/// Bytes are the spelling of at most one plan.
pub fn one_plan_for_a_text()
    ensures { IsOnePlan }
{}

/// Bytes are the spelling of at most one certificate.
pub fn one_cert_for_a_text()
    ensures { IsOneCert }
{}

/// Every schedule that keeps each limit has at least as many rounds as a bound's value, where the bound holds.
pub fn bound_is_needed(input: &Input, bound: &Bound)
    requires fits { BoundFits (transfer_graph input.now) bound.now }
    requires holds { BoundHolds (transfer_graph input.now) bound.now }
    ensures { Needs input.now (bound_value bound.now) }
{
    input.keeps_rules();
}

/// What is right is blamed for nothing.
pub fn right_is_blameless()
    ensures { RightIsBlameless }
{}

/// The class that is counted is that of even limits exactly where each disk that takes part has an even limit.
pub fn class_tells()
    ensures { ClassTells }
{}

/// The disks have two sides where each only gives items away or only takes them.
pub fn one_way_is_two_sided()
    ensures { OneWayIsTwoSided }
{}
