//! Plans that are carried out, with the copies of a round in flight together.
ghost use Rattle.mig_base.specs.Stores.{State};
ghost use Rattle.mig_base.specs.Tasks.{Task};
ghost use Rattle.mig_lanes.specs.LaneSteps.{Flies, FliesOn};
ghost use Rattle.mig_lanes.specs.Runs.{Resumes, Starts};

use crate::rounds::carry_on;
use mig_jobs::Job;
use mig_mover::{MoveFault, enter_resume, enter_start};
use mig_store::Store;

/// Starts a plan and carries it out. Ok says that its target is reached.
pub fn start_lanes<S: Store>(job: &Job, store: &mut S) -> Result<(), MoveFault>
    ensures starts { Starts S.refuses job.now (S.state store.old) (S.state store.new) result }
    // Which copies begin and end in the meantime.
    ensures flies { Flies job.now (S.state store.old) (S.state store.new) 0 result }
{
    job.keeps_rules();
    enter_start(job, store)?;
    carry_on(job, store, 0)?;
    Ok(())
}

/// Carries out what is left of a plan, and answers how many rounds were marked before. Ok says that the target is
/// reached.
pub fn resume_lanes<S: Store>(job: &Job, store: &mut S) -> Result<u32, MoveFault>
    ensures resumes { Resumes S.refuses job.now (S.state store.old) (S.state store.new) result }
    ensures flies { FliesOn job.now (S.state store.old) (S.state store.new) result }
{
    job.keeps_rules();
    let k = enter_resume(job, store)?;
    carry_on(job, store, k)?;
    Ok(k)
}
