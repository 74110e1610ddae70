//! How a volume manager carries a plan out and serves reads meanwhile: the example of the README.

ghost use Rattle.std.specs.Prelude.{◌≡◌, ◌<◌, OnOk, length, false};
ghost use Rattle.mig_base.specs.JobCells.{IsJobCell, SettlesTo, Tells};
ghost use Rattle.mig_base.specs.Safety.{Contents, IsSound};

use mig_base::ItemId;
use mig_jobs::Job;
use mig_live::Live;
use mig_mover::MoveFault;
use mig_store::Store;

/// Carries a plan out to its end, one step at a time, and reads an item before, between and after the steps; answers how
/// many rounds are marked then. With Ok the last read gave the item's contents, those that stood whole at the beginning.
///
/// # Errors
///
/// Those of [`Live::enter`], and a fault of the store. Calling it again goes on.
pub fn carry_and_read<S: Store>(
    job: &Job,
    store: &mut S,
    item: ItemId,
    page: &mut [u8; 4096],
) -> Result<u32, MoveFault>
    requires { item.0 < length job.now.input.items }
    ensures { OnOk result ((contents : Contents) → Tells (IsJobCell job.now.input job.now.plan) (S.state store.old).reads → SettlesTo (IsSound false job.now.input job.now.plan job.now.digest contents) (S.state store.old) → page.new ≡ contents item.0) }
{
    let mut live = Live::enter(job, store)?;
    live.read(store, item, page)?;
    for _ in 0..live.left() {
        live = live.step(store)?;
        live.read(store, item, page)?;
    }
    Ok(live.marked())
}
