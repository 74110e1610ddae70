//! Queues of items that wait for a disk.
ghost use Rattle.std.specs.Prelude.{◌≡◌, ◌==◌, ◌↔◌, ◌<◌, ◌++◌, ◌∷◌, [], length, All, IsSome, IfOk, OnOk};
ghost use Rattle.std.specs.Option.{option_to_list};
ghost use Rattle.mig_tight.specs.PlanStates.{AreQueues};

use mig_base::{Input, ItemId};
use std::alloc::{AllocError, Global};
use std::marker::Model;

/// The items that wait for a slot of one disk.
#[derive(Debug, Drop)]
pub struct Queue {
    items: Vec<ItemId>,
}

impl Model for Queue {
    ghost use Rattle.std.specs.Prelude.{List};
    ghost use Rattle.mig_base.specs.declared.ids.ItemId.{ItemId};

    ghost Value = { List ItemId };

    ghost view = { λ q. q.items.items };
}

impl Queue {
    /// A queue in which nobody waits.
    pub fn new(alloc: Global) -> Queue
        ensures { result ≡ [] }
    {
        Queue {
            items: Vec::new(alloc),
        }
    }

    /// Whether nobody waits.
    pub fn is_empty(&self) -> bool
        ensures { result ≡ (length self.now == 0) }
    {
        self.items.is_empty()
    }

    /// Lets an item wait.
    pub fn push(&mut self, item: ItemId) -> Result<(), AllocError>
        ensures { OnOk result (self.new ≡ self.old ++ item ∷ []) }
    {
        self.items.push(item)?;
        Ok(())
    }

    /// Takes the item that came last.
    pub fn pop(&mut self) -> Option<ItemId>
        ensures taken { self.old ≡ self.new ++ option_to_list result }
        ensures some { IsSome result ↔ (0 < length self.old) }
    {
        self.items.pop()
    }
}

/// A queue for each disk, in which nobody waits.
fn empty_queues(alloc: Global, disks: usize) -> Result<Vec<Queue>, AllocError>
    ensures len { IfOk result (λ v. length v.items ≡ disks) }
    ensures empty { IfOk result (λ v. All (λ q. q ≡ []) v.items) }
{
    let mut queues = Vec::with_capacity(alloc, disks)?;
    for _disk in 0..disks {
        queues.push(Queue::new(alloc))?;
    }
    Ok(queues)
}

/// For each disk the relocated items whose next disk it is.
pub fn queues_of(alloc: Global, input: &Input) -> Result<Vec<Queue>, AllocError>
    ensures { IfOk result (λ v. AreQueues input.now input.now.spots v.items) }
{
    let next = input.next();
    let mut queues = empty_queues(alloc, input.disks().len())?;
    for item in 0..next.len() {
        if input.relocated(ItemId(item as u32)) {
            queues[next[item].0 as usize].push(ItemId(item as u32))?;
        }
    }
    Ok(queues)
}
