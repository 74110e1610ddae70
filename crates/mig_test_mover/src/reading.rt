//! The README's example: a plan is carried out, and an item is read before, between and after its steps.

use crate::cases::{THREE_ITEMS, job_of};
use crate::example::carry_and_read;
use crate::stores::{filled, is_reached, made};
use mig_base::ItemId;

#[test]
fn an_item_is_read_on_the_way(rt: HostRuntime) {
    let job = job_of(&rt, &THREE_ITEMS);
    let mut store = filled(&rt, THREE_ITEMS.before, &[]);
    let mut page = [0; 4096];
    assert!(rt; job.input().items().len() == 3);
    assert!(rt; carry_and_read(&job, &mut store, ItemId(0), &mut page) == Ok(2));
    assert!(rt; page == made(b'x'));
    assert!(rt; is_reached(&store, &job, &THREE_ITEMS));
}
