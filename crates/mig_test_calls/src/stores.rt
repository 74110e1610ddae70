//! A store in memory that never fails.

use mig_base::Cell;
use mig_store::SureStore;
use std::panic::Expect;

#[test]
fn a_sure_store_is_made(rt: HostRuntime) {
    let store = SureStore::new(rt.alloc(), &[Cell::Gate, Cell::Head]).expect(&rt, "ample memory");
    assert!(rt; store.cell(&Cell::Head) == Some([0; 32].as_slice()));
}
