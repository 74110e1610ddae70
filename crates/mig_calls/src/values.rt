//! Values of bytes that were written.
ghost use Rattle.std.specs.Prelude.{◌≡◌, IfOk};

use std::alloc::{AllocError, Global};
use std::marker::Model;

/// Values of bytes, one after the other.
#[derive(Drop)]
pub struct Values {
    list: Vec<u8>,
}

impl Model for Values {
    ghost use Rattle.std.specs.Prelude.{ℕ, List};

    ghost Value = { List ℕ };

    ghost view = { λ v. v.list.items };
}

impl Values {
    /// These values. An error is want of memory.
    pub fn of(alloc: Global, values: &[u8]) -> Result<Values, AllocError>
        ensures { IfOk result (λ made. made ≡ values.now) }
    {
        Ok(Values {
            list: Vec::from_slice(alloc, values)?,
        })
    }

    pub fn as_slice(&self) -> &[u8]
        ensures { result.now ≡ self.now }
    {
        self.list.as_slice()
    }
}
