//! The bytes of a cell, in an array of fixed size.
ghost use Rattle.std.specs.Prelude.{◌≡◌, ◌≤◌, length};
ghost use Rattle.mig_store.specs.Bytes.{overwritten};

use std::marker::Model;

#[derive(Drop)]
pub struct Block {
    bytes: [u8; 4096],
    len: usize,
}

impl Model for Block {
    ghost use Rattle.std.specs.Prelude.{ℕ, List, ◌≤◌, take};

    ghost Value = { List ℕ };

    ghost view = { λ b. take b.len b.bytes };

    ghost invariant = { λ b. b.len ≤ 4096 };
}

impl Block {
    pub fn of(bytes: &[u8]) -> Self
        requires { length bytes.now ≤ 4096 }
        ensures { result ≡ bytes.now }
    {
        let mut block = [0; 4096];
        block[..bytes.len()].copy_from_slice(bytes);
        Block {
            bytes: block,
            len: bytes.len(),
        }
    }

    pub fn bytes(&self) -> &[u8]
        ensures value { result.now ≡ self.now }
        ensures short { length self.now ≤ 4096 }
    {
        &self.bytes[..self.len]
    }

    // Holds these bytes instead.
    pub fn set(&mut self, bytes: &[u8])
        requires { length bytes.now ≤ 4096 }
        ensures { self.new ≡ bytes.now }
    {
        self.bytes[..bytes.len()].copy_from_slice(bytes);
        self.len = bytes.len();
    }

    // Replaces the first bytes.
    pub fn overwrite(&mut self, front: &[u8])
        requires { length front.now ≤ length self.old }
        ensures { self.new ≡ overwritten front.now self.old }
    {
        self.bytes[..front.len()].copy_from_slice(front);
    }

    pub fn copied(&self) -> Self
        ensures { result ≡ self.now }
    {
        Block::of(self.bytes())
    }
}
