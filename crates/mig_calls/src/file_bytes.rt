//! The bytes of a file in memory, and what the device has of them.
ghost use Rattle.std.specs.Prelude.{◌≡◌, ◌≤◌, ◌<◌, ◌+◌, [], ℕ, OnOk, OnErr, IfOk, length, slice_index};
ghost use Rattle.mig_calls.specs.FileBytes.{byte_at, no_byte, with_written, settled, settled_as, picked_byte};

use crate::pick::FilePick;
use std::alloc::{AllocError, Global};
use std::marker::Model;

/// A byte of a file.
#[derive(Clone, Copy, Debug, PartialEq, Eq)]
pub struct Byte {
    /// What a read gives.
    pub shown: u8,
    /// What the device had when the byte was last settled.
    pub kept: u8,
    /// A crash may leave any byte in its place.
    pub loose: bool,
}

/// The bytes of a file. Past its end there are zeros, which are settled.
#[derive(Drop)]
pub struct FileBytes {
    bytes: Vec<Byte>,
}

impl Model for FileBytes {
    ghost use Rattle.std.specs.Prelude.{List};
    ghost use Rattle.mig_calls.specs.declared.file_bytes.Byte.{Byte};

    ghost Value = { List Byte };

    ghost view = { λ f. f.bytes.items };
}

const NO_BYTE: Byte = Byte {
    shown: 0,
    kept: 0,
    loose: false,
};

impl Byte {
    // What a crash leaves of the byte at this offset.
    fn picked(&self, pick: FilePick, at: usize) -> u8
        ensures { result ≡ picked_byte pick at self.now }
    {
        if !self.loose {
            return self.shown;
        }
        let front = at % 4096 < 2048;
        match pick {
            FilePick::Old => self.kept,
            FilePick::New => self.shown,
            FilePick::Front if front => self.shown,
            FilePick::Front => self.kept,
            FilePick::Back if front => self.kept,
            FilePick::Back => self.shown,
            FilePick::Ones => 1,
        }
    }
}

impl FileBytes {
    /// No bytes.
    pub fn new(alloc: Global) -> FileBytes
        ensures { result ≡ [] }
    {
        FileBytes {
            bytes: Vec::new(alloc),
        }
    }

    /// Reads bytes from an offset on, so many at most, and tells how many there are.
    pub fn read(&self, at: u64, most: usize, into: &mut [u8]) -> usize
        ensures count { result ≤ length into.old }
        ensures values { (i : ℕ) → i < result → slice_index into.new i ≡ (byte_at self.now (at + i)).shown }
        ensures end { result ≡ 0 → 0 < length into.old → 0 < most → (i : ℕ) → at ≤ i → byte_at self.now i ≡ no_byte }
    {
        let at = at as usize;
        if self.bytes.len() <= at {
            return 0;
        }
        let count = into.len().min(self.bytes.len() - at).min(most);
        for i in 0..count {
            into[i] = self.bytes[at + i].shown;
        }
        count
    }

    // Makes the file at least so long. An error is want of memory.
    fn reach(&mut self, len: usize) -> Result<(), AllocError>
        ensures same { (i : ℕ) → byte_at self.new i ≡ byte_at self.old i }
        ensures long { OnOk result (len ≤ length self.new) }
    {
        for _ in self.bytes.len()..len {
            self.bytes.push(NO_BYTE)?;
        }
        Ok(())
    }

    // Writes over bytes that are there.
    fn overwrite(&mut self, at: usize, values: &[u8])
        requires { at + length values.now ≤ length self.old }
        ensures { (i : ℕ) → byte_at self.new i ≡ with_written at values.now (byte_at self.old) i }
    {
        for (k, value) in values.iter().enumerate() {
            let kept = self.bytes[at + k].kept;
            self.bytes[at + k] = Byte {
                shown: *value,
                kept,
                loose: true,
            };
        }
    }

    /// Writes bytes from an offset on. An error is want of memory, and changes nothing.
    pub fn write(&mut self, at: u64, values: &[u8]) -> Result<(), AllocError>
        ensures written { OnOk result ((i : ℕ) → byte_at self.new i ≡ with_written at values.now (byte_at self.old) i) }
        ensures nothing { OnErr result ((i : ℕ) → byte_at self.new i ≡ byte_at self.old i) }
    {
        let at = at as usize;
        match at.checked_add(values.len()) {
            Some(end) => self.reach(end)?,
            None => return Err(AllocError),
        }
        self.overwrite(at, values);
        Ok(())
    }

    /// Brings each byte to the device.
    pub fn settle(&mut self)
        ensures { (i : ℕ) → byte_at self.new i ≡ settled (byte_at self.old i) }
    {
        for byte in self.bytes.iter_mut() {
            byte.kept = byte.shown;
            byte.loose = false;
        }
    }

    /// Keeps what a crash leaves of each byte.
    pub fn crash(&mut self, pick: FilePick)
        ensures { (i : ℕ) → byte_at self.new i ≡ settled_as (picked_byte pick i (byte_at self.old i)) }
    {
        for i in 0..self.bytes.len() {
            let value = self.bytes[i].picked(pick, i);
            self.bytes[i] = Byte {
                shown: value,
                kept: value,
                loose: false,
            };
        }
    }

    /// The same bytes. An error is want of memory.
    pub fn copied(&self, alloc: Global) -> Result<FileBytes, AllocError>
        ensures { IfOk result (λ copy. copy ≡ self.now) }
    {
        Ok(FileBytes {
            bytes: Vec::from_slice(alloc, &self.bytes)?,
        })
    }

    /// How many bytes there are.
    pub fn len(&self) -> usize
        ensures { result ≡ length self.now }
    {
        self.bytes.len()
    }
}
