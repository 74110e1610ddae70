//! The store's calls over a system that is made up: its tables tell of a device, and calls of it go wrong.
ghost use Rattle.std.specs.Prelude.{true, ⊤};
ghost use Rattle.mig_host.specs.Untold.{untold};

use crate::host_calls::disk_of;
use mig_calls::{CallError, Calls, Extent};
use mig_host::{Access, Handle, Kind, Stat, System, SystemCalls};
use std::alloc::Global;
use std::cell::Cell;
use std::fmt::Display;
use std::io::{self, Error, ErrorKind, Read, Write};

/// The files of such a system by their numbers, and its device.
const FILES: [&str; 5] = ["/dev/b 1", "journal.mig", "c.disk", "d.disk", "."];

/// What the system tells of the device 8:1, where nothing uses it.
const TABLES: [(&str, &str); 3] = [
    ("/sys/dev/block/8:1/uevent", "MAJOR=8\nDEVNAME=b 1\n"),
    ("/sys/dev/block/8:1/dev", "8:1\n"),
    ("/sys/dev/block/8:1/./dev", "8:1\n"),
];

/// A file that is open: a text that is read once, or one of those above.
#[derive(Drop)]
struct ToldFile {
    left: &'static [u8],
    number: usize,
}

impl Handle for ToldFile {
    ghost is_of = { λ file node. ⊤ };

    ghost holds = { λ file. true };

    ghost since = { λ file. 0 };
}

impl Read for ToldFile {
    fn read(&mut self, buf: &mut [u8]) -> io::Result<usize> {
        let count = buf.len().min(self.left.len());
        buf[..count].copy_from_slice(&self.left[..count]);
        self.left = &self.left[count..];
        Ok(count)
    }
}

impl Write for ToldFile {
    fn write(&mut self, buf: &[u8]) -> io::Result<usize> {
        Ok(buf.len())
    }

    fn flush(&mut self) -> io::Result<()> {
        Ok(())
    }
}

/// A system with two disks, c and d, and with b, which is the device 8:1.
#[derive(Drop)]
struct Told<'a> {
    alloc: Global,
    rows: &'static [(&'static str, &'static str)],
    /// How many files may be opened besides.
    spare: Cell<usize>,
    /// Which of the files are locked.
    locked: [bool; 5],
    /// A sync that failed was noted.
    noted: &'a Cell<bool>,
}

/// A table of this text.
fn text_of(text: &'static str) -> ToldFile {
    ToldFile {
        left: text.as_bytes(),
        number: 0,
    }
}

/// What stands at the number of a file.
fn stat_of(number: usize) -> Stat {
    Stat {
        kind: if number == 0 {
            Kind::Device
        } else {
            Kind::Plain
        },
        device: 6,
        inode: number as u64,
        number: 0x801,
        mode: 0o644,
        len: 4096,
        changed: (1, 0),
    }
}

impl<'a> Told<'a> {
    fn number(&self, path: &str) -> io::Result<usize> {
        let path = if path == "b.disk" { FILES[0] } else { path };
        let found = FILES.iter().position(|file| *file == path);
        found.ok_or(ErrorKind::NotFound.into())
    }
}

impl<'a> System for Told<'a> {
    type File = ToldFile;

    type Folder = ToldFile;

    ghost state = { λ s. untold };

    fn alloc(&self) -> Global {
        self.alloc
    }

    fn stat(&mut self, path: &str) -> io::Result<Stat> {
        self.entry(path)
    }

    fn lstat(&mut self, path: &str) -> io::Result<Stat> {
        self.entry(path)
    }

    fn open(&mut self, path: &str, access: Access) -> io::Result<ToldFile> {
        if access == Access::Anew {
            self.noted.set(true);
            return Ok(text_of(""));
        }
        let number = self.number(path)?;
        Ok(ToldFile { left: b"", number })
    }

    fn lock(&mut self, file: &mut ToldFile) -> io::Result<bool> {
        let was = std::mem::replace(&mut self.locked[file.number % 5], true);
        Ok(!was)
    }

    fn read_at(&mut self, _: &ToldFile, _: u64, _: &mut [u8]) -> io::Result<usize> {
        Ok(0)
    }

    fn write_at(&mut self, _: &ToldFile, _: u64, bytes: &[u8]) -> io::Result<usize> {
        Ok(bytes.len())
    }

    fn set_mode(&mut self, _: &ToldFile, _: u32) -> io::Result<()> {
        Ok(())
    }

    fn sync_data(&mut self, _: &ToldFile) -> io::Result<()> {
        Err(Error::other("the device is gone"))
    }

    fn sync_all(&mut self, _: &ToldFile) -> io::Result<()> {
        Ok(())
    }

    fn remove(&mut self, _: &str) -> io::Result<()> {
        Ok(())
    }

    fn fstat(&self, file: &ToldFile) -> io::Result<Stat> {
        Ok(stat_of(file.number))
    }

    fn duplicate(&self, file: &ToldFile) -> io::Result<ToldFile> {
        let Some(spare) = self.spare.get().checked_sub(1) else {
            return Err(Error::from_raw_os_error(24));
        };
        self.spare.set(spare);
        let ToldFile { left, number } = *file;
        Ok(ToldFile { left, number })
    }

    fn descriptor(&self, _: &ToldFile) -> i32 {
        3
    }

    fn end(&self, _: &ToldFile) -> io::Result<u64> {
        Ok(4096)
    }

    fn table(&self, path: &str) -> io::Result<ToldFile> {
        for (table, text) in TABLES.iter().chain(self.rows) {
            if *table == path {
                return Ok(text_of(text));
            }
        }
        Err(ErrorKind::NotFound.into())
    }

    fn folder(&self, path: &str) -> io::Result<ToldFile> {
        self.table(path)
    }

    fn entry(&self, path: &str) -> io::Result<Stat> {
        Ok(stat_of(self.number(path)?))
    }

    fn say<D: Display + Drop>(&self, _: D) {}
}

const MOUNTS: &str = "/proc/self/mountinfo";

/// The table of mounts where `/dev` is the system's own table of devices.
const OWN: (&str, &str) = (MOUNTS, "21 28 0:6 / /dev rw - devtmpfs udev rw\n");

/// The same, and the device is mounted: its number is told, or the path of its node.
const MOUNTED: (&str, &str) = (
    MOUNTS,
    "21 28 0:6 / /dev rw - devtmpfs udev rw\n30 28 8:1 / /m rw - ext4 /dev/root rw\n",
);

const NAMED: (&str, &str) = (
    MOUNTS,
    "21 28 0:6 / /dev rw - devtmpfs udev rw\n30 28 0:40 / /m rw - btrfs /dev/b\\0401 rw\n",
);

static FREE: [(&str, &str); 1] = [OWN];

/// What the system tells where the device may be no disk.
static BUSY: [&[(&str, &str)]; 7] = [
    // the table of mounts can't be read, or tells of another /dev
    &[],
    &[(MOUNTS, "21 28 0:7 / /dev rw - devtmpfs udev rw\n")],
    &[MOUNTED],
    &[NAMED],
    // another one stands on it, or on a partition of it
    &[OWN, ("/sys/dev/block/8:1/holders/", ".\0dm-0\0")],
    &[
        OWN,
        ("/sys/dev/block/8:1/./", "b1\0"),
        ("/sys/dev/block/8:1/./b1/partition", "1\n"),
        ("/sys/dev/block/8:1/./b1/holders/", "dm-0\0"),
    ],
    // it is a part of a btrfs
    &[
        OWN,
        ("/sys/fs/btrfs/", "id\0"),
        ("/sys/fs/btrfs/id/devices/", "b1\0"),
        ("/sys/fs/btrfs/id/devices/b1/dev", "8:1\n"),
    ],
];

/// The calls over such a system.
fn calls_over<'a>(
    alloc: Global,
    rows: &'static [(&'static str, &'static str)],
    spare: usize,
    noted: &'a Cell<bool>,
) -> SystemCalls<Told<'a>> {
    SystemCalls::new(Told {
        alloc,
        rows,
        spare: Cell::new(spare),
        locked: [false; 5],
        noted,
    })
}

#[test]
fn devices_in_the_tables(rt: HostRuntime) {
    let noted = Cell::new(false);
    let mut calls = calls_over(rt.alloc(), &FREE, 3, &noted);
    assert!(rt; calls.len(&disk_of(b"b")) == Ok(Extent::Device { len: 4096 }));
    for rows in &BUSY {
        let mut calls = calls_over(rt.alloc(), rows, 3, &noted);
        assert!(rt; calls.len(&disk_of(b"b")) == Err(CallError::Failed));
    }
}

#[test]
fn two_descriptors_stay_free(rt: HostRuntime) {
    let noted = Cell::new(false);
    for spare in [3, 2] {
        let mut calls = calls_over(rt.alloc(), &FREE, spare, &noted);
        assert!(rt; calls.len(&disk_of(b"c")).is_ok());
        let refused = calls.len(&disk_of(b"d")).err();
        assert!(rt; refused == (spare < 3).then_some(CallError::Full));
    }
}

#[test]
fn a_sync_that_fails_is_noted(rt: HostRuntime) {
    let noted = Cell::new(false);
    let mut calls = calls_over(rt.alloc(), &FREE, 3, &noted);
    assert!(rt; calls.claim().is_ok() && !noted.get());
    let failed = Err(CallError::Failed);
    assert!(rt; calls.sync(&disk_of(b"c")) == failed && noted.get() && calls.claim() == failed);
}
