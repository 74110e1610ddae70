//! Block devices, as the system tells of them.
use crate::failures::unless_told;
use crate::mounts::check_mounts;
use crate::system::{FileIdentity, System};
use crate::tables::{list, major_and_minor, number_of, path_in, text_if_there, text_in};
use std::io::{self, Error, ErrorKind};

/// A device, a partition or a file that a device's bytes lie in.
#[derive(Clone, Copy)]
pub struct DevicePart {
    pub node: FileIdentity,
    /// All of its bytes are the device's.
    pub whole: bool,
}

impl DevicePart {
    /// Whether it has bytes of one of these. Two partitions of a disk have bytes of one file, and none in common.
    pub fn overlaps(&self, others: &[DevicePart]) -> bool {
        for other in others {
            if self.node == other.node && (self.whole || other.whole) {
                return true;
            }
        }
        false
    }
}

/// A block device that nothing else uses.
#[derive(Drop)]
pub struct Device {
    /// Its node in the system's own table, by which all processes lock it.
    pub path: String,
    pub parts: Vec<DevicePart>,
}

/// Finds a device by its number. One that is in use, or of which the system doesn't tell, is refused.
pub fn find_device<S: System>(sys: &S, number: u64) -> io::Result<Device> {
    let (major, minor) = major_and_minor(number);
    let folder = format!(in sys.alloc(); "/sys/dev/block/{major}:{minor}")?;
    match look_up(sys, folder.as_str()) {
        Ok(device) => Ok(device),
        Err(error) => Err(unless_told(error, "what the system tells of the device can't be read")),
    }
}

fn look_up<S: System>(sys: &S, folder: &str) -> io::Result<Device> {
    let path = node_path(sys, folder)?;
    let table = sys.entry(path.as_str())?.device;
    check_unused(sys, folder, table)?;
    let parts = parts_of(sys, folder)?;
    Ok(Device { path, parts })
}

/// The path that the system gives a device's node.
fn node_path<S: System>(sys: &S, folder: &str) -> io::Result<String> {
    let told = text_in(sys, folder, "uevent")?;
    for line in told.lines() {
        if let Some(name) = line.strip_prefix("DEVNAME=") {
            return path_in(sys.alloc(), "/dev", name);
        }
    }
    Err(ErrorKind::NotFound.into())
}

/// Refuses a device that is mounted, that another one stands on, or that is a part of a btrfs; and one of whose partitions this is so.
fn check_unused<S: System>(sys: &S, folder: &str, table: u64) -> io::Result<()> {
    let mut numbers = Vec::new(sys.alloc());
    note_uses(sys, folder, &mut numbers)?;
    check_btrfs(sys, &numbers)?;
    check_mounts(sys, &numbers, table)
}

/// Notes the numbers of a device, of its partitions, and of the disk that it is a partition of.
fn note_uses<S: System>(sys: &S, folder: &str, numbers: &mut Vec<u64>) -> io::Result<()> {
    note_use(sys, folder, numbers)?;
    let mut within = Vec::new(sys.alloc());
    list(sys, folder, ".", &mut within)?;
    for part in within.iter() {
        if is_partition(sys, part.as_str())? {
            note_use(sys, part.as_str(), numbers)?;
        }
    }
    if is_partition(sys, folder)? {
        numbers.push(number_in(sys, folder, "../dev")?)?;
    }
    Ok(())
}

/// Notes the number of a device that no other one stands on.
fn note_use<S: System>(sys: &S, folder: &str, numbers: &mut Vec<u64>) -> io::Result<()> {
    let mut holders = Vec::new(sys.alloc());
    list(sys, folder, "holders", &mut holders)?;
    if !holders.is_empty() {
        return Err(Error::other("another device stands on it"));
    }
    numbers.push(number_in(sys, folder, "dev")?)?;
    Ok(())
}

fn is_partition<S: System>(sys: &S, folder: &str) -> io::Result<bool> {
    Ok(text_if_there(sys, folder, "partition")?.is_some())
}

/// The number of a device, which a file of the folder tells.
fn number_in<S: System>(sys: &S, folder: &str, name: &str) -> io::Result<u64> {
    let text = text_in(sys, folder, name)?;
    number_of(text.as_str()).ok_or(ErrorKind::InvalidData.into())
}

/// Refuses devices of which one is a part of a btrfs: the table of mounts names the first of its devices alone.
fn check_btrfs<S: System>(sys: &S, numbers: &[u64]) -> io::Result<()> {
    let mut systems = Vec::new(sys.alloc());
    list(sys, "/sys/fs", "btrfs", &mut systems)?;
    for system in systems.iter() {
        check_devices(sys, system.as_str(), numbers)?;
    }
    Ok(())
}

fn check_devices<S: System>(sys: &S, system: &str, numbers: &[u64]) -> io::Result<()> {
    let mut devices = Vec::new(sys.alloc());
    list(sys, system, "devices", &mut devices)?;
    for device in devices.iter() {
        if numbers.contains(&number_in(sys, device.as_str(), "dev")?) {
            return Err(Error::other("the device is mounted, as a part of a btrfs"));
        }
    }
    Ok(())
}

/// How many devices may stand one on the other.
const MOST_LAYERS: usize = 1024;

/// The parts of a device: those of which all bytes are its own, and those that it has some bytes of, as the disk of a partition.
fn parts_of<S: System>(sys: &S, folder: &str) -> io::Result<Vec<DevicePart>> {
    let mut parts = Vec::new(sys.alloc());
    let mut folders = vec![in sys.alloc(); path_in(sys.alloc(), folder, ".")?]?;
    note_layers(sys, &mut folders, &mut parts)?;
    Ok(parts)
}

fn note_layers<S: System>(
    sys: &S,
    folders: &mut Vec<String>,
    parts: &mut Vec<DevicePart>,
) -> io::Result<()> {
    for n in 0..MOST_LAYERS {
        let Some(folder) = folders.pop() else {
            return Ok(());
        };
        note_parts(sys, folder.as_str(), n == 0, parts)?;
        note_below(sys, folder.as_str(), folders)?;
    }
    Err(ErrorKind::InvalidData.into())
}

/// Notes a device, and the file that it lies in where it is a loop device. A file that has no name here can be no disk.
fn note_parts<S: System>(
    sys: &S,
    folder: &str,
    whole: bool,
    parts: &mut Vec<DevicePart>,
) -> io::Result<()> {
    let number = number_in(sys, folder, "dev")?;
    let node = FileIdentity::Device { number };
    parts.push(DevicePart { node, whole })?;
    match text_if_there(sys, folder, "loop/backing_file")? {
        Some(told) => note_file(sys, told.trim_end_matches('\n'), whole, parts),
        None => Ok(()),
    }
}

fn note_file<S: System>(
    sys: &S,
    path: &str,
    whole: bool,
    parts: &mut Vec<DevicePart>,
) -> io::Result<()> {
    match sys.entry(path) {
        Ok(found) => {
            let node = found.node();
            parts.push(DevicePart { node, whole })?;
            Ok(())
        }
        Err(error) if error.kind() == ErrorKind::NotFound => Ok(()),
        Err(error) => Err(error),
    }
}

/// Notes the folders of the devices that a device stands on.
fn note_below<S: System>(sys: &S, folder: &str, folders: &mut Vec<String>) -> io::Result<()> {
    if is_partition(sys, folder)? {
        folders.push(path_in(sys.alloc(), folder, "..")?)?;
    }
    list(sys, folder, "slaves", folders)
}
