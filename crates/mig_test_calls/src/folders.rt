//! Names over real files that no command takes.

use mig_io::{DirFolder, Folder, LoadFault};

/// A name of 255 bytes whose new file would have the same name.
const OWN_NEW_FILE: &str =
    "nnnnnnnnnnnnnnnnnnnnnnnnnnnnnnnnnnnnnnnnnnnnnnnnnnnnnnnnnnnnnnnnnnnnnnnnnnnnnnnnnnnnnnnnnnnnnnnnnnnnnnnnnnnnnnnnnnnnnnnnnnnnnnnn\
    nnnnnnnnnnnnnnnnnnnnnnnnnnnnnnnnnnnnnnnnnnnnnnnnnnnnnnnnnnnnnnnnnnnnnnnnnnnnnnnnnnnnnnnnnnnnnnnnnnnnnnnnnnnnnnnnnnnnnnn.new.mig";

// Nothing is saved there.
#[test]
fn names_that_no_command_takes(rt: HostRuntime) {
    let mut folder = DirFolder::new(&rt, rt.alloc());
    assert!(rt; folder.save(OWN_NEW_FILE, b"x").is_err() && folder.save("", b"x").is_err());
    let loaded = folder.load(rt.alloc(), OWN_NEW_FILE, 4);
    assert!(rt; loaded.err() == Some(LoadFault::Missing));
}
