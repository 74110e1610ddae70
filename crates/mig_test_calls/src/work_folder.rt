//! The folder in which a test of real files works.

use std::rt::{Env, Files};
use std::{env, fs, io};

/// Makes an empty folder, and works in it. One that a test left which was cut off is removed.
fn make<R: AllocGlobal + Env + Files>(rt: &R, folder: &str) -> io::Result<()> {
    if fs::exists(rt, folder)? {
        fs::remove_dir_all(rt, folder)?;
    }
    fs::create_dir(rt, folder)?;
    env::set_current_dir(rt, folder)
}

/// Whether an empty folder is made, in which the test then works. One that a test left which was cut off is removed.
pub fn enter<R: AllocGlobal + Env + Files>(rt: &R, folder: &str) -> bool {
    make(rt, folder).is_ok()
}

/// Whether nothing has this name.
pub fn is_absent(rt: &impl Files, path: &str) -> bool {
    matches!(fs::exists(rt, path), Ok(false))
}

/// Whether the test goes back, and removes the folder.
pub fn leave<R: AllocGlobal + Env + Files>(rt: &R, folder: &str) -> bool {
    env::set_current_dir(rt, "..").is_ok() && fs::remove_dir_all(rt, folder).is_ok()
}
