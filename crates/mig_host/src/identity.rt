//! What stands at a path of the store, and which file of the system it is.
ghost use Rattle.std.specs.Prelude.{IfOk, OnOk};
ghost use Rattle.mig_host.specs.Systems.{Finds, Goes, IsBareAt, IsFoundAt, IsKindOf, Led};

use crate::system::{FileIdentity, Kind, Stat, System};
use std::io::{self, Error, ErrorKind};

/// What a path of the store leads to.
#[derive(Clone, Copy)]
pub enum PathKind {
    Nothing,
    File,
    /// A block device, with its number.
    Device(u64),
}

/// Looks at a path before it is opened: a pipe would hang there. A link that leads nowhere is refused, since it is a disk that isn't there and not a new one.
pub fn found_at<S: System>(sys: &mut S, path: &str) -> io::Result<PathKind>
    ensures found { IfOk result (IsFoundAt (S.System.state sys.old) (S.System.state sys.new) path.now) }
    ensures goes { Goes (S.System.state sys.old) (S.System.state sys.new) }
{
    match sys.stat(path) {
        Ok(stat) => kind_of(&stat),
        Err(error) if error.kind() == ErrorKind::NotFound => nothing_at(sys, path),
        Err(error) => Err(error),
    }
}

fn kind_of(stat: &Stat) -> io::Result<PathKind>
    ensures { IfOk result (IsKindOf stat.now) }
{
    match stat.kind {
        Kind::Plain => Ok(PathKind::File),
        Kind::Device => Ok(PathKind::Device(stat.number)),
        Kind::Folder => Err(ErrorKind::IsADirectory.into()),
        Kind::Link | Kind::Other => {
            Err(Error::other("it is neither a plain file nor a block device"))
        }
    }
}

/// Nothing is found only where no link stands either.
fn nothing_at<S: System>(sys: &mut S, path: &str) -> io::Result<PathKind>
    ensures found { IfOk result (IsBareAt (S.System.state sys.old) (S.System.state sys.new) path.now) }
    ensures goes { Goes (S.System.state sys.old) (S.System.state sys.new) }
{
    match sys.lstat(path) {
        Ok(stat) => Err(in_the_way(stat.kind == Kind::Link)),
        Err(error) if error.kind() == ErrorKind::NotFound => Ok(PathKind::Nothing),
        Err(error) => Err(error),
    }
}

fn in_the_way(is_link: bool) -> Error {
    if is_link {
        return Error::new(
            ErrorKind::NotFound,
            "it is a link that leads nowhere: is the disk mounted?",
        );
    }
    Error::other("another process made it at this moment")
}

/// Refuses a name that leads to another file than this one.
pub fn check_name<S: System>(sys: &mut S, path: &str, node: FileIdentity) -> io::Result<()>
    ensures led { OnOk result (Finds (S.System.state sys.old) (S.System.state sys.new) (Led path.now node)) }
    ensures goes { Goes (S.System.state sys.old) (S.System.state sys.new) }
{
    match sys.stat(path) {
        Ok(stat) if stat.node() == node => Ok(()),
        Err(error) if error.kind() != ErrorKind::NotFound => Err(error),
        _ => Err(exchanged()),
    }
}

/// Whether a link stands at a path.
pub fn is_link<S: System>(sys: &mut S, path: &str) -> io::Result<bool>
    ensures { Goes (S.System.state sys.old) (S.System.state sys.new) }
{
    Ok(sys.lstat(path)?.kind == Kind::Link)
}

/// Another file has the name than the one that was looked at.
pub fn exchanged() -> Error {
    Error::other("another process made or exchanged it meanwhile")
}
