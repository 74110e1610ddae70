//! Small clusters: the files of an input, plans and certificates for them, and what is said of where their items are. The digests are
//! those of another program.

use crate::lines::{Line, folder_of};
use mig_io::MemFolder;
use std::process::Abort;

/// The three files of an input.
#[derive(Clone, Copy)]
pub struct Cluster<'a> {
    pub disks: &'a str,
    pub now: &'a str,
    pub next: &'a str,
}

/// Two disks of limit 2. Three items go from the first to the second.
pub const THREE_ITEMS: Cluster<'static> = Cluster {
    disks: "disk,limit,slots\na,2,4\nb,2,4\n",
    now: "item,disk,slot\nx,a,0\ny,a,1\nz,a,2\n",
    next: "item,disk\nx,b\ny,b\nz,b\n",
};

/// A plan of the three items.
pub const TWO_ROUNDS: &str =
    "migration-plan 1\nrounds 2\nround 1 2\nx a 0 b 0\ny a 1 b 1\nround 2 1\nz a 2 b 2\nend\n";

/// Another one.
const THREE_ROUNDS: &str =
    "migration-plan 1\nrounds 3\nround 1 1\nx a 0 b 0\nround 2 1\ny a 1 b 1\nround 3 1\nz a 2 b 2\nend\n";

/// The certificate of a plan of two rounds for the three items.
pub const TWO_NEEDED: &str =
    "migration-certificate 1\nrounds 2\nquotient 2\nclass even\nbound disk a 3 2 2\nend\n";

/// The folder of the three items, with both plans as P and R, and their last layout as L.
pub fn three_items(rt: &(impl Abort + AllocGlobal)) -> MemFolder {
    let moved = "item,disk,slot\nx,b,0\ny,b,1\nz,b,2\n";
    let texts = [("P", TWO_ROUNDS), ("R", THREE_ROUNDS), ("L", moved)];
    folder_of(rt, &THREE_ITEMS, &texts, &[])
}

/// Three disks of one slot each. The items of the first two change places, so that neither has room for what comes to it.
pub const FULL_DISKS: Cluster<'static> = Cluster {
    disks: "disk,limit,slots\na,1,1\nb,1,1\nc,1,1\n",
    now: "item,disk,slot\nx,a,0\ny,b,0\n",
    next: "item,disk\nx,b\ny,a\n",
};

/// A plan of the items that change places: the first is parked on the third disk.
pub const BY_THIRD_DISK: &str =
    "migration-plan 1\nrounds 3\nround 1 1\nx a 0 c 0\nround 2 1\ny b 0 a 0\nround 3 1\nx c 0 b 0\nend\n";

/// The three items are filled.
pub const FILL: Line<'static> = ("fill D N", 0, "filled 3\n");

/// The two items are filled that change places.
pub const FILL_TWO: Line<'static> = ("fill D N", 0, "filled 2\n");

/// What is said of the three items where they are filled.
pub const HERE: &str =
    "x a 0 here c46eb6eb2ae62b8d186004c94cdd5abfcc93237cc499539781ce66494cbbac9c\n\
    y a 1 here 23031c9c6b8e12b9337f8d7bc6d5cefadde158b20caf32a7917c9e1b9efa9637\n\
    z a 2 here 62b06e759fa93caa0df5720d5522444ff138dd3900c991351a0c7bfe5c691338\n\
    3 here, 0 lost\n";

/// What is said of them there where the slots are zeros.
pub const LOST: &str =
    "x a 0 lost ad7facb2586fc6e966c004d7d1d16b024f5805ff7cb47c7a85dabd8b48892ca7\n\
    y a 1 lost ad7facb2586fc6e966c004d7d1d16b024f5805ff7cb47c7a85dabd8b48892ca7\n\
    z a 2 lost ad7facb2586fc6e966c004d7d1d16b024f5805ff7cb47c7a85dabd8b48892ca7\n\
    0 here, 3 lost\n";

/// What is said of them where they are to go.
const MOVED: &str = "x b 0 here c46eb6eb2ae62b8d186004c94cdd5abfcc93237cc499539781ce66494cbbac9c\n\
    y b 1 here 23031c9c6b8e12b9337f8d7bc6d5cefadde158b20caf32a7917c9e1b9efa9637\n\
    z b 2 here 62b06e759fa93caa0df5720d5522444ff138dd3900c991351a0c7bfe5c691338\n\
    3 here, 0 lost\n";

/// What is said of them once they have moved: each is where it was to go, and the slots that they left are zeros.
pub const AT_TARGET: &[Line<'static>] = &[("audit D L", 0, MOVED), ("audit D N", 0, LOST)];

/// What may be said where their plan is gone on with.
pub const RESUMED: &[&str] = &[
    "done 2 rounds, found 0\n",
    "done 2 rounds, found 1\n",
    "done 2 rounds, found 2\n",
];

/// What is said where the journal names the plan of two rounds, and the one of three is asked for.
pub const ANOTHER: &str =
    "journal started with another plan 6e02b00f13c0b1af1733ca3437d1b28e36fcd862df45dc43184fe6eb3f48cf4e, ours 44af6ae7a1490ed3ed45b3256bfe114e2dd1aeb59ebf34e37725bc2749b1c2a5\n";

/// What is said where a plan is begun, and where a call of the store failed.
pub const STARTED: &str = "journal started\n";

pub const STORE_FAULT: &str = "store fault\n";
