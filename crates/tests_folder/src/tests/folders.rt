//! What the store answers on folders of the system, and what it leaves there.

use crate::tests::scenes::{Block, play_scene};
use std::test::Fail;

/// Versions and the boundary, call by call.
const CALLS: &str = "list 5 = listed
get 1 = not found
delete 1 = deleted
create 1 0:1 = put
create 1 0:2 = already exists
get 1 = got 0:1
create 2 = put
create 3 0:3 = put
get 2 = got nothing
list 5 = listed 1 2 3
list 1 1 = listed 2 and more
list 1 3 = listed
overwrite 3 0:4 = put
get 3 = got 0:4
delete 2 = deleted
delete 2 = deleted
get 2 = not found
list 5 = listed 1 3
get boundary = not found
update boundary 0 1 = precondition
create boundary 1 = put
create boundary 2 = already exists
get boundary = got 1
get boundary 1 = not modified
get boundary 0 = got 1
update boundary 0 2 = precondition
update boundary 1 2 = put
update boundary 1 3 = precondition
get boundary = got 2
delete boundary = deleted
get boundary = not found
get elsewhere = failed
";

/// What is made before others leave files beside it.
const MADE: &str = "create 1 0:1 = put
create boundary 0 = put
";

/// What is told beside these files.
const TOLD: &str = "list 5 = listed 1
";

/// What stands after a cleaning.
const KEPT: &str = "get 1 = got 0:1
get boundary = got 0
";

/// What is no regular file at the name of a version, or of the boundary.
const ODD: &str = "get 1 = failed
create 1 0:1 = failed
delete 1 = failed
get 2 = failed
create 2 0:1 = failed
get 3 = failed
overwrite 3 0:1 = failed
list 5 = failed
get boundary = failed
update boundary 0 1 = failed
create 4 0:4 = put
list 5 3 = listed 4
";

/// Files are left beside those of the object, and those of the dead alone are removed, once they are old enough.
const CLEANED: &[Block] = &[
    ("fast", MADE),
    ("left", ""),
    ("fast", TOLD),
    ("cleaned", "removed 0, then 2; 6 and 0 stand"),
    ("fast", KEPT),
];

/// A lock that another open holds is waited for, and then it is a fault.
const HELD: &[Block] = &[
    ("fast", "create boundary 1 = put\n"),
    (
        "held",
        "update boundary 1 2 = failed\ndelete boundary = failed\nget boundary = got 1\n",
    ),
    ("fast", "update boundary 1 2 = put\n"),
];

/// A file system that does not keep times to the nanosecond is refused, and nothing is left.
const COARSE: &[Block] = &[
    ("fast", "create 1 0:1 = put\n"),
    ("coarse", "create 2 0:2 = failed\nlist 5 = listed 1\n"),
    ("cleaned", "removed 0, then 0; 0 and 0 stand"),
];

/// A version that is made amid a listing, and follows no other, is not told.
const GROWING: &[Block] = &[
    ("fast", "create 1 0:1 = put\ncreate 2 0:2 = put\n"),
    ("growing", "list 5 = listed 1 2\n"),
    ("fast", "get 5 = got left\n"),
];

/// A temporary name that is taken is not written over: the first number of a stopped clock is that of a file of the dead.
const TAKEN: &[Block] = &[
    ("fast", MADE),
    ("left", ""),
    ("stopped", "create 7 0:7 = put\nget 7 = got 0:7\n"),
    ("cleaned", "removed 0, then 2; 6 and 0 stand"),
];

/// A folder that is missing is not made: what is written there fails.
const MISSING: &[Block] = &[(
    "nowhere",
    "get 1 = not found\ncreate 1 0:1 = failed\ncreate boundary 1 = failed\ndelete 1 = deleted\n",
)];

/// Versions above the newest that is a value are removed, and no others; none where there is none to go on at.
const REPAIRS: &str = "repair = there is no version
create 1 0:1 = put
create 2 = put
create 3 0:3 = put
repair = 3 is a value
create 4 = put
create 5 torn = put
repair = removed 5 4, at 3
list 9 = listed 1 2 3
repair = 3 is a value
create 4 = put
create boundary 3 = put
repair = 3 is not above 3
overwrite boundary torn = put
repair = the boundary is no number
overwrite boundary 2 = put
overwrite 1 = put
overwrite 3 = put
repair = none is a value
list 9 = listed 1 2 3 4
";

#[test]
fn torn_versions_are_removed(rt: HostRuntime) -> Result<(), Fail> {
    play_scene(&rt, &[("fast", REPAIRS)])?;
    play_scene(&rt, &[("synced", REPAIRS)])
}

#[test]
fn oddities_are_met(rt: HostRuntime) -> Result<(), Fail> {
    play_scene(&rt, MISSING)?;
    play_scene(&rt, HELD)?;
    play_scene(&rt, COARSE)?;
    play_scene(&rt, GROWING)?;
    play_scene(&rt, TAKEN)
}

#[test]
fn calls_are_answered(rt: HostRuntime) -> Result<(), Fail> {
    play_scene(&rt, &[("fast", CALLS)])?;
    play_scene(&rt, &[("synced", CALLS)])?;
    play_scene(&rt, CLEANED)?;
    play_scene(&rt, &[("odd", ""), ("fast", ODD)])
}
