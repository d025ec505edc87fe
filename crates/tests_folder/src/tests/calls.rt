//! How many calls of the system each call takes, and so which of them sync a folder, and what a reader may do.

use crate::tests::scenes::{Block, play_scene};
use std::test::Fail;

/// With no sync.
const FAST: &str = "1 delete 1 = deleted
6 create 1 0:1 = put
3 create 2 0:2 = put
6 create 2 0:2 = already exists
2 get 2 = got 0:2
other create 3 0:3 = put
2 get 3 = got 0:3
other create boundary 1 = put
2 get boundary = got 1
5 update boundary 1 2 = put
3 update boundary 1 3 = precondition
3 delete 1 = deleted
1 delete 1 = deleted
6 list 5 = listed 2 3
";

/// A folder is made, and each name of it is synced.
const MADE: &str = "2 delete 1 = deleted
9 create 1 0:1 = put
5 create 2 0:2 = put
2 get 2 = got 0:2
5 overwrite 2 0:3 = put
2 get 2 = got 0:3
4 delete 1 = deleted
";

/// A delete of what is gone syncs the folder: another's removal need not last yet.
const GONE: &str = "other create 1 0:1 = put
other create 2 0:2 = put
other delete 1 = deleted
2 delete 1 = deleted
2 delete 1 = deleted
2 delete 3 = deleted
";

/// A boundary that another raised is synced as it is told first, and its own is not again.
const TOLD_BOUNDARY: &str = "1 get boundary = not found
other create boundary 1 = put
3 get boundary = got 1
2 get boundary = got 1
2 get boundary 1 = not modified
other update boundary 1 2 = put
3 get boundary 1 = got 2
2 get boundary 2 = not modified
6 update boundary 2 3 = put
2 get boundary = got 3
3 update boundary 2 4 = precondition
other update boundary 3 5 = put
3 get boundary 5 = not modified
";

/// A version that another made is synced as it or a later one is told first.
const TOLD_VERSIONS: &str = "other create 1 0:1 = put
3 get 1 = got 0:1
2 get 1 = got 0:1
other create 2 0:2 = put
other create 3 0:3 = put
other create 4 0:4 = put
9 list 3 = listed 1 2 3 and more
7 list 3 = listed 1 2 3 and more
2 get 3 = got 0:3
3 get 4 = got 0:4
8 list 5 = listed 1 2 3 4
";

/// What stands before a reader comes.
const PUT: &str = "create 1 0:1 = put
create boundary 1 = put
";

/// What a reader is told where no one has listed or removed anything yet, so that the lock of the versions is missing.
const UNLOCKED: &str = "list 5 = failed
";

/// A listing makes the lock.
const LOCKED: &str = "list 5 = listed 1
";

/// What a reader is told, which may write nothing, where the lock is there.
const READ: &str = "list 5 = listed 1
get 1 = got 0:1
get boundary = got 1
create 2 0:2 = failed
update boundary 1 2 = failed
delete 1 = failed
delete 2 = deleted
";

/// One who may not write, before the lock is there and after it.
const READERS: &[Block] = &[
    ("synced", PUT),
    ("reader", UNLOCKED),
    ("synced", LOCKED),
    ("reader", READ),
];

#[test]
fn calls_of_the_system_are_counted(rt: HostRuntime) -> Result<(), Fail> {
    play_scene(&rt, &[("fast", FAST)])?;
    play_scene(&rt, &[("synced", MADE)])?;
    play_scene(&rt, &[("synced", GONE)])?;
    play_scene(&rt, &[("synced", TOLD_BOUNDARY)])?;
    play_scene(&rt, &[("synced", TOLD_VERSIONS)])?;
    play_scene(&rt, READERS)
}
