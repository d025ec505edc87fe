//! What each call asks of the system, line by line, in its order.

use crate::tests::scenes::play_scene;
use std::test::Fail;

/// With syncs a file is synced before it comes to its name, and its folder after that. The boundary and what is overwritten are
/// replaced under a lock, under which the boundary is read too.
const PUTS: &str = "create 1 0:1 = put
noted create 2 0:2 = put
  look for 2
  make new 2#
  write 2#
  time 2#
  sync 2#
  link 2# 2
  remove 2#
  open test
  sync test
noted create 2 0:3 = already exists
  look for 2
create boundary 1 = put
noted update boundary 1 2 = put
  open or make boundary#0
  lock boundary#0
  look for boundary
  open boundary
  look at boundary
  make new boundary#
  write boundary#
  time boundary#
  sync boundary#
  rename boundary# boundary
  open gc
  sync gc
noted update boundary 1 3 = precondition
  open or make boundary#0
  lock boundary#0
  look for boundary
  open boundary
  look at boundary
noted overwrite 2 0:4 = put
  look for 2
  open or make 2#0
  lock 2#0
  make new 2#
  write 2#
  time 2#
  sync 2#
  rename 2# 2
  open test
  sync test
";

/// With syncs what this store made is told with no sync. A listing locks the versions with others, a removal alone, and its folder
/// is synced after it, also where the file is gone.
const OTHERS: &str = "create 1 0:1 = put
create 2 0:2 = put
create boundary 1 = put
noted get 2 = got 0:2
  look for 2
  open 2
  look at 2
noted list 5 = listed 1 2
  look for test
  open test/#0
  open or make test/#0
  lock with others test/#0
  list test
  list test
  look for 1
  look for 2
noted delete 2 = deleted
  look for 2
  open or make test/#0
  lock test/#0
  remove 2
  open test
  sync test
noted delete 2 = deleted
  look for 2
  open test
  sync test
noted delete boundary = deleted
  look for boundary
  open or make boundary#0
  lock boundary#0
  remove boundary
  open gc
  sync gc
";

/// Without syncs: the same, but for the syncs, and a name is not looked up before it is linked.
const FAST: &str = "create 1 0:1 = put
noted create 2 0:2 = put
  make new 2#
  write 2#
  time 2#
  link 2# 2
  remove 2#
noted create 2 0:3 = already exists
  make new 2#
  write 2#
  time 2#
  link 2# 2
  look for 2#
  look for 2
  look for 2
  remove 2#
create boundary 1 = put
noted update boundary 1 2 = put
  open or make boundary#0
  lock boundary#0
  look for boundary
  open boundary
  look at boundary
  make new boundary#
  write boundary#
  time boundary#
  rename boundary# boundary
noted delete 2 = deleted
  look for 2
  open or make test/#0
  lock test/#0
  remove 2
noted delete 2 = deleted
  look for 2
noted list 5 = listed 1
  look for test
  open test/#0
  lock with others test/#0
  list test
  list test
  look for 1
";

/// What another made is synced before it is told first, and not again.
const TOLD: &str = "other create 1 0:1 = put
noted get 1 = got 0:1
  look for 1
  open 1
  look at 1
  open test
  sync test
noted get 1 = got 0:1
  look for 1
  open 1
  look at 1
other create boundary 1 = put
noted get boundary = got 1
  look for boundary
  open boundary
  look at boundary
  open gc
  sync gc
other create 2 0:2 = put
noted list 5 = listed 1 2
  look for test
  open test/#0
  open or make test/#0
  lock with others test/#0
  list test
  list test
  look for 1
  look for 2
  open test
  sync test
";

/// A folder is made where it is missing, and synced in the one that it stands in. The time of the first file is read back.
const MADE: &str = "noted create 1 0:1 = put
  look for 1
  make new 1#
  look for test
  make folder test
  open root
  sync root
  make new 1#
  write 1#
  time 1#
  look at 1#
  sync 1#
  link 1# 1
  remove 1#
  open test
  sync test
";

#[test]
fn calls_ask_the_system_in_order(rt: HostRuntime) -> Result<(), Fail> {
    play_scene(&rt, &[("synced", PUTS)])?;
    play_scene(&rt, &[("synced", OTHERS)])?;
    play_scene(&rt, &[("fast", FAST)])?;
    play_scene(&rt, &[("synced", TOLD)])?;
    play_scene(&rt, &[("synced", MADE)])
}
