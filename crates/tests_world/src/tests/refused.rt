//! Growths that are refused: an event that is refused for want of memory is taken again, and is told what it is told with
//! ample memory, but where its operation was answered 9. Such an event changes no file, and leaves each view as it was, but
//! for that of a claim.
use crate::tests::played::{is_right, played};

pub(crate) const TRANSCRIPTS: &[&str] = &[
    "\
# an update that failed after its effect
begin 1 init 0:1 => Began(1)
run 1 => Answered(1, View(1, 1, Record { epoch: 0, payload: 1 }))
begin 1 update 1 0:2 => Began(2)
fail 2 after => Answered(2, Plain(Refused(2)))
begin 1 update 1 0:2 => Began(3)
run 3 => Answered(3, Plain(Refused(5)))
begin 1 refresh 1 => Began(4)
run 4 => Answered(4, View(1, 2, Record { epoch: 0, payload: 2 }))
? end
  entry 1 0:1
  entry 2 0:2
  boundary 0
  erased none
  view 1 at 2 0:2
",
    "\
# an update that the boundary reached before its check
begin 1 init 0:0 => Began(1)
run 1 => Answered(1, View(1, 1, Record { epoch: 0, payload: 0 }))
begin 2 load => Began(2)
run 2 => Answered(2, View(2, 1, Record { epoch: 0, payload: 0 }))
begin 1 update 1 0:1 => Began(3)
serve 3 => Went(3)
begin 2 refresh 2 => Began(4)
run 4 => Answered(4, View(2, 2, Record { epoch: 0, payload: 1 }))
begin 2 update 2 0:2 => Began(5)
run 5 => Answered(5, View(2, 3, Record { epoch: 0, payload: 2 }))
begin 3 advance 2 => Began(6)
run 6 => Answered(6, Plain(Done))
look 3 => Went(3)
run 3 => Answered(3, Plain(Refused(5)))
begin 1 refresh 1 => Began(7)
run 7 => Answered(7, View(1, 3, Record { epoch: 0, payload: 2 }))
begin 1 update 1 0:3 => Began(8)
run 8 => Answered(8, View(1, 4, Record { epoch: 0, payload: 3 }))
? end
  entry 1 0:0
  entry 2 0:1
  entry 3 0:2
  entry 4 0:3
  boundary 2
  erased none
  view 1 at 4 0:3
  view 2 at 3 0:2
",
    "\
# a claim that lands later
begin 1 init 0:1 => Began(1)
run 1 => Answered(1, View(1, 1, Record { epoch: 0, payload: 1 }))
begin 1 claim 1 => Began(2)
fail 2 loose => Answered(2, Plain(Refused(2)))
begin 2 load => Began(3)
run 3 => Answered(3, View(2, 1, Record { epoch: 0, payload: 1 }))
land 1 => Landed(1, true)
begin 2 claim 2 => Began(4)
run 4 => Answered(4, Held(2, 3, Record { epoch: 2, payload: 1 }, 2))
? end
  entry 1 0:1
  entry 2 1:1
  entry 3 2:1
  boundary 0
  erased none
  holder 2 at 3 2:1 epoch 2
",
    "\
# a boundary below the greatest answered id
begin 1 init 0:1 => Began(1)
run 1 => Answered(1, View(1, 1, Record { epoch: 0, payload: 1 }))
begin 1 update 1 0:2 => Began(2)
run 2 => Answered(2, View(1, 2, Record { epoch: 0, payload: 2 }))
begin 2 advance 2 => BoundaryTooHigh
begin 2 advance 1 => Began(3)
run 3 => Answered(3, Plain(Done))
begin 2 delete 1 => Began(4)
run 4 => Answered(4, Plain(Done))
begin 2 list - - => Began(5)
run 5 => Answered(5, Plain(Ids(Ids { ids: [2] })))
? end
  entry 1 0:1
  entry 2 0:2
  boundary 1
  erased 1
  view 1 at 2 0:2
",
    "\
# a holder's update and a crash
begin 1 init 0:1 => Began(1)
run 1 => Answered(1, View(1, 1, Record { epoch: 0, payload: 1 }))
begin 1 claim 1 => Began(2)
run 2 => Answered(2, Held(1, 2, Record { epoch: 1, payload: 1 }, 1))
begin 1 holder_update 1 2:5 => Answered(3, Plain(Refused(7)))
begin 1 holder_update 1 1:5 => Began(4)
run 4 => Answered(4, View(1, 3, Record { epoch: 1, payload: 5 }))
begin 2 load => Began(5)
run 5 => Answered(5, View(2, 3, Record { epoch: 1, payload: 5 }))
begin 2 claim_at 2 7 => Began(6)
crash 2 => Crashed(2)
land 1 => Landed(1, true)
begin 1 holder_refresh 1 => Began(7)
run 7 => Answered(7, Plain(Refused(6)))
? end
  entry 1 0:1
  entry 2 1:1
  entry 3 1:5
  entry 4 7:5
  boundary 0
  erased none
  holder 1 at 4 7:5 epoch 1
",
];

// Run it with each allocation failing in turn.
#[test]
fn a_refused_event_is_taken_again(rt: HostRuntime) {
    for transcript in TRANSCRIPTS {
        assert!(rt;
            is_right(played(rt.alloc(), transcript), transcript),
            "{transcript}"
        );
    }
}
