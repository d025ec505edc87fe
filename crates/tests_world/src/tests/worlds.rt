//! Worlds: what each event is told.
use std::alloc::{AllocError, Global};
use std::test::Fail;
use txn_history::event::{Call, Event, PlainCall, ViewCall};
use txn_script_lines::record::{RecordCodec, RecordEpoch};
use txn_world::world::World;

/// Transcripts of events. The end lines of a script stand below `? end`, those of views alone below `? views`.
pub(crate) const TRANSCRIPTS: &[&str] = &[
    "\
# a read finds what was written
begin 1 write - 0:1 => Began(1)
serve 1 => Went(1)
look 1 => Went(1)
# Its check looks twice before it gets the boundary.
look 1 => Went(1)
look 1 => Went(1)
serve 1 => Answered(1, Plain(Wrote(1)))
begin 2 read => Began(2)
look 2, serve 2, look 2, serve 2, look 2, look 2, look 2 => Went(2)
serve 2 => Answered(2, Plain(Read(Some((1, Record { epoch: 0, payload: 1 })))))
? state
  5 rows, failed [], worker 1 took 15
",
    "\
# the second of two writes conflicts
begin 1 write - 0:1 => Began(1)
begin 2 write - 0:2 => Began(2)
serve 2, look 2, look 2, look 2, serve 2 => Answered(2, Plain(Wrote(1)))
serve 1 => Answered(1, Plain(Refused(5)))
? state
  5 rows, failed [], worker 1 took 8
",
    "\
# nothing is read of an empty store
begin 1 read => Began(1)
look 1 => Went(1)
serve 1 => Went(1)
look 1 => Answered(1, Plain(Read(None)))
? state
  2 rows, failed [], worker 1 took 4
",
    "\
# what is not there
begin 0 read => UnknownNumber
begin 4 read => UnknownNumber
begin 4 write 1 0:1 => UnknownNumber
begin 1 write 0 0:1 => UnknownBase
begin 1 write 1 0:1 => UnknownBase
begin 1 advance 1 => BoundaryTooHigh
look 1 => UnknownNumber
serve 0 => UnknownNumber
serve 1 => UnknownNumber
fail 1 before => UnknownNumber
giveup 1 => UnknownNumber
land 1 => UnknownNumber
crash 0 => UnknownNumber
crash 4 => UnknownNumber
? state
  0 rows, failed [], worker 1 took 0
",
    "\
# a look and a store call are not one another
begin 1 read => Began(1)
serve 1 => NotAsked
fail 1 after => NotAsked
look 1 => Went(1)
look 1 => NotAsked
fail 1 before => Answered(1, Plain(Refused(2)))
look 1 => UnknownNumber
? state
  2 rows, failed [1], worker 1 took 3
",
    "\
# a base is known once it was answered
begin 1 write - 0:1 => Began(1)
# A create that was not answered makes no base.
begin 1 write 1 0:2 => UnknownBase
serve 1 => Went(1)
begin 1 write 1 0:2 => UnknownBase
look 1, look 1, look 1, serve 1 => Answered(1, Plain(Wrote(1)))
serve 1 => UnknownNumber
begin 1 write 1 0:2 => Began(2)
? state
  4 rows, failed [], worker 1 took 7
",
    "\
# an epoch is not below that of the base
begin 1 write_unchecked - 5:1 => Began(1)
serve 1 => Went(1)
look 1 => Answered(1, Plain(Wrote(1)))
begin 2 write 1 4:2 => EpochLowered
begin 2 write 1 5:2 => Began(2)
? state
  4 rows, failed [], worker 1 took 4
",
    "\
# a view and its holder
begin 1 init 0:1 => Began(1)
serve 1, look 1, look 1, look 1, serve 1 => Answered(1, View(1, 1, Record { epoch: 0, payload: 1 }))
begin 2 refresh 1 => UnknownNumber
begin 1 claim 1 => Began(2)
begin 1 update 1 0:2 => ViewBusy
serve 2, look 2, look 2, look 2, serve 2 => Answered(2, Held(1, 2, Record { epoch: 1, payload: 1 }, 1))
# A begin is answered where the value has another epoch.
begin 1 holder_update 1 2:1 => Answered(3, Plain(Refused(7)))
begin 1 holder_update 1 1:2 => Began(4)
fail 4 after => Answered(4, Plain(Refused(2)))
? state
  11 rows, failed [4], worker 1 took 15
",
    "\
# requests that reach the store late
begin 1 write_unchecked - 0:1 => Began(1)
fail 1 loose => Answered(1, Plain(Refused(2)))
begin 2 write_unchecked - 0:2 => Began(2)
giveup 2 => GaveUp(2)
crash 1 => Crashed(1)
land 1 => Landed(1, true)
land 1 => Landed(1, false)
land 2 => Landed(2, false)
? state
  4 rows, failed [1], worker 1 took 8
",
    "\
# calls run to their answers
begin 1 write - 7:0 => Began(1)
run 1 => Answered(1, Plain(Wrote(1)))
begin 2 read => Began(2)
run 2 => Answered(2, Plain(Read(Some((1, Record { epoch: 7, payload: 0 })))))
begin 1 write 1 8:0 => Began(3)
run 3 => Answered(3, Plain(Wrote(2)))
begin 2 write 1 9:0 => Began(4)
run 4 => Answered(4, Plain(Refused(5)))
begin 2 read => Began(5)
run 5 => Answered(5, Plain(Read(Some((2, Record { epoch: 8, payload: 0 })))))
begin 2 read_seen 1 => Began(6)
run 6 => Answered(6, Plain(Value(Some(Record { epoch: 7, payload: 0 }))))
begin 1 read_unchecked 3 => Began(7)
run 7 => Answered(7, Plain(Value(None)))
begin 1 advance 1 => Began(8)
run 8 => Answered(8, Plain(Done))
begin 1 delete 1 => Began(9)
run 9 => Answered(9, Plain(Done))
begin 2 check 1 => Began(10)
run 10 => Answered(10, Plain(Refused(5)))
begin 2 write_unchecked 2 18446744073709551615:0 => Began(11)
run 11 => Answered(11, Plain(Wrote(3)))
? end
  entry 1 7:0
  entry 2 8:0
  entry 3 18446744073709551615:0
  boundary 1
  erased 1
",
    "\
# calls on views run to their answers
begin 1 load => Began(1)
run 1 => Answered(1, Plain(Refused(4)))
begin 1 init 7:0 => Began(2)
run 2 => Answered(2, View(1, 1, Record { epoch: 7, payload: 0 }))
begin 2 load => Began(3)
run 3 => Answered(3, View(2, 1, Record { epoch: 7, payload: 0 }))
begin 2 update 2 8:0 => Began(4)
run 4 => Answered(4, View(2, 2, Record { epoch: 8, payload: 0 }))
begin 1 claim 1 => Began(5)
run 5 => Answered(5, Held(1, 3, Record { epoch: 9, payload: 0 }, 9))
begin 2 refresh 2 => Began(6)
run 6 => Answered(6, View(2, 3, Record { epoch: 9, payload: 0 }))
begin 2 claim_at 2 12 => Began(7)
run 7 => Answered(7, Held(2, 4, Record { epoch: 12, payload: 0 }, 12))
begin 2 holder_update 2 12:0 => Began(8)
run 8 => Answered(8, View(2, 5, Record { epoch: 12, payload: 0 }))
begin 1 holder_refresh 1 => Began(9)
run 9 => Answered(9, Plain(Refused(6)))
begin 2 holder_refresh 2 => Began(10)
run 10 => Answered(10, View(2, 5, Record { epoch: 12, payload: 0 }))
# The refresh that fenced the older holder left its view at what it read.
? end
  entry 1 7:0
  entry 2 8:0
  entry 3 9:0
  entry 4 12:0
  entry 5 12:0
  boundary 0
  erased none
  holder 1 at 5 12:0 epoch 9
  holder 2 at 5 12:0 epoch 12
? busy
  3 clients, 2 views, busy [false, false, false, false]
begin 2 holder_refresh 2 => Began(11)
? busy
  3 clients, 2 views, busy [false, false, true, false]
crash 2 => Crashed(2)
# An ended view keeps its number.
? busy
  3 clients, 2 views, busy [false, false, false, false]
? views
  holder 1 at 5 12:0 epoch 9
crash 1 => Crashed(1)
? views
",
    "\
# what is refused adds nothing
begin 1 read => Began(1)
serve 2 => UnknownNumber
? state
  1 rows, failed [], worker 1 took 1
? journal
  1 Begin(1, Plain(Read))
",
];

/// How many of two events a run takes: a begin, and one of a client that is not there.
fn run_of_two(alloc: Global) -> Result<u64, AllocError> {
    let mut events = Vec::new(alloc);
    events.push(Event::Begin(1, Call::Plain(PlainCall::Read)))?;
    events.push(Event::Begin(2, Call::View(ViewCall::Load)))?;
    let mut world = World::new(alloc, RecordCodec, RecordEpoch, 1, 1)?;
    Ok(world.run(events))
}

#[test]
fn a_run_passes_over_what_is_refused(rt: HostRuntime) -> Result<(), Fail> {
    assert_eq!(rt; run_of_two(rt.alloc())?, 1);
    Ok(())
}
