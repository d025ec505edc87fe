//! Operations that are given what they ask for until they are answered.
use std::alloc::{AllocError, Global};
use std::test::Fail;
use txn_history::event::{Call, EventFault, Told};
use txn_script_lines::line::Line;
use txn_script_lines::record::{Record, RecordCodec, RecordEpoch};
use txn_script_lines::text_form::TextForm;
use txn_world::finishing::finish::{Finished, finish};
use txn_world::world::World;

type Records = World<Record, RecordCodec, RecordEpoch>;

/// Calls one after another, in a world of two clients and of pages of two files, each with what its operation is answered, and how
/// many looks and serves it took.
const FINISHED: &[(&str, &str)] = &[
    ("begin 1 write - 0:1", "Plain(Wrote(1)) in 5"),
    (
        "begin 2 read",
        "Plain(Read(Some((1, Record { epoch: 0, payload: 1 })))) in 8",
    ),
    ("begin 2 write 1 0:2", "Plain(Wrote(2)) in 5"),
    ("begin 1 write 1 0:3", "Plain(Refused(5)) in 1"),
    ("begin 1 list - -", "Plain(Ids(Ids { ids: [1, 2] })) in 1"),
    ("begin 1 advance 1", "Plain(Done) in 6"),
    ("begin 2 advance 1", "Plain(Done) in 5"),
    ("begin 1 delete 1", "Plain(Done) in 4"),
    (
        "begin 1 load",
        "View(1, 2, Record { epoch: 0, payload: 2 }) in 9",
    ),
    (
        "begin 1 claim 1",
        "Held(1, 3, Record { epoch: 1, payload: 2 }, 1) in 6",
    ),
];

/// What came of an operation.
fn finished_text(
    alloc: Global,
    finished: Result<Finished<Record>, EventFault>,
) -> Result<String, AllocError> {
    match finished {
        Ok(Finished { answer, events }) => format!(in alloc; "{answer:?} in {events}"),
        Err(fault) => format!(in alloc; "{fault:?}"),
    }
}

/// What came of a call.
fn call_text(alloc: Global, world: &mut Records, begin: &str) -> Result<String, AllocError> {
    let line: Option<Line<Call<Record>>> = TextForm::read_text(alloc, begin)?;
    let Some(Line::Event(event)) = line else {
        return format!(in alloc; "no event");
    };
    match world.take(event) {
        Ok(Told::Began(op)) => finished_text(alloc, finish(world, op)),
        Ok(told) => format!(in alloc; "{told:?}"),
        Err(fault) => format!(in alloc; "{fault:?}"),
    }
}

/// The calls that come otherwise than they stand, each with what came.
fn others(alloc: Global) -> Result<String, AllocError> {
    let mut world = World::new(alloc, RecordCodec, RecordEpoch, 2, 2)?;
    let mut others = String::new(alloc);
    for (begin, wanted) in FINISHED {
        let came = call_text(alloc, &mut world, begin)?;
        if came.as_str() != *wanted {
            let line = format!(in alloc; "{begin}: {came}\n")?;
            others.push_str(line.as_str())?;
        }
    }
    Ok(others)
}

/// What comes of an operation that has not begun, and of one that ended, and how many rows there are.
fn ended(alloc: Global) -> Result<String, AllocError> {
    let mut world = World::new(alloc, RecordCodec, RecordEpoch, 1, 1)?;
    let before = finished_text(alloc, finish(&mut world, 1))?;
    let begun = call_text(alloc, &mut world, "begin 1 read")?;
    let after = finished_text(alloc, finish(&mut world, 1))?;
    let given_up = call_text(alloc, &mut world, "begin 1 load")?;
    let rows = world.trace().len();
    format!(in alloc; "{before}, {begun}, {after}, {given_up}, {rows} rows")
}

#[test]
fn calls_are_finished_in_so_many(rt: HostRuntime) -> Result<(), Fail> {
    assert_eq!(rt; others(rt.alloc())?.as_str(), "");
    Ok(())
}

#[test]
fn what_has_ended_is_not_finished(rt: HostRuntime) -> Result<(), Fail> {
    assert_eq!(rt;
        ended(rt.alloc())?.as_str(),
        "UnknownNumber, Plain(Read(None)) in 3, UnknownNumber, Plain(Refused(4)) in 3, 4 rows"
    );
    Ok(())
}
