//! Each rule that `explore` holds its outcomes against is broken by the last of some rows, and kept by those before it.

use bytes::Bytes;
use std::alloc::{AllocError, Global};
use std::test::Fail;
use txn_history::event::{Answer, Call, Event, PlainAnswer};
use txn_history::ids::Ids;
use txn_history::trace::Row;
use txn_history::view::View;
use txn_script_lines::line::Line;
use txn_script_lines::record::Record;
use txn_script_lines::text_form::TextForm;
use txn_script_orders::rule::Rule;
use txn_script_orders::rules::Rules;
use txn_store::path::{Path, PathFault};
use txn_store::request::Request;
use txn_store::store::PutMode;
use txn_store::version_names::VersionNames;

/// A row. Each but a begin names its operation first, and then what that changed, or was answered.
#[derive(Clone, Copy)]
enum Step {
    /// The next operation begins, as this line of a script says.
    Begins(&'static str),
    Creates(u64, u64, Record),
    Raises(u64, u64),
    Removes(u64, u64),
    Wrote(u64, u64),
    Read(u64, Option<(u64, Record)>),
    Found(u64, Option<Record>),
    Listed(u64, &'static [u64]),
    Done(u64),
    Refused(u64, u8),
    /// The answer shows a view, at an id.
    Shows(u64, u64, u64, Record),
    /// The answer makes a view the holder of an epoch.
    Holds(u64, u64, u64, Record, u64),
}

const FIRST: Record = Record {
    epoch: 0,
    payload: 1,
};

const SECOND: Record = Record {
    epoch: 0,
    payload: 2,
};

const CLAIMED: Record = Record {
    epoch: 1,
    payload: 1,
};

const ABOVE: Record = Record {
    epoch: 5,
    payload: 1,
};

/// Two versions, and the boundary at the first.
const RAISED: &[Step] = &[
    Step::Begins("begin 1 write - 0:1"),
    Step::Creates(1, 1, FIRST),
    Step::Wrote(1, 1),
    Step::Begins("begin 1 write 1 0:2"),
    Step::Creates(2, 2, SECOND),
    Step::Wrote(2, 2),
    Step::Begins("begin 1 advance 1"),
    Step::Raises(3, 1),
    Step::Done(3),
];

/// View 1 holds epoch 1, which stands in version 2.
const HELD: &[Step] = &[
    Step::Begins("begin 1 init 0:1"),
    Step::Creates(1, 1, FIRST),
    Step::Shows(1, 1, 1, FIRST),
    Step::Begins("begin 1 claim 1"),
    Step::Creates(2, 2, CLAIMED),
    Step::Holds(2, 1, 2, CLAIMED, 1),
];

/// What breaks a rule: rows that keep all, and those behind them, the last of which breaks it.
const BROKEN: &[(Rule, &[Step], &[Step])] = &[
    (Rule::Begin, &[], &[Step::Begins("begin 1 update 1 0:1")]),
    (
        Rule::Entry,
        &[],
        &[
            Step::Begins("begin 1 write - 0:1"),
            Step::Creates(1, 2, FIRST),
        ],
    ),
    (
        Rule::Fence,
        HELD,
        &[
            Step::Begins("begin 1 holder_update 1 5:1"),
            Step::Creates(3, 3, ABOVE),
        ],
    ),
    (
        Rule::Again,
        RAISED,
        &[
            Step::Begins("begin 2 write - 0:1"),
            Step::Creates(4, 1, FIRST),
        ],
    ),
    (
        Rule::Raise,
        RAISED,
        &[Step::Begins("begin 1 advance 1"), Step::Raises(4, 1)],
    ),
    (
        Rule::Removal,
        RAISED,
        &[Step::Begins("begin 1 delete 2"), Step::Removes(4, 2)],
    ),
    (Rule::Once, RAISED, &[Step::Done(3)]),
    (
        Rule::Write,
        &[],
        &[
            Step::Begins("begin 1 write - 0:1"),
            Step::Creates(1, 1, FIRST),
            Step::Wrote(1, 2),
        ],
    ),
    (
        Rule::Read,
        RAISED,
        &[
            Step::Begins("begin 2 read"),
            Step::Read(4, Some((1, FIRST))),
        ],
    ),
    (
        Rule::Value,
        RAISED,
        &[
            Step::Begins("begin 2 read_unchecked 2"),
            Step::Found(4, Some(FIRST)),
        ],
    ),
    (
        Rule::List,
        RAISED,
        &[Step::Begins("begin 2 list - -"), Step::Listed(4, &[1])],
    ),
    (
        Rule::Boundary,
        RAISED,
        &[Step::Begins("begin 2 check 1"), Step::Done(4)],
    ),
    (
        Rule::Claim,
        HELD,
        &[
            Step::Begins("begin 2 load"),
            Step::Shows(3, 2, 2, CLAIMED),
            Step::Begins("begin 2 claim 2"),
            Step::Holds(4, 2, 2, CLAIMED, 1),
        ],
    ),
    (
        Rule::Conflict,
        RAISED,
        &[Step::Begins("begin 2 write 2 0:1"), Step::Refused(4, 5)],
    ),
    (
        Rule::Refusal,
        RAISED,
        &[Step::Begins("begin 2 read"), Step::Refused(4, 2)],
    ),
    (
        Rule::View,
        HELD,
        &[Step::Begins("begin 2 load"), Step::Shows(3, 1, 2, CLAIMED)],
    ),
];

/// The call that a line of a script begins.
fn call_of(alloc: Global, line: &str) -> Result<Option<Call<Record>>, AllocError> {
    let line: Option<Line<Call<Record>>> = TextForm::read_text(alloc, line)?;
    Ok(match line {
        Some(Line::Event(Event::Begin(_, call))) => Some(call),
        _ => None,
    })
}

fn version(alloc: Global, id: u64) -> Result<Path, PathFault> {
    let names = VersionNames::new(alloc, Path::from_text(alloc, "root/test")?, "val")?;
    Ok(names.path_for(alloc, id)?)
}

/// The request that creates a version, or writes the boundary.
fn put(alloc: Global, path: Path, text: &str) -> Result<Request, PathFault> {
    Ok(Request::Put {
        path,
        bytes: Bytes::copy_from_slice(alloc, text.as_bytes())?,
        mode: PutMode::Create,
    })
}

/// What an operation changed, where a step says that.
fn change_of(alloc: Global, step: Step) -> Result<Option<(u64, Request)>, PathFault> {
    Ok(match step {
        Step::Creates(op, id, value) => {
            let text = format!(in alloc; "{value}")?;
            Some((op, put(alloc, version(alloc, id)?, text.as_str())?))
        }
        Step::Raises(op, to) => {
            let text = format!(in alloc; "{to}")?;
            let path = Path::from_text(alloc, "root/gc/test.boundary")?;
            Some((op, put(alloc, path, text.as_str())?))
        }
        Step::Removes(op, id) => {
            let path = version(alloc, id)?;
            Some((op, Request::Delete { path }))
        }
        _ => None,
    })
}

/// What an operation is answered, where a step says that.
fn answer_of(alloc: Global, step: Step) -> Result<Option<(u64, Answer<Record>)>, AllocError> {
    let (op, answer) = match step {
        Step::Wrote(op, id) => (op, PlainAnswer::Wrote(id)),
        Step::Read(op, found) => (op, PlainAnswer::Read(found)),
        Step::Found(op, found) => (op, PlainAnswer::Value(found)),
        Step::Listed(op, ids) => {
            let mut listed = Vec::new(alloc);
            listed.extend_from_slice(ids)?;
            (op, PlainAnswer::Ids(Ids::from_vec(listed)))
        }
        Step::Done(op) => (op, PlainAnswer::Done),
        Step::Refused(op, number) => (op, PlainAnswer::Refused(number)),
        Step::Shows(op, view, id, value) => return Ok(Some((op, Answer::View(view, id, value)))),
        Step::Holds(op, view, id, value, epoch) => {
            return Ok(Some((op, Answer::Held(view, id, value, epoch))));
        }
        _ => return Ok(None),
    };
    Ok(Some((op, Answer::Plain(answer))))
}

fn add(rows: &mut Vec<Row<Record>>, row: Row<Record>) -> Result<(), AllocError> {
    rows.push(row)?;
    Ok(())
}

/// The rows of steps. A begin has the next number.
fn rows_of(alloc: Global, steps: &[Step], rows: &mut Vec<Row<Record>>) -> Result<(), PathFault> {
    let mut begun = rows
        .iter()
        .filter(|row| matches!(row, Row::Begun(..)))
        .count() as u64;
    for step in steps {
        if let Step::Begins(line) = step {
            if let Some(call) = call_of(alloc, line)? {
                begun = begun.saturating_add(1);
                add(rows, Row::Begun(begun, call))?;
            }
        }
        if let Some((op, request)) = change_of(alloc, *step)? {
            add(rows, Row::Effect(op, request))?;
        }
        if let Some((op, answer)) = answer_of(alloc, *step)? {
            add(rows, Row::Answered(op, answer))?;
        }
    }
    Ok(())
}

/// How many rows keep the rules, and the rule that the next one breaks.
fn broken_by(alloc: Global, rows: &[Row<Record>]) -> Result<(usize, Option<Rule>), AllocError> {
    let mut rules = Rules::new(alloc, &[])?;
    for (place, row) in rows.iter().enumerate() {
        if let Err(rule) = rules.take(row)? {
            return Ok((place, Some(rule)));
        }
    }
    Ok((rows.len(), None))
}

/// The rule that these rows break by the last of them, where they break one there and no earlier.
fn broken_last(alloc: Global, kept: &[Step], steps: &[Step]) -> Result<Option<Rule>, PathFault> {
    let mut rows = Vec::new(alloc);
    rows_of(alloc, kept, &mut rows)?;
    rows_of(alloc, steps, &mut rows)?;
    let (place, rule) = broken_by(alloc, &rows)?;
    if place.saturating_add(1) == rows.len() {
        return Ok(rule);
    }
    Ok(None)
}

/// The first rule that its rows do not break so.
fn unbroken(alloc: Global) -> Result<Option<Rule>, PathFault> {
    for (rule, kept, steps) in BROKEN {
        if broken_last(alloc, kept, steps)? != Some(*rule) {
            return Ok(Some(*rule));
        }
    }
    Ok(None)
}

#[test]
fn each_rule_is_broken_by_the_last_of_its_rows(rt: HostRuntime) -> Result<(), Fail> {
    assert_eq!(rt; unbroken(rt.alloc())?, None);
    Ok(())
}

/// Whether a view of client 1 without an epoch may stand at this id with this value, after [`RAISED`] and a load.
fn may_stand(alloc: Global, id: u64, object: Record) -> Result<bool, PathFault> {
    let mut rows = Vec::new(alloc);
    rows_of(alloc, RAISED, &mut rows)?;
    let load = [Step::Begins("begin 1 load"), Step::Shows(4, 1, 2, SECOND)];
    rows_of(alloc, &load, &mut rows)?;
    let mut rules = Rules::new(alloc, &[])?;
    for row in &rows {
        if rules.take(row)?.is_err() {
            return Ok(false);
        }
    }
    let view = View {
        client: 1,
        id,
        object,
        epoch: None,
    };
    Ok(rules.stands(1, &view).is_ok())
}

/// Whether it may stand where it was shown, at an older version, and with an older value.
fn stands(alloc: Global) -> Result<[bool; 3], PathFault> {
    Ok([
        may_stand(alloc, 2, SECOND)?,
        may_stand(alloc, 1, FIRST)?,
        may_stand(alloc, 2, FIRST)?,
    ])
}

#[test]
fn a_view_stands_where_it_was_shown(rt: HostRuntime) -> Result<(), Fail> {
    assert_eq!(rt; stands(rt.alloc())?, [true, false, false]);
    Ok(())
}
