//! A view over a register, with ids of its own and no invariant.
use crate::tests::told::{Told, did};
use slatedb_txn_obj::{
    NoInvariant, SimpleTransactionalObject, TransactionalObject, TransactionalObjectError,
    TransactionalStorageProtocol, Turns,
};
use slatedb_txn_obj_uses::register::{Register, Revision};
use std::alloc::Global;
use std::test::Fail;
use txn_store::in_memory::InMemory;

type View = SimpleTransactionalObject<u64, Revision, NoInvariant>;

/// A view, and what its calls are lent.
#[derive(Drop)]
struct Desk {
    store: InMemory,
    register: Register,
    turns: Turns,
    view: View,
}

/// A call of the view, or a write beside it.
#[derive(Clone, Copy)]
enum Step {
    /// An update by its candidate, under this revision.
    UpdateOf(u64),
    /// A write of a value on a base.
    Write(u64, u64),
    Refresh,
    /// The revision that the view is at, and its value.
    Shows,
}

/// A desk whose view wrote this value. It has no turn.
fn a_desk(alloc: Global, value: u64) -> Result<Desk, TransactionalObjectError> {
    let mut store = InMemory::new(alloc);
    let mut register = Register::new(alloc);
    let view = View::init(alloc, &mut register, &mut store, value)?;
    Ok(Desk {
        store,
        register,
        turns: Turns::new(0),
        view,
    })
}

fn shows(view: &View) -> Told {
    Told::Found(view.id().0, *view.object())
}

fn update(desk: &mut Desk, revision: u64) -> Told {
    let Desk {
        store,
        register,
        view,
        ..
    } = desk;
    match view.prepare_dirty() {
        Ok(mut dirty) => {
            dirty.id = Revision(revision);
            did(&view.update(register, store, dirty))
        }
        Err(error) => Told::Fails(error.number()),
    }
}

fn write(desk: &mut Desk, base: u64, value: u64) -> Told {
    let Desk {
        store,
        register,
        ..
    } = desk;
    match register.write(store, Some(Revision(base)), &value) {
        Ok(revision) => Told::Found(revision.0, value),
        Err(error) => Told::Fails(error.number()),
    }
}

fn refresh(desk: &mut Desk) -> Told {
    let Desk {
        store,
        register,
        turns,
        view,
    } = desk;
    match view.refresh(register, store, turns) {
        Ok(value) => {
            let value = *value;
            Told::Found(view.id().0, value)
        }
        Err(error) => Told::Fails(error.number()),
    }
}

fn play(desk: &mut Desk, step: Step) -> Told {
    match step {
        Step::UpdateOf(revision) => update(desk, revision),
        Step::Write(base, value) => write(desk, base, value),
        Step::Refresh => refresh(desk),
        Step::Shows => shows(&desk.view),
    }
}

/// The first step that tells otherwise, counted from 0, with what it tells, where there is one.
fn other(desk: &mut Desk, steps: &[(Step, Told)]) -> Option<(usize, Told)> {
    for (at, (step, told)) in steps.iter().enumerate() {
        let played = play(desk, *step);
        if played != *told {
            return Some((at, played));
        }
    }
    None
}

#[test]
fn a_view_of_a_register_has_its_ids(rt: HostRuntime) -> Result<(), Fail> {
    const STEPS: &[(Step, Told)] = &[
        (Step::Shows, Told::Found(1, 10)),
        (Step::UpdateOf(1), Told::Did),
        (Step::Shows, Told::Found(2, 10)),
        (Step::UpdateOf(1), Told::Fails(5)),
        (Step::Write(2, 30), Told::Found(3, 30)),
        (Step::Refresh, Told::Found(3, 30)),
    ];
    let mut desk = a_desk(rt.alloc(), 10)?;
    assert_eq!(rt; other(&mut desk, STEPS), None);
    Ok(())
}
