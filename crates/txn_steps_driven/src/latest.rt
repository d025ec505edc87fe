//! A read of the newest version, driven to its end.
ghost use Rattle.std.specs.Prelude.{◌≡◌, ◌^◌, ◌<◌, ◌≤◌, IfSome};
ghost use Rattle.txn_steps.specs.boundary.Windows.{Ascends, greatest_held};
ghost use Rattle.txn_steps.specs.Latest.{latest_begun};
ghost use Rattle.txn_steps_driven.specs.LatestReads.{Ended};
ghost use Rattle.txn_steps_driven.specs.LatestRuns.{is_listing, Pays};

use crate::replies::reply_to;
use crate::turns::Turns;
use std::alloc::Global;
use txn_steps::boundary::turned::Turned;
use txn_steps::boundary::window::Window;
use txn_steps::latest::{LatestOp, ReadAnswer};
use txn_store::store::ObjectStore;
use txn_store::types::codec::ObjectCodec;
use txn_store::types::layout::Layout;
use txn_store::types::step_error::ErrorKind;

/// Whether it asks for a page.
fn is_listing<T>(op: &LatestOp<T>) -> bool
    ensures { result ≡ is_listing op.now }
{
    matches!(op, LatestOp::Lists(_, _))
}

/// Spends a turn where a page is asked for after another, and answers false where none is left.
fn pay(asks: bool, listed: &mut bool, turns: &mut Turns) -> bool
    ensures { Pays asks listed.old listed.new turns.old turns.new result }
{
    if !asks {
        return true;
    }
    if !*listed {
        *listed = true;
        return true;
    }
    turns.spend()
}

/// What is held has ascending ids, of which the greatest is a number of 64 bits. This says so to a proof, and does nothing.
fn first_held(latest: &Window)
    ensures ascends { Ascends latest.now }
    ensures small { IfSome (greatest_held latest.now) (λ version. version.id < 2 ^ 64) }
{
    let _versions = latest.as_slice();
    if let Some(version) = latest.greatest() {
        let _id = version.id.id();
    }
}

/// Runs a read to its end, from where its first look leaves it.
fn run<T: Drop, C: ObjectCodec<T>, S: ObjectStore>(
    alloc: Global,
    layout: &Layout<C>,
    latest: &mut Window,
    store: &mut S,
    turns: &mut Turns,
    op: &mut LatestOp<T>,
) -> ReadAnswer<T>
    requires page { 1 ≤ layout.now.page }
    requires ascends { Ascends latest.old }
    requires small { IfSome (greatest_held latest.old) (λ version. version.id < 2 ^ 64) }
    requires begins { op.old ≡ latest_begun layout.now.names layout.now.page (greatest_held latest.old) }
    ensures { Ended layout.now.names layout.now.page (C.decoded layout.now.codec) (S.state store.old) (S.state store.new) turns.old turns.new latest.old latest.new result }
{
    let mut listed = false;
    'steps: loop {
        if !pay(is_listing(op), &mut listed, turns) {
            return Err(ErrorKind::TurnsExhausted.into());
        }
        match op.take(alloc, layout, latest, reply_to(alloc, store, op.ask())) {
            Turned::Goes => {}
            Turned::Done(answer) => return answer,
        }
    }
}

/// Reads the newest version, as the operation of `txn_steps` does: it looks for the greatest held version and asks for
/// its successors, at most four, and else lists the versions, page by page. The version that it answers is held then.
///
/// It answers the id and the value of the version with no stored successor, or `None` where no version was held and none
/// is stored. Before each page after the first it spends a turn, and `TurnsExhausted` comes where none is left.
/// `CallbackError` comes where the codec refuses the bytes of that version, `ObjectStoreError` where the store failed,
/// and `NoMemory` where a growth was refused. It leaves the files as they were, also where it fails, and what is held grows
/// by stored versions alone.
pub fn read_latest<T: Drop, C: ObjectCodec<T>, S: ObjectStore>(
    alloc: Global,
    layout: &Layout<C>,
    latest: &mut Window,
    store: &mut S,
    turns: &mut Turns,
) -> ReadAnswer<T>
    requires { 1 ≤ layout.now.page }
    ensures { Ended layout.now.names layout.now.page (C.decoded layout.now.codec) (S.state store.old) (S.state store.new) turns.old turns.new latest.old latest.new result }
{
    first_held(latest);
    let mut op = LatestOp::begun(alloc, layout, latest)?;
    let answer = run(alloc, layout, latest, store, turns, &mut op);
    // (by a call: in place, the proof would follow each state that may be dropped)
    drop(op);
    answer
}
