//! The operations of a world's clients: those of calls without a view, and those of calls on views.
ghost use Rattle.std.specs.Prelude.{◌≡◌, ◌==◌, false, None, Some, IfOk, IfSome, IsSome, IsTrue};
ghost use Rattle.txn_steps.specs.boundary.Steps.{by_number, turned_by_number};
ghost use Rattle.txn_store.specs.types.Clones.{IsExactClone};
ghost use Rattle.txn_history.specs.Names.{world_names, world_boundary};
ghost use Rattle.txn_steps_views.specs.Lacking.{lacks};
ghost use Rattle.txn_history.specs.Calls.{view_used, is_holders};
ghost use Rattle.std.specs.Option.{option_copied, option_map};
ghost use Rattle.txn_machine.specs.plain.Doing.{first_of};
ghost use Rattle.txn_store.specs.types.Errors.{error_number};
ghost use Rattle.txn_machine.specs.Doing.{started, first_next, next_of, refused, refusal_in, IsMadeSo, ReadsBack, FitsWord};
ghost use Rattle.txn_machine.specs.declared.doing.Doing.{Doing};
ghost use Rattle.txn_machine.specs.views.Parts.{is_claim_call};

use crate::plain::doing::{PlainDoing, start as start_plain};
use crate::work::Work;
use std::alloc::{AllocError, Global};
use std::marker::Model;
use txn_history::event::{Call, PlainAnswer, ViewCall};
use txn_history::view::View;
use txn_steps::boundary::ask::Ask;
use txn_steps::boundary::turned::Turned;
use txn_steps_views::claim::ClaimOp;
use txn_steps_views::entry::EntryOp;
use txn_steps_views::op::ViewOp;
use txn_steps_views::outcome::{Outcome, ViewAnswer};
use txn_steps_views::view_read::{Purpose, ViewReadOp};
use txn_store::types::codec::ObjectCodec;
use txn_store::types::epoch::EpochField;
use txn_store::types::id::MonotonicId;
use txn_store::types::layout::Layout;
use txn_store::types::step_error::StepError;

/// What an operation does next. One that was answered, or given up, is a plain one that has ended.
pub enum Doing<T> {
    /// That of a call without a view.
    Plain(PlainDoing<T>),
    /// That of a call on views.
    View(ViewOp<T>),
}

impl<T: Drop> Drop for Doing<T> {
    /// Drops the operation's state: here, so that no crate above has to prove how each is dropped.
    fn drop(self) {
        // (by calls: in place, the proof would follow each state that may be dropped)
        match self {
            Doing::Plain(doing) => drop(doing),
            Doing::View(op) => drop(op),
        }
    }
}

/// An operation of a client.
#[derive(Drop)]
pub struct Operation<T> {
    /// The client whose operation it is, counted from 1.
    pub client: u64,
    /// The view that it uses.
    pub view: Option<u64>,
    /// Whether it is a claim, which ends its view unless it is held.
    pub claims: bool,
    /// What it does next.
    pub doing: Work<T>,
}

/// The same answer twice: once for the trace, and once to be told. A clause sees the answer.
#[derive(Drop)]
pub struct Twice<T> {
    noted: PlainAnswer<T>,
    told: PlainAnswer<T>,
}

impl<T> Model for Twice<T> {
    ghost use Rattle.std.specs.Prelude.{◌≡◌};
    ghost use Rattle.txn_history.specs.declared.event.PlainAnswer.{PlainAnswer};

    ghost Value = { PlainAnswer T };

    ghost view = { λ s. s.noted };

    ghost invariant = { λ s. s.told ≡ s.noted };
}

impl<T> Twice<T> {
    /// These two, which are the same.
    pub fn new(noted: PlainAnswer<T>, told: PlainAnswer<T>) -> Twice<T>
        requires { told ≡ noted }
        ensures { result ≡ noted }
    {
        Twice { noted, told }
    }

    /// A refusal.
    pub fn refused(number: u8) -> Twice<T>
        ensures { result ≡ PlainAnswer.Refused number }
    {
        Twice {
            noted: PlainAnswer::Refused(number),
            told: PlainAnswer::Refused(number),
        }
    }

    /// The answer, twice. It takes no memory.
    pub fn into_answers(self) -> (PlainAnswer<T>, PlainAnswer<T>)
        ensures { result ≡ (self, self) }
    {
        (self.noted, self.told)
    }
}

/// How an operation ends.
#[derive(Drop)]
pub enum Ending<T> {
    /// With the answer of a call without a view, or with a refusal.
    Answers(Twice<T>),
    /// With what becomes of the view that was made or used.
    Comes(Outcome<T>),
}

/// An operation that has ended.
fn ended<T>() -> Doing<T>
    ensures { result ≡ Doing.Plain PlainDoing.Ended }
{
    Doing::Plain(PlainDoing::Ended)
}

/// Whether a call is a claim.
pub fn is_claim<T>(call: &Call<T>) -> bool
    ensures { result ≡ is_claim_call call.now }
{
    matches!(
        call,
        Call::View(ViewCall::Claim(_)) | Call::View(ViewCall::ClaimAt(..))
    )
}

/// How a call on a view starts that is refused with this error: by its number. The only error is want of memory.
fn refused_first<T>(error: StepError) -> Result<(Doing<T>, Option<u8>), AllocError>
    ensures first { IfOk result (λ start. (start.0, refusal_in start.1) ≡ refused (error_number error)) }
    ensures lacks { IfOk result (λ _. (error_number error == 9) ≡ false) }
{
    match error.number() {
        9 => Err(AllocError),
        number => Ok((ended(), Some(number))),
    }
}

/// How a claim starts, by its state, and the number of its refusal, where it is refused at once. The only error is want of
/// memory.
fn claims<T: Drop>(
    state: Result<ClaimOp<T>, StepError>,
) -> Result<(Doing<T>, Option<u8>), AllocError>
    ensures first { IfOk result (λ start. (start.0, refusal_in start.1) ≡ first_next ViewOp.Claims (by_number state)) }
    ensures lacks { IfOk result (λ _. lacks (by_number state) ≡ false) }
{
    match state {
        Ok(op) => Ok((Doing::View(ViewOp::Claims(op)), None)),
        Err(error) => refused_first(error),
    }
}

/// The same of a write of a value that a view then shows.
fn enters<T: Drop>(
    state: Result<EntryOp<T>, StepError>,
) -> Result<(Doing<T>, Option<u8>), AllocError>
    ensures first { IfOk result (λ start. (start.0, refusal_in start.1) ≡ first_next ViewOp.Enters (by_number state)) }
    ensures lacks { IfOk result (λ _. lacks (by_number state) ≡ false) }
{
    match state {
        Ok(op) => Ok((Doing::View(ViewOp::Enters(op)), None)),
        Err(error) => refused_first(error),
    }
}

/// How a call starts on the view that it uses, and the number of its refusal, where it is refused at once. The only error
/// is want of memory.
fn start_on<T: Clone, C: ObjectCodec<T>, E: EpochField<T>>(
    alloc: Global,
    layout: &Layout<C>,
    epochs: &E,
    call: &ViewCall<T>,
    view: &View<T>,
) -> Result<(Doing<T>, Option<u8>), AllocError>
    requires exact { IsExactClone T.is_clone }
    requires names { layout.now.names ≡ world_names }
    requires boundary { layout.now.boundary ≡ world_boundary }
    requires uses { IsSome (view_used (Call.View call.now)) }
    ensures started { IfOk result (λ start. (start.0, refusal_in start.1) ≡ started layout.now.page (C.encoded layout.now.codec) (E.epoch_of epochs.now) (E.with_epoch epochs.now) (Call.View call.now) (Some view.now)) }
    ensures made { IfOk result (λ start. IsMadeSo (C.encoded layout.now.codec) (C.decoded layout.now.codec) (E.epoch_of epochs.now) start.0) }
{
    match call {
        ViewCall::Refresh(_) => Ok((
            Doing::View(ViewOp::Reads(ViewReadOp::start(layout, Purpose::Refresh)?)),
            None,
        )),
        ViewCall::Update(_, value) => {
            let base = Some(MonotonicId::new(view.id));
            enters(EntryOp::start(alloc, layout, base, value))
        }
        ViewCall::Claim(_) => claims(ClaimOp::start(
            alloc,
            layout,
            epochs,
            None,
            MonotonicId::new(view.id),
            &view.object,
        )),
        ViewCall::ClaimAt(_, epoch) => claims(ClaimOp::start(
            alloc,
            layout,
            epochs,
            Some(*epoch),
            MonotonicId::new(view.id),
            &view.object,
        )),
        ViewCall::HolderRefresh(_) | ViewCall::HolderUpdate(..) => match view.epoch {
            Some(local) => start_holder(alloc, layout, epochs, call, view, local),
            None => Ok((ended(), Some(7))),
        },
        ViewCall::Init(_) | ViewCall::Load => unreachable!(),
    }
}

/// How a holder's call starts on its view.
fn start_holder<T: Clone, C: ObjectCodec<T>, E: EpochField<T>>(
    alloc: Global,
    layout: &Layout<C>,
    epochs: &E,
    call: &ViewCall<T>,
    view: &View<T>,
    local: u64,
) -> Result<(Doing<T>, Option<u8>), AllocError>
    requires exact { IsExactClone T.is_clone }
    requires names { layout.now.names ≡ world_names }
    requires boundary { layout.now.boundary ≡ world_boundary }
    requires local { view.now.epoch ≡ Some local }
    requires holders { IsTrue (is_holders (Call.View call.now)) }
    ensures started { IfOk result (λ start. (start.0, refusal_in start.1) ≡ started layout.now.page (C.encoded layout.now.codec) (E.epoch_of epochs.now) (E.with_epoch epochs.now) (Call.View call.now) (Some view.now)) }
    ensures made { IfOk result (λ start. IsMadeSo (C.encoded layout.now.codec) (C.decoded layout.now.codec) (E.epoch_of epochs.now) start.0) }
{
    match call {
        ViewCall::HolderRefresh(_) => Ok((
            Doing::View(ViewOp::Reads(ViewReadOp::start(layout, Purpose::HolderRefresh(local))?)),
            None,
        )),
        ViewCall::HolderUpdate(_, value) => enters(EntryOp::start_for_holder(
            alloc,
            layout,
            epochs,
            local,
            MonotonicId::new(view.id),
            &view.object,
            value,
        )),
        ViewCall::Init(_)
        | ViewCall::Load
        | ViewCall::Refresh(_)
        | ViewCall::Update(..)
        | ViewCall::Claim(_)
        | ViewCall::ClaimAt(..) => unreachable!(),
    }
}

/// How a call starts, by the view that it uses as it stands, and the number of its refusal, where it is refused at once. The
/// bytes of a write are made here, before anything is asked of the store. A call on a view is refused with 7 where none is
/// given, but for a refresh, and a holder's update where the view is no holder's: a world tests both before.
///
/// # Errors
///
/// Want of memory alone, which changes nothing.
pub fn start<T: Clone, C: ObjectCodec<T>, E: EpochField<T>>(
    alloc: Global,
    layout: &Layout<C>,
    epochs: &E,
    call: &Call<T>,
    view: Option<&View<T>>,
) -> Result<(Doing<T>, Option<u8>), AllocError>
    requires exact { IsExactClone T.is_clone }
    requires names { layout.now.names ≡ world_names }
    requires boundary { layout.now.boundary ≡ world_boundary }
    ensures started { IfOk result (λ start. (start.0, refusal_in start.1) ≡ started layout.now.page (C.encoded layout.now.codec) (E.epoch_of epochs.now) (E.with_epoch epochs.now) call.now (option_copied view.entry)) }
    ensures made { IfOk result (λ start. IsMadeSo (C.encoded layout.now.codec) (C.decoded layout.now.codec) (E.epoch_of epochs.now) start.0) }
    ensures reads_back { IfOk result (λ _. ReadsBack (C.encoded layout.now.codec) (C.decoded layout.now.codec) call.now) }
    ensures word { IfOk result (λ _. FitsWord call.now) }
{
    match call {
        Call::Plain(call) => {
            let (doing, refusal) = start_plain(alloc, layout, call)?;
            Ok((Doing::Plain(doing), refusal))
        }
        Call::View(ViewCall::Init(value)) => { enters(EntryOp::start(alloc, layout, None, value)) }
        Call::View(ViewCall::Load) => {
            Ok((
                Doing::View(ViewOp::Reads(ViewReadOp::start(layout, Purpose::Load)?)),
                None,
            ))
        }
        Call::View(ViewCall::Refresh(_)) => {
            Ok((
                Doing::View(ViewOp::Reads(ViewReadOp::start(layout, Purpose::Refresh)?)),
                None,
            ))
        }
        Call::View(call) => match view {
            Some(view) => start_on(alloc, layout, epochs, call, view),
            None => Ok((ended(), Some(7))),
        },
    }
}

/// How a call without a view ends.
pub(crate) fn plain_ending<T>(
    answers: Option<(PlainAnswer<T>, PlainAnswer<T>)>,
) -> Option<Ending<T>>
    requires { IfSome answers (λ pair. pair.1 ≡ pair.0) }
    ensures { result ≡ option_map Ending.Answers (first_of answers) }
{
    let (noted, told) = answers?;
    Some(Ending::Answers(Twice::new(noted, told)))
}

/// How a call on a view ends, where it does.
pub(crate) fn view_ending<T>(turned: Turned<ViewAnswer<T>>) -> Option<Ending<T>>
    ensures { (doing : Doing T) → result ≡ (next_of doing (turned_by_number turned)).1 }
{
    match turned {
        Turned::Goes => None,
        Turned::Done(Ok(outcome)) => Some(Ending::Comes(outcome)),
        Turned::Done(Err(error)) => Some(Ending::Answers(Twice::refused(error.number()))),
    }
}

impl<T: Drop> Doing<T> {
    ghost use Rattle.std.specs.Prelude.{◌≡◌, ◌↔◌, IsTrue};
    ghost use Rattle.txn_machine.specs.plain.Doing.{asks_as};
    ghost use Rattle.txn_machine.specs.Doing.{asked, ended};

    /// What it asks for: a store call, or a look at its client's caches, and nothing where it has ended. It takes no
    /// memory.
    #[inline(always)]
    pub fn ask(&self) -> Option<Ask<'_>>
        ensures { asks_as result ≡ asked self.now }
    {
        match self {
            Doing::Plain(doing) => doing.ask(),
            Doing::View(op) => Some(op.ask()),
        }
    }

    /// Whether it has ended. It takes no memory.
    pub fn has_ended(&self) -> bool
        ensures { IsTrue result ↔ (self.now ≡ ended) }
    {
        matches!(self, Doing::Plain(PlainDoing::Ended))
    }
}
