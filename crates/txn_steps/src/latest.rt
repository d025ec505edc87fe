//! An unchecked read of the newest version, as a state.
ghost use Rattle.std.specs.Prelude.{◌≡◌, ◌+◌, ◌<◌, ◌^◌, IfOk, None, Some, Err, unwrap_or, false};
ghost use Rattle.std.specs.Option.{option_copied};
ghost use Rattle.txn_store.specs.VersionOf.{version_of};
ghost use Rattle.txn_steps.specs.boundary.Windows.{greatest_held};
ghost use Rattle.txn_steps.specs.boundary.Steps.{turned_by_number, lacks_memory, error_in, TellsErrorOf};
ghost use Rattle.txn_steps.specs.boundary.Asking.{asks, reply_told, unless_lacking};
ghost use Rattle.txn_steps.specs.Requests.{version_got};
ghost use Rattle.txn_steps.specs.Latest.{greater_of, greatest_from, latest_listing, listing_on, latest_getting, answered, in_hand, looked, probed, found_turned, paged_turned, listed, unlisted, chosen, got_decoded, latest_got, kept_turned, found_kept, IsKeeping, latest_kept};

use crate::boundary::ask::Ask;
use crate::boundary::caches::Cached;
use crate::boundary::turned::{self, Turned, goes_as, taken};
use crate::boundary::window::Window;
use crate::requests::{get_request, list_request, next_after};
use std::alloc::{AllocError, Global};
use std::mem;
use txn_store::page::Page;
use txn_store::path::Path;
use txn_store::request::{Reply, Request};
use txn_store::store::{Got, ObjectMeta, StoreError};
use txn_store::types::codec::ObjectCodec;
use txn_store::types::id::MonotonicId;
use txn_store::types::layout::Layout;
use txn_store::types::step_error::StepError;
use txn_store::version_names::VersionNames;

/// An unchecked read of the newest version. It probes from the greatest cached version to its successors, at most four,
/// and else lists, page by page.
#[derive(Drop)]
pub enum LatestOp<T> {
    /// It looks for the greatest cached version.
    Looks,
    /// With this version in hand, and so many successors found, it asks for the next, of this id.
    Probes(Cached, u64, MonotonicId, Request),
    /// It found this successor, so many now, and looks to cache it.
    Finds(Cached, u64),
    /// It asks for a page of the listing. The pages before it listed this id as their greatest, or no version.
    Lists(Option<u64>, Request),
    /// The greatest listed id, if any; it looks for its cached version.
    Chooses(Option<u64>),
    /// It asks for the version of this id.
    Gets(MonotonicId, Request),
    /// It holds this version, decoded, and looks to cache it.
    Keeps(Cached, T),
    /// Nothing is listed, and it looks to drop the cached versions at or below this id.
    Drops(MonotonicId),
    /// It has answered a version that it kept.
    Ended,
}

/// What a read answers: the id and the value of the newest version, or that there is none.
pub type ReadAnswer<T> = Result<Option<(MonotonicId, T)>, StepError>;

/// What it does next where it goes on, and what it says.
type Step<T> = turned::Step<LatestOp<T>, Option<(MonotonicId, T)>>;

/// The greatest of an id and those of the versions among listed files. Other files are skipped.
fn greatest(names: &VersionNames, found: Option<u64>, metas: &[ObjectMeta]) -> Option<u64>
    ensures { result ≡ greatest_from found names.now metas.now }
{
    let mut greatest = found;
    for meta in metas {
        greatest = greater(greatest, parsed(names, meta));
    }
    greatest
}

fn greater(first: Option<u64>, second: Option<u64>) -> Option<u64>
    ensures { result ≡ greater_of first second }
{
    match (first, second) {
        (None, found) => found,
        (found, None) => found,
        (Some(n), Some(m)) => Some(n.max(m)),
    }
}

/// The id of the version that a listed file is.
pub(crate) fn parsed(names: &VersionNames, meta: &ObjectMeta) -> Option<u64>
    ensures { result ≡ version_of names.now meta.now.location }
{
    names.parse_id(&meta.location)
}

/// It asks for the first page.
fn list<T, C>(layout: &Layout<C>) -> Result<LatestOp<T>, AllocError>
    ensures { IfOk result (λ op. op ≡ latest_listing layout.now.names layout.now.page) }
{
    let request = list_request(&layout.names, None, layout.page)?;
    Ok(LatestOp::Lists(None, request))
}

/// It asks for the page after this path.
fn list_on<T, C>(
    layout: &Layout<C>,
    found: Option<u64>,
    after: &Path,
) -> Result<LatestOp<T>, AllocError>
    ensures { IfOk result (λ op. op ≡ listing_on layout.now.names layout.now.page found after.now) }
{
    let after = after.try_clone()?;
    let request = list_request(&layout.names, Some(after), layout.page)?;
    Ok(LatestOp::Lists(found, request))
}

/// It asks for the version of this id.
fn get<T>(alloc: Global, names: &VersionNames, id: MonotonicId) -> Result<LatestOp<T>, AllocError>
    ensures { IfOk result (λ op. op ≡ latest_getting names.now id) }
{
    Ok(LatestOp::Gets(id, get_request(alloc, names, id)?))
}

/// It asks for the successor of the version in hand.
#[inline(always)]
fn probe<T>(
    alloc: Global,
    names: &VersionNames,
    hand: Cached,
    found: u64,
) -> Result<LatestOp<T>, AllocError>
    requires { hand.id + 1 < 2 ^ 64 }
    ensures { IfOk result (λ op. op ≡ LatestOp.Probes hand found (hand.id + 1) (version_got names.now (hand.id + 1))) }
{
    let successor = hand.id.next();
    let request = get_request(alloc, names, successor)?;
    Ok(LatestOp::Probes(hand, found, successor, request))
}

/// It answers the version in hand.
fn answer<T, C: ObjectCodec<T>>(
    alloc: Global,
    layout: &Layout<C>,
    hand: &Cached,
    op: &LatestOp<T>,
) -> Step<T>
    ensures turned { (unwrap_or result.0 op.now, turned_by_number result.1) ≡ unless_lacking (lacks_memory (turned_by_number result.1)) op.now (answered (C.decoded layout.now.codec) op.now hand.now) }
    ensures store_error { TellsErrorOf None result.1 }
{
    match layout.codec.decode(alloc, &hand.bytes) {
        Ok(value) => (None, Turned::Done(Ok(Some((hand.id, value))))),
        Err(fault) => (None, Turned::Done(Err(StepError::of_fault(alloc, fault)))),
    }
}

/// With this version in hand it asks for the successor, unless there can be none.
fn hold<T, C: ObjectCodec<T>>(
    alloc: Global,
    layout: &Layout<C>,
    hand: Cached,
    found: u64,
    op: &LatestOp<T>,
) -> Step<T>
    ensures turned { (unwrap_or result.0 op.now, turned_by_number result.1) ≡ unless_lacking (lacks_memory (turned_by_number result.1)) op.now (in_hand layout.now.names (C.decoded layout.now.codec) op.now hand found) }
    ensures store_error { TellsErrorOf None result.1 }
{
    if hand.id.is(u64::MAX) {
        answer(alloc, layout, &hand, op)
    } else {
        goes_as(probe(alloc, &layout.names, hand, found))
    }
}

/// After the first look.
fn after_look<T, C: ObjectCodec<T>>(
    alloc: Global,
    layout: &Layout<C>,
    latest: &Window,
    op: &LatestOp<T>,
) -> Step<T>
    ensures turned { (unwrap_or result.0 op.now, turned_by_number result.1) ≡ unless_lacking (lacks_memory (turned_by_number result.1)) op.now (looked layout.now.names layout.now.page (C.decoded layout.now.codec) op.now latest.now) }
    ensures store_error { TellsErrorOf None result.1 }
{
    match latest.greatest() {
        None => goes_as(list(layout)),
        Some(cached) => match cached.try_clone() {
            Ok(hand) => hold(alloc, layout, hand, 0, op),
            Err(error) => (None, Turned::Done(Err(error.into()))),
        },
    }
}

/// After a probe.
fn after_probe<T, C: ObjectCodec<T>>(
    alloc: Global,
    layout: &Layout<C>,
    hand: &Cached,
    found: u64,
    successor: MonotonicId,
    answer_of: Result<Got, StoreError>,
    op: &LatestOp<T>,
) -> Step<T>
    requires { found < 4 }
    ensures turned { (unwrap_or result.0 op.now, turned_by_number result.1) ≡ unless_lacking (lacks_memory (turned_by_number result.1)) op.now (probed (C.decoded layout.now.codec) op.now hand.now found successor answer_of) }
    ensures store_error { TellsErrorOf (error_in answer_of) result.1 }
{
    match answer_of {
        Ok(got) => {
            let id = successor;
            let bytes = got.bytes;
            let successor = Cached { id, bytes };
            (Some(LatestOp::Finds(successor, found + 1)), Turned::Goes)
        }
        Err(StoreError::NotFound) => answer(alloc, layout, hand, op),
        Err(error) => (None, Turned::Done(Err(error.into()))),
    }
}

/// What it does with a found successor: after four it lists.
fn after_find<T, C: ObjectCodec<T>>(
    alloc: Global,
    layout: &Layout<C>,
    successor: &Cached,
    found: u64,
    op: &LatestOp<T>,
) -> Step<T>
    ensures turned { (unwrap_or result.0 op.now, turned_by_number result.1) ≡ unless_lacking (lacks_memory (turned_by_number result.1)) op.now (found_turned layout.now.names layout.now.page (C.decoded layout.now.codec) op.now successor.now found) }
    ensures store_error { TellsErrorOf None result.1 }
{
    if found == 4 {
        return goes_as(list(layout));
    }
    match successor.try_clone() {
        Ok(hand) => hold(alloc, layout, hand, found, op),
        Err(error) => (None, Turned::Done(Err(error.into()))),
    }
}

/// Caches the found successor, but for an error.
fn find<T: Drop, C: ObjectCodec<T>>(
    alloc: Global,
    layout: &Layout<C>,
    latest: &mut Window,
    successor: &Cached,
    found: u64,
    op: &LatestOp<T>,
) -> Step<T>
    ensures turned { (unwrap_or result.0 op.now, turned_by_number result.1) ≡ unless_lacking (lacks_memory (turned_by_number result.1)) op.now (found_turned layout.now.names layout.now.page (C.decoded layout.now.codec) op.now successor.now found) }
    ensures latest { latest.new ≡ found_kept latest.old successor.now (turned_by_number result.1) }
    ensures store_error { TellsErrorOf None result.1 }
{
    let step = after_find(alloc, layout, successor, found, op);
    if let Turned::Done(Err(_)) = &step.1 {
        return step;
    }
    match successor.try_clone() {
        Ok(version) => {
            latest.keep(version);
            step
        }
        Err(error) => (None, Turned::Done(Err(error.into()))),
    }
}

/// After a page of the listing.
fn after_page<T, C>(
    layout: &Layout<C>,
    after: Option<&Path>,
    found: Option<u64>,
    op: &LatestOp<T>,
) -> Step<T>
    ensures turned { (unwrap_or result.0 op.now, turned_by_number result.1) ≡ unless_lacking (lacks_memory (turned_by_number result.1)) op.now (paged_turned layout.now.names layout.now.page (option_copied after.entry) found) }
    ensures store_error { TellsErrorOf None result.1 }
{
    match after {
        Some(after) => goes_as(list_on(layout, found, after)),
        None => (Some(LatestOp::Chooses(found)), Turned::Goes),
    }
}

/// After the reply to its listing.
fn after_list<T, C>(
    layout: &Layout<C>,
    found: Option<u64>,
    answer_of: Result<Page, StoreError>,
    op: &LatestOp<T>,
) -> Step<T>
    ensures turned { (unwrap_or result.0 op.now, turned_by_number result.1) ≡ unless_lacking (lacks_memory (turned_by_number result.1)) op.now (listed layout.now.names layout.now.page op.now found answer_of) }
    ensures store_error { TellsErrorOf (error_in answer_of) result.1 }
{
    match answer_of {
        Ok(page) => {
            let found = greatest(&layout.names, found, page.metas.as_slice());
            after_page(layout, next_after(&page), found, op)
        }
        Err(error) => (None, Turned::Done(Err(error.into()))),
    }
}

/// It decoded a version that it has, and keeps it.
#[inline(always)]
fn decode<T: Drop, C: ObjectCodec<T>>(
    alloc: Global,
    layout: &Layout<C>,
    version: Cached,
    op: &LatestOp<T>,
) -> Step<T>
    ensures turned { (unwrap_or result.0 op.now, turned_by_number result.1) ≡ unless_lacking (lacks_memory (turned_by_number result.1)) op.now (got_decoded (C.decoded layout.now.codec) op.now version) }
    ensures store_error { TellsErrorOf None result.1 }
{
    match layout.codec.decode(alloc, &version.bytes) {
        Ok(value) => (Some(LatestOp::Keeps(version, value)), Turned::Goes),
        Err(fault) => (None, Turned::Done(Err(StepError::of_fault(alloc, fault)))),
    }
}

/// After the look that follows a listing of this greatest id.
fn after_choice<T: Drop, C: ObjectCodec<T>>(
    alloc: Global,
    layout: &Layout<C>,
    id: MonotonicId,
    latest: &Window,
    op: &LatestOp<T>,
) -> Step<T>
    ensures turned { (unwrap_or result.0 op.now, turned_by_number result.1) ≡ unless_lacking (lacks_memory (turned_by_number result.1)) op.now (chosen layout.now.names (C.decoded layout.now.codec) op.now (Some id) latest.now) }
    ensures store_error { TellsErrorOf None result.1 }
{
    match latest.get(id) {
        None => goes_as(get(alloc, &layout.names, id)),
        Some(cached) => match cached.try_clone() {
            Ok(version) => decode(alloc, layout, version, op),
            Err(error) => (None, Turned::Done(Err(error.into()))),
        },
    }
}

/// After the look that follows a listing of no version. It takes no memory.
fn after_none<T>(latest: &Window) -> Step<T>
    ensures turned { (op : LatestOp T) → (unwrap_or result.0 op, turned_by_number result.1) ≡ unlisted op (greatest_held latest.now) }
    ensures store_error { TellsErrorOf None result.1 }
{
    match latest.greatest() {
        None => (None, Turned::Done(Ok(None))),
        Some(cached) => (Some(LatestOp::Drops(cached.id)), Turned::Goes),
    }
}

/// After the get of the greatest listed version.
fn after_get<T: Drop, C: ObjectCodec<T>>(
    alloc: Global,
    layout: &Layout<C>,
    id: MonotonicId,
    answer_of: Result<Got, StoreError>,
    op: &LatestOp<T>,
) -> Step<T>
    ensures turned { (unwrap_or result.0 op.now, turned_by_number result.1) ≡ unless_lacking (lacks_memory (turned_by_number result.1)) op.now (latest_got layout.now.names layout.now.page (C.decoded layout.now.codec) op.now id answer_of) }
    ensures store_error { TellsErrorOf (error_in answer_of) result.1 }
{
    match answer_of {
        Ok(got) => {
            let bytes = got.bytes;
            decode(alloc, layout, Cached { id, bytes }, op)
        }
        // It was removed since it was listed.
        Err(StoreError::NotFound) => goes_as(list(layout)),
        Err(error) => (None, Turned::Done(Err(error.into()))),
    }
}

impl<T: Drop> LatestOp<T> {
    ghost use Rattle.std.specs.Prelude.{List};
    ghost use Rattle.txn_steps.specs.declared.boundary.caches.Cached.{Cached};
    ghost use Rattle.txn_steps.specs.Latest.{latest_asked, latest_begun, latest_turned, latest_window_after, is_keeping, IsLatestReply, InRange};

    /// A read, which begins with a look. It takes no memory.
    pub fn start() -> LatestOp<T>
        ensures { result ≡ LatestOp.Looks }
    {
        LatestOp::Looks
    }

    /// The read as its first look leaves it: it asks for the successor of the greatest held version, or for the first page
    /// where none is held. Where that version can have no successor it looks, since the look would answer it.
    ///
    /// # Errors
    ///
    /// Want of memory alone, which changes nothing.
    pub fn begun<C>(
        alloc: Global,
        layout: &Layout<C>,
        latest: &Window,
    ) -> Result<LatestOp<T>, AllocError>
        ensures { IfOk result (λ op. op ≡ latest_begun layout.now.names layout.now.page (greatest_held latest.now)) }
    {
        match latest.greatest() {
            None => list(layout),
            Some(cached) if cached.id.is(u64::MAX) => Ok(LatestOp::start()),
            Some(cached) => probe(alloc, &layout.names, cached.try_clone()?, 0),
        }
    }

    /// What it asks for. It takes no memory.
    pub fn ask(&self) -> Ask<'_>
        ensures { asks result ≡ latest_asked self.now }
    {
        match self {
            LatestOp::Probes(_, _, _, request) => Ask::Store(request),
            LatestOp::Lists(_, request) => Ask::Store(request),
            LatestOp::Gets(_, request) => Ask::Store(request),
            _ => Ask::Look,
        }
    }

    /// Caches the version that it holds and answers it. It takes no memory.
    fn keep(&mut self, latest: &mut Window) -> Turned<ReadAnswer<T>>
        requires { IsKeeping self.old }
        ensures turned { (self.new, turned_by_number result) ≡ kept_turned self.old }
        ensures latest { latest.new ≡ latest_kept self.old latest.old }
        ensures store_error { TellsErrorOf None result }
    {
        let LatestOp::Keeps(version, value) = mem::replace(self, LatestOp::Ended) else {
            unreachable!()
        };
        let id = version.id;
        latest.keep(version);
        Turned::Done(Ok(Some((id, value))))
    }

    /// Takes the store's reply to what it asks, or none for a look. Its answer is the newest version, or none where a listing
    /// has none. Where the codec does not read that version it is `CallbackError`; a growth that is refused is `NoMemory`;
    /// any other error is the store's, as it becomes, but that a get finds nothing is no error. An error leaves the held
    /// versions as they were.
    pub fn take<C: ObjectCodec<T>>(
        &mut self,
        alloc: Global,
        layout: &Layout<C>,
        latest: &mut Window,
        reply: Option<Reply>,
    ) -> Turned<ReadAnswer<T>>
        requires reply { IsLatestReply self.old reply }
        requires range { InRange self.old }
        ensures turned { (self.new, turned_by_number result) ≡ unless_lacking (lacks_memory (turned_by_number result)) self.old (latest_turned layout.now.names layout.now.page (C.decoded layout.now.codec) self.old latest.old reply) }
        ensures latest { latest.new ≡ latest_window_after self.old latest.old (turned_by_number result) }
        ensures store_error { TellsErrorOf (reply_told reply) result }
    {
        if let LatestOp::Keeps(_, _) = self {
            return self.keep(latest);
        }
        match reply {
            None => {
                let step = self.look(alloc, layout, latest);
                taken(self, step)
            }
            Some(reply) => {
                let step = self.reply(alloc, layout, reply);
                taken(self, step)
            }
        }
    }

    /// What it does next after a look, but for that which keeps a version.
    fn look<C: ObjectCodec<T>>(
        &self,
        alloc: Global,
        layout: &Layout<C>,
        latest: &mut Window,
    ) -> Step<T>
        requires reply { IsLatestReply self.now None }
        requires own { is_keeping self.now ≡ false }
        ensures turned { (unwrap_or result.0 self.now, turned_by_number result.1) ≡ unless_lacking (lacks_memory (turned_by_number result.1)) self.now (latest_turned layout.now.names layout.now.page (C.decoded layout.now.codec) self.now latest.old None) }
        ensures latest { latest.new ≡ latest_window_after self.now latest.old (turned_by_number result.1) }
        ensures store_error { TellsErrorOf None result.1 }
    {
        match self {
            LatestOp::Looks => after_look(alloc, layout, latest, self),
            LatestOp::Finds(successor, found) => {
                find(alloc, layout, latest, successor, *found, self)
            }
            LatestOp::Chooses(Some(id)) => {
                after_choice(alloc, layout, MonotonicId::new(*id), latest, self)
            }
            LatestOp::Chooses(None) => after_none(latest),
            LatestOp::Drops(id) => {
                latest.forget_through(*id);
                (None, Turned::Done(Ok(None)))
            }
            _ => unreachable!(),
        }
    }

    /// What it does next after the store's reply.
    fn reply<C: ObjectCodec<T>>(&self, alloc: Global, layout: &Layout<C>, reply: Reply) -> Step<T>
        requires reply { IsLatestReply self.now (Some reply) }
        requires range { InRange self.now }
        ensures turned { (latest : List Cached) → (unwrap_or result.0 self.now, turned_by_number result.1) ≡ unless_lacking (lacks_memory (turned_by_number result.1)) self.now (latest_turned layout.now.names layout.now.page (C.decoded layout.now.codec) self.now latest (Some reply)) }
        ensures latest { (latest : List Cached) → latest_window_after self.now latest (turned_by_number result.1) ≡ latest }
        ensures store_error { TellsErrorOf (reply_told (Some reply)) result.1 }
    {
        match (self, reply) {
            (LatestOp::Probes(hand, found, successor, _), Reply::Get(answer)) => {
                after_probe(alloc, layout, hand, *found, *successor, answer, self)
            }
            (LatestOp::Lists(found, _), Reply::List(answer)) => {
                after_list(layout, *found, answer, self)
            }
            (LatestOp::Gets(id, _), Reply::Get(answer)) => {
                after_get(alloc, layout, *id, answer, self)
            }
            _ => unreachable!(),
        }
    }
}
