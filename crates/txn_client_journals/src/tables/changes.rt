//! What becomes of one view.
ghost use Rattle.std.specs.Prelude.{◌≡◌, ◌+◌, ℕ, Bool, None, Some};
ghost use Rattle.std.specs.Option.{option_map, ForSome};
ghost use Rattle.txn_machine.specs.views.Layer.{with_busy, changed, new_view, Keeps, Puts, Makes};
ghost use Rattle.txn_machine.specs.Machine.{let_go, change_of, made_by, answer_of};
ghost use Rattle.txn_client_journals.specs.tables.Views.{as_made};

use crate::tables::views::Answers;
use txn_history::event::{Answer, PlainAnswer};
use txn_history::view::View;
use txn_machine::doing::Ending;
use txn_machine::views::used::Used;
use txn_steps_views::outcome::Outcome;

/// A view that this operation uses, and for the rest as it was.
pub(crate) fn taken<T: Drop>(used: Option<Used<T>>, op: u64) -> Option<Used<T>>
    ensures { result ≡ option_map (with_busy (Some op)) used }
{
    let Used { view, .. } = used?;
    Some(Used {
        view,
        busy: Some(op),
    })
}

/// A view that is free, and for the rest as it was.
fn freed<T: Drop>(used: Option<Used<T>>) -> Option<Used<T>>
    ensures { result ≡ changed used Keeps }
{
    let Used { view, .. } = used?;
    Some(Used { view, busy: None })
}

/// A view that is let go by an operation which does not come to it: a claim's ends.
pub(crate) fn left<T: Drop>(used: Option<Used<T>>, claims: bool) -> Option<Used<T>>
    ensures { result ≡ changed used (let_go claims) }
{
    if claims { None } else { freed(used) }
}

/// A view that is free, at another version.
fn moved<T: Drop>(used: Option<Used<T>>, id: u64, object: T) -> Option<Used<T>>
    ensures { result ≡ changed used (Puts id object) }
{
    let Used { view, .. } = used?;
    Some(Used {
        view: View {
            client: view.client,
            id,
            object,
            epoch: view.epoch,
        },
        busy: None,
    })
}

/// A view that is free, at another version, as the holder of this epoch.
fn held<T: Drop>(used: Option<Used<T>>, id: u64, object: T, epoch: u64) -> Option<Used<T>>
    ensures { result ≡ changed used (Makes id object epoch) }
{
    let Used { view, .. } = used?;
    Some(Used {
        view: View {
            client: view.client,
            id,
            object,
            epoch: Some(epoch),
        },
        busy: None,
    })
}

/// A refusal, twice.
fn refusals<T>(number: u8) -> Answers<T>
    ensures noted { result.0 ≡ Answer.Plain (PlainAnswer.Refused number) }
    ensures told { result.1 ≡ Answer.Plain (PlainAnswer.Refused number) }
{
    (
        Answer::Plain(PlainAnswer::Refused(number)),
        Answer::Plain(PlainAnswer::Refused(number)),
    )
}

/// The view of this number at this version, twice.
fn views<T>(number: u64, id: u64, noted: T, told: T) -> Answers<T>
    ensures noted { result.0 ≡ Answer.View number id noted }
    ensures told { result.1 ≡ Answer.View number id told }
{
    (
        Answer::View(number, id, noted),
        Answer::View(number, id, told),
    )
}

/// The holder of this number at this version, twice.
fn holders<T>(number: u64, id: u64, noted: T, told: T, epoch: u64) -> Answers<T>
    ensures noted { result.0 ≡ Answer.Held number id noted epoch }
    ensures told { result.1 ≡ Answer.Held number id told epoch }
{
    (
        Answer::Held(number, id, noted, epoch),
        Answer::Held(number, id, told, epoch),
    )
}

/// What comes of a view of this number, and the answer.
#[inline(always)]
fn comes_of<T: Drop>(
    used: Option<Used<T>>,
    number: u64,
    outcome: Outcome<T>,
) -> (Option<Used<T>>, Answers<T>)
    ensures used { (claims : Bool) → result.0 ≡ changed used (change_of claims (Ending.Comes outcome)) }
    ensures answer { (count : ℕ) → result.1.0 ≡ answer_of count (Some number) (Ending.Comes outcome) }
    ensures twice { result.1.1 ≡ result.1.0 }
{
    match outcome {
        Outcome::Viewed(id, copies) => {
            let (object, noted, told) = copies.into_values();
            let answers = views(number, id.id(), noted, told);
            (moved(used, id.id(), object), answers)
        }
        Outcome::Held(id, copies, epoch) => {
            let (object, noted, told) = copies.into_values();
            let answers = holders(number, id.id(), noted, told, epoch);
            (held(used, id.id(), object, epoch), answers)
        }
        Outcome::Shut(id, object, error) => {
            (moved(used, id.id(), object), refusals(error.number()))
        }
    }
}

/// What becomes of the view of this number that an operation used, and the answer.
#[inline(always)]
pub(crate) fn comes_to<T: Drop>(
    used: Option<Used<T>>,
    number: u64,
    claims: bool,
    ending: Ending<T>,
) -> (Option<Used<T>>, Answers<T>)
    ensures used { result.0 ≡ changed used (change_of claims ending) }
    ensures answer { (count : ℕ) → result.1.0 ≡ answer_of count (Some number) ending }
    ensures twice { result.1.1 ≡ result.1.0 }
{
    match ending {
        Ending::Answers(twice) => {
            let (noted, told) = twice.into_answers();
            let answers = (Answer::Plain(noted), Answer::Plain(told));
            (left(used, claims), answers)
        }
        Ending::Comes(outcome) => comes_of(used, number, outcome),
    }
}

/// The view that is made at this version.
fn made<T>(client: u64, id: u64, object: T) -> Used<T>
    ensures { result ≡ new_view client id object }
{
    Used {
        view: View {
            client,
            id,
            object,
            epoch: None,
        },
        busy: None,
    }
}

/// The view that an operation makes, which used none, and the answer. A view that is made has this number.
fn made_of<T: Drop>(client: u64, number: u64, outcome: Outcome<T>) -> (Option<Used<T>>, Answers<T>)
    ensures made { as_made result.0 ≡ made_by client (Ending.Comes outcome) }
    ensures client { ForSome result.0 (λ used. used.view.client ≡ client) }
    ensures answer { (count : ℕ) → number ≡ count + 1 → result.1.0 ≡ answer_of count None (Ending.Comes outcome) }
    ensures twice { result.1.1 ≡ result.1.0 }
{
    match outcome {
        Outcome::Viewed(id, copies) => {
            let (object, noted, told) = copies.into_values();
            let answers = views(number, id.id(), noted, told);
            (Some(made(client, id.id(), object)), answers)
        }
        Outcome::Held(id, copies, epoch) => {
            let (_, noted, told) = copies.into_values();
            let answers = holders(number, id.id(), noted, told, epoch);
            (None, answers)
        }
        Outcome::Shut(_, _, error) => (None, refusals(error.number())),
    }
}

/// The view that an operation makes, which used none, and the answer. A view that is made has this number.
pub(crate) fn makes<T: Drop>(
    client: u64,
    number: u64,
    ending: Ending<T>,
) -> (Option<Used<T>>, Answers<T>)
    ensures made { as_made result.0 ≡ made_by client ending }
    ensures client { ForSome result.0 (λ used. used.view.client ≡ client) }
    ensures answer { (count : ℕ) → number ≡ count + 1 → result.1.0 ≡ answer_of count None ending }
    ensures twice { result.1.1 ≡ result.1.0 }
{
    match ending {
        Ending::Answers(twice) => {
            let (noted, told) = twice.into_answers();
            (None, (Answer::Plain(noted), Answer::Plain(told)))
        }
        Ending::Comes(outcome) => made_of(client, number, outcome),
    }
}
