//! A get.
ghost use Rattle.std.specs.Prelude.{◌≡◌, ℕ, List, if◌then◌else◌};
ghost use Rattle.txn_folder.specs.steps.Folders.{Lock};
ghost use Rattle.txn_folder.specs.declared.steps.place.Place as places;
ghost use Rattle.txn_folder.specs.steps.Tokens.{is_same};
ghost use Rattle.txn_folder.specs.steps.Steps.{get_asked, get_turned};
ghost use Rattle.txn_folder.specs.steps.Running.{asked_as, told_as, place_as, getting_as, get_next_as, get_asks, GotAt, GotEnd, GotIn, GotNext};

use crate::steps::place::{Place, number_at};
use txn_folder_files::asked::{Answer, Ask, Told};

/// How a get is to end.
#[derive(Clone, Copy)]
pub enum GetEnd {
    NotFound,
    /// It tells what it read, with this token: 0 where the file has none.
    Got(u64),
    NotModified,
    Fails,
}

/// Where a get is.
#[derive(Clone, Copy)]
pub enum GetStep {
    /// It looks the name up.
    Looks,
    /// It opens what has the name.
    Opens,
    /// It reads the open file to its end, and its time.
    Reads,
    /// It makes what it tells last, and is to end so.
    Lasts(GetEnd),
}

/// Where a get goes on.
#[derive(Clone, Copy)]
pub enum GetNext {
    Goes(GetStep),
    Ends(GetEnd),
}

/// What is told of a file of this token, where one is known.
fn end_of(known: Option<u64>, token: u64) -> GetEnd
    ensures so { result ≡ (if is_same known token then GetEnd.NotModified else GetEnd.Got token) }
    ensures token { (place : places.Place) (read : List ℕ) → GotAt place read token → GotEnd place known read result }
{
    match known {
        Some(known) if known == token => GetEnd::NotModified,
        _ => GetEnd::Got(token),
    }
}

impl GetStep {
    /// What it asks.
    pub fn ask(self) -> Ask
        ensures asks { result ≡ get_asks self }
        ensures so { (call file : ℕ) (lock : Lock) (place : Place) (bytes read : List ℕ) → asked_as call (place_as place) bytes lock file result ≡ get_asked (place_as place) (getting_as file read self) }
    {
        match self {
            GetStep::Looks => Ask::Look,
            GetStep::Opens => Ask::Open,
            GetStep::Reads => Ask::Read,
            GetStep::Lasts(_) => Ask::Sync,
        }
    }

    /// Where the answer to what it asks leads, of the file at a place, where a token is known. These bytes were read.
    pub fn take(self, place: Place, known: Option<u64>, bytes: &[u8], answer: Answer) -> GetNext
        requires { answer.asked ≡ get_asks self }
        ensures so { (file : ℕ) → get_next_as file bytes.now result ≡ get_turned (place_as place) known (getting_as file bytes.now self) (told_as file bytes.now (get_asks self) answer.told) }
        ensures token { GotIn place known bytes.now self → GotNext place known bytes.now result }
    {
        let told = answer.take();
        match self {
            GetStep::Looks => match told {
                Told::Holds(_, _) => GetNext::Goes(GetStep::Opens),
                Told::Missing => GetNext::Ends(GetEnd::NotFound),
                _ => GetNext::Ends(GetEnd::Fails),
            },
            GetStep::Opens => match told {
                Told::Opened => GetNext::Goes(GetStep::Reads),
                Told::Missing => GetNext::Ends(GetEnd::NotFound),
                Told::Gone => GetNext::Goes(GetStep::Looks),
                _ => GetNext::Ends(GetEnd::Fails),
            },
            GetStep::Reads => match told {
                Told::Says(time) => {
                    let token = number_at(place, bytes, time).unwrap_or(0);
                    GetNext::Goes(GetStep::Lasts(end_of(known, token)))
                }
                Told::Gone => GetNext::Goes(GetStep::Looks),
                _ => GetNext::Ends(GetEnd::Fails),
            },
            GetStep::Lasts(end) => match told {
                Told::Done => GetNext::Ends(end),
                _ => GetNext::Ends(GetEnd::Fails),
            },
        }
    }
}
