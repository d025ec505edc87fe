//! A put that replaces what stands, under a lock.
ghost use Rattle.std.specs.Prelude.{◌≡◌, ℕ, List, if◌then◌else◌};
ghost use Rattle.txn_folder.specs.steps.Tokens.{is_same};
ghost use Rattle.txn_folder.specs.declared.steps.place.Place.TheVariants as places;
ghost use Rattle.txn_folder.specs.steps.Folders.{OfBoundary, Boundary};
ghost use Rattle.txn_folder.specs.steps.Steps.{update_asked, update_turned};
ghost use Rattle.txn_folder.specs.steps.Running.{asked_as, told_as, updating_as, update_next_as, update_asks, update_number, update_next_number, IsNumberOf};

use crate::steps::place::{Place, number_at};
use crate::steps::put::PutEnd;
use txn_folder_files::asked::{Answer, Ask, Told};

/// Where a put is that replaces a file.
#[derive(Clone, Copy)]
pub enum UpdateStep {
    /// It takes the lock.
    Locks,
    /// It looks the name up.
    Seeks,
    /// It opens what has the name.
    Enters,
    /// It reads the open file, and compares its token.
    Compares,
    /// It draws a number.
    Draws,
    /// It makes a file whose temporary name has this number, which its time is to be.
    Makes(u64),
    Writes(u64),
    SetsTime(u64),
    /// It makes the new file last.
    SyncsNew(u64),
    /// It renames the file over its name.
    Renames(u64),
    /// The rename was answered with an error: has the file there the number?
    LooksNumber(u64),
    /// It removes the temporary name.
    Cleans,
    /// It makes the name last, and is to end so.
    Syncs(PutEnd),
    /// It lets the lock go, and is to end so.
    Frees(PutEnd),
}

/// Where a put goes on that replaces a file.
#[derive(Clone, Copy)]
pub enum UpdateNext {
    Goes(UpdateStep),
    Ends(PutEnd),
}

/// What follows where the file has this number, if it has one.
fn compared(number: Option<u64>, token: u64) -> UpdateStep
    ensures { result ≡ (if is_same number token then UpdateStep.Draws else UpdateStep.Frees PutEnd.Refused) }
{
    match number {
        Some(number) if number == token => UpdateStep::Draws,
        _ => UpdateStep::Frees(PutEnd::Refused),
    }
}

impl UpdateStep {
    /// What it asks.
    pub fn ask(self) -> Ask
        ensures asks { result ≡ update_asks self }
        ensures so { (call file : ℕ) (bytes : List ℕ) → asked_as call Boundary bytes OfBoundary file result ≡ update_asked call bytes (updating_as file bytes self) }
    {
        match self {
            UpdateStep::Locks => Ask::Take,
            UpdateStep::Seeks => Ask::Look,
            UpdateStep::Enters => Ask::Open,
            UpdateStep::Compares => Ask::Read,
            UpdateStep::Draws => Ask::Draw,
            UpdateStep::Makes(number) => Ask::Make(number),
            UpdateStep::Writes(_) => Ask::Write,
            UpdateStep::SetsTime(number) => Ask::SetTime(number),
            UpdateStep::SyncsNew(_) => Ask::SyncNew,
            UpdateStep::Renames(_) => Ask::Rename,
            UpdateStep::LooksNumber(_) => Ask::Look,
            UpdateStep::Cleans => Ask::Clean,
            UpdateStep::Syncs(_) => Ask::Sync,
            UpdateStep::Frees(_) => Ask::Let,
        }
    }

    /// Where the answer to what it asks leads, of the file at a place, which is to have this token. These bytes were read.
    pub fn take(self, place: Place, token: u64, read: &[u8], answer: Answer) -> UpdateNext
        requires { answer.asked ≡ update_asks self }
        ensures so { place ≡ places.Boundary → (file : ℕ) (bytes : List ℕ) → update_next_as file bytes result ≡ update_turned bytes token (updating_as file bytes self) (told_as file read.now (update_asks self) answer.told) }
        ensures number { IsNumberOf (update_asks self) answer.told (update_number self) (update_next_number result) }
    {
        let told = answer.take();
        match self {
            UpdateStep::Locks => match told {
                Told::Done => UpdateNext::Goes(UpdateStep::Seeks),
                Told::Taken => UpdateNext::Goes(UpdateStep::Locks),
                _ => UpdateNext::Goes(UpdateStep::Frees(PutEnd::Fails)),
            },
            UpdateStep::Seeks => match told {
                Told::Holds(_, _) => UpdateNext::Goes(UpdateStep::Enters),
                Told::Missing => UpdateNext::Goes(UpdateStep::Frees(PutEnd::Refused)),
                _ => UpdateNext::Goes(UpdateStep::Frees(PutEnd::Fails)),
            },
            UpdateStep::Enters => match told {
                Told::Opened => UpdateNext::Goes(UpdateStep::Compares),
                Told::Missing => UpdateNext::Goes(UpdateStep::Frees(PutEnd::Refused)),
                Told::Gone => UpdateNext::Goes(UpdateStep::Seeks),
                _ => UpdateNext::Goes(UpdateStep::Frees(PutEnd::Fails)),
            },
            UpdateStep::Compares => match told {
                Told::Says(time) => UpdateNext::Goes(compared(number_at(place, read, time), token)),
                Told::Gone => UpdateNext::Goes(UpdateStep::Seeks),
                _ => UpdateNext::Goes(UpdateStep::Frees(PutEnd::Fails)),
            },
            UpdateStep::Draws => match told {
                Told::Number(number) => UpdateNext::Goes(UpdateStep::Makes(number)),
                _ => UpdateNext::Goes(UpdateStep::Frees(PutEnd::Fails)),
            },
            UpdateStep::Makes(number) => match told {
                Told::Done => UpdateNext::Goes(UpdateStep::Writes(number)),
                Told::Taken => UpdateNext::Goes(UpdateStep::Draws),
                _ => UpdateNext::Goes(UpdateStep::Frees(PutEnd::Fails)),
            },
            UpdateStep::Writes(number) => match told {
                Told::Done => UpdateNext::Goes(UpdateStep::SetsTime(number)),
                _ => UpdateNext::Goes(UpdateStep::Cleans),
            },
            UpdateStep::SetsTime(number) => match told {
                Told::Done => UpdateNext::Goes(UpdateStep::SyncsNew(number)),
                _ => UpdateNext::Goes(UpdateStep::Cleans),
            },
            UpdateStep::SyncsNew(number) => match told {
                Told::Done => UpdateNext::Goes(UpdateStep::Renames(number)),
                _ => UpdateNext::Goes(UpdateStep::Cleans),
            },
            UpdateStep::Renames(number) => match told {
                Told::Done => UpdateNext::Goes(UpdateStep::Syncs(PutEnd::Put(number))),
                _ => UpdateNext::Goes(UpdateStep::LooksNumber(number)),
            },
            UpdateStep::LooksNumber(number) => match told {
                Told::Holds(_, time) if time == number => {
                    UpdateNext::Goes(UpdateStep::Syncs(PutEnd::Put(number)))
                }
                _ => UpdateNext::Goes(UpdateStep::Cleans),
            },
            UpdateStep::Cleans => UpdateNext::Goes(UpdateStep::Frees(PutEnd::Fails)),
            UpdateStep::Syncs(end) => match told {
                Told::Done => UpdateNext::Goes(UpdateStep::Frees(end)),
                _ => UpdateNext::Goes(UpdateStep::Frees(PutEnd::Fails)),
            },
            UpdateStep::Frees(end) => UpdateNext::Ends(end),
        }
    }
}
