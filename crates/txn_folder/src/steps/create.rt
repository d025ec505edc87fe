//! A put that makes a file where none stands.
ghost use Rattle.std.specs.Prelude.{◌≡◌, ℕ, List, if◌then◌else◌};
ghost use Rattle.txn_folder.specs.steps.Folders as folders;
ghost use Rattle.txn_folder.specs.steps.Steps.{create_asked, create_turned};
ghost use Rattle.txn_folder.specs.steps.Running.{asked_as, told_as, creating_as, create_next_as, create_asks, create_number, create_next_number, IsNumberOf};

use crate::steps::put::PutEnd;
use txn_folder_files::asked::{Answer, Ask, Told};

/// Where a put is that makes a file.
#[derive(Clone, Copy)]
pub enum CreateStep {
    /// It looks the name up: with syncs, since what is written and then refused was synced for nothing.
    LooksFirst,
    /// It draws a number.
    Draws,
    /// It makes a file whose temporary name has this number, which its time is to be.
    Makes(u64),
    Writes(u64),
    SetsTime(u64),
    /// It makes the new file last.
    SyncsNew(u64),
    /// It links the file to its name.
    Links(u64),
    /// The link was refused, since the name is taken, or answered with an error. Are both names one file? It looks its own up.
    LooksOwn(u64, bool),
    /// Its own name is that of this file. It looks the name up.
    LooksThere(u64, bool, u128),
    /// The name is taken: it looks what stands there up.
    LooksTaken(u64),
    /// It removes the temporary name, and is to end so.
    Cleans(PutEnd),
    /// It makes the name last, and is to end so.
    Syncs(PutEnd),
}

/// Where a put goes on that makes a file.
#[derive(Clone, Copy)]
pub enum CreateNext {
    Goes(CreateStep),
    Ends(PutEnd),
}

/// The names are not of one file.
fn not_same(number: u64, taken: bool) -> CreateNext
    ensures { result ≡ (if taken then CreateNext.Goes (CreateStep.LooksTaken number) else CreateNext.Goes (CreateStep.Cleans PutEnd.Fails)) }
{
    if taken {
        CreateNext::Goes(CreateStep::LooksTaken(number))
    } else {
        CreateNext::Goes(CreateStep::Cleans(PutEnd::Fails))
    }
}

impl CreateStep {
    /// Where a put begins.
    pub fn start(syncs: bool) -> CreateStep
        ensures { result ≡ (if syncs then CreateStep.LooksFirst else CreateStep.Draws) }
    {
        if syncs {
            CreateStep::LooksFirst
        } else {
            CreateStep::Draws
        }
    }

    /// What it asks.
    pub fn ask(self) -> Ask
        ensures asks { result ≡ create_asks self }
        ensures so { (call file : ℕ) (lock : folders.Lock) (place : folders.Place) (bytes : List ℕ) → asked_as call place bytes lock file result ≡ create_asked call place bytes (creating_as place bytes self) }
    {
        match self {
            CreateStep::LooksFirst => Ask::Look,
            CreateStep::Draws => Ask::Draw,
            CreateStep::Makes(number) => Ask::Make(number),
            CreateStep::Writes(_) => Ask::Write,
            CreateStep::SetsTime(number) => Ask::SetTime(number),
            CreateStep::SyncsNew(_) => Ask::SyncNew,
            CreateStep::Links(_) => Ask::Link,
            CreateStep::LooksOwn(_, _) => Ask::LookOwn,
            CreateStep::LooksThere(_, _, _) => Ask::Look,
            CreateStep::LooksTaken(_) => Ask::Look,
            CreateStep::Cleans(_) => Ask::Clean,
            CreateStep::Syncs(_) => Ask::Sync,
        }
    }

    /// Where the answer to what it asks leads.
    pub fn take(self, answer: Answer) -> CreateNext
        requires { answer.asked ≡ create_asks self }
        ensures so { (file : ℕ) (read : List ℕ) (place : folders.Place) (bytes : List ℕ) → create_next_as place bytes result ≡ create_turned place bytes (creating_as place bytes self) (told_as file read (create_asks self) answer.told) }
        ensures number { IsNumberOf (create_asks self) answer.told (create_number self) (create_next_number result) }
    {
        let told = answer.take();
        match self {
            CreateStep::LooksFirst => match told {
                Told::Missing => CreateNext::Goes(CreateStep::Draws),
                Told::Holds(_, _) => CreateNext::Ends(PutEnd::Refused),
                _ => CreateNext::Ends(PutEnd::Fails),
            },
            CreateStep::Draws => match told {
                Told::Number(number) => CreateNext::Goes(CreateStep::Makes(number)),
                _ => CreateNext::Ends(PutEnd::Fails),
            },
            CreateStep::Makes(number) => match told {
                Told::Done => CreateNext::Goes(CreateStep::Writes(number)),
                Told::Taken => CreateNext::Goes(CreateStep::Draws),
                _ => CreateNext::Ends(PutEnd::Fails),
            },
            CreateStep::Writes(number) => match told {
                Told::Done => CreateNext::Goes(CreateStep::SetsTime(number)),
                _ => CreateNext::Goes(CreateStep::Cleans(PutEnd::Fails)),
            },
            CreateStep::SetsTime(number) => match told {
                Told::Done => CreateNext::Goes(CreateStep::SyncsNew(number)),
                _ => CreateNext::Goes(CreateStep::Cleans(PutEnd::Fails)),
            },
            CreateStep::SyncsNew(number) => match told {
                Told::Done => CreateNext::Goes(CreateStep::Links(number)),
                _ => CreateNext::Goes(CreateStep::Cleans(PutEnd::Fails)),
            },
            CreateStep::Links(number) => match told {
                Told::Done => CreateNext::Goes(CreateStep::Cleans(PutEnd::Put(number))),
                Told::Taken => CreateNext::Goes(CreateStep::LooksOwn(number, true)),
                _ => CreateNext::Goes(CreateStep::LooksOwn(number, false)),
            },
            CreateStep::LooksOwn(number, taken) => match told {
                Told::Holds(own, _) => CreateNext::Goes(CreateStep::LooksThere(number, taken, own)),
                _ => not_same(number, taken),
            },
            CreateStep::LooksThere(number, taken, own) => match told {
                Told::Holds(file, _) if file == own => {
                    CreateNext::Goes(CreateStep::Cleans(PutEnd::Put(number)))
                }
                _ => not_same(number, taken),
            },
            CreateStep::LooksTaken(_) => match told {
                Told::Holds(_, _) => CreateNext::Goes(CreateStep::Cleans(PutEnd::Refused)),
                _ => CreateNext::Goes(CreateStep::Cleans(PutEnd::Fails)),
            },
            CreateStep::Cleans(end) => match end {
                PutEnd::Put(number) => CreateNext::Goes(CreateStep::Syncs(PutEnd::Put(number))),
                end => CreateNext::Ends(end),
            },
            CreateStep::Syncs(end) => match told {
                Told::Done => CreateNext::Ends(end),
                _ => CreateNext::Ends(PutEnd::Fails),
            },
        }
    }
}
