//! A delete, under a lock.
ghost use Rattle.std.specs.Prelude.{◌≡◌, ℕ, List};
ghost use Rattle.txn_folder.specs.steps.Folders.{OfVersions, Version};
ghost use Rattle.txn_folder.specs.steps.Steps.{delete_asked, delete_turned};
ghost use Rattle.txn_folder.specs.steps.Running.{asked_as, told_as, deleting_as, delete_next_as, delete_asks};

use txn_folder_files::asked::{Answer, Ask, Told};

/// How a delete is to end.
#[derive(Clone, Copy)]
pub enum DeleteEnd {
    /// Nothing has the name.
    Deleted,
    Fails,
}

/// Where a delete is.
#[derive(Clone, Copy)]
pub enum DeleteStep {
    /// It looks the name up.
    Peeks,
    /// It takes the lock of removals.
    Locks,
    Removes,
    /// It makes the removal last, and is to end so.
    Syncs(DeleteEnd),
    /// It lets the lock go, and is to end so.
    Frees(DeleteEnd),
}

/// Where a delete goes on.
#[derive(Clone, Copy)]
pub enum DeleteNext {
    Goes(DeleteStep),
    Ends(DeleteEnd),
}

impl DeleteStep {
    /// What it asks.
    pub fn ask(self) -> Ask
        ensures asks { result ≡ delete_asks self }
        ensures so { (call file id : ℕ) (bytes : List ℕ) → asked_as call (Version id) bytes OfVersions file result ≡ delete_asked id (deleting_as self) }
    {
        match self {
            DeleteStep::Peeks => Ask::Look,
            DeleteStep::Locks => Ask::Take,
            DeleteStep::Removes => Ask::Remove,
            DeleteStep::Syncs(_) => Ask::Sync,
            DeleteStep::Frees(_) => Ask::Let,
        }
    }

    /// Where the answer to what it asks leads.
    pub fn take(self, answer: Answer) -> DeleteNext
        requires { answer.asked ≡ delete_asks self }
        ensures { (file : ℕ) (read : List ℕ) → delete_next_as result ≡ delete_turned (deleting_as self) (told_as file read (delete_asks self) answer.told) }
    {
        let told = answer.take();
        match self {
            DeleteStep::Peeks => match told {
                Told::Holds(_, _) => DeleteNext::Goes(DeleteStep::Locks),
                Told::Missing => DeleteNext::Goes(DeleteStep::Syncs(DeleteEnd::Deleted)),
                _ => DeleteNext::Ends(DeleteEnd::Fails),
            },
            DeleteStep::Locks => match told {
                Told::Done => DeleteNext::Goes(DeleteStep::Removes),
                Told::Taken => DeleteNext::Goes(DeleteStep::Locks),
                _ => DeleteNext::Goes(DeleteStep::Frees(DeleteEnd::Fails)),
            },
            DeleteStep::Removes => match told {
                Told::Done | Told::Missing => DeleteNext::Goes(DeleteStep::Syncs(
                    DeleteEnd::Deleted,
                )),
                _ => DeleteNext::Goes(DeleteStep::Frees(DeleteEnd::Fails)),
            },
            DeleteStep::Syncs(end) => match told {
                Told::Done => DeleteNext::Goes(DeleteStep::Frees(end)),
                _ => DeleteNext::Goes(DeleteStep::Frees(DeleteEnd::Fails)),
            },
            DeleteStep::Frees(end) => DeleteNext::Ends(end),
        }
    }
}
