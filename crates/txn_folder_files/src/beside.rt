//! Whether two mounts of one folder serve: what one shows of what is done through the other, each change tried again and again,
//! both ways.

use crate::doctor::{fault_at, locks_between, write};
use crate::fault::{Doing, Halt, at_error};
use crate::lock::LockFile;
use crate::look::{Look, found, opened};
use crate::name::unlink;
use crate::sights::{Beside, Change, Finding, Sights};
use crate::written::number_now;
use std::alloc::{AllocError, Global};
use std::fs;
use std::rt::{Clock, Files};

/// How often each change is tried: what is cached shows only where a change follows the one before it closely.
const ROUNDS: u64 = 16;

/// The folder through the mount that changes it, and through the one that is to show it.
#[derive(Clone, Copy)]
struct Sides<'a> {
    from: &'a str,
    to: &'a str,
    /// What the names of files begin with.
    word: &'static str,
    /// The number of the first file.
    number: u64,
}

/// A change that is tried.
#[derive(Drop)]
struct Trial<'a, R> {
    rt: &'a R,
    change: Change,
    sides: Sides<'a>,
}

/// One round of a trial: its names, and its file.
struct Round<'a, R> {
    rt: &'a R,
    /// A file that was written before, through the mount that changes.
    spare: String,
    /// The name that is changed, through that mount.
    made: String,
    /// The same, through the other.
    seen: String,
    /// The file's number, and what it says.
    number: u64,
    text: String,
}

impl<R> Drop for Round<'_, R> {
    /// Drops the texts: here, so that what has a round need not prove how each is dropped.
    fn drop(self) {
        let Round {
            rt: _,
            spare: _,
            made: _,
            seen: _,
            number: _,
            text: _,
        } = self;
    }
}

/// What is done in each round of a trial.
#[derive(Clone, Copy)]
enum Turn {
    /// Its file is written, so that the change is one call of the system.
    Prepare,
    /// The change is tried.
    Try,
    /// What is left is removed.
    Clear,
}

/// What is done to the name of a round.
#[derive(Clone, Copy)]
enum Act {
    /// Its file is linked to it.
    Link,
    /// Its file is renamed over it.
    Replace,
    /// It is removed.
    Remove,
}

/// What the names of a change's files have.
fn word_of(change: Change) -> &'static str {
    match change {
        Change::Links => "links",
        Change::Replaces => "replaces",
        Change::ReplacesOpen => "replaces-open",
        Change::Lists => "lists",
        Change::Unlists => "unlists",
        Change::RemovesOpen => "removes-open",
        Change::Locks => "locks",
    }
}

impl<R: Files + Clock + Alloc<A = Global> + Clone + Drop> Round<'_, R>
where
    R::File: LockFile,
{
    /// The look at its file.
    fn file(&self) -> Look<'_> {
        Look::File(self.number, self.text.as_str())
    }

    /// Writes its file.
    fn prepare(&self) -> Result<Finding, Halt> {
        let bytes = self.text.as_str().as_bytes();
        write(self.rt, self.spare.as_str(), self.number, bytes, false)?;
        Ok(Finding::AtOnce)
    }

    /// Removes its files.
    fn clear(&self) -> Result<Finding, Halt> {
        unlink(self.rt, self.spare.as_str())?;
        unlink(self.rt, self.made.as_str())?;
        Ok(Finding::AtOnce)
    }

    /// Does this to its name.
    fn act(&self, act: Act) -> Result<(), Halt> {
        let (spare, made) = (self.spare.as_str(), self.made.as_str());
        let (doing, done) = match act {
            Act::Link => (Doing::Linking, fs::hard_link(self.rt, spare, made)),
            Act::Replace => (Doing::Replacing, fs::rename(self.rt, spare, made)),
            Act::Remove => return unlink(self.rt, made),
        };
        match done {
            Ok(()) => Ok(()),
            Err(error) => Err(at_error(doing, error)),
        }
    }

    /// How this shows once that is done.
    fn after(&self, act: Act, look: Look<'_>) -> Result<Finding, Halt> {
        self.act(act)?;
        found(self.rt, self.seen.as_str(), look)
    }

    /// The same, where the other mount was asked for this before.
    fn between(&self, before: Look<'_>, act: Act, look: Look<'_>) -> Result<Finding, Halt> {
        before.shows(self.rt, self.seen.as_str())?;
        self.after(act, look)
    }

    /// A file is renamed over one that the other mount read.
    fn replaces(&self) -> Result<Finding, Halt> {
        self.between(self.file(), Act::Replace, self.file())
    }

    /// A name is linked, which the other mount shows then, and removed.
    fn removes(&self, change: Change, before: Look<'_>, look: Look<'_>) -> Result<Finding, Halt> {
        if let Finding::NotWithin(time) = self.between(before, Act::Link, look)? {
            return Ok(Finding::NotWithin(time));
        }
        match change {
            Change::RemovesOpen => self.held(change),
            _ => self.after(Act::Remove, Look::Unlisted),
        }
    }

    /// What is done while the other mount holds the file that it read open.
    fn held(&self, change: Change) -> Result<Finding, Halt> {
        let held = opened(self.rt, self.seen.as_str())?;
        let finding = match change {
            Change::RemovesOpen => self.removed_and_made(),
            _ => self.replaces(),
        };
        drop(held);
        finding
    }

    fn removed_and_made(&self) -> Result<Finding, Halt> {
        match self.after(Act::Remove, Look::Missing)? {
            Finding::AtOnce => self.after(Act::Link, self.file()),
            late => Ok(late),
        }
    }

    /// A file is locked through both mounts. A lock may end a little later than it is let go: each is waited for.
    fn locks(&self) -> Result<Finding, Halt> {
        locks_between(self.rt, self.made.as_str(), self.seen.as_str())?;
        match found(self.rt, self.seen.as_str(), Look::Lock)? {
            Finding::After(_) => Ok(Finding::AtOnce),
            finding => Ok(finding),
        }
    }

    /// How a change shows.
    fn shows(&self, change: Change) -> Result<Finding, Halt> {
        match change {
            Change::Links => self.between(Look::Missing, Act::Link, self.file()),
            Change::Replaces => self.replaces(),
            Change::ReplacesOpen => self.held(change),
            Change::Lists => self.between(Look::Listed, Act::Link, Look::Listed),
            Change::Unlists => self.removes(change, Look::Listed, Look::Listed),
            Change::RemovesOpen => self.removes(change, Look::Missing, self.file()),
            Change::Locks => self.locks(),
        }
    }
}

impl<R: Files + Clock + Alloc<A = Global> + Clone + Drop> Trial<'_, R>
where
    R::File: LockFile,
{
    /// Whether all rounds change one name.
    fn has_one_name(&self) -> bool {
        matches!(self.change, Change::Replaces | Change::ReplacesOpen)
    }

    /// A name in a folder.
    fn name(&self, folder: &str, turn: u64, end: &str) -> Result<String, AllocError> {
        let (word, of) = (self.sides.word, word_of(self.change));
        format!(in self.rt.alloc(); "{folder}/{word}-{of}-{turn}{end}")
    }

    fn round(&self, round: u64) -> Result<Round<'_, R>, AllocError> {
        let turn = if self.has_one_name() { 0 } else { round };
        let number = self.sides.number.saturating_add(round);
        Ok(Round {
            rt: self.rt,
            spare: self.name(self.sides.from, round, "#")?,
            made: self.name(self.sides.from, turn, "")?,
            seen: self.name(self.sides.to, turn, "")?,
            number,
            text: format!(in self.rt.alloc(); "{number}")?,
        })
    }

    /// What a turn of a round did. What is done as it has to be is seen at once.
    fn done(&self, round: u64, turn: Turn) -> Result<Finding, Halt> {
        let round = self.round(round)?;
        match turn {
            Turn::Prepare => round.prepare(),
            Turn::Try => round.shows(self.change),
            Turn::Clear => round.clear(),
        }
    }

    /// A turn of each round, up to the first whose change did not show at once.
    fn rounds(&self, turn: Turn) -> Result<Finding, Halt> {
        for round in 0..ROUNDS {
            match self.done(round, turn)? {
                Finding::AtOnce => {}
                late => return Ok(late),
            }
        }
        Ok(Finding::AtOnce)
    }

    /// How the change showed.
    fn shown(&self) -> Result<Finding, Halt> {
        self.rounds(Turn::Prepare)?;
        self.rounds(Turn::Try)
    }
}

/// The finding of what was tried.
fn finding_of(done: Result<Finding, Halt>) -> Finding {
    match done {
        Ok(finding) => finding,
        Err(halt) => Finding::Failed(fault_at(halt)),
    }
}

/// How a change showed. What is not removed then shows where the folder is.
fn tried<R: Files + Clock + Alloc<A = Global> + Clone + Drop>(
    rt: &R,
    sides: Sides<'_>,
    change: Change,
) -> Finding
where
    R::File: LockFile,
{
    let trial = Trial { rt, change, sides };
    let finding = finding_of(trial.shown());
    let _ = trial.rounds(Turn::Clear);
    finding
}

/// How each change showed.
fn sights_of<R: Files + Clock + Alloc<A = Global> + Clone + Drop>(
    rt: &R,
    sides: Sides<'_>,
) -> Sights
where
    R::File: LockFile,
{
    Sights {
        links: tried(rt, sides, Change::Links),
        replaces: tried(rt, sides, Change::Replaces),
        replaces_open: tried(rt, sides, Change::ReplacesOpen),
        lists: tried(rt, sides, Change::Lists),
        unlists: tried(rt, sides, Change::Unlists),
        removes_open: tried(rt, sides, Change::RemovesOpen),
        locks: tried(rt, sides, Change::Locks),
    }
}

/// Makes a folder through one mount, which the other has to show.
fn shared<R: Files + Clock + Alloc<A = Global> + Clone + Drop>(
    rt: &R,
    here: &str,
    there: &str,
) -> Result<Finding, Halt>
where
    R::File: LockFile,
{
    match fs::create_dir(rt, here) {
        Ok(()) => found(rt, there, Look::Folder),
        Err(error) => Err(at_error(Doing::MakingFolder, error)),
    }
}

/// Removes the folder, with what is still in it.
fn removed<R: Files + Alloc<A = Global>>(rt: &R, folder: &str) -> Result<Finding, Halt> {
    if fs::remove_dir(rt, folder).is_ok() {
        return Ok(Finding::AtOnce);
    }
    match fs::remove_dir_all(rt, folder) {
        Ok(()) => Ok(Finding::AtOnce),
        Err(error) => Err(at_error(Doing::Removing, error)),
    }
}

/// The folder of an examination, below a mount.
fn folder_in(alloc: Global, mount: &str, number: u64) -> Result<String, AllocError> {
    format!(in alloc; "{mount}/doctor#{number:020}")
}

/// What the two sides show of each other's changes, where they are one folder.
fn both_ways<R: Files + Clock + Alloc<A = Global> + Clone + Drop>(
    rt: &R,
    one_folder: &Finding,
    first: Sides<'_>,
) -> (Sights, Sights)
where
    R::File: LockFile,
{
    match one_folder {
        Finding::AtOnce | Finding::After(_) => {
            let other = Sides {
                from: first.to,
                to: first.from,
                word: "other",
                number: first.number,
            };
            (sights_of(rt, first), sights_of(rt, other))
        }
        _ => (Sights::untried(), Sights::untried()),
    }
}

/// The examination in a folder of its own, through the two mounts.
fn examine_in<R: Files + Clock + Alloc<A = Global> + Clone + Drop>(
    rt: &R,
    sides: Sides<'_>,
) -> Beside
where
    R::File: LockFile,
{
    let one_folder = finding_of(shared(rt, sides.from, sides.to));
    let (other, first) = both_ways(rt, &one_folder, sides);
    Beside {
        one_folder,
        other,
        first,
        removes: finding_of(removed(rt, sides.from)),
    }
}

/// Tries what two mounts of one folder show of each other's changes, in a folder of its own, which it removes. Where a mount
/// shows the old, that takes five seconds for each line.
///
/// # Errors
///
/// Want of memory for the folder's names, before anything is made. In a trial it is a fault like any other, which the report
/// tells.
pub fn examine_beside<R: Files + Clock + Alloc<A = Global> + Clone + Drop>(
    rt: &R,
    alloc: Global,
    first: &str,
    other: &str,
) -> Result<Beside, AllocError>
where
    R::File: LockFile,
{
    // Where the clock fails, the folder is that of 1970.
    let number = number_now(rt).unwrap_or(1);
    let here = folder_in(alloc, first, number)?;
    let there = folder_in(alloc, other, number)?;
    let sides = Sides {
        from: here.as_str(),
        to: there.as_str(),
        word: "first",
        number,
    };
    Ok(examine_in(rt, sides))
}
