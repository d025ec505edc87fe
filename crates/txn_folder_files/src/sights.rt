//! What two mounts of one folder showed of each other's changes, and how it is told.
ghost use Rattle.std.specs.Prelude.{◌≡◌};
ghost use Rattle.txn_folder_files.specs.Sights.{is_seen, finding_in, are_seen, serves};

use crate::fault::Fault;
use std::fmt;
use std::time::Duration;

/// What one mount has to show of what is done through the other.
#[derive(Clone, Copy)]
pub enum Change {
    /// A name that was looked up as missing is linked.
    Links,
    /// A file is renamed over one that was read.
    Replaces,
    /// The same, while the one that was read is held open.
    ReplacesOpen,
    /// A name is linked in a folder that was listed.
    Lists,
    /// A name is removed in a folder that was listed.
    Unlists,
    /// A name is removed whose file is held open, and is made again.
    RemovesOpen,
    /// A file is locked, and let go.
    Locks,
}

/// The changes, in the order in which they are tried.
const CHANGES: [Change; 7] = [
    Change::Links,
    Change::Replaces,
    Change::ReplacesOpen,
    Change::Lists,
    Change::Unlists,
    Change::RemovesOpen,
    Change::Locks,
];

impl fmt::Display for Change {
    fn fmt<W: fmt::Write>(&self, f: &mut fmt::Formatter<W>) -> fmt::Result {
        f.write_str(match self {
            Change::Links => "finds a new name that was missing before",
            Change::Replaces => "reads what was renamed over an old file",
            Change::ReplacesOpen => "reads it beside an open old file",
            Change::Lists => "lists a new name",
            Change::Unlists => "lists a removed name no more",
            Change::RemovesOpen =>
                "misses a removed name beside its open file, and finds it made again",
            Change::Locks => "is refused a lock that is held, and gets it then",
        })
    }
}

/// How a change showed through the other mount.
#[derive(Clone, Copy)]
pub enum Finding {
    /// Each time, the first look saw the new.
    AtOnce,
    /// The old was seen for so long.
    After(Duration),
    /// The old was still seen after so long.
    NotWithin(Duration),
    /// A call of the system failed, or did what it must not do.
    Failed(Fault),
    /// It was not tried, since the two mounts are not of one folder.
    Untried,
}

impl Finding {
    /// Whether the change showed at once.
    pub fn is_seen(&self) -> bool
        ensures { result ≡ is_seen self.now }
    {
        matches!(self, Finding::AtOnce)
    }
}

/// Says for how long the old was seen.
fn write_late<W: fmt::Write>(f: &mut fmt::Formatter<W>, time: Duration, end: &str) -> fmt::Result {
    let (seconds, millis) = (time.as_secs(), time.subsec_millis());
    write!(f, "no: the old was seen for {seconds}.{millis:03} s{end}")
}

impl fmt::Display for Finding {
    fn fmt<W: fmt::Write>(&self, f: &mut fmt::Formatter<W>) -> fmt::Result {
        match self {
            Finding::AtOnce => f.write_str("yes"),
            Finding::After(time) => write_late(f, *time, ""),
            Finding::NotWithin(time) => write_late(f, *time, " and longer"),
            Finding::Failed(fault) => write!(f, "no: {fault}"),
            Finding::Untried => f.write_str("no: not tried"),
        }
    }
}

/// What one mount showed of what was done through the other.
#[derive(Clone, Copy)]
pub struct Sights {
    pub links: Finding,
    pub replaces: Finding,
    pub replaces_open: Finding,
    pub lists: Finding,
    pub unlists: Finding,
    pub removes_open: Finding,
    pub locks: Finding,
}

impl Sights {
    /// How a change showed.
    pub fn finding_of(&self, change: Change) -> &Finding
        ensures { result.now ≡ finding_in change self.now }
    {
        match change {
            Change::Links => &self.links,
            Change::Replaces => &self.replaces,
            Change::ReplacesOpen => &self.replaces_open,
            Change::Lists => &self.lists,
            Change::Unlists => &self.unlists,
            Change::RemovesOpen => &self.removes_open,
            Change::Locks => &self.locks,
        }
    }

    /// Whether each change showed at once.
    pub fn are_seen(&self) -> bool
        ensures { result ≡ are_seen self.now }
    {
        self.links.is_seen()
            && self.replaces.is_seen()
            && self.replaces_open.is_seen()
            && self.lists.is_seen()
            && self.unlists.is_seen()
            && self.removes_open.is_seen()
            && self.locks.is_seen()
    }

    pub(crate) fn untried() -> Sights {
        Sights {
            links: Finding::Untried,
            replaces: Finding::Untried,
            replaces_open: Finding::Untried,
            lists: Finding::Untried,
            unlists: Finding::Untried,
            removes_open: Finding::Untried,
            locks: Finding::Untried,
        }
    }

    /// A line for each change, of the mount that this names.
    fn write_lines<W: fmt::Write>(&self, mount: &str, f: &mut fmt::Formatter<W>) -> fmt::Result {
        for change in &CHANGES {
            let finding = self.finding_of(*change);
            writeln!(f, "the {mount} {change}: {finding}")?;
        }
        Ok(())
    }
}

/// What two mounts showed.
#[derive(Clone, Copy)]
pub struct Beside {
    /// Whether a folder that the first makes is one of the other.
    pub one_folder: Finding,
    /// What the other showed of what was done through the first.
    pub other: Sights,
    /// What the first showed of what was done through the other.
    pub first: Sights,
    /// Whether nothing was left.
    pub removes: Finding,
}

impl Beside {
    /// Whether the two mounts serve: each change showed at once, both ways, and nothing was left.
    pub fn serves(&self) -> bool
        ensures { result ≡ serves self.now }
    {
        self.one_folder.is_seen()
            && self.other.are_seen()
            && self.first.are_seen()
            && self.removes.is_seen()
    }
}

/// A line of something that was tried.
fn write_line<W: fmt::Write>(
    f: &mut fmt::Formatter<W>,
    what: &str,
    finding: &Finding,
) -> fmt::Result {
    writeln!(f, "{what}: {finding}")
}

/// A line for each thing that was tried.
impl fmt::Display for Beside {
    fn fmt<W: fmt::Write>(&self, f: &mut fmt::Formatter<W>) -> fmt::Result {
        write_line(f, "both are mounts of one folder", &self.one_folder)?;
        self.other.write_lines("other", f)?;
        self.first.write_lines("first", f)?;
        write_line(f, "nothing is left", &self.removes)
    }
}
