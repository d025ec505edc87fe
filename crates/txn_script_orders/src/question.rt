//! What a user asks: the calls of each client, and what may go wrong.

use bytes::Bytes;
use std::alloc::Global;

/// The most clients of a question.
pub const MOST_CLIENTS: u64 = 4;

/// The most calls of a client.
pub const MOST_CALLS: usize = 6;

/// The most failures, landings and crashes of one kind.
pub const MOST_ALLOWED: u64 = 3;

/// The id of which a call speaks.
#[derive(Clone, Copy, Debug, PartialEq, Eq)]
pub enum Target {
    /// None: `-`.
    Nothing,
    /// So many below the id last told to the client: `own`, `own-1`.
    Own(u64),
    /// This one.
    Id(u64),
}

/// The value of a call. What it leaves out is that of its place.
#[derive(Clone, Copy, Debug, PartialEq, Eq)]
pub struct Worth {
    pub epoch: Option<u64>,
    pub payload: Option<u64>,
}

/// A call in the list of a client.
#[derive(Clone, Copy, Debug, PartialEq, Eq)]
pub enum Step {
    Write(Target, Worth),
    WriteUnchecked(Target, Worth),
    Read,
    ReadUnchecked(Target),
    ReadSeen(Target),
    List,
    Delete(Target),
    Check(Target),
    Advance(Target),
    Init(Worth),
    Load,
    Refresh,
    Update(Worth),
    Claim,
    ClaimAt(u64),
    HolderRefresh,
    HolderUpdate(Worth),
}

/// How often each fault may come.
#[derive(Clone, Copy, Debug, PartialEq, Eq)]
pub struct Allowed {
    pub before: u64,
    pub after: u64,
    pub loose: u64,
    pub giveups: u64,
    pub lands: u64,
    pub crashes: u64,
    /// Whether a client that crashed begins its list again.
    pub restarts: bool,
}

/// A question.
#[derive(Drop)]
pub struct Question {
    /// The calls of each client, in their order.
    pub lists: Vec<Vec<Step>>,
    /// The calls that one more client makes alone, before all others.
    pub before: Vec<Step>,
    pub allowed: Allowed,
    /// The words of which each stands in a line of what an outcome's script prints.
    pub filters: Vec<Bytes>,
}

/// No fault may come.
pub const NO_FAULTS: Allowed = Allowed {
    before: 0,
    after: 0,
    loose: 0,
    giveups: 0,
    lands: 0,
    crashes: 0,
    restarts: false,
};

impl Question {
    /// No client, no call and no fault.
    pub fn new(alloc: Global) -> Question {
        Question {
            lists: Vec::new(alloc),
            before: Vec::new(alloc),
            allowed: NO_FAULTS,
            filters: Vec::new(alloc),
        }
    }

    /// Whether some client may remove a version.
    pub(crate) fn removes(&self) -> bool {
        self.lists.iter().any(|list| list.iter().any(|step| matches!(step, Step::Delete(_))))
    }
}
