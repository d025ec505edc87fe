//! What happened in one event.

/// What an event did to the store's files, or saw of them.
#[derive(Drop)]
pub enum Touch {
    /// Nothing.
    None,
    /// A version was to be created.
    Creates {
        id: u64,
        /// What it says.
        value: String,
        /// The epoch that this begins with, 0 where it begins with no number.
        epoch: u64,
        /// Whether it was: else its name was taken, or the call was refused.
        is_made: bool,
        /// Whether its name was created before.
        is_again: bool,
    },
    /// A version was read, or found missing.
    Gets {
        id: u64,
        is_there: bool,
    },
    /// These versions were listed.
    Lists(Vec<u64>),
    /// The boundary was read.
    ReadsBoundary,
    /// The boundary was to be raised to this.
    Raises {
        to: u64,
        is_raised: bool,
    },
    /// A version was to be removed.
    Removes {
        id: u64,
        is_removed: bool,
    },
}

/// What an event was, beside what it touched.
#[derive(Clone, Copy, Debug, PartialEq, Eq)]
pub enum Kind {
    /// A call began.
    Begins,
    /// An operation looked at its client's caches.
    Looks,
    /// The store served a call.
    Serves,
    /// A store call failed.
    Fails,
    /// An operation was given up.
    GivesUp,
    /// The loose request of this number reached the store.
    Lands(u64),
    /// A client crashed.
    Crashes,
    /// A client was killed: its recording ends in the midst of a call.
    Killed,
    /// It was refused, and changed nothing.
    Refused,
}

/// An answer, as it is drawn.
#[derive(Drop)]
pub struct Said {
    /// Its words.
    pub words: String,
    /// Whether it is a refusal.
    pub is_refusal: bool,
    /// The epoch that its client holds from here on, where it was made a holder.
    pub held: Option<u64>,
}

/// When an event was.
#[derive(Clone, Copy, Debug, PartialEq, Eq)]
pub enum When {
    /// In a world, where only the order counts.
    Number,
    /// So many nanoseconds after the first event, by a clock that all events share.
    Shared(u64),
    /// The same by a clock of its own, which may be off from others.
    Own(u64),
    /// Nobody noted it.
    Unknown,
}

/// That a call came before another one of a circle.
#[derive(Clone, Copy, Debug, PartialEq, Eq)]
pub struct Edge {
    /// The number of the other's ring.
    pub to: u64,
    /// Whether times show it: else replies do.
    pub is_by_time: bool,
}

/// The ring of a call that an audit refuses, or finds in a circle of calls.
#[derive(Clone, Copy, Debug, PartialEq, Eq)]
pub struct Ring {
    /// Its number, counted from 1.
    pub number: u64,
    /// What it came before, in a circle.
    pub before: Option<Edge>,
}

/// One event.
#[derive(Drop)]
pub struct Moment {
    /// Its number, counted from 1.
    pub number: u64,
    /// When it was.
    pub when: When,
    /// What it was.
    pub kind: Kind,
    /// Whose it was, counted from 1; 0 where it was nobody's.
    pub client: u64,
    /// The operation, 0 where there is none.
    pub op: u64,
    /// The words of a call that begins, and of a refused event with its fault.
    pub words: String,
    /// The answer that it brought.
    pub answer: Option<Said>,
    /// The numbers of the requests that are in flight from here on.
    pub left: Vec<u64>,
    /// What it did to the store.
    pub touch: Touch,
    /// Its ring, where an audit refuses it or finds it in a circle of calls.
    pub ring: Option<Ring>,
}
