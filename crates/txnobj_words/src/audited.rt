//! What is printed of recordings that are one history.

use std::fmt;

/// How recordings that are one history end, and what they have.
#[derive(Clone, Copy)]
pub struct Ended {
    pub entries: u64,
    pub boundary: u64,
    pub clients: usize,
    /// The store calls that took effect.
    pub calls: usize,
}

impl fmt::Display for Ended {
    ghost use Rattle.std.specs.Prelude.{Some};
    ghost use Rattle.txnobj_words.specs.Audited.{ended_text};

    ghost output = { λ ended. Some (ended_text ended) };

    fn fmt<W: fmt::Write>(&self, f: &mut fmt::Formatter<W>) -> fmt::Result {
        let entries = self.entries;
        let boundary = self.boundary;
        let clients = self.clients;
        let calls = self.calls;
        write!(
            f,
            "one history: {entries} entries, boundary {boundary}, {clients} clients, {calls} store calls"
        )
    }
}

/// How many puts without a reply may decide how a history ends.
#[derive(Clone, Copy)]
pub struct Undecided(pub u64);

impl fmt::Display for Undecided {
    ghost use Rattle.std.specs.Prelude.{Some};
    ghost use Rattle.txnobj_words.specs.Audited.{undecided_text};

    ghost output = { λ undecided. Some (undecided_text undecided.0) };

    fn fmt<W: fmt::Write>(&self, f: &mut fmt::Formatter<W>) -> fmt::Result {
        let puts = self.0;
        write!(
            f,
            "(the entries and the boundary rest on puts without a reply that no get tells of: {puts})"
        )
    }
}
