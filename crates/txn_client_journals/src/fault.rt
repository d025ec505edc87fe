//! What an audit may find.
ghost use Rattle.std.specs.Prelude.{◌≡◌};
ghost use Rattle.txn_client_journals.specs.Verdict.{fault_number};

/// Why an audit does not agree.
#[derive(Clone, Copy, Debug, PartialEq, Eq)]
pub enum AuditFault {
    /// Two diaries are of one client.
    ClientTwice = 1,
    /// A row of the log is of no diary's client.
    ClientMissing = 2,
    /// A diary's receipts are not, in order, the log's rows of its client.
    RowsDiffer = 3,
    /// A landing is of a request that its client had not left, or its reply says that the store lacked memory.
    LandingUnknown = 4,
}

impl AuditFault {
    /// The number that names the fault: 1 to 4, in the order in which they are tested.
    pub fn number(&self) -> u8
        ensures { result ≡ fault_number self.now }
    {
        *self as u8
    }
}
