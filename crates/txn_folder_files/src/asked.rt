//! What a call asks of the system, one step after another, and what it is told. No other crate makes an answer, and none is
//! dropped: it ends by `take`, which the machines of the calls make, each of an answer to what it asks.
ghost use Rattle.std.specs.Prelude.{◌≡◌};

/// What a call asks of the system, for the name of its file and for a new file of its own under a temporary name.
#[derive(Clone, Copy)]
pub enum Ask {
    /// A number of the clock.
    Draw,
    /// A new file, where nothing has the temporary name of this number.
    Make(u64),
    /// The bytes of the new file.
    Write,
    /// This time of change of the new file.
    SetTime(u64),
    /// That the new file lasts.
    SyncNew,
    /// The name for the new file, where nothing has it.
    Link,
    /// The name for the new file, whatever has it.
    Rename,
    /// That nothing has the temporary name.
    Clean,
    /// That nothing has the name.
    Remove,
    /// Which file has the temporary name.
    LookOwn,
    /// Which file has the name.
    Look,
    /// What has the name, open.
    Open,
    /// What the open file says, to its end, and its time of change.
    Read,
    /// A lock.
    Take,
    /// That the lock is let go.
    Let,
    /// That the names in the folder last.
    Sync,
}

/// What the system tells.
#[derive(Clone, Copy)]
pub enum Told {
    Done,
    /// Something has the name.
    Taken,
    /// Nothing has the name.
    Missing,
    /// The file is none any more.
    Gone,
    /// A regular file has the name: which one, and its time of change, 0 where no number holds it.
    Holds(u128, u64),
    /// What has the name is open.
    Opened,
    /// The open file was read to its end. Its time of change, where a number holds it.
    Says(Option<u64>),
    /// A number of the clock.
    Number(u64),
    Error,
}

/// What the system told a call that asked it for this.
pub struct Answer {
    asked: Ask,
    told: Told,
}

impl Answer {
    /// The answer to what was asked.
    pub(crate) fn of(asked: Ask, told: Told) -> Answer
        ensures { result ≡ record { asked = asked; told = told } }
    {
        Answer { asked, told }
    }

    /// What was told. The answer is taken with that.
    pub fn take(self) -> Told
        ensures { result ≡ self.told }
    {
        let Answer { asked: _, told } = self;
        told
    }
}
