//! What a line says, and how it is printed.
use percent_encoding::{AsciiSet, CONTROLS, ascii_set, percent_encode};
use slatedb_txn_obj::TransactionalObjectError;
use std::fmt;
use txn_history::event::{Answer, PlainAnswer};
use txn_script_lines::printed::Answered;
use txn_script_lines::record::Record;
use txn_steps::boundary::caches::CachedBoundary;
use txn_store::failing::Counts;
use txn_store::store::Got;

/// The bytes that are not shown as they are, beside those outside ASCII: the controls, the space and `%`.
const ESCAPED: AsciiSet = ascii_set!(CONTROLS.add(b' ').add(b'%'));

/// What a line says.
#[derive(Drop)]
pub enum Said {
    /// Something is set from here on. Nothing is printed.
    Set,
    /// A call's answer.
    Answered(Answer<Record>),
    /// A call's error.
    Refused(TransactionalObjectError),
    /// What a boundary object has cached.
    Cached(Option<CachedBoundary>),
    /// What a file holds, where it is there.
    File(Option<Got>),
    /// Whether an older holder was fenced.
    Fenced(bool),
    /// How often the clock was read.
    Read(usize),
    /// No object of this number is one that the call is for.
    Misplaced,
}

impl Said {
    /// What an answer or an error says.
    pub(crate) fn of(answer: Result<Answer<Record>, TransactionalObjectError>) -> Said {
        match answer {
            Ok(answer) => Said::Answered(answer),
            Err(error) => Said::Refused(error),
        }
    }
}

/// The number and the name of an error.
#[derive(Clone, Copy)]
struct Named(u8);

impl fmt::Display for Named {
    fn fmt<W: fmt::Write>(&self, f: &mut fmt::Formatter<W>) -> fmt::Result {
        let answer: Answer<Record> = Answer::Plain(PlainAnswer::Refused(self.0));
        let answered = Answered(&answer);
        write!(f, "{answered}")
    }
}

/// What the store, the clock or a callback says of an error.
#[derive(Clone, Copy)]
struct Cause<'a>(&'a TransactionalObjectError);

impl fmt::Display for Cause<'_> {
    fn fmt<W: fmt::Write>(&self, f: &mut fmt::Formatter<W>) -> fmt::Result {
        match self.0 {
            TransactionalObjectError::ObjectStoreError(error) => write!(f, ": {error}"),
            TransactionalObjectError::ObjectUpdateTimeout { timeout } => {
                write!(f, ": {timeout} ms")
            }
            TransactionalObjectError::CallbackError(error) => write!(f, ": {error}"),
            _ => Ok(()),
        }
    }
}

/// It is printed so. The bytes of a file, each outside `!` to `~`, and `%`, are shown as `%XX`.
impl fmt::Display for Said {
    fn fmt<W: fmt::Write>(&self, f: &mut fmt::Formatter<W>) -> fmt::Result {
        match self {
            Said::Set => Ok(()),
            Said::Answered(answer) => {
                let answered = Answered(answer);
                write!(f, "{answered}")
            }
            Said::Refused(error) => {
                let named = Named(error.number());
                let cause = Cause(error);
                write!(f, "{named}{cause}")
            }
            Said::Cached(None) => write!(f, "cached none"),
            Said::Cached(Some(cached)) => {
                let number = cached.number;
                let token = cached.token.number();
                write!(f, "cached {number} token {token}")
            }
            Said::File(None) => write!(f, "file none"),
            Said::File(Some(got)) => {
                let token = got.token.number();
                let bytes = percent_encode(got.bytes.as_slice(), ESCAPED);
                write!(f, "file token {token} {bytes}")
            }
            Said::Fenced(fenced) => write!(f, "fenced {fenced}"),
            Said::Read(count) => write!(f, "clock read {count}"),
            Said::Misplaced => write!(f, "misplaced"),
        }
    }
}

/// What a line took: calls of the store, and turns.
#[derive(Clone, Copy)]
pub struct Cost {
    pub made: Counts,
    pub turns: u64,
}

impl fmt::Display for Cost {
    fn fmt<W: fmt::Write>(&self, f: &mut fmt::Formatter<W>) -> fmt::Result {
        let Counts {
            puts,
            gets,
            lists,
            deletes,
        } = self.made;
        let turns = self.turns;
        write!(
            f,
            "puts {puts} gets {gets} lists {lists} deletes {deletes} turns {turns}"
        )
    }
}

/// What a line says, with what it took where that is printed.
#[derive(Drop)]
pub struct Played {
    pub said: Said,
    pub cost: Option<Cost>,
}

impl Played {
    /// Whether nothing is printed.
    pub fn is_silent(&self) -> bool {
        matches!(&self.said, Said::Set)
    }
}

impl fmt::Display for Played {
    fn fmt<W: fmt::Write>(&self, f: &mut fmt::Formatter<W>) -> fmt::Result {
        let said = &self.said;
        match self.cost {
            None => write!(f, "{said}"),
            Some(cost) => write!(f, "{said}; {cost}"),
        }
    }
}
