//! Why a script stops before its end.

ghost use Rattle.std.specs.Prelude.{◌≡◌, ◌≢◌, Some};
ghost use Rattle.std.specs.IoError.{error_kind};
ghost use Rattle.txn_script_lines.specs.Printed.{stop_text, status_of};
ghost use Rattle.txn_script_lines.specs.Reading.{OnBadLine};

use std::io::{ErrorKind, Write};
use std::{fmt, io};

/// Why a script stops before its end.
#[derive(Clone, Copy, Debug, PartialEq, Eq)]
pub enum Stop {
    /// The line of this number, from 1, may not stand there.
    BadLine(u64),
    /// The reader failed, or has more lines than can be counted.
    ReadFailed,
    /// The writer failed to take what was printed, or to flush it.
    WriteFailed,
    /// A growth was refused, to the program or to the world.
    NoMemory,
}

impl Stop {
    /// The exit status.
    pub fn status(&self) -> u8
        ensures { result ≡ status_of self.now }
    {
        match self {
            Stop::BadLine(_) => 2,
            _ => 1,
        }
    }

    /// Says it on `err`, and gives the exit status.
    pub fn tell<E: Write>(self, err: &mut E) -> u8
        ensures { result ≡ status_of self }
    {
        // Nothing is left to tell a failure to.
        let _ = err.writeln(self);
        self.status()
    }

    /// Why a script stops at a failed read.
    pub fn of_read(error: io::Error) -> Stop
        ensures memory { error_kind error ≡ ErrorKind.OutOfMemory → result ≡ Stop.NoMemory }
        ensures other { error_kind error ≢ ErrorKind.OutOfMemory → result ≡ Stop.ReadFailed }
        ensures bad { OnBadLine result (λ _. ⊥) }
    {
        match error.kind() {
            ErrorKind::OutOfMemory => Stop::NoMemory,
            _ => Stop::ReadFailed,
        }
    }
}

impl fmt::Display for Stop {
    ghost output = { λ stop. Some (stop_text stop) };

    fn fmt<W: fmt::Write>(&self, f: &mut fmt::Formatter<W>) -> fmt::Result {
        match self {
            Stop::BadLine(number) => write!(f, "line {number}: bad line"),
            Stop::ReadFailed => write!(f, "read failed"),
            Stop::WriteFailed => write!(f, "write failed"),
            Stop::NoMemory => write!(f, "no memory"),
        }
    }
}
