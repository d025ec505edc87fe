//! One object in a shared folder, from the command line: see `txnobj --help`.
#![tactic(auto)]

mod audit;
mod bench;
mod drawn;
mod ending;
mod opened;
mod printed;
mod run;
mod values;
mod watch;

use crate::ending::{FAULT, Halt};
use crate::run::run;
use std::env::{self, VarError};
use std::process::ExitCode;
use txnobj_words::options::{Options, options_of};

/// What the environment names. An empty text counts as none.
#[derive(Drop)]
struct Named {
    root: Option<String>,
    name: Option<String>,
    diary: Option<String>,
}

/// A variable of the environment, where it is there and not empty.
fn variable(rt: &HostRuntime, name: &str) -> Result<Option<String>, Halt> {
    match env::var(rt, name) {
        Ok(text) if text.as_str().is_empty() => Ok(None),
        Ok(text) => Ok(Some(text)),
        Err(VarError::NotPresent) => Ok(None),
        Err(VarError::OutOfMemory) => Err(Halt::NoMemory),
        Err(VarError::NotUnicode) => Err(Halt::Words(
            "TXNOBJ_ROOT, TXNOBJ_NAME and TXNOBJ_DIARY are texts in UTF-8",
        )),
    }
}

impl Named {
    fn read(rt: &HostRuntime) -> Result<Named, Halt> {
        Ok(Named {
            root: variable(rt, "TXNOBJ_ROOT")?,
            name: variable(rt, "TXNOBJ_NAME")?,
            diary: variable(rt, "TXNOBJ_DIARY")?,
        })
    }

    /// What is asked for where the words name no folder, no name or no recording. A command that records nothing takes no
    /// recording from the environment.
    fn stand_in<'a>(&'a self, options: Options<'a>) -> Options<'a> {
        let diary = if options.command.is_of_client() {
            self.diary.as_deref()
        } else {
            None
        };
        options.or(self.root.as_deref(), self.name.as_deref(), diary)
    }
}

fn main(rt: HostRuntime) -> ExitCode {
    match started(&rt) {
        Ok(status) => ExitCode::from(status),
        Err(halt) => {
            let _ = rt.eprintln(&halt);
            ExitCode::from(halt.status())
        }
    }
}

/// Reads the words, and does what they ask for: the status.
fn started(rt: &HostRuntime) -> Result<u8, Halt> {
    let words: Vec<String> = env::args(rt)?.collect(rt.alloc())?;
    match options_of(rt.alloc(), words.as_slice()) {
        Ok(options) => {
            let named = Named::read(rt)?;
            run(rt, &named.stand_in(options))
        }
        Err(error) => {
            error.print(rt)?;
            Ok(u8::try_from(error.exit_code()).unwrap_or(FAULT))
        }
    }
}
