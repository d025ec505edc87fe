//! What is printed of a repair.
ghost use Rattle.std.specs.Prelude.{OnOk};
ghost use Rattle.std.specs.Io.KnownBytes.{Appends};
ghost use Rattle.txnobj_words.specs.Repaired.{removed_text, repaired_text};
ghost use Rattle.txnobj_words.specs.Said.{lines_of};

use crate::lines::print_line;
use std::alloc::Global;
use std::io::Write;
use std::{fmt, io};

/// A version of this id that was removed.
#[derive(Clone, Copy)]
pub struct Removed(pub u64);

impl fmt::Display for Removed {
    ghost use Rattle.std.specs.Prelude.{Some};
    ghost use Rattle.txnobj_words.specs.Repaired.{removed_text};

    ghost output = { λ removed. Some (removed_text removed.0) };

    fn fmt<W: fmt::Write>(&self, f: &mut fmt::Formatter<W>) -> fmt::Result {
        let id = self.0;
        write!(f, "removed {id}")
    }
}

/// The id of the version at which a repaired object goes on.
#[derive(Clone, Copy)]
pub struct GoesOn(pub u64);

impl fmt::Display for GoesOn {
    ghost use Rattle.std.specs.Prelude.{Some};
    ghost use Rattle.txnobj_words.specs.Repaired.{goes_on_text};

    ghost output = { λ at. Some (goes_on_text at.0) };

    fn fmt<W: fmt::Write>(&self, f: &mut fmt::Formatter<W>) -> fmt::Result {
        let id = self.0;
        write!(
            f,
            "goes on at {id}: a write that was answered with a greater id is lost"
        )
    }
}

/// Prints the versions that were removed, a line each, in this order.
fn print_removed<W: Write>(alloc: Global, out: &mut W, ids: &[u64]) -> io::Result<()>
    ensures { OnOk result (Appends (W.contents out.old) (W.contents out.new) (lines_of removed_text ids.now)) }
{
    for id in ids {
        print_line(alloc, out, Removed(*id))?;
    }
    Ok(())
}

/// Prints what a repair removed, a line for each version, and then at which one the object goes on.
///
/// # Errors
///
/// As of a line. The lines before may be printed.
pub fn print_repaired<W: Write>(
    alloc: Global,
    out: &mut W,
    newest: u64,
    removed: &[u64],
) -> io::Result<()>
    ensures { OnOk result (Appends (W.contents out.old) (W.contents out.new) (repaired_text newest removed.now)) }
{
    print_removed(alloc, out, removed)?;
    print_line(alloc, out, GoesOn(newest))
}
