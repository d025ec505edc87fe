//! Lines of what is printed.
ghost use Rattle.std.specs.Prelude.{IfSome, OnOk};
ghost use Rattle.std.specs.Fmt.{decimal};
ghost use Rattle.std.specs.Io.KnownBytes.{Appends};
ghost use Rattle.txnobj_words.specs.Said.{with_feed, lines_of};

use std::alloc::Global;
use std::io::Write;
use std::{fmt, io};
use txn_script_lines::text_form::LineValue;

/// Prints a line, by one write.
///
/// # Errors
///
/// That of the writer, after which a part may be printed, and want of memory, which prints nothing.
pub fn print_line<W: Write, D: fmt::Display + Drop>(
    alloc: Global,
    out: &mut W,
    words: D,
) -> io::Result<()>
    ensures { OnOk result (IfSome (D.output words) (λ text. Appends (W.contents out.old) (W.contents out.new) (with_feed text))) }
{
    let mut line = Vec::new(alloc);
    line.writeln(words)?;
    out.write_all(line.as_slice())
}

/// Prints a number, as an id or how many there are.
///
/// # Errors
///
/// As of a line.
pub fn print_number<W: Write>(alloc: Global, out: &mut W, number: u64) -> io::Result<()>
    ensures { OnOk result (Appends (W.contents out.old) (W.contents out.new) (with_feed (decimal number))) }
{
    print_line(alloc, out, number)
}

/// Prints numbers, a line each.
///
/// # Errors
///
/// As of a line. The numbers before may be printed.
pub fn print_numbers<W: Write>(alloc: Global, out: &mut W, numbers: &[u64]) -> io::Result<()>
    ensures { OnOk result (Appends (W.contents out.old) (W.contents out.new) (lines_of decimal numbers.now)) }
{
    for number in numbers {
        print_number(alloc, out, *number)?;
    }
    Ok(())
}

/// A stored version: its id, and what it says.
#[derive(Clone, Copy)]
pub struct Stored<'a, T> {
    pub id: u64,
    pub value: &'a T,
}

impl<T: LineValue> fmt::Display for Stored<'_, T> {
    ghost use Rattle.std.specs.Prelude.{Some};
    ghost use Rattle.txnobj_words.specs.Said.{stored_text};

    ghost output = { λ stored. Some (stored_text T.text stored.id stored.value.now) };

    fn fmt<W: fmt::Write>(&self, f: &mut fmt::Formatter<W>) -> fmt::Result {
        let id = self.id;
        let value = self.value;
        write!(f, "{id} {value}")
    }
}
