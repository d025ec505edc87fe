//! What is printed, before it is written.

ghost use Rattle.std.specs.Prelude.{◌≡◌, ◌++◌, [], IfErr, IfSome, OnOk};
ghost use Rattle.std.specs.Io.KnownBytes.{Appends};
ghost use Rattle.txn_script.specs.Printed.{with_feed};
ghost use Rattle.txn_script.specs.Printing.{unwritten, held, Gathers, IsUnchanged};

use std::alloc::Global;
use std::fmt::Display;
use std::io::Write;
use txn_script_lines::stop::Stop;

/// From so many printed bytes on, they are written.
const FULL: usize = 8192;

/// Printed lines that are not written yet.
#[derive(Drop)]
pub struct Printer {
    /// The line last printed, whose room is used again.
    line: Vec<u8>,
    text: Vec<u8>,
}

impl Printer {
    /// Nothing is printed yet.
    pub fn new(alloc: Global) -> Printer
        ensures { unwritten result ≡ [] }
    {
        Printer {
            line: Vec::new(alloc),
            text: Vec::new(alloc),
        }
    }

    /// Prints a line, or nothing of it where memory is wanting.
    ///
    /// # Errors
    ///
    /// `NoMemory` alone. What was printed before is as it was.
    pub fn print_line<D: Display + Drop>(&mut self, line: D) -> Result<(), Stop>
        ensures ok { OnOk result
            (IfSome (D.output line) (λ text. Gathers self.old self.new (with_feed text))) }
        ensures err { IfErr result
            (λ stop. (stop ≡ Stop.NoMemory) × IsUnchanged self.old self.new) }
    {
        self.line.clear();
        let Ok(()) = self.line.writeln(line) else {
            return Err(Stop::NoMemory);
        };
        match self.text.extend_from_slice(&self.line) {
            Ok(()) => Ok(()),
            Err(_) => Err(Stop::NoMemory),
        }
    }

    /// Writes what was printed. However it goes, nothing of it is written again.
    ///
    /// # Errors
    ///
    /// `WriteFailed` alone, where the writer failed. A part may have been written.
    pub fn write_out<W: Write>(&mut self, out: &mut W) -> Result<(), Stop>
        ensures ok { OnOk result
            (Appends (W.contents out.old) (W.contents out.new) (unwritten self.old)) }
        ensures empty { unwritten self.new ≡ [] }
        ensures err { IfErr result (λ stop. stop ≡ Stop.WriteFailed) }
    {
        let written = out.write_all(&self.text);
        self.text.clear();
        match written {
            Ok(()) => Ok(()),
            Err(_) => Err(Stop::WriteFailed),
        }
    }

    /// Writes what was printed, once there is enough of it.
    ///
    /// # Errors
    ///
    /// Those of [`Printer::write_out`], which leave the same.
    pub fn write_full<W: Write>(&mut self, out: &mut W) -> Result<(), Stop>
        ensures ok { OnOk result
            (Appends (held (W.contents out.old) self.old) (held (W.contents out.new) self.new) []) }
        ensures err { IfErr result (λ stop. stop ≡ Stop.WriteFailed) }
    {
        if self.text.len() < FULL {
            return Ok(());
        }
        self.write_out(out)
    }
}
