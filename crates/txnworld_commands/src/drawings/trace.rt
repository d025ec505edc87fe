//! A script's run, drawn as text.

ghost use Rattle.std.specs.Prelude.{◌≡◌, OnOk};
ghost use Rattle.txn_script.specs.Manifests.{manifest_rules};
ghost use Rattle.txn_script.specs.Records.{record_rules};
ghost use Rattle.txn_script.specs.Rules.{rules_of};
ghost use Rattle.txnworld_commands.specs.drawings.Drawing.{IsDrawn};

use crate::drawings::seen::SeenWorld;
use crate::drawings::traced::Traced;
use crate::drawings::worded::Worded;
use std::alloc::Global;
use std::io::{Read, Write};
use txn_drawing_moments::lanes::drawn;
use txn_drawing_moments::part::Part;
use txn_history::event::Call;
use txn_manifest::manifest::Manifest;
use txn_script::manifest_call::ManifestCall;
use txn_script::printer::Printer;
use txn_script::script::{exit_status, play_world, print_end};
use txn_script::scripted_manifests::Scripted;
use txn_script_lines::record::{Record, RecordCodec, RecordEpoch};
use txn_script_lines::stop::Stop;
use txn_script_lines::text_form::{LineValue, TextForm};
use txn_world::world::World;

/// Reads a script of worlds of the kind `K` and draws what happens in it as text, with the end lines of the script at its foot.
/// It keeps all of it in memory until the script has ended.
///
/// # Errors
///
/// [`Stop::BadLine`] for a line that may not stand where it stands, [`Stop::ReadFailed`], [`Stop::NoMemory`]: nothing is written
/// unless the whole drawing was made. [`Stop::WriteFailed`]: a part of it may be.
fn print_trace<T: LineValue, C: TextForm + Worded, K: SeenWorld<T, C>, R: Read + Drop, W: Write>(
    alloc: Global,
    reader: R,
    out: &mut W,
) -> Result<(), Stop>
    // The figures at its foot are the history, the boundary and what was erased in the world of the script.
    ensures foot { OnOk result (IsDrawn (rules_of C.text C.fits T.text K.rules) (R.remaining reader) (W.contents out.old) (W.contents out.new)) }
{
    // What the script prints, which the drawing has in its own words.
    let mut printed: Vec<u8> = Vec::new(alloc);
    let traced = play_world::<T, C, Traced<K>, R, Vec<u8>>(alloc, reader, &mut printed)?;
    drop(printed);
    let part = Part::whole(traced.run().moments());
    let Ok(drawing) = drawn(alloc, traced.run().clients(), part) else {
        return Err(Stop::NoMemory);
    };
    let mut printer = Printer::new(alloc);
    printer.print_line(drawing.as_str())?;
    print_end::<T, C, Traced<K>, W>(alloc, &traced, &mut printer, out)?;
    printer.write_out(out)?;
    match out.flush() {
        Ok(()) => Ok(()),
        Err(_) => Err(Stop::WriteFailed),
    }
}

/// Draws the run of a script of records as text, and gives the exit status: 0, 2 for a bad line, 1 for another fault, which is
/// named on `err`.
pub fn run_trace<R: Read + Drop, W: Write, E: Write>(
    alloc: Global,
    reader: R,
    out: &mut W,
    err: &mut E,
) -> u8
    ensures { result ≡ 0 → IsDrawn record_rules (R.remaining reader) (W.contents out.old) (W.contents out.new) }
{
    let ended = print_trace::<Record, Call<Record>, World<Record, RecordCodec, RecordEpoch>, R, W>(
        alloc, reader, out,
    );
    exit_status(ended, err)
}

/// The same of a script of manifests.
pub fn run_manifest_trace<R: Read + Drop, W: Write, E: Write>(
    alloc: Global,
    reader: R,
    out: &mut W,
    err: &mut E,
) -> u8
    ensures { result ≡ 0 → IsDrawn manifest_rules (R.remaining reader) (W.contents out.old) (W.contents out.new) }
{
    let done = print_trace::<Manifest, ManifestCall, Scripted, R, W>(alloc, reader, out);
    exit_status(done, err)
}
