//! A script's run, drawn as one picture in SVG.

ghost use Rattle.std.specs.Io.KnownBytes.{Appends};
ghost use Rattle.std.specs.Prelude.{◌≡◌, ◌++◌, ℕ, List, IfOk, OnOk, Ok, true};
ghost use Rattle.txn_script.specs.Manifests.{manifest_rules};
ghost use Rattle.txn_script.specs.Records.{record_rules};
ghost use Rattle.txn_script.specs.Rules.{rules_of};
ghost use Rattle.txn_script.specs.Script.{EndsWith};
ghost use Rattle.txn_drawing_svg.specs.Escaped.{escaped_lines};
ghost use Rattle.txnworld_commands.specs.drawings.Drawing.{IsPictured};

use crate::drawings::noting::Noting;
use crate::drawings::run::Run;
use crate::drawings::seen::SeenWorld;
use crate::drawings::traced::Traced;
use crate::drawings::worded::Worded;
use std::alloc::Global;
use std::io::{Read, Write};
use txn_drawing_moments::part::Part;
use txn_drawing_svg::head::Title;
use txn_drawing_svg::picture::drawn;
use txn_history::event::Call;
use txn_manifest::manifest::Manifest;
use txn_script::manifest_call::ManifestCall;
use txn_script::printer::Printer;
use txn_script::script::{exit_status, play_world, print_end};
use txn_script::scripted_manifests::Scripted;
use txn_script_lines::record::{Record, RecordCodec, RecordEpoch};
use txn_script_lines::stop::Stop;
use txn_script_lines::text_form::{LineValue, TextForm};
use txn_world::world::World;

/// The most events of a picture.
const MOST_EVENTS: usize = 4000;

/// The status and the words of a run of more.
const TOO_MANY: u8 = 2;

const TOO_MANY_WORDS: &[u8] = b"too many events for one picture\n";

/// Writes a picture, and sees to it that it is written.
fn write_picture<W: Write>(picture: &[u8], out: &mut W) -> Result<(), Stop>
    ensures { OnOk result (Appends (W.contents out.old) (W.contents out.new) picture.now) }
{
    let Ok(()) = out.write_all(picture) else {
        return Err(Stop::WriteFailed);
    };
    match out.flush() {
        Ok(()) => Ok(()),
        Err(_) => Err(Stop::WriteFailed),
    }
}

/// Draws a run with this comment below its title, and these lines at its foot.
fn picture_of(alloc: Global, run: &Run, comment: &str, foot: &[u8]) -> Result<Vec<u8>, Stop>
    ensures { IfOk result (λ bytes. (above below : List ℕ) × (bytes.items ≡ above ++ (escaped_lines foot.now ++ below))) }
{
    let title = Title {
        title: "A run of clients that share one object",
        comment,
        said: &[],
        is_refused: false,
    };
    let part = Part::whole(run.moments());
    match drawn(alloc, title, run.clients(), part, foot) {
        Ok(picture) => Ok(picture),
        Err(_) => Err(Stop::NoMemory),
    }
}

/// The end lines of a world.
fn foot_of<T: LineValue, C: TextForm + Worded, K: SeenWorld<T, C>>(
    alloc: Global,
    world: &Traced<K>,
) -> Result<Vec<u8>, Stop>
    ensures { IfOk result (λ foot. EndsWith (rules_of C.text C.fits T.text K.rules) (K.state world.now.world) foot.items) }
{
    let mut foot: Vec<u8> = Vec::new(alloc);
    let mut printer = Printer::new(alloc);
    print_end::<T, C, Traced<K>, Vec<u8>>(alloc, world, &mut printer, &mut foot)?;
    printer.write_out(&mut foot)?;
    Ok(foot)
}

/// Reads a script of worlds of the kind `K` and draws what happens in it as a picture, with the end lines of the script at its
/// foot. Whether it did: not where there are too many events. It keeps all of it in memory until the script has ended.
///
/// # Errors
///
/// [`Stop::BadLine`] for a line that may not stand where it stands, [`Stop::ReadFailed`], [`Stop::NoMemory`]: nothing is written
/// unless the whole picture was made. [`Stop::WriteFailed`]: a part of it may be.
fn print_picture<T: LineValue, C: TextForm + Worded, K: SeenWorld<T, C>, R: Read + Drop, W: Write>(
    alloc: Global,
    reader: R,
    out: &mut W,
) -> Result<bool, Stop>
    // The lines at its foot are the history, the boundary and what was erased in the world of the script.
    ensures foot { IfOk result (λ is_drawn. is_drawn ≡ true → IsPictured (rules_of C.text C.fits T.text K.rules) (R.remaining reader) (W.contents out.old) (W.contents out.new)) }
{
    // What the script prints, which the picture has in its own words.
    let mut printed: Vec<u8> = Vec::new(alloc);
    let mut noting = Noting {
        inner: reader,
        line: Vec::new(alloc),
        is_over: false,
    };
    let traced = play_world::<T, C, Traced<K>, &mut Noting<R>, Vec<u8>>(
        alloc,
        &mut noting,
        &mut printed,
    )?;
    drop(printed);
    if traced.run().moments().len() > MOST_EVENTS {
        return Ok(false);
    }
    let foot = foot_of::<T, C, K>(alloc, &traced)?;
    let picture = picture_of(alloc, traced.run(), noting.comment(), foot.as_slice())?;
    write_picture(picture.as_slice(), out)?;
    Ok(true)
}

/// The exit status of a picture that ended so.
fn picture_status<E: Write>(ended: Result<bool, Stop>, err: &mut E) -> u8
    ensures { result ≡ 0 → ended ≡ Ok true }
{
    match ended {
        Ok(true) => 0,
        Ok(false) => {
            let _ = err.write_all(TOO_MANY_WORDS);
            TOO_MANY
        }
        Err(stop) => stop.tell(err),
    }
}

/// Draws the run of a script of records as one picture in SVG, and gives the exit status: 0, 2 for a bad line or more than 4,000
/// events, 1 for another fault, which is named on `err`.
pub fn run_picture<R: Read + Drop, W: Write, E: Write>(
    alloc: Global,
    reader: R,
    out: &mut W,
    err: &mut E,
) -> u8
    ensures { result ≡ 0 → IsPictured record_rules (R.remaining reader) (W.contents out.old) (W.contents out.new) }
{
    let ended = print_picture::<
        Record,
        Call<Record>,
        World<Record, RecordCodec, RecordEpoch>,
        R,
        W,
    >(alloc, reader, out);
    picture_status(ended, err)
}

/// The same of a script of manifests.
pub fn run_manifest_picture<R: Read + Drop, W: Write, E: Write>(
    alloc: Global,
    reader: R,
    out: &mut W,
    err: &mut E,
) -> u8
    ensures { result ≡ 0 → IsPictured manifest_rules (R.remaining reader) (W.contents out.old) (W.contents out.new) }
{
    let ended = print_picture::<Manifest, ManifestCall, Scripted, R, W>(alloc, reader, out);
    picture_status(ended, err)
}
