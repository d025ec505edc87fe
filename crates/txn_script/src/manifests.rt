//! The run of a script of manifests.

ghost use Rattle.txn_script.specs.Script.{RunEnds};
ghost use Rattle.txn_script.specs.Manifests.{manifest_rules};

use crate::manifest_call::ManifestCall;
use crate::script::{exit_status, print_world};
use crate::scripted_manifests::Scripted;
use std::alloc::Global;
use std::io::{Read, Write};
use txn_manifest::manifest::Manifest;

/// Runs a script of manifests, and gives the exit status: 0, 2 for a bad line, 1 for another fault, which is named
/// on `err`.
pub fn run_manifest<R: Read + Drop, W: Write, E: Write>(
    alloc: Global,
    reader: R,
    out: &mut W,
    err: &mut E,
) -> u8
    ensures { RunEnds manifest_rules result (R.remaining reader) (W.contents out.old) (W.contents out.new) err.old err.new }
{
    let ended = print_world::<Manifest, ManifestCall, Scripted, R, W>(alloc, reader, out);
    exit_status(ended, err)
}
