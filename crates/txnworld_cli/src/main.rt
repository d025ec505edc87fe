//! Runs scripts of events, or workers on threads, over a world, and prints what came of them.
#![tactic(auto)]

use std::io;
use std::process::ExitCode;
use txn_script::manifests::run_manifest;
use txn_script::script::run_script;
use txn_script_lines::words::{tell_usage, words_of_command};
use txn_script_orders::explore::run_explore;
use txnworld_commands::command::{Command, command_of};
use txnworld_commands::drawings::picture::{run_manifest_picture, run_picture};
use txnworld_commands::drawings::trace::{run_manifest_trace, run_trace};
use txnworld_commands::threads::run_threads;

/// Which words ask for something.
const USAGE: &str =
    "usage: txnworld script | txnworld manifest | txnworld trace [manifest] | txnworld picture [manifest] | txnworld explore | txnworld threads N";

fn main(rt: HostRuntime) -> ExitCode {
    let alloc = rt.alloc();
    let mut out = io::writer(&rt);
    let mut err = rt.stderr();
    let status = match words_of_command(&rt).map(|words| command_of(&words)) {
        Ok(Some(Command::Script)) => run_script(alloc, rt.reader(), &mut out, &mut err),
        Ok(Some(Command::Manifest)) => run_manifest(alloc, rt.reader(), &mut out, &mut err),
        Ok(Some(Command::Threads(workers))) => {
            run_threads(&rt, alloc, workers, &mut out, &mut err)
        }
        Ok(Some(Command::Trace)) => run_trace(alloc, rt.reader(), &mut out, &mut err),
        Ok(Some(Command::ManifestTrace)) => {
            run_manifest_trace(alloc, rt.reader(), &mut out, &mut err)
        }
        Ok(Some(Command::Picture)) => run_picture(alloc, rt.reader(), &mut out, &mut err),
        Ok(Some(Command::ManifestPicture)) => {
            run_manifest_picture(alloc, rt.reader(), &mut out, &mut err)
        }
        Ok(Some(Command::Explore)) => run_explore(alloc, rt.reader(), &mut out, &mut err),
        Ok(None) => tell_usage(USAGE, &mut err),
        Err(stop) => stop.tell(&mut err),
    };
    ExitCode::from(status)
}
