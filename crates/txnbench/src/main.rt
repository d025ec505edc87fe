//! Measures the calls of a protocol over a store in memory, and prints the nanoseconds of a call.
#![tactic(auto)]

use slatedb_txn_obj_uses::bench::run_command;
use slatedb_txn_obj_uses::command::command_of;
use std::io;
use std::process::ExitCode;
use txn_script_lines::words::{tell_usage, words_of_command};

fn main(rt: HostRuntime) -> ExitCode {
    let mut out = io::writer(&rt);
    let mut err = rt.stderr();
    let status = match words_of_command(&rt).map(|words| command_of(&words)) {
        Ok(Some(command)) => run_command(&rt, rt.alloc(), command, &mut out, &mut err),
        Ok(None) => tell_usage("usage: txnbench run | txnbench check", &mut err),
        Err(stop) => stop.tell(&mut err),
    };
    ExitCode::from(status)
}
