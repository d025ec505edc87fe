//! Plays a script of calls on the port, and prints what each says.
#![tactic(auto)]

use slatedb_txn_obj_script::script::run_script;
use std::io::{self, BufWriter};
use std::process::ExitCode;
use txn_script_lines::stop::Stop;

fn main(rt: HostRuntime) -> ExitCode {
    let mut err = rt.stderr();
    let Ok(mut out) = BufWriter::new(rt.alloc(), io::writer(&rt)) else {
        return ExitCode::from(Stop::NoMemory.tell(&mut err));
    };
    ExitCode::from(run_script(rt.alloc(), rt.reader(), &mut out, &mut err))
}
