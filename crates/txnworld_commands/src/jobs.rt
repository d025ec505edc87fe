//! What each worker of a run is to do.
ghost use Rattle.std.specs.Prelude.{◌≡◌, ◌≤◌, IfOk};
ghost use Rattle.txnworld_commands.specs.Threads.{job_list};

use std::alloc::{AllocError, Global};
use txn_history::event::{Call, PlainCall};
use txn_script_lines::record::Record;
use txn_world_threads::jobs::Job;

/// The jobs of a worker: it writes the first version, and then four times on what it reads. Its values
/// have epoch 0, and payloads from 100 times its number and 1 on.
pub(crate) fn jobs_of(alloc: Global, worker: u64) -> Result<Vec<Job<Record>>, AllocError>
    requires { worker ≤ 64 }
    ensures { IfOk result (λ jobs. jobs.items ≡ job_list worker) }
{
    let value = |k| Record {
        epoch: 0,
        payload: worker * 100 + k,
    };
    Ok(vec![in alloc;
        Job::Call(Call::Plain(PlainCall::Write(None, value(1)))),
        Job::WriteOnRead(value(2)),
        Job::WriteOnRead(value(3)),
        Job::WriteOnRead(value(4)),
        Job::WriteOnRead(value(5)),
    ]?)
}
