//! Whether the shares of all workers agree with the journal.
ghost use Rattle.std.specs.Prelude.{◌≡◌, ◌≢◌, ◌↔◌, IsTrue, IfOk, IfErr, length};
ghost use Rattle.txn_world_threads.specs.declared.finish.FinishFault.TheVariants as faults;
ghost use Rattle.txn_world_threads.specs.Kept.{CameOnce, AreAmong, AreCounted, shares_of};
ghost use Rattle.txn_world_threads.specs.Finish.{Finished, IsDue, fault_number};

use crate::kept::{Kept, Share};
use txn_store::types::codec::ObjectCodec;
use txn_store::types::epoch::EpochField;

/// Why the shares do not agree with the journal.
#[derive(Clone, Copy, Debug, PartialEq, Eq)]
pub enum FinishFault {
    /// The shares are not each worker's share once.
    ShareMissing = 1,
    /// A share's count is not how many rows of the journal are its worker's.
    CountsDiffer = 2,
    /// A growth was refused. [`finish`] never answers it, since the room for the counts is made with the
    /// kept world; it stands here so that the faults keep their numbers.
    NoMemory = 3,
}

impl FinishFault {
    /// The number that names the fault: 1, 2 or 3.
    pub fn number(&self) -> u8
        ensures { result ≡ fault_number self.now }
    {
        *self as u8
    }
}

/// How many of the shares are this worker's.
fn shares_of(shares: &[Share], worker: u64) -> u64
    ensures { result ≡ shares_of shares.now worker }
{
    shares
        .iter()
        .filter(|share| share.worker() == worker)
        .count() as u64
}

/// Whether these are each worker's share once.
fn came_once(workers: u64, shares: &[Share]) -> bool
    ensures { IsTrue result ↔ CameOnce workers shares.now }
{
    if shares.len() as u64 != workers {
        return false;
    }
    for before in 0..workers {
        if shares_of(shares, before + 1) != 1 {
            return false;
        }
    }
    true
}

/// Whether each share has the count that stands for its worker.
fn agree(shares: &[Share], counts: &[u64]) -> bool
    requires { AreAmong (length counts.now) shares.now }
    ensures { IsTrue result ↔ AreCounted counts.now shares.now }
{
    shares.iter().all(|share| share.count() == counts[(share.worker() - 1) as usize])
}

/// Ends the keeping of a world: how many events each worker took, worker 1 first, where each worker's share came once, in any
/// order, with the count of its rows in the journal. It asks for no memory, and goes over the journal once.
///
/// # Errors
///
/// [`FinishFault::ShareMissing`] where a worker's share did not come, or came twice; else [`FinishFault::CountsDiffer`] where a
/// share's count is another than that of its rows. The world and the shares are gone.
pub fn finish<T: Clone, C: ObjectCodec<T> + Drop, E: EpochField<T>>(
    kept: Kept<T, C, E>,
    shares: Vec<Share>,
) -> Result<Vec<u64>, FinishFault>
    ensures ok { IfOk result (λ counts. Finished kept shares.items counts.items) }
    ensures err { IfErr result (IsDue kept shares.items) }
    // It asks for no memory.
    ensures memory { IfErr result (λ fault. fault ≢ faults.NoMemory) }
{
    if !came_once(kept.workers(), &shares) {
        return Err(FinishFault::ShareMissing);
    }
    let counts = kept.into_counts();
    if !agree(&shares, &counts) {
        return Err(FinishFault::CountsDiffer);
    }
    Ok(counts)
}
