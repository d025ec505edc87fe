//! Sets of numbers, by client: of its operations that run, and of its views that stand.
ghost use Rattle.std.specs.Prelude.{◌≡◌, ◌&&◌, ◌==◌, ◌≤◌, ℕ, not, false, IfOk, vec_len};
ghost use Rattle.txn_world.specs.Owning.{owns};

use std::alloc::{AllocError, Global};
use std::collections::HashSet;

/// So many empty sets. The only error is want of memory.
pub(crate) fn new_sets(alloc: Global, count: u64) -> Result<Vec<HashSet<u64>>, AllocError>
    ensures empty { IfOk result (λ sets. (client n : ℕ) → owns sets.items client n ≡ false) }
    ensures len { IfOk result (λ sets. vec_len sets ≡ count) }
{
    let mut sets = Vec::new(alloc);
    for _ in 0..count {
        sets.push(HashSet::new(alloc))?;
    }
    Ok(sets)
}

/// Takes all numbers from a client's.
pub(crate) fn clear(sets: &mut Vec<HashSet<u64>>, client: u64)
    requires some { 1 ≤ client }
    requires within { client ≤ vec_len sets.old }
    ensures left { (c n : ℕ) → owns sets.new.items c n ≡ (owns sets.old.items c n && not (client == c)) }
    ensures len { vec_len sets.new ≡ vec_len sets.old }
{
    sets[(client - 1) as usize].clear();
}
