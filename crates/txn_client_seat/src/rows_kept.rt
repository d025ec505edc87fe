//! The rows of a client that wait, where they are kept.
ghost use Rattle.std.specs.Prelude.{◌≡◌, ◌++◌, ℕ, List, IfOk, OnOk, option_map, string_bytes};
ghost use Rattle.txn_client_seat.specs.Kept.{HasRoom, seen, waiting_of};
ghost use Rattle.txn_client_seat.specs.Lines.{answer_line};
ghost use Rattle.txn_client_seat.specs.Waiting.{IsLine, adds, emptied, first_waiting, from_time};

use crate::rows_made::named;
use std::alloc::{AllocError, Global};
use txn_history::event::Answer;
use txn_script_lines::values::entry::Entry;
use txn_store::types::room::push_within;

/// A row that waits: what was done, and the answer, where an operation ended with it.
pub struct KeptRow {
    /// The line of what was done, with its line feed. A look has none.
    pub line: Option<String>,
    /// The number of the operation.
    pub op: u64,
    pub answer: Option<Answer<Entry>>,
}

impl Drop for KeptRow {
    /// Drops what the row has: here, so that no crate above has to prove how each part is dropped.
    fn drop(self) {
        let KeptRow {
            line: _,
            op: _,
            answer: _,
        } = self;
    }
}

/// The rows of a client that wait, and the time of those that come next.
pub struct KeptRows {
    pub alloc: Global,
    /// The time, in nanoseconds of the host's clock.
    pub at: u64,
    /// The rows, the oldest first.
    pub rows: Vec<KeptRow>,
}

impl Drop for KeptRows {
    /// Drops the rows: here, so that no crate above has to prove how each is dropped.
    fn drop(self) {
        let KeptRows {
            alloc: _,
            at: _,
            rows: _,
        } = self;
    }
}

/// The rows of a client that has done nothing: the one that names it.
///
/// # Errors
///
/// Want of memory alone.
pub fn first_rows(alloc: Global, client: u64, page: u64) -> Result<KeptRows, AllocError>
    ensures { IfOk result (λ kept. waiting_of kept ≡ first_waiting client page) }
{
    let line = named(alloc, client, page)?;
    let mut rows = Vec::new(alloc);
    rows.push(KeptRow {
        line: Some(line),
        op: 0,
        answer: None,
    })?;
    Ok(KeptRows { alloc, at: 0, rows })
}

/// Makes room for one row.
///
/// # Errors
///
/// Want of memory alone. What waits is as it was.
pub fn make_room(kept: &mut Option<KeptRows>) -> Result<(), AllocError>
    ensures same { seen kept.new ≡ seen kept.old }
    ensures room { OnOk result (HasRoom kept.new) }
{
    match kept {
        Some(kept) => kept.rows.reserve(1),
        None => Ok(()),
    }
}

/// Keeps a row, where rows are kept: the line that was made of what was done, if one was, and the answer of the operation.
#[tactic(auto, using(crate::proofs::Keeping::lines_more))]
pub fn note(
    kept: &mut Option<KeptRows>,
    line: Option<String>,
    op: u64,
    answer: Option<Answer<Entry>>,
)
    requires room { HasRoom kept.old }
    ensures { (told : ℕ → List ℕ) → IsLine (seen kept.old) told (option_map (λ s. string_bytes s) line) → seen kept.new ≡ adds (seen kept.old) (λ at. told at ++ answer_line op answer) }
{
    match kept {
        Some(kept) => push_within(&mut kept.rows, KeptRow { line, op, answer }),
        None => {}
    }
}

/// Keeps a row that ends no operation with an answer, where rows are kept: the line that was made of what was done.
#[tactic(auto, using(crate::proofs::Keeping::adds_no_more))]
pub fn note_line(kept: &mut Option<KeptRows>, line: Option<String>)
    requires room { HasRoom kept.old }
    ensures { (told : ℕ → List ℕ) → IsLine (seen kept.old) told (option_map (λ s. string_bytes s) line) → seen kept.new ≡ adds (seen kept.old) told }
{
    note(kept, line, 0, None);
}

/// Says the time of the rows that come next.
pub fn say_time(kept: &mut Option<KeptRows>, at: u64)
    ensures { seen kept.new ≡ from_time at (seen kept.old) }
{
    match kept {
        Some(kept) => kept.at = at,
        None => {}
    }
}

/// Lets the rows go that wait.
pub fn let_go(kept: &mut Option<KeptRows>)
    ensures { seen kept.new ≡ emptied (seen kept.old) }
{
    match kept {
        Some(kept) => kept.rows.clear(),
        None => {}
    }
}
