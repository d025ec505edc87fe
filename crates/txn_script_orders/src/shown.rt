//! What a serve shows to its operation.

use crate::signs::{Sign, push_number, push_value};
use std::alloc::{AllocError, Global};
use txn_drawing_moments::touches::asked::Asked;
use txn_script_lines::record::Record;

/// What a serve shows to its operation, as far as it is known before.
#[derive(Drop)]
pub(crate) struct Shown {
    pub(crate) signs: Vec<Sign>,
    /// Whether it is told too whether the store changed.
    pub(crate) is_change: bool,
}

/// What the store's files show to an operation.
pub(crate) fn shown_of(
    alloc: Global,
    files: &[Option<Record>],
    boundary: u64,
    asked: &Asked,
) -> Result<Shown, AllocError> {
    let mut signs = Vec::new(alloc);
    let mut is_change = false;
    match asked {
        Asked::Nothing => {}
        Asked::Create { .. } | Asked::Raise(_) | Asked::Remove(_) => is_change = true,
        Asked::Get(id) => match files.get(id.saturating_sub(1) as usize) {
            Some(Some(value)) if *id != 0 => push_value(&mut signs, *value)?,
            _ => push_number(&mut signs, u64::MAX)?,
        },
        Asked::ReadBoundary => push_number(&mut signs, boundary)?,
        Asked::List { above, most: _ } => {
            for (index, file) in files.iter().enumerate() {
                if index as u64 >= *above && file.is_some() {
                    push_number(&mut signs, index as u64)?;
                }
            }
            push_number(&mut signs, u64::MAX)?;
        }
    }
    Ok(Shown { signs, is_change })
}
