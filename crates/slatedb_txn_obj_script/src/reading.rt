//! How the words of a line are read.
use percent_encoding::percent_decode;
use std::alloc::{AllocError, Global};
use txn_script_lines::numerals::read_decimal;
use txn_script_lines::record::{Record, read_record};
use txn_store::failing::When;

/// The first word, and the words after it.
pub(crate) fn first_word(words: &str) -> (&str, &str) {
    match words.split_once(' ') {
        Some(parts) => parts,
        None => (words, ""),
    }
}

/// Adds the numbers that words are, divided by one space. False where a word is none.
fn push_numbers(numbers: &mut Vec<u64>, words: &str) -> Result<bool, AllocError> {
    for word in words.split(' ') {
        let Some(number) = read_decimal(word) else {
            return Ok(false);
        };
        numbers.push(number)?;
    }
    Ok(true)
}

/// The numbers that words are, divided by one space, none where there are no words.
pub(crate) fn read_numbers(alloc: Global, words: &str) -> Result<Option<Vec<u64>>, AllocError> {
    let mut numbers = Vec::new(alloc);
    let are_read = words.is_empty() || push_numbers(&mut numbers, words)?;
    Ok(are_read.then_some(numbers))
}

/// Which call fails, and how.
pub(crate) fn read_failure(words: &str) -> Option<(u64, When)> {
    let (word, rest) = words.split_once(' ')?;
    let nth = read_decimal(word)?;
    match rest {
        "before" => Some((nth, When::Before)),
        "after" => Some((nth, When::After)),
        _ => None,
    }
}

/// A view, an id and a record.
pub(crate) fn read_update_at(words: &str) -> Option<(u64, u64, Record)> {
    let (view, rest) = words.split_once(' ')?;
    let (id, record) = rest.split_once(' ')?;
    let view = read_decimal(view)?;
    let id = read_decimal(id)?;
    Some((view, id, read_record(record.as_bytes())?))
}

/// The bytes that a word is, `%XX` for one that it does not show.
pub(crate) fn read_bytes(alloc: Global, word: &str) -> Result<Vec<u8>, AllocError> {
    let mut bytes = Vec::new(alloc);
    percent_decode(word.as_bytes()).append_to(&mut bytes)?;
    Ok(bytes)
}
