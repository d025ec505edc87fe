//! A line of a question, whatever it says.

ghost use Rattle.std.specs.Prelude.{◌≤◌, length};
ghost use Rattle.std.specs.Str.{IsUtf8};

use bytes::Bytes;
use std::alloc::{AllocError, Global};
use txn_script_lines::text_form::TextForm;

/// The most bytes of a line.
const MOST_BYTES: usize = 1024;

/// The words of a line.
#[derive(Drop)]
pub struct Words(pub Bytes);

impl TextForm for Words {
    ghost use Rattle.std.specs.Prelude.{◌≤◌, length};
    ghost use Rattle.std.specs.Str.{IsUtf8};

    ghost text = { λ words. words.0 };

    ghost fits = { λ words. IsUtf8 words.0 × (length words.0 ≤ 1024) };

    ghost is_utf8 = { λ v fits. fits.0 };

    fn read_text(alloc: Global, words: &str) -> Result<Option<Words>, AllocError> {
        if words.len() > MOST_BYTES {
            return Ok(None);
        }
        Ok(Some(Words(Bytes::copy_from_slice(alloc, words.as_bytes())?)))
    }

    fn most_bytes() -> Option<usize> {
        Some(MOST_BYTES)
    }
}
