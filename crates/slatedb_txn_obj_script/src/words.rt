//! A line as it stands.

ghost use Rattle.std.specs.Prelude.{◌≡◌, IfOk};

use std::alloc::{AllocError, Global};
use std::marker::Model;
use txn_script_lines::text_form::TextForm;

/// The text of a line. A clause sees its bytes.
#[derive(Drop)]
pub(crate) struct Words {
    text: String,
}

impl Model for Words {
    ghost use Rattle.std.specs.Prelude.{ℕ, List, string_bytes};

    ghost Value = { List ℕ };

    ghost view = { λ w. string_bytes w.text };
}

impl Words {
    fn of(alloc: Global, text: &str) -> Result<Words, AllocError>
        ensures { IfOk result (λ words. words ≡ text.now) }
    {
        Ok(Words {
            text: String::from_str(alloc, text)?,
        })
    }

    /// The text, lent.
    pub(crate) fn as_str(&self) -> &str {
        self.text.as_str()
    }
}

/// Each text is that of a line.
impl TextForm for Words {
    ghost use Rattle.std.specs.Str.{IsUtf8};

    ghost text = { λ words. words };

    ghost fits = { IsUtf8 };

    ghost is_utf8 = { λ _ fits. fits };

    fn read_text(alloc: Global, words: &str) -> Result<Option<Words>, AllocError> {
        Ok(Some(Words::of(alloc, words)?))
    }

    fn most_bytes() -> Option<usize> {
        None
    }
}
