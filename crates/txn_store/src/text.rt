//! The text of a path.
ghost use Rattle.std.specs.Prelude.{◌≡◌, [], string_bytes, IfOk};

use arrayvec::ArrayString;
use std::alloc::{AllocError, Global};
use std::marker::Model;

/// A text of at most 56 bytes, which lies in the value itself.
pub(crate) type ShortText = ArrayString<56>;

/// A text that stays as it is: a short one lies in the value itself, and takes no memory. A clause sees the bytes.
#[derive(Drop)]
pub(crate) struct Text {
    /// The text, where it is short.
    short: ShortText,
    /// The text, where it is long.
    long: String,
}

impl Model for Text {
    ghost use Rattle.std.specs.Prelude.{◌≡◌, ◌≢◌, ◌++◌, [], ℕ, List, string_bytes};

    ghost Value = { List ℕ };

    ghost view = { λ t. t.short.bytes ++ string_bytes t.long };

    ghost invariant = { λ t. string_bytes t.long ≢ [] → t.short.bytes ≡ [] };
}

impl Text {
    /// This short text. It takes no memory.
    pub(crate) fn of_short(alloc: Global, short: ShortText) -> Text
        ensures { result ≡ short.bytes }
    {
        Text {
            short,
            long: String::new(alloc),
        }
    }

    /// This text. It takes no memory.
    pub(crate) fn of(text: String) -> Text
        ensures { result ≡ string_bytes text }
    {
        if let Ok(short) = ShortText::from(text.as_str()) {
            return Text::of_short(*text.allocator(), short);
        }
        Text {
            short: ShortText::new(),
            long: text,
        }
    }

    pub(crate) fn as_str(&self) -> &str
        ensures value { result.now ≡ self.now }
    {
        if self.long.is_empty() {
            self.short.as_str()
        } else {
            self.long.as_str()
        }
    }

    pub(crate) fn as_bytes(&self) -> &[u8]
        ensures value { result.now ≡ self.now }
    {
        self.as_str().as_bytes()
    }

    /// A copy of it. Want of memory alone fails, and only where it is long.
    pub(crate) fn try_clone(&self) -> Result<Text, AllocError>
        ensures { IfOk result (λ text. text ≡ self.now) }
    {
        if self.long.is_empty() {
            return Ok(Text::of_short(self.allocator(), self.short));
        }
        Ok(Text {
            short: self.short,
            long: self.long.clone()?,
        })
    }

    pub(crate) fn allocator(&self) -> Global {
        *self.long.allocator()
    }
}
