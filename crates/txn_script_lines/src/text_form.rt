//! What is written as one text, and read of that text alone.

ghost use Rattle.std.specs.Prelude.{◌≡◌, ◌≤◌, ℕ, List, Some, IfOk, IfSome, length};
ghost use Rattle.std.specs.Str.{IsUtf8};
ghost use Rattle.txn_script_lines.specs.Grammar.{Says};

use std::alloc::{AllocError, Global};
use std::fmt;

/// A type whose values each have one text, and are read of that text and of no other.
pub trait TextForm: Drop {
    /// The text of a value.
    ghost text: { Self → List ℕ };

    /// The values that a text can say, as those whose numbers are below 2^64.
    ghost fits: { Self → Type 0 };

    /// The value that words say, where they say one. The only error is want of memory.
    fn read_text(alloc: Global, words: &str) -> Result<Option<Self>, AllocError>
        ensures says { IfOk result (λ read. IfSome read (Says text fits words.now)) }
        // Each text that says a value is read as that value.
        ensures all { IfOk result (λ read. (v : Self) → Says text fits words.now v → read ≡ Some v) };

    /// The most bytes of a text, where there is a bound. It takes no memory.
    fn most_bytes() -> Option<usize>
        ensures short { IfSome result (λ most. (v : Self) → fits v → length (text v) ≤ most) };

    // What says a value is text.
    ghost is_utf8: { (v : Self) → fits v → IsUtf8 (text v) };
}

/// A value that a script speaks of: what is printed of it is its text.
pub trait LineValue: TextForm + fmt::Display {
    ghost shows: { (v : Self) → Self.output v ≡ Some (Self.text v) };
}
