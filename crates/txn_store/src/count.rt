//! A count that contracts alone read. It takes no memory, and nothing of it runs.
ghost use Rattle.std.specs.Prelude.{◌≡◌, ℕ, ◌+◌};
ghost use Rattle.std.specs.Borrow.{ftrue};

use std::marker::Model;

/// A number in no field.
#[derive(Drop)]
struct Unread {
    ghost value: { ℕ },
}

impl Model for Unread {
    ghost also_owns = { λ _. ftrue };
}

// It owns nothing, so it may go to another thread.
unsafe impl Send for Unread {}

impl Unread {
    fn new() -> Unread
        ensures { result.value ≡ 0 }
    {
        Unread {}
    }

    /// The number with `by` added.
    fn raised(&self) -> Unread
        ghost by: { ℕ }
        ensures { result.value ≡ self.now.value + by }
    {
        Unread {}
    }
}

/// How often something happened. A clause sees the number.
#[derive(Drop)]
pub(crate) struct Count {
    unread: Unread,
}

impl Model for Count {
    ghost use Rattle.std.specs.Prelude.{ℕ};

    ghost Value = { ℕ };

    ghost view = { λ c. c.unread.value };
}

impl Count {
    pub(crate) fn new() -> Count
        ensures { result ≡ 0 }
    {
        Count {
            unread: Unread::new(),
        }
    }

    pub(crate) fn copy(&self) -> Count
        ensures { result ≡ self.now }
    {
        Count {
            unread: self.unread.raised(),
        }
    }

    pub(crate) fn tick(&mut self)
        ensures { self.new ≡ self.old + 1 }
    {
        self.unread = self.unread.raised();
    }
}
