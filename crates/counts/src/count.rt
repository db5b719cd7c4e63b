//! A count without limit, for contracts alone.
ghost use Rattle.std.specs.Prelude.{◌≡◌, ◌+◌, ℕ};
ghost use Rattle.std.specs.Borrow.{ftrue};

use std::marker::Model;

/// How often something has happened. Only `rise` changes it.
#[derive(Drop)]
pub struct Count {
    pub ghost number: { ℕ },
}

impl Model for Count {
    ghost also_owns = { λ _. ftrue };
}

// It owns nothing.
unsafe impl Send for Count {}

unsafe impl Sync for Count {}

impl Count {
    /// Makes a count of 0.
    pub fn none() -> Count
        ensures { result.number ≡ 0 }
    {
        Count {}
    }

    /// Counts one more.
    pub fn rise(&mut self)
        ensures { self.new.number ≡ self.old.number + 1 }
    {}
}
