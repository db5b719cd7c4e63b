//! A list of all that something has been, for contracts alone.
ghost use Rattle.std.specs.Prelude.{◌≡◌, List, [], ◌∷◌};
ghost use Rattle.std.specs.Borrow.{ftrue};
ghost use base.Stored.{coded_list};

use std::marker::{Model, PhantomData};

/// What something has been, the newest first. Only `add` changes it.
#[derive(Drop)]
pub struct Past<E> {
    marker: PhantomData<E>,
    pub ghost entries: { List E } by { coded_list E.code },
}

impl<E> Model for Past<E> {
    ghost also_owns = { λ _. ftrue };
}

// It owns nothing.
unsafe impl<E> Send for Past<E> {}

unsafe impl<E> Sync for Past<E> {}

impl<E> Past<E> {
    /// Makes an empty list.
    pub fn none() -> Past<E>
        ensures { result.entries ≡ [] }
    {
        Past {
            marker: PhantomData,
        }
    }

    /// Puts an entry in front.
    pub fn add(&mut self, _entry: &E)
        ensures { self.new.entries ≡ _entry.now ∷ self.old.entries }
    {}
}
