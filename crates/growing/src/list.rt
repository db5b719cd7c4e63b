//! Growing lists, made two at a time under one pair of names.
ghost use Rattle.std.specs.Prelude.{◌≡◌, Bool, true, false, List, [], ◌∷◌, ◌++◌};
ghost use mathlib.Core.List.{IsPrefix};
ghost use base.Stored.{coded_list};
ghost use Rattle.growing.specs.Owns.{Twins, name_of, longer_of, growing_owns, growing_shares, beginning_owns};
ghost use denote.Sharing.{said};

use std::marker::{Model, PhantomData};

/// The right to make a list longer. It is made with a twin, and both share their pair of names.
#[derive(Drop)]
pub struct Growing<E> {
    marker: PhantomData<E>,
    pub ghost names: { Twins },
    pub ghost second: { Bool },
    pub ghost entries: { List E } by { coded_list E.code },
}

impl<E> Model for Growing<E> {
    ghost also_owns = { λ h. growing_owns E.row.coded.code (name_of h.names h.second) h.entries };

    ghost also_shares = { λ h _ κ. growing_shares E.row.coded.code (name_of h.names h.second) h.entries κ };
}

/// A beginning that a growing list has had. The list keeps it for good.
#[derive(Drop)]
pub struct Beginning<E> {
    marker: PhantomData<E>,
    pub ghost names: { Twins },
    pub ghost second: { Bool },
    pub ghost entries: { List E } by { coded_list E.code },
}

impl<E> Model for Beginning<E> {
    ghost also_owns = { λ b. beginning_owns E.row.coded.code (name_of b.names b.second) b.entries };

    ghost also_shares = { λ b _ κ. said (beginning_owns E.row.coded.code (name_of b.names b.second) b.entries) κ };
}

impl<E> Growing<E> {
    /// Makes two empty lists that share their names.
    pub fn twins() -> (Growing<E>, Growing<E>)
        ensures { (result.0.entries ≡ []) × (result.1.entries ≡ [])
            × (result.1.names ≡ result.0.names)
            × (result.0.second ≡ false) × (result.1.second ≡ true) }
    {
        (
            Growing {
                marker: PhantomData,
            },
            Growing {
                marker: PhantomData,
            },
        )
    }

    /// Adds an entry at the end.
    pub fn add(&mut self, _entry: &E)
        ensures { (self.new.entries ≡ self.old.entries ++ _entry.now ∷ [])
            × (self.new.names ≡ self.old.names)
            × (self.new.second ≡ self.old.second) }
    {}

    /// Makes the list equal to a longer one that it begins.
    pub fn follow(&mut self, _longer: &Growing<E>)
        requires { IsPrefix self.old.entries _longer.now.entries }
        ensures { (self.new.entries ≡ _longer.now.entries) × (self.new.names ≡ self.old.names)
            × (self.new.second ≡ self.old.second) }
    {}

    /// Gives a token of the list as it is now.
    pub fn so_far(&self) -> Beginning<E>
        ensures { (result.entries ≡ self.now.entries) × (result.names ≡ self.now.names)
            × (result.second ≡ self.now.second) }
    {
        Beginning {
            marker: PhantomData,
        }
    }

    /// Shows to a proof that the list begins with what was seen of it. It does nothing.
    pub fn begins_with(&self, _seen: &Beginning<E>)
        requires { (_seen.now.names ≡ self.now.names) × (_seen.now.second ≡ self.now.second) }
        ensures { IsPrefix _seen.now.entries self.now.entries }
    {}
}

impl<E> Beginning<E> {
    /// Gives the longer of two beginnings of one list: the shorter begins it.
    pub fn longer(&self, _other: &Beginning<E>) -> Beginning<E>
        requires { (_other.now.names ≡ self.now.names) × (_other.now.second ≡ self.now.second) }
        ensures { (result ≡
            record self.now { entries = longer_of self.now.entries _other.now.entries })
            × IsPrefix self.now.entries result.entries
            × IsPrefix _other.now.entries result.entries }
    {
        Beginning {
            marker: PhantomData,
        }
    }

    /// Copies the token.
    pub fn again(&self) -> Beginning<E>
        ensures { result ≡ self.now }
    {
        Beginning {
            marker: PhantomData,
        }
    }
}

unsafe impl<E> Send for Growing<E> {}

unsafe impl<E> Sync for Growing<E> {}

unsafe impl<E> Send for Beginning<E> {}

unsafe impl<E> Sync for Beginning<E> {}
