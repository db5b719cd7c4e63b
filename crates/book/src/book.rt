//! The book.
ghost use Rattle.std.specs.Prelude.{◌≡◌, ◌<◌, ◌≤◌, [], length, nat_le, IfOk, IfErr};
ghost use Rattle.book.specs.Books.{with_page};

use crate::page::Page;
use record::Record;
use std::alloc::Global;
use std::marker::Model;
use units::{Capacity, Fault};

/// What an opening found in its log, and a page for each input that the shard accepted since. The memory for the list of pages is
/// taken when the book is begun.
pub struct Book {
    capacity: Capacity,
    found: Vec<Record>,
    pages: Vec<Page>,
}

impl Drop for Book {
    fn drop(self) {
        let Book {
            capacity: _,
            found: _,
            pages: _,
        } = self;
    }
}

impl Model for Book {
    ghost use Rattle.std.specs.Prelude.{◌≤◌, length, vec_capacity};
    ghost use Rattle.book.specs.Books.{BookView};

    ghost Value = { BookView };

    ghost view = { λ b. record { capacity = b.capacity; found = b.found.items; pages = b.pages.items } };

    ghost invariant = { λ b. (length b.pages.items ≤ b.capacity) × (b.capacity ≤ vec_capacity b.pages) };
}

impl Book {
    /// Makes a book without a page, of an opening that found these records. `Memory` if memory runs out.
    pub fn new(alloc: Global, capacity: Capacity, found: Vec<Record>) -> Result<Book, Fault>
        ensures new { IfOk result
            (λ book. book ≡ record { capacity = capacity; found = found.items; pages = [] }) }
        ensures memory { IfErr result (λ fault. fault ≡ Fault.Memory) }
    {
        let pages = Vec::with_capacity(alloc, capacity.entries())?;
        Ok(Book {
            capacity,
            found,
            pages,
        })
    }

    /// Tells whether there is no room for another page. The shard then refuses inputs as `BookFull`.
    pub fn is_full(&self) -> bool
        ensures { result ≡ nat_le self.now.capacity (length self.now.pages) }
    {
        self.capacity.entries() <= self.pages.len()
    }

    /// Adds a page. It takes no memory.
    pub fn push(&mut self, page: Page)
        requires room { length self.old.pages < self.old.capacity }
        ensures { self.new ≡ with_page self.old page }
    {
        self.pages.push_reserved(page);
    }

    /// Returns the records that the opening found.
    pub fn found(&self) -> &[Record]
        ensures { result.now ≡ self.now.found }
    {
        self.found.as_slice()
    }

    /// Returns a page for each input that was accepted, in order.
    pub fn pages(&self) -> &[Page]
        ensures same { result.now ≡ self.now.pages }
        ensures few { length result.now ≤ self.now.capacity }
    {
        self.pages.as_slice()
    }
}
