//! A piece of a long list of places, each with the head of its key.
ghost use Rattle.std.specs.Prelude.{◌≡◌, ◌-◌, ◌<◌, ◌≤◌, ◌++◌, [], length, map, take, drop, IfOk, OnOk, IfErr, vec_len, vec_capacity, slice_index_or, slice_set};
ghost use Rattle.std.specs.List.{insert};
ghost use Rattle.versions.specs.Pieces.{heads_of, last_head};

use std::alloc::Global;
use std::marker::Model;
use units::Fault;

/// How many places a piece holds at most.
pub const PIECE: usize = 1024;

/// Half of them.
pub const HALF: usize = 512;

/// A place in a list of versions, with the head of the key there. A search reads little else.
#[derive(Clone, Copy)]
pub struct Spot {
    /// The place of the version.
    pub place: usize,
    /// The head of its key.
    pub head: u64,
}

/// At most 1,024 places in order, with the space for all of them.
pub struct Piece {
    spots: Vec<Spot>,
    // The head of the last one, or 0. It stands beside those of the other pieces, so that a search for a piece reads no place.
    last: u64,
}

impl Drop for Piece {
    fn drop(self) {
        let Piece { spots: _, last: _ } = self;
    }
}

impl Model for Piece {
    ghost use Rattle.std.specs.Prelude.{◌≡◌, List, ◌≤◌, vec_len, vec_capacity};
    ghost use Rattle.versions.specs.Pieces.{last_head};
    ghost use Rattle.versions.specs.declared.chunk.Spot.{Spot};

    ghost Value = { List Spot };

    ghost view = { λ p. p.spots.items };

    ghost invariant = { λ p. (1024 ≤ vec_capacity p.spots) × (vec_len p.spots ≤ 1024)
        × (p.last ≡ last_head p.spots.items) };
}

impl Piece {
    /// Makes a piece without places. It takes the memory for all that it may hold.
    pub fn new(alloc: Global) -> Result<Piece, Fault>
        ensures none { IfOk result (λ piece. piece ≡ []) }
        ensures memory { IfErr result (λ fault. fault ≡ Fault.Memory) }
    {
        let spots = Vec::with_capacity(alloc, PIECE)?;
        Ok(Piece { spots, last: 0 })
    }

    /// Counts its places.
    pub fn len(&self) -> usize
        ensures same { result ≡ length self.now }
        ensures most { result ≤ 1024 }
    {
        self.spots.len()
    }

    /// Gives one of its places.
    pub fn get(&self, at: usize) -> Spot
        requires { at < length self.now }
        ensures { result ≡ slice_index_or self.now at result }
    {
        self.spots[at]
    }

    /// Gives the head of its last place, or 0 if it holds none.
    pub fn last(&self) -> u64
        ensures { result ≡ last_head self.now }
    {
        self.last
    }

    /// Adds the places to a list, in order.
    pub fn add_to(&self, list: &mut Vec<usize>) -> Result<(), Fault>
        ensures places { OnOk result
            (list.new.items ≡ list.old.items ++ map (λ s. s.place) self.now) }
        ensures memory { IfErr result (λ fault. fault ≡ Fault.Memory) }
    {
        for spot in &self.spots {
            list.push(spot.place)?;
        }
        Ok(())
    }

    /// Finds the first place whose head is not below a number, if heads ascend. It is a loop of its own, because the library's search waits for
    /// each spot before it asks for the next. Here the processor goes on with a guess, which is faster if spots miss the cache.
    pub fn first_at(&self, head: u64) -> usize
        ensures within { result ≤ length self.now }
        ensures below { 0 < result → slice_index_or (heads_of self.now) (result - 1) 0 < head }
        ensures first { result < length self.now → head ≤ slice_index_or (heads_of self.now) result 0 }
    {
        let mut low = 0;
        let mut high = self.spots.len();
        while low < high {
            let middle = low + (high - low) / 2;
            if self.spots[middle].head < head {
                low = middle + 1;
            } else {
                high = middle;
            }
        }
        low
    }

    /// Writes over one of its places.
    pub fn set(&mut self, at: usize, spot: Spot)
        requires { at < length self.old }
        ensures { self.new ≡ slice_set self.old at spot }
    {
        self.spots[at] = spot;
        self.last = last_head(&self.spots);
    }

    /// Keeps so many places from the front, and the space of all.
    pub fn shorten(&mut self, len: usize)
        ensures { self.new ≡ take len self.old }
    {
        self.spots.truncate(len);
        self.last = last_head(&self.spots);
    }

    /// Puts a place into a piece that is not full. It takes no memory.
    pub fn insert(&mut self, at: usize, spot: Spot)
        requires at { at ≤ length self.old }
        requires room { length self.old < 1024 }
        ensures { self.new ≡ insert self.old at spot }
    {
        match self.spots.insert(at, spot) {
            Ok(()) => {}
            Err(_) => unreachable!(),
        }
        self.last = last_head(&self.spots);
    }

    /// Hands its places from the 512th on to another piece, instead of those there. It takes no memory.
    pub fn split(&mut self, upper: &mut Piece)
        requires { 512 ≤ length self.old }
        ensures lower { self.new ≡ take 512 self.old }
        ensures upper { upper.new ≡ drop 512 self.old }
    {
        upper.spots.truncate(0);
        match upper.spots.extend_from_slice(&self.spots[HALF..]) {
            Ok(()) => {}
            Err(_) => unreachable!(),
        }
        upper.last = last_head(&upper.spots);
        self.shorten(HALF);
    }
}

// The head of the last place.
fn last_head(spots: &Vec<Spot>) -> u64
    ensures { result ≡ last_head spots.now.items }
{
    match spots.last() {
        Some(spot) => spot.head,
        None => 0,
    }
}
