//! A long list of places, each with its head, in pieces, so that one more moves few of them.
ghost use Rattle.std.specs.Prelude.{◌≡◌, ◌+◌, ◌-◌, ◌^◌, ◌<◌, ◌≤◌, ◌++◌, ◌∷◌, [], length, map, take, drop, vec_len};
ghost use Rattle.std.specs.Prelude.{vec_capacity, IsOk, IfOk, IfErr, OnOk, OnErr, slice_index_or, slice_set};
ghost use Rattle.std.specs.List.{insert};
ghost use Rattle.versions.specs.Pieces.{heads_of, last_head, joined, ends_from, start_by, divided, IsLaid, IsWithin};

use crate::chunk::{HALF, PIECE, Piece, Spot};
use std::alloc::Global;
use std::marker::Model;
use units::Fault;

/// Places in order, with room for more. To put one in moves those of its piece that come after it. A full piece is split for it.
#[derive(Drop)]
pub struct Sequence {
    // All but the last are half full at least.
    pieces: Vec<Piece>,
    // How many places there are up to the end of each.
    ends: Vec<usize>,
    // Pieces that may be taken. What they held counts no more.
    spare: Vec<Piece>,
    len: usize,
    // For how many more the pieces suffice, wherever those go.
    room: usize,
}

impl Model for Sequence {
    ghost use Rattle.std.specs.Prelude.{◌≡◌, ◌<◌, ◌≤◌, ◌+◌, ◌*◌, ◌^◌, length, vec_len, vec_capacity};
    ghost use Rattle.versions.specs.Pieces.{Laid, joined, ends_from, IsLaid};

    ghost Value = { Laid };

    ghost view = { λ p. record { spots = joined p.pieces.items; room = p.room } };

    ghost invariant = { λ p. IsLaid p.pieces.items × (p.ends.items ≡ ends_from 0 p.pieces.items)
        × (p.len ≡ length (joined p.pieces.items))
        × (p.len + p.room ≤ 512 * (vec_len p.pieces + vec_len p.spare)) × (p.len + p.room < 2 ^ 64)
        × (vec_len p.pieces + vec_len p.spare ≤ vec_capacity p.pieces)
        × (vec_len p.pieces + vec_len p.spare ≤ vec_capacity p.ends)
        × (vec_len p.pieces + vec_len p.spare ≤ vec_capacity p.spare) };
}

impl Sequence {
    /// Begins without a place, and without room.
    pub fn none(alloc: Global) -> Sequence
        ensures { result.spots ≡ [] }
    {
        Sequence {
            pieces: Vec::new(alloc),
            ends: Vec::new(alloc),
            spare: Vec::new(alloc),
            len: 0,
            room: 0,
        }
    }

    /// Counts the places.
    pub fn len(&self) -> usize
        ensures { result ≡ length self.now.spots }
    {
        self.len
    }

    /// Gives one of the places.
    pub fn get(&self, at: usize) -> Spot
        requires { at < length self.now.spots }
        ensures { result ≡ slice_index_or self.now.spots at result }
    {
        let number = piece_of(&self.ends, at + 1);
        self.pieces[number].get(at - start_of(&self.ends, number))
    }

    /// Lists the places of the versions, in order. Who goes over all of them reads the list, and searches for no piece.
    pub fn list(&self, alloc: Global) -> Result<Vec<usize>, Fault>
        ensures places { IfOk result (λ list. list.items ≡ map (λ s. s.place) self.now.spots) }
        ensures memory { IfErr result (λ fault. fault ≡ Fault.Memory) }
    {
        let mut list = Vec::with_capacity(alloc, self.len)?;
        for piece in &self.pieces {
            piece.add_to(&mut list)?;
        }
        Ok(list)
    }

    /// Finds the first place whose head is not below a number, if heads ascend. It halves the pieces, and then the places in one. The
    /// contract speaks only of the heads there and right before.
    pub fn first_at(&self, head: u64) -> usize
        ensures within { result ≤ length self.now.spots }
        ensures below { 0 < result → slice_index_or (heads_of self.now.spots) (result - 1) 0 < head }
        ensures first { result < length self.now.spots →
            head ≤ slice_index_or (heads_of self.now.spots) result 0 }
    {
        let number = piece_at(&self.pieces, head);
        match self.pieces.get(number) {
            Some(piece) => start_of(&self.ends, number) + piece.first_at(head),
            None => self.len,
        }
    }

    /// Makes room for so many more.
    pub fn reserve(&mut self, more: usize) -> Result<(), Fault>
        ensures room { OnOk result (more ≤ self.new.room) }
        ensures spots { self.new.spots ≡ self.old.spots }
        ensures keeps { self.old.room ≤ self.new.room }
        ensures memory { IfErr result (λ fault. fault ≡ Fault.Memory) }
        ensures succeeds { more ≤ self.old.room → IsOk result }
    {
        for _ in 0..more / HALF + 1 {
            if more <= self.room {
                return Ok(());
            }
            self.grow()?;
        }
        Ok(())
    }

    // Adds a piece that may be taken. So many places, each half of a piece, are what it is certain to hold.
    fn grow(&mut self) -> Result<(), Fault>
        ensures room { OnOk result (self.new.room ≡ self.old.room + 512) }
        ensures spots { self.new.spots ≡ self.old.spots }
        ensures err { OnErr result (self.new ≡ self.old) }
        ensures memory { IfErr result (λ fault. fault ≡ Fault.Memory) }
    {
        let Some(space) = (self.len + self.room).checked_add(HALF) else {
            return Err(Fault::Memory);
        };
        let piece = Piece::new(*self.pieces.allocator())?;
        self.pieces.reserve(self.spare.len() + 1)?;
        self.ends.reserve(self.spare.len() + 1)?;
        self.spare.reserve(self.pieces.len() + 1)?;
        self.spare.push_reserved(piece);
        self.room = space - self.len;
        Ok(())
    }

    /// Writes over one of the places.
    pub fn set(&mut self, at: usize, spot: Spot)
        requires { at < length self.old.spots }
        ensures spots { self.new.spots ≡ slice_set self.old.spots at spot }
        ensures room { self.new.room ≡ self.old.room }
    {
        let number = piece_of(&self.ends, at + 1);
        let start = start_of(&self.ends, number);
        self.pieces[number].set(at - start, spot);
    }

    /// Takes one of the places out, and puts another in at a later place: those in between move forward by one.
    pub fn shift(&mut self, from: usize, to: usize, spot: Spot)
        requires from { from ≤ to }
        requires to { to < length self.old.spots }
        ensures spots { self.new.spots ≡
            insert (take from self.old.spots ++ drop (from + 1) self.old.spots) to spot }
        ensures room { self.new.room ≡ self.old.room }
    {
        for at in from..to {
            let next = self.get(at + 1);
            self.set(at, next);
        }
        self.set(to, spot);
    }

    /// Keeps so many places from the front. The space of the others is room from then on.
    pub fn shorten(&mut self, len: usize)
        requires { len ≤ length self.old.spots }
        ensures spots { self.new.spots ≡ take len self.old.spots }
        ensures room { len + self.new.room ≡ length self.old.spots + self.old.room }
    {
        shorten(&mut self.pieces, &mut self.ends, &mut self.spare, len);
        self.room += self.len - len;
        self.len = len;
    }

    /// Puts in a place. It takes no memory.
    pub fn insert(&mut self, at: usize, spot: Spot)
        requires at { at ≤ length self.old.spots }
        requires room { 0 < self.old.room }
        ensures spots { self.new.spots ≡ insert self.old.spots at spot }
        ensures room { self.new.room + 1 ≡ self.old.room }
    {
        let number = piece_of(&self.ends, at);
        if number < self.pieces.len() && self.pieces[number].len() < PIECE {
            insert_in(&mut self.pieces, &mut self.ends, number, at, spot);
        } else {
            let Some(piece) = self.spare.pop() else {
                unreachable!()
            };
            if at < self.len {
                insert_by_halves(&mut self.pieces, &mut self.ends, number, at, spot, piece);
            } else {
                append(&mut self.pieces, &mut self.ends, spot, piece);
            }
        }
        self.len += 1;
        self.room -= 1;
    }
}

// The first piece that ends at a place or after it. Most that are asked for are in the last one.
fn piece_of(ends: &[usize], at: usize) -> usize
    ensures within { result ≤ length ends.now }
    ensures below { 0 < result → slice_index_or ends.now (result - 1) 0 < at }
    ensures first { result < length ends.now → at ≤ slice_index_or ends.now result 0 }
{
    let mut high = ends.len();
    let mut low = match high.checked_sub(2) {
        Some(former) if ends[former] < at => former + 1,
        _ => 0,
    };
    while low < high {
        let middle = low + (high - low) / 2;
        if ends[middle] < at {
            low = middle + 1;
        } else {
            high = middle;
        }
    }
    low
}

// Where a piece starts.
fn start_of(ends: &[usize], number: usize) -> usize
    requires { number ≤ length ends.now }
    ensures { result ≡ start_by ends.now number }
{
    if number == 0 { 0 } else { ends[number - 1] }
}

// The first piece whose last head is not below a number, if heads ascend.
fn piece_at(pieces: &[Piece], head: u64) -> usize
    ensures within { result ≤ length pieces.now }
    ensures below { 0 < result → last_head (slice_index_or pieces.now (result - 1) []) < head }
    ensures first { result < length pieces.now →
        head ≤ last_head (slice_index_or pieces.now result []) }
{
    let mut low = 0;
    let mut high = pieces.len();
    while low < high {
        let middle = low + (high - low) / 2;
        if pieces[middle].last() < head {
            low = middle + 1;
        } else {
            high = middle;
        }
    }
    low
}

// Keeps so many places from the front. The pieces that held the others may be taken.
fn shorten(pieces: &mut Vec<Piece>, ends: &mut Vec<usize>, spare: &mut Vec<Piece>, len: usize)
    requires laid { IsLaid pieces.old.items }
    requires ends { ends.old.items ≡ ends_from 0 pieces.old.items }
    requires room { vec_len pieces.old + vec_len spare.old ≤ vec_capacity spare.old }
    ensures spots { joined pieces.new.items ≡ take len (joined pieces.old.items) }
    ensures laid { IsLaid pieces.new.items }
    ensures ends { ends.new.items ≡ ends_from 0 pieces.new.items }
    ensures count { vec_len pieces.new + vec_len spare.new ≡ vec_len pieces.old + vec_len spare.old }
    ensures capacity { (vec_capacity pieces.new ≡ vec_capacity pieces.old)
        × (vec_capacity ends.new ≡ vec_capacity ends.old)
        × (vec_capacity spare.new ≡ vec_capacity spare.old) }
{
    let Some(piece) = pieces.pop() else {
        return;
    };
    let mut piece = piece;
    ends.truncate(pieces.len());
    let start = start_of(ends, pieces.len());
    if start >= len {
        spare.push_reserved(piece);
        shorten(pieces, ends, spare, len);
        return;
    }
    piece.shorten(len - start);
    ends.push_reserved(start + piece.len());
    pieces.push_reserved(piece);
}

// Puts a place into a piece that is not full.
fn insert_in(pieces: &mut [Piece], ends: &mut [usize], number: usize, at: usize, spot: Spot)
    requires laid { IsLaid pieces.old }
    requires ends { ends.old ≡ ends_from 0 pieces.old }
    requires number { number < length pieces.old }
    requires at { IsWithin pieces.old number at }
    requires room { length (slice_index_or pieces.old number []) < 1024 }
    requires limit { length (joined pieces.old) + 1 < 2 ^ 64 }
    ensures spots { joined pieces.new ≡ insert (joined pieces.old) at spot }
    ensures laid { IsLaid pieces.new }
    ensures ends { ends.new ≡ ends_from 0 pieces.new }
    ensures len { length pieces.new ≡ length pieces.old }
{
    let start = start_of(ends, number);
    pieces[number].insert(at - start, spot);
    for later in number..ends.len() {
        ends[later] += 1;
    }
}

// Splits a full piece, and puts a place into one of its halves.
fn insert_by_halves(
    pieces: &mut Vec<Piece>,
    ends: &mut Vec<usize>,
    number: usize,
    at: usize,
    spot: Spot,
    upper: Piece,
)
    requires laid { IsLaid pieces.old.items }
    requires ends { ends.old.items ≡ ends_from 0 pieces.old.items }
    requires number { number < vec_len pieces.old }
    requires at { IsWithin pieces.old.items number at }
    requires full { 1024 ≤ length (slice_index_or pieces.old.items number []) }
    requires room { (vec_len pieces.old < vec_capacity pieces.old)
        × (vec_len pieces.old < vec_capacity ends.old) }
    requires limit { length (joined pieces.old.items) + 1 < 2 ^ 64 }
    ensures spots { joined pieces.new.items ≡ insert (joined pieces.old.items) at spot }
    ensures laid { IsLaid pieces.new.items }
    ensures ends { ends.new.items ≡ ends_from 0 pieces.new.items }
    ensures count { vec_len pieces.new ≡ vec_len pieces.old + 1 }
    ensures capacity { (vec_capacity pieces.new ≡ vec_capacity pieces.old)
        × (vec_capacity ends.new ≡ vec_capacity ends.old) }
{
    let middle = start_of(ends, number) + HALF;
    divide(pieces, ends, number, middle, upper);
    let half = if at <= middle { number } else { number + 1 };
    insert_in(pieces, ends, half, at, spot);
}

// Splits a full piece: another takes its upper half, and comes right after it.
fn divide(
    pieces: &mut Vec<Piece>,
    ends: &mut Vec<usize>,
    number: usize,
    middle: usize,
    upper: Piece,
)
    requires laid { IsLaid pieces.old.items }
    requires ends { ends.old.items ≡ ends_from 0 pieces.old.items }
    requires number { number < vec_len pieces.old }
    requires middle { middle ≡ start_by ends.old.items number + 512 }
    requires full { 1024 ≤ length (slice_index_or pieces.old.items number []) }
    requires room { (vec_len pieces.old < vec_capacity pieces.old)
        × (vec_len pieces.old < vec_capacity ends.old) }
    ensures pieces { pieces.new.items ≡ divided number pieces.old.items }
    ensures ends { ends.new.items ≡ insert ends.old.items number middle }
    ensures count { vec_len pieces.new ≡ vec_len pieces.old + 1 }
    ensures capacity { (vec_capacity pieces.new ≡ vec_capacity pieces.old)
        × (vec_capacity ends.new ≡ vec_capacity ends.old) }
{
    let mut upper = upper;
    pieces[number].split(&mut upper);
    match pieces.insert(number + 1, upper) {
        Ok(()) => {}
        Err(_) => unreachable!(),
    }
    match ends.insert(number, middle) {
        Ok(()) => {}
        Err(_) => unreachable!(),
    }
}

// Puts a place after all others, into a piece of its own.
fn append(pieces: &mut Vec<Piece>, ends: &mut Vec<usize>, spot: Spot, piece: Piece)
    requires laid { IsLaid pieces.old.items }
    requires ends { ends.old.items ≡ ends_from 0 pieces.old.items }
    requires half { 0 < length pieces.old.items →
        512 ≤ length (slice_index_or pieces.old.items (length pieces.old.items - 1) []) }
    requires room { (vec_len pieces.old < vec_capacity pieces.old)
        × (vec_len pieces.old < vec_capacity ends.old) }
    requires limit { length (joined pieces.old.items) + 1 < 2 ^ 64 }
    ensures spots { joined pieces.new.items ≡ joined pieces.old.items ++ spot ∷ [] }
    ensures laid { IsLaid pieces.new.items }
    ensures ends { ends.new.items ≡ ends_from 0 pieces.new.items }
    ensures count { vec_len pieces.new ≡ vec_len pieces.old + 1 }
    ensures capacity { (vec_capacity pieces.new ≡ vec_capacity pieces.old)
        × (vec_capacity ends.new ≡ vec_capacity ends.old) }
{
    let end = start_of(ends, pieces.len()) + 1;
    let mut piece = piece;
    piece.shorten(0);
    piece.insert(0, spot);
    pieces.push_reserved(piece);
    ends.push_reserved(end);
}
