//! A source of tickets, and its drawers.
ghost use Rattle.std.specs.Prelude.{◌≡◌, ◌<◌, ◌≤◌, ◌^◌, ◌-◌, ◌⊎◌, [], ◌∷◌, ◌++◌, length, All, IfOk, IfErr, Err, MatchResult};
ghost use Rattle.tickets.specs.Draws.{IsNew, IsRest};
ghost use Rattle.tickets.specs.EachOnce.{IdsStayApart, WordCounts};

use crate::rule::{Counter, Drawn, Hand, OneDrawer};
use atomic_table::{Seat, Table};
use std::alloc::Global;
use std::marker::Model;
use units::{Fault, Reason};

/// A source of tickets, which threads share. A contract sees which one it is.
pub struct Tickets {
    table: Table<u8, Hand, (), Counter, Global>,
}

impl Drop for Tickets {
    fn drop(self) {
        let Tickets { table: _ } = self;
    }
}

impl Model for Tickets {
    ghost use Rattle.std.specs.Prelude.{◌≡◌};
    ghost use Rattle.atomic_table.specs.Seated.{TableId};

    ghost Value = { TableId };

    ghost view = { λ t. t.table.shared.table_id };

    ghost invariant = { λ t. t.table.shared.table_id.words ≡ 1 };
}

/// The right to draw from one source, at most 2^40 times.
pub struct Drawer {
    seat: Seat<u8, Hand>,
    draws: u64,
}

impl Drop for Drawer {
    fn drop(self) {
        let Drawer { seat: _, draws: _ } = self;
    }
}

impl Model for Drawer {
    ghost use Rattle.std.specs.Prelude.{◌≡◌, ◌≤◌, ◌^◌, [], length};
    ghost use Rattle.tickets.specs.Draws.{Drawing};

    ghost Value = { Drawing };

    ghost view = { λ d. record { source = d.seat.table_id; drawn = d.seat.me.0.drawn } };

    ghost invariant = { λ d. (d.draws ≡ length d.seat.me.0.drawn) × (d.draws ≤ 2 ^ 40)
        × (d.seat.me.0.drawers ≡ 1) × (d.seat.me.1 ≡ []) };
}

impl Drawer {
    /// The most draws of a drawer.
    pub const DRAWS: u64 = 1 << 40;
}

impl Tickets {
    /// The most drawers of a source.
    pub const DRAWERS: usize = 256;

    /// Makes a source and this many drawers, from 1 to 256. Any other number is a `BadRequest` of `Many`.
    pub fn new(alloc: Global, n: usize) -> Result<(Tickets, Vec<Drawer>), Fault>
        ensures drawers { IfOk result (λ r. (length r.1.items ≡ n) × All (IsNew r.0) r.1.items) }
        ensures many { (n ≡ 0) ⊎ (256 < n) → result ≡ Err (Fault.BadRequest Reason.Many) }
        ensures refused { (0 < n) × (n ≤ 256) → IfErr result (λ e. e ≡ Fault.Memory) }
    {
        if n == 0 || n > Tickets::DRAWERS {
            return Err(Fault::BadRequest(Reason::Many));
        }
        Tickets::make(alloc, n)
    }

    fn make(alloc: Global, n: usize) -> Result<(Tickets, Vec<Drawer>), Fault>
        requires { n ≤ 256 }
        ensures drawers { IfOk result (λ r. (length r.1.items ≡ n) × All (IsNew r.0) r.1.items) }
        ensures refused { IfErr result (λ e. e ≡ Fault.Memory) }
    {
        let (table, mut rest) = Table::of_words(alloc, &[0], &())?;
        let tickets = Tickets::over(table);
        let mut drawers = Vec::new(alloc);
        for made in 0..n {
            drawers.push(tickets.cut(&mut rest, Tickets::DRAWERS - made))?;
        }
        Ok((tickets, drawers))
    }

    fn over(table: Table<u8, Hand, (), Counter, Global>) -> Tickets
        requires { table.shared.table_id.words ≡ 1 }
        ensures { result ≡ table.shared.table_id }
    {
        Tickets { table }
    }

    // Splits a drawer off those that the seat still stands for.
    fn cut(&self, rest: &mut Seat<u8, Hand>, left: usize) -> Drawer
        requires { (rest.old.table_id ≡ self.now) × (0 < left) × IsRest rest.old left }
        ensures rest { (rest.new.table_id ≡ self.now) × IsRest rest.new (left - 1) }
        ensures drawer { IsNew self.now result }
    {
        let _left = left;
        Drawer {
            seat: self.table.shared.split_seat::<OneDrawer>(rest),
            draws: 0,
        }
    }

    /// Draws the next number, from 0. It never waits. A drawer that has drawn 2^40 times gets `TimeSpent`; take another drawer.
    pub fn draw(&self, me: &mut Drawer) -> Result<u64, Fault>
        requires { me.old.source ≡ self.now }
        ensures source { me.new.source ≡ me.old.source }
        ensures limit { IfOk result (λ n. n ≤ 2 ^ 48) }
        ensures drawn { MatchResult result
            (λ n. (length me.old.drawn < 2 ^ 40) × (me.new.drawn ≡ me.old.drawn ++ n ∷ []))
            (λ e. (e ≡ Fault.TimeSpent) × (length me.old.drawn ≡ 2 ^ 40)
            × (me.new.drawn ≡ me.old.drawn)) }
    {
        if me.draws >= Drawer::DRAWS {
            return Err(Fault::TimeSpent);
        }
        let n = self.table.shared.fetch_add::<Drawn>(&mut me.seat, 0, 1);
        me.draws += 1;
        Ok(n)
    }
}

/// Says what the rule of a source means. At every step the lists of all drawers share no number, and together they are the numbers
/// below the word.
pub fn each_once()
    ensures { WordCounts }
{}

/// Says what that means for sessions of one run that draw their numbers from one source: no two of them share an id.
pub fn ids_stay_apart()
    ensures { IdsStayApart }
{}
