//! What a crash or a failing call leaves of a turnover, and which slot is then the next. Each law is the contract of a function
//! that does nothing.
ghost use Rattle.slots.specs.Laws.{FailingCalls, FreshHasNext, NextGoesOn, NextStays, TurnoverKeeps};

/// Says what a crash leaves in each of the five calls of a turnover: the old log, or from the fourth call on the old or the new one.
/// After the last call it leaves the new one.
pub fn turnover_keeps()
    ensures { TurnoverKeeps }
{}

/// Says what a call that fails leaves: which of the two logs a read gives, and which a crash leaves. The crash depends on the fate
/// of the oldest change that is not synced.
pub fn failing_calls()
    ensures { FailingCalls }
{}

/// Says that a fresh file has no record, and that its first slot is the next one.
pub fn fresh_has_next()
    ensures { FreshHasNext }
{}

/// Says that the next slot stays the same after a write to the log's area.
pub fn next_stays()
    ensures { NextStays }
{}

/// Says that after a turnover the next slot is the one after its slot.
pub fn next_goes_on()
    ensures { NextGoesOn }
{}
