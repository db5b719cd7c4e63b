//! Laws for services. Each is the contract of a function that does nothing.
ghost use Rattle.accounts.specs.Keeping.{KeptBetween, KeptFromTheStart};
ghost use Rattle.accounts.specs.Bank.{AuditsAgree, NeverBelow, TotalStays};
ghost use Rattle.accounts.specs.Sessions.{ServicesKeep, SessionsConserve, SessionsKeep, SessionsLeaveEnough};
ghost use Rattle.accounts.specs.Transfers.{TransfersConserve, TransfersKeep};

/// Says that a test which the empty store passes holds at every timestamp of the recovered logs, whatever crash struck. Each transaction
/// has to keep the test, on any map that agrees with what it read.
pub fn kept_from_the_start()
    ensures { KeptFromTheStart }
{}

/// Says that such a test which holds at a timestamp holds later, if each transaction between the two keeps it.
pub fn kept_between()
    ensures { KeptBetween }
{}

/// Says that the accounts hold the same total at every timestamp, whatever crash struck, if each transaction is a transfer.
pub fn total_stays()
    ensures { TotalStays }
{}

/// Says that two audits find the same total while transfers go on. Each audit is of answered looks at all accounts at one timestamp.
pub fn audits_agree()
    ensures { AuditsAgree }
{}

/// Says that no account ever falls below the least amount, if none begins below it. Each transaction has to leave the least amount in
/// each account that it writes, or no less than it read there.
pub fn never_below()
    ensures { NeverBelow }
{}

/// Says that a test which the empty store passes holds at every timestamp of the recovered logs, whatever crash struck. Each session
/// that closes has to keep the test, on any map that agrees with the answers that it got.
pub fn sessions_keep()
    ensures { SessionsKeep }
{}

/// Says that the accounts hold the same total at every timestamp as at the start, and each audit finds it. Each session that closes has
/// to be a transfer.
pub fn sessions_conserve()
    ensures { SessionsConserve }
{}

/// Says that no look finds too little, if each session that closes leaves enough in each account that it writes.
pub fn sessions_leave_enough()
    ensures { SessionsLeaveEnough }
{}

/// Says that a test which the empty store passes holds at every timestamp of the recovered logs. Each session that closes has to write
/// what some function makes of its answers, and each such function has to keep the test on every map.
pub fn services_keep()
    ensures { ServicesKeep }
{}

/// Says that each audit finds what there was at the start, if each session that closes is a transfer between two accounts, or writes no
/// account.
pub fn transfers_conserve()
    ensures { TransfersConserve }
{}

/// Says that after a session that leaves a total, as one that opens all accounts, each audit finds that total. Each session that closes
/// has to be a transfer between two accounts, to write no account, or to leave that total.
pub fn transfers_keep()
    ensures { TransfersKeep }
{}
