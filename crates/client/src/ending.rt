//! A transaction closes or is given up, and hears its end.
ghost use Rattle.std.specs.Prelude.{◌≡◌, ◌⊎◌, ℕ, List, [], ◌++◌, Err, Ok, IfErr, IsOk, MatchResult};
ghost use Rattle.message.specs.Ends.{End};
ghost use Rattle.message.specs.declared.message.Envelope.{Envelope};
ghost use Rattle.session.specs.Sessions.{closing_messages};
ghost use Rattle.client.specs.Ends.{IsAskedOnce, IsAwaited, IsEnded, IsGivenUp, IsPressed, IsRefused, IsTold, left, times};
ghost use Rattle.client.specs.Refusals.{IsStepFault, IsStepHalt};
ghost use Rattle.client.specs.declared.ended.Ended.TheVariants.{Committed};

use crate::ended::end_of;
use crate::hearing::Hearing;
use crate::{Ended, Halt, InDoubt, Wire};
use letters::Refused;
use message::{Address, Done};
use session::{Closed, Closing, Ongoing, Open, Tx};
use std::sync::Wait;
use std::time;
use units::{Fault, Reason, ShardNo};

impl<'s, R: Wait + time::Clock> Wire<'_, 's, R> {
    /// Ends a transaction whose code has run, and returns how it ended. It closes one whose code returned `Ok`, and gives up any other. After
    /// `Again` and `Abandon` the answer is `Aborted`; after a refusal it is that fault.
    pub fn finish(&mut self, tx: Tx<'s, Open>, ran: Result<(), Halt>) -> Result<Ended, Fault>
        ensures committed { (at : ℕ) → result ≡ Ok (Committed at) → IsOk ran }
        ensures ended { (sent : List Envelope) × (heard : List End)
            × (self.new.sent ≡ self.old.sent ++ sent)
            × (self.new.heard ≡ self.old.heard ++ heard)
            × MatchResult ran
            (λ _. MatchResult result
            (λ ended. IsEnded tx.entry.splits tx.entry.client ended sent heard)
            (λ fault. IsRefused tx.entry.splits tx.entry.client fault sent))
            (λ halt. IsGivenUp tx.entry.client.txn sent
            × ((result ≡ left halt) ⊎ (result ≡ Err Fault.Memory))) }
        ensures refused { IfErr ran IsStepHalt → IfErr result IsStepFault }
    {
        match ran {
            Ok(()) => self.close(tx),
            Err(halt) => {
                self.give_up(tx)?;
                match halt {
                    Halt::Again | Halt::Abandon => Ok(Ended::Aborted),
                    Halt::Refused(fault) => Err(fault),
                    Halt::Unserved { shard: _, fault } => Err(fault),
                }
            }
        }
    }

    // Closes the transaction, and hears how it ended. One that may not close is given up.
    fn close(&mut self, tx: Tx<'s, Open>) -> Result<Ended, Fault>
        ensures { (sent : List Envelope) × (heard : List End)
            × (self.new.sent ≡ self.old.sent ++ sent)
            × (self.new.heard ≡ self.old.heard ++ heard)
            × MatchResult result
            (λ ended. IsEnded tx.entry.splits tx.entry.client ended sent heard)
            (λ fault. IsRefused tx.entry.splits tx.entry.client fault sent) }
    {
        match tx.close(self.alloc) {
            Ok((tx, outbox)) => {
                self.send_all(outbox, false);
                Ok(self.end(tx))
            }
            Err((fault, tx)) => {
                self.give_up(tx)?;
                match fault {
                    Fault::BadRequest(Reason::Doomed) => Ok(Ended::Aborted),
                    _ => Err(fault),
                }
            }
        }
    }

    // Hears the end of a transaction that is closing. If it does not come, the transaction is given up, and asked for once more.
    fn end(&mut self, tx: Tx<'s, Closing>) -> Ended
        ensures { (sent : List Envelope) × (heard : List End)
            × (self.new.sent ≡ self.old.sent ++ sent)
            × (self.new.heard ≡ self.old.heard ++ heard)
            × IsPressed tx.entry.splits tx.entry.client sent
            × IsTold tx.entry.client.txn result heard }
    {
        match self.await_end(&tx) {
            Some(done) => end_of(tx, &done),
            None => self.quit(tx),
        }
    }

    // Gives up a transaction that is closing, and asks once more how it ended. After the word to stop nobody is told or asked.
    fn quit(&mut self, tx: Tx<'s, Closing>) -> Ended
        ensures { (sent : List Envelope) × (heard : List End)
            × (self.new.sent ≡ self.old.sent ++ sent)
            × (self.new.heard ≡ self.old.heard ++ heard)
            × ((sent ≡ []) ⊎ IsAskedOnce tx.entry.splits tx.entry.client sent)
            × IsTold tx.entry.client.txn result heard }
    {
        let txn = tx.txn();
        if self.stop.is_told() {
            tx.spend();
            return Ended::Unknown(txn);
        }
        match tx.quit(self.alloc) {
            Ok((tx, outbox)) => {
                self.send_all(outbox, false);
                self.insist();
                match self.await_end(&tx) {
                    Some(done) => end_of(tx, &done),
                    None => {
                        self.keep(InDoubt { tx });
                        Ended::Unknown(txn)
                    }
                }
            }
            Err((_, tx)) => {
                tx.spend();
                Ended::Unknown(txn)
            }
        }
    }

    /// Waits for the end, and asks for it after each silence. There is none if it does not come, or if a shard's refusal says that to wait on
    /// is in vain.
    pub(crate) fn await_end<S: Closed>(&mut self, tx: &Tx<'s, S>) -> Option<Done>
        ensures sent { (n : ℕ) × (self.new.sent ≡
            self.old.sent ++ times n (closing_messages tx.now.splits tx.now.client)) }
        ensures heard { (heard : List End) × (self.new.heard ≡ self.old.heard ++ heard)
            × IsAwaited tx.now.client.txn result heard }
    {
        for _heard in self.rt.forever() {
            match self.hear() {
                Hearing::End(done) => {
                    if tx.txn() == done.txn() {
                        return Some(done);
                    }
                }
                Hearing::Silence => self.ask_again(tx),
                Hearing::Refused(refused) => {
                    if self.is_in_vain(tx, &refused) {
                        return None;
                    }
                }
                Hearing::Enough => return None,
                Hearing::UnderWay => {}
                Hearing::Heard(message) => drop(message),
            }
        }
        unreachable!()
    }

    // Whether it is in vain to wait on, since a shard has refused a letter of the transaction. While it closes, each refusal says so. After
    // it was given up only one does: the shard that decides has stopped. What another shard refuses does not keep that one from telling the
    // end.
    fn is_in_vain<S: Closed>(&self, tx: &Tx<'s, S>, refused: &Refused) -> bool {
        if tx.txn() != refused.txn {
            return false;
        }
        S::is_closing() || refused.fault == Fault::Stopped && self.decides(tx, refused.shard)
    }

    // Whether the shard decides: the closing goes to it first.
    fn decides<S: Closed>(&self, tx: &Tx<'s, S>, shard: ShardNo) -> bool {
        let Ok(outbox) = tx.again(self.alloc) else {
            return false;
        };
        let decides = match outbox.as_slice().first() {
            Some(envelope) => matches!(envelope.to, Address::Shard(first) if first == shard),
            None => false,
        };
        drop(outbox);
        decides
    }

    /// Sends the messages of the closing once more, if there is memory.
    pub(crate) fn ask_again<S: Closed>(&mut self, tx: &Tx<'s, S>)
        ensures sent { (n : ℕ) × (self.new.sent ≡
            self.old.sent ++ times n (closing_messages tx.now.splits tx.now.client)) }
        ensures heard { self.new.heard ≡ self.old.heard }
    {
        if let Ok(outbox) = tx.again(self.alloc) {
            self.send_all(outbox, true);
        }
    }

    // Gives a transaction up. Its shards are told, unless clients are to stop.
    fn give_up(&mut self, tx: Tx<'s, Open>) -> Result<(), Fault>
        ensures sent { (sent : List Envelope) × (self.new.sent ≡ self.old.sent ++ sent)
            × IsGivenUp tx.entry.client.txn sent }
        ensures heard { self.new.heard ≡ self.old.heard }
        ensures memory { IfErr result (λ fault. fault ≡ Fault.Memory) }
    {
        match tx.give_up(self.alloc) {
            Ok(outbox) => {
                if self.stop.is_told() {
                    drop(outbox);
                } else {
                    self.send_all(outbox, false);
                }
                Ok(())
            }
            Err((fault, tx)) => {
                tx.spend();
                Err(fault)
            }
        }
    }
}
