//! Messages are delivered again and again, so each delivery is of a copy.
ghost use Rattle.std.specs.Prelude.{◌≡◌, IfOk, IfErr};

use crate::{Answer, Commit, Message, Prepare, ReadAnswer};
use std::alloc::Global;
use units::{Fault, copy_value};

impl Answer {
    /// Makes an equal answer, which shares its value. `Memory` if memory runs out.
    pub fn copy(&self) -> Result<Answer, Fault>
        ensures same { IfOk result (λ copied. copied ≡ self.now) }
        ensures memory { IfErr result (λ fault. fault ≡ Fault.Memory) }
    {
        match self {
            Answer::Holds(value) => Ok(Answer::Holds(copy_value(value)?)),
            Answer::Refused => Ok(Answer::Refused),
        }
    }
}

impl ReadAnswer {
    /// Makes an equal answer, which shares its value. `Memory` if memory runs out.
    pub fn copy(&self) -> Result<ReadAnswer, Fault>
        ensures same { IfOk result (λ copied. copied ≡ self.now) }
        ensures memory { IfErr result (λ fault. fault ≡ Fault.Memory) }
    {
        Ok(ReadAnswer {
            from: self.from,
            txn: self.txn,
            key: self.key,
            epoch: self.epoch,
            answer: self.answer.copy()?,
        })
    }
}

impl Message {
    /// Makes an equal message, whose lists of keys and writes are copied. `Memory` if memory runs out.
    pub fn copy(&self, alloc: Global) -> Result<Message, Fault>
        ensures same { IfOk result (λ copied. copied ≡ self.now) }
        ensures memory { IfErr result (λ fault. fault ≡ Fault.Memory) }
    {
        match self {
            Message::Read(read) => Ok(Message::Read(*read)),
            Message::Prepare(prepare) => Ok(Message::Prepare(Prepare {
                txn: prepare.txn,
                coordinator: prepare.coordinator,
                reads: prepare.reads.copy(alloc)?,
                writes: prepare.writes.copy(alloc)?,
            })),
            Message::Commit(commit) => Ok(Message::Commit(Commit {
                txn: commit.txn,
                parts: commit.parts,
                reads: commit.reads.copy(alloc)?,
                writes: commit.writes.copy(alloc)?,
            })),
            Message::GiveUp(given) => Ok(Message::GiveUp(*given)),
            Message::Vote(vote) => Ok(Message::Vote(*vote)),
            Message::Outcome(told) => Ok(Message::Outcome(*told)),
            Message::Ask(ask) => Ok(Message::Ask(*ask)),
            Message::ReadAnswer(answer) => Ok(Message::ReadAnswer(answer.copy()?)),
            Message::Done(done) => Ok(Message::Done(*done)),
        }
    }
}
