//! The sessions of a run.
ghost use Rattle.std.specs.Prelude.{◌≡◌, ◌<◌, ◌≤◌, [], ◌∷◌, ◌++◌, ℕ, List, None, length, map, slice_index_or, IfErr, OnOk, true};
ghost use Rattle.std.specs.List.{position_or_len};
ghost use Rattle.units.specs.Ids.{same_id};
ghost use Rattle.units.specs.Keys.{Bytes};
ghost use Rattle.units.specs.Lists.{first, when};
ghost use Rattle.session.specs.Sessions.{Client, begun};
ghost use Rattle.world.specs.Hosts.{Hosts, HearsIn, MovesIn, session_step};
ghost use Rattle.world.specs.declared.begun.Begun.{Begun as Began};
ghost use Rattle.world.specs.Held.{asks};

use crate::begun::{Begun, Leave, Step};
use crate::{Act, Reply, RunOutput};
use indexmap::IndexSet;
use message::{Message, Outbox, ReadAnswer};
use std::alloc::Global;
use units::{Fault, Line, Splits, TxnId};

/// The sessions that have begun, in order, and their ids in the same order for look-ups by hash. They have to be spent, by `spend`.
pub struct Sessions<'s> {
    pub splits: &'s Splits,
    pub ids: IndexSet<TxnId>,
    pub begun: Vec<Begun<'s>>,
}

impl<'s> Sessions<'s> {
    ghost use Rattle.world.specs.World.{World, acts, client_of, moved};
    ghost use Rattle.world.specs.Lawful.{may_act};
    ghost use Rattle.world.specs.Passed.{IsOutput};
    ghost use Rattle.world.specs.Comes.{ComesOf, TakesMessage, is_of_session};

    /// Makes the sessions of a run in which none has begun.
    pub fn none(alloc: Global, splits: &'s Splits) -> Sessions<'s>
        ensures { Hosts splits.now result [] }
    {
        Sessions {
            splits,
            ids: IndexSet::new(alloc),
            begun: Vec::new(alloc),
        }
    }

    /// Tells whether the session has begun.
    pub fn has(&self, txn: TxnId) -> bool
        ensures { (splits : List Bytes) (cs : List Client) → Hosts splits self.now cs
            → result ≡ when (λ c. true) (first (λ c. same_id c.txn txn) cs) }
    {
        place(&self.ids, &self.begun, txn) < self.begun.len()
    }

    // Begins a session.
    fn begin(&mut self, alloc: Global, txn: TxnId) -> Result<(), Fault>
        ensures begun { (splits : List Bytes) (cs : List Client) → Hosts splits self.old cs
            → first (λ c. same_id c.txn txn) cs ≡ None
            → OnOk result (Hosts splits self.new (cs ++ begun txn ∷ [])) }
        ensures memory { IfErr result (λ fault. fault ≡ Fault.Memory) }
    {
        let Ok(()) = self.begun.reserve(1) else {
            return Err(Fault::Memory);
        };
        let Ok(_) = self.ids.insert(txn) else {
            return Err(Fault::Memory);
        };
        self.begun
            .push_reserved(Begun::new(alloc, txn, self.splits));
        Ok(())
    }

    // Carries out a step of the session of an id.
    fn step(&mut self, alloc: Global, txn: TxnId, step: &Step<'_>) -> Result<Outbox, Fault>
        ensures { (splits : List Bytes) (cs : List Client) → Hosts splits self.old cs
            → MovesIn splits (session_step (asks splits step.now)
            (first (λ c. same_id c.txn txn) cs)) self.new cs result }
    {
        let at = place(&self.ids, &self.begun, txn);
        if at >= self.begun.len() {
            return Err(Fault::Stranger);
        }
        self.begun[at].step(alloc, step)
    }

    /// Carries out the act of a session, which must be lawful, and puts out its messages. An act of no session is refused as `Stranger`.
    pub fn act(&mut self, alloc: Global, output: &mut RunOutput, act: &Act) -> Result<Reply, Fault>
        ensures { (time : ℕ) (w : World) → Hosts w.config.splits self.old w.clients
            → IsOutput output.old w → may_act w time act.now ≡ true
            → is_of_session act.now ≡ true
            → ComesOf w (acts w act.now) self.new output.new result }
    {
        match act {
            Act::Begin(txn) => match self.begin(alloc, *txn) {
                Ok(()) => {
                    let line = Line::Begin(*txn, output.event);
                    output.reply_line(Ok(Some(line)))
                }
                Err(fault) => Err(fault),
            },
            Act::Read(txn, key) => self.ask(alloc, output, *txn, &Step::Read(*key)),
            Act::Write(txn, key, value) => {
                self.ask(alloc, output, *txn, &Step::Write(*key, value))
            }
            Act::Close(txn) => self.ask(alloc, output, *txn, &Step::Leave(Leave::Close)),
            Act::Quit(txn) => self.ask(alloc, output, *txn, &Step::Leave(Leave::Quit)),
            _ => Ok(Reply::Refused(Fault::Stranger)),
        }
    }

    // Carries out a step of the session of an id, and puts out its messages.
    fn ask(
        &mut self,
        alloc: Global,
        output: &mut RunOutput,
        txn: TxnId,
        step: &Step<'_>,
    ) -> Result<Reply, Fault>
        ensures { (w : World) → Hosts w.config.splits self.old w.clients → IsOutput output.old w
            → ComesOf w (moved w (session_step (asks w.config.splits step.now) (client_of w txn)))
            self.new output.new result }
    {
        let moved = self.step(alloc, txn, step);
        output.reply(moved)
    }

    // Gives an answer to its session. A value that the session takes becomes a line.
    fn hear(&mut self, answer: &ReadAnswer) -> Result<Option<Line>, Fault>
        ensures { (splits : List Bytes) (cs : List Client) → Hosts splits self.old cs
            → HearsIn splits answer.now self.new cs
            (first (λ c. same_id c.txn answer.now.txn) cs) result }
    {
        let at = place(&self.ids, &self.begun, answer.txn);
        if at >= self.begun.len() {
            return Err(Fault::Stranger);
        }
        self.begun[at].hear(answer)
    }

    /// Delivers a message to the session that it names. A value that the session takes becomes a line.
    pub fn take_message(&mut self, alloc: Global, message: &Message) -> Result<Option<Line>, Fault>
        ensures { (w : World) → Hosts w.config.splits self.old w.clients
            → TakesMessage w message.now self.new result }
    {
        match message {
            Message::ReadAnswer(answer) => self.hear(answer),
            Message::Done(done) => {
                let end = Step::Leave(Leave::Hear(done.outcome()));
                match self.step(alloc, done.txn(), &end) {
                    Ok(out) => {
                        drop(out);
                        Ok(None)
                    }
                    Err(fault) => Err(fault),
                }
            }
            _ => Err(Fault::Stranger),
        }
    }

    /// Spends each session without telling any shard.
    pub fn spend(self) {
        let Sessions {
            splits: _,
            ids: _,
            mut begun,
        } = self;
        for _ in 0..begun.len() {
            match begun.pop() {
                Some(Begun { txn: _, held }) => held.spend(),
                None => {}
            }
        }
        begun.destroy_empty();
    }
}

// The place of the session of an id, or the number of sessions if there is none.
fn place(ids: &IndexSet<TxnId>, begun: &[Begun<'_>], txn: TxnId) -> usize
    ensures within { result ≤ length begun.now }
    ensures there { (b : Began) → result < length begun.now → b ≡ slice_index_or begun.now result b
        → same_id b.txn txn ≡ true }
    ensures place { ids.now.keys ≡ map (λ b. b.txn) begun.now
        → result ≡ position_or_len (λ b. same_id b.txn txn) begun.now }
{
    let Some(at) = ids.get_index_of(&txn) else {
        return begun.len();
    };
    if at < begun.len() && begun[at].txn == txn {
        at
    } else {
        begun.len()
    }
}
