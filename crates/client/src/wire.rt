//! What a client sends and hears with.
ghost use Rattle.std.specs.Prelude.{◌≡◌, [], ◌∷◌, ◌++◌, MatchResult, IfOk, IfErr};
ghost use Rattle.std.specs.Prelude.{◌^◌, length};
ghost use Rattle.session.specs.Sessions.{begun};
ghost use Rattle.client.specs.Ends.{end_heard};

use crate::hearing::Hearing;
use crate::patience::Patience;
use crate::{InDoubt, Stop};
use crossbeam_channel::Receiver;
use growing::Growing;
use letters::{Network, Reply, UnderWay};
use message::{Address, Answer, Done, Envelope, Message, Outbox};
use session::{Open, Tx};
use std::alloc::Global;
use std::marker::Model;
use std::sync::Wait;
use std::time;
use std::time::Duration;
use tickets::{Drawer, Tickets};
use units::{Fault, Run, Splits, TxnId};

/// What a client sends and hears with. Contracts see all messages that it has put out, and all ends that it has heard; both are kept in
/// proofs alone.
#[derive(Drop)]
pub struct Wire<'r, 's, R> {
    /// The runtime with which it sends and hears.
    pub(crate) rt: &'r R,
    /// The allocator of its messages.
    pub(crate) alloc: Global,
    /// The network that carries its letters.
    pub(crate) network: &'s Network,
    /// The word that it is to end.
    pub(crate) stop: &'s Stop,
    /// What comes for its transactions.
    pub(crate) inbox: Receiver<Reply>,
    number: usize,
    patience: Patience,
    txn: Option<TxnId>,
    closes: bool,
    // The last transaction whose end nobody told.
    doubt: Option<InDoubt<'s>>,
    sent: Growing<Envelope>,
    heard: Growing<Done>,
}

impl<'r, 's, R> Model for Wire<'r, 's, R> {
    ghost use Rattle.client.specs.Traffic.{Traffic};

    ghost Value = { Traffic };

    ghost view = { λ w. record { sent = w.sent.entries; heard = w.heard.entries } };
}

impl<'r, 's, R> Wire<'r, 's, R> {
    /// Makes the wire of the client with this number in the network. In each transaction it waits through `patience` silences of 20
    /// milliseconds. After it has given the transaction up while it closes, it waits through as many again.
    pub fn new(
        rt: &'r R,
        alloc: Global,
        network: &'s Network,
        stop: &'s Stop,
        inbox: Receiver<Reply>,
        number: usize,
        patience: u32,
    ) -> Wire<'r, 's, R>
        ensures { (result.sent ≡ []) × (result.heard ≡ []) }
    {
        let (sent, _) = Growing::twins();
        let (heard, _) = Growing::twins();
        Wire {
            rt,
            alloc,
            network,
            stop,
            inbox,
            number,
            patience: Patience::new(patience, None),
            txn: None,
            closes: false,
            doubt: None,
            sent,
            heard,
        }
    }

    /// Makes its patience go by progress. It then counts only rounds of asking in which all shards that were asked say that the transaction
    /// waits for others; a round takes 20 milliseconds at least. An answer, or the word that it is decided, begins the count anew.
    ///
    /// A shard that says nothing is waited for until `give_up` milliseconds have passed without anything new. So is the end of a transaction
    /// that is given up while it closes.
    pub fn by_progress(self, give_up: u64) -> Wire<'r, 's, R>
        ensures { result ≡ self.entry }
    {
        let mut wire = self;
        wire.patience = Patience::new(wire.patience.most, Some(give_up));
        wire
    }

    // Its patience begins anew.
    fn listen_anew(&mut self)
        ensures { self.new ≡ self.old }
    {
        self.patience = self.patience.anew();
    }

    /// Begins its patience anew. By progress it then waits for the end until nothing new was said for long (`Patience::insistent`).
    pub(crate) fn insist(&mut self)
        ensures { self.new ≡ self.old }
    {
        self.patience = self.patience.insistent();
    }

    /// Keeps a transaction whose end nobody told, so that it can be asked for later.
    pub(crate) fn keep(&mut self, doubt: InDoubt<'s>)
        ensures { self.new ≡ self.old }
    {
        self.doubt = Some(doubt);
    }

    /// Hands out the last transaction that closed over this wire and whose end nobody told: none, or what `ask` needs.
    pub fn take_doubt(&mut self) -> Option<InDoubt<'s>>
        ensures { self.new ≡ self.old }
    {
        self.doubt.take()
    }

    /// Tells whether a shard has said that the transaction is decided.
    pub(crate) fn is_decided(&self) -> bool {
        self.patience.decided
    }

    // Whether it counts silences, and memory was refused in the network: what it waits for may be lost. By progress it asks again.
    fn is_in_want(&self) -> bool {
        self.patience.give_up.is_none() && self.network.has_lacked_memory()
    }

    // Nothing was heard.
    fn silence(&mut self, stops: bool) -> Hearing
        ensures wire { self.new ≡ self.old }
        ensures end { end_heard result ≡ [] }
    {
        if self.patience.is_over() || stops || self.is_in_want() {
            Hearing::Enough
        } else {
            Hearing::Silence
        }
    }

    // A shard keeps what was sent again: of this transaction, or else of an earlier one.
    fn be_assured(&mut self, under_way: UnderWay) -> Hearing
        ensures wire { self.new ≡ self.old }
        ensures end { end_heard result ≡ [] }
    {
        if self.txn == Some(under_way.txn) {
            self.patience.assured(&under_way);
        }
        Hearing::UnderWay
    }

    // A message that is no end was heard. By progress patience begins anew with an answer to the transaction. If one that closes is told that
    // it has ended at a shard, it asks there at once.
    fn listen(&mut self, message: Message) -> Hearing
        ensures wire { self.new ≡ self.old }
        ensures end { end_heard result ≡ [] }
    {
        let refused = match &message {
            Message::ReadAnswer(answer) if self.txn == Some(answer.txn) => {
                self.patience = self.patience.answered();
                matches!(answer.answer, Answer::Refused)
            }
            _ => false,
        };
        if refused && self.closes && self.patience.give_up.is_some() {
            drop(message);
            return Hearing::Silence;
        }
        Hearing::Heard(message)
    }

    // A message was heard.
    fn sort(&mut self, message: Message) -> Hearing
        ensures sent { self.new.sent ≡ self.old.sent }
        ensures heard { self.new.heard ≡ self.old.heard ++ end_heard result }
    {
        let done = match &message {
            Message::Done(done) => Some(*done),
            _ => None,
        };
        match done {
            Some(done) => {
                drop(message);
                self.heard.add(&done);
                Hearing::End(done)
            }
            None => self.listen(message),
        }
    }
}

impl<'s, R: Wait + time::Clock> Wire<'_, 's, R> {
    /// Begins a transaction, whose messages come to this client from now on. `TimeSpent` if the drawer may draw no more numbers: the store
    /// has to be opened again, which begins a new run.
    pub fn begin(
        &mut self,
        run: Run,
        splits: &'s Splits,
        tickets: &Tickets,
        drawer: &mut Drawer,
    ) -> Result<Tx<'s, Open>, Fault>
        requires { drawer.old.source ≡ tickets.now }
        ensures wire { self.new ≡ self.old }
        ensures source { drawer.new.source ≡ drawer.old.source }
        ensures splits { IfOk result (λ tx. tx.splits ≡ splits.now) }
        ensures begun { IfOk result
            (λ tx. tx.client ≡ begun (record { run = run; number = tx.client.txn.number })) }
        ensures drawn { MatchResult result
            (λ tx. drawer.new.drawn ≡ drawer.old.drawn ++ tx.client.txn.number ∷ [])
            (λ fault. (fault ≡ Fault.TimeSpent) × (length drawer.old.drawn ≡ 2 ^ 40)
            × (drawer.new.drawn ≡ drawer.old.drawn)) }
    {
        let tx = Tx::begin_drawn(self.alloc, run, splits, tickets, drawer)?;
        self.network.run(self.rt, self.number, tx.txn());
        self.txn = Some(tx.txn());
        self.listen_anew();
        Ok(tx)
    }

    /// Has what comes for a transaction that closed come to this client, and begins to wait for its end.
    pub(crate) fn attend(&mut self, txn: TxnId)
        ensures { self.new ≡ self.old }
    {
        self.network.run(self.rt, self.number, txn);
        self.txn = Some(txn);
        self.insist();
    }

    /// Waits for a message, or the word that a letter was refused.
    pub(crate) fn hear(&mut self) -> Hearing
        ensures sent { self.new.sent ≡ self.old.sent }
        ensures heard { self.new.heard ≡ self.old.heard ++ end_heard result }
    {
        let stops = self.stop.is_told();
        let pause = Duration::from_millis(if stops { 0 } else { self.patience.pause });
        match self.inbox.recv_timeout(self.rt, pause) {
            Ok(Reply::Carry(message)) => self.sort(message),
            Ok(Reply::Refused(refused)) => Hearing::Refused(refused),
            Ok(Reply::UnderWay(under_way)) => self.be_assured(under_way),
            Err(_) => self.silence(stops),
        }
    }

    /// Sends a message, for the first time or again.
    pub(crate) fn send(&mut self, envelope: Envelope, again: bool)
        ensures sent { self.new.sent ≡ self.old.sent ++ envelope ∷ [] }
        ensures heard { self.new.heard ≡ self.old.heard }
    {
        self.sent.add(&envelope);
        self.closes = !matches!(&envelope.message, Message::Read(_));
        let round = match (again, envelope.to) {
            (true, Address::Shard(shard)) => self.patience.asks(shard),
            _ => None,
        };
        match round {
            Some(round) => self.network.send_again(self.rt, envelope, round),
            None => self.network.send(self.rt, envelope),
        }
    }

    /// Sends each message of an outbox, for the first time or again.
    pub(crate) fn send_all(&mut self, outbox: Outbox, again: bool)
        ensures sent { self.new.sent ≡ self.old.sent ++ outbox }
        ensures heard { self.new.heard ≡ self.old.heard }
    {
        for envelope in outbox.into_vec() {
            self.send(envelope, again);
        }
    }
}
