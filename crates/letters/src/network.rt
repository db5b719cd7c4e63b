//! How letters get to nodes and to workers.
ghost use Rattle.std.specs.Prelude.{◌≡◌, [], length, IfOk, IfErr, OnOk};

use crate::bell::Bell;
use crate::gate::Gate;
use crate::letter::{Letter, Post, Refused, Reply, UnderWay};
use crate::sessions::Sessions;
use crossbeam_channel::{Receiver, SendError, Sender, unbounded};
use message::{Address, Envelope};
use std::alloc::Global;
use std::sync::atomic::{AtomicBool, AtomicU64, Ordering};
use std::sync::{Mutex, Wait};
use std::time::Duration;
use std::{thread, time};
use units::{Fault, ShardNo, Stamp, TxnId};

/// What carries letters to nodes and answers to workers. It has the inboxes and bells of all nodes, by shard, and the inboxes of all workers.
/// It knows who runs which transaction, and which shards have stopped. A letter to nobody, to one who is gone, or for which there is no
/// memory, is lost. It notes the last of these, and also that a node was refused memory (`has_lacked_memory`).
pub struct Network {
    nodes: Vec<Sender<Letter>>,
    bells: Vec<Bell>,
    workers: Vec<Sender<Reply>>,
    sessions: Mutex<Sessions>,
    stopped: AtomicU64,
    lacked: AtomicBool,
}

impl Drop for Network {
    fn drop(self) {
        let Network {
            nodes: _,
            bells: _,
            workers: _,
            sessions: _,
            stopped: _,
            lacked: _,
        } = self;
    }
}

/// The inboxes of a network, to be read.
#[derive(Drop)]
pub struct Inboxes {
    /// Those of the nodes, by shard.
    pub nodes: Vec<Receiver<Letter>>,
    /// Those of the workers, by number.
    pub workers: Vec<Receiver<Reply>>,
}

impl Network {
    /// Creates a network of so many nodes and workers, with their inboxes.
    pub fn new(alloc: Global, nodes: usize, workers: usize) -> Result<(Network, Inboxes), Fault>
        ensures inboxes { IfOk result (λ made.
            (length made.1.nodes.items ≡ nodes) × (length made.1.workers.items ≡ workers)) }
        ensures memory { IfErr result (λ fault. fault ≡ Fault.Memory) }
    {
        let sessions = match Sessions::new(alloc, workers) {
            Ok(sessions) => Mutex::new(sessions),
            Err(fault) => return Err(fault),
        };
        let mut network = Network {
            nodes: Vec::new(alloc),
            bells: Vec::new(alloc),
            workers: Vec::new(alloc),
            sessions,
            stopped: AtomicU64::new(0),
            lacked: AtomicBool::new(false),
        };
        let mut inboxes = Inboxes {
            nodes: Vec::new(alloc),
            workers: Vec::new(alloc),
        };
        match connect(alloc, nodes, workers, &mut network, &mut inboxes) {
            Ok(()) => Ok((network, inboxes)),
            Err(fault) => {
                drop(network);
                drop(inboxes);
                Err(fault)
            }
        }
    }

    /// Sends what comes for the session of a transaction to this worker from now on.
    pub fn run<R: Wait>(&self, rt: &R, worker: usize, txn: TxnId) {
        self.sessions.lock(rt).run(worker, txn);
    }

    /// Sends a message to where it goes.
    pub fn send<R: Wait>(&self, rt: &R, envelope: Envelope) {
        let Envelope { to, message } = envelope;
        match to {
            Address::Shard(shard) => self.send_to(rt, shard, Letter::Carry(message)),
            Address::Session(txn) => match self.inbox_of(rt, txn) {
                Some(inbox) => self.note(inbox.send(rt, Reply::Carry(message))),
                None => drop(message),
            },
        }
    }

    /// Sends a message of a session again, in this round. A shard that keeps it says so (`Reply::UnderWay`).
    pub fn send_again<R: Wait>(&self, rt: &R, envelope: Envelope, round: u64) {
        let Envelope { to, message } = envelope;
        match to {
            Address::Shard(shard) => self.send_to(rt, shard, Letter::Again(message, round)),
            Address::Session(_) => drop(message),
        }
    }

    // Sends a letter to a shard's node.
    fn send_to<R: Wait>(&self, rt: &R, shard: ShardNo, letter: Letter) {
        match self.nodes.get(usize::from(shard.number())) {
            Some(inbox) => self.note(inbox.send(rt, letter)),
            None => drop(letter),
        }
    }

    /// Tells the worker that runs the transaction that a letter of it was refused.
    pub fn refuse<R: Wait>(&self, rt: &R, refused: Refused) {
        if refused.fault == Fault::Memory {
            self.lack_memory();
        }
        if let Some(inbox) = self.inbox_of(rt, refused.txn) {
            self.note(inbox.send(rt, Reply::Refused(refused)));
        }
    }

    /// Tells the worker that runs the transaction that what it has sent again is under way.
    pub fn assure<R: Wait>(&self, rt: &R, under_way: UnderWay) {
        if let Some(inbox) = self.inbox_of(rt, under_way.txn) {
            self.note(inbox.send(rt, Reply::UnderWay(under_way)));
        }
    }

    // Notes it if what was sent is lost for want of memory.
    fn note<T: Drop>(&self, sent: Result<(), SendError<T>>) {
        if let Err(SendError::OutOfMemory(_)) = &sent {
            self.lack_memory();
        }
        drop(sent);
    }

    /// Notes that memory was refused to a node, or to a letter.
    pub fn lack_memory(&self) {
        self.lacked.store(true, Ordering::SeqCst);
    }

    /// Tells whether memory was refused since the network was made: to a letter, which is lost then, or to a node, for a letter or for what it
    /// does by itself. What was to be answered may never be.
    pub fn has_lacked_memory(&self) -> bool {
        self.lacked.load(Ordering::SeqCst)
    }

    /// Tells whether the shard has stopped, as its gate was told, and has not gone on since.
    pub fn has_stopped(&self, shard: ShardNo) -> bool {
        self.stopped.load(Ordering::SeqCst) & bit(shard) != 0
    }

    /// Gives the first shard that has stopped, and has not gone on since.
    pub fn stopped_shard(&self) -> Option<ShardNo> {
        for number in 0..MOST_SHARDS {
            if let Some(shard) = ShardNo::new(number) {
                if self.has_stopped(shard) {
                    return Some(shard);
                }
            }
        }
        None
    }

    // The inbox of the worker that runs the transaction.
    fn inbox_of<R: Wait>(&self, rt: &R, txn: TxnId) -> Option<&Sender<Reply>> {
        let worker = self.sessions.lock(rt).worker_of(txn);
        match worker {
            Some(worker) => self.workers.get(worker),
            None => None,
        }
    }

    /// Waits until a shard's node has told that it serves a timestamp, or until `longest` has passed. A reader that got `NotYet` calls it.
    /// The first such reader since the node last cleared the flag wakes it by a letter.
    pub fn await_served<R: Wait + time::Clock>(
        &self,
        rt: &R,
        shard: ShardNo,
        at: Stamp,
        longest: Duration,
    ) {
        let number = usize::from(shard.number());
        match (self.bells.get(number), self.nodes.get(number)) {
            (Some(bell), Some(inbox)) => {
                if bell.ring() {
                    self.note(inbox.send(rt, Letter::Look));
                }
                bell.wait(rt, at, longest);
            }
            _ => thread::sleep(rt, longest),
        }
    }

    // The bell of a shard.
    fn bell(&self, shard: ShardNo) -> Option<&Bell> {
        self.bells.get(usize::from(shard.number()))
    }

    /// Sends each node the end, again and again until it is taken or the node is gone.
    pub fn close<R: Wait + time::Clock>(&self, rt: &R) {
        for inbox in &self.nodes {
            close_one(rt, inbox);
        }
    }
}

// So many shards there are at most.
const MOST_SHARDS: u8 = 16;

// The bit of a shard.
fn bit(shard: ShardNo) -> u64 {
    1 << (u32::from(shard.number()) % 64)
}

// A network as a gate keeps in mind which shards have stopped, until they go on.
impl Gate for Network {
    fn before(&self, _shard: ShardNo, _n: u64) {}

    fn after(&self, _shard: ShardNo, _n: u64) {}

    fn stopped(&self, shard: ShardNo) {
        self.stopped.fetch_or(bit(shard), Ordering::SeqCst);
    }

    fn goes_on(&self, shard: ShardNo) {
        self.stopped.fetch_and(!bit(shard), Ordering::SeqCst);
    }
}

// Sends the end until it is taken, or nobody is there to take it.
fn close_one<R: Wait + time::Clock>(rt: &R, inbox: &Sender<Letter>) {
    for _try in rt.forever() {
        let sent = inbox.send(rt, Letter::Close);
        let is_over = match &sent {
            Ok(()) => true,
            Err(refused) => refused.is_disconnected(),
        };
        drop(sent);
        if is_over {
            return;
        }
        thread::sleep(rt, Duration::from_millis(1));
    }
    unreachable!()
}

// So many channels of each kind.
fn connect(
    alloc: Global,
    nodes: usize,
    workers: usize,
    network: &mut Network,
    inboxes: &mut Inboxes,
) -> Result<(), Fault>
    requires { (inboxes.old.nodes.items ≡ []) × (inboxes.old.workers.items ≡ []) }
    ensures inboxes { OnOk result ((length inboxes.new.nodes.items ≡ nodes)
        × (length inboxes.new.workers.items ≡ workers)) }
    ensures memory { IfErr result (λ fault. fault ≡ Fault.Memory) }
{
    hang(nodes, &mut network.bells)?;
    match channels(alloc, nodes, &mut network.nodes, &mut inboxes.nodes) {
        Ok(()) => channels(alloc, workers, &mut network.workers, &mut inboxes.workers),
        Err(fault) => Err(fault),
    }
}

// So many bells.
fn hang(nodes: usize, bells: &mut Vec<Bell>) -> Result<(), Fault>
    ensures memory { IfErr result (λ fault. fault ≡ Fault.Memory) }
{
    for _node in 0..nodes {
        bells.push(Bell::new())?;
    }
    Ok(())
}

// So many channels without a limit.
fn channels<T: Drop>(
    alloc: Global,
    n: usize,
    senders: &mut Vec<Sender<T>>,
    receivers: &mut Vec<Receiver<T>>,
) -> Result<(), Fault>
    requires { receivers.old.items ≡ [] }
    ensures receivers { OnOk result (length receivers.new.items ≡ n) }
    ensures memory { IfErr result (λ fault. fault ≡ Fault.Memory) }
{
    for _made in 0..n {
        let (sender, receiver) = unbounded(alloc)?;
        senders.push(sender)?;
        receivers.push(receiver)?;
    }
    Ok(())
}

/// The post of a node over a network. It also tells readers what the node serves.
#[derive(Drop)]
pub struct Mail<'r, 's, R> {
    /// The runtime with which it sends.
    pub rt: &'r R,
    /// The network that carries what it sends.
    pub network: &'s Network,
}

impl<R: Wait> Post for Mail<'_, '_, R> {
    fn post(&mut self, envelope: Envelope) {
        self.network.send(self.rt, envelope);
    }

    fn refuse(&mut self, refused: Refused) {
        self.network.refuse(self.rt, refused);
    }

    fn lack_memory(&mut self) {
        self.network.lack_memory();
    }

    fn assure(&mut self, under_way: UnderWay) {
        self.network.assure(self.rt, under_way);
    }

    fn is_looked_for(&self, shard: ShardNo) -> bool {
        match self.network.bell(shard) {
            Some(bell) => bell.is_rung(),
            None => false,
        }
    }

    fn silence(&mut self, shard: ShardNo) {
        if let Some(bell) = self.network.bell(shard) {
            bell.silence();
        }
    }

    fn tell(&mut self, shard: ShardNo, served: Stamp) {
        if let Some(bell) = self.network.bell(shard) {
            bell.tell(served);
        }
    }
}
