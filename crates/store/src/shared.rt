//! What the clients of a store share.
use crate::door::Door;
use crate::numbers::Numbers;
use crate::offers::Offers;
use client::Stop;
use letters::Network;
use std::alloc::Global;
use std::sync::Arc;
use tickets::Tickets;
use units::{Run, Splits};

/// What the clients of a store share: the run of their ids and the source of their numbers, the splits, and the network, which knows which
/// shards have stopped. They also share the door through which each transaction begins, what the store counts, and the new viewers that are offered to
/// them.
#[derive(Drop)]
pub struct Shared {
    pub alloc: Global,
    pub run: Run,
    pub splits: Splits,
    pub network: Network,
    pub ids: Tickets,
    pub stop: Stop,
    pub give_up: u64,
    pub door: Door,
    pub numbers: Arc<Numbers, Global>,
    pub offers: Arc<Offers, Global>,
}
