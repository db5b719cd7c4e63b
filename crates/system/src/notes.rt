//! What is told beside an answer.
use std::fmt;
use units::Fault;

/// A note: an opening of the shard would refuse its log.
#[derive(Clone, Copy)]
pub struct Note {
    /// The number of the shard.
    pub shard: usize,
    /// The fault with which the opening would refuse it.
    pub fault: Fault,
}

impl fmt::Display for Note {
    fn fmt<W: fmt::Write>(&self, f: &mut fmt::Formatter<W>) -> fmt::Result {
        let Note { shard, fault } = *self;
        write!(f, "shard {shard}: an opening refuses this log: {fault}")
    }
}
