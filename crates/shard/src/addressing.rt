//! Which messages a shard takes.
ghost use Rattle.std.specs.Prelude.{◌≡◌};
ghost use Rattle.protocol.specs.Step.{is_for};

use message::Message;
use recovery::owns_all;
use units::Setup;

/// Tells whether the message is for this shard: its keys are this shard's. A prepare must name a coordinator below this shard, and
/// of a commit this shard must be the least part. Answers and ends are for sessions.
#[tactic(auto, unfolding(protocol::specs::Step::is_for))]
pub(crate) fn is_for(setup: &Setup, message: &Message) -> bool
    ensures { result ≡ is_for setup.now message.now }
{
    match message {
        Message::Read(read) => setup.owns(&read.key),
        Message::Prepare(prepare) => {
            owns_all(setup, prepare.reads.keys(), &prepare.writes)
                && prepare.coordinator.number() < setup.shard.number()
        }
        Message::Commit(commit) => {
            owns_all(setup, commit.reads.keys(), &commit.writes)
                && setup.shard == commit.parts.least()
        }
        Message::GiveUp(_) | Message::Vote(_) | Message::Outcome(_) | Message::Ask(_) => true,
        Message::ReadAnswer(_) | Message::Done(_) => false,
    }
}
