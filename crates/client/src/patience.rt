//! How long a client waits for its shards.
ghost use Rattle.std.specs.Prelude.{◌≡◌, ◌⊎◌, ◌≤◌, ◌+◌, ℕ, true, false, Some};

use letters::UnderWay;
use units::ShardNo;

// How many milliseconds a client waits before it sends again what is not answered. By progress it waits each time twice as long while a shard
// is silent, up to the longest.
const PAUSE: u64 = 20;

const LONGEST: u64 = 320;

/// How long a client waits.
///
/// - **By silences**, if `give_up` is `None`: until `most` pauses of 20 milliseconds have passed, whatever is said meanwhile.
/// - **By progress**: until `most` less one rounds of asking, but one at least, were answered by all who were asked, and nothing came of it.
///   It also gives up once nothing new was said for `give_up` milliseconds. That the transaction is decided is new once.
#[derive(Clone, Copy)]
pub struct Patience {
    /// How many silences it waits through, or one more than the rounds.
    pub most: u32,
    /// By progress: for how many milliseconds nothing new may be said.
    pub give_up: Option<u64>,
    /// How many silences or rounds have passed.
    pub counted: u32,
    /// How long the next pause is, in milliseconds: 20 to 320.
    pub pause: u64,
    /// For how many milliseconds nothing new was said.
    pub silent: u64,
    /// The number of the round of asking.
    pub round: u64,
    /// The shards that were asked in this round, a bit each.
    pub asked: u64,
    /// The shards that have said in this round that it is under way, a bit each.
    pub heard: u64,
    /// A shard has said that the transaction is decided.
    pub decided: bool,
}

impl Patience {
    /// Begins to wait. `most` counts silences or rounds, and `give_up` is in milliseconds.
    pub fn new(most: u32, give_up: Option<u64>) -> Patience
        ensures { (result.most ≡ most) × (result.give_up ≡ give_up) × (result.counted ≡ 0) }
    {
        Patience {
            most,
            give_up,
            counted: 0,
            pause: PAUSE,
            silent: 0,
            round: 0,
            asked: 0,
            heard: 0,
            decided: false,
        }
    }

    /// Begins anew, in a round of its own: what was said in an earlier one does not count.
    pub fn anew(self) -> Patience
        ensures { (result.most ≡ self.most) × (result.give_up ≡ self.give_up)
            × (result.counted ≡ 0) }
    {
        Patience {
            round: self.round.saturating_add(1),
            ..Patience::new(self.most, self.give_up)
        }
    }

    /// Notes that an answer was heard: by progress it begins anew.
    pub fn answered(self) -> Patience
        ensures progress { result.give_up ≡ self.give_up }
    {
        match self.give_up {
            Some(_) => self.anew(),
            None => self,
        }
    }

    /// Makes it wait, by progress, until nothing new was said for `give_up` milliseconds, whatever the rounds come to. If the transaction is
    /// decided, the time that it waited before counts too.
    pub fn insistent(self) -> Patience
        ensures { (result.give_up ≡ self.give_up) × (result.counted ≡ 0) }
    {
        let anew = self.anew();
        match self.give_up {
            Some(_) => Patience {
                most: u32::MAX,
                silent: if self.decided { self.silent } else { 0 },
                decided: self.decided,
                ..anew
            },
            None => anew,
        }
    }

    /// Notes that a shard is asked again. Returns the number of the round, which the shard says with its word: by progress alone.
    pub fn asks(&mut self, shard: ShardNo) -> Option<u64> {
        let _most = self.give_up?;
        self.asked |= bit(shard);
        Some(self.round)
    }

    /// Notes that a shard has said that what was sent again is under way. Once it is decided, no lock and no vote keeps it from its end.
    pub fn assured(&mut self, under_way: &UnderWay)
        ensures same { (self.new.most ≡ self.old.most) × (self.new.give_up ≡ self.old.give_up) }
        ensures alive { under_way.now.decided ≡ false → self.new.silent ≡ 0 }
        ensures new { self.old.decided ≡ false → self.new.silent ≡ 0 }
        ensures decided { under_way.now.decided ≡ true → self.new.counted ≡ 0 }
    {
        if !(under_way.decided && self.decided) {
            self.silent = 0;
        }
        if under_way.decided {
            self.decided = true;
            self.counted = 0;
            self.asked = 0;
            self.heard = 0;
            return;
        }
        if under_way.round == self.round {
            self.heard |= bit(under_way.shard);
            if self.is_round_over() {
                self.pause = PAUSE;
            }
        }
    }

    // All that were asked in this round have said that it is under way.
    fn is_round_over(&self) -> bool {
        self.asked != 0 && self.asked & self.heard == self.asked
    }

    /// Notes that a pause has passed in silence. Returns whether that is enough. By progress it is only if all who were asked have said that
    /// it waits, or if nobody has said anything new for `give_up` milliseconds.
    pub fn is_over(&mut self) -> bool
        ensures same { (self.new.most ≡ self.old.most) × (self.new.give_up ≡ self.old.give_up) }
        ensures progress { (give_up : ℕ) → self.old.give_up ≡ Some give_up → result ≡ true
            → (give_up ≤ self.new.silent) ⊎ (self.new.most ≤ self.new.counted + 1) }
    {
        self.silent = self.silent.saturating_add(self.pause);
        let Some(give_up) = self.give_up else {
            self.counted = self.counted.saturating_add(1);
            return self.counted >= self.most;
        };
        if self.is_round_over() {
            self.counted = self.counted.saturating_add(1);
            self.round = self.round.saturating_add(1);
            self.asked = 0;
            self.heard = 0;
            self.pause = PAUSE;
            return self.counted.saturating_add(1) >= self.most;
        }
        self.pause = self.pause.saturating_mul(2).min(LONGEST);
        self.silent >= give_up
    }
}

// The bit of a shard.
fn bit(shard: ShardNo) -> u64 {
    1 << (u32::from(shard.number()) % 64)
}
