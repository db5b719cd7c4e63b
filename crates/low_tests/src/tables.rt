//! The lock table: who is granted, who waits, who is ended, and who is ready.
use crate::checks::{Row, go_over};
use crate::crowd::{Gets, comes_to};
use crate::ids::needs;
use crate::tokens::{Acts, enters, leaves, release_all};
use locks::{Held, Table};
use made::{WrongRows, id, key};
use std::alloc::Global;
use units::Mode;

// What a transaction does.
enum Does {
    // It asks for `a`, and gets this.
    Asks(Mode, Gets),
    // From now on nobody ends it.
    BecomesFirm,
    GivesItsWaitUp,
    // It is ready, and gets what it waits for.
    GoesOn,
    IsReleased,
}

// What 1.number does, and who is ready then.
struct Step {
    number: u16,
    does: Does,
    ready: Option<u16>,
}

/// What happens to a new table.
pub struct Story {
    name: &'static str,
    steps: &'static [Step],
}

static STORIES: [Story; 5] = [
    // 1.1 holds a shared. 1.3 asks for it exclusive and waits, 1.2 asks for it shared and is granted. When 1.1 is released
    // nobody is ready; when 1.2 is released 1.3 is.
    Story {
        name: "wait for sharers",
        steps: &[
            Step {
                number: 1,
                does: Does::Asks(Mode::Shared, Gets::Granted),
                ready: None,
            },
            Step {
                number: 3,
                does: Does::Asks(Mode::Exclusive, Gets::Waits),
                ready: None,
            },
            Step {
                number: 2,
                does: Does::Asks(Mode::Shared, Gets::Granted),
                ready: None,
            },
            Step {
                number: 1,
                does: Does::IsReleased,
                ready: None,
            },
            Step {
                number: 2,
                does: Does::IsReleased,
                ready: Some(3),
            },
        ],
    },
    // 1.1 and 1.2 hold a shared. 1.1 asks for it exclusive and wounds 1.2, and nothing is changed: nobody waits, and 1.2 is
    // granted what it holds once more.
    Story {
        name: "wound a sharer",
        steps: &[
            Step {
                number: 1,
                does: Does::Asks(Mode::Shared, Gets::Granted),
                ready: None,
            },
            Step {
                number: 2,
                does: Does::Asks(Mode::Shared, Gets::Granted),
                ready: None,
            },
            Step {
                number: 1,
                does: Does::Asks(Mode::Exclusive, Gets::Wounds),
                ready: None,
            },
            Step {
                number: 2,
                does: Does::Asks(Mode::Shared, Gets::Granted),
                ready: None,
            },
        ],
    },
    // 1.2 holds a shared, and 1.1 wounds it. When 1.2 is released the same request is granted.
    Story {
        name: "ask once more",
        steps: &[
            Step {
                number: 2,
                does: Does::Asks(Mode::Shared, Gets::Granted),
                ready: None,
            },
            Step {
                number: 1,
                does: Does::Asks(Mode::Exclusive, Gets::Wounds),
                ready: None,
            },
            Step {
                number: 2,
                does: Does::IsReleased,
                ready: None,
            },
            Step {
                number: 1,
                does: Does::Asks(Mode::Exclusive, Gets::Granted),
                ready: None,
            },
        ],
    },
    // 1.2 is firm and holds a exclusive. 1.1 asks for it shared and waits. When 1.2 is released 1.1 is ready, goes on, and
    // holds a, so that 1.3 waits for it.
    Story {
        name: "wait for a firm one",
        steps: &[
            Step {
                number: 2,
                does: Does::Asks(Mode::Exclusive, Gets::Granted),
                ready: None,
            },
            Step {
                number: 2,
                does: Does::BecomesFirm,
                ready: None,
            },
            Step {
                number: 1,
                does: Does::Asks(Mode::Shared, Gets::Waits),
                ready: None,
            },
            Step {
                number: 2,
                does: Does::IsReleased,
                ready: Some(1),
            },
            Step {
                number: 1,
                does: Does::GoesOn,
                ready: None,
            },
            Step {
                number: 3,
                does: Does::Asks(Mode::Exclusive, Gets::Waits),
                ready: None,
            },
        ],
    },
    // 1.1 holds a exclusive, 1.2 waits for it and gives the wait up, so that nobody is ready when 1.1 is released.
    Story {
        name: "give a wait up",
        steps: &[
            Step {
                number: 1,
                does: Does::Asks(Mode::Exclusive, Gets::Granted),
                ready: None,
            },
            Step {
                number: 2,
                does: Does::Asks(Mode::Shared, Gets::Waits),
                ready: None,
            },
            Step {
                number: 2,
                does: Does::GivesItsWaitUp,
                ready: None,
            },
            Step {
                number: 1,
                does: Does::IsReleased,
                ready: None,
            },
        ],
    },
];

// Lets a transaction do a step, and tells whether it goes as wanted, if the transaction is in the table.
fn goes(table: &mut Table, alloc: Global, tokens: &mut Vec<Held>, step: &Step) -> bool {
    let number = step.number;
    let act = match step.does {
        Does::Asks(mode, wanted) => {
            let needs = needs(key(b'a'), mode);
            return comes_to(table, alloc, tokens, number, Acts::Asks(&needs), wanted);
        }
        Does::BecomesFirm => Acts::BecomesFirm,
        Does::GivesItsWaitUp => Acts::GivesItsWaitUp,
        Does::GoesOn => Acts::GoesOn,
        Does::IsReleased => {
            let sits = table.has(id(number));
            leaves(table, tokens, number);
            return sits;
        }
    };
    comes_to(table, alloc, tokens, number, act, Gets::Granted)
}

// The story of 1.1, 1.2 and 1.3, in a new table.
impl Row for Story {
    fn tell(&self, wrong: &mut WrongRows, rt: &HostRuntime) {
        let alloc = rt.alloc();
        let (mut table, mut tokens) = (Table::new(alloc), Vec::new(alloc));
        let mut told = true;
        for number in 1..4 {
            told = enters(&mut table, alloc, &mut tokens, number) && told;
        }
        for step in self.steps {
            let ready = match step.ready {
                Some(number) => Some(id(number)),
                None => None,
            };
            told = goes(&mut table, alloc, &mut tokens, step) && told && table.ready() == ready;
        }
        release_all(&mut table, tokens);
        drop(table);
        wrong.unless(told, self.name);
    }
}

/// Checks the stories of lock tables.
pub fn tell_stories(wrong: &mut WrongRows, rt: &HostRuntime) {
    go_over(wrong, rt, "the lock table", &STORIES);
}
