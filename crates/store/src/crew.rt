//! What clients are made of.
ghost use Rattle.std.specs.Prelude.{◌≡◌, ◌++◌, ◌∷◌, [], All, IfErr, IfOk, IfSome};
ghost use Rattle.board.specs.Dealing.{lists_of};
ghost use Rattle.store.specs.Attempts.{IsFresh};

use crate::clients::Client;
use crate::shared::Shared;
use crate::steady::{ClientClock, StoreClock};
use crate::view::MOST_BYTES;
use board::Viewers;
use client::Wires;
use crossbeam_channel::Receiver;
use letters::Reply;
use tickets::Drawer;
use units::Fault;

/// What clients are made of, one of each for each client: inboxes by the clients' numbers, drawers, and viewers of each shard.
#[derive(Drop)]
pub struct Crew {
    pub inboxes: Vec<Receiver<Reply>>,
    pub drawers: Vec<Drawer>,
    pub viewers: Viewers,
}

impl Crew {
    // The client of the last number that has none yet.
    fn next<'s, R>(
        &mut self,
        rt: &'s R,
        shared: &'s Shared,
        room: Box<[u8; MOST_BYTES]>,
        clock: StoreClock<'s, R>,
        patience: u32,
    ) -> Option<Client<'s, R>>
        requires { All (λ drawer. drawer.source ≡ shared.now.ids) self.old.drawers.items }
        ensures drawers { All (λ drawer. drawer.source ≡ shared.now.ids) self.new.drawers.items }
        ensures client { IfSome result
            (λ client. IsFresh shared.now.run shared.now.splits
            clock.entry.machine.epsilon clock.entry.from (client.viewers ∷ []) client
            × (client.drawing.source ≡ shared.now.ids)) }
        ensures viewers { IfSome result (λ client.
            lists_of self.old.viewers ≡ lists_of self.new.viewers ++ client.viewers ∷ []) }
    {
        let inbox = self.inboxes.pop()?;
        let number = self.inboxes.len();
        let drawer = self.drawers.pop()?;
        let viewers = self.viewers.by_worker.pop()?;
        Some(Client {
            rt,
            shared,
            inbox,
            number,
            drawer,
            past: Wires::none(),
            viewers,
            renewed: 0,
            room,
            clock: ClientClock::new(clock),
            patience,
            doubts: Vec::new(shared.alloc),
        })
    }
}

/// The clients, as many as there are inboxes. Each is of the run and the splits that they share, draws from their one
/// source, has the clock, and has made no attempt. Its viewers are one of the lists of the crew.
pub fn clients_of<'s, R>(
    rt: &'s R,
    shared: &'s Shared,
    crew: Crew,
    clock: StoreClock<'s, R>,
    patience: u32,
) -> Result<Vec<Client<'s, R>>, Fault>
    requires { All (λ drawer. drawer.source ≡ shared.now.ids) crew.drawers.items }
    ensures clients { IfOk result (λ clients. All (λ client.
        IsFresh shared.now.run shared.now.splits
        clock.entry.machine.epsilon clock.entry.from (lists_of crew.viewers) client
        × (client.drawing.source ≡ shared.now.ids)) clients.items) }
    ensures refused { IfErr result (λ fault. fault ≡ Fault.Memory) }
{
    let mut crew = crew;
    let mut clients = Vec::new(shared.alloc);
    for _client in 0..crew.inboxes.len() {
        let room = Box::new(shared.alloc, [0; MOST_BYTES])?;
        let Some(client) = crew.next(rt, shared, room, clock, patience) else {
            break;
        };
        clients.push(client)?;
    }
    drop(crew);
    Ok(clients)
}
