//! Threads that serve nodes.
ghost use Rattle.std.specs.Prelude.{◌≡◌, IfErr};
ghost use Rattle.std.specs.Thread.{IsSync, IsSend};

use crate::gate::Gate;
use crate::letter::{Letter, Post};
use crate::network::{Mail, Network};
use crate::serves::{Serves, serve};
use crossbeam_channel::Receiver;
use std::alloc::Global;
use std::sync::Wait;
use std::thread::{Scope, Threads};
use std::{thread, time};
use truetime::Clock;
use units::Fault;

/// What one node is served with.
#[derive(Drop)]
pub struct Served<'a, N, P, C> {
    /// The node.
    pub node: &'a N,
    /// The letters that it takes.
    pub inbox: Receiver<Letter>,
    /// The post for what it puts out.
    pub post: P,
    /// The clock at whose readings it takes them.
    pub clock: C,
}

/// Puts together what each of some nodes is served with, over a network.
pub fn to_serve<'r, 's, 'n, N, R: Wait, C: Clock + Copy>(
    rt: &'r R,
    alloc: Global,
    network: &'s Network,
    nodes: &'n [N],
    inboxes: Vec<Receiver<Letter>>,
    clock: C,
) -> Result<Vec<Served<'n, N, Mail<'r, 's, R>, C>>, Fault>
    ensures { IfErr result (λ fault. fault ≡ Fault.Memory) }
{
    let mut all = Vec::new(alloc);
    for (node, inbox) in nodes.iter().zip(inboxes) {
        all.push(Served {
            node,
            inbox,
            post: Mail { rt, network },
            clock,
        })?;
    }
    Ok(all)
}

/// Starts a thread of a scope for each node, which serves it. Returns whether all have started.
pub fn start_in<
    's,
    'e,
    N: Serves + Sync,
    W: Threads + Wait + time::Clock + Sync,
    P: Post + Send + Drop + 'e,
    C: Clock + Send + Drop + 'e,
    G: Gate + Sync,
>(scope: &'s Scope<'s, &'e ()>, rt: &'e W, served: Vec<Served<'e, N, P, C>>, gate: &'e G) -> bool {
    let mut all = true;
    for one in served {
        let Served {
            node,
            inbox,
            mut post,
            mut clock,
        } = one;
        let spawned = scope.spawn(move || serve(node, rt, &inbox, &mut post, &mut clock, gate));
        if spawned.is_err() {
            all = false;
        }
    }
    all
}

/// Serves each node on a thread of its own, until all have ended. If a thread does not start, the others are served, and then it is refused
/// as `Memory`.
pub fn start<
    N: Serves + Sync,
    W: Threads + Wait + time::Clock + Sync,
    P: Post + Send + Drop,
    C: Clock + Send + Drop,
    G: Gate + Sync,
>(rt: &W, served: Vec<Served<N, P, C>>, gate: &G) -> Result<(), Fault>
    ensures { IfErr result (λ fault. fault ≡ Fault.Memory) }
{
    let all = thread::scope(
        thread::scope_env(),
        rt,
        |scope| -> bool
            requires { IsSync W.row × IsSync N.row × IsSend P.row × IsSend C.row × IsSync G.row }
        { start_in(scope, rt, served, gate) },
    );
    if all { Ok(()) } else { Err(Fault::Memory) }
}
