//! The versions that a horizon leaves, in a list of their own.
ghost use Rattle.std.specs.Prelude.{◌≡◌, ℕ, ◌+◌, ◌<◌, ◌≤◌, ◌++◌, ◌∷◌, [], length, vec_len, vec_capacity, IfOk, IfErr, OnOk};
ghost use Rattle.versions.specs.Arranged.{arranged, AreWithin};
ghost use Rattle.versions.specs.Gathered.{StandInOrder};
ghost use Rattle.versions.specs.Ordered.{AscendsByVersion};
ghost use Rattle.versions.specs.Orders.{Orders};
ghost use Rattle.versions.specs.Pruned.{pruned};

use crate::copying::copy_install;
use crate::forgetting::is_passed_in;
use crate::placed::Places;
use std::alloc::Global;
use units::{Fault, Install, Stamp};

/// Copies the versions that a horizon leaves: of each key the newest that is not above it, and all that are. They share their values. They
/// stand in order by key and timestamp, each in its place. It takes one pass.
pub fn copy_held(
    alloc: Global,
    installs: &[Install],
    places: &Places,
    horizon: Stamp,
) -> Result<(Vec<Install>, Places), Fault>
    requires { (before : ℕ) × Orders before installs.now (length installs.now) places.now }
    ensures held { IfOk result (λ held. held.0.items ≡
        pruned horizon (arranged installs.now places.now.places)) }
    ensures orders { IfOk result (λ held. (from : ℕ)
        → Orders from held.0.items (length held.0.items) held.1) }
    ensures memory { IfErr result (λ fault. fault ≡ Fault.Memory) }
{
    let (held, order) = held_with_room(alloc, installs, places, horizon, 0)?;
    Ok((held, order))
}

/// Copies them (`copy_held`) with room for as many as it leaves out, and for so many more.
pub(crate) fn held_with_room(
    alloc: Global,
    installs: &[Install],
    places: &Places,
    horizon: Stamp,
    room: usize,
) -> Result<(Vec<Install>, Places), Fault>
    requires within { AreWithin places.now.places (length installs.now) }
    requires order { AscendsByVersion (arranged installs.now places.now.places) }
    ensures held { IfOk result (λ held. held.0.items ≡
        pruned horizon (arranged installs.now places.now.places)) }
    ensures order { IfOk result (λ held. StandInOrder held.0.items held.1) }
    ensures room { IfOk result (λ held. (length places.now.places + room ≤ vec_capacity held.0)
        × (length places.now.places + room ≤ length held.0.items + held.1.room)) }
    ensures fewer { IfOk result (λ held. length held.0.items ≤ length places.now.places) }
    ensures memory { IfErr result (λ fault. fault ≡ Fault.Memory) }
{
    let Some(all) = places.len().checked_add(room) else {
        return Err(Fault::Memory);
    };
    let mut held = Vec::with_capacity(alloc, all)?;
    let mut order = places.beside(alloc);
    order.reserve(all)?;
    let list = places.list(alloc)?;
    for at in 0..list.len() {
        if is_passed_in(installs, &list, at, horizon) {
            continue;
        }
        add_last(&mut held, &mut order, &installs[list[at]])?;
    }
    Ok((held, order))
}

// Adds a copy of a version at the end, and its place. There is room.
fn add_last(
    versions: &mut Vec<Install>,
    places: &mut Places,
    install: &Install,
) -> Result<(), Fault>
    requires order { StandInOrder versions.old.items places.old }
    requires room { (vec_len versions.old < vec_capacity versions.old) × (0 < places.old.room) }
    ensures items { OnOk result (versions.new.items ≡ versions.old.items ++ install.now ∷ []) }
    ensures order { OnOk result (StandInOrder versions.new.items places.new) }
    ensures room { OnOk result ((places.new.room + 1 ≡ places.old.room)
        × (vec_capacity versions.new ≡ vec_capacity versions.old)) }
    ensures prefix { OnOk result (places.new.prefix ≡ places.old.prefix) }
    ensures memory { IfErr result (λ fault. fault ≡ Fault.Memory) }
{
    let copy = copy_install(install)?;
    let at = versions.len();
    let head = places.head_of(&copy.key);
    versions.push_reserved(copy);
    places.insert(at, at, head);
    Ok(())
}
