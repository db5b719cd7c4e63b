//! The accounts and their balances.
ghost use Rattle.std.specs.Prelude.{◌≡◌, ◌⊎◌, ◌≤◌, ◌<◌, ◌+◌, ◌-◌, ◌^◌, IfNone, IfSome};

use std::sync::Wait;
use std::time;
use store::{Client, Ended, Fault, Halt, Key, Transaction, View};

/// How many accounts there are.
pub const ACCOUNTS: u32 = 16;

/// What each account has at the beginning.
pub const START: u64 = 1000;

/// Gives the key of an account.
pub fn key_of(account: u32) -> Result<Key, Fault> {
    let tens = b'0' + (account / 10 % 10) as u8;
    let ones = b'0' + (account % 10) as u8;
    Key::new(&[b'a', b'c', b'c', b't', b'-', tens, ones])
}

/// Why no money is moved: an account has too little, or would have too much.
#[derive(Clone, Copy, PartialEq, Eq)]
pub struct OutOfRange;

/// Why the accounts are not opened: they are open.
#[derive(Clone, Copy, PartialEq, Eq)]
pub struct AreOpen;

/// How often it tries to open the accounts while nobody tells how that ended, as on a machine that has much else to do.
const OPENINGS: u32 = 50;

/// Opens all accounts in one transaction, each with `START`, unless the first is there already. It tries at most 50 times, and says whether
/// they are open.
pub fn open_accounts<R: Wait + time::Clock>(client: &mut Client<'_, R>) -> Result<bool, Fault> {
    for _opening in 0..OPENINGS {
        match open_once(client)? {
            Ended::Committed { .. } | Ended::Abandoned(AreOpen) => return Ok(true),
            Ended::Aborted { .. } | Ended::Unknown { .. } => {}
        }
    }
    Ok(false)
}

// The same, once.
fn open_once<R: Wait + time::Clock>(
    client: &mut Client<'_, R>,
) -> Result<Ended<(), AreOpen>, Fault> {
    client.transact(
        100,
        |tx: &mut Transaction<'_, R>| -> Result<(), Halt<AreOpen>> {
            if tx.get(&key_of(0)?)?.is_some() {
                return Err(Halt::Abandon(AreOpen));
            }
            for account in 0..ACCOUNTS {
                tx.put_as(&key_of(account)?, &START)?;
            }
            Ok(())
        },
    )
}

/// Computes what two accounts have once an amount has gone from the first to the second: as much together as before. `None` if the first has
/// too little, or the second would have too much.
pub fn moved(has: u64, gets: u64, amount: u64) -> Option<(u64, u64)>
    ensures moved { IfSome result (λ left. (amount ≤ has) × (left.0 ≡ has - amount)
        × (left.1 ≡ gets + amount)) }
    ensures even { IfSome result (λ left. left.0 + left.1 ≡ has + gets) }
    ensures none { IfNone result ((has < amount) ⊎ (2 ^ 64 ≤ gets + amount)) }
{
    if amount > has || amount > u64::MAX - gets {
        return None;
    }
    Some((has - amount, gets + amount))
}

/// Moves money from one account to another, in at most 50 attempts. Gives what the first has then. Both keep what they have if `moved` gives
/// nothing.
pub fn transfer<R: Wait + time::Clock>(
    client: &mut Client<'_, R>,
    from: u32,
    to: u32,
    amount: u64,
) -> Result<Ended<u64, OutOfRange>, Fault> {
    let from = key_of(from)?;
    let to = key_of(to)?;
    client.transact(
        50,
        |tx: &mut Transaction<'_, R>| -> Result<u64, Halt<OutOfRange>> {
            let has = tx.get_as::<u64>(&from)?.unwrap_or(0);
            let gets = tx.get_as::<u64>(&to)?.unwrap_or(0);
            let Some((left, more)) = moved(has, gets, amount) else {
                return Err(Halt::Abandon(OutOfRange));
            };
            tx.put_as(&from, &left)?;
            tx.put_as(&to, &more)?;
            Ok(left)
        },
    )
}

/// Adds up what all accounts have in a view.
pub fn total<R: Wait + time::Clock>(view: &mut View<'_, '_, R>) -> Result<u64, Fault> {
    let mut total = 0_u64;
    for account in 0..ACCOUNTS {
        let has = view.get_as::<u64>(&key_of(account)?)?.unwrap_or(0);
        total = total.saturating_add(has);
    }
    Ok(total)
}
