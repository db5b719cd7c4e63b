//! Requests of rows for one key.
ghost use Rattle.std.specs.Prelude.{◌≡◌, [], ◌∷◌};

use rows::{Rows, Wait};
use std::alloc::Global;
use units::{Key, Lock, Mode, TxnId};

/// Makes a need of one key.
pub fn needs(key: Key, mode: Mode) -> [Lock; 1]
    ensures { result ≡ record { key = key; mode = mode } ∷ [] }
{
    [Lock { key, mode }]
}

/// Takes in a transaction that has no row.
pub fn admits(rows: &mut Rows, alloc: Global, txn: TxnId) -> bool {
    rows.find(txn).is_none() && !rows.is_full() && rows.admit(alloc, txn).is_ok()
}

/// Asks for a key, and tells whether it is granted. If it is not, a transaction that only reads the key waits for it.
pub fn ask(rows: &mut Rows, alloc: Global, txn: TxnId, key: Key, mode: Mode) -> Option<bool> {
    if !rows.is_reading(txn) {
        return None;
    }
    let needs = needs(key, mode);
    let Ok(()) = rows.make_room(txn, 1) else {
        return None;
    };
    let Ok(ended) = rows.wounded(alloc, txn, &needs) else {
        return None;
    };
    let opens = rows.opens(txn, &needs);
    if opens {
        rows.grant(txn, ended.as_slice(), &needs);
    } else if matches!(mode, Mode::Shared) {
        rows.wait(txn, ended.as_slice(), &needs, Wait::Read(key));
    }
    drop(ended);
    Some(opens)
}
