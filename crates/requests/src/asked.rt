//! What a line asks for.
use units::{Key, Stamp, TxnId, Value};

/// A request.
#[derive(Drop)]
pub enum Request {
    /// A transaction begins.
    Begin,
    /// The values of some keys are told: of the transaction, of the view, or of the present.
    Get(Vec<Key>),
    /// A value is written to a key: in the transaction, or by one of its own.
    Put(Key, Value),
    /// A key is erased: in the transaction, or by one of its own.
    Erase(Key),
    /// The transaction closes.
    Commit,
    /// The transaction is given up.
    Abort,
    /// A view of the present is opened.
    View,
    /// A view of this time is opened.
    ViewAt(Stamp),
    /// So many keys are listed at most that have a value in the view: from a key on and, if there is an end, before that one.
    Keys(Key, Option<Key>, u64),
    /// The view ends.
    End,
    /// How a transaction of the client ended is told.
    Outcome(TxnId),
    /// The numbers of the store are told.
    Stats,
    /// What may be asked is told.
    Help,
    /// All that was asked is answered, and the store is closed.
    Quit,
}
