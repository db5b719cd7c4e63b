//! A transaction whose end nobody told.
ghost use Rattle.std.specs.Prelude.{◌≡◌};

use session::{Quitting, Tx};
use units::TxnId;

/// A transaction that closed, and was given up since nobody told how it ended. It keeps what it asked of its shards, so that they can be asked
/// again.
pub struct InDoubt<'s> {
    /// Its session, which is over.
    pub tx: Tx<'s, Quitting>,
}

impl Drop for InDoubt<'_> {
    fn drop(self) {
        let InDoubt { tx } = self;
        tx.spend();
    }
}

impl InDoubt<'_> {
    /// Gives the id of the transaction.
    pub fn txn(&self) -> TxnId
        ensures { result ≡ self.now.tx.client.txn }
    {
        self.tx.txn()
    }
}
