//! The messages that one step puts out.
ghost use Rattle.std.specs.Prelude.{◌≡◌, []};

use crate::Envelope;
use std::alloc::Global;
use std::marker::Model;

/// The messages that a step puts out, in order.
pub struct Outbox {
    envelopes: Vec<Envelope>,
}

impl Drop for Outbox {
    fn drop(self) {
        let Outbox { envelopes: _ } = self;
    }
}

impl Model for Outbox {
    ghost use Rattle.std.specs.Prelude.{List};
    ghost use Rattle.message.specs.declared.message.Envelope.{Envelope};

    ghost Value = { List Envelope };

    ghost view = { λ o. o.envelopes.items };
}

impl Outbox {
    /// Makes an outbox without a message.
    pub fn none(alloc: Global) -> Outbox
        ensures { result ≡ [] }
    {
        Outbox {
            envelopes: Vec::new(alloc),
        }
    }

    /// Makes an outbox of these messages, in their order.
    pub fn from_vec(envelopes: Vec<Envelope>) -> Outbox
        ensures { result ≡ envelopes.items }
    {
        Outbox { envelopes }
    }

    /// Returns the messages in order.
    pub fn as_slice(&self) -> &[Envelope]
        ensures { result.now ≡ self.now }
    {
        self.envelopes.as_slice()
    }

    /// Spends the outbox and returns its messages in order.
    pub fn into_vec(self) -> Vec<Envelope>
        ensures { result.items ≡ self }
    {
        let Outbox { envelopes } = self;
        envelopes
    }
}
