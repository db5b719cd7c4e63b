//! Every message ever put out, in order.
ghost use Rattle.std.specs.Prelude.{◌≡◌, ◌++◌, ◌∷◌, [], length, slice_get, IfOk, IfErr, OnErr};
ghost use Rattle.std.specs.Option.{option_copied};

use crate::Envelope;
use std::alloc::Global;
use std::marker::Model;
use units::Fault;

/// The messages that were put out, each with its number, from 0. A network may deliver each never, once or again, in any
/// order, so none is ever taken out or altered.
pub struct Bag {
    envelopes: Vec<Envelope>,
}

impl Drop for Bag {
    fn drop(self) {
        let Bag { envelopes: _ } = self;
    }
}

impl Model for Bag {
    ghost use Rattle.std.specs.Prelude.{List};
    ghost use Rattle.message.specs.declared.message.Envelope.{Envelope};

    ghost Value = { List Envelope };

    ghost view = { λ b. b.envelopes.items };
}

impl Bag {
    /// Makes a bag without a message.
    pub fn new(alloc: Global) -> Bag
        ensures { result ≡ [] }
    {
        Bag {
            envelopes: Vec::new(alloc),
        }
    }

    /// Adds a message after all others and returns its number. `Memory` leaves the bag as it was.
    pub fn put(&mut self, envelope: Envelope) -> Result<u64, Fault>
        ensures number { IfOk result (λ number. number ≡ length self.old) }
        ensures ok { IfOk result (λ number. self.new ≡ self.old ++ envelope ∷ []) }
        ensures err { OnErr result (self.new ≡ self.old) }
        ensures memory { IfErr result (λ fault. fault ≡ Fault.Memory) }
    {
        let number = self.len();
        self.envelopes.push(envelope)?;
        Ok(number)
    }

    /// Returns the message of a number, or `None` if none has that number yet.
    pub fn nth(&self, number: u64) -> Option<&Envelope>
        ensures { option_copied result ≡ slice_get self.now number }
    {
        self.envelopes.get(number as usize)
    }

    /// Returns the messages in order.
    pub fn as_slice(&self) -> &[Envelope]
        ensures { result.now ≡ self.now }
    {
        self.envelopes.as_slice()
    }

    /// Returns the count of messages, which is the number of the next one.
    pub fn len(&self) -> u64
        ensures { result ≡ length self.now }
    {
        self.envelopes.len() as u64
    }
}
