//! A page of a book.
ghost use Rattle.std.specs.Prelude.{◌≡◌, IfOk, IfErr};

use crate::copies::{copy_input, copy_outbox};
use message::{Envelope, Input, Outbox};
use std::alloc::Global;
use std::marker::Model;
use truetime::Reading;
use units::Fault;

/// An accepted input, with the reading of the clock at its arrival and the messages that it put out.
pub struct Page {
    reading: Reading,
    input: Input,
    outbox: Outbox,
}

impl Drop for Page {
    fn drop(self) {
        let Page {
            reading: _,
            input: _,
            outbox: _,
        } = self;
    }
}

impl Model for Page {
    ghost use Rattle.protocol.specs.Replay.{BookEntry};

    ghost Value = { BookEntry };

    ghost view = { λ p. record { input = p.input; now = p.reading; outbox = p.outbox } };
}

impl Page {
    /// Copies an input and its messages into a page. `Memory` if memory runs out.
    pub fn of(alloc: Global, now: &Reading, input: &Input, outbox: &Outbox) -> Result<Page, Fault>
        ensures same { IfOk result
            (λ page. page ≡ record { input = input.now; now = now.now; outbox = outbox.now }) }
        ensures memory { IfErr result (λ fault. fault ≡ Fault.Memory) }
    {
        let input = copy_input(alloc, input)?;
        let outbox = copy_outbox(alloc, outbox)?;
        Ok(Page {
            reading: *now,
            input,
            outbox,
        })
    }

    /// Returns the reading at which the input came.
    pub fn reading(&self) -> Reading
        ensures { result ≡ self.entry.now.now }
    {
        self.reading
    }

    /// Returns the input.
    pub fn input(&self) -> &Input
        ensures { result.now ≡ self.entry.now.input }
    {
        &self.input
    }

    /// Returns the messages that it put out.
    pub fn outbox(&self) -> &[Envelope]
        ensures { result.now ≡ self.entry.now.outbox }
    {
        self.outbox.as_slice()
    }
}
