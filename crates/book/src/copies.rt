//! Copies of inputs and outboxes.
ghost use Rattle.std.specs.Prelude.{◌≡◌, IfOk, IfErr};

use message::{Envelope, Input, Outbox};
use std::alloc::Global;
use units::Fault;

// An equal input with memory of its own.
pub(crate) fn copy_input(alloc: Global, input: &Input) -> Result<Input, Fault>
    ensures same { IfOk result (λ copied. copied ≡ input.now) }
    ensures memory { IfErr result (λ fault. fault ≡ Fault.Memory) }
{
    match input {
        Input::Deliver(message) => Ok(Input::Deliver(message.copy(alloc)?)),
        Input::Resume => Ok(Input::Resume),
        Input::Settle(txn) => Ok(Input::Settle(*txn)),
        Input::Advance(to) => Ok(Input::Advance(*to)),
        Input::Forget(at) => Ok(Input::Forget(*at)),
        Input::Retire(below) => Ok(Input::Retire(*below)),
        Input::Nudge(txn) => Ok(Input::Nudge(*txn)),
    }
}

// Equal messages with memory of their own.
pub(crate) fn copy_outbox(alloc: Global, outbox: &Outbox) -> Result<Outbox, Fault>
    ensures same { IfOk result (λ copied. copied ≡ outbox.now) }
    ensures memory { IfErr result (λ fault. fault ≡ Fault.Memory) }
{
    let mut envelopes = Vec::new(alloc);
    for envelope in outbox.as_slice() {
        envelopes.push(copy_envelope(alloc, envelope)?)?;
    }
    Ok(Outbox::from_vec(envelopes))
}

fn copy_envelope(alloc: Global, envelope: &Envelope) -> Result<Envelope, Fault>
    ensures same { IfOk result (λ copied. copied ≡ envelope.now) }
    ensures memory { IfErr result (λ fault. fault ≡ Fault.Memory) }
{
    Ok(Envelope {
        to: envelope.to,
        message: envelope.message.copy(alloc)?,
    })
}
