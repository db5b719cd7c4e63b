//! How a store is served.
ghost use Rattle.std.specs.Prelude.{◌≡◌, IfErr, IfOk};

use service_words::Choices;
use std::alloc::Global;
use store::Options;
use units::{Fault, Splits};

/// The options of a store with these splits.
pub fn options_of(alloc: Global, splits: &Splits, choices: &Choices) -> Result<Options, Fault>
    ensures splits { IfOk result (λ options. options.splits ≡ splits.now) }
    ensures clients { IfOk result (λ options. options.clients ≡ choices.now.clients) }
    ensures times { IfOk result (λ options. (options.epsilon ≡ choices.now.epsilon)
        × (options.stride ≡ choices.now.stride) × (options.patience ≡ choices.now.patience)) }
    ensures logs { IfOk result (λ options. (options.keep ≡ choices.now.keep)
        × (options.renew ≡ choices.now.renew) × (options.shrink ≡ choices.now.shrink)
        × (options.retire ≡ choices.now.retire)) }
    ensures memory { IfErr result (λ fault. fault ≡ Fault.Memory) }
{
    let mut options = Options::new(splits.copy(alloc)?, choices.clients);
    options.stride = choices.stride;
    options.epsilon = choices.epsilon;
    options.patience = choices.patience;
    options.keep = choices.keep;
    options.renew = choices.renew;
    options.shrink = choices.shrink;
    options.retire = choices.retire;
    Ok(options)
}
