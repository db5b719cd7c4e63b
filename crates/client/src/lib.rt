//! What runs one transaction over a network, at its client: it reads, closes, and hears how the transaction ended.
#![tactic(auto)]

mod asking;
mod ended;
mod ending;
mod hearing;
mod in_doubt;
mod patience;
mod reading;
mod stop;
mod wire;
mod wires;

pub use asking::Outcome;
pub use ended::{Ended, Halt};
pub use in_doubt::InDoubt;
pub use reading::seen_stays;
pub use stop::Stop;
pub use wire::Wire;
pub use wires::Wires;
