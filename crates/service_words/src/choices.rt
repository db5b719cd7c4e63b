//! What is chosen for a store that is served.
use units::Stride;

/// What is chosen for a store that is served: as `Options` of a store, with the milliseconds after which an idle transaction is given up.
#[derive(Clone, Copy)]
pub struct Choices {
    pub clients: u64,
    pub epsilon: u64,
    pub stride: Stride,
    pub keep: Option<u64>,
    pub renew: Option<u64>,
    pub shrink: Option<u64>,
    pub retire: Option<u64>,
    pub patience: u32,
    pub idle: u64,
}
