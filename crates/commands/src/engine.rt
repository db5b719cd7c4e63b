//! What commands ask of shards on threads.
use settings::Settings;
use units::{Key, Splits, Value};

/// What runs shards on the threads of a system: a call that drives shards and workers by some settings, and one that commits a write.
#[derive(Clone, Copy)]
pub struct Engine<D, P> {
    pub run: D,
    pub put: P,
}

/// A drive by some settings, and whether its table is told also without a terminal.
#[derive(Clone, Copy)]
pub struct Drive<'a> {
    pub settings: &'a Settings,
    pub table: bool,
}

/// A write of a value to a key, in the store in a folder, whose keys are parted as its manifest says.
#[derive(Clone, Copy)]
pub struct Put<'a> {
    pub folder: &'a str,
    pub splits: &'a Splits,
    pub key: &'a Key,
    pub value: &'a Value,
}
