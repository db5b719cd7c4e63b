//! What a command asks of the system.
use units::{Fault, Verdict};

/// A system: its files, and what runs a drive (shards and workers) on its threads.
#[derive(Clone, Copy)]
pub struct System<F, D> {
    /// Its files.
    pub files: F,
    /// What runs a drive by some settings.
    pub drive: D,
}

/// What came of a drive.
#[derive(Drop)]
pub struct Driven {
    /// The text that the command prints.
    pub text: String,
    /// The verdict on the logs.
    pub verdict: Verdict,
}

/// Why there is no verdict on a drive.
#[derive(Drop)]
pub struct NoVerdict {
    /// The fault that ended the drive.
    pub fault: Fault,
    /// The text with its counts, if its workers have reported.
    pub text: Option<String>,
}

impl From<Fault> for NoVerdict {
    ghost use Rattle.std.specs.Prelude.{◌≡◌, None};

    ghost from_gives = { λ fault none. (none.fault ≡ fault) × (none.text ≡ None) };

    fn from(fault: Fault) -> NoVerdict {
        NoVerdict { fault, text: None }
    }
}
