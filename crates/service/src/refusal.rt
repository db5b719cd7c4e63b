//! Why `make` or `serve` is refused.
ghost use Rattle.std.specs.Prelude.{◌≡◌};

use commands::Files;
use filedisk::Cause;
use service_words::explanation;
use std::alloc::{AllocError, Global};
use store::{Refused, RefusedIn};
use units::Fault;

/// Why a command is refused: the fault, and what is told after it, if that is known: the file in which it lies, or what is wrong with the
/// words.
#[derive(Drop)]
pub struct Refusal {
    pub fault: Fault,
    pub told: Option<String>,
}

impl Refusal {
    /// Refuses words: tells what is wrong with them, and how their command is called.
    pub fn of_words(alloc: Global, words: &[&str], fault: Fault) -> Refusal {
        let told = match fault {
            Fault::Memory => None,
            _ => explanation(alloc, words, fault).ok(),
        };
        Refusal { fault, told }
    }

    /// Refuses a file or a folder, as `Device`: tells why the system does, or what stands there.
    pub fn at(alloc: Global, path: &str, cause: Cause) -> Refusal {
        Refusal {
            fault: Fault::Device,
            told: format!(in alloc; "--> {path}: {cause}").ok(),
        }
    }

    /// Refuses the manifest of the store in a folder: tells why, if it is known.
    pub fn of_manifest<F: Files>(alloc: Global, files: &F, dir: &str, fault: Fault) -> Refusal {
        let told = match fault {
            Fault::Memory => None,
            _ => in_manifest(alloc, files, dir),
        };
        Refusal { fault, told }
    }

    /// Refuses the store in a folder, or to make one there: tells which file is refused, and why.
    pub fn of_store(alloc: Global, dir: &str, refused: Refused) -> Refusal
        ensures { result.fault ≡ refused.fault }
    {
        let fault = refused.fault;
        let told = match fault {
            Fault::Memory => None,
            _ => in_store(alloc, dir, refused),
        };
        Refusal { fault, told }
    }
}

fn in_manifest<F: Files>(alloc: Global, files: &F, dir: &str) -> Option<String> {
    let manifest = format!(in alloc; "{dir}/store.toml").ok()?;
    match files.why(alloc, &manifest) {
        Some(why) => format!(in alloc; "--> {manifest}: {why}").ok(),
        None => format!(in alloc; "--> {manifest}").ok(),
    }
}

// In the file that is refused, else somewhere in the folder.
fn in_store(alloc: Global, folder: &str, refused: Refused) -> Option<String> {
    let told = RefusedIn { folder, refused };
    format!(in alloc; "--> {told}").ok()
}

impl From<Fault> for Refusal {
    ghost use Rattle.std.specs.Prelude.{◌≡◌};

    ghost from_gives = { λ fault refusal. refusal.fault ≡ fault };

    fn from(fault: Fault) -> Refusal {
        Refusal { fault, told: None }
    }
}

impl From<AllocError> for Refusal {
    ghost use Rattle.std.specs.Prelude.{◌≡◌};
    ghost use Rattle.units.specs.declared.fault.Fault.TheVariants.{Memory};

    ghost from_gives = { λ error refusal. refusal.fault ≡ Memory };

    fn from(_error: AllocError) -> Refusal {
        Refusal::from(Fault::Memory)
    }
}
