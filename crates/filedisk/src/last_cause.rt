//! Why a file failed last, for whoever does not have it any more.
use crate::cause::Cause;
use std::alloc::{AllocError, Global};
use std::sync::Arc;
use std::sync::atomic::{AtomicU64, Ordering};

/// Why the last call of a file that failed did so. It tells that also once the file is dropped.
#[derive(Drop)]
pub struct LastCause {
    // The place of the cause in `Cause::ALL`, and one more; 0 if none has failed.
    number: Arc<AtomicU64, Global>,
}

impl LastCause {
    /// Begins with no call that has failed.
    pub fn none(alloc: Global) -> Result<LastCause, AllocError> {
        let number = Arc::new(alloc, AtomicU64::new(0))?;
        Ok(LastCause { number })
    }

    /// Gives the same once more.
    pub fn share(&self) -> Result<LastCause, AllocError> {
        let number = Arc::try_clone(&self.number)?;
        Ok(LastCause { number })
    }

    /// Notes a call that has failed.
    pub fn note(&self, cause: Cause) {
        if let Some(place) = Cause::ALL.iter().position(|known| *known == cause) {
            self.number
                .store((place as u64).saturating_add(1), Ordering::SeqCst);
        }
    }

    /// Gives the cause. `None` means that no call has failed.
    pub fn get(&self) -> Option<Cause> {
        let number = self.number.load(Ordering::SeqCst);
        let place = usize::try_from(number).ok()?.checked_sub(1)?;
        Cause::ALL.get(place).copied()
    }
}
