//! Why a store is not backed up.
use host_files::Refused;

/// Which folder a backup was refused for.
#[derive(Clone, Copy, PartialEq, Eq)]
pub enum Side {
    /// The folder of the store.
    From,
    /// The folder that gets the copy.
    To,
}

/// Why a store is not backed up: the folder, and what is wrong in it.
#[derive(Clone, Copy)]
pub struct NotBackedUp {
    /// The folder.
    pub side: Side,
    /// The fault, the file and the reason, if these are known.
    pub refused: Refused,
}

impl NotBackedUp {
    /// Refuses the store itself.
    pub fn from_store(refused: Refused) -> NotBackedUp {
        NotBackedUp {
            side: Side::From,
            refused,
        }
    }

    /// Refuses the folder that is to get the copy.
    pub fn to_folder(refused: Refused) -> NotBackedUp {
        NotBackedUp {
            side: Side::To,
            refused,
        }
    }
}
