//! A store is moved: its keys and values as text, out of it and into another one, and its logs, into a copy beside whoever writes to them, or into new
//! files.
#![tactic(auto)]

mod backing_up;
mod copied;
mod exporting;
mod form;
mod importing;
mod moved;
mod places;
mod renewing;

pub use backing_up::backup;
pub use copied::{Uncopied, Whole};
pub use exporting::export;
pub use form::Form;
pub use importing::{Imported, Stop, import};
pub use moved::{NotBackedUp, Side};
pub use places::Places;
pub use renewing::{Sizes, renew, renew_logs};
