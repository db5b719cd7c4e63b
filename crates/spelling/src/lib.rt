//! The one spelling of each record as bytes.
#![tactic(auto)]

mod length;
mod reading;
mod unread;
mod writing;

pub use length::encoded_len;
pub use reading::decode;
pub use record::Record;
pub use writing::{encode, encode_into, none_begins_another};
