//! What the words of the commands over an open store ask for: `make`, `serve`, `export`, `import`, `backup` and `renew`.
#![tactic(auto)]

mod choices;
mod explaining;
mod move_words;
mod options;
mod words;

pub use choices::Choices;
pub use explaining::explanation;
pub use words::{Asked, service_asked};
