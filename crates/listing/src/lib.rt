//! Lists of digests that are read in pieces of any size, as plain numbers in a caller's memory. Nothing here
//! allocates.
#![tactic(auto)]

pub use laws::list_laws;
pub use line::{LINE_ENTRY, LINE_MALFORMED, LINE_NONE, LINE_SKIPPED, LINE_UNTAGGED, ListLine};
pub use numbers::{alg_numbered, kind_number, kind_numbered, verdict_numbered};
pub use state::{ListFault, ListState};

mod laws;
mod line;
mod numbers;
mod state;
