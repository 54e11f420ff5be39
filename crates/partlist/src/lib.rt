//! Lines that describe parts of a file, hashed separately, by their chaining values.
#![tactic(auto)]

pub use fault::{EndFault, JoinFault, PartFault};
pub use joining::Joiner;
pub use laws::{join_laws, part_line_laws};
pub use line::{parse_part, write_part};
pub use reader::PartReader;

mod fault;
mod joining;
mod laws;
mod line;
mod reader;
