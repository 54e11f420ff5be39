//! What a run of `sums` is to do: the request that the words make, checked once (`Task::of`).
#![tactic(auto)]

pub use derivation::{Derivation, Hkdf};
pub use fault::{TaskFault, UsageFault};
pub use hashing::{Form, Hash, Hashing, Requested, Stretch};
pub use parameters::HmacHash;
pub use parting::{Joining, PartLength, Place};
pub use sharing::SharedFile;
pub use tagging::{Key, Mac, ShortMac, Tagging};
pub use tasks::{Entries, Names, Reporting, Sum, Task, Verdicts};

mod derivation;
mod fault;
mod hashing;
mod parameters;
mod parting;
mod sharing;
mod tagging;
mod tasks;
