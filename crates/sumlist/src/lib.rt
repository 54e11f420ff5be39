//! Lists of digests, as `sha256sum` and similar tools, `b2sum` and `b3sum` write them, with or without
//! `--tag`: their lines, the files that they name, and reports on them.
//!
//! ```rust
//! use sumlist::{Kind, Line, parse_line};
//!
//! let line = b"ba7816bf8f01cfea414140de5dae2223b00361a396177a9cb410ff61f20015ad  abc.txt";
//! match parse_line(alloc, line, Kind::Sha256)? {
//!     Line::Entry(entry) => assert_eq!(rt; entry.name(), "abc.txt"),
//!     Line::Skipped => {}
//! }
//! ```
#![tactic(auto)]

pub use body::{NameText, fill_name};
pub use checking::{CheckFault, check, check_list};
pub use entries::{Entries, MakesTag};
pub use entry::{Entry, EntryFault};
pub use files::FileTree;
pub use filling::{FillFault, entry_len, fill_entry, fill_verdict, verdict_len};
pub use fitting::{LINE_LIMIT, fits, tagged_fits};
pub use hashes::{Kind, Share};
pub use labelled::{TaggedFault, write_tagged, write_tagged_line};
pub use laws::{line_laws, report_laws, share_laws};
pub use line::{Line, LineFault, Said, parse_line, split_line};
pub use lines::split_at_byte;
pub use look::Look;
pub use map::map_laws;
pub use memory::MemoryTree;
pub use name_reader::NameReader;
pub use report::{write_summary, write_verdict};
pub use report_reader::ReportReader;
/// Why a text was not written whole: a beginning of it was written.
pub use source::WriteFailed as WriteFault;
pub use summary::Summary;
pub use telling::{TellFault, tell_list};
pub use tree::{OpenFault, Tree};
pub use verdict::Verdict;
pub use writing::{write_end, write_entry, write_lead};

mod body;
mod checking;
mod entries;
mod entry;
mod escaping;
mod fields;
mod files;
mod filling;
mod fitting;
mod labelled;
mod labels;
mod laws;
mod line;
mod line_buffer;
mod line_reader;
mod lines;
mod look;
mod map;
mod memory;
mod name_reader;
mod report;
mod report_reader;
mod summary;
mod telling;
mod tree;
mod verdict;
mod writing;
