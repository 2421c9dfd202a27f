//! What a program reads from and writes to, at once or a buffer at a time, and its words. Contracts see
//! how often a device failed.
#![tactic(auto)]

mod fault;
mod logged;
mod printer;
mod reading;
mod words;
mod writing;

pub use crate::fault::Fault;
pub use crate::logged::Logged;
pub use crate::printer::Printer;
pub use crate::reading::{ReadSource, Source, read_to_end};
pub use crate::words::given_words;
pub use crate::writing::{Target, WriteTarget, write_all};
