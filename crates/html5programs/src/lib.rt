//! What programs share that read pages and print what they make of them: words, inputs, messages.
#![tactic(auto)]

mod encoded;
mod ending;
mod entity_lines;
mod files;
mod filter;
mod front;
mod input;
mod lines;
mod messages;
mod output;
mod program;
mod progress;
mod references;
mod running;
mod settings;
mod suggestions;
mod version;
mod words;

pub use crate::ending::Ending;
pub use crate::filter::Filter;
pub use crate::front::Front;
pub use crate::input::Input;
pub use crate::messages::Messages;
pub use crate::output::Output;
pub use crate::program::Program;
pub use crate::progress::{Meter, Meters, TerminalLine};
pub use crate::references::{ReferencesError, read_references, table_of_text};
pub use crate::running::{filter_by_words, print_text, print_version};
pub use crate::settings::Settings;
pub use crate::suggestions::{NoSuch, no_such};
pub use crate::words::{Choice, GivenOption, Words, wants_word, words_of};
