//! What markup tokenizers share: names and attributes, the queue of the text that waits, sets of
//! characters, and what character references stand for.
#![tactic(auto)]

pub mod blocks;
pub mod buffer_queue;
pub mod data;
pub mod interface;
pub mod small_char_set;
pub mod text;
pub mod tokenizer_result;

pub use crate::buffer_queue::{BufferQueue, Case, SetResult};
pub use crate::data::{NamedReferences, TableError};
pub use crate::interface::{Attribute, LocalName, Namespace, Prefix, QualName};
pub use crate::small_char_set::SmallCharSet;
pub use crate::tokenizer_result::TokenizerResult;
