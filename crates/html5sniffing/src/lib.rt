//! Which encoding a page is in, and pages that are read by it.
#![tactic(auto)]

mod front;
mod fronted;
mod lent;
mod meta;
mod opening;
mod page;
mod page_decoder;
mod page_encoding;
mod plain;
mod xml_declaration;

pub use crate::front::{FRONT_LEN, Front, LONG_FRONT_LEN};
pub use crate::fronted::Fronted;
pub use crate::lent::Lent;
pub use crate::meta::{encoding_of, meta_encoding};
pub use crate::opening::{Opening, open_page};
pub use crate::page::{read_tags_of_bytes, read_tokens_of_bytes};
pub use crate::page_decoder::{Known, PageDecoder};
pub use crate::page_encoding::{encoding_by, sniff};
