//! The attributes of a tag.
use markup5ever::interface::Attribute;
use std::alloc::Global;

/// The attributes of a tag, as a tokenizer sends them.
pub type Attributes = Vec<Attribute<Global>, Global>;
