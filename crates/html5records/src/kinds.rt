//! The bytes that tell records apart: the kind of each, and the flags of tags and DOCTYPEs.

/// The kind of a start tag's record.
pub const START_TAG: u8 = 1;
/// The kind of an end tag's record.
pub const END_TAG: u8 = 2;
/// The kind of a text's record.
pub const TEXT: u8 = 3;
/// The byte that ends a text: no UTF-8 has it.
pub const TEXT_END: u8 = 0xFF;
/// The kind of a comment's record.
pub const COMMENT: u8 = 4;
/// The kind of a processing instruction's record.
pub const PROCESSING_INSTRUCTION: u8 = 5;
/// The kind of a DOCTYPE's record.
pub const DOCTYPE: u8 = 6;
/// The kind of the record of U+0000 in text.
pub const NULL_CHARACTER: u8 = 7;
/// The kind of a parse error's record.
pub const PARSE_ERROR: u8 = 8;
/// The kind of the record of the end of the input.
pub const END: u8 = 9;
/// The kind of a record that says where the next token stands, with the text before it (crate html5placed).
pub const PLACES: u8 = 10;

/// The flag of a tag with `/` directly before its `>`.
pub const SELF_CLOSING: u8 = 1;
/// The flag of a tag of which an attribute was left out, since one of its name stood before it.
pub const DUPLICATE_ATTRIBUTES: u8 = 2;

/// The flag of a DOCTYPE with a name.
pub const HAS_NAME: u8 = 1;
/// The flag of a DOCTYPE with a public identifier.
pub const HAS_PUBLIC_ID: u8 = 2;
/// The flag of a DOCTYPE with a system identifier.
pub const HAS_SYSTEM_ID: u8 = 4;
/// The flag of a DOCTYPE that puts the document into quirks mode.
pub const FORCE_QUIRKS: u8 = 8;
