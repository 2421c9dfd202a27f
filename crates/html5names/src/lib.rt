//! The names of elements and attributes, and which of them a misspelled name was meant for.
//!
//! `is_known_element` and `is_known_attribute` say whether a name is listed: by proof whether it is one of the names in
//! specs/Elements and specs/Attributes. `meant_element` and `meant_attribute` answer the name that a misspelled one was
//! meant for, as `table` for `tabel`. By proof that is the first of the list with two neighbouring characters swapped.
//! Else, where both names have four characters at least, it is the first with one character missing, changed or added
//! (`meant_among` of specs/Slips). What these slips are is proved of whole names, too (`swaps_are_written`,
//! `near_names_are_written`).
//!
//! Tested, and not proved: that these lists are the standard's.
//!
//! - Names are compared by their bytes, as the tokenizer tells them, in lower case: no element is named `DIV`.
//! - Of the names of SVG and MathML only `svg` and `math` are listed, and no name that begins with `data-` or `aria-`.
//! - By a name of three characters, as `ref`, no other is meant but by a swap: too many names are near.
#![tactic(auto)]

mod attributes;
mod elements;
mod laws;
mod listed;
mod slips;

pub use crate::attributes::{is_known_attribute, meant_attribute};
pub use crate::elements::{is_known_element, meant_element};
pub use crate::laws::{near_names_are_written, swaps_are_written};
