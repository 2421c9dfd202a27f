//! The encodings of the Encoding Standard: their names and labels, and decoders for bytes that arrive in
//! pieces, cut anywhere. Bytes that are invalid in an encoding give U+FFFD, or are fatal, as the Standard
//! says.
#![tactic(auto)]

mod big5;
mod decoder;
mod encoding;
mod euc_jp;
mod euc_kr;
mod front;
mod gb18030;
mod handlers;
mod index_big5;
mod index_euc_kr;
mod index_gb18030;
mod index_gb18030_ranges;
mod index_jis0208;
mod index_jis0212;
mod index_single_byte;
mod iso_2022_jp;
mod label_list;
mod laws;
mod miscellaneous;
mod pointers;
mod shift_jis;
mod single_byte;
mod state;
mod steps;
mod utf16;
mod utf8;

pub use crate::decoder::{Decoded, Decoder, decode_all};
pub use crate::encoding::{Encoding, SingleByte};
pub use crate::laws::{any_cutting, at_most_one_character_a_byte, names_are_labels, text_is_kept};
