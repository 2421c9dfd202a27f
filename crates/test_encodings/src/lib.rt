//! Worked cases of encodings: names and labels, byte order marks, texts of bytes that are cut anywhere,
//! sources, pages and which encoding they are in, and refused growths. What is expected is from the Encoding Standard, by hand.
#![tactic(auto)]

#[cfg(test)]
mod labels;
#[cfg(test)]
mod page_pieces;
#[cfg(test)]
mod pages;
#[cfg(test)]
mod pages_of_bytes;
#[cfg(test)]
mod refused;
#[cfg(test)]
mod sniffing;
#[cfg(test)]
mod sources;
#[cfg(test)]
mod texts;
