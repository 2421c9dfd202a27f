//! A decoder that takes one piece after another.
ghost use Rattle.std.specs.Prelude.{◌≡◌, ◌++◌, ◌≤◌, IfOk, IfSome, OnErr, OnOk, encode_utf8_all, string_bytes};
ghost use Rattle.html5encodings.specs.Decoding.{at_end, bytes_of, decoded, given, given_before_error, is_whole, len_before_error, start, state_after, state_before_error};

use crate::encoding::Encoding;
use crate::state::{State, append, append_before_error, at_end, is_whole, start};
use std::alloc::{AllocError, Allocator};
use std::marker::Model;

/// Makes texts of bytes in an encoding that arrive in pieces, cut anywhere. Bytes that are invalid in the encoding
/// give U+FFFD.
#[derive(Drop)]
pub struct Decoder {
    state: State,
}

impl Model for Decoder {
    ghost use Rattle.html5encodings.specs.declared.state.State.{State};
    ghost use Rattle.html5encodings.specs.Decoding.{IsState};

    ghost Value = { State };

    ghost view = { λ d. d.state };

    ghost invariant = { λ d. IsState d.state };
}

/// The text of a piece before the first error in it.
#[derive(Drop)]
pub struct Decoded<A: Allocator> {
    pub text: String<A>,
    /// How many bytes of the piece stand before the error.
    pub len: usize,
    /// After how many of these the last whole character ends, if one ends in the piece.
    pub whole: Option<usize>,
}

impl Decoder {
    /// A decoder at the start.
    pub fn new(encoding: Encoding) -> Decoder
        ensures { result ≡ start encoding }
    {
        Decoder {
            state: start(encoding),
        }
    }

    /// The text of a piece: of what it completes, and not of bytes at its end that the next piece may
    /// complete. After a refused growth the decoder stands as before, so the piece can be given again.
    pub fn decode<A: Allocator>(&mut self, alloc: A, bytes: &[u8]) -> Result<String<A>, AllocError>
        ensures text { IfOk result (λ text. string_bytes text ≡ encode_utf8_all (given self.old bytes.now)) }
        ensures leaves { OnOk result (self.new ≡ state_after self.old bytes.now) }
        ensures unchanged { OnErr result (self.new ≡ self.old) }
    {
        let mut text = String::new(alloc);
        self.state = append(self.state, bytes, &mut text)?;
        Ok(text)
    }

    /// The text of a piece before the first error in it, as the error mode "fatal" of the Standard has it. Also how
    /// many bytes of the piece stand before that error, and after how many of these the last whole character ends,
    /// if one does.
    pub fn decode_before_error<A: Allocator>(
        &mut self,
        alloc: A,
        bytes: &[u8],
    ) -> Result<Decoded<A>, AllocError>
        ensures text { IfOk result (λ decoded. string_bytes decoded.text ≡ encode_utf8_all (given_before_error self.old bytes.now)) }
        ensures len { IfOk result (λ decoded. decoded.len ≡ len_before_error self.old bytes.now) }
        ensures whole { IfOk result (λ decoded. IfSome decoded.whole (λ whole. whole ≤ decoded.len)) }
        ensures leaves { OnOk result (self.new ≡ state_before_error self.old bytes.now) }
        ensures unchanged { OnErr result (self.new ≡ self.old) }
    {
        let mut text = String::new(alloc);
        let before = append_before_error(self.state, bytes, &mut text)?;
        self.state = before.left;
        Ok(Decoded {
            text,
            len: before.len,
            whole: before.whole,
        })
    }

    /// Whether no character is begun, so that the end here is no error.
    pub fn is_whole(&self) -> bool
        ensures { result ≡ is_whole self.now }
    {
        is_whole(self.state)
    }

    /// The text at the end: U+FFFD where a character is begun.
    pub fn finish(self) -> &'static str
        ensures { result.now ≡ encode_utf8_all (at_end self) }
    {
        at_end(self.state)
    }
}

/// The text of pieces in an encoding, one after the other.
pub fn decode_all<A: Allocator + Copy>(
    alloc: A,
    encoding: Encoding,
    pieces: &[&[u8]],
) -> Result<String<A>, AllocError>
    ensures { IfOk result (λ text. string_bytes text ≡ encode_utf8_all (decoded encoding (bytes_of pieces.now))) }
{
    let mut decoder = Decoder::new(encoding);
    let mut text = String::new(alloc);
    for piece in pieces {
        let more = decoder.decode(alloc, piece)?;
        text.push_str(more.as_str())?;
    }
    text.push_str(decoder.finish())?;
    Ok(text)
}
