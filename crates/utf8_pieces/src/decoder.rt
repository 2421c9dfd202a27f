//! A decoder that takes one piece after another.
ghost use Rattle.std.specs.Prelude.{◌≡◌, ◌≢◌, ◌≤◌, ◌⊎◌, ◌↔◌, [], ◌++◌, length, IsTrue, IsOk, OnOk, OnErr, IfOk, IfErr, IsErrAnd, string_bytes};
ghost use Rattle.utf8_pieces.specs.Pieces.{Decodes, EndsAtFault, IsCutCharacter, IsFault, IsNeverUtf8, bytes_of, place_after};

use crate::error::DecodeError;
use crate::front::{joined, joined_len, padded, place_after, text_len, text_of, whole_len};
use std::alloc::{AllocError, Allocator};
use std::marker::Model;
use std::str::from_utf8_unchecked;

/// Makes texts of bytes that arrive in pieces. Between two pieces it holds back at most three bytes,
/// which begin a character that the next piece may complete.
#[derive(Drop)]
pub struct Decoder {
    bytes: [u8; 3],
    count: usize,
    taken: u64,
}

impl Model for Decoder {
    ghost use Rattle.std.specs.Prelude.{◌≤◌, take};
    ghost use Rattle.utf8_pieces.specs.Pieces.{Decoding, IsCutCharacter};

    ghost Value = { Decoding };

    ghost view = { λ d. record { held = take d.count d.bytes; taken = d.taken } };

    ghost invariant = { λ d. (d.count ≤ 3) × IsCutCharacter (take d.count d.bytes) };
}

impl Decoder {
    /// A decoder at the start, that holds nothing.
    pub fn new() -> Decoder
        ensures held { result.held ≡ [] }
        ensures taken { result.taken ≡ 0 }
    {
        Decoder {
            bytes: [0; 3],
            count: 0,
            taken: 0,
        }
    }

    /// Whether the pieces so far end with a whole character, so that nothing is held.
    pub fn is_complete(&self) -> bool
        ensures complete { IsTrue result ↔ (self.now.held ≡ []) }
    {
        self.count == 0
    }

    /// Takes a piece, and gives the text that it completes: what was held and the piece, except for the bytes
    /// at the end that may begin a character. Bytes that are not UTF-8, whatever follows, are `NotUtf8`.
    /// After an error the decoder stands as before, so a refused growth can be tried again.
    pub fn decode<A: Allocator + Copy>(
        &mut self,
        alloc: A,
        bytes: &[u8],
    ) -> Result<String<A>, DecodeError>
        // The given text and the held bytes are all that came, in their order, and no whole character is held.
        ensures text { IfOk result (λ text. self.old.held ++ bytes.now ≡ string_bytes text ++ self.new.held) }
        ensures cut { OnOk result (IsCutCharacter self.new.held) }
        ensures few { OnOk result (length self.new.held ≤ 3) }
        ensures taken { IfOk result (λ text. self.new.taken ≡ place_after self.old.taken
            (length (string_bytes text))) }

        // What is refused, and when: bytes that nothing after them can make UTF-8.
        ensures fault { IfErr result (λ error. (error ≡ DecodeError.Memory)
            ⊎ IsFault self.old.taken (self.old.held ++ bytes.now) error) }
        ensures refused { IsErrAnd result (λ error. error ≢ DecodeError.Memory) ↔ IsNeverUtf8
            (self.old.held ++ bytes.now) }
        ensures unchanged { OnErr result (self.new ≡ self.old) }
    {
        if self.is_complete() {
            return self.decode_after(alloc, "", bytes);
        }
        let held = &self.bytes[..self.count];
        let count = held.len();
        let len = joined_len(count, bytes);
        let front = joined(held, bytes, len);
        let first = whole_len(&front[..len]);
        if first > 0 {
            let text = unsafe { from_utf8_unchecked(&front[..first]) };
            return self.decode_after(alloc, text, &bytes[first - count..]);
        }
        if len < 4 {
            return self.decode_after(alloc, "", &front[..len]);
        }
        Err(DecodeError::NotUtf8 {
            valid_up_to: self.taken,
        })
    }

    /// How many bytes were given as text. Those that are held stand after them.
    pub fn taken(&self) -> u64
        ensures { result ≡ self.now.taken }
    {
        self.taken
    }

    /// Takes the front of a piece that `decode` refuses, and gives its text: what was held and the piece, up to the place
    /// where they stop being UTF-8. Nothing is held then.
    pub fn decode_front<A: Allocator + Copy>(
        &mut self,
        alloc: A,
        bytes: &[u8],
    ) -> Result<String<A>, AllocError>
        requires { IsNeverUtf8 (self.old.held ++ bytes.now) }
        ensures front { IfOk result (λ text.
            EndsAtFault self.old self.new (self.old.held ++ bytes.now) (string_bytes text)) }
        ensures err { OnErr result (self.new ≡ self.old) }
    {
        if self.is_complete() {
            return self.front_after(alloc, "", bytes);
        }
        let held = &self.bytes[..self.count];
        let count = held.len();
        let len = joined_len(count, bytes);
        let front = joined(held, bytes, len);
        let first = whole_len(&front[..len]);
        if first == 0 {
            self.hold(&[], 0);
            return Ok(String::new(alloc));
        }
        let text = unsafe { from_utf8_unchecked(&front[..first]) };
        self.front_after(alloc, text, &bytes[first - count..])
    }

    // Takes the front of a piece after a text that stands in place of the held bytes.
    fn front_after<A: Allocator + Copy>(
        &mut self,
        alloc: A,
        first: &str,
        bytes: &[u8],
    ) -> Result<String<A>, AllocError>
        requires { IsNeverUtf8 (first.now ++ bytes.now) }
        ensures front { IfOk result (λ text.
            EndsAtFault self.old self.new (first.now ++ bytes.now) (string_bytes text)) }
        ensures err { OnErr result (self.new ≡ self.old) }
    {
        let len = whole_len(bytes);
        let second = unsafe { from_utf8_unchecked(&bytes[..len]) };
        let text = text_of(alloc, first, second)?;
        self.hold(&[], first.len() + len);
        Ok(text)
    }

    // Takes a piece after a text that stands in place of the held bytes.
    fn decode_after<A: Allocator + Copy>(
        &mut self,
        alloc: A,
        first: &str,
        bytes: &[u8],
    ) -> Result<String<A>, DecodeError>
        ensures { Decodes self.old self.new (first.now ++ bytes.now) result }
    {
        let len = match text_len(bytes) {
            Ok(len) => len,
            Err(valid) => {
                return Err(DecodeError::NotUtf8 {
                    valid_up_to: place_after(self.taken, first.len() + valid),
                });
            }
        };
        let second = unsafe { from_utf8_unchecked(&bytes[..len]) };
        let text = text_of(alloc, first, second)?;
        self.hold(&bytes[len..], first.len() + len);
        Ok(text)
    }

    // Holds these bytes, this many bytes after where the ones held until now stood.
    fn hold(&mut self, bytes: &[u8], given: usize)
        requires { IsCutCharacter bytes.now }
        ensures held { self.new.held ≡ bytes.now }
        ensures taken { self.new.taken ≡ place_after self.old.taken given }
    {
        self.bytes = padded(bytes);
        self.count = bytes.len();
        self.taken = place_after(self.taken, given);
    }

    /// Ends the text. A character that is cut is `NotUtf8`, at the place where it begins.
    pub fn finish(self) -> Result<(), DecodeError>
        ensures complete { IsOk result ↔ (self.held ≡ []) }
        ensures place { IfErr result (λ error. error ≡ DecodeError.NotUtf8 self.taken) }
    {
        if !self.is_complete() {
            return Err(DecodeError::NotUtf8 {
                valid_up_to: self.taken,
            });
        }
        Ok(())
    }
}

/// The text of pieces, one after the other. A character that is cut at the end is `NotUtf8`, as other invalid bytes.
pub fn decode_all<A: Allocator + Copy>(alloc: A, pieces: &[&[u8]]) -> Result<String<A>, DecodeError>
    ensures text { IfOk result (λ text. string_bytes text ≡ bytes_of pieces.now) }
    ensures fault { IfErr result (λ error. (error ≡ DecodeError.Memory) ⊎ IsFault 0 (bytes_of pieces.now) error) }
{
    let mut decoder = Decoder::new();
    let mut text = String::new(alloc);
    for piece in pieces {
        let more = decoder.decode(alloc, piece)?;
        text.push_str(more.as_str())?;
    }
    decoder.finish()?;
    Ok(text)
}
