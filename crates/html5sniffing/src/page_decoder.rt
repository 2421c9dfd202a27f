//! The text of a page whose bytes are pushed.
ghost use Rattle.std.specs.Prelude.{◌≡◌, ◌↔◌, ◌⊎◌, [], encode_utf8_all, length, option_map, string_bytes, take, IfOk, IsTrue, OnErr, OnOk, None};
ghost use Rattle.html5encodings.specs.Decoding.{given, start, state_after};
ghost use Rattle.html5sniffing.specs.PageDecoding.{GoesOn, IsUnbegun, anew, page_start, text_with};
ghost use Rattle.html5sniffing.specs.PageEncoding.{encoding_by};

use crate::front::Front;
use crate::page_encoding::encoding_by;
use html5encodings::{Decoder, Encoding};
use markup5ever::data::NamedReferences;
use std::alloc::{AllocError, Allocator, Global};
use std::marker::Model;

/// The encoding of a page, and its decoder.
#[derive(Drop)]
pub struct Known {
    pub encoding: Encoding,
    pub decoder: Decoder,
}

/// Makes a text of the bytes of a page that are pushed, cut anywhere. Its first bytes are held until they tell which
/// encoding it is in, as `sniff` does. Bytes that are invalid in it give U+FFFD.
#[derive(Drop)]
pub struct PageDecoder<A: Allocator = Global> {
    alloc: A,
    said: Option<Encoding>,
    fallback: Option<Encoding>,
    front: Front<A>,
    known: Option<Known>,
    ended: bool,
}

impl<A: Allocator> Model for PageDecoder<A> {
    ghost use Rattle.html5sniffing.specs.PageDecoding.{HoldsFront, PageDecoding};

    ghost Value = { PageDecoding };

    ghost view = { λ d. record {
      said = d.said;
      fallback = d.fallback;
      held = d.front.bytes;
      known = d.known;
      ended = d.ended;
    } };

    ghost invariant = { λ d. HoldsFront d.known d.front.bytes };
}

// What the bytes of a page make: its encoding with the decoder after them, and their text.
#[derive(Drop)]
struct Opened<A: Allocator> {
    known: Known,
    text: String<A>,
}

// Decodes bytes that are the front of a page and the bytes after it, or all of it.
fn open_bytes<A: Allocator + Copy>(
    alloc: A,
    references: &NamedReferences<A>,
    bytes: &[u8],
    said: Option<Encoding>,
    fallback: Option<Encoding>,
) -> Result<Opened<A>, AllocError>
    ensures encoding { IfOk result (λ opened.
        opened.known.encoding ≡ encoding_by references.now said fallback bytes.now) }
    ensures decoder { IfOk result (λ opened.
        opened.known.decoder ≡ state_after (start opened.known.encoding) bytes.now) }
    ensures text { IfOk result (λ opened.
        string_bytes opened.text ≡ encode_utf8_all (given (start opened.known.encoding) bytes.now)) }
{
    let encoding = encoding_by(alloc, references, bytes, said, fallback)?;
    let mut decoder = Decoder::new(encoding);
    let text = decoder.decode(alloc, bytes)?;
    Ok(Opened {
        known: Known { encoding, decoder },
        text,
    })
}

// A decoder of this encoding that begins anew.
fn known_anew(encoding: Encoding) -> Known
    ensures encoding { result.encoding ≡ encoding }
    ensures decoder { result.decoder ≡ start encoding }
{
    Known {
        encoding,
        decoder: Decoder::new(encoding),
    }
}

impl<A: Allocator> PageDecoder<A> {
    /// The encoding of the page, once it is known.
    pub fn encoding(&self) -> Option<Encoding>
        ensures { result ≡ option_map (λ known. known.encoding) self.now.known }
    {
        match &self.known {
            Some(known) => Some(known.encoding),
            None => None,
        }
    }

    /// How many bytes are held, since the encoding isn't known yet.
    pub fn held_len(&self) -> usize
        ensures { result ≡ length self.now.held }
    {
        self.front.bytes().len()
    }

    /// Whether the bytes were ended (`finish`), and none came after that.
    pub fn is_ended(&self) -> bool
        ensures { result ≡ self.now.ended }
    {
        self.ended
    }

    /// Whether no byte was pushed.
    pub fn is_unbegun(&self) -> bool
        ensures { IsTrue result ↔ IsUnbegun self.now }
    {
        self.front.bytes().is_empty() && self.known.is_none()
    }
}

impl<A: Allocator + Copy> PageDecoder<A> {
    /// The decoder of a page for which this encoding is declared, as by a header of the transport, and which is in the
    /// other if nothing tells.
    pub fn new(alloc: A, said: Option<Encoding>, fallback: Option<Encoding>) -> PageDecoder<A>
        ensures { result ≡ page_start said fallback }
    {
        PageDecoder {
            alloc,
            said,
            fallback,
            front: Front::new(alloc),
            known: None,
            ended: false,
        }
    }

    /// The decoder of another page with the same declared encoding.
    pub fn restarted(&self) -> PageDecoder<A>
        ensures { result ≡ page_start self.now.said self.now.fallback }
    {
        PageDecoder::new(self.alloc, self.said, self.fallback)
    }

    // Pushes bytes while the encoding isn't known.
    fn push_front(
        &mut self,
        references: &NamedReferences<A>,
        bytes: &[u8],
    ) -> Result<String<A>, AllocError>
        requires { self.old.known ≡ None }
        ensures goes_on { IfOk result (λ text. GoesOn references.now self.old self.new bytes.now (string_bytes text)) }
        ensures err { OnErr result (self.new ≡ self.old) }
    {
        let before = self.front.bytes().len();
        if !self
            .front
            .push(references, self.said, self.fallback, bytes)?
        {
            return Ok(String::new(self.alloc));
        }
        let bytes = self.front.bytes();
        match open_bytes(self.alloc, references, bytes, self.said, self.fallback) {
            Ok(opened) => {
                self.known = Some(opened.known);
                self.front = Front::new(self.alloc);
                Ok(opened.text)
            }
            Err(error) => {
                self.front.truncate(before);
                Err(error)
            }
        }
    }

    /// The text of a piece, as far as it is decided: none while the encoding isn't known. After a refused growth the
    /// decoder stands as before, so the piece can be pushed again.
    pub fn push(
        &mut self,
        references: &NamedReferences<A>,
        bytes: &[u8],
    ) -> Result<String<A>, AllocError>
        ensures goes_on { IfOk result (λ text. GoesOn references.now self.old self.new bytes.now (string_bytes text)) }
        ensures nothing { bytes.now ≡ [] → self.new ≡ self.old }
        ensures err { OnErr result (self.new ≡ self.old) }
    {
        if bytes.is_empty() {
            return Ok(String::new(self.alloc));
        }
        let Some(mut known) = self.known.take() else {
            return self.push_front(references, bytes);
        };
        let text = known.decoder.decode(self.alloc, bytes);
        self.known = Some(known);
        let text = text?;
        self.ended = false;
        Ok(text)
    }

    // Ends the bytes when the encoding isn't known: the held bytes are the page.
    fn finish_front(&mut self, references: &NamedReferences<A>) -> Result<String<A>, AllocError>
        requires { self.old.known ≡ None }
        ensures text { IfOk result (λ text. string_bytes text ≡ text_with references.now self.old []) }
        ensures ok { OnOk result (self.new ≡ anew references.now self.old) }
        ensures err { OnErr result (self.new ≡ self.old) }
    {
        let opened = open_bytes(
            self.alloc,
            references,
            self.front.bytes(),
            self.said,
            self.fallback,
        )?;
        let Opened { known, mut text } = opened;
        text.push_str(known.decoder.finish())?;
        self.known = Some(known_anew(known.encoding));
        self.front = Front::new(self.alloc);
        self.ended = true;
        Ok(text)
    }

    /// Ends the bytes, and gives the rest of the text. What is pushed after that is decoded anew, in the same encoding.
    /// After a refused growth the decoder is as it was, or the rest of the text is lost.
    pub fn finish(&mut self, references: &NamedReferences<A>) -> Result<String<A>, AllocError>
        ensures text { IfOk result (λ text. string_bytes text ≡ text_with references.now self.old []) }
        ensures ok { OnOk result (self.new ≡ anew references.now self.old) }
        ensures err { OnErr result ((self.new ≡ self.old) ⊎ (self.new ≡ anew references.now self.old)) }
    {
        let Some(known) = self.known.take() else {
            return self.finish_front(references);
        };
        self.known = Some(known_anew(known.encoding));
        self.ended = true;
        String::from_str(self.alloc, known.decoder.finish())
    }
}
