//! A page whose encoding is known, and its text.
ghost use Rattle.std.specs.Prelude.{◌≡◌, ◌+◌, ◌++◌, [], false, true, encode_utf8_all, Some, IfErr, IfOk, IfSome, OnOk};
ghost use Rattle.std.specs.Io.KnownBytes.{Consumes, IsAtEnd};
ghost use Rattle.decoded_source.specs.Texts.{text_from};
ghost use Rattle.html5encodings.specs.Decoding.{decoded};
ghost use Rattle.html5stream.specs.Streams.{failed_reads};
ghost use Rattle.html5sniffing.specs.PageEncoding.{IsWhole, encoding_by};
ghost use Rattle.html5sniffing.specs.Fronts.{still_given};
ghost use Rattle.html5sniffing.specs.Pages.{IsOpeningError};

use crate::front::{FRONT_LEN, Front};
use crate::fronted::Fronted;
use crate::page_encoding::encoding_by;
use decoded_source::DecodedSource;
use devices::Source;
use html5encodings::Encoding;
use html5stream::StreamError;
use markup5ever::data::NamedReferences;
use std::alloc::{AllocError, Allocator, Global};

/// The first bytes of a page, whether these are all, and its encoding.
#[derive(Drop)]
pub struct Opening<A: Allocator = Global> {
    pub front: Front<A>,
    pub is_ended: bool,
    pub encoding: Encoding,
}

// Reads on until the front is whole, or the source is at its end, and says whether it is.
fn read_front<R: Source, A: Allocator + Copy>(
    source: &mut R,
    front: &mut Front<A>,
    references: &NamedReferences<A>,
    said: Option<Encoding>,
    fallback: Option<Encoding>,
) -> Result<bool, StreamError>
    requires { front.old.bytes ≡ [] }
    ensures given { OnOk result (Consumes (R.remaining source.old) (R.remaining source.new) front.new.bytes) }
    ensures end { IfOk result (λ ended. ended ≡ true → IsAtEnd (R.remaining source.new)) }
    ensures whole { IfOk result (λ ended. ended ≡ false → IsWhole references.now said fallback front.new.bytes) }
    ensures err { IfErr result IsOpeningError }
    ensures read { R.failures source.new ≡ R.failures source.old + failed_reads result }
{
    let mut buffer = [0; FRONT_LEN];
    loop {
        let Ok(count) = source.read(&mut buffer) else {
            return Err(StreamError::Read);
        };
        if count == 0 {
            return Ok(true);
        }
        match front.push(references, said, fallback, &buffer[..count]) {
            Ok(true) => return Ok(false),
            Ok(false) => {}
            Err(AllocError) => return Err(StreamError::Memory),
        }
    }
}

/// Reads the first bytes of a page, and determines its encoding by them, as `sniff` does.
pub fn open_page<R: Source, A: Allocator + Copy>(
    alloc: A,
    source: &mut R,
    references: &NamedReferences<A>,
    said: Option<Encoding>,
    fallback: Option<Encoding>,
) -> Result<Opening<A>, StreamError>
    ensures given { IfOk result (λ opening.
        Consumes (R.remaining source.old) (R.remaining source.new) opening.front.bytes) }
    ensures end { IfOk result (λ opening. opening.is_ended ≡ true → IsAtEnd (R.remaining source.new)) }
    ensures encoding { IfOk result (λ opening. IfSome (R.remaining source.old) (λ bytes.
        opening.encoding ≡ encoding_by references.now said fallback bytes)) }
    ensures err { IfErr result IsOpeningError }
    ensures read { R.failures source.new ≡ R.failures source.old + failed_reads result }
{
    let mut front = Front::new(alloc);
    let is_ended = read_front(source, &mut front, references, said, fallback)?;
    match encoding_by(alloc, references, front.bytes(), said, fallback) {
        Ok(encoding) => Ok(Opening {
            front,
            is_ended,
            encoding,
        }),
        Err(AllocError) => Err(StreamError::Memory),
    }
}

impl<A: Allocator + Copy> Opening<A> {
    /// The text of a page that was opened: of its first bytes, and of those that the source still has. Where its end was
    /// found with them it isn't read again.
    pub fn text<S: Source>(self, alloc: A, source: S) -> DecodedSource<Fronted<S, A>, A>
        requires { self.is_ended ≡ true → IsAtEnd (S.remaining source) }
        ensures inner { result.inner.inner ≡ source }
        ensures text { IfSome (S.remaining source) (λ rest.
            text_from result (still_given result.inner (S.remaining result.inner.inner))
            ≡ Some (encode_utf8_all (decoded self.encoding (self.front.bytes ++ rest)))) }
        ensures failures { result.own_failures ≡ 0 }
    {
        let fronted = Fronted::new(self.front, self.is_ended, source);
        DecodedSource::new(alloc, fronted, self.encoding)
    }
}
