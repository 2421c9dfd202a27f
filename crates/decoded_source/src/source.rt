//! A source of text.
ghost use Rattle.std.specs.Prelude.{◌≡◌, ◌≢◌, ◌+◌, ◌<◌, ◌≤◌, ◌↔◌, [], IfSome, IsNone, IsTrue, OnErr, OnOk, Some, encode_utf8_all};
ghost use Rattle.std.specs.Io.KnownBytes.{IsAtEnd, Keeps};
ghost use Rattle.html5encodings.specs.Decoding.{decoded, start};
ghost use Rattle.decoded_source.specs.Texts.{text_from, text_up_to_error};

use crate::place::Place;
use crate::undecoded::Undecoded;
use crate::waiting::Waiting;
use devices::Source;
use ghost_counts::Count;
use html5encodings::{Decoder, Encoding};
use std::alloc::{Allocator, Global};
use std::io;
use std::io::ErrorKind;
use std::marker::Model;

/// What happens to errors, bytes that are invalid in the encoding: the error modes of the Standard.
#[derive(Clone, Copy, Debug, PartialEq, Eq)]
pub enum ErrorMode {
    /// They give U+FFFD.
    Replacement,
    /// Reads fail at the first.
    Fatal,
    /// It was found.
    Failed,
}

/// A source of bytes in an encoding, as a source of text in UTF-8. Bytes that are invalid in the encoding give U+FFFD,
/// or reads fail at the first of them.
#[derive(Drop)]
pub struct DecodedSource<S, A: Allocator = Global> {
    inner: S,
    alloc: A,
    mode: ErrorMode,
    // None once the end was decoded.
    decoder: Option<Decoder>,
    undecoded: Undecoded,
    waiting: Waiting<A>,
    failures: Count,
    place: Place,
    fault: Option<io::Error>,
}

impl<S, A: Allocator> Model for DecodedSource<S, A> {
    ghost use Rattle.decoded_source.specs.Texts.{Reading};

    ghost Value = { Reading S };

    ghost view = { λ s. record {
      inner = s.inner;
      mode = s.mode;
      decoder = s.decoder;
      undecoded = s.undecoded;
      waiting = s.waiting;
      own_failures = s.failures.total;
    } };
}

// The error mode after bytes of which this many stand before the first error.
fn mode_after(len: usize, all: usize) -> ErrorMode
    ensures failed { len < all → result ≡ ErrorMode.Failed }
    ensures fatal { all ≤ len → result ≡ ErrorMode.Fatal }
{
    if len < all {
        ErrorMode::Failed
    } else {
        ErrorMode::Fatal
    }
}

impl<S: Source, A: Allocator + Copy> DecodedSource<S, A> {
    /// The text of a source whose bytes are in this encoding. A byte order mark is given as U+FEFF.
    pub fn new(alloc: A, source: S, encoding: Encoding) -> DecodedSource<S, A>
        ensures inner { result.inner ≡ source }
        ensures text { IfSome (S.remaining source) (λ bytes.
            text_from result (S.remaining result.inner) ≡ Some (encode_utf8_all (decoded encoding bytes))) }
        ensures failures { result.own_failures ≡ 0 }
    {
        DecodedSource::with_mode(alloc, source, encoding, ErrorMode::Replacement)
    }

    /// The same, where reads fail at the first bytes that are invalid in the encoding. The text before them is given.
    pub fn fatal(alloc: A, source: S, encoding: Encoding) -> DecodedSource<S, A>
        ensures inner { result.inner ≡ source }
        ensures text { IfSome (S.remaining source) (λ bytes.
            text_from result (S.remaining result.inner) ≡ Some (text_up_to_error (start encoding) bytes)) }
        ensures failures { result.own_failures ≡ 0 }
    {
        DecodedSource::with_mode(alloc, source, encoding, ErrorMode::Fatal)
    }

    // The text of a source of which nothing was read.
    fn with_mode(alloc: A, source: S, encoding: Encoding, mode: ErrorMode) -> DecodedSource<S, A>
        ensures { result ≡ record {
          inner = source;
          mode = mode;
          decoder = Some (start encoding);
          undecoded = [];
          waiting = [];
          own_failures = 0;
        } }
    {
        DecodedSource {
            inner: source,
            alloc,
            mode,
            decoder: Some(Decoder::new(encoding)),
            undecoded: Undecoded::new(),
            waiting: Waiting::last(alloc, ""),
            failures: Count::new(),
            place: Place::start(),
            fault: None,
        }
    }

    /// The source. Bytes that were read of it and not yet given as text are lost.
    pub fn into_inner(self) -> S
        ensures { result ≡ self.inner }
    {
        self.inner
    }

    /// Why the last read failed that the source knows nothing of: no memory, or bytes that are invalid in the encoding.
    pub fn fault(&self) -> Option<io::Error> {
        self.fault
    }

    /// If errors are fatal, how many bytes the whole characters before the error take: the place of the first byte
    /// that is invalid in the encoding.
    pub fn place(&self) -> u64 {
        self.place.whole
    }

    /// Where errors are fatal, the line that the error is on.
    pub fn line(&self) -> u64 {
        self.place.line_ends.saturating_add(1)
    }

    // Counts a failed read, and notes why it failed.
    fn fail(&mut self, kind: ErrorKind) -> io::Error
        ensures { self.new ≡ record self.old { own_failures = self.old.own_failures + 1 } }
    {
        let fault = io::Error::from(kind);
        self.failures.add(1);
        self.fault = Some(fault);
        fault
    }

    // Whether no text is to come.
    fn is_ended(&self) -> bool
        ensures { IsTrue result ↔ (IsNone self.now.decoder × (self.now.mode ≢ ErrorMode.Failed)) }
    {
        self.decoder.is_none() && self.mode != ErrorMode::Failed
    }

    // Makes text of the bytes that wait to be decoded.
    fn decode(&mut self) -> io::Result<()>
        requires waiting { self.old.waiting ≡ [] }
        requires mode { self.old.mode ≡ ErrorMode.Replacement }
        ensures keeps { Keeps (text_from self.old (S.remaining self.old.inner))
            (text_from self.new (S.remaining self.new.inner)) }
        ensures inner { self.new.inner ≡ self.old.inner }
        ensures no_failure { OnOk result (self.new.own_failures ≡ self.old.own_failures) }
        ensures failure { OnErr result (self.new.own_failures ≡ self.old.own_failures + 1) }
    {
        let Some(decoder) = &mut self.decoder else {
            return Ok(());
        };
        let Ok(text) = decoder.decode(self.alloc, self.undecoded.bytes()) else {
            return Err(self.fail(ErrorKind::OutOfMemory));
        };
        self.waiting = Waiting::piece(text);
        self.undecoded.clear();
        Ok(())
    }

    // Makes text of the bytes that wait to be decoded, up to the first error in them.
    fn decode_up_to_error(&mut self) -> io::Result<()>
        requires waiting { self.old.waiting ≡ [] }
        requires mode { self.old.mode ≡ ErrorMode.Fatal }
        ensures keeps { Keeps (text_from self.old (S.remaining self.old.inner))
            (text_from self.new (S.remaining self.new.inner)) }
        ensures inner { self.new.inner ≡ self.old.inner }
        ensures no_failure { OnOk result (self.new.own_failures ≡ self.old.own_failures) }
        ensures failure { OnErr result (self.new.own_failures ≡ self.old.own_failures + 1) }
    {
        let Some(decoder) = &mut self.decoder else {
            return Ok(());
        };
        let Ok(decoded) = decoder.decode_before_error(self.alloc, self.undecoded.bytes()) else {
            return Err(self.fail(ErrorKind::OutOfMemory));
        };
        self.mode = mode_after(decoded.len, self.undecoded.bytes().len());
        let text = decoded.text.as_bytes();
        self.place = self.place.after(decoded.len, decoded.whole, text);
        self.waiting = Waiting::piece(decoded.text);
        self.undecoded.clear();
        Ok(())
    }

    // Makes the text at the end, where the source has no more bytes.
    fn end(&mut self)
        requires waiting { self.old.waiting ≡ [] }
        requires undecoded { self.old.undecoded ≡ [] }
        requires at_end { IsAtEnd (S.remaining self.old.inner) }
        requires mode { self.old.mode ≢ ErrorMode.Failed }
        ensures keeps { Keeps (text_from self.old (S.remaining self.old.inner))
            (text_from self.new (S.remaining self.new.inner)) }
        ensures inner { self.new.inner ≡ self.old.inner }
        ensures failures { self.new.own_failures ≡ self.old.own_failures }
    {
        let Some(decoder) = self.decoder.take() else {
            return;
        };
        match self.mode {
            ErrorMode::Replacement => self.waiting = Waiting::last(self.alloc, decoder.finish()),
            ErrorMode::Fatal if !decoder.is_whole() => self.mode = ErrorMode::Failed,
            _ => {}
        }
    }

    // Reads a piece and makes text of it, or of one that waits to be decoded.
    fn read_on(&mut self) -> io::Result<()>
        requires { self.old.waiting ≡ [] }
        ensures keeps { Keeps (text_from self.old (S.remaining self.old.inner))
            (text_from self.new (S.remaining self.new.inner)) }
        ensures no_failure { OnOk result (S.failures self.new.inner + self.new.own_failures
            ≡ S.failures self.old.inner + self.old.own_failures) }
        ensures failure { OnErr result (S.failures self.new.inner + self.new.own_failures
            ≡ S.failures self.old.inner + self.old.own_failures + 1) }
    {
        if self.mode == ErrorMode::Failed {
            return Err(self.fail(ErrorKind::InvalidData));
        }
        if self.undecoded.bytes().is_empty() && self.undecoded.read(&mut self.inner)? == 0 {
            self.end();
            return Ok(());
        }
        match self.mode {
            ErrorMode::Fatal => self.decode_up_to_error(),
            _ => self.decode(),
        }
    }
}

impl<S: Source, A: Allocator + Copy> Source for DecodedSource<S, A> {
    ghost remaining = { λ s. text_from s (S.remaining s.inner) };

    ghost failures = { λ s. S.failures s.inner + s.own_failures };

    fn read(&mut self, buf: &mut [u8]) -> io::Result<usize> {
        if buf.is_empty() {
            return Ok(0);
        }
        // Some encodings give no text for bytes without end, and a loop is proved to end: this one counts its reads.
        for _reads in 0..u64::MAX {
            let count = self.waiting.take(buf);
            if count > 0 || self.is_ended() {
                return Ok(count);
            }
            self.read_on()?;
        }
        Err(self.fail(ErrorKind::Interrupted))
    }
}
