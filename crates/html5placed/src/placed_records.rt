//! A handler that writes tokens with their places as records of bytes.
ghost use Rattle.std.specs.Prelude.{◌≡◌, ◌≤◌, ◌++◌, drop, length, min, take, OnErr, OnOk, if◌then◌else◌};
ghost use Rattle.html5ever_interface.specs.Token.{told_by};
ghost use Rattle.html5placed.specs.PlacedRecords.{after_taking, nothing_written, places_record, text_record, token_record, waiting};
ghost use Rattle.html5places.specs.Placed.{is_error};

use crate::writing::push_placed;
use ghost_counts::Log;
use html5ever_interface::interface::token::{SinkFault, Token};
use html5places::{PlacedHandler, Places};
use outbox::front::{rest_of, skip_front};
use std::alloc::{AllocError, Allocator, Global};
use std::marker::Model;

/// Writes for each token where it stands, the run before it, and the token, as records. The bytes wait in it until they are
/// taken. A token whose bytes find no memory is a fault, and leaves none of them.
#[derive(Drop)]
pub struct PlacedRecords<A: Allocator = Global> {
    // What was written: its first `skipped` bytes were taken.
    written: Vec<u8, A>,
    skipped: usize,
    // Where the last token other than an error ended.
    passed: usize,
    taken: Log,
}

impl<A: Allocator> Model for PlacedRecords<A> {
    ghost use Rattle.std.specs.Prelude.{◌≤◌, ◌++◌, drop, length};
    ghost use Rattle.html5placed.specs.PlacedRecords.{PlacedWriting};

    ghost Value = { PlacedWriting };

    ghost view = { λ w. record {
      bytes = w.taken.bytes ++ drop w.skipped w.written.items;
      taken = length w.taken.bytes;
      passed = w.passed;
    } };

    ghost invariant = { λ w. w.skipped ≤ length w.written.items };
}

// Appends the records of a token, or nothing.
fn push_whole<A: Allocator>(
    written: &mut Vec<u8, A>,
    run: &str,
    token: &Token<A>,
    line: u64,
    places: Places,
) -> Result<(), AllocError>
    ensures ok { OnOk result (written.new.items ≡ written.old.items
        ++ (places_record places ++ text_record run.now ++ token_record (told_by token.now) line)) }
    ensures err { OnErr result (written.new.items ≡ written.old.items) }
{
    let len = written.len();
    match push_placed(written, run, token, line, places) {
        Ok(()) => Ok(()),
        Err(AllocError) => {
            written.truncate(len);
            Err(AllocError)
        }
    }
}

// Where the last token other than an error ended, after this one.
fn passed_after<A: Allocator>(passed: usize, token: &Token<A>, end: usize) -> usize
    ensures { result ≡ if is_error (told_by token.now) then passed else end }
{
    match token {
        Token::ParseError(_) => passed,
        _ => end,
    }
}

impl<A: Allocator> PlacedRecords<A> {
    /// Nothing was written yet.
    pub fn new(alloc: A) -> PlacedRecords<A>
        ensures { result ≡ nothing_written }
    {
        PlacedRecords {
            written: Vec::new(alloc),
            skipped: 0,
            passed: 0,
            taken: Log::new(),
        }
    }

    /// Where the last token other than an error ended: the bytes after it may belong to the next one.
    pub fn passed(&self) -> usize
        ensures { result ≡ self.now.passed }
    {
        self.passed
    }

    /// The bytes that were not taken yet: they go on waiting.
    pub fn waiting(&self) -> &[u8]
        ensures waiting { result.now ≡ waiting self.now }
        ensures within { self.now.taken ≤ length self.now.bytes }
    {
        rest_of(&self.written, self.skipped)
    }

    /// Takes this many of the waiting bytes.
    pub fn skip(&mut self, count: usize)
        requires { count ≤ length (waiting self.old) }
        ensures { self.new ≡ after_taking self.old count }
    {
        let front = rest_of(&self.written, self.skipped);
        self.taken.add(&front[..count]);
        skip_front(&mut self.written, &mut self.skipped, count);
    }

    /// Takes as many waiting bytes as there is room for, and copies them. It answers how many. A record may be cut
    /// in two: what is left of it comes first at the next call.
    pub fn take(&mut self, into: &mut [u8]) -> usize
        ensures count { result ≡ min (length into.old) (length (waiting self.old)) }
        ensures copied { into.new ≡ take result (waiting self.old) ++ drop result into.old }
        ensures taken { self.new ≡ after_taking self.old result }
    {
        let waiting = self.waiting();
        let count = into.len().min(waiting.len());
        into[..count].copy_from_slice(&waiting[..count]);
        self.skip(count);
        count
    }
}

impl<A: Allocator> PlacedHandler<Token<A>> for PlacedRecords<A> {
    ghost use Rattle.html5placed.specs.PlacedRecords.{PlacedWriting, placed_step};

    ghost State = { PlacedWriting };

    ghost state = { λ w. w };

    ghost step = { placed_step };

    fn take_token(
        &mut self,
        run: &str,
        token: Token<A>,
        line_number: u64,
        places: Places,
    ) -> Result<(), SinkFault> {
        match push_whole(&mut self.written, run, &token, line_number, places) {
            Ok(()) => {
                self.passed = passed_after(self.passed, &token, places.end);
                Ok(())
            }
            Err(AllocError) => Err(SinkFault),
        }
    }
}
