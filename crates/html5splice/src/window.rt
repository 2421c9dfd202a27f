//! The bytes of a page that wait for the token in which they stand.
ghost use Rattle.std.specs.Prelude.{◌≡◌, ◌+◌, ◌-◌, ◌≤◌, ◌++◌, [], drop, length, take, IfSome, OnErr, OnOk, string_bytes};
ghost use Rattle.std.specs.Str.{IsCharBoundary};

use html5places::Places;
use std::alloc::{AllocError, Allocator, Global};
use std::marker::Model;

// A run of text, and the token after it, as they are written.
#[derive(Clone, Copy)]
pub struct Front<'t> {
    pub run: &'t str,
    pub source: &'t str,
    // Both.
    pub whole: &'t str,
}

// The text of a page from where its last token ended.
#[derive(Drop)]
pub struct Window<A: Allocator = Global> {
    alloc: A,
    text: String<A>,
    // How many bytes of the text are gone.
    gone: usize,
    // The place in the page of the byte after those.
    base: usize,
}

impl<A: Allocator> Model for Window<A> {
    ghost use Rattle.std.specs.Prelude.{drop, string_bytes};
    ghost use Rattle.std.specs.Str.{IsCharBoundary};
    ghost use Rattle.html5splice.specs.Splicing.{Waiting};

    ghost Value = { Waiting };

    ghost view = { λ w. record { bytes = drop w.gone (string_bytes w.text); base = w.base } };

    ghost invariant = { λ w. IsCharBoundary (string_bytes w.text) w.gone };
}

// A text that is cut twice: this many bytes, this many more, and the rest.
fn split_twice(text: &str, first: usize, second: usize) -> Option<Front<'_>>
    ensures run { IfSome result (λ front. front.run.now ≡ take first text.now) }
    ensures source { IfSome result (λ front. front.source.now ≡ take second (drop first text.now)) }
    ensures whole { IfSome result (λ front. front.whole.now ≡ front.run.now ++ front.source.now) }
    ensures boundary { IfSome result (λ front. IsCharBoundary text.now (first + second)) }
{
    let (whole, _) = text.split_at_checked(first.checked_add(second)?)?;
    let (run, source) = whole.split_at_checked(first)?;
    Some(Front { run, source, whole })
}

impl<A: Allocator + Copy> Window<A> {
    // At the first byte of a page.
    pub fn new(alloc: A) -> Window<A>
        ensures { result ≡ record { bytes = []; base = 0 } }
    {
        Window {
            alloc,
            text: String::new(alloc),
            gone: 0,
            base: 0,
        }
    }

    // The waiting text.
    fn waiting(&self) -> &str
        ensures { result.now ≡ self.now.bytes }
    {
        &self.text[self.gone..]
    }

    // The run of text at the front of the waiting text, and the token after it, which stand there. There is none where
    // they stand elsewhere, or begin within a character.
    pub fn front(&self, places: Places) -> Option<Front<'_>>
        ensures run { IfSome result (λ front. front.run.now ≡ take (places.begin - self.now.base) self.now.bytes) }
        ensures source { IfSome result (λ front. front.source.now
            ≡ take (places.end - places.begin) (drop (places.begin - self.now.base) self.now.bytes)) }
        ensures whole { IfSome result (λ front. front.whole.now ≡ front.run.now ++ front.source.now) }
        ensures boundary { IfSome result (λ front. IsCharBoundary self.now.bytes (places.end - self.now.base)) }
        ensures within { IfSome result (λ front. self.now.base ≤ places.end) }
    {
        let run = places.begin.checked_sub(self.base)?;
        let source = places.end.checked_sub(places.begin)?;
        split_twice(self.waiting(), run, source)
    }

    // Drops the waiting text up to a place.
    pub fn pass(&mut self, end: usize)
        requires within { self.old.base ≤ end }
        requires boundary { IsCharBoundary self.old.bytes (end - self.old.base) }
        ensures { self.new ≡ record { bytes = drop (end - self.old.base) self.old.bytes; base = end } }
    {
        self.gone += end - self.base;
        self.base = end;
    }

    // Drops passed bytes once they are more than half: so a byte is copied at most once for each that goes.
    fn shrink(&mut self) -> Result<(), AllocError>
        ensures { self.new ≡ self.old }
    {
        if self.gone > self.text.len() / 2 {
            self.text = String::from_str(self.alloc, self.waiting())?;
            self.gone = 0;
        }
        Ok(())
    }

    // More of the page waits.
    pub fn push(&mut self, text: &str) -> Result<(), AllocError>
        ensures ok { OnOk result (self.new ≡ record self.old { bytes = self.old.bytes ++ text.now }) }
        ensures err { OnErr result (self.new ≡ self.old) }
    {
        self.shrink()?;
        self.text.push_str(text)
    }
}
