ghost use Rattle.std.specs.Prelude.{◌≡◌, ◌≢◌, ◌==◌, ◌+◌, ◌^◌, ◌<◌, ◌≤◌, ◌↔◌, [], ◌∷◌, false, All, IsTrue, MatchOption, count_by, length, take};
ghost use Rattle.std.specs.Str.{chars};
ghost use Rattle.html5reading.specs.Characters.{line_feed, carriage_return};
ghost use Rattle.html5reading.specs.NormalisedText.{normalised, drops_first, input_after};

use std::marker::Model;
use std::simd::prelude::*;

// How many bytes are looked at in one step.
const BLOCK: usize = 16;

// How many in a text that is shorter than a block.
const HALF: usize = 8;

// How many in one that is shorter than half a block.
const QUARTER: usize = 4;

/// How the characters of a stream come in: the line that was reached, and whether the next character
/// may be dropped.
#[derive(Drop)]
pub struct Input {
    current_line: u64,
    ignore_lf: bool,
    discard_bom: bool,
}

impl Model for Input {
    ghost use Rattle.std.specs.Prelude.{◌^◌, ◌<◌};
    ghost use Rattle.html5reading.specs.Start.{Input};

    ghost Value = { Input };

    ghost view = { λ p. record {
      line = p.current_line;
      after_carriage_return = p.ignore_lf;
      drops_byte_order_mark = p.discard_bom;
    } };

    ghost invariant = { λ p. p.current_line < 2 ^ 64 };
}

impl Input {
    /// The start of a stream.
    pub fn new(discard_bom: bool) -> Input
        ensures line { result.line ≡ 1 }
        ensures no_carriage_return { result.after_carriage_return ≡ false }
        ensures byte_order_mark { result.drops_byte_order_mark ≡ discard_bom }
    {
        Input {
            current_line: 1,
            ignore_lf: false,
            discard_bom,
        }
    }

    /// The line that was reached.
    #[inline(always)]
    pub fn line(&self) -> u64
        ensures line { result ≡ self.now.line }
        ensures fits { self.now.line < 2 ^ 64 }
    {
        self.current_line
    }

    /// Whether characters from here on are read as they stand, except for line breaks.
    #[inline(always)]
    pub fn is_past_start(&self) -> bool
        ensures past { IsTrue result
            ↔ ((self.now.after_carriage_return ≡ false) × (self.now.drops_byte_order_mark ≡ false)) }
        ensures fits { self.now.line < 2 ^ 64 }
    {
        !self.ignore_lf && !self.discard_bom
    }

    /// Whether the next character is no part of the text: a byte order mark, or a LF after a CR.
    fn drops(&self, c: char) -> bool
        ensures { result ≡ drops_first self.now c }
    {
        self.discard_bom && c == '\u{feff}' || self.ignore_lf && c == '\n'
    }

    /// Takes a character of the stream, and answers the one that is read for it, if any.
    #[inline(always)]
    pub fn advance(&mut self, c: char) -> Option<char>
        ensures moves { self.new ≡ input_after self.old (c ∷ []) }
        ensures reads { let read = normalised self.old (c ∷ []) in
            MatchOption result (read ≡ []) (λ d. read ≡ d ∷ []) }
    {
        let dropped = self.drops(c);
        self.discard_bom = false;
        self.ignore_lf = false;
        if dropped {
            return None;
        }
        if c != '\r' && c != '\n' {
            return Some(c);
        }
        self.ignore_lf = c == '\r';
        self.current_line = self.current_line.saturating_add(1);
        Some('\n')
    }

    /// Takes a run, whose characters come in as they stand: none is a CR, and none is dropped.
    #[inline(always)]
    pub fn advance_run(&mut self, run: &str)
        requires past_line_break { self.old.after_carriage_return ≡ false }
        requires past_stream_start { self.old.drops_byte_order_mark ≡ false }
        requires no_carriage_return { All (λ c. c ≢ carriage_return) (chars run.now) }
        ensures moves { self.new ≡ input_after self.old (chars run.now) }
    {
        self.current_line = self.current_line.saturating_add(line_feeds(run));
    }
}

// How many line feeds a text has.
fn line_feeds(text: &str) -> u64
    ensures { result ≡ count_by (λ c. c == line_feed) (chars text.now) }
{
    let bytes = text.as_bytes();
    if bytes.len() < BLOCK {
        return line_feeds_in_few(bytes);
    }
    let mut found = 0;
    let mut at = 0;
    while BLOCK <= bytes.len() - at {
        found += line_feeds_in_block::<BLOCK>(bytes, at, 0);
        at += BLOCK;
    }
    let last = bytes.len() - BLOCK;
    found + line_feeds_in_block::<BLOCK>(bytes, last, at - last)
}

// How many line feeds a text has that is shorter than a block.
#[inline(always)]
fn line_feeds_in_few(bytes: &[u8]) -> u64
    requires { length bytes.now < 16 }
    ensures { result ≡ count_by (λ b. b == line_feed) bytes.now }
{
    if HALF <= bytes.len() {
        return line_feeds_in_ends::<HALF>(bytes);
    }
    if QUARTER <= bytes.len() {
        return line_feeds_in_ends::<QUARTER>(bytes);
    }
    let mut found = 0;
    for place in 0..bytes.len() {
        found += u64::from(bytes[place] == b'\n');
    }
    found
}

// How many line feeds a text has, by the blocks of this many lanes that it begins and ends with, which may overlap.
#[inline(always)]
fn line_feeds_in_ends<const LANES: usize>(bytes: &[u8]) -> u64
    requires lanes { LANES < 64 }
    requires within { LANES ≤ length bytes.now }
    requires reaches { length bytes.now ≤ LANES + LANES }
    ensures { result ≡ count_by (λ b. b == line_feed) bytes.now }
{
    let last = bytes.len() - LANES;
    line_feeds_in_block::<LANES>(bytes, 0, 0)
        + line_feeds_in_block::<LANES>(bytes, last, LANES - last)
}

// How many line feeds a block of this many lanes has after its first bytes, whose own were counted. All bytes are
// looked at at once.
#[inline(always)]
fn line_feeds_in_block<const LANES: usize>(bytes: &[u8], from: usize, counted: usize) -> u64
    requires lanes { LANES < 64 }
    requires within { from + LANES ≤ length bytes.now }
    requires counted { counted ≤ LANES }
    ensures counts { count_by (λ b. b == line_feed) (take (from + counted) bytes.now) + result
        ≡ count_by (λ b. b == line_feed) (take (from + LANES) bytes.now) }
    ensures few { result ≤ LANES }
{
    let block = Simd::<u8, LANES>::from_slice(&bytes[from..]);
    let found = block.simd_eq(Simd::<u8, LANES>::splat(b'\n'));
    u64::from((found.to_bitmask() >> counted).count_ones())
}
