//! The text that waits to be read.
ghost use Rattle.std.specs.Prelude.{◌≡◌, ◌≢◌, ℕ, true, false, ◌+◌, ◌<◌, ◌≤◌, ◌↔◌, ◌/◌, List, [], ◌∷◌, ◌++◌, length, take, drop, encode_utf8, encode_utf8_all, IsTrue, IsNone, IsOk, IfOk, IfErr, IfSome, IfNone, OnOk, OnErr};
ghost use Rattle.std.specs.Char.{IsScalar, len_utf8};
ghost use Rattle.std.specs.Str.{IsAscii, IsUtf8, chars};
ghost use Rattle.std.specs.String.{string_bytes};
ghost use Rattle.std.specs.String.Boundary.{IsSplitPoint};
ghost use Rattle.markup5ever.specs.BufferQueue.{Gains, GainsFront, IsReadTo, TakesBack, Takes};
ghost use Rattle.markup5ever.specs.SmallCharSet.{IsMember};

use crate::small_char_set::SmallCharSet;
use crate::text::push_text;
use ghost_counts::Count;
use std::alloc::{AllocError, Allocator, Global};
use std::marker::Model;
use std::mem;

/// What `BufferQueue::pop_except_from` took.
#[derive(Drop)]
#[derive_where(Debug, PartialEq, Eq)]
pub enum SetResult<A: Allocator = Global> {
    /// A character of the set.
    FromSet(char),
    /// A run of characters that are not in the set.
    NotFromSet(String<A>),
}

/// How `BufferQueue::eat` compares letters.
#[derive(Clone, Copy, Debug, PartialEq, Eq)]
pub enum Case {
    /// As they are.
    Exact,
    /// ASCII letters in any case, and all else as it is.
    IgnoreAscii,
}

impl Case {
    ghost use Rattle.markup5ever.specs.Case.{folded};

    // Whether the two are equal, so compared.
    fn equates(self, text: &[u8], pattern: &[u8]) -> bool
        ensures { IsTrue result ↔ (folded self text.now ≡ folded self pattern.now) }
    {
        match self {
            Case::Exact => text == pattern,
            Case::IgnoreAscii => text.eq_ignore_ascii_case(pattern),
        }
    }
}

/// The text that waits to be read.
#[derive(Drop)]
pub struct BufferQueue<A: Allocator = Global> {
    text: String<A>,
    // How many bytes of the text were taken.
    offset: usize,
    handed_in: Count,
    taken: Count,
}

impl<A: Allocator> Model for BufferQueue<A> {
    ghost use Rattle.std.specs.Prelude.{drop};
    ghost use Rattle.std.specs.Str.{chars};
    ghost use Rattle.std.specs.String.{string_bytes};
    ghost use Rattle.markup5ever.specs.BufferQueue.{TextQueue, IsReadTo};

    ghost Value = { TextQueue };

    ghost view = { λ q. record {
      text = chars (drop q.offset (string_bytes q.text));
      handed_in = q.handed_in.total;
      taken = q.taken.total;
    } };

    ghost invariant = { λ q. IsReadTo (string_bytes q.text) q.offset };
}

// Appends a text to one of which this many bytes were taken. What is left of it moves to the front of its
// memory first, once more than half was taken.
fn append<A: Allocator>(
    text: &mut String<A>,
    offset: &mut usize,
    back: &str,
) -> Result<(), AllocError>
    requires { IsReadTo (string_bytes text.old) offset.old }
    ensures ok { OnOk result (drop offset.new (string_bytes text.new)
        ≡ drop offset.old (string_bytes text.old) ++ back.now) }
    ensures err { OnErr result (drop offset.new (string_bytes text.new)
        ≡ drop offset.old (string_bytes text.old)) }
    ensures empty { back.now ≡ [] → IsOk result }
    ensures read_to { IsReadTo (string_bytes text.new) offset.new }
    ensures moved_up { offset.new ≤ length (string_bytes text.new) / 2 }
{
    if *offset > text.len() / 2 {
        match text.replace_range(..*offset, "") {
            Ok(()) => *offset = 0,
            Err(_) => unreachable!(),
        }
    }
    push_text(text, back)
}

// A blank for each byte of the widest character.
const BLANKS: &str = "    ";

// Makes a place in what was taken a boundary of characters. A character that it cuts is overwritten with blanks.
fn make_boundary<A: Allocator>(text: &mut String<A>, offset: usize, at: usize) -> bool
    requires read_to { IsReadTo (string_bytes text.old) offset }
    requires before { at ≤ offset }
    ensures boundary { IsTrue result → IsSplitPoint (string_bytes text.new) at }
    ensures waits { drop offset (string_bytes text.new) ≡ drop offset (string_bytes text.old) }
    ensures len { length (string_bytes text.new) ≡ length (string_bytes text.old) }
{
    let (from, to) = (text.floor_char_boundary(at), text.ceil_char_boundary(at));
    let width = to - from;
    if to <= offset && width <= BLANKS.len() {
        let _ = text.replace_range(from..to, &BLANKS[..width]);
    }
    text.is_char_boundary(at)
}

// Writes a text over the end of what was taken, so that it waits in front of the rest. Answers `false` if there is
// no room: then the queued text stays.
fn write_in_front<A: Allocator>(text: &mut String<A>, offset: &mut usize, front: &str) -> bool
    requires { IsReadTo (string_bytes text.old) offset.old }
    ensures written { IsTrue result → drop offset.new (string_bytes text.new)
        ≡ front.now ++ drop offset.old (string_bytes text.old) }
    ensures no_room { result ≡ false → drop offset.new (string_bytes text.new)
        ≡ drop offset.old (string_bytes text.old) }
    ensures within { offset.new ≤ length (string_bytes text.new) }
{
    if front.len() > *offset {
        return false;
    }
    let start = *offset - front.len();
    if !make_boundary(text, *offset, start) {
        return false;
    }
    if text.replace_range(start..*offset, front).is_err() {
        return false;
    }
    *offset = start;
    true
}

// Appends the rest to a text. A copy of the rest's first half comes before both, and the answer is its length. It is
// room for further texts, so that many short ones don't copy the rest each time.
fn append_with_room<A: Allocator>(text: &mut String<A>, rest: &str) -> Result<usize, AllocError>
    ensures waits { IfOk result (λ offset. drop offset (string_bytes text.new)
        ≡ string_bytes text.old ++ rest.now) }
    ensures within { IfOk result (λ offset. offset ≤ length (string_bytes text.new)) }
    ensures err { OnErr result (string_bytes text.new ≡ string_bytes text.old) }
{
    let room = rest.floor_char_boundary(rest.len() / 2);
    text.reserve(room + rest.len())?;
    if text.insert_str(0, &rest[..room]).is_err() || text.push_str(rest).is_err() {
        unreachable!();
    }
    Ok(room)
}

// The first character of a text, and how many bytes it takes. Most are ASCII, which the first byte tells.
#[inline(always)]
fn first_char(text: &str) -> Option<(char, usize)>
    ensures none { IsNone result ↔ (text.now ≡ []) }
    ensures some { IfSome result (λ first. (rest : List ℕ) × (text.now ≡ encode_utf8 first.0 ++ rest)) }
    ensures width { IfSome result (λ first. first.1 ≡ len_utf8 first.0) }
{
    let first = *text.as_bytes().first()?;
    if first.is_ascii() {
        return Some((char::from(first), 1));
    }
    let c = text.chars().next()?;
    Some((c, c.len_utf8()))
}

impl<A: Allocator> BufferQueue<A> {
    ghost use Rattle.markup5ever.specs.Case.{BeginsLike, Differ, EndsWithin};

    /// A queue with no text, which takes no memory.
    pub fn new(alloc: A) -> BufferQueue<A>
        ensures text { result.text ≡ [] }
        ensures handed_in { result.handed_in ≡ 0 }
        ensures taken { result.taken ≡ 0 }
    {
        BufferQueue {
            text: String::new(alloc),
            offset: 0,
            handed_in: Count::new(),
            taken: Count::new(),
        }
    }

    pub fn is_empty(&self) -> bool
        ensures { IsTrue result ↔ (self.now.text ≡ []) }
    {
        self.front_text().is_empty()
    }

    /// Hands in a text, which comes back if there is no memory for it.
    pub fn push_back(&mut self, text: String<A>) -> Result<(), String<A>>
        ensures ok { OnOk result (Gains self.old self.new (chars (string_bytes text))) }
        ensures err { OnErr result (self.new ≡ self.old) }
        ensures returned { IfErr result (λ back. string_bytes back ≡ string_bytes text) }
        ensures empty { string_bytes text ≡ [] → IsOk result }
    {
        if text.is_empty() {
            return Ok(());
        }
        if self.is_empty() {
            self.handed_in = self.handed_in.with_chars(&text);
            self.text = text;
            self.offset = 0;
            return Ok(());
        }
        match self.push_str(&text) {
            Ok(()) => Ok(()),
            Err(_) => Err(text),
        }
    }

    /// Hands in a copy of a text.
    pub fn push_str(&mut self, text: &str) -> Result<(), AllocError>
        ensures ok { OnOk result (Gains self.old self.new (chars text.now)) }
        ensures err { OnErr result (self.new ≡ self.old) }
        ensures empty { text.now ≡ [] → IsOk result }
    {
        append(&mut self.text, &mut self.offset, text)?;
        self.handed_in = self.handed_in.with_chars(text);
        Ok(())
    }

    /// Hands in a text in front of the queued text. It comes back if there is no memory for it.
    pub fn push_front(&mut self, text: String<A>) -> Result<(), String<A>>
        ensures ok { OnOk result (GainsFront self.old self.new (chars (string_bytes text))) }
        ensures err { OnErr result (self.new ≡ self.old) }
        ensures returned { IfErr result (λ back. string_bytes back ≡ string_bytes text) }
        ensures empty { string_bytes text ≡ [] → IsOk result }
    {
        let handed_in = self.handed_in.with_chars(&text);
        self.give_back(text)?;
        self.handed_in = handed_in;
        Ok(())
    }

    /// Puts a text that was handed in before in front of the queued text. It comes back if there is no
    /// memory for it.
    pub fn give_back(&mut self, mut text: String<A>) -> Result<(), String<A>>
        ensures ok { OnOk result (TakesBack self.old self.new (chars (string_bytes text))) }
        ensures err { OnErr result (self.new ≡ self.old) }
        ensures returned { IfErr result (λ back. string_bytes back ≡ string_bytes text) }
        ensures empty { string_bytes text ≡ [] → IsOk result }
    {
        if text.is_empty() {
            return Ok(());
        }
        if write_in_front(&mut self.text, &mut self.offset, &text) {
            return Ok(());
        }
        let Ok(room) = append_with_room(&mut text, self.front_text()) else {
            return Err(text);
        };
        self.text = text;
        self.offset = room;
        Ok(())
    }

    /// The first character, which goes on waiting.
    pub fn peek(&self) -> Option<char>
        ensures none { IsNone result ↔ (self.now.text ≡ []) }
        ensures some { IfSome result (λ c. (rest : List ℕ) × (self.now.text ≡ c ∷ rest)) }
    {
        let (c, _) = first_char(self.front_text())?;
        Some(c)
    }

    /// Takes the first character.
    #[inline(always)]
    pub fn next(&mut self) -> Option<char>
        ensures none { IsNone result ↔ (self.old.text ≡ []) }
        ensures some { IfSome result (λ c. Takes self.old self.new (c ∷ [])) }
        ensures scalar { IfSome result IsScalar }
        ensures unchanged { IfNone result (self.new ≡ self.old) }
    {
        let (c, width) = first_char(self.front_text())?;
        self.skip(width);
        Some(c)
    }

    /// Takes the pattern if the queued text begins with it, and answers whether it does. `None` if the queued text ends
    /// before that is decided.
    pub fn eat(&mut self, pat: &str, case: Case) -> Option<bool>
        requires filled { pat.now ≢ [] }
        requires ascii { IsAscii pat.now }
        ensures begins { (result ≡ Some true) ↔ BeginsLike case self.old.text pat.now }
        ensures differs { (result ≡ Some false) ↔ Differ case self.old.text pat.now }
        ensures undecided { IsNone result ↔ EndsWithin case self.old.text pat.now }
        ensures takes { result ≡ Some true →
            Takes self.old self.new (take (length pat.now) self.old.text) }
        ensures count { result ≡ Some true → self.new.taken ≡ self.old.taken + length pat.now }
        ensures unchanged { result ≢ Some true → self.new ≡ self.old }
    {
        let front = self.front_text().as_bytes();
        let pattern = pat.as_bytes();
        let shared = front.len().min(pattern.len());
        if !case.equates(&front[..shared], &pattern[..shared]) {
            return Some(false);
        }
        if front.len() < pattern.len() {
            return None;
        }
        self.skip(pattern.len());
        Some(true)
    }

    /// All that waits, in one piece. It goes on waiting.
    #[inline(always)]
    pub fn front_text(&self) -> &str
        ensures { result.now ≡ encode_utf8_all self.now.text }
    {
        let text = self.text.as_str();
        &text[self.offset..]
    }

    /// Takes this many bytes of the queued text.
    #[inline(always)]
    pub fn skip(&mut self, bytes: usize)
        requires within { bytes ≤ length (encode_utf8_all self.old.text) }
        requires rest_utf8 { IsUtf8 (drop bytes (encode_utf8_all self.old.text)) }
        ensures { Takes self.old self.new (chars (take bytes (encode_utf8_all self.old.text))) }
    {
        let front = &self.text[self.offset..];
        self.taken = self.taken.with_chars(&front[..bytes]);
        if bytes < front.len() {
            self.offset += bytes;
        } else {
            self.text.clear();
            self.offset = 0;
        }
    }
}

// This many bytes are handed out in the queue's own memory. Fewer are copied.
const LENT: usize = 16;

impl<A: Allocator + Copy> BufferQueue<A> {
    ghost use Rattle.markup5ever.specs.SetResult.{Pops, IsLongest};

    /// Takes the first character where the set has it, and otherwise the longest run of characters
    /// that the set has not.
    pub fn pop_except_from(&mut self, set: SmallCharSet) -> Result<Option<SetResult<A>>, AllocError>
        ensures ok { IfOk result (Pops set self.old self.new) }
        ensures none { IfOk result (λ popped. IsNone popped ↔ (self.old.text ≡ [])) }
        ensures member { IfOk result (λ popped. (c : ℕ) (rest : List ℕ) →
            self.old.text ≡ c ∷ rest → IsMember set c → popped ≡ Some (SetResult.FromSet c)) }
        ensures longest { IfOk result (IsLongest set self.new) }
        ensures err { OnErr result (self.new ≡ self.old) }
    {
        let run = set.nonmember_prefix_len(self.front_text());
        if run == 0 {
            let Some(c) = self.next() else {
                return Ok(None);
            };
            return Ok(Some(SetResult::FromSet(c)));
        }
        let text = self.take_text(run)?;
        Ok(Some(SetResult::NotFromSet(text)))
    }

    /// Takes this many bytes as a text. Where these are all of the text, it is handed out as it is, unless
    /// it is short: the queue then keeps its memory for what comes next.
    #[inline(always)]
    pub fn take_text(&mut self, bytes: usize) -> Result<String<A>, AllocError>
        requires within { bytes ≤ length (encode_utf8_all self.old.text) }
        requires rest_utf8 { IsUtf8 (drop bytes (encode_utf8_all self.old.text)) }
        ensures bytes { IfOk result
            (λ text. string_bytes text ≡ take bytes (encode_utf8_all self.old.text)) }
        ensures takes { OnOk result
            (Takes self.old self.new (chars (take bytes (encode_utf8_all self.old.text)))) }
        ensures err { OnErr result (self.new ≡ self.old) }
    {
        if LENT <= bytes && self.offset == 0 && bytes == self.text.len() {
            let empty = String::new(*self.text.allocator());
            self.taken = self.taken.with_chars(&self.text);
            return Ok(mem::replace(&mut self.text, empty));
        }
        let text = String::from_str(*self.text.allocator(), &self.front_text()[..bytes])?;
        self.skip(bytes);
        Ok(text)
    }
}
