//! The held text of a character reference until it is decided, and its longest name.
#![tactic(auto)]

ghost use Rattle.std.specs.Prelude.{◌≡◌, ◌≢◌, ◌≤◌, ◌<◌, ◌||◌, ◌&&◌, ◌==◌, ℕ, ◌∷◌, [], ◌++◌, true, false, All, Option, Some, None, IfOk, IfErr, OnOk, MatchOption, length, take, drop, slice_index, string_bytes, if◌then◌else◌};
ghost use Rattle.std.specs.Char.{is_ascii_alphanumeric};
ghost use Rattle.std.specs.Option.{is_none};
ghost use Rattle.std.specs.List.{list_all};
ghost use Rattle.std.specs.Str.{IsAscii, IsUtf8, chars};
ghost use Rattle.html5reading.specs.Characters.{number_sign, semicolon};
ghost use Rattle.html5reading.specs.Reference.{is_undecided, is_number, longest_name, first_or};
ghost use Rattle.html5partial.specs.CharRef.{BeginsInAscii, HoldsEach, IsHeld, IsNameFront, IsNumberHeld, IsNamed};
ghost use Rattle.markup5ever.specs.NamedReferences.{begins_name};

use crate::number::continues_number;
use markup5ever::data::NamedReferences;
use std::alloc::{AllocError, Allocator, Global};
use std::marker::Model;

/// The text after the `&` of an undecided reference.
#[derive(Drop)]
pub struct CharRef<A: Allocator = Global> {
    held: String<A>,
    // Whether all of it is letters and digits.
    is_alphanumeric: bool,
}

impl<A: Allocator> Model for CharRef<A> {
    ghost use Rattle.std.specs.Prelude.{ℕ, List, string_bytes};
    ghost use Rattle.html5partial.specs.CharRef.{IsHeld};

    ghost Value = { List ℕ };

    ghost view = { λ r. string_bytes r.held };

    ghost invariant = { λ r. IsHeld (string_bytes r.held) r.is_alphanumeric };
}

/// What a reference comes to, besides its errors: how many bytes after the `&` it takes, with the
/// semicolon of a number, and its one or two characters.
#[derive(Clone, Copy, Debug, PartialEq, Eq)]
pub struct Found {
    pub taken: usize,
    pub first: char,
    pub second: Option<char>,
}

/// A name of the table with which a text begins, and its characters.
#[derive(Clone, Copy, Debug, PartialEq, Eq)]
pub struct Named {
    pub len: usize,
    pub first: char,
    pub second: Option<char>,
}

impl<A: Allocator> CharRef<A> {
    /// Nothing is held.
    pub fn new(alloc: A) -> CharRef<A>
        ensures { result ≡ [] }
    {
        CharRef {
            held: String::new(alloc),
            is_alphanumeric: true,
        }
    }

    /// Holds nothing from here on.
    pub fn clear(&mut self)
        ensures { self.new ≡ [] }
    {
        self.held.clear();
        self.is_alphanumeric = true;
    }

    /// The held text.
    pub fn text(&self) -> &str
        ensures text { result.now ≡ self.now }
        ensures plain { All (λ c. (number_sign ≤ c) × (c ≤ 0x7A)) self.now }
    {
        &self.held
    }

    /// The text after the `#` of a number, if a number is held.
    pub fn number(&self) -> Option<&str>
        ensures { MatchOption result (first_or self.now None ≢ Some number_sign)
            (λ number. (self.now ≡ number_sign ∷ number.now) × (is_number number.now ≡ true)) }
    {
        self.held.strip_prefix('#')
    }

    /// Holds the character, too, where that leaves the reference undecided. Answers whether it does.
    pub fn hold(&mut self, references: &NamedReferences<A>, c: char) -> Result<bool, AllocError>
        ensures undecided { IfOk result (λ undecided. undecided ≡ is_undecided references.now (self.old ++ c ∷ [])) }
        ensures held { IfOk result (λ undecided. self.new ≡ (if undecided then self.old ++ c ∷ [] else self.old)) }
        ensures plain { result ≡ Ok true → (number_sign ≤ c) × (c ≤ 0x7A) }
        ensures kept { IfErr result (λ e. self.new ≡ self.old) }
    {
        if let Some(number) = self.number() {
            if !continues_number(number, c) {
                return Ok(false);
            }
            self.hold_number(c)?;
            return Ok(true);
        }
        if self.begins_number(c) {
            self.hold_number(c)?;
            return Ok(true);
        }
        if !is_in_names(c) {
            references.table_laws();
            return Ok(false);
        }
        self.hold_name(references, c)
    }

    /// Right after the `&`, holds all the letters and digits with which a text begins, if a name of the
    /// table begins with them. It holds the semicolon after them, if one begins with that, too. Answers
    /// how many bytes it holds. They are none if something is held, so a text is searched once for each
    /// `&`.
    #[inline(never)]
    pub fn hold_front(
        &mut self,
        references: &NamedReferences<A>,
        text: &str,
    ) -> Result<usize, AllocError>
        ensures within { IfOk result (λ bytes. bytes ≤ length text.now) }
        ensures rest_utf8 { IfOk result (λ bytes. IsUtf8 (drop bytes text.now)) }
        ensures holds { IfOk result (λ bytes. HoldsEach references.now self.old (chars (take bytes text.now))) }
        ensures held { IfOk result (λ bytes. self.new ≡ self.old ++ chars (take bytes text.now)) }
        ensures kept { IfErr result (λ e. self.new ≡ self.old) }
        ensures refused { IfErr result (λ e. BeginsInAscii text.now) }
    {
        if !self.held.is_empty() {
            return Ok(0);
        }
        let letters = letters_len(text);
        let bytes = front_len(references, text, letters);
        if bytes == 0 {
            return Ok(0);
        }
        self.held.push_str(&text[..bytes])?;
        self.is_alphanumeric = bytes == letters;
        Ok(bytes)
    }

    // Whether the character is the `#` of a number.
    fn begins_number(&self, c: char) -> bool
        ensures { result ≡ ((length self.now == 0) && (c == number_sign)) }
    {
        self.held.is_empty() && c == '#'
    }

    // Holds a character of a number.
    fn hold_number(&mut self, c: char) -> Result<(), AllocError>
        requires plain { (number_sign ≤ c) × (c ≤ 0x7A) }
        requires number { IsNumberHeld (self.old ++ c ∷ []) }
        requires is_number { first_or (self.old ++ c ∷ []) None ≡ Some number_sign }
        ensures held { OnOk result (self.new ≡ self.old ++ c ∷ []) }
        ensures kept { IfErr result (λ e. self.new ≡ self.old) }
    {
        self.held.push(c)?;
        self.is_alphanumeric = false;
        Ok(())
    }

    // Holds a letter, a digit or a semicolon of a name, where that leaves it undecided.
    fn hold_name(&mut self, references: &NamedReferences<A>, c: char) -> Result<bool, AllocError>
        requires plain { (is_ascii_alphanumeric c || (c == semicolon)) ≡ true }
        requires no_number { first_or self.old None ≢ Some number_sign }
        ensures undecided { IfOk result (λ undecided. undecided ≡ is_undecided references.now (self.old ++ c ∷ [])) }
        ensures held { IfOk result (λ undecided. self.new ≡ (if undecided then self.old ++ c ∷ [] else self.old)) }
        ensures kept { IfErr result (λ e. self.new ≡ self.old) }
    {
        let len = self.held.len();
        self.held.push(c)?;
        let is_alphanumeric = self.is_alphanumeric & c.is_ascii_alphanumeric();
        let undecided = is_undecided_name(references, &self.held, is_alphanumeric);
        if undecided {
            self.is_alphanumeric = is_alphanumeric;
        } else {
            self.held.truncate(len);
        }
        Ok(undecided)
    }
}

// How many letters and digits a text begins with.
fn letters_len(text: &str) -> usize
    ensures within { result ≤ length text.now }
    ensures letters { list_all is_ascii_alphanumeric (take result text.now) ≡ true }
{
    let bytes = text.as_bytes();
    for at in 0..bytes.len() {
        if !bytes[at].is_ascii_alphanumeric() {
            return at;
        }
    }
    bytes.len()
}

// Whether a semicolon stands at the place.
fn is_semicolon_at(text: &str, at: usize) -> bool
    ensures { result ≡ true → (at < length text.now) × (slice_index text.now at ≡ semicolon) }
{
    at < text.len() && text.as_bytes()[at] == b';'
}

// How many bytes of a text are held at once, where it begins with this many letters and digits.
fn front_len<A: Allocator>(references: &NamedReferences<A>, text: &str, letters: usize) -> usize
    requires within { letters ≤ length text.now }
    requires letters { list_all is_ascii_alphanumeric (take letters text.now) ≡ true }
    ensures { IsNameFront references.now text.now letters result }
{
    if letters == 0 {
        return 0;
    }
    if is_semicolon_at(text, letters) && references.is_prefix(&text[..letters + 1]) {
        return letters + 1;
    }
    if references.is_prefix(&text[..letters]) {
        return letters;
    }
    0
}

// Whether the character is one of names.
fn is_in_names(c: char) -> bool
    ensures { result ≡ (is_ascii_alphanumeric c || (c == semicolon)) }
{
    c.is_ascii_alphanumeric() || c == ';'
}

// Whether a name begins with the text, or the text is letters and digits that no name begins.
fn is_undecided_name<A: Allocator>(
    references: &NamedReferences<A>,
    text: &str,
    is_alphanumeric: bool,
) -> bool
    requires { IsAscii text.now }
    ensures { result ≡ (begins_name references.now text.now || (is_alphanumeric && is_none
        (longest_name references.now text.now))) }
{
    references.is_prefix(text) || is_alphanumeric && longest_name(references, text).is_none()
}

/// The longest name of the table with which the text begins. Most texts are a name, which one search
/// finds.
pub fn longest_name<A: Allocator>(references: &NamedReferences<A>, text: &str) -> Option<Named>
    requires { IsAscii text.now }
    ensures { IsNamed text.now result (longest_name references.now text.now) }
{
    if let Some((first, second)) = references.get(text) {
        return Some(Named {
            len: text.len(),
            first,
            second,
        });
    }
    longest_by_beginnings(references, text)
}

// The longest name with which the text begins, by its prefixes, as long as a name begins so.
fn longest_by_beginnings<A: Allocator>(references: &NamedReferences<A>, text: &str) -> Option<Named>
    requires { IsAscii text.now }
    ensures { IsNamed text.now result (longest_name references.now text.now) }
{
    references.table_laws();
    let mut found = None;
    let mut len = 0;
    while len < text.len() && references.is_prefix(&text[..len + 1]) {
        len += 1;
        if let Some((first, second)) = references.get(&text[..len]) {
            found = Some(Named { len, first, second });
        }
    }
    found
}
