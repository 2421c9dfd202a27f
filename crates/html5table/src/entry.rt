//! One entry of a list.
ghost use Rattle.std.specs.Prelude.{◌≡◌, ℕ, List, None, Some, option_map};
ghost use Rattle.std.specs.Char.{is_ascii_hexdigit};
ghost use Rattle.std.specs.List.{list_all};
ghost use Rattle.html5table.specs.Listed.{character_said, characters_said, characters_said_by, entry_said, entry_with, is_hexadecimal};

/// A name, and the one or two characters that it is to stand for.
pub type Parts<'l> = (&'l str, char, Option<char>);

/// What the text of an entry says, if it has the form of one.
pub fn parts_of(entry: &str) -> Option<Parts<'_>>
    ensures { option_map (λ parts. entry_with parts.0.now parts.1 parts.2) result ≡ entry_said entry.now }
{
    let Some((name, characters)) = entry.split_once('=') else {
        return None;
    };
    let Some((first, second)) = characters_of(characters) else {
        return None;
    };
    Some((name, first, second))
}

// One character, or two that a plus joins.
fn characters_of(text: &str) -> Option<(char, Option<char>)>
    ensures { result ≡ characters_said text.now }
{
    match text.split_once('+') {
        Some((first, second)) => two_characters(first, second),
        None => one_character(text),
    }
}

// One character.
fn one_character(digits: &str) -> Option<(char, Option<char>)>
    ensures { result ≡ characters_said_by digits.now None }
{
    match character_of(digits) {
        Some(first) => Some((first, None)),
        None => None,
    }
}

// Two characters.
fn two_characters(first: &str, second: &str) -> Option<(char, Option<char>)>
    ensures { (text : List ℕ) → result ≡ characters_said_by text (Some (first.now, second.now)) }
{
    match (character_of(first), character_of(second)) {
        (Some(first), Some(second)) => Some((first, Some(second))),
        _ => None,
    }
}

// The character that hexadecimal digits name.
fn character_of(digits: &str) -> Option<char>
    ensures { result ≡ character_said digits.now }
{
    if !is_hexadecimal(digits) {
        return None;
    }
    match u32::from_str_radix(digits, 16) {
        Ok(number) => char::from_u32(number),
        Err(_) => None,
    }
}

// How many digits a character has at most.
const MOST_DIGITS: usize = 6;

// Whether these are as many hexadecimal digits as a character has.
fn is_hexadecimal(digits: &str) -> bool
    ensures { result ≡ is_hexadecimal digits.now }
{
    (1..=MOST_DIGITS).contains(&digits.len()) && are_hexadecimal(digits.as_bytes())
}

// Whether these are hexadecimal digits alone.
fn are_hexadecimal(bytes: &[u8]) -> bool
    ensures { result ≡ list_all is_ascii_hexdigit bytes.now }
{
    bytes.iter().all(|byte| byte.is_ascii_hexdigit())
}
