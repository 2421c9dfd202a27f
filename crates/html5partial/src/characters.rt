//! Kinds of characters.
#![tactic(auto, unfolding(html5reading::proofs::OnSteps::character_words))]

ghost use Rattle.std.specs.Prelude.{◌≡◌, ◌==◌, ◌||◌, ◌&&◌, IfSome, is_some, encode_utf8};
ghost use Rattle.std.specs.Char.{to_ascii_lowercase};
ghost use Rattle.html5reading.specs.Characters.{null, quotation_mark, apostrophe, is_white_space, is_letter, shown, name_bytes};
ghost use Rattle.html5reading.specs.RawText.{ends_name};
ghost use Rattle.html5reading.specs.Tag.{is_odd_in_name, is_odd_at_name, is_odd_in_unquoted, quote_of};

use html5ever_interface::states::AttrValueKind;

pub fn is_white_space(c: char) -> bool
    ensures { result ≡ is_white_space c }
{
    matches!(c, '\t' | '\n' | '\x0C' | ' ')
}

/// Whether the character is an ASCII letter.
pub fn is_letter(c: char) -> bool
    ensures { result ≡ is_letter c }
{
    matches!(c, 'A'..='Z' | 'a'..='z')
}

/// Whether the character ends a name: white space, `/` and `>`.
pub fn ends_name(c: char) -> bool
    ensures { result ≡ ends_name c }
{
    is_white_space(c) || matches!(c, '/' | '>')
}

/// The letter in lower case, where the character is an ASCII letter.
pub fn lower_ascii_letter(c: char) -> Option<char>
    ensures letter { is_some result ≡ is_letter c }
    ensures lower { IfSome result (λ letter. letter ≡ to_ascii_lowercase c) }
{
    match c {
        'a'..='z' => Some(c),
        'A'..='Z' => Some(c.to_ascii_lowercase()),
        _ => None,
    }
}

/// The character that stands for one in names and values: U+FFFD for NUL.
pub fn shown(c: char) -> char
    ensures { result ≡ shown c }
{
    if c == '\0' { '\u{fffd}' } else { c }
}

/// The character that stands for one in names: a letter in lower case, and U+FFFD for NUL.
pub fn name_character(c: char) -> char
    ensures { encode_utf8 result ≡ name_bytes c }
{
    lower_ascii_letter(c).unwrap_or(shown(c))
}

/// Whether the character is an error in an attribute's name.
pub fn is_odd_in_name(c: char) -> bool
    ensures { result ≡ is_odd_in_name c }
{
    matches!(c, '\0' | '"' | '\'' | '<')
}

/// Whether the character is an error as the first of an attribute's name.
pub fn is_odd_at_name(c: char) -> bool
    ensures { result ≡ is_odd_at_name c }
{
    is_odd_in_name(c) || c == '='
}

// Whether exact errors report the character in a value without quotes.
fn is_odd_in_unquoted(c: char) -> bool
    ensures { result ≡ is_odd_in_unquoted c }
{
    matches!(c, '"' | '\'' | '<' | '=' | '`')
}

/// Whether the character is an error in a value without quotes.
pub fn is_unquoted_error(exact_errors: bool, c: char) -> bool
    ensures { result ≡ ((c == null) || (exact_errors && is_odd_in_unquoted c)) }
{
    c == '\0' || exact_errors && is_odd_in_unquoted(c)
}

/// Whether the character is a quote.
pub fn is_quote(c: char) -> bool
    ensures { result ≡ ((c == quotation_mark) || (c == apostrophe)) }
{
    matches!(c, '"' | '\'')
}

/// The quote that ends a value.
pub fn quote_of(kind: AttrValueKind) -> char
    ensures { result ≡ quote_of kind }
{
    match kind {
        AttrValueKind::DoubleQuoted => '"',
        AttrValueKind::SingleQuoted => '\'',
        AttrValueKind::Unquoted => '>',
    }
}
