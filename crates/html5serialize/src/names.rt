//! Which names, texts and identifiers a reading gives, by their bytes.
ghost use Rattle.std.specs.Prelude.{◌≡◌};
ghost use Rattle.std.specs.List.{list_all};
ghost use Rattle.html5grammar.specs.Comment.{is_content, occurs};
ghost use Rattle.html5reading.specs.Characters.{apostrophe, quotation_mark};
ghost use Rattle.html5serialize.specs.Doctypes as doctypes;
ghost use Rattle.html5serialize.specs.Doctypes.{is_identifier, is_markup_character, is_name, is_without};
ghost use Rattle.html5serialize.specs.Refusals.{null_from};
ghost use Rattle.html5serialize.specs.Tags.{is_attribute_name, is_later_character};
ghost use Rattle.html5serialize.specs.Tokens.{is_comment_text};
ghost use Rattle.html5write.specs.Pieces.{is_comment_character, is_name_character, is_tag_name};

// The byte at which the first NUL of a text stands.
pub fn null_in(text: &str) -> Option<usize>
    ensures { result ≡ null_from 0 text.now }
{
    for (at, byte) in text.as_bytes().iter().enumerate() {
        if *byte == 0 {
            return Some(at);
        }
    }
    None
}

// Whether a character can stand in the name of a tag.
#[tactic(auto, unfolding(html5write::specs::Pieces::is_name_character, html5reading::specs::Characters::is_white_space))]
fn is_name_character(c: u8) -> bool
    ensures { result ≡ is_name_character c }
{
    !matches!(
        c,
        b'\t' | b'\n' | b'\x0C' | b' ' | b'/' | b'>' | b'\0' | b'\r' | b'A'..=b'Z'
    )
}

// Whether each character of a text can stand there.
fn has_name_characters(text: &[u8]) -> bool
    ensures { result ≡ list_all is_name_character text.now }
{
    text.iter().all(|c| is_name_character(*c))
}

// Whether a text can be the name of a tag.
#[tactic(auto, unfolding(html5write::specs::Pieces::is_tag_name))]
pub fn is_tag_name(name: &str) -> bool
    ensures { result ≡ is_tag_name name.now }
{
    match name.as_bytes() {
        [first, rest @ ..] => first.is_ascii_lowercase() && has_name_characters(rest),
        [] => false,
    }
}

// Whether a character can stand in the name of an attribute, after its first one.
fn is_later_character(c: u8) -> bool
    ensures { result ≡ is_later_character c }
{
    is_name_character(c) && c != b'='
}

// Whether each character of a text can stand there.
fn has_later_characters(text: &[u8]) -> bool
    ensures { result ≡ list_all is_later_character text.now }
{
    text.iter().all(|c| is_later_character(*c))
}

// Whether a text can be the name of an attribute.
#[tactic(auto, unfolding(crate::specs::Tags::is_attribute_name))]
pub fn is_attribute_name(name: &str) -> bool
    ensures { result ≡ is_attribute_name name.now }
{
    match name.as_bytes() {
        [first, rest @ ..] => is_name_character(*first) && has_later_characters(rest),
        [] => false,
    }
}

// Whether a character can stand in a comment.
fn is_comment_character(c: u8) -> bool
    ensures { result ≡ is_comment_character c }
{
    !matches!(c, b'\0' | b'\r')
}

// Whether each character of a text can stand in a comment.
pub fn has_comment_characters(text: &[u8]) -> bool
    ensures { result ≡ list_all is_comment_character text.now }
{
    text.iter().all(|c| is_comment_character(*c))
}

// Whether the word stands anywhere in the text.
pub fn occurs(word: &[u8], text: &[u8]) -> bool
    ensures { result ≡ occurs word.now text.now }
{
    for at in 0..text.len() {
        if text[at..].starts_with(word) {
            return true;
        }
    }
    false
}

// Whether no end of a comment stands in the text.
#[tactic(auto, unfolding(html5grammar::specs::Comment::is_content))]
fn is_content(text: &[u8]) -> bool
    ensures { result ≡ is_content text.now }
{
    !text.starts_with(b">")
        && !text.starts_with(b"->")
        && !occurs(b"-->", text)
        && !occurs(b"--!>", text)
}

// Whether a text can be that of a comment.
#[tactic(auto, unfolding(crate::specs::Tokens::is_comment_text))]
pub fn is_comment_text(text: &str) -> bool
    ensures { result ≡ is_comment_text text.now }
{
    has_comment_characters(text.as_bytes()) && is_content(text.as_bytes())
}

// Whether a character can stand in markup that the first `>` ends.
#[tactic(auto, unfolding(crate::specs::Doctypes::is_markup_character))]
fn is_markup_character(c: u8) -> bool
    ensures { result ≡ is_markup_character c }
{
    !matches!(c, b'>' | b'\0' | b'\r')
}

// Whether each character of a text can stand there.
pub fn has_markup_characters(text: &str) -> bool
    ensures { result ≡ list_all is_markup_character text.now }
{
    text.as_bytes().iter().all(|c| is_markup_character(*c))
}

// Whether a character can stand in the name of a doctype.
#[tactic(auto, unfolding(crate::specs::Doctypes::is_name_character, crate::specs::Doctypes::is_markup_character, html5reading::specs::Characters::is_white_space))]
fn is_doctype_character(c: u8) -> bool
    ensures { result ≡ doctypes.is_name_character c }
{
    is_markup_character(c) && !matches!(c, b'\t' | b'\n' | b'\x0C' | b' ' | b'A'..=b'Z')
}

// Whether each character of a text can stand there.
fn has_doctype_characters(text: &[u8]) -> bool
    ensures { result ≡ list_all doctypes.is_name_character text.now }
{
    text.iter().all(|c| is_doctype_character(*c))
}

// Whether a text can be the name of a doctype.
#[tactic(auto, unfolding(crate::specs::Doctypes::is_name))]
pub fn is_doctype_name(name: &str) -> bool
    ensures { result ≡ is_name name.now }
{
    !name.is_empty() && has_doctype_characters(name.as_bytes())
}

// Whether no double quote stands in the text.
pub fn is_without_double_quotes(text: &str) -> bool
    ensures { result ≡ is_without quotation_mark text.now }
{
    text.as_bytes().iter().all(|c| *c != b'"')
}

// Whether no single quote stands in the text.
fn is_without_single_quotes(text: &str) -> bool
    ensures { result ≡ is_without apostrophe text.now }
{
    text.as_bytes().iter().all(|c| *c != b'\'')
}

// Whether a text can be an identifier of a doctype.
#[tactic(auto, unfolding(crate::specs::Doctypes::is_identifier))]
pub fn is_identifier(text: &str) -> bool
    ensures { result ≡ is_identifier text.now }
{
    has_markup_characters(text)
        && (is_without_double_quotes(text) || is_without_single_quotes(text))
}
