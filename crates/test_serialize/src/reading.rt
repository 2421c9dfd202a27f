//! The text after a start tag, read, and tokens that are compared.
ghost use Rattle.std.specs.Prelude.{◌≡◌, true};
ghost use Rattle.html5ever_interface.specs.States.{is_text_state};

use html5ever::TokenizerError;
use html5ever::tokenizer::collect::Collector;
use html5ever::tokenizer::{NamedReferences, TokenizerOpts, read_whole};
use html5ever_interface::interface::token::Token;
use html5ever_interface::states::State;
use html5serialize::Place;
use std::alloc::Global;

// The state in which the text after the start tag is read.
fn state_of(place: Place) -> State
    ensures { is_text_state result ≡ true }
{
    match place {
        Place::Data => State::Data,
        Place::RawText(kind) => State::RawData(kind),
        Place::PlainText => State::Plaintext,
    }
}

// The tokens of the text after a start tag of this name.
pub fn read(
    alloc: Global,
    references: &NamedReferences,
    place: Place,
    name: &str,
    text: &str,
) -> Result<Collector<Global>, TokenizerError> {
    let sink = Collector::new(alloc, false);
    let opts = TokenizerOpts {
        exact_errors: false,
        discard_bom: false,
        initial_state: Some(state_of(place)),
        last_start_tag_name: Some(String::from_str(alloc, name)?),
    };
    let whole = String::from_str(alloc, text)?;
    let (sink, read) = read_whole(alloc, sink, opts, references, whole);
    read?;
    Ok(sink)
}

// Whether a token is no error, and no text: an error stands between two runs of one text.
fn is_markup(token: &Token) -> bool {
    !matches!(token, Token::ParseError(_) | Token::CharacterTokens(_))
}

// Whether these are the same tokens except for errors and texts.
pub fn are_same(tokens: &[(Token, u64)], others: &[(Token, u64)]) -> bool {
    let mut rest = others.iter().filter(|entry| is_markup(&entry.0));
    for (token, _) in tokens {
        if is_markup(token) {
            match rest.next() {
                Some((other, _)) if other == token => {}
                _ => return false,
            }
        }
    }
    rest.next().is_none()
}
