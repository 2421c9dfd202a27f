//! The tokens of a text, with their places.
ghost use Rattle.std.specs.Prelude.{◌≡◌, ◌++◌, ◌∷◌, [], IfOk, OnErr, OnOk, map};
ghost use Rattle.html5check.specs.Seen.{seen_by, seen_in};

use html5ever::tokenizer::{NamedReferences, TokenizerError};
use html5ever_interface::interface::token::{SinkFault, Token};
use html5ever_interface::options::TokenizerOpts;
use html5places::{PlacedHandler, Places, read_places};
use std::alloc::Global;

/// A token, and where it stands.
#[derive(Drop)]
pub struct SeenToken {
    pub token: Token,
    pub begin: usize,
    pub end: usize,
}

// The tokens that were seen so far.
#[derive(Drop)]
struct SeenTokens {
    tokens: Vec<SeenToken>,
}

impl PlacedHandler<Token> for SeenTokens {
    ghost use Rattle.std.specs.Prelude.{List, map};
    ghost use Rattle.html5check.specs.Seen.{Seen, seen_by, with_seen};

    ghost State = { List Seen };

    ghost state = { λ s. map seen_by s.tokens.items };

    ghost step = { with_seen };

    fn take_token(
        &mut self,
        _run: &str,
        token: Token,
        _line_number: u64,
        places: Places,
    ) -> Result<(), SinkFault> {
        let seen = SeenToken {
            token,
            begin: places.begin,
            end: places.end,
        };
        match self.tokens.push(seen) {
            Ok(()) => Ok(()),
            Err(_) => Err(SinkFault),
        }
    }
}

/// Reads a text into its tokens, without its texts.
pub fn read_seen(
    alloc: Global,
    references: &NamedReferences,
    text: &str,
) -> Result<Vec<SeenToken>, TokenizerError>
    ensures { IfOk result (λ tokens. map seen_by tokens.items ≡ seen_in references.now text.now) }
{
    let mut seen = SeenTokens {
        tokens: Vec::new(alloc),
    };
    read_places(alloc, references, TokenizerOpts::default(), text, &mut seen)?;
    Ok(seen.tokens)
}
