//! What words ask of the tokens of pages.
use html5programs::{Settings, Words};
use std::alloc::{AllocError, Global};

/// Whether the names of files stand in front of their tokens.
#[derive(Clone, Copy, Debug, PartialEq, Eq)]
pub struct TokenSettings {
    pub shows_names: bool,
}

impl Settings for TokenSettings {
    ghost use Rattle.std.specs.Prelude.{None};
    ghost use Rattle.html5extract.specs.Asked.{token_settings_said};

    type Fault = AllocError;

    const OPTION: &'static str = "";

    ghost file = { λ words. None };

    ghost said = { token_settings_said };

    fn file_of<'w>(_words: &Words<'w>) -> Option<&'w str> {
        None
    }

    fn of_words(
        _alloc: Global,
        words: &Words<'_>,
        _text: Option<&str>,
    ) -> Result<TokenSettings, AllocError> {
        Ok(TokenSettings {
            shows_names: words.shows_names(),
        })
    }
}
