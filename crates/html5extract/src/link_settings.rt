//! What words ask of the links of pages.
use crate::bases::{BaseError, Bases, bases_asked};
use html5programs::{Settings, Words};
use std::alloc::Global;

/// Where links lead from, and whether the names of files stand in front of them.
#[derive(Drop)]
pub struct LinkSettings {
    pub bases: Bases,
    pub shows_names: bool,
}

impl Settings for LinkSettings {
    ghost use Rattle.std.specs.Prelude.{None};
    ghost use Rattle.html5extract.specs.Asked.{link_settings_said};

    type Fault = BaseError;

    const OPTION: &'static str = "--base";

    ghost file = { λ words. None };

    ghost said = { link_settings_said };

    fn file_of<'w>(_words: &Words<'w>) -> Option<&'w str> {
        None
    }

    fn of_words(
        alloc: Global,
        words: &Words<'_>,
        _text: Option<&str>,
    ) -> Result<LinkSettings, BaseError> {
        match bases_asked(alloc, words) {
            Ok(bases) => Ok(LinkSettings {
                bases,
                shows_names: words.shows_names(),
            }),
            Err(error) => Err(error),
        }
    }
}
