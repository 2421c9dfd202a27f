//! What words ask of an editor.
ghost use Rattle.std.specs.Prelude.{◌≡◌, IfOk, Some, option_map};
ghost use Rattle.html5extract.specs.Bases.{bases_by_word};

use crate::changes::{ChangeError, Changes};
use html5extract::bases::{BaseError, Bases, bases_at};
use html5programs::{Settings, Words};
use std::alloc::Global;
use thiserror::Error;

/// What is changed of pages, and where their links lead from.
#[derive(Drop)]
pub struct EditSettings {
    pub changes: Changes,
    pub bases: Bases,
}

/// Why there are none.
#[derive(Clone, Copy, Debug, Error)]
pub enum EditError {
    #[error("{0}")]
    Change(ChangeError),
    #[error("--absolute: {0}")]
    Base(BaseError),
}

impl Settings for EditSettings {
    ghost use Rattle.std.specs.Prelude.{None};
    ghost use Rattle.html5edit.specs.Asked.{edit_settings_said};

    type Fault = EditError;

    const OPTION: &'static str = "";

    ghost file = { λ words. None };

    ghost said = { edit_settings_said };

    fn file_of<'w>(_words: &Words<'w>) -> Option<&'w str> {
        None
    }

    fn of_words(
        alloc: Global,
        words: &Words<'_>,
        _text: Option<&str>,
    ) -> Result<EditSettings, EditError> {
        let bases = match bases_at(alloc, words.value("--absolute")) {
            Ok(bases) => bases,
            Err(error) => return Err(EditError::Base(error)),
        };
        match Changes::of_words(alloc, words) {
            Ok(changes) => Ok(EditSettings { changes, bases }),
            Err(error) => Err(EditError::Change(error)),
        }
    }
}
