//! The settings of filters.
use crate::words::Words;
use std::alloc::{AllocError, Global};
use std::fmt::Display;

/// What a filter goes by, as words ask for it.
pub trait Settings: Drop {
    ghost use Rattle.std.specs.Prelude.{◌≡◌, ℕ, List, Option, Some, IfOk, option_map};
    ghost use Rattle.html5programs.specs.Words.{Asked, asked_by};

    /// Why there are none.
    type Fault: Display + Drop;

    /// The option whose word says them, or the file that holds them.
    const OPTION: &'static str;

    // The file of settings that words name, and those that words and this file's text say, if they say any.
    ghost file: { Asked → Option (List ℕ) };

    ghost said: { Asked → Option (List ℕ) → Option Self };

    /// The file of settings that words name.
    fn file_of<'w>(words: &Words<'w>) -> Option<&'w str>
        ensures { option_map (λ path. path.now) result ≡ file (asked_by words.now) };

    /// Those that words say, with the text of the file that they name.
    fn of_words(alloc: Global, words: &Words<'_>, text: Option<&str>) -> Result<Self, Self::Fault>
        ensures { IfOk result (λ settings. said (asked_by words.now) (option_map (λ text. text.now) text.entry) ≡ Some settings) };
}

/// No settings, whatever the words are.
impl Settings for () {
    ghost use Rattle.std.specs.Prelude.{None, Some};

    type Fault = AllocError;

    const OPTION: &'static str = "";

    ghost file = { λ words. None };

    ghost said = { λ words text. Some tt };

    fn file_of<'w>(_words: &Words<'w>) -> Option<&'w str> {
        None
    }

    fn of_words(_alloc: Global, _words: &Words<'_>, _text: Option<&str>) -> Result<(), AllocError> {
        Ok(())
    }
}
