//! The words of the command line.
ghost use Rattle.std.specs.Prelude.{◌≡◌, IfOk, OnOk, map, option_map, is_some, string_bytes};
ghost use Rattle.html5programs.specs.Words.{asked_by, asked_with, files_asked, has_option, is_file, known_options, naming_by, nothing_asked, settled, shows_names, value_of, wants_word, with_given, with_option, with_word, with_wrong, words_asked};

use std::alloc::{AllocError, Allocator, Global};

// Standard input alone.
static INPUT: [&str; 1] = ["-"];

/// An option that a program knows.
#[derive(Clone, Copy, Debug, PartialEq, Eq)]
pub struct Choice<'c> {
    pub name: &'c str,
    /// Whether the word after it belongs to it.
    pub takes_word: bool,
}

/// An option that was given, and the word that belongs to it. That of a flag is empty.
#[derive(Clone, Copy, Debug, PartialEq, Eq)]
pub struct GivenOption<'w> {
    pub name: &'w str,
    pub value: &'w str,
}

/// What the words of the command line ask for.
#[derive(Drop)]
pub struct Words<'w, A: Allocator = Global> {
    /// The options that were given, the last first.
    pub given: Vec<GivenOption<'w>, A>,
    /// The files to read, in order. `-` is standard input.
    pub files: Vec<&'w str, A>,
    /// The option that the next word belongs to.
    pub waiting: Option<&'w str>,
    /// Whether all later words are files.
    pub only_files: bool,
    /// The first word that is not an option of the program, or that another must follow.
    pub wrong: Option<&'w str>,
}

// Whether a word is a file.
fn is_file(word: &str) -> bool
    ensures { result ≡ is_file word.now }
{
    match word.as_bytes() {
        [first, _, ..] => *first != b'-',
        _ => true,
    }
}

/// Whether a word belongs to an option, or `None` where the program knows no such option.
#[tactic(auto, unfolding(crate::specs::Words::wants_word))]
pub fn wants_word(choices: &[Choice<'_>], option: &str) -> Option<bool>
    ensures { result ≡ wants_word (known_options choices.now) option.now }
{
    for choice in choices {
        if choice.name == option {
            return Some(choice.takes_word);
        }
    }
    None
}

impl<'w, A: Allocator + Copy> Words<'w, A> {
    // What no word asks for.
    fn none(alloc: A) -> Words<'w, A>
        ensures { asked_by result ≡ nothing_asked }
    {
        Words {
            given: Vec::new(alloc),
            files: Vec::new(alloc),
            waiting: None,
            only_files: false,
            wrong: None,
        }
    }

    // Takes a word that is wrong.
    fn take_wrong(&mut self, word: &'w str)
        ensures { asked_by self.new ≡ with_wrong (asked_by self.old) word.now }
    {
        if self.wrong.is_none() {
            self.wrong = Some(word);
        }
    }

    // Takes an option with the word that belongs to it.
    fn take_given(&mut self, name: &'w str, value: &'w str) -> Result<(), AllocError>
        ensures { OnOk result (asked_by self.new ≡ with_given (asked_by self.old) name.now value.now) }
    {
        self.given.insert(0, GivenOption { name, value })?;
        self.waiting = None;
        Ok(())
    }

    // Takes an option, or a word that is not one.
    fn take_option(&mut self, choices: &[Choice<'_>], word: &'w str) -> Result<(), AllocError>
        ensures { OnOk result (asked_by self.new ≡ with_option (asked_by self.old) word.now (wants_word (known_options choices.now) word.now)) }
    {
        match wants_word(choices, word) {
            Some(true) => self.waiting = Some(word),
            Some(false) => self.take_given(word, "")?,
            None => self.take_wrong(word),
        }
        Ok(())
    }

    // Takes a word that belongs to no option.
    #[tactic(auto, unfolding(crate::specs::Words::with_word))]
    fn take_word(&mut self, choices: &[Choice<'_>], word: &'w str) -> Result<(), AllocError>
        ensures { OnOk result (asked_by self.new ≡ with_word (known_options choices.now) (asked_by self.old) word.now) }
    {
        if self.only_files || is_file(word) {
            self.files.push(word)?;
            return Ok(());
        }
        if word == "--" {
            self.only_files = true;
            return Ok(());
        }
        self.take_option(choices, word)
    }

    // Takes the next word.
    fn take(&mut self, choices: &[Choice<'_>], word: &'w str) -> Result<(), AllocError>
        ensures { OnOk result (asked_by self.new ≡ asked_with (known_options choices.now) (asked_by self.old) word.now) }
    {
        match self.waiting {
            Some(option) => self.take_given(option, word),
            None => self.take_word(choices, word),
        }
    }

    // Takes note that no word follows.
    #[tactic(auto, unfolding(crate::specs::Words::settled))]
    fn settle(&mut self)
        ensures { asked_by self.new ≡ settled (asked_by self.old) }
    {
        if let Some(option) = self.waiting {
            self.take_wrong(option);
        }
    }
}

// Whether an option asks for the names of files in front, or for none.
fn naming_by(option: &str) -> Option<bool>
    ensures { result ≡ naming_by option.now }
{
    match option {
        "-H" | "--with-filename" => Some(true),
        "-h" | "--no-filename" => Some(false),
        _ => None,
    }
}

impl<'w, A: Allocator> Words<'w, A> {
    /// The word that belongs to an option, the last one where it was given more than once.
    #[tactic(auto, unfolding(crate::specs::Words::value_of))]
    pub fn value(&self, option: &str) -> Option<&'w str>
        ensures { option_map (λ value. value.now) result ≡ value_of option.now (asked_by self.now).given }
    {
        for given in &self.given {
            if given.name == option {
                return Some(given.value);
            }
        }
        None
    }

    /// The files to read: those that the words name, or else standard input.
    pub fn inputs(&self) -> &[&'w str]
        ensures { map (λ file. file.now) result.now ≡ files_asked (asked_by self.now) }
    {
        if self.files.is_empty() {
            return INPUT.as_slice();
        }
        &self.files
    }

    /// Whether the names of files stand in front of their output: as the last option about them says, or
    /// else if there is more than one.
    #[tactic(auto, unfolding(crate::specs::Words::naming_of))]
    pub fn shows_names(&self) -> bool
        ensures { result ≡ shows_names (asked_by self.now) }
    {
        for given in &self.given {
            if let Some(is_shown) = naming_by(given.name) {
                return is_shown;
            }
        }
        self.files.len() > 1
    }

    /// Whether an option was given.
    pub fn has(&self, option: &str) -> bool
        ensures { result ≡ has_option option.now (asked_by self.now) }
    {
        self.value(option).is_some()
    }
}

/// What the words ask for that stand after the program's name, where it has these options.
#[tactic(auto, unfolding(crate::specs::Words::asked_after))]
pub fn words_of<'w, A: Allocator + Copy>(
    alloc: A,
    words: &'w [String<A>],
    choices: &[Choice<'_>],
) -> Result<Words<'w, A>, AllocError>
    ensures { IfOk result (λ asked. asked_by asked ≡ words_asked (known_options choices.now) (map string_bytes words.now)) }
{
    let mut asked = Words::none(alloc);
    for word in words {
        asked.take(choices, word.as_str())?;
    }
    asked.settle();
    Ok(asked)
}
