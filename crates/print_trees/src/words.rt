//! The words of the command line.
use std::alloc::Allocator;
use tree_builder::options::TreeBuilderOpts;

/// How a page is parsed.
#[derive(Clone, Copy)]
pub struct Settings {
    pub opts: TreeBuilderOpts,
    /// How many bytes of the page are fed at once: by default all.
    pub piece: usize,
}

// What the next word is: an option, or the number of one.
#[derive(Clone, Copy, PartialEq, Eq)]
enum NextWord {
    Option,
    Depth,
    Formatting,
    Piece,
}

impl Settings {
    // Takes an option. What follows it, if the program knows it.
    fn take_option(&mut self, word: &str) -> Option<NextWord> {
        match word {
            "--scripting" => {
                self.opts.scripting_enabled = true;
                Some(NextWord::Option)
            }
            "--depth" => Some(NextWord::Depth),
            "--formatting" => Some(NextWord::Formatting),
            "--piece" => Some(NextWord::Piece),
            _ => None,
        }
    }

    // Takes a word. What follows it, if it is right.
    fn take(&mut self, next: NextWord, word: &str) -> Option<NextWord> {
        match next {
            NextWord::Option => return self.take_option(word),
            NextWord::Depth => self.opts.depth_limit = Some(number_of(word)?),
            NextWord::Formatting => self.opts.formatting_limit = Some(number_of(word)?),
            NextWord::Piece => self.piece = number_of(word)?,
        }
        Some(NextWord::Option)
    }
}

fn number_of(digits: &str) -> Option<usize> {
    digits.parse::<usize>().ok()
}

/// The settings that the words say, if the program knows the words.
pub fn settings_of<A: Allocator>(words: &[String<A>]) -> Option<Settings> {
    let mut settings = Settings {
        opts: TreeBuilderOpts::default(),
        piece: usize::MAX,
    };
    let mut next = NextWord::Option;
    for word in words {
        next = settings.take(next, word.as_str())?;
    }
    if next == NextWord::Option {
        return Some(settings);
    }
    None
}
