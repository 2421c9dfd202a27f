//! How a run ends.
ghost use Rattle.std.specs.Prelude.{◌≡◌};
ghost use Rattle.html5programs.specs.Ending.{status_of};

/// How a run ends.
#[derive(Clone, Copy, Debug, PartialEq, Eq)]
pub enum Ending {
    /// All that was asked for is done.
    Done,
    /// All was done, and something was found that the status tells, as faults of pages.
    Found,
    /// The reader of the output went away.
    Closed,
    /// A file could not be read to its end, and what was made of the others was printed.
    Missed,
    /// What the program makes of the files, or how it is used, can't be printed.
    Unprinted,
    /// There is no memory for the words.
    NoMemory,
    /// A word is unknown, or a word is missing after it.
    WrongWord,
    /// The word after an option is not one that it takes, as a label that names no encoding.
    WrongValue,
    /// There is no table of named references.
    NoTable,
    /// There are no settings.
    NoSettings,
}

impl Ending {
    /// The status that the process ends with. 0: all was done, or nobody reads the output. 1: something was found, or
    /// could not be read or printed. 2: the words, the label of the encoding, or a file that they name for the table or
    /// the settings, are wrong.
    pub fn status(self) -> u8
        ensures { result ≡ status_of self }
    {
        match self {
            Ending::Done | Ending::Closed => 0,
            Ending::Found | Ending::Missed | Ending::Unprinted | Ending::NoMemory => 1,
            Ending::WrongWord | Ending::WrongValue | Ending::NoTable | Ending::NoSettings => 2,
        }
    }
}
