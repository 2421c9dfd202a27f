//! The commands, and the options that each knows.
ghost use Rattle.std.specs.Prelude.{◌≡◌, Ok};
ghost use Rattle.html5commands.specs.Commands.{command_of, options_of, program_name, usage_of};
ghost use Rattle.std.specs.Io.{StartsWith};
ghost use Rattle.html5policy.specs.Standard.{standard_policy};
ghost use Rattle.html5policy.specs.Text.{policy_said};
ghost use Rattle.html5programs.specs.Words.{known_options};

use crate::help::{CHECK, CLEAN, LINKS, REWRITE, TEXT, TOKENS};
use html5policy::standard_text;
use html5programs::{Choice, Program};

/// What the program prints of pages.
#[derive(Clone, Copy, Debug, PartialEq, Eq)]
pub enum Command {
    Tokens,
    Links,
    Text,
    Clean,
    Check,
    Rewrite,
}

const HELP: Choice<'static> = Choice {
    name: "--help",
    takes_word: false,
};

const VERSION: Choice<'static> = Choice {
    name: "--version",
    takes_word: false,
};

const ENCODING: Choice<'static> = Choice {
    name: "--encoding",
    takes_word: true,
};

const FATAL: Choice<'static> = Choice {
    name: "--fatal",
    takes_word: false,
};

const ENTITIES: Choice<'static> = Choice {
    name: "--entities",
    takes_word: true,
};

const PROGRESS: Choice<'static> = Choice {
    name: "--progress",
    takes_word: false,
};

const FORMAT: Choice<'static> = Choice {
    name: "--format",
    takes_word: true,
};

const NAMES: Choice<'static> = Choice {
    name: "-H",
    takes_word: false,
};

const NAMES_LONG: Choice<'static> = Choice {
    name: "--with-filename",
    takes_word: false,
};

const NO_NAMES: Choice<'static> = Choice {
    name: "-h",
    takes_word: false,
};

const NO_NAMES_LONG: Choice<'static> = Choice {
    name: "--no-filename",
    takes_word: false,
};

const BASE: Choice<'static> = Choice {
    name: "--base",
    takes_word: true,
};

const POLICY: Choice<'static> = Choice {
    name: "--policy",
    takes_word: true,
};

const TEMPLATE: Choice<'static> = Choice {
    name: "--template",
    takes_word: true,
};

const SET: Choice<'static> = Choice {
    name: "--set",
    takes_word: true,
};

const REMOVE: Choice<'static> = Choice {
    name: "--remove",
    takes_word: true,
};

const DROP: Choice<'static> = Choice {
    name: "--drop",
    takes_word: true,
};

const ABSOLUTE: Choice<'static> = Choice {
    name: "--absolute",
    takes_word: true,
};

const NOOPENER: Choice<'static> = Choice {
    name: "--noopener",
    takes_word: false,
};

const PRINT_POLICY: Choice<'static> = Choice {
    name: "--print-policy",
    takes_word: false,
};

static READING: [Choice<'static>; 6] = [HELP, VERSION, ENCODING, FATAL, ENTITIES, PROGRESS];

static FORMATTING: [Choice<'static>; 11] = [
    HELP,
    VERSION,
    ENCODING,
    FATAL,
    ENTITIES,
    PROGRESS,
    FORMAT,
    NAMES,
    NAMES_LONG,
    NO_NAMES,
    NO_NAMES_LONG,
];

static LINKING: [Choice<'static>; 12] = [
    HELP,
    VERSION,
    ENCODING,
    FATAL,
    ENTITIES,
    PROGRESS,
    FORMAT,
    NAMES,
    NAMES_LONG,
    NO_NAMES,
    NO_NAMES_LONG,
    BASE,
];

static CLEANING: [Choice<'static>; 8] = [
    HELP,
    VERSION,
    ENCODING,
    FATAL,
    ENTITIES,
    PROGRESS,
    POLICY,
    PRINT_POLICY,
];

static CHECKING: [Choice<'static>; 8] = [
    HELP, VERSION, ENCODING, FATAL, ENTITIES, PROGRESS, FORMAT, TEMPLATE,
];

static REWRITING: [Choice<'static>; 11] = [
    HELP, VERSION, ENCODING, FATAL, ENTITIES, PROGRESS, SET, REMOVE, DROP, ABSOLUTE, NOOPENER,
];

/// The command of this name.
#[tactic(auto, unfolding(crate::specs::Commands::command_of))]
pub fn command_of(word: &str) -> Option<Command>
    ensures { result ≡ command_of word.now }
{
    match word {
        "tokens" => Some(Command::Tokens),
        "links" => Some(Command::Links),
        "text" => Some(Command::Text),
        "clean" => Some(Command::Clean),
        "check" => Some(Command::Check),
        "rewrite" => Some(Command::Rewrite),
        _ => None,
    }
}

// The options that a command knows.
#[tactic(auto, unfolding(crate::specs::Commands::options_of))]
fn choices_of(command: Command) -> &'static [Choice<'static>]
    ensures { known_options result.now ≡ options_of command }
{
    match command {
        Command::Tokens => FORMATTING.as_slice(),
        Command::Links => LINKING.as_slice(),
        Command::Text => READING.as_slice(),
        Command::Clean => CLEANING.as_slice(),
        Command::Check => CHECKING.as_slice(),
        Command::Rewrite => REWRITING.as_slice(),
    }
}

// How a command is used.
#[tactic(auto, unfolding(crate::specs::Commands::usage_of))]
fn help_of(command: Command) -> &'static str
    ensures { StartsWith result.now (usage_of command) }
{
    match command {
        Command::Tokens => TOKENS,
        Command::Links => LINKS,
        Command::Text => TEXT,
        Command::Clean => CLEAN,
        Command::Check => CHECK,
        Command::Rewrite => REWRITE,
    }
}

/// A command as a program of its own.
pub fn program_of(command: Command) -> Program<'static>
    ensures name { result.name.now ≡ program_name }
    ensures help { StartsWith result.help.now (usage_of command) }
    ensures options { known_options result.choices.now ≡ options_of command }
    ensures settings { policy_said result.settings.now ≡ Ok standard_policy }
{
    Program {
        name: "firnuubal",
        help: help_of(command),
        choices: choices_of(command),
        settings: standard_text(),
    }
}
