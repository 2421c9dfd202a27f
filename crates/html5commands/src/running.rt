//! A run of the program, by the words after its name.
ghost use Rattle.std.specs.Prelude.{◌≡◌, ◌⊎◌, ◌∷◌, [], false, true, Contains, IfSome, IsNone, List, ℕ, Ok, codes, map, string_bytes};
ghost use Rattle.std.specs.Io.{StartsWith};
ghost use Rattle.html5commands.specs.Commands.{IsUnknownWord, NamesNoBase, NamesNoChange, NamesNoFormat, NamesNoTemplate, NamesNothing, Prints, PrintsBy, SaysFirst, SaysItself, asked_of_command, command_named, has_formats, has_logs, options_of, program_name, usage_of};
ghost use Rattle.html5policy.specs.Standard.{standard_policy};
ghost use Rattle.html5policy.specs.Text.{policy_said};
ghost use Rattle.html5programs.specs.Ending.{AsksHelp, AsksNoText, AsksSettings, AsksVersion, HasWrongWord, NamesNoEncoding, status_of};
ghost use Rattle.html5programs.specs.Version.{version_line};
ghost use Rattle.html5programs.specs.Words.{words_asked};

use crate::command::{Command, command_of, program_of};
use crate::format::filter_in_format;
use crate::help::HELP;
use devices::{Fault, Logged, Target, WriteTarget, given_words};
use html5check::{Check, Lines};
use html5cleaner::CleanPrinter;
use html5edit::EditPages;
use html5extract::links::Links;
use html5extract::page_text::PageText;
use html5extract::token_lines::TokenLines;
use html5json::findings::JsonFindings;
use html5json::json_links::JsonLinks;
use html5json::json_tokens::JsonTokens;
use html5json::sarif::SarifLog;
use html5programs::{
    Ending, Input, Messages, Meters, Output, filter_by_words, no_such, print_text, print_version,
};
use std::alloc::Global;
use std::fs::Files;
use std::io::{Read, Write};
use std::rt::Env;

const NAME: &str = "firnuubal";

const NO_COMMAND: &str =
    "a command is missing: tokens, links, text, clean, check or rewrite; try --help";

// What may stand in front.
const NAMES: [&str; 8] = [
    "tokens",
    "links",
    "text",
    "clean",
    "check",
    "rewrite",
    "--help",
    "--version",
];

// Runs a command by the words after it.
fn by_command<R: Files + Alloc<A = Global> + Meters, I: Read, O: Write + Drop, E: Target>(
    rt: &R,
    command: Command,
    words: &[String],
    stdin: &mut Input<I, R::Meter>,
    stdout: O,
    messages: &mut Messages<'_, E>,
) -> (Logged<Output<O>>, Ending)
    ensures done { AsksNoText (words_asked (options_of command) (map string_bytes words.now)) → result.1 ≡ Ending.Done
        → PrintsBy command (words_asked (options_of command) (map string_bytes words.now))
        (I.remaining stdin.old.inner) (I.remaining stdin.new.inner) result.0.taken false }
    ensures found { AsksNoText (words_asked (options_of command) (map string_bytes words.now)) → result.1 ≡ Ending.Found
        → PrintsBy command (words_asked (options_of command) (map string_bytes words.now))
        (I.remaining stdin.old.inner) (I.remaining stdin.new.inner) result.0.taken true }
    ensures help { AsksHelp (words_asked (options_of command) (map string_bytes words.now)) → result.1 ≡ Ending.Done
        → StartsWith result.0.taken (usage_of command) }
    ensures version { AsksVersion (words_asked (options_of command) (map string_bytes words.now)) → result.1 ≡ Ending.Done
        → result.0.taken ≡ version_line program_name }
    ensures policy { AsksSettings (words_asked (options_of command) (map string_bytes words.now)) → result.1 ≡ Ending.Done
        → policy_said result.0.taken ≡ Ok standard_policy }
    ensures closed { result.1 ≡ Ending.Closed → result.0.inner.is_closed ≡ true }
    ensures encoding { NamesNoEncoding (words_asked (options_of command) (map string_bytes words.now))
        → ((result.1 ≡ Ending.WrongValue) ⊎ (result.1 ≡ Ending.NoMemory)) × (stdin.new ≡ stdin.old) × (result.0.taken ≡ []) }
    ensures format { has_formats command ≡ true → NamesNoFormat (has_logs command) (words_asked (options_of command) (map string_bytes words.now))
        → ((result.1 ≡ Ending.WrongValue) ⊎ (result.1 ≡ Ending.NoMemory)) × (stdin.new ≡ stdin.old) × (result.0.taken ≡ []) }
    ensures base { command ≡ Command.Links → NamesNoBase (words_asked (options_of command) (map string_bytes words.now))
        → ((status_of result.1 ≡ 2) ⊎ (result.1 ≡ Ending.NoMemory)) × (stdin.new ≡ stdin.old) × (result.0.taken ≡ []) }
    ensures changes { command ≡ Command.Rewrite → NamesNoChange (words_asked (options_of command) (map string_bytes words.now))
        → ((status_of result.1 ≡ 2) ⊎ (result.1 ≡ Ending.NoMemory)) × (stdin.new ≡ stdin.old) × (result.0.taken ≡ []) }
    ensures template { command ≡ Command.Check → NamesNoTemplate (words_asked (options_of command) (map string_bytes words.now))
        → ((status_of result.1 ≡ 2) ⊎ (result.1 ≡ Ending.NoMemory)) × (stdin.new ≡ stdin.old) × (result.0.taken ≡ []) }
    ensures wrong { result.1 ≡ Ending.WrongWord
        → HasWrongWord (words_asked (options_of command) (map string_bytes words.now)) }
    ensures usage { HasWrongWord (words_asked (options_of command) (map string_bytes words.now))
        → (result.1 ≡ Ending.WrongWord) ⊎ (result.1 ≡ Ending.NoMemory) }
    ensures untouched { HasWrongWord (words_asked (options_of command) (map string_bytes words.now))
        → (stdin.new ≡ stdin.old) × (result.0.taken ≡ []) }
{
    let program = program_of(command);
    match command {
        Command::Tokens => {
            filter_in_format::<TokenLines<_>, JsonTokens<_>, JsonTokens<_>, R, I, O, E>(
                rt, false, program, words, stdin, stdout, messages,
            )
        }
        Command::Links => {
            filter_in_format::<Links<_>, JsonLinks<_>, JsonLinks<_>, R, I, O, E>(
                rt, false, program, words, stdin, stdout, messages,
            )
        }
        Command::Text => {
            filter_by_words::<PageText<_>, R, I, O, E>(rt, program, words, stdin, stdout, messages)
        }
        Command::Clean => {
            filter_by_words::<CleanPrinter<_>, R, I, O, E>(
                rt, program, words, stdin, stdout, messages,
            )
        }
        Command::Check => {
            filter_in_format::<
                Check<_, Lines>,
                Check<_, JsonFindings>,
                Check<_, SarifLog>,
                R,
                I,
                O,
                E,
            >(rt, true, program, words, stdin, stdout, messages)
        }
        Command::Rewrite => {
            filter_by_words::<EditPages<_>, R, I, O, E>(rt, program, words, stdin, stdout, messages)
        }
    }
}

// Runs the program where its first word names no command.
fn by_first_word<O: Write + Drop, E: Target>(
    alloc: Global,
    word: &str,
    stdout: O,
    messages: &mut Messages<'_, E>,
) -> (Logged<Output<O>>, Ending)
    ensures done { result.1 ≡ Ending.Done → SaysItself word.now result.0.taken }
    ensures closed { result.1 ≡ Ending.Closed → result.0.inner.is_closed ≡ true }
    ensures wrong { IsUnknownWord word.now → (result.1 ≡ Ending.WrongWord) × (result.0.taken ≡ []) }
{
    if word == "--help" {
        return print_text(HELP, stdout, messages);
    }
    if word == "--version" {
        return print_version(alloc, NAME, stdout, messages);
    }
    messages.say(word, no_such(alloc, "command", &NAMES, word));
    (Logged::new(Output::new(stdout)), Ending::WrongWord)
}

/// Runs the program by the words after its name: a command, and its options and files. It gives the output
/// back, and how it ended. What a file holds that is opened by its path no contract says.
pub fn command_by_words<R: Files + Alloc<A = Global> + Meters, I: Read, O: Write + Drop, E: Target>(
    rt: &R,
    words: &[String],
    stdin: &mut Input<I, R::Meter>,
    stdout: O,
    messages: &mut Messages<'_, E>,
) -> (Logged<Output<O>>, Ending)
    // What `Done` and `Found` say: all files that the words ask for were read to their ends, and what was
    // written is what the command prints of them.
    ensures done { IfSome (command_named (map string_bytes words.now)) (λ named.
        AsksNoText (asked_of_command named) → result.1 ≡ Ending.Done
        → PrintsBy named.command (asked_of_command named) (I.remaining stdin.old.inner) (I.remaining stdin.new.inner) result.0.taken false) }
    ensures found { IfSome (command_named (map string_bytes words.now)) (λ named.
        AsksNoText (asked_of_command named) → result.1 ≡ Ending.Found
        → PrintsBy named.command (asked_of_command named) (I.remaining stdin.old.inner) (I.remaining stdin.new.inner) result.0.taken true) }
    ensures help { IfSome (command_named (map string_bytes words.now)) (λ named.
        AsksHelp (asked_of_command named) → result.1 ≡ Ending.Done → StartsWith result.0.taken (usage_of named.command)) }
    ensures first { result.1 ≡ Ending.Done → SaysFirst (map string_bytes words.now) result.0.taken }
    ensures version { IfSome (command_named (map string_bytes words.now)) (λ named.
        AsksVersion (asked_of_command named) → result.1 ≡ Ending.Done → result.0.taken ≡ version_line program_name) }
    ensures policy { IfSome (command_named (map string_bytes words.now)) (λ named.
        AsksSettings (asked_of_command named) → result.1 ≡ Ending.Done → policy_said result.0.taken ≡ Ok standard_policy) }
    ensures closed { result.1 ≡ Ending.Closed → result.0.inner.is_closed ≡ true }

    // When words are wrong, and that nothing is read and written then.
    ensures encoding { IfSome (command_named (map string_bytes words.now)) (λ named.
        NamesNoEncoding (asked_of_command named)
        → ((result.1 ≡ Ending.WrongValue) ⊎ (result.1 ≡ Ending.NoMemory)) × (stdin.new ≡ stdin.old) × (result.0.taken ≡ [])) }
    ensures format { IfSome (command_named (map string_bytes words.now)) (λ named.
        has_formats named.command ≡ true → NamesNoFormat (has_logs named.command) (asked_of_command named)
        → ((result.1 ≡ Ending.WrongValue) ⊎ (result.1 ≡ Ending.NoMemory)) × (stdin.new ≡ stdin.old) × (result.0.taken ≡ [])) }
    ensures base { IfSome (command_named (map string_bytes words.now)) (λ named.
        named.command ≡ Command.Links → NamesNoBase (asked_of_command named)
        → ((status_of result.1 ≡ 2) ⊎ (result.1 ≡ Ending.NoMemory)) × (stdin.new ≡ stdin.old) × (result.0.taken ≡ [])) }
    ensures changes { IfSome (command_named (map string_bytes words.now)) (λ named.
        named.command ≡ Command.Rewrite → NamesNoChange (asked_of_command named)
        → ((status_of result.1 ≡ 2) ⊎ (result.1 ≡ Ending.NoMemory)) × (stdin.new ≡ stdin.old) × (result.0.taken ≡ [])) }
    ensures template { IfSome (command_named (map string_bytes words.now)) (λ named.
        named.command ≡ Command.Check → NamesNoTemplate (asked_of_command named)
        → ((status_of result.1 ≡ 2) ⊎ (result.1 ≡ Ending.NoMemory)) × (stdin.new ≡ stdin.old) × (result.0.taken ≡ [])) }
    ensures usage { IfSome (command_named (map string_bytes words.now)) (λ named.
        HasWrongWord (asked_of_command named) → (result.1 ≡ Ending.WrongWord) ⊎ (result.1 ≡ Ending.NoMemory)) }
    ensures wrong { IfSome (command_named (map string_bytes words.now)) (λ named.
        result.1 ≡ Ending.WrongWord → HasWrongWord (asked_of_command named)) }
    ensures untouched { IfSome (command_named (map string_bytes words.now)) (λ named.
        HasWrongWord (asked_of_command named) → (stdin.new ≡ stdin.old) × (result.0.taken ≡ [])) }
    ensures no_command { IsNone (command_named (map string_bytes words.now)) → stdin.new ≡ stdin.old }
    ensures unknown { NamesNothing (map string_bytes words.now) → (result.1 ≡ Ending.WrongWord) × (result.0.taken ≡ []) }
{
    let Some((word, rest)) = words.split_first() else {
        messages.say("words", NO_COMMAND);
        return (Logged::new(Output::new(stdout)), Ending::WrongWord);
    };
    match command_of(word.as_str()) {
        Some(command) => by_command(rt, command, rest, stdin, stdout, messages),
        None => by_first_word(rt.alloc(), word.as_str(), stdout, messages),
    }
}

/// Runs the program by these words, as `command_by_words` says. It gives the output back, and the exit status of the
/// process. If the reader of the output goes away, it ends with 0 and without a message.
pub fn run_by_words<
    R: Files + Alloc<A = Global> + Meters,
    I: Read + Drop,
    O: Write + Drop,
    E: Write + Drop,
>(rt: &R, words: &[String], stdin: I, stdout: O, stderr: E) -> (Logged<Output<O>>, u8)
    ensures status { Contains (0 ∷ 1 ∷ 2 ∷ []) result.1 }
    ensures done { result.1 ≡ 0 → result.0.inner.is_closed ≡ false
        → Prints (map string_bytes words.now) (I.remaining stdin) result.0.taken }
    ensures usage { IfSome (command_named (map string_bytes words.now)) (λ named.
        HasWrongWord (asked_of_command named) → Contains (1 ∷ 2 ∷ []) result.1) }
    ensures unknown { NamesNothing (map string_bytes words.now) → result.1 ≡ 2 }
{
    let messages = &mut Messages::new(rt.alloc(), NAME, WriteTarget::new(stderr));
    let stdin = &mut Input::new(stdin);
    let (output, ending) = command_by_words(rt, words, stdin, stdout, messages);
    (output, ending.status())
}

// Says why there are no words, and how a run without them ends.
fn end_without_words<E: Target>(fault: Fault, messages: &mut Messages<'_, E>) -> Ending
    ensures memory { fault ≡ Fault.Memory → result ≡ Ending.NoMemory }
    ensures words { fault ≡ Fault.NotUtf8 → result ≡ Ending.WrongWord }
    ensures failed { Contains (1 ∷ 2 ∷ []) (status_of result) }
{
    match fault {
        Fault::Memory => {
            messages.say("words", "out of memory");
            Ending::NoMemory
        }
        _ => {
            messages.say("words", "they are not UTF-8");
            Ending::WrongWord
        }
    }
}

/// Runs the program by the words that the process was given. It gives the output back, and the exit status. No contract
/// says which words these are.
pub fn run<
    R: Env + Files + Alloc<A = Global> + Meters,
    I: Read + Drop,
    O: Write + Drop,
    E: Write + Drop,
>(rt: &R, stdin: I, stdout: O, stderr: E) -> (Logged<Output<O>>, u8)
    ensures status { Contains (0 ∷ 1 ∷ 2 ∷ []) result.1 }
    ensures done { result.1 ≡ 0 → result.0.inner.is_closed ≡ false
        → (words : List (List ℕ)) × Prints words (I.remaining stdin) result.0.taken }
{
    match given_words(rt) {
        Ok(words) => run_by_words(rt, &words, stdin, stdout, stderr),
        Err(fault) => {
            let mut messages = Messages::new(rt.alloc(), NAME, WriteTarget::new(stderr));
            let status = end_without_words(fault, &mut messages).status();
            (Logged::new(Output::new(stdout)), status)
        }
    }
}
