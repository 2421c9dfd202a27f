//! The format of what is printed.
ghost use Rattle.std.specs.Prelude.{◌≡◌, ◌⊎◌, [], true, false, IfErr, IfOk, IsNone, Some, map, string_bytes};
ghost use Rattle.html5commands.specs.Commands.{InFormat, NamesNoFormat, format_asked, format_named};
ghost use Rattle.html5programs.specs.Ending.{AsksHelp, AsksNoSettings, AsksNoText, AsksSettings, AsksVersion, HasWrongWord, NamesNoEncoding, PrintsAsked, asked_of, status_of};
ghost use Rattle.html5programs.specs.Version.{version_line};
ghost use Rattle.html5programs.specs.Words.{asked_by, known_options, words_asked};

use devices::{Logged, Target};
use html5programs::{
    Choice, Ending, Filter, Input, Messages, Meters, Output, Program, Words, filter_by_words,
    words_of,
};
use std::alloc::Global;
use std::fs::Files;
use std::io::{Read, Write};

/// How tokens, links and findings are printed.
#[derive(Clone, Copy, Debug, PartialEq, Eq)]
pub enum Format {
    /// For people: a line each.
    Lines,
    /// For programs: an object of JSON a line.
    Json,
    /// For code hosts: a log of SARIF.
    Sarif,
}

// The error for a word that is not a format, where a log of SARIF is one or not.
fn no_format(logs: bool) -> &'static str {
    if logs {
        "no such format: lines, json or sarif"
    } else {
        "no such format: lines or json"
    }
}

// The format of this name, where a log of SARIF is one or not.
#[tactic(auto, unfolding(crate::specs::Commands::format_named))]
fn format_named(logs: bool, word: &str) -> Option<Format>
    ensures { result ≡ format_named logs word.now }
{
    match word {
        "lines" => Some(Format::Lines),
        "json" => Some(Format::Json),
        "sarif" if logs => Some(Format::Sarif),
        _ => None,
    }
}

// The format that words ask for.
fn format_asked(logs: bool, asked: &Words<'_>) -> Option<Format>
    ensures { result ≡ format_asked logs (asked_by asked.now) }
{
    match asked.value("--format") {
        Some(word) => format_named(logs, word),
        None => Some(Format::Lines),
    }
}

// Whether words are wrong, or ask for a text.
fn is_for_no_page(asked: &Words<'_>) -> bool
    ensures pages { result ≡ false → AsksNoText (asked_by asked.now) × IsNone (asked_by asked.now).wrong }
    ensures none { AsksNoText (asked_by asked.now) → IsNone (asked_by asked.now).wrong → result ≡ false }
{
    asked.wrong.is_some()
        || asked.has("--help")
        || asked.has("--version")
        || asked.has("--print-policy")
}

// The format to print pages in, or how a run ends if there is none. If words are wrong, or ask for a text, its value
// doesn't matter.
fn format_by_words<E: Target>(
    alloc: Global,
    logs: bool,
    choices: &[Choice<'_>],
    words: &[String],
    messages: &mut Messages<'_, E>,
) -> Result<Format, Ending>
    ensures chosen { IfOk result (λ format. AsksNoText (words_asked (known_options choices.now) (map string_bytes words.now))
        → IsNone (words_asked (known_options choices.now) (map string_bytes words.now)).wrong
        → format_asked logs (words_asked (known_options choices.now) (map string_bytes words.now)) ≡ Some format) }
    ensures refused { IfErr result (λ ending. (ending ≡ Ending.NoMemory) ⊎ ((ending ≡ Ending.WrongValue)
        × NamesNoFormat logs (words_asked (known_options choices.now) (map string_bytes words.now)))) }
{
    let Ok(asked) = words_of(alloc, words, choices) else {
        messages.say("words", "out of memory");
        return Err(Ending::NoMemory);
    };
    if let Some(format) = format_asked(logs, &asked) {
        return Ok(format);
    }
    if is_for_no_page(&asked) {
        return Ok(Format::Lines);
    }
    messages.say(asked.value("--format").unwrap_or("format"), no_format(logs));
    Err(Ending::WrongValue)
}

/// Runs a program as `filter_by_words` does, by the filter of the format that the words ask for, of which a log of SARIF
/// is one or not.
pub fn filter_in_format<
    F: Filter<Output<O>>,
    J: Filter<Output<O>>,
    S: Filter<Output<O>>,
    R: Files + Alloc<A = Global> + Meters,
    I: Read,
    O: Write + Drop,
    E: Target,
>(
    rt: &R,
    logs: bool,
    program: Program<'_>,
    words: &[String],
    stdin: &mut Input<I, R::Meter>,
    stdout: O,
    messages: &mut Messages<'_, E>,
) -> (Logged<Output<O>>, Ending)
    ensures done { AsksNoText (asked_of program.entry (map string_bytes words.now)) → result.1 ≡ Ending.Done
        → InFormat (format_asked logs (asked_of program.entry (map string_bytes words.now)))
        (PrintsAsked F.means F.Settings.file F.Settings.said (asked_of program.entry (map string_bytes words.now))
        (I.remaining stdin.old.inner) (I.remaining stdin.new.inner) result.0.taken false)
        (PrintsAsked J.means J.Settings.file J.Settings.said (asked_of program.entry (map string_bytes words.now))
        (I.remaining stdin.old.inner) (I.remaining stdin.new.inner) result.0.taken false)
        (PrintsAsked S.means S.Settings.file S.Settings.said (asked_of program.entry (map string_bytes words.now))
        (I.remaining stdin.old.inner) (I.remaining stdin.new.inner) result.0.taken false) }
    ensures found { AsksNoText (asked_of program.entry (map string_bytes words.now)) → result.1 ≡ Ending.Found
        → InFormat (format_asked logs (asked_of program.entry (map string_bytes words.now)))
        (PrintsAsked F.means F.Settings.file F.Settings.said (asked_of program.entry (map string_bytes words.now))
        (I.remaining stdin.old.inner) (I.remaining stdin.new.inner) result.0.taken true)
        (PrintsAsked J.means J.Settings.file J.Settings.said (asked_of program.entry (map string_bytes words.now))
        (I.remaining stdin.old.inner) (I.remaining stdin.new.inner) result.0.taken true)
        (PrintsAsked S.means S.Settings.file S.Settings.said (asked_of program.entry (map string_bytes words.now))
        (I.remaining stdin.old.inner) (I.remaining stdin.new.inner) result.0.taken true) }
    ensures help { AsksHelp (asked_of program.entry (map string_bytes words.now)) → result.1 ≡ Ending.Done
        → result.0.taken ≡ program.entry.help.now }
    ensures version { AsksVersion (asked_of program.entry (map string_bytes words.now)) → result.1 ≡ Ending.Done
        → result.0.taken ≡ version_line program.entry.name.now }
    ensures settings { AsksSettings (asked_of program.entry (map string_bytes words.now)) → result.1 ≡ Ending.Done
        → result.0.taken ≡ program.entry.settings.now }
    ensures closed { result.1 ≡ Ending.Closed → result.0.inner.is_closed ≡ true }
    ensures encoding { NamesNoEncoding (asked_of program.entry (map string_bytes words.now))
        → ((result.1 ≡ Ending.WrongValue) ⊎ (result.1 ≡ Ending.NoMemory)) × (stdin.new ≡ stdin.old) × (result.0.taken ≡ []) }
    ensures format { NamesNoFormat logs (asked_of program.entry (map string_bytes words.now))
        → ((result.1 ≡ Ending.WrongValue) ⊎ (result.1 ≡ Ending.NoMemory)) × (stdin.new ≡ stdin.old) × (result.0.taken ≡ []) }
    ensures no_settings { AsksNoSettings F.Settings.file F.Settings.said (asked_of program.entry (map string_bytes words.now))
        → AsksNoSettings J.Settings.file J.Settings.said (asked_of program.entry (map string_bytes words.now))
        → AsksNoSettings S.Settings.file S.Settings.said (asked_of program.entry (map string_bytes words.now))
        → ((status_of result.1 ≡ 2) ⊎ (result.1 ≡ Ending.NoMemory)) × (stdin.new ≡ stdin.old) × (result.0.taken ≡ []) }
    ensures wrong { result.1 ≡ Ending.WrongWord → HasWrongWord (asked_of program.entry (map string_bytes words.now)) }
    ensures usage { HasWrongWord (asked_of program.entry (map string_bytes words.now))
        → (result.1 ≡ Ending.WrongWord) ⊎ (result.1 ≡ Ending.NoMemory) }
    ensures untouched { HasWrongWord (asked_of program.entry (map string_bytes words.now))
        → (stdin.new ≡ stdin.old) × (result.0.taken ≡ []) }
{
    match format_by_words(rt.alloc(), logs, program.choices, words, messages) {
        Ok(Format::Lines) => {
            filter_by_words::<F, R, I, O, E>(rt, program, words, stdin, stdout, messages)
        }
        Ok(Format::Json) => {
            filter_by_words::<J, R, I, O, E>(rt, program, words, stdin, stdout, messages)
        }
        Ok(Format::Sarif) => {
            filter_by_words::<S, R, I, O, E>(rt, program, words, stdin, stdout, messages)
        }
        Err(ending) => (Logged::new(Output::new(stdout)), ending),
    }
}
