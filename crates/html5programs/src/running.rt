//! Programs that read pages, and print what they make of them.
ghost use Rattle.std.specs.Prelude.{◌≡◌, ◌≢◌, ◌⊎◌, ◌∷◌, [], false, true, Contains, IfSome, Ok, map, option_map, string_bytes};
ghost use Rattle.html5programs.specs.Encodings.{IsUnknownLabel};
ghost use Rattle.html5programs.specs.Ending.{AsksHelp, AsksNoSettings, AsksNoText, AsksSettings, AsksVersion, HasWrongWord, NamesNoEncoding, PrintsAsked, asked_of, status_of};
ghost use Rattle.html5programs.specs.Filtering.{AreSettingsAsked, SaysNoSettings};
ghost use Rattle.html5programs.specs.Version.{version_line};
ghost use Rattle.html5programs.specs.Words.{asked_by, label_asked};

use crate::encoded::{decoding_of, encoding_asked};
use crate::ending::Ending;
use crate::files::{ending_of_text, filter_files};
use crate::filter::Filter;
use crate::input::Input;
use crate::messages::Messages;
use crate::output::Output;
use crate::program::Program;
use crate::progress::Meters;
use crate::references::read_references;
use crate::settings::Settings;
use crate::suggestions::no_such;
use crate::version::version_line;
use crate::words::{Choice, Words, wants_word, words_of};
use devices::{Logged, Target, WriteTarget, given_words, write_all};
use std::alloc::{AllocError, Global};
use std::fs;
use std::fs::Files;
use std::io::{Read, Write};
use std::rt::Env;

// The settings that the words ask for. If there are none, it says why.
fn read_settings<S: Settings, R: Files + Alloc<A = Global> + Meters, E: Target>(
    rt: &R,
    asked: &Words<'_>,
    messages: &mut Messages<'_, E>,
) -> Option<S>
    ensures { IfSome result (AreSettingsAsked S.file S.said (asked_by asked.now)) }
{
    let Some(path) = S::file_of(asked) else {
        let what = asked.value(S::OPTION).unwrap_or("settings");
        return settings_or_say(S::of_words(rt.alloc(), asked, None), what, messages);
    };
    match fs::read_to_string(rt, path) {
        Ok(text) => settings_or_say(S::of_words(rt.alloc(), asked, Some(&text)), path, messages),
        Err(fault) => {
            messages.say(path, fault);
            None
        }
    }
}

// The settings, or that there are none, and the reason was reported.
fn settings_or_say<S: Settings, E: Target>(
    said: Result<S, S::Fault>,
    what: &str,
    messages: &mut Messages<'_, E>,
) -> Option<S>
    ensures { IfSome result (λ settings. said ≡ Ok settings) }
{
    match said {
        Ok(settings) => Some(settings),
        Err(fault) => {
            messages.say(what, fault);
            None
        }
    }
}

// Reads the files that the words ask for, or else standard input.
fn filter_asked<
    F: Filter<Output<O>>,
    R: Files + Alloc<A = Global> + Meters,
    I: Read,
    O: Write + Drop,
    E: Target,
>(
    rt: &R,
    asked: &Words<'_>,
    stdin: &mut Input<I, R::Meter>,
    stdout: O,
    messages: &mut Messages<'_, E>,
) -> (Logged<Output<O>>, Ending)
    ensures done { result.1 ≡ Ending.Done → PrintsAsked F.means F.Settings.file F.Settings.said (asked_by asked.now)
        (I.remaining stdin.old.inner) (I.remaining stdin.new.inner) result.0.taken false }
    ensures found { result.1 ≡ Ending.Found → PrintsAsked F.means F.Settings.file F.Settings.said (asked_by asked.now)
        (I.remaining stdin.old.inner) (I.remaining stdin.new.inner) result.0.taken true }
    ensures closed { result.1 ≡ Ending.Closed → result.0.inner.is_closed ≡ true }
    ensures words { (result.1 ≢ Ending.WrongWord) × (result.1 ≢ Ending.NoMemory) }
    ensures encoding { IsUnknownLabel (label_asked (asked_by asked.now))
        → (result.1 ≡ Ending.WrongValue) × (stdin.new ≡ stdin.old) × (result.0.taken ≡ []) }
    ensures settings { SaysNoSettings F.Settings.file F.Settings.said (asked_by asked.now)
        → (status_of result.1 ≡ 2) × (stdin.new ≡ stdin.old) × (result.0.taken ≡ []) }
{
    let label = asked.value("--encoding");
    let encoding = match encoding_asked(label) {
        Ok(encoding) => encoding,
        Err(unknown) => {
            messages.say(label.unwrap_or("encoding"), unknown);
            return (Logged::new(Output::new(stdout)), Ending::WrongValue);
        }
    };
    let Some(settings) = read_settings::<F::Settings, R, E>(rt, asked, messages) else {
        return (Logged::new(Output::new(stdout)), Ending::NoSettings);
    };
    let entities = asked.value("--entities");
    let table = match read_references(rt, entities) {
        Ok(table) => table,
        Err(error) => {
            messages.say(entities.unwrap_or("entities"), error);
            return (Logged::new(Output::new(stdout)), Ending::NoTable);
        }
    };
    filter_files::<F, R, I, O, E>(
        rt,
        &table,
        decoding_of(asked.has("--fatal"), encoding),
        asked.has("--progress"),
        settings,
        asked.inputs(),
        stdin,
        stdout,
        messages,
    )
}

/// Prints a text, as how a program is used.
pub fn print_text<O: Write + Drop, E: Target>(
    text: &str,
    stdout: O,
    messages: &mut Messages<'_, E>,
) -> (Logged<Output<O>>, Ending)
    ensures done { result.1 ≡ Ending.Done → result.0.taken ≡ text.now }
    ensures closed { result.1 ≡ Ending.Closed → result.0.inner.is_closed ≡ true }
    ensures words { (result.1 ≢ Ending.WrongWord) × (result.1 ≢ Ending.NoMemory) }
{
    let mut output = Logged::new(Output::new(stdout));
    let written = write_all(&mut output, text.as_bytes());
    let ending = ending_of_text(output.inner(), written.is_ok(), messages);
    (output, ending)
}

/// Prints the program's name and its version.
pub fn print_version<O: Write + Drop, E: Target>(
    alloc: Global,
    name: &str,
    stdout: O,
    messages: &mut Messages<'_, E>,
) -> (Logged<Output<O>>, Ending)
    ensures done { result.1 ≡ Ending.Done → result.0.taken ≡ version_line name.now }
    ensures closed { result.1 ≡ Ending.Closed → result.0.inner.is_closed ≡ true }
    ensures words { result.1 ≢ Ending.WrongWord }
{
    let Ok(line) = version_line(alloc, name) else {
        messages.say("version", "out of memory");
        return (Logged::new(Output::new(stdout)), Ending::NoMemory);
    };
    print_text(line.as_str(), stdout, messages)
}

// The names of options.
fn names_of<'c>(alloc: Global, choices: &[Choice<'c>]) -> Result<Vec<&'c str>, AllocError> {
    let mut names = Vec::new(alloc);
    for choice in choices {
        names.push(choice.name)?;
    }
    Ok(names)
}

// Says what is wrong with a word that is not an option of a program, or that another must follow.
fn say_wrong<E: Target>(
    alloc: Global,
    choices: &[Choice<'_>],
    word: &str,
    messages: &mut Messages<'_, E>,
) {
    if wants_word(choices, word).is_some() {
        messages.say(word, "a word is missing after it; try --help");
        return;
    }
    let names = names_of(alloc, choices).unwrap_or(Vec::new(alloc));
    messages.say(word, no_such(alloc, "option", &names, word));
}

/// Runs a program by the words after its name. It prints its usage, its version, its settings, or what its
/// filter makes of the files that the words name, or else of standard input. It gives the output back, and
/// how it ended. What a file holds that is opened by its path no contract says.
pub fn filter_by_words<
    F: Filter<Output<O>>,
    R: Files + Alloc<A = Global> + Meters,
    I: Read,
    O: Write + Drop,
    E: Target,
>(
    rt: &R,
    program: Program<'_>,
    words: &[String],
    stdin: &mut Input<I, R::Meter>,
    stdout: O,
    messages: &mut Messages<'_, E>,
) -> (Logged<Output<O>>, Ending)
    // What `Done` and `Found` say: all files that the words ask for were read to their ends, and what was
    // written is what the filter printed of them.
    ensures done { AsksNoText (asked_of program.entry (map string_bytes words.now)) → result.1 ≡ Ending.Done
        → PrintsAsked F.means F.Settings.file F.Settings.said (asked_of program.entry (map string_bytes words.now))
        (I.remaining stdin.old.inner) (I.remaining stdin.new.inner) result.0.taken false }
    ensures found { AsksNoText (asked_of program.entry (map string_bytes words.now)) → result.1 ≡ Ending.Found
        → PrintsAsked F.means F.Settings.file F.Settings.said (asked_of program.entry (map string_bytes words.now))
        (I.remaining stdin.old.inner) (I.remaining stdin.new.inner) result.0.taken true }
    ensures help { AsksHelp (asked_of program.entry (map string_bytes words.now)) → result.1 ≡ Ending.Done
        → result.0.taken ≡ program.entry.help.now }
    ensures version { AsksVersion (asked_of program.entry (map string_bytes words.now)) → result.1 ≡ Ending.Done
        → result.0.taken ≡ version_line program.entry.name.now }
    ensures settings { AsksSettings (asked_of program.entry (map string_bytes words.now)) → result.1 ≡ Ending.Done
        → result.0.taken ≡ program.entry.settings.now }
    ensures closed { result.1 ≡ Ending.Closed → result.0.inner.is_closed ≡ true }

    // When words are wrong, and that nothing is read and written then.
    ensures encoding { NamesNoEncoding (asked_of program.entry (map string_bytes words.now))
        → ((result.1 ≡ Ending.WrongValue) ⊎ (result.1 ≡ Ending.NoMemory)) × (stdin.new ≡ stdin.old) × (result.0.taken ≡ []) }
    ensures no_settings { AsksNoSettings F.Settings.file F.Settings.said (asked_of program.entry (map string_bytes words.now))
        → ((status_of result.1 ≡ 2) ⊎ (result.1 ≡ Ending.NoMemory)) × (stdin.new ≡ stdin.old) × (result.0.taken ≡ []) }
    ensures wrong { result.1 ≡ Ending.WrongWord → HasWrongWord (asked_of program.entry (map string_bytes words.now)) }
    ensures usage { HasWrongWord (asked_of program.entry (map string_bytes words.now))
        → (result.1 ≡ Ending.WrongWord) ⊎ (result.1 ≡ Ending.NoMemory) }
    ensures untouched { HasWrongWord (asked_of program.entry (map string_bytes words.now))
        → (stdin.new ≡ stdin.old) × (result.0.taken ≡ []) }
{
    let Ok(asked) = words_of(rt.alloc(), words, program.choices) else {
        messages.say("words", "out of memory");
        return (Logged::new(Output::new(stdout)), Ending::NoMemory);
    };
    if asked.has("--help") {
        return print_text(program.help, stdout, messages);
    }
    if asked.has("--version") {
        return print_version(rt.alloc(), program.name, stdout, messages);
    }
    if let Some(word) = asked.wrong {
        say_wrong(rt.alloc(), program.choices, word, messages);
        return (Logged::new(Output::new(stdout)), Ending::WrongWord);
    }
    if asked.has("--print-policy") {
        return print_text(program.settings, stdout, messages);
    }
    filter_asked::<F, R, I, O, E>(rt, &asked, stdin, stdout, messages)
}
