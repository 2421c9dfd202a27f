//! Files that a filter reads, one after the other.
ghost use Rattle.std.specs.Prelude.{◌≡◌, ◌≢◌, false, true, IsOk, OnOk, map};
ghost use Rattle.html5programs.specs.Ending.{PrintsFiles};
ghost use Rattle.html5programs.specs.Filtering.{ReadsFile, ReadsFiles, ReadsText};

use crate::encoded::{PageDecoding, PageError, read_page};
use crate::ending::Ending;
use crate::filter::Filter;
use crate::input::Input;
use crate::messages::Messages;
use crate::output::Output;
use crate::progress::{Meter, Meters};
use devices::{Logged, Printer, Target};
use html5stream::StreamError;
use markup5ever::data::NamedReferences;
use std::alloc::Global;
use std::fs::{File, Files};
use std::io;
use std::io::{Read, Write};
use thiserror::Error;

// Why a file was not read to its end.
#[derive(Clone, Copy, Debug, Error)]
enum FileError {
    // The system's reason.
    #[error("{0}")]
    System(io::Error),
    #[error("{0}")]
    Stream(StreamError),
    // The bytes from this place on, which is on this line, are invalid in the encoding of this name.
    #[error("line {line}: invalid {name} at byte {place}")]
    Bytes {
        name: &'static str,
        place: u64,
        line: u64,
    },
}

// How reading the files ends.
#[derive(Clone, Copy, Debug, PartialEq, Eq)]
enum Outcome {
    // All were read.
    Read,
    // Some were not, and the reason was reported.
    Missed,
    // What the filter makes of one can't be printed.
    Stopped,
}

// Why a file was not read to its end, where the system said this of a read.
fn file_error(error: PageError, fault: Option<io::Error>) -> FileError {
    match (error, fault) {
        (PageError::Stream(StreamError::Read), Some(fault)) => FileError::System(fault),
        (PageError::Stream(error), _) => FileError::Stream(error),
        (
            PageError::Bytes {
                encoding,
                place,
                line,
            },
            _,
        ) => FileError::Bytes {
            name: encoding.name(),
            place,
            line,
        },
    }
}

// The same answer in words of files.
fn read_or_error(read: Result<(), PageError>, fault: Option<io::Error>) -> Result<(), FileError>
    ensures { OnOk result (IsOk read) }
{
    match read {
        Ok(()) => Ok(()),
        Err(error) => Err(file_error(error, fault)),
    }
}

// Reads the open input, and shows by the meter how much of it was read.
fn read_input<F: Filter<W>, W: Target + Drop, R: Read, M: Meter>(
    alloc: Global,
    filter: F,
    references: &NamedReferences,
    decoding: PageDecoding,
    meter: Option<M>,
    input: &mut Input<R, M>,
) -> (F, Result<(), FileError>)
    ensures text { OnOk result.1 (ReadsText F.means references.now decoding
        (R.remaining input.old.inner) (R.remaining input.new.inner) (F.state filter) (F.state result.0)) }
    ensures read { OnOk result.1 (decoding ≡ PageDecoding.Utf8Alone → input.new.failures ≡ input.old.failures) }
{
    input.begin_meter(meter);
    let (filter, read) = read_page(alloc, filter, references, decoding, input);
    input.end_meter();
    (filter, read_or_error(read, input.fault()))
}

// Reads a file, or standard input if it is named `-`.
fn read_file<F: Filter<W>, W: Target + Drop, R: Files + Alloc<A = Global> + Meters, I: Read>(
    rt: &R,
    filter: F,
    references: &NamedReferences,
    decoding: PageDecoding,
    is_watched: bool,
    stdin: &mut Input<I, R::Meter>,
    file: &str,
) -> (F, Result<(), FileError>)
    ensures file { OnOk result.1 (ReadsFile F.means references.now decoding file.now
        (I.remaining stdin.old.inner) (I.remaining stdin.new.inner) (F.state filter) (F.state result.0)) }
    ensures read { OnOk result.1 (decoding ≡ PageDecoding.Utf8Alone → stdin.new.failures ≡ stdin.old.failures) }
{
    let mut filter = filter;
    if let Err(error) = filter.name_file(rt.alloc(), file) {
        return (filter, Err(FileError::Stream(error)));
    }
    let meter = if is_watched { rt.meter() } else { None };
    if file == "-" {
        return read_input(rt.alloc(), filter, references, decoding, meter, stdin);
    }
    match File::open(rt, file) {
        Ok(opened) => {
            let mut opened = Input::new(opened);
            read_input(rt.alloc(), filter, references, decoding, meter, &mut opened)
        }
        Err(fault) => (filter, Err(FileError::System(fault))),
    }
}

// Reads the files, up to one that can't be printed.
fn read_files<
    F: Filter<W>,
    W: Target + Drop,
    R: Files + Alloc<A = Global> + Meters,
    I: Read,
    E: Target,
>(
    rt: &R,
    filter: F,
    references: &NamedReferences,
    decoding: PageDecoding,
    is_watched: bool,
    stdin: &mut Input<I, R::Meter>,
    files: &[&str],
    messages: &mut Messages<'_, E>,
) -> (F, Outcome)
    ensures files { result.1 ≡ Outcome.Read → ReadsFiles F.means references.now decoding (map (λ file. file.now) files.now)
        (I.remaining stdin.old.inner) (I.remaining stdin.new.inner) (F.state filter) (F.state result.0) }
    ensures read { result.1 ≡ Outcome.Read → decoding ≡ PageDecoding.Utf8Alone → stdin.new.failures ≡ stdin.old.failures }
{
    let mut filter = filter;
    let mut outcome = Outcome::Read;
    for file in files {
        let (afterwards, read) = read_file(
            rt, filter, references, decoding, is_watched, stdin, file,
        );
        filter = afterwards;
        match read {
            Ok(()) => {}
            Err(FileError::Stream(StreamError::Sink)) => return (filter, Outcome::Stopped),
            Err(error) => {
                messages.say(file, error);
                outcome = Outcome::Missed;
            }
        }
    }
    (filter, outcome)
}

// How a run over files ends, where what was made of them was written or not, and something was found or not.
fn ending_of(outcome: Outcome, is_written: bool, is_closed: bool, has_found: bool) -> Ending
    ensures done { result ≡ Ending.Done → (outcome ≡ Outcome.Read) × (is_written ≡ true) × (has_found ≡ false) }
    ensures found { result ≡ Ending.Found → (outcome ≡ Outcome.Read) × (is_written ≡ true) × (has_found ≡ true) }
    ensures closed { (result ≡ Ending.Closed) → is_closed ≡ true }
    ensures words { (result ≢ Ending.WrongWord) × (result ≢ Ending.NoMemory) }
{
    if is_closed {
        return Ending::Closed;
    }
    match outcome {
        Outcome::Read if is_written && has_found => Ending::Found,
        Outcome::Read if is_written => Ending::Done,
        Outcome::Missed if is_written => Ending::Missed,
        _ => Ending::Unprinted,
    }
}

/// How a run ends that printed one text, which was written or not. If it can't be printed, it says why.
pub fn ending_of_text<O: Write, E: Target>(
    output: &Output<O>,
    is_written: bool,
    messages: &mut Messages<'_, E>,
) -> Ending
    ensures done { result ≡ Ending.Done → is_written ≡ true }
    ensures closed { result ≡ Ending.Closed → output.now.is_closed ≡ true }
    ensures words { (result ≢ Ending.WrongWord) × (result ≢ Ending.NoMemory) }
{
    let ending = ending_of(Outcome::Read, is_written, output.is_closed(), false);
    say_unprinted(ending, output, messages);
    ending
}

// Says why the output can't be written, if it can't.
fn say_unprinted<O: Write, E: Target>(
    ending: Ending,
    output: &Output<O>,
    messages: &mut Messages<'_, E>,
) {
    if ending != Ending::Unprinted {
        return;
    }
    match output.fault() {
        Some(fault) => messages.say("output", fault),
        None => messages.say("output", "can't be printed"),
    }
}

/// Reads the files, decoded so, and prints what the filter makes of them. If it is watched, it shows how much was read.
pub fn filter_files<
    F: Filter<Output<O>>,
    R: Files + Alloc<A = Global> + Meters,
    I: Read,
    O: Write + Drop,
    E: Target,
>(
    rt: &R,
    references: &NamedReferences,
    decoding: PageDecoding,
    is_watched: bool,
    settings: F::Settings,
    files: &[&str],
    stdin: &mut Input<I, R::Meter>,
    stdout: O,
    messages: &mut Messages<'_, E>,
) -> (Logged<Output<O>>, Ending)
    ensures done { result.1 ≡ Ending.Done → PrintsFiles F.means references.now decoding settings (map (λ file. file.now) files.now)
        (I.remaining stdin.old.inner) (I.remaining stdin.new.inner) result.0.taken false }
    ensures found { result.1 ≡ Ending.Found → PrintsFiles F.means references.now decoding settings (map (λ file. file.now) files.now)
        (I.remaining stdin.old.inner) (I.remaining stdin.new.inner) result.0.taken true }
    ensures closed { result.1 ≡ Ending.Closed → result.0.inner.is_closed ≡ true }
    ensures words { (result.1 ≢ Ending.WrongWord) × (result.1 ≢ Ending.NoMemory) }
{
    let printer = Printer::new(rt.alloc(), Output::new(stdout));
    let filter = F::new(rt.alloc(), printer, settings);
    let (filter, outcome) = read_files(
        rt, filter, references, decoding, is_watched, stdin, files, messages,
    );
    let has_found = filter.has_found();
    let (printer, ended) = filter.finish(rt.alloc());
    let (target, written) = printer.finish();
    let is_written = ended.is_ok() && written.is_ok();
    let ending = ending_of(outcome, is_written, target.inner().is_closed(), has_found);
    say_unprinted(ending, target.inner(), messages);
    (target, ending)
}
