//! A run of the program, over any devices.
ghost use Rattle.std.specs.Prelude.{◌≡◌, ◌≢◌, ◌+◌, ◌≤◌, ◌⊎◌, ◌↔◌, ◌∷◌, ◌++◌, [], Contains, IsNone, IfErr, codes, decimal, length, map, string_bytes, nat_eq, if◌then◌else◌};
ghost use Rattle.std.specs.Io.KnownBytes.{Keeps};
ghost use Rattle.html5cli.specs.Ending.{status_of, line_of, failures_of, TriesLine, PrintsAsSaid, PrintsBeginningAsSaid};
ghost use Rattle.html5cli.specs.Ending.{IsNoTable, SayFault, SayBadTable};
ghost use Rattle.html5cli.specs.Printing.{traffic_of, PrintsNothing};
ghost use Rattle.html5cli.specs.Settings.{settings_said};
ghost use Rattle.html5cli.specs.declared.run.Ending.{Ending};
ghost use Rattle.markup5ever.specs.declared.data.TableError.{TableError};

use crate::arguments::settings_of;
use crate::print::print_tokens;
use arrayvec::ArrayString;
use devices::{Fault, Source, Target, write_all};
use html5table::references_of;
use itoa::Buffer;
use markup5ever::data::TableError;
use std::alloc::Allocator;
use std::rt::Env;

/// How a run ends.
#[derive(Clone, Copy, Debug, PartialEq, Eq)]
pub enum Ending {
    /// The whole reading was printed.
    Printed,
    /// The words of the command line say no settings.
    Usage,
    /// The settings' list makes no table.
    NoTable(TableError),
    /// The program gives no answer.
    Faulted(Fault),
}

// Room for the longest line.
const LONGEST_LINE: usize = 128;

const OUT_OF_MEMORY: &str = "out of memory\n";

impl Ending {
    /// The status that the process ends with.
    pub fn status(self) -> u8
        ensures { result ≡ status_of self }
    {
        match self {
            Ending::Printed => 0,
            Ending::Usage => 2,
            Ending::Faulted(Fault::NotUtf8) => 3,
            Ending::NoTable(TableError::BadName(_)) => 4,
            Ending::NoTable(TableError::ZeroCharacter(_)) => 4,
            Ending::NoTable(TableError::RepeatedName(_)) => 4,
            Ending::NoTable(TableError::Memory) => 5,
            Ending::Faulted(Fault::Memory) => 5,
            Ending::Faulted(Fault::Device) => 6,
        }
    }

    /// The line that tells why no answer was given, and nothing where one was.
    pub fn line(self) -> ArrayString<LONGEST_LINE>
        ensures { result.bytes ≡ line_of self }
    {
        match self {
            Ending::Printed => ArrayString::new(),
            Ending::Usage => line_with(
                "usage: html5tok [--exact] [--keep-bom] [--foreign] [--state S] [--last NAME] [--cut N] [--table LIST]\n",
            ),
            Ending::NoTable(error) => line_of_table(error),
            Ending::Faulted(Fault::NotUtf8) => line_with("input is not UTF-8\n"),
            Ending::Faulted(Fault::Memory) => line_with(OUT_OF_MEMORY),
            Ending::Faulted(Fault::Device) => line_with("read or write failed\n"),
        }
    }
}

// The line that tells why there is no table.
fn line_of_table(error: TableError) -> ArrayString<LONGEST_LINE>
    ensures { result.bytes ≡ line_of (Ending.NoTable error) }
{
    match error {
        TableError::Memory => line_with(OUT_OF_MEMORY),
        TableError::BadName(place) => line_at("table: bad name at ", place),
        TableError::ZeroCharacter(place) => line_at("table: zero character at ", place),
        TableError::RepeatedName(place) => line_at("table: repeated name at ", place),
    }
}

// The line with this text.
fn line_with(text: &str) -> ArrayString<LONGEST_LINE>
    requires { length text.now ≤ LONGEST_LINE }
    ensures { result.bytes ≡ text.now }
{
    let mut line = ArrayString::new();
    line.push_str(text);
    line
}

// The line that begins with this text, and ends with a place.
fn line_at(text: &str, place: usize) -> ArrayString<LONGEST_LINE>
    requires { length text.now ≤ 80 }
    ensures { result.bytes ≡ text.now ++ decimal place ++ codes "\n" }
{
    let mut digits = Buffer::new();
    let mut line = line_with(text);
    line.push_str(digits.format(place));
    line.push_str("\n");
    line
}

/// The words after the program's name, or how a run without them ends: the program knows no words
/// that are not text.
pub fn given_words<R: Env + Alloc>(rt: &R) -> Result<Vec<String<R::A>, R::A>, Ending>
    ensures { IfErr result (λ ending. (ending ≡ Ending.Usage) ⊎ (ending ≡ Ending.Faulted Fault.Memory)) }
{
    match devices::given_words(rt) {
        Ok(words) => Ok(words),
        Err(Fault::NotUtf8) => Err(Ending::Usage),
        Err(fault) => Err(Ending::Faulted(fault)),
    }
}

// Prints the reading of a source by the settings that the words say.
fn print_by_words<R: Source, W: Target, A: Allocator + Copy>(
    alloc: A,
    words: &[String<A>],
    reader: &mut R,
    writer: &mut W,
) -> Ending
    ensures printed { result ≡ Ending.Printed
        → PrintsAsSaid (map string_bytes words.now)
        (traffic_of R.remaining W.contents reader.old reader.new writer.old writer.new) }
    ensures usage { (result ≡ Ending.Usage) ↔ IsNone (settings_said (map string_bytes words.now)) }
    ensures untouched { result ≡ Ending.Usage → (reader.new ≡ reader.old) × (writer.new ≡ writer.old) }

    // What an end without a table says.
    ensures no_table { (error : TableError) → result ≡ Ending.NoTable error
        → (error ≡ TableError.Memory) ⊎ SayFault (map string_bytes words.now) error }
    ensures faulty { SayBadTable (map string_bytes words.now) → IsNoTable result }
    ensures unread { IsNoTable result → (reader.new ≡ reader.old) × (writer.new ≡ writer.old) }

    // What each other end says.
    ensures not_utf8 { result ≡ Ending.Faulted Fault.NotUtf8
        → PrintsNothing (traffic_of R.remaining W.contents reader.old reader.new writer.old writer.new) }
    ensures beginning { result ≢ Ending.Printed → Keeps (W.contents writer.old) (W.contents writer.new)
        ⊎ PrintsBeginningAsSaid (map string_bytes words.now)
        (traffic_of R.remaining W.contents reader.old reader.new writer.old writer.new) }
    ensures failed_read { R.failures reader.new ≢ R.failures reader.old
        → Keeps (W.contents writer.old) (W.contents writer.new) }
    ensures device { R.failures reader.new + W.failures writer.new
        ≡ R.failures reader.old + W.failures writer.old + failures_of result }
{
    let Some(settings) = settings_of(words) else {
        return Ending::Usage;
    };
    let references = match references_of(alloc, settings.table) {
        Ok(references) => references,
        Err(error) => return Ending::NoTable(error),
    };
    match print_tokens(alloc, reader, writer, &settings, &references) {
        Ok(()) => Ending::Printed,
        Err(fault) => Ending::Faulted(fault),
    }
}

/// Writes the line of an ending, and answers its status. The line is tried once, and where that
/// fails nothing changes.
pub fn report<E: Target>(errors: &mut E, ending: Ending) -> u8
    ensures status { result ≡ status_of ending }
    ensures line { TriesLine E.contents E.failures errors.old errors.new (line_of ending) }
    ensures silent { ending ≡ Ending.Printed → errors.new ≡ errors.old }
{
    let line = ending.line();
    let _ = write_all(errors, line.as_bytes());
    ending.status()
}

/// Runs the program: `words` are those after its name. Answers the status that the process ends with.
pub fn run<R: Source, W: Target, E: Target, A: Allocator + Copy>(
    alloc: A,
    words: Vec<String<A>, A>,
    reader: &mut R,
    writer: &mut W,
    errors: &mut E,
) -> u8
    ensures status { Contains (0 ∷ 2 ∷ 3 ∷ 4 ∷ 5 ∷ 6 ∷ []) result }

    // What each status says.
    ensures printed { result ≡ 0
        → PrintsAsSaid (map string_bytes words.items)
        (traffic_of R.remaining W.contents reader.old reader.new writer.old writer.new) }
    ensures usage { (result ≡ 2) ↔ IsNone (settings_said (map string_bytes words.items)) }
    ensures untouched { result ≡ 2 → (reader.new ≡ reader.old) × (writer.new ≡ writer.old) }
    ensures bad_table { result ≡ 4 → (error : TableError) × SayFault (map string_bytes words.items) error
        × TriesLine E.contents E.failures errors.old errors.new (line_of (Ending.NoTable error)) }
    ensures unread { result ≡ 4 → (reader.new ≡ reader.old) × (writer.new ≡ writer.old) }
    ensures faulty { SayBadTable (map string_bytes words.items)
        → Contains (4 ∷ 5 ∷ []) result × (reader.new ≡ reader.old) × (writer.new ≡ writer.old) }
    ensures not_utf8 { result ≡ 3
        → PrintsNothing (traffic_of R.remaining W.contents reader.old reader.new writer.old writer.new) }
    ensures beginning { result ≢ 0 → Keeps (W.contents writer.old) (W.contents writer.new)
        ⊎ PrintsBeginningAsSaid (map string_bytes words.items)
        (traffic_of R.remaining W.contents reader.old reader.new writer.old writer.new) }
    ensures failed_read { R.failures reader.new ≢ R.failures reader.old
        → Keeps (W.contents writer.old) (W.contents writer.new) }
    ensures device { R.failures reader.new + W.failures writer.new
        ≡ R.failures reader.old + W.failures writer.old + (if nat_eq result 6 then 1 else 0) }

    // What the line tells.
    ensures told { (ending : Ending) × (result ≡ status_of ending)
        × TriesLine E.contents E.failures errors.old errors.new (line_of ending) }
    ensures silent { result ≡ 0 → errors.new ≡ errors.old }
{
    let ending = print_by_words(alloc, &words, reader, writer);
    report(errors, ending)
}
