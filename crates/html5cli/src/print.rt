//! The reading of a source, printed to a target.
ghost use Rattle.std.specs.Prelude.{◌≡◌, ◌≢◌, ◌↔◌, ◌+◌, ◌⊎◌, false, IfOk, IfErr, IsErr, OnOk, OnErr};
ghost use Rattle.std.specs.Io.KnownBytes.{Appends, Keeps};
ghost use Rattle.std.specs.Str.{IsUtf8};
ghost use Rattle.devices.specs.Device.{AppendsBeginning, IsReadFault, reported_failures};
ghost use Rattle.html5cli.specs.Settings.{said_by};
ghost use Rattle.html5cli.specs.Printing.{printed_reading, output_at_end, traffic_of, PrintsReading, PrintsItems, PrintsBeginning, PrintsNothing};
ghost use Rattle.html5feed.specs.Starting.{CanStart};

use crate::feeding::feed_text;
use crate::output::write_output;
use crate::settings::{Settings, options_of};
use devices::{Fault, Source, Target, read_to_end};
use html5ever::tokenizer::Tokenizer;
use markup5ever::data::NamedReferences;
use simdutf8::basic::from_utf8;
use std::alloc::Allocator;
use token_printer::print_sink::PrintSink;

// Sends the end of the input, and writes what the output has then.
fn print_end<W: Target, A: Allocator + Copy>(
    tokenizer: &mut Tokenizer<'_, PrintSink<A>, A>,
    writer: &mut W,
) -> Result<(), Fault>
    requires going_on { tokenizer.old.ended ≡ false }
    requires not_failed { tokenizer.old.failed ≡ false }
    ensures ok { OnOk result (Appends (W.contents writer.old) (W.contents writer.new) (output_at_end tokenizer.old).lines) }
    ensures err { OnErr result
        (AppendsBeginning (W.contents writer.old) (W.contents writer.new) (output_at_end tokenizer.old).lines) }
    ensures fault { IfErr result IsReadFault }
    ensures failures { W.failures writer.new ≡ W.failures writer.old + reported_failures result }
{
    match tokenizer.end() {
        Ok(()) => write_output(writer, &mut tokenizer.sink),
        Err(_) => Err(Fault::Memory),
    }
}

// Prints the reading of a text.
fn print_text<W: Target, A: Allocator + Copy>(
    alloc: A,
    text: &str,
    settings: &Settings<'_>,
    references: &NamedReferences<A>,
    writer: &mut W,
) -> Result<(), Fault>
    requires start { CanStart settings.now.initial_state }
    ensures ok { OnOk result (Appends (W.contents writer.old) (W.contents writer.new)
        (printed_reading (said_by settings.now) references.now text.now)) }
    ensures err { OnErr result (AppendsBeginning (W.contents writer.old) (W.contents writer.new)
        (printed_reading (said_by settings.now) references.now text.now)) }
    ensures fault { IfErr result IsReadFault }
    ensures failures { W.failures writer.new ≡ W.failures writer.old + reported_failures result }
{
    let sink = PrintSink::new(alloc, settings.foreign);
    let opts = options_of(alloc, settings)?;
    let mut tokenizer = Tokenizer::new(alloc, sink, opts, references);
    feed_text(alloc, &mut tokenizer, text, settings.cut, writer)?;
    print_end(&mut tokenizer, writer)
}

// The text that these bytes are.
fn text_of(bytes: &[u8]) -> Result<&str, Fault>
    ensures ok { IfOk result (λ text. (text.now ≡ bytes.now) × IsUtf8 bytes.now) }
    ensures fault { IfErr result (λ fault. fault ≡ Fault.NotUtf8) }
    ensures not_utf8 { IsErr result ↔ ¬ IsUtf8 bytes.now }
{
    match from_utf8(bytes) {
        Ok(text) => Ok(text),
        Err(_) => Err(Fault::NotUtf8),
    }
}

/// Reads the text of a source to its end and prints its reading by the table, a line for each token. The
/// table is the caller's, whatever list the settings have.
pub fn print_tokens<R: Source, W: Target, A: Allocator + Copy>(
    alloc: A,
    reader: &mut R,
    writer: &mut W,
    settings: &Settings<'_>,
    references: &NamedReferences<A>,
) -> Result<(), Fault>
    requires start { CanStart settings.now.initial_state }
    ensures ok { OnOk result (PrintsReading (said_by settings.now) references.now
        (traffic_of R.remaining W.contents reader.old reader.new writer.old writer.new)) }
    ensures items { OnOk result (PrintsItems (said_by settings.now) references.now
        (traffic_of R.remaining W.contents reader.old reader.new writer.old writer.new)) }

    // When each fault comes, and what it leaves.
    ensures not_utf8 { result ≡ Err Fault.NotUtf8
        → PrintsNothing (traffic_of R.remaining W.contents reader.old reader.new writer.old writer.new) }
    ensures beginning { OnErr result (Keeps (W.contents writer.old) (W.contents writer.new)
        ⊎ PrintsBeginning (said_by settings.now) references.now
        (traffic_of R.remaining W.contents reader.old reader.new writer.old writer.new)) }
    ensures failed_read { R.failures reader.new ≢ R.failures reader.old
        → Keeps (W.contents writer.old) (W.contents writer.new) }
    ensures device { R.failures reader.new + W.failures writer.new
        ≡ R.failures reader.old + W.failures writer.old + reported_failures result }
{
    references.table_laws();
    let bytes = read_to_end(alloc, reader)?;
    let text = text_of(&bytes)?;
    print_text(alloc, text, settings, references, writer)
}
