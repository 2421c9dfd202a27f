//! What is printed, and written once there is enough of it.
ghost use Rattle.std.specs.Prelude.{◌≡◌, ◌+◌, IfErr, OnOk, OnErr};
ghost use Rattle.std.specs.Io.KnownBytes.{Appends};
ghost use Rattle.devices.specs.Device.{AppendsBeginning, reported_failures};
ghost use Rattle.html5cli.specs.Printing.{WritesFront};
ghost use Rattle.token_printer.specs.Output.{without_lines};

use devices::{Fault, Target, write_all};
use std::alloc::Allocator;
use token_printer::print_sink::PrintSink;

/// Writes the output, and clears it.
pub fn write_output<W: Target, A: Allocator>(
    writer: &mut W,
    sink: &mut PrintSink<A>,
) -> Result<(), Fault>
    ensures ok { OnOk result (Appends (W.contents writer.old) (W.contents writer.new) sink.old.output.lines) }
    ensures err { OnErr result (AppendsBeginning (W.contents writer.old) (W.contents writer.new) sink.old.output.lines) }
    ensures cleared { OnOk result (sink.new.output ≡ without_lines sink.old.output) }
    ensures only_device { IfErr result (λ fault. fault ≡ Fault.Device) }
    ensures failures { W.failures writer.new ≡ W.failures writer.old + reported_failures result }
{
    write_all(writer, sink.output())?;
    sink.clear();
    Ok(())
}

// How many bytes wait on an output before it is written.
const OUTPUT: usize = 65_536;

/// Writes the output and clears it, if it is full.
pub fn write_full_output<W: Target, A: Allocator>(
    writer: &mut W,
    sink: &mut PrintSink<A>,
) -> Result<(), Fault>
    ensures ok { OnOk result
        (WritesFront (W.contents writer.old) (W.contents writer.new) sink.old.output sink.new.output) }
    ensures err { OnErr result (AppendsBeginning (W.contents writer.old) (W.contents writer.new) sink.old.output.lines) }
    ensures only_device { IfErr result (λ fault. fault ≡ Fault.Device) }
    ensures failures { W.failures writer.new ≡ W.failures writer.old + reported_failures result }
{
    if sink.output().len() < OUTPUT {
        return Ok(());
    }
    write_output(writer, sink)
}
