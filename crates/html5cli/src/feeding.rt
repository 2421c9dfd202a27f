//! A text that is fed piece by piece, and printed as it is read.
ghost use Rattle.std.specs.Prelude.{◌≡◌, ◌+◌, [], false, IfErr, OnOk, OnErr};
ghost use Rattle.std.specs.Str.{chars};
ghost use Rattle.devices.specs.Device.{IsReadFault, IsRefusal, reported_failures};
ghost use Rattle.html5ever.specs.Tokenizer.{ReadsOn};
ghost use Rattle.html5cli.specs.Printing.{printer_means, PrintsOn, PrintsShort};

use crate::cuts::piece_len;
use crate::output::write_full_output;
use devices::{Fault, Target};
use html5ever::tokenizer::Tokenizer;
use html5ever::tokenizer::steps::feed_until_done;
use markup5ever::buffer_queue::BufferQueue;
use std::alloc::Allocator;
use token_printer::print_sink::PrintSink;

// Feeds one piece of the text, past its pauses. It is refused only when out of memory: no call was refused before,
// and the sink faults for no other reason.
#[inline(always)]
fn feed_piece<A: Allocator + Copy>(
    tokenizer: &mut Tokenizer<'_, PrintSink<A>, A>,
    queue: &mut BufferQueue<A>,
    piece: &str,
) -> Result<(), Fault>
    requires waiting { queue.old.text ≡ [] }
    requires going_on { tokenizer.old.ended ≡ false }
    requires not_failed { tokenizer.old.failed ≡ false }
    ensures reads { OnOk result (ReadsOn printer_means tokenizer.old tokenizer.new (chars piece.now)) }
    ensures taken { OnOk result (queue.new.text ≡ []) }
    ensures rules { tokenizer.new.rules ≡ tokenizer.old.rules }
    ensures going_on { tokenizer.new.ended ≡ false }
    ensures not_failed { OnOk result (tokenizer.new.failed ≡ false) }
    ensures err { IfErr result IsRefusal }
{
    queue.push_str(piece)?;
    match feed_until_done(tokenizer, queue) {
        Ok(()) => Ok(()),
        Err(_) => Err(Fault::Memory),
    }
}

/// Feeds the text, cut into pieces of this many characters, and 0 stands for a number of its own. After a piece
/// the output is written if it is full. What is left on it at the end is the caller's to write.
pub fn feed_text<W: Target, A: Allocator + Copy>(
    alloc: A,
    tokenizer: &mut Tokenizer<'_, PrintSink<A>, A>,
    text: &str,
    cut: usize,
    writer: &mut W,
) -> Result<(), Fault>
    requires going_on { tokenizer.old.ended ≡ false }
    requires not_failed { tokenizer.old.failed ≡ false }
    ensures prints { OnOk result (PrintsOn (W.contents writer.old) (W.contents writer.new)
        tokenizer.old tokenizer.new (chars text.now)) }
    ensures rules { tokenizer.new.rules ≡ tokenizer.old.rules }
    ensures going_on { tokenizer.new.ended ≡ false }
    ensures not_failed { OnOk result (tokenizer.new.failed ≡ false) }
    ensures beginning { OnErr result (PrintsShort (W.contents writer.old) (W.contents writer.new)
        tokenizer.old (chars text.now)) }
    ensures fault { IfErr result IsReadFault }
    ensures failures { W.failures writer.new ≡ W.failures writer.old + reported_failures result }
{
    let mut queue = BufferQueue::new(alloc);
    let mut start = 0;
    while start < text.len() {
        let end = start + piece_len(&text[start..], cut);
        feed_piece(tokenizer, &mut queue, &text[start..end])?;
        write_full_output(writer, &mut tokenizer.sink)?;
        start = end;
    }
    Ok(())
}
