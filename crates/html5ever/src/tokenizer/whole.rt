//! Whole texts, which one call reads.
ghost use Rattle.std.specs.Prelude.{◌≡◌, ◌+◌, ◌++◌, false, map, IfErr, OnOk, string_bytes};
ghost use Rattle.std.specs.Str.{chars};
ghost use Rattle.html5ever_interface.specs.Options.{options_of};
ghost use Rattle.html5states.specs.Telling.{faults_of};
ghost use Rattle.html5feed.specs.Starting.{CanStart};
ghost use Rattle.html5ever.specs.Pieces.{text_of};
ghost use Rattle.html5ever.specs.Tokenizer.{finished_reading, FinishedByItems, StoppedReading, ReadsWhole, StopsWhole};

use crate::tokenizer::Tokenizer;
use crate::tokenizer::steps::feed_until_done;
use html5ever_interface::interface::sink::TokenSink;
use html5ever_interface::interface::token::Token;
use html5ever_interface::options::TokenizerOpts;
use html5partial::error::TokenizerError;
use markup5ever::buffer_queue::BufferQueue;
use markup5ever::data::NamedReferences;
use std::alloc::Allocator;

// Feeds a tokenizer the queued text, and ends.
fn read_waiting<S: TokenSink<Token<A>>, A: Allocator + Copy>(
    tokenizer: &mut Tokenizer<'_, S, A>,
    queue: &mut BufferQueue<A>,
) -> Result<(), TokenizerError>
    requires going_on { tokenizer.old.ended ≡ false }
    requires not_failed { tokenizer.old.failed ≡ false }
    ensures finishes { OnOk result
        (ReadsWhole S.means tokenizer.old queue.old.text (S.means.state tokenizer.new.sink)) }
    ensures stops { IfErr result (λ error.
        StopsWhole S.means error tokenizer.old queue.old.text (S.means.state tokenizer.new.sink)) }
    ensures faults { S.faults tokenizer.new.sink ≡ S.faults tokenizer.old.sink + faults_of result }
{
    feed_until_done(tokenizer, queue)?;
    tokenizer.end()
}

// Reads the queued text from the start of a stream.
fn read_from_start<S: TokenSink<Token<A>>, A: Allocator + Copy>(
    alloc: A,
    sink: S,
    opts: TokenizerOpts<A>,
    references: &NamedReferences<A>,
    queue: &mut BufferQueue<A>,
) -> (S, Result<(), TokenizerError>)
    requires { CanStart opts.initial_state }
    ensures finishes { OnOk result.1 (S.means.state result.0
        ≡ finished_reading S.means (options_of opts) references.now (S.means.state sink) queue.old.text) }
    ensures items { OnOk result.1 (FinishedByItems S.means (options_of opts) references.now
        (S.means.state sink) queue.old.text (S.means.state result.0)) }
    ensures stops { IfErr result.1 (λ error. StoppedReading S.means (options_of opts) references.now
        error (S.means.state sink) queue.old.text (S.means.state result.0)) }
    ensures faults { S.faults result.0 ≡ S.faults sink + faults_of result.1 }
{
    references.table_laws();
    let mut tokenizer = Tokenizer::new(alloc, sink, opts, references);
    let result = read_waiting(&mut tokenizer, queue);
    (tokenizer.into_sink(), result)
}

// Hands in the pieces, one after the other.
fn hand_in_pieces<A: Allocator + Copy>(
    queue: &mut BufferQueue<A>,
    pieces: Vec<String<A>, A>,
) -> Result<(), TokenizerError>
    ensures ok { OnOk result (queue.new.text ≡ queue.old.text ++ text_of (map string_bytes pieces.items)) }
    ensures err { IfErr result (λ error. error ≡ TokenizerError.Memory) }
{
    for piece in pieces {
        let Ok(()) = queue.push_back(piece) else {
            return Err(TokenizerError::Memory);
        };
    }
    Ok(())
}

/// Reads a whole text from the start of a stream, and hands the sink back. The sink was sent all that
/// the text tells, and finished. After a refusal it received a prefix of that.
pub fn read_whole<S: TokenSink<Token<A>>, A: Allocator + Copy>(
    alloc: A,
    sink: S,
    opts: TokenizerOpts<A>,
    references: &NamedReferences<A>,
    text: String<A>,
) -> (S, Result<(), TokenizerError>)
    requires { CanStart opts.initial_state }
    ensures finishes { OnOk result.1 (S.means.state result.0
        ≡ finished_reading S.means (options_of opts) references.now (S.means.state sink) (chars (string_bytes text))) }
    ensures items { OnOk result.1 (FinishedByItems S.means (options_of opts) references.now
        (S.means.state sink) (chars (string_bytes text)) (S.means.state result.0)) }
    ensures stops { IfErr result.1 (λ error. StoppedReading S.means (options_of opts) references.now
        error (S.means.state sink) (chars (string_bytes text)) (S.means.state result.0)) }
    ensures faults { S.faults result.0 ≡ S.faults sink + faults_of result.1 }
{
    let mut queue = BufferQueue::new(alloc);
    if queue.push_back(text).is_err() {
        return (sink, Err(TokenizerError::Memory));
    }
    read_from_start(alloc, sink, opts, references, &mut queue)
}

/// Reads the text that the pieces make, one after the other, as `read_whole` does: where it is cut
/// changes nothing.
pub fn read_pieces<S: TokenSink<Token<A>>, A: Allocator + Copy>(
    alloc: A,
    sink: S,
    opts: TokenizerOpts<A>,
    references: &NamedReferences<A>,
    pieces: Vec<String<A>, A>,
) -> (S, Result<(), TokenizerError>)
    requires { CanStart opts.initial_state }
    ensures finishes { OnOk result.1 (S.means.state result.0
        ≡ finished_reading S.means (options_of opts) references.now (S.means.state sink)
        (text_of (map string_bytes pieces.items))) }
    ensures items { OnOk result.1 (FinishedByItems S.means (options_of opts) references.now
        (S.means.state sink) (text_of (map string_bytes pieces.items)) (S.means.state result.0)) }
    ensures stops { IfErr result.1 (λ error. StoppedReading S.means (options_of opts) references.now
        error (S.means.state sink) (text_of (map string_bytes pieces.items)) (S.means.state result.0)) }
    ensures faults { S.faults result.0 ≡ S.faults sink + faults_of result.1 }
{
    let mut queue = BufferQueue::new(alloc);
    if hand_in_pieces(&mut queue, pieces).is_err() {
        return (sink, Err(TokenizerError::Memory));
    }
    read_from_start(alloc, sink, opts, references, &mut queue)
}
