//! Pieces that are fed one after another.
ghost use Rattle.std.specs.Prelude.{◌≡◌, ◌↔◌, ◌+◌, ◌++◌, false, true, map, Err, IfErr, OnOk, OnErr, string_bytes};
ghost use Rattle.html5reading.specs.Start.{held_len};
ghost use Rattle.html5states.specs.Telling.{IsRefusal, faults_of};
ghost use Rattle.html5ever.specs.FedPieces.{fed_text, left_of, IsLinearFor, StandsWithin};
ghost use Rattle.html5ever.specs.Pieces.{text_of};
ghost use Rattle.html5ever.specs.Tokenizer.{ReadsOn, ReadsItems, StopsReading};

use crate::tokenizer::steps::feed_until_done;
use crate::tokenizer::{Tokenizer, table_laws};
use html5ever_interface::interface::sink::TokenSink;
use html5ever_interface::interface::token::Token;
use html5partial::error::TokenizerError;
use markup5ever::buffer_queue::BufferQueue;
use std::alloc::Allocator;

// Hands in each piece, and feeds all that waits then.
fn feed_each<S: TokenSink<Token<A>>, A: Allocator + Copy>(
    tokenizer: &mut Tokenizer<'_, S, A>,
    queue: &mut BufferQueue<A>,
    pieces: Vec<String<A>, A>,
) -> Result<(), TokenizerError>
    requires going_on { tokenizer.old.ended ≡ false }
    requires not_failed { tokenizer.old.failed ≡ false }
    ensures reads { OnOk result
        (ReadsOn S.means tokenizer.old tokenizer.new (fed_text queue.old.text (map string_bytes pieces.items))) }
    ensures left { OnOk result (queue.new.text ≡ left_of queue.old.text (map string_bytes pieces.items)) }
    ensures stops { IfErr result (λ error. StopsReading S.means error tokenizer.old
        (queue.old.text ++ text_of (map string_bytes pieces.items)) (S.means.state tokenizer.new.sink)) }
    ensures no_room { OnErr result (tokenizer.new.failed ≡ false
        → StandsWithin S.means tokenizer.old tokenizer.new queue.old.text (map string_bytes pieces.items)) }
    ensures refusal { IfErr result IsRefusal }
    ensures not_failed { OnOk result (tokenizer.new.failed ≡ false) }
    ensures faults { S.faults tokenizer.new.sink ≡ S.faults tokenizer.old.sink + faults_of result }
    ensures linear { IsLinearFor (held_len tokenizer.old.position.opened) queue.old
        (held_len tokenizer.new.position.opened) queue.new }
    ensures rules { tokenizer.new.rules ≡ tokenizer.old.rules }
    ensures going_on { tokenizer.new.ended ≡ false }
{
    for piece in pieces {
        let Ok(()) = queue.push_back(piece) else {
            return Err(TokenizerError::Memory);
        };
        feed_until_done(tokenizer, queue)?;
    }
    Ok(())
}

/// Hands in the pieces one after another, each at the back of the queue. After each it feeds until
/// the queue is empty, past all pauses. It stops at the first refusal, and drops the pieces after
/// that. If there was no room for a piece the tokenizer has not failed, and can go on.
pub fn feed_pieces<S: TokenSink<Token<A>>, A: Allocator + Copy>(
    tokenizer: &mut Tokenizer<'_, S, A>,
    queue: &mut BufferQueue<A>,
    pieces: Vec<String<A>, A>,
) -> Result<(), TokenizerError>
    requires { tokenizer.old.ended ≡ false }

    // What an `Ok` says: all pieces were taken, and all that waited before the first of them.
    ensures reads { OnOk result
        (ReadsOn S.means tokenizer.old tokenizer.new (fed_text queue.old.text (map string_bytes pieces.items))) }
    ensures items { OnOk result
        (ReadsItems S.means tokenizer.old tokenizer.new (fed_text queue.old.text (map string_bytes pieces.items))) }
    ensures left { OnOk result (queue.new.text ≡ left_of queue.old.text (map string_bytes pieces.items)) }

    // When each error comes, and what it leaves.
    ensures failed_before { (result ≡ Err TokenizerError.Failed) ↔ (tokenizer.old.failed ≡ true) }
    ensures unchanged { tokenizer.old.failed ≡ true
        → (tokenizer.new ≡ tokenizer.old) × (queue.new ≡ queue.old) }
    ensures stops { IfErr result (λ error. StopsReading S.means error tokenizer.old
        (queue.old.text ++ text_of (map string_bytes pieces.items)) (S.means.state tokenizer.new.sink)) }
    ensures no_room { OnErr result (tokenizer.new.failed ≡ false
        → StandsWithin S.means tokenizer.old tokenizer.new queue.old.text (map string_bytes pieces.items)) }
    ensures not_failed { OnOk result (tokenizer.new.failed ≡ false) }
    ensures faults { S.faults tokenizer.new.sink ≡ S.faults tokenizer.old.sink + faults_of result }

    // What it costs, and what it keeps.
    ensures linear { IsLinearFor (held_len tokenizer.old.position.opened) queue.old
        (held_len tokenizer.new.position.opened) queue.new }
    ensures rules { tokenizer.new.rules ≡ tokenizer.old.rules }
    ensures going_on { tokenizer.new.ended ≡ false }
{
    if tokenizer.has_failed() {
        return Err(TokenizerError::Failed);
    }
    table_laws(&tokenizer.rules);
    feed_each(tokenizer, queue, pieces)
}
