//! A page that is parsed in pieces.
ghost use Rattle.std.specs.Prelude.{◌≡◌, false};

use crate::words::Settings;
use devices::Fault;
use html5entities::standard_references;
use html5ever::tokenizer::Tokenizer;
use html5ever::tokenizer::steps::feed_until_done;
use html5ever_interface::options::TokenizerOpts;
use html5partial::error::TokenizerError;
use markup5ever::buffer_queue::BufferQueue;
use std::alloc::{AllocError, Global};
use tree_arena::arena::Arena;
use tree_builder::builder::Builder;
use tree_parser::TreeBuilder;

type Pages<'t> = Tokenizer<'t, TreeBuilder<Arena<Global>>>;

// Feeds a piece, and goes on after pauses.
fn feed_piece(
    tokenizer: &mut Pages<'_>,
    queue: &mut BufferQueue,
    piece: &str,
) -> Result<(), TokenizerError>
    requires { tokenizer.old.ended ≡ false }
    ensures { tokenizer.new.ended ≡ false }
{
    match queue.push_str(piece) {
        Ok(()) => feed_until_done(tokenizer, queue),
        Err(AllocError) => Err(TokenizerError::Memory),
    }
}

// Feeds a text in pieces of so many bytes or up to three more, and ends.
fn feed_pieces(
    alloc: Global,
    tokenizer: &mut Pages<'_>,
    text: &str,
    piece: usize,
) -> Result<(), TokenizerError>
    requires { tokenizer.old.ended ≡ false }
{
    let mut queue = BufferQueue::new(alloc);
    let mut start = 0;
    for (at, _) in text.char_indices() {
        if at.saturating_sub(start) >= piece {
            feed_piece(tokenizer, &mut queue, text.get(start..at).unwrap_or(""))?;
            start = at;
        }
    }
    feed_piece(tokenizer, &mut queue, text.get(start..).unwrap_or(""))?;
    tokenizer.end()
}

/// The document of a page. A byte order mark at its front is a character.
pub fn document_of(alloc: Global, settings: Settings, text: &str) -> Result<Arena<Global>, Fault> {
    let Ok(references) = standard_references(alloc) else {
        return Err(Fault::Memory);
    };
    let builder = Builder::new(alloc, Arena::new(alloc)?, settings.opts);
    let builder = TreeBuilder::new(alloc, builder);
    let reading = TokenizerOpts {
        exact_errors: false,
        discard_bom: false,
        initial_state: None,
        last_start_tag_name: None,
    };
    let mut tokenizer = Tokenizer::new(alloc, builder, reading, &references);
    match feed_pieces(alloc, &mut tokenizer, text, settings.piece) {
        Ok(()) => Ok(tokenizer.into_sink().into_sink()),
        Err(_) => Err(Fault::Memory),
    }
}
