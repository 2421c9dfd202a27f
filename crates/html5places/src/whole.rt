//! Texts that are read as a whole, with the places of their tokens.
ghost use Rattle.std.specs.Prelude.{◌≡◌, ◌⊎◌, IfErr, OnErr, OnOk};
ghost use Rattle.std.specs.Str.{chars};
ghost use Rattle.html5ever.specs.Tokenizer.{rules_of};
ghost use Rattle.html5ever_interface.specs.Options.{options_of};
ghost use Rattle.html5feed.specs.Starting.{CanStart};
ghost use Rattle.html5places.specs.Placed.{handed_on, placed_tokens};
ghost use Rattle.html5places.specs.Readers.{IsPart};
ghost use Rattle.html5reading.specs.Start.{start_of};
ghost use Rattle.html5states.specs.Telling.{IsRefusal};

use crate::error::PlaceError;
use crate::handler::PlacedHandler;
use crate::reader::PlaceReader;
use html5ever::tokenizer::{NamedReferences, TokenizerError, TokenizerOpts};
use html5ever_interface::interface::token::Token;
use std::alloc::Allocator;

// The error of a tokenizer that this one is.
fn refusal(error: PlaceError) -> TokenizerError
    requires { (error ≡ PlaceError.Memory) ⊎ (error ≡ PlaceError.Handler) }
    ensures refusal { IsRefusal result }
    ensures memory { error ≡ PlaceError.Memory → result ≡ TokenizerError.Memory }
    ensures handler { error ≡ PlaceError.Handler → result ≡ TokenizerError.Sink }
{
    match error {
        PlaceError::Memory => TokenizerError::Memory,
        PlaceError::Handler => TokenizerError::Sink,
        PlaceError::TooLong | PlaceError::Failed => unreachable!(),
    }
}

/// Reads a text from the start of a stream, and hands each token except texts to the handler, with the run of text
/// before it and the places of both. The standard's elements choose how the text after a tag is read, and `<![CDATA[`
/// opens no section.
///
/// A tag, a comment, a processing instruction and a doctype stand from the last `<` after which markup may be open up
/// to what tells them. A run stands from where the token before it ends up to where the next one begins. It is source
/// text, with its references and with what tells no token, such as `</>`. What the end cuts off, such as `<p cla`,
/// stands in the last run's place. A parse error stands at the character that is wrong, or at the one that decides it,
/// as that after `&amp`. One that the end decides stands at the end.
///
/// `Sink` says that the handler refused a token, and `Memory` that there was no memory. After either the handler was
/// handed a prefix of the tokens.
pub fn read_places<H: PlacedHandler<Token<A>>, A: Allocator + Copy>(
    alloc: A,
    references: &NamedReferences<A>,
    opts: TokenizerOpts<A>,
    text: &str,
    handler: &mut H,
) -> Result<(), TokenizerError>
    requires { CanStart opts.initial_state }
    ensures placed { OnOk result (H.state handler.new ≡ handed_on H.step (H.state handler.old)
        (placed_tokens (rules_of (options_of opts) references.now) (start_of (options_of opts)) (chars text.now))) }
    ensures beginning { OnErr result (IsPart H.step (H.state handler.old)
        (placed_tokens (rules_of (options_of opts) references.now) (start_of (options_of opts)) (chars text.now))
        (H.state handler.new)) }
    ensures errors { IfErr result IsRefusal }
{
    let mut reader = PlaceReader::new(alloc, references, opts);
    // Matches in place of `?`: split for the proof.
    match reader.read(text, handler) {
        Ok(()) => match reader.end(handler) {
            Ok(()) => Ok(()),
            Err(error) => Err(refusal(error)),
        },
        Err(error) => Err(refusal(error)),
    }
}
