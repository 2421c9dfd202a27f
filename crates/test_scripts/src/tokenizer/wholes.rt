//! Calls that read a whole text, which comes in parts.
ghost use Rattle.html5feed.specs.Starting.{CanStart};

use crate::tokenizer::{Law, Whole};
use html5ever::TokenizerError;
use html5ever::tokenizer::laws::{
    cdata, comment, doctype, instruction, items, raw, reference, tag,
};
use html5ever::tokenizer::steps::{Step, run_steps};
use html5ever::tokenizer::whole::{read_pieces, read_whole};
use html5ever_interface::collect::Collector;
use html5ever_interface::interface::sink::TokenSink;
use html5ever_interface::interface::token::Token;
use html5ever_interface::options::TokenizerOpts;
use markup5ever::data::NamedReferences;
use std::alloc::Allocator;
use testing_lines::Stop;

/// The parts as one text.
pub fn joined<A: Allocator + Copy>(alloc: A, parts: Vec<Step<A>, A>) -> Result<String<A>, Stop> {
    let mut text = String::new(alloc);
    for part in parts {
        match part {
            Step::Push(piece) => text.push_str(&piece)?,
            Step::Insert(_) => return Err(Stop::BadStep),
        }
    }
    Ok(text)
}

/// The parts as pieces.
pub fn pieces_of<A: Allocator + Copy>(
    alloc: A,
    parts: Vec<Step<A>, A>,
) -> Result<Vec<String<A>, A>, Stop> {
    let mut pieces = Vec::new(alloc);
    for part in parts {
        match part {
            Step::Push(piece) => pieces.push(piece).map_err(|_| Stop::Memory)?,
            Step::Insert(_) => return Err(Stop::BadStep),
        }
    }
    Ok(pieces)
}

/// Reads a whole text, in that way, and hands the sink back.
pub fn read<S: TokenSink<Token<A>> + Drop, A: Allocator + Copy>(
    alloc: A,
    sink: S,
    opts: TokenizerOpts<A>,
    references: &NamedReferences<A>,
    whole: Whole,
    parts: Vec<Step<A>, A>,
) -> Result<(S, Result<(), TokenizerError>), Stop>
    requires starts { CanStart opts.initial_state }
{
    match whole {
        Whole::Text => {
            let text = joined(alloc, parts)?;
            Ok(read_whole(alloc, sink, opts, references, text))
        }
        Whole::Pieces => {
            let pieces = pieces_of(alloc, parts)?;
            Ok(read_pieces(alloc, sink, opts, references, pieces))
        }
        Whole::Steps => Ok(run_steps(alloc, sink, opts, references, parts)),
    }
}

/// Reads a whole text that is one item, or items.
pub fn read_item<A: Allocator + Copy>(
    alloc: A,
    opts: TokenizerOpts<A>,
    foreign: bool,
    references: &NamedReferences<A>,
    law: Law,
    text: String<A>,
) -> Result<Collector<A>, TokenizerError>
    requires starts { CanStart opts.initial_state }
{
    match law {
        Law::Tag => tag(alloc, opts, foreign, references, text),
        Law::Reference => reference(alloc, opts, foreign, references, text),
        Law::Comment => comment(alloc, opts, foreign, references, text),
        Law::Instruction => instruction(alloc, opts, foreign, references, text),
        Law::Doctype => doctype(alloc, opts, foreign, references, text),
        Law::Cdata => cdata(alloc, opts, foreign, references, text),
        Law::Raw => raw(alloc, opts, foreign, references, text),
        Law::Items => items(alloc, opts, foreign, references, text),
    }
}
