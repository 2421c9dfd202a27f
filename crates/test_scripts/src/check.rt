//! Plays a script in each way that it asks for, and says where it fails.
use crate::script::{Body, Script};
use crate::tokenizer::{Cuts, Cutting, Step, TokenizerScript};
use std::alloc::{AllocError, Allocator, Global};
use testing_alloc::Refusing;
use testing_lines::{CaseError, Play, Played, sweep};

impl Body {
    // Plays it once, on a heap; `enough` is another one, for what must not be refused. The pieces of a
    // tokenizer's script are cut in that way.
    fn play<A: Allocator + Copy>(
        &self,
        ample: Global,
        heap: A,
        enough: A,
        cutting: Cutting,
    ) -> Played {
        match self {
            Body::Tokenizer(script) => script.play(ample, heap, enough, cutting),
            Body::Queue(script) => script.play(ample, heap),
        }
    }
}

impl Play for Script {
    fn play<A: Allocator + Copy>(
        &self,
        ample: Global,
        heap: A,
        enough: A,
    ) -> Result<Played, AllocError> {
        Ok(self.body.play(ample, heap, enough, Cutting::Whole))
    }
}

// How the pieces are cut, in words.
fn cutting_words(alloc: Global, cutting: Cutting) -> Result<String, AllocError> {
    match cutting {
        Cutting::Whole => String::from_str(alloc, "as written"),
        Cutting::Characters => String::from_str(alloc, "in characters"),
        Cutting::Two(count) => format!(in alloc; "cut at {count}"),
    }
}

// Plays a script with memory for all, or for as many requests as it may make. Answers the lines told,
// or what failed.
fn play_cut(
    alloc: Global,
    script: &Script,
    cutting: Cutting,
) -> Result<Result<String, String>, CaseError> {
    let heap = Refusing::new(alloc, script.requests.unwrap_or(u64::MAX));
    let enough = Refusing::new(alloc, u64::MAX);
    let played = script.body.play(alloc, &heap, &enough, cutting);
    if played.stop.is_some() {
        return Ok(Err(played.failure(alloc, cutting_words(alloc, cutting)?.as_str())?));
    }
    if heap.has_refused() {
        return Ok(Err(String::from_str(alloc, "more memory than it may ask for")?));
    }
    Ok(Ok(played.lines))
}

// How many characters the longest piece has.
fn longest_piece(script: &TokenizerScript) -> usize {
    let mut longest = 0;
    for step in &script.steps {
        if let Step::Piece(text) = step {
            longest = longest.max(text.chars().count());
        }
    }
    longest
}

// Plays a script with its pieces cut, in each way that it asks for. Answers what failed first, if
// something did.
fn play_cuts(alloc: Global, script: &Script) -> Result<Option<String>, CaseError> {
    let Body::Tokenizer(with_pieces) = &script.body else {
        return Ok(None);
    };
    if with_pieces.cuts == Cuts::None {
        return Ok(None);
    }
    if let Err(failure) = play_cut(alloc, script, Cutting::Characters)? {
        return Ok(Some(failure));
    }
    if with_pieces.cuts == Cuts::Characters {
        return Ok(None);
    }
    for count in 0..=longest_piece(with_pieces) {
        if let Err(failure) = play_cut(alloc, script, Cutting::Two(count))? {
            return Ok(Some(failure));
        }
    }
    Ok(None)
}

/// Plays a script in each way that it asks for. Answers what failed first, if something did.
pub fn failure_of(alloc: Global, script: &Script) -> Result<Option<String>, CaseError> {
    if let Some(line) = &script.unknown {
        return Ok(Some(format!(in alloc; "no line of a script: {line:?}")?));
    }
    let whole = match play_cut(alloc, script, Cutting::Whole)? {
        Ok(lines) => lines,
        Err(failure) => return Ok(Some(failure)),
    };
    if let Some(failure) = play_cuts(alloc, script)? {
        return Ok(Some(failure));
    }
    match &script.refusals {
        Some(wanted) => sweep(alloc, script, wanted, &whole),
        None => Ok(None),
    }
}
