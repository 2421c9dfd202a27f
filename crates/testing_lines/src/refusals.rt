//! Plays a script with each request for memory refused in turn.
use crate::stop::Stop;
use crate::{CaseError, number_of};
use std::alloc::{AllocError, Allocator, Global};
use testing_alloc::Refusing;

/// What a play came to: the step at which it stopped, if it did, and the lines that were sent.
#[derive(Drop)]
pub struct Played {
    pub stop: Option<(usize, Stop)>,
    pub lines: String,
}

impl Played {
    /// What a play says that failed: the step, counted from 1, and why.
    pub fn failure(&self, alloc: Global, way: &str) -> Result<String, AllocError> {
        match &self.stop {
            None => format!(in alloc; "{way}: no error, told {:?}", self.lines),
            Some((place, stop)) => {
                let number = place.saturating_add(1);
                let words = stop.words(alloc)?;
                format!(in alloc; "{way}: step {number}: {words}, told {:?}", self.lines)
            }
        }
    }
}

/// What can be played on a heap; `enough` is another one, for what must not be refused.
pub trait Play {
    fn play<A: Allocator + Copy>(
        &self,
        ample: Global,
        heap: A,
        enough: A,
    ) -> Result<Played, AllocError>;
}

/// How many requests for memory were refused, each in a play of its own.
#[derive(Clone, Copy, Debug, PartialEq, Eq)]
pub struct Refusals {
    pub all: u64,
    pub in_tokenizer: u64,
    pub in_sink: u64,
}

impl Refusals {
    // Reads three numbers: in all, in the tokenizer, and in its sink.
    fn read(words: &str) -> Result<Refusals, CaseError> {
        let mut numbers = words.split(' ');
        Ok(Refusals {
            all: number_of(numbers.next().unwrap_or(""))?,
            in_tokenizer: number_of(numbers.next().unwrap_or(""))?,
            in_sink: number_of(numbers.next().unwrap_or(""))?,
        })
    }

    // Whether none of the numbers is less than the other's.
    fn reaches(&self, least: &Refusals) -> bool {
        self.all >= least.all
            && self.in_tokenizer >= least.in_tokenizer
            && self.in_sink >= least.in_sink
    }
}

/// How many requests for memory must be refused.
#[derive(Clone, Copy, Debug, PartialEq, Eq)]
pub enum Wanted {
    AtLeast(Refusals),
    Exactly(Refusals),
}

impl Wanted {
    /// Reads three numbers: in all, in the tokenizer, and in its sink; before them there may be `exactly`.
    pub fn read(words: &str) -> Result<Wanted, CaseError> {
        match words.strip_prefix("exactly ") {
            Some(numbers) => Ok(Wanted::Exactly(Refusals::read(numbers)?)),
            None => Ok(Wanted::AtLeast(Refusals::read(words)?)),
        }
    }

    // Whether this many may be found.
    fn allows(&self, found: &Refusals) -> bool {
        match self {
            Wanted::AtLeast(least) => found.reaches(least),
            Wanted::Exactly(number) => found == number,
        }
    }
}

// Whether the lines, the last of which is a text without its quote and LF, are a prefix of others.
fn is_cut_text(lines: &str, others: &str) -> bool {
    let last = match lines.rsplit_once('\n') {
        Some((_, last)) => last,
        None => lines,
    };
    last.starts_with("text \"") && others.starts_with(lines)
}

// Whether the lines are the first ones of others: each is ended by LF. Of a text in the last of them
// the end may be missing, since a text grows while it is sent.
fn is_beginning(lines: &str, others: &str) -> bool {
    if others.starts_with(lines) {
        return true;
    }
    match lines.strip_suffix("\"\n") {
        Some(cut) => is_cut_text(cut, others),
        None => false,
    }
}

// The word of the error that a refusal came to, if it came to one.
fn error_of(played: &Played) -> Option<&str> {
    match &played.stop {
        Some((_, Stop::Memory)) => Some("memory of the script"),
        Some((_, Stop::Answers { expected: _, found })) => match found.as_str() {
            "memory" | "sink" => Some(found.as_str()),
            _ => None,
        },
        _ => None,
    }
}

// Counts a refusal by the word of its error. One of the script's own memory is not the tokenizer's.
fn count(refusals: &mut Refusals, error: &str) {
    match error {
        "memory" => refusals.in_tokenizer = refusals.in_tokenizer.wrapping_add(1),
        "sink" => refusals.in_sink = refusals.in_sink.wrapping_add(1),
        _ => return,
    }
    refusals.all = refusals.all.wrapping_add(1);
}

// What is wrong where a sweep ended with a play that had no refusal.
fn last_failure(
    alloc: Global,
    last: &Played,
    found: &Refusals,
    wanted: &Wanted,
) -> Result<Option<String>, AllocError> {
    if last.stop.is_some() {
        return Ok(Some(last.failure(alloc, "after all refusals")?));
    }
    if !wanted.allows(found) {
        return Ok(Some(format!(in alloc; "expected {wanted:?}, found {found:?}")?));
    }
    Ok(None)
}

/// Refuses each request of a play in turn, until one has no refusal. `whole` are the lines of the play
/// that has memory for all. Answers what is wrong, if something is.
pub fn sweep<P: Play>(
    alloc: Global,
    played: &P,
    wanted: &Wanted,
    whole: &str,
) -> Result<Option<String>, CaseError> {
    let mut found = Refusals {
        all: 0,
        in_tokenizer: 0,
        in_sink: 0,
    };
    for admitted in 0..u64::MAX {
        let heap = Refusing::new(alloc, admitted);
        let enough = Refusing::new(alloc, u64::MAX);
        let play = played.play(alloc, &heap, &enough)?;
        if !heap.has_refused() {
            return Ok(last_failure(alloc, &play, &found, wanted)?);
        }
        match error_of(&play) {
            Some(error) if is_beginning(&play.lines, whole) => count(&mut found, error),
            _ => {
                let way = format!(in alloc; "request {admitted} refused")?;
                return Ok(Some(play.failure(alloc, &way)?));
            }
        }
    }
    Err(CaseError::BadLine)
}
