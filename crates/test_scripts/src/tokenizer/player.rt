//! Plays the steps of a script on a tokenizer.
use crate::tokenizer::calls::{
    begin, end, feed, feed_on, feed_parts, finish, is_error, options, set_plain, word_of,
    word_of_result,
};
use crate::tokenizer::wholes::{joined, pieces_of, read, read_item};
use crate::tokenizer::{Call, Cutting, Law, Step, Whole};
use html5cli::settings::Settings;
use html5ever::tokenizer::{Tokenizer, steps};
use html5ever_interface::interface::sink::TokenSink;
use html5ever_interface::interface::token::Token;
use markup5ever::buffer_queue::BufferQueue;
use markup5ever::data::NamedReferences;
use std::alloc::{AllocError, Allocator, Global};
use std::mem;
use testing_lines::{Stop, compare, compare_answer, compare_flag};
use testing_sinks::shown::{Numbered, Shown};

/// Where a script is played.
#[derive(Drop)]
pub struct Stage<'t, A: Allocator> {
    /// The memory of the script itself.
    pub ample: Global,
    /// The memory of the tokenizer, its queue and its sink.
    pub heap: A,
    pub settings: Settings<'t>,
    pub references: &'t NamedReferences<A>,
    pub cutting: Cutting,
}

/// A tokenizer with its queue, and the parts of a whole text.
#[derive(Drop)]
pub struct Player<'t, S, A: Allocator> {
    stage: Stage<'t, A>,
    tokenizer: Tokenizer<'t, S, A>,
    queue: BufferQueue<A>,
    parts: Vec<steps::Step<A>, A>,
    // A second sink, for a call that reads a whole text, or as a fresh one.
    spare: Option<S>,
    // What the sink showed that such a call handed back.
    shown: Option<String>,
}

// What a sink shows.
fn shown_by<S: Shown>(ample: Global, sink: &S) -> Result<String, AllocError> {
    let mut shown = String::new(ample);
    sink.show(ample, &mut shown)?;
    Ok(shown)
}

// Appends a part of a whole text.
fn push_part<A: Allocator>(
    parts: &mut Vec<steps::Step<A>, A>,
    part: steps::Step<A>,
) -> Result<(), Stop> {
    parts.push(part).map_err(|_| Stop::Memory)
}

// Appends a piece for each character of a text.
fn push_characters<A: Allocator + Copy>(
    heap: A,
    parts: &mut Vec<steps::Step<A>, A>,
    text: &str,
) -> Result<(), Stop> {
    for c in text.chars() {
        let mut piece = String::new(heap);
        piece.push(c)?;
        push_part(parts, steps::Step::Push(piece))?;
    }
    Ok(())
}

// Appends two pieces, the first with this many characters of a text.
fn push_two<A: Allocator + Copy>(
    heap: A,
    parts: &mut Vec<steps::Step<A>, A>,
    text: &str,
    count: usize,
) -> Result<(), Stop> {
    let mut first = String::new(heap);
    let mut second = String::new(heap);
    for (place, c) in text.chars().enumerate() {
        if place < count {
            first.push(c)?;
        } else {
            second.push(c)?;
        }
    }
    push_part(parts, steps::Step::Push(first))?;
    push_part(parts, steps::Step::Push(second))
}

impl<'t, S: TokenSink<Token<A>> + Shown, A: Allocator + Copy> Player<'t, S, A>
where
    S::Handle: Numbered,
{
    /// A player at the start of a stream, with the sink, and a second one.
    pub fn new(stage: Stage<'t, A>, sink: S, spare: S) -> Result<Player<'t, S, A>, Stop> {
        let tokenizer = begin(stage.heap, sink, &stage.settings, stage.references)?;
        let queue = BufferQueue::new(stage.heap);
        let parts = Vec::new(stage.heap);
        Ok(Player {
            stage,
            tokenizer,
            queue,
            parts,
            spare: Some(spare),
            shown: None,
        })
    }

    /// Takes a step.
    pub fn take(&mut self, step: &Step) -> Result<(), Stop> {
        match step {
            Step::Push(text) => self.push(text),
            Step::Insert(text) => self.insert(text),
            Step::Piece(text) => self.push_piece(text),
            Step::Front(text) => self.push_front(text),
            Step::Plain => set_plain(&mut self.tokenizer),
            Step::Fresh => self.put_fresh_sink(),
            Step::Call(call, answer) => self.call(*call, answer),
            Step::Left(text) => compare(self.stage.ample, text, self.queue.front_text()),
            Step::Told(lines) => compare(self.stage.ample, lines, &self.lines()?),
            Step::Refused => self.check_refused(),
        }
    }

    /// The lines that the sink shows: the one that a call handed back, or else the tokenizer's.
    pub fn lines(&self) -> Result<String, AllocError> {
        match &self.shown {
            Some(shown) => shown.clone(),
            None => shown_by(self.stage.ample, &self.tokenizer.sink),
        }
    }

    /// Whether a call of the tokenizer was refused.
    pub fn has_failed(&self) -> bool {
        self.tokenizer.has_failed()
    }

    // A text on the heap of the play.
    fn text(&self, text: &str) -> Result<String<A>, AllocError> {
        String::from_str(self.stage.heap, text)
    }

    fn push(&mut self, text: &str) -> Result<(), Stop> {
        let text = self.text(text)?;
        self.queue.push_back(text).map_err(|_| Stop::Memory)
    }

    fn insert(&mut self, text: &str) -> Result<(), Stop> {
        let text = self.text(text)?;
        self.queue.push_front(text).map_err(|_| Stop::Memory)
    }

    fn push_piece(&mut self, text: &str) -> Result<(), Stop> {
        match self.stage.cutting {
            Cutting::Whole => {
                let piece = self.text(text)?;
                push_part(&mut self.parts, steps::Step::Push(piece))
            }
            Cutting::Characters => push_characters(self.stage.heap, &mut self.parts, text),
            Cutting::Two(count) => push_two(self.stage.heap, &mut self.parts, text, count),
        }
    }

    fn push_front(&mut self, text: &str) -> Result<(), Stop> {
        let piece = self.text(text)?;
        push_part(&mut self.parts, steps::Step::Insert(piece))
    }

    // Takes the second sink.
    fn take_spare(&mut self) -> Result<S, Stop> {
        self.spare.take().ok_or(Stop::BadStep)
    }

    // Puts a fresh sink in, when nothing is pending.
    fn put_fresh_sink(&mut self) -> Result<(), Stop> {
        if !self.tokenizer.nothing_pending() {
            return Err(Stop::BadStep);
        }
        self.tokenizer.sink = self.take_spare()?;
        Ok(())
    }

    // Makes a call, and compares its answer.
    fn call(&mut self, call: Call, answer: &str) -> Result<(), Stop> {
        match call {
            Call::Feed => self.feed(answer),
            Call::UntilDone => self.feed_until_done(answer),
            Call::FedPieces => self.feed_pieces(answer),
            Call::End => self.end(answer),
            Call::Finish => self.finish(answer),
            Call::IsPending => self.check_pending(answer),
            Call::Whole(whole) => self.read(whole, answer),
            Call::Law(law) => self.read_item(law, answer),
        }
    }

    fn feed(&mut self, answer: &str) -> Result<(), Stop> {
        let before = String::from_str(self.stage.ample, self.queue.front_text())?;
        let found = feed(self.stage.ample, &mut self.tokenizer, &mut self.queue)?;
        self.check_fed(&before, &found)?;
        compare_answer(self.stage.ample, answer, &found)
    }

    fn feed_until_done(&mut self, answer: &str) -> Result<(), Stop> {
        let before = String::from_str(self.stage.ample, self.queue.front_text())?;
        let found = feed_on(&mut self.tokenizer, &mut self.queue)?;
        self.check_fed(&before, found)?;
        compare_answer(self.stage.ample, answer, found)
    }

    fn feed_pieces(&mut self, answer: &str) -> Result<(), Stop> {
        let parts = self.take_parts();
        let has_pieces = !parts.is_empty();
        let pieces = pieces_of(self.stage.heap, parts)?;
        let found = feed_parts(&mut self.tokenizer, &mut self.queue, pieces)?;
        self.check_fed_pieces(has_pieces, found)?;
        compare_answer(self.stage.ample, answer, found)
    }

    // Looks at what is left where pieces were fed: nothing, if there was a piece and all are taken.
    // If there was no room for a piece the tokenizer has not failed.
    fn check_fed_pieces(&self, has_pieces: bool, found: &str) -> Result<(), Stop> {
        if has_pieces && !is_error(found) {
            compare(self.stage.ample, "", self.queue.front_text())?;
        }
        if found == "memory" && !self.tokenizer.has_failed() {
            return self.check_state(false, false);
        }
        self.check_state(is_error(found), false)
    }

    // Looks at what each feed leaves: a suffix of the text that waited, and nothing where it is done.
    fn check_fed(&self, before: &str, found: &str) -> Result<(), Stop> {
        let ample = self.stage.ample;
        let left = self.queue.front_text();
        compare_flag(
            ample,
            "an end of the queue is left",
            true,
            before.ends_with(left),
        )?;
        if matches!(found, "done" | "ok") {
            compare(ample, "", left)?;
        }
        self.check_state(is_error(found), false)
    }

    fn end(&mut self, answer: &str) -> Result<(), Stop> {
        let found = end(&mut self.tokenizer)?;
        self.check_state(is_error(found), !is_error(found))?;
        compare_answer(self.stage.ample, answer, found)
    }

    // Looks at whether the tokenizer has failed, and whether it has ended.
    fn check_state(&self, has_failed: bool, is_ended: bool) -> Result<(), Stop> {
        let ample = self.stage.ample;
        compare_flag(ample, "failed", has_failed, self.tokenizer.has_failed())?;
        compare_flag(ample, "ended", is_ended, self.tokenizer.is_ended())
    }

    fn finish(&mut self, answer: &str) -> Result<(), Stop> {
        let spare = self.take_spare()?;
        let stage = &self.stage;
        let next = begin(stage.heap, spare, &stage.settings, stage.references)?;
        let tokenizer = mem::replace(&mut self.tokenizer, next);
        let (found, shown) = finish(stage.ample, tokenizer)?;
        self.shown = Some(shown);
        compare_answer(self.stage.ample, answer, found)
    }

    fn check_pending(&self, answer: &str) -> Result<(), Stop> {
        let found = if self.tokenizer.nothing_pending() {
            "no"
        } else {
            "yes"
        };
        compare_answer(self.stage.ample, answer, found)
    }

    // Takes the parts of a whole text.
    fn take_parts(&mut self) -> Vec<steps::Step<A>, A> {
        mem::replace(&mut self.parts, Vec::new(self.stage.heap))
    }

    fn read(&mut self, whole: Whole, answer: &str) -> Result<(), Stop> {
        let sink = self.take_spare()?;
        let parts = self.take_parts();
        let stage = &self.stage;
        let opts = options(stage.heap, &stage.settings)?;
        let (sink, read) = read(stage.heap, sink, opts, stage.references, whole, parts)?;
        self.shown = Some(shown_by(stage.ample, &sink)?);
        compare_answer(self.stage.ample, answer, word_of_result(&read))
    }

    fn read_item(&mut self, law: Law, answer: &str) -> Result<(), Stop> {
        let parts = self.take_parts();
        let stage = &self.stage;
        let text = joined(stage.heap, parts)?;
        let opts = options(stage.heap, &stage.settings)?;
        let foreign = stage.settings.foreign;
        match read_item(stage.heap, opts, foreign, stage.references, law, text) {
            Ok(sink) => {
                self.shown = Some(shown_by(stage.ample, &sink)?);
                compare_answer(self.stage.ample, answer, "ok")
            }
            Err(error) => compare_answer(stage.ample, answer, word_of(error)),
        }
    }

    // The queued text, and the lines that the sink shows.
    fn left(&self) -> Result<(String, String), AllocError> {
        let waiting = String::from_str(self.stage.ample, self.queue.front_text())?;
        Ok((waiting, self.lines()?))
    }

    // Looks at whether each further call is refused.
    fn try_again(&mut self) -> Result<(), Stop> {
        let ample = self.stage.ample;
        self.check_state(true, false)?;
        let fed = feed(ample, &mut self.tokenizer, &mut self.queue)?;
        compare(ample, "failed", &fed)?;
        self.check_state(true, false)?;
        compare(ample, "failed", end(&mut self.tokenizer)?)?;
        self.check_state(true, false)
    }

    /// Looks at whether every further call is refused, and changes nothing.
    pub fn check_refused(&mut self) -> Result<(), Stop> {
        let (waiting, lines) = self.left()?;
        self.try_again()?;
        let (waiting_then, lines_then) = self.left()?;
        compare(self.stage.ample, &waiting, &waiting_then)?;
        compare(self.stage.ample, &lines, &lines_then)
    }
}
