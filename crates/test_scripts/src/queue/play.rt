//! Plays a script of a queue and of a table once, on a heap.
use crate::queue::calls::{Place, copy, eat, hand_in, next, peek, pop, skip, waiting};
use crate::queue::table::{begins, check, control, get};
use crate::queue::{Call, Entry, QueueScript, Step};
use markup5ever::buffer_queue::{BufferQueue, Case};
use markup5ever::data::NamedReferences;
use std::alloc::{Allocator, Global};
use testing_lines::{Played, Stop, compare_answer};

// A queue and a table, on a heap, and the entries for the next table.
#[derive(Drop)]
struct Player<'s, A: Allocator> {
    ample: Global,
    heap: A,
    queue: BufferQueue<A>,
    entries: Vec<&'s Entry>,
    table: Option<NamedReferences<A>>,
}

impl<'s, A: Allocator + Copy> Player<'s, A> {
    fn new(ample: Global, heap: A) -> Player<'s, A> {
        Player {
            ample,
            heap,
            queue: BufferQueue::new(heap),
            entries: Vec::new(ample),
            table: None,
        }
    }

    // Takes a step.
    fn take(&mut self, step: &'s Step) -> Result<(), Stop> {
        match step {
            Step::Entry(entry) => self.entries.push(entry).map_err(|_| Stop::Memory),
            Step::Call(call, answer) => {
                let found = self.answer(call)?;
                compare_answer(self.ample, answer, &found)
            }
        }
    }

    // Makes a call.
    fn answer(&mut self, call: &Call) -> Result<String, Stop> {
        match call {
            Call::Push(text) => self.hand_in(Place::Back, text),
            Call::Copy(text) => copy(self.ample, &mut self.queue, text),
            Call::Insert(text) => self.hand_in(Place::Front, text),
            Call::GiveBack(text) => self.hand_in(Place::BackAgain, text),
            Call::Eat(pattern, case) => self.eat(pattern, *case),
            Call::Next => next(self.ample, &mut self.queue),
            Call::Peek => peek(self.ample, &self.queue),
            Call::Waits => waiting(self.ample, &self.queue),
            Call::Pop => pop(self.ample, &mut self.queue),
            Call::Skip => skip(self.ample, &mut self.queue),
            _ => self.answer_of_table(call),
        }
    }

    // Makes a call of a table.
    fn answer_of_table(&mut self, call: &Call) -> Result<String, Stop> {
        match call {
            Call::Check => self.check(),
            Call::Get(name) => get(self.ample, &self.table, name),
            Call::IsPrefix(text) => Ok(String::from_str(self.ample, begins(&self.table, text)?)?),
            Call::Control(number) => control(self.ample, *number),
            _ => Err(Stop::BadStep),
        }
    }

    fn hand_in(&mut self, place: Place, text: &str) -> Result<String, Stop> {
        let text = String::from_str(self.heap, text)?;
        hand_in(self.ample, &mut self.queue, place, text)
    }

    fn eat(&mut self, pattern: &str, case: Case) -> Result<String, Stop> {
        let word = eat(&mut self.queue, pattern, case)?;
        Ok(String::from_str(self.ample, word)?)
    }

    fn check(&mut self) -> Result<String, Stop> {
        let (word, table) = check(self.ample, self.heap, &self.entries)?;
        self.table = table;
        Ok(word)
    }
}

// Takes the steps, up to one that stops the play.
fn take_steps<A: Allocator + Copy>(
    ample: Global,
    heap: A,
    steps: &[Step],
) -> Option<(usize, Stop)> {
    let mut player = Player::new(ample, heap);
    for (place, step) in steps.iter().enumerate() {
        if let Err(stop) = player.take(step) {
            return Some((place, stop));
        }
    }
    None
}

impl QueueScript {
    /// Plays the script on a heap.
    pub fn play<A: Allocator + Copy>(&self, ample: Global, heap: A) -> Played {
        Played {
            stop: take_steps(ample, heap, &self.steps),
            lines: String::new(ample),
        }
    }
}
