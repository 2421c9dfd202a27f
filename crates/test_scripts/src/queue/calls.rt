//! Calls of a queue, which answer by words.
use markup5ever::buffer_queue::{BufferQueue, Case, SetResult};
use markup5ever::small_char_set::SmallCharSet;
use std::alloc::{AllocError, Allocator, Global};
use testing_lines::{Stop, compare};

/// Where a text is handed in.
#[derive(Clone, Copy, Debug, PartialEq, Eq)]
pub enum Place {
    Back,
    Front,
    BackAgain,
}

// The words of a character, or of none.
fn words_of(ample: Global, c: Option<char>) -> Result<String, AllocError> {
    match c {
        Some(c) => format!(in ample; "{c}"),
        None => String::from_str(ample, "none"),
    }
}

// Takes all that waits, character by character, and compares it with a text.
fn check_rest<A: Allocator>(
    ample: Global,
    queue: &mut BufferQueue<A>,
    text: &str,
) -> Result<(), Stop> {
    compare(ample, text, queue.front_text())?;
    for c in text.chars() {
        compare(
            ample,
            &words_of(ample, Some(c))?,
            &words_of(ample, queue.next())?,
        )?;
    }
    compare(ample, "none", &words_of(ample, queue.next())?)
}

/// Hands a text in. Where that is refused the text comes back, and the queue gives what it held.
pub fn hand_in<A: Allocator>(
    ample: Global,
    queue: &mut BufferQueue<A>,
    place: Place,
    text: String<A>,
) -> Result<String, Stop> {
    let before = String::from_str(ample, queue.front_text())?;
    let given = String::from_str(ample, &text)?;
    let handed_in = match place {
        Place::Back => queue.push_back(text),
        Place::Front => queue.push_front(text),
        Place::BackAgain => queue.give_back(text),
    };
    let Err(back) = handed_in else {
        return Ok(String::from_str(ample, "ok")?);
    };
    compare(ample, &given, &back)?;
    check_rest(ample, queue, &before)?;
    Ok(String::from_str(ample, "memory")?)
}

/// Hands in a copy of a text. Where that is refused the queue gives what it held.
pub fn copy<A: Allocator>(
    ample: Global,
    queue: &mut BufferQueue<A>,
    text: &str,
) -> Result<String, Stop> {
    let before = String::from_str(ample, queue.front_text())?;
    let Err(AllocError) = queue.push_str(text) else {
        return Ok(String::from_str(ample, "ok")?);
    };
    check_rest(ample, queue, &before)?;
    Ok(String::from_str(ample, "memory")?)
}

/// Takes the first character.
pub fn next<A: Allocator>(ample: Global, queue: &mut BufferQueue<A>) -> Result<String, Stop> {
    Ok(words_of(ample, queue.next())?)
}

/// The first character.
pub fn peek<A: Allocator>(ample: Global, queue: &BufferQueue<A>) -> Result<String, Stop> {
    Ok(words_of(ample, queue.peek())?)
}

/// The queued text.
pub fn waiting<A: Allocator>(ample: Global, queue: &BufferQueue<A>) -> Result<String, Stop> {
    let text = queue.front_text();
    if queue.is_empty() != text.is_empty() {
        return Err(Stop::BadStep);
    }
    Ok(String::from_str(ample, text)?)
}

/// Takes a run that ends before `&` and `<`, or one of these.
pub fn pop<A: Allocator + Copy>(ample: Global, queue: &mut BufferQueue<A>) -> Result<String, Stop> {
    let before = String::from_str(ample, queue.front_text())?;
    match queue.pop_except_from(SmallCharSet::of(b"&<")) {
        Ok(Some(SetResult::NotFromSet(run))) => Ok(format!(in ample; "run {run}")?),
        Ok(Some(SetResult::FromSet(c))) => Ok(format!(in ample; "member {c}")?),
        Ok(None) => Ok(String::from_str(ample, "none")?),
        Err(AllocError) => {
            check_rest(ample, queue, &before)?;
            Ok(String::from_str(ample, "memory")?)
        }
    }
}

/// Skips a run that ends before `&` and `<`.
pub fn skip<A: Allocator>(ample: Global, queue: &mut BufferQueue<A>) -> Result<String, Stop> {
    let run = SmallCharSet::of(b"&<").nonmember_prefix_len(queue.front_text());
    queue.skip(run);
    Ok(format!(in ample; "{run}")?)
}

/// Eats a pattern of ASCII characters, at least one.
pub fn eat<A: Allocator>(
    queue: &mut BufferQueue<A>,
    pattern: &str,
    case: Case,
) -> Result<&'static str, Stop> {
    if pattern.is_empty() || !pattern.is_ascii() {
        return Err(Stop::BadStep);
    }
    match queue.eat(pattern, case) {
        Some(true) => Ok("yes"),
        Some(false) => Ok("no"),
        None => Ok("undecided"),
    }
}
