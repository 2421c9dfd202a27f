//! Reading characters, and the end, with the places of what they tell.
ghost use Rattle.std.specs.Prelude.{◌≡◌, ◌⊎◌, ◌+◌, ◌≤◌, ◌<◌, ◌^◌, [], ◌∷◌, false, true, length, take, encode_utf8, map, IfOk, IfErr, OnErr, OnOk};
ghost use Rattle.std.specs.Str.{IsCharBoundary, chars};
ghost use Rattle.html5ever_interface.specs.Token.{told_by};
ghost use Rattle.html5places.specs.Marks.{placed_token, waits};
ghost use Rattle.html5places.specs.Placed.{begun_by, handed_on, has_token, is_error};
ghost use Rattle.html5places.specs.Readers.{EndsInToken, HasNoTokenBefore, IsPart, Reads, ReadsEnd, StopsAtEnd, StopsWithin, TellsToken, reading_of};

use crate::error::PlaceError;
use crate::handler::PlacedHandler;
use crate::placing::{PlacedToken, PlacedTokens};
use html5ever::tokenizer::{BufferQueue, Tokenizer, feed_until_done};
use html5ever_interface::interface::token::Token;
use std::alloc::Allocator;

// Whether a token is a parse error.
fn is_error<A: Allocator>(token: &Token<A>) -> bool
    ensures { result ≡ is_error (told_by token.now) }
{
    matches!(token, Token::ParseError(_))
}

// Whether a token other than a parse error is among these.
fn has_token<A: Allocator>(tokens: &[PlacedToken<A>]) -> bool
    ensures { result ≡ has_token (map placed_token tokens.now) }
{
    for placed in tokens {
        if !is_error(&placed.token) {
            return true;
        }
    }
    false
}

// Hands tokens to a handler.
fn hand_on<H: PlacedHandler<Token<A>>, A: Allocator>(
    handler: &mut H,
    tokens: Vec<PlacedToken<A>, A>,
) -> Result<(), PlaceError>
    ensures all { OnOk result (H.state handler.new
        ≡ handed_on H.step (H.state handler.old) (map placed_token tokens.items)) }
    ensures part { OnErr result (IsPart H.step (H.state handler.old) (map placed_token tokens.items) (H.state handler.new)) }
    ensures refused { IfErr result (λ error. error ≡ PlaceError.Handler) }
{
    for placed in tokens {
        let PlacedToken {
            run,
            token,
            line_number,
            places,
        } = placed;
        let Ok(()) = handler.take_token(run.as_str(), token, line_number, places) else {
            return Err(PlaceError::Handler);
        };
    }
    Ok(())
}

// The byte after the last character.
pub(crate) fn place_of<A: Allocator + Copy>(tokenizer: &Tokenizer<'_, PlacedTokens<A>, A>) -> usize
    ensures { result ≡ tokenizer.now.sink.marks.to }
{
    tokenizer.sink.place()
}

// The character that is read next begins after the last one, and ends there.
fn stand_at<A: Allocator + Copy>(tokenizer: &mut Tokenizer<'_, PlacedTokens<A>, A>, to: usize)
    ensures { tokenizer.new ≡ record tokenizer.old {
      sink = record tokenizer.old.sink {
        marks = record tokenizer.old.sink.marks { from = tokenizer.old.sink.marks.to; to = to };
      };
    } }
{
    tokenizer.sink.stand_at(to);
}

// Markup begins at the last character, if it is a `<` that may begin some.
fn begin_markup<A: Allocator + Copy>(tokenizer: &mut Tokenizer<'_, PlacedTokens<A>, A>)
    ensures { tokenizer.new ≡ record tokenizer.old {
      sink = record tokenizer.old.sink {
        marks = begun_by tokenizer.old.position.opened tokenizer.old.sink.marks;
      };
    } }
{
    if tokenizer.is_after_less_than() {
        tokenizer.sink.begin_here();
    }
}

// Whether no token waits in the sink.
fn are_none_waiting<A: Allocator + Copy>(tokenizer: &Tokenizer<'_, PlacedTokens<A>, A>) -> bool
    ensures { result ≡ true → tokenizer.now.sink.handler ≡ [] }
{
    tokenizer.sink.is_empty()
}

// Takes the tokens that wait in the sink.
fn take_tokens<A: Allocator + Copy>(
    tokenizer: &mut Tokenizer<'_, PlacedTokens<A>, A>,
) -> Vec<PlacedToken<A>, A>
    ensures taken { map placed_token result.items ≡ tokenizer.old.sink.handler }
    ensures left { tokenizer.new ≡ record tokenizer.old { sink = record tokenizer.old.sink { handler = [] } } }
{
    tokenizer.sink.take_tokens()
}

// Hands on the tokens that wait in the sink. Whether one other than a parse error is among them.
fn hand_on_waiting<H: PlacedHandler<Token<A>>, A: Allocator + Copy>(
    tokenizer: &mut Tokenizer<'_, PlacedTokens<A>, A>,
    handler: &mut H,
) -> Result<bool, PlaceError>
    ensures all { OnOk result (H.state handler.new
        ≡ handed_on H.step (H.state handler.old) tokenizer.old.sink.handler) }
    ensures token { IfOk result (λ told. told ≡ has_token tokenizer.old.sink.handler) }
    ensures part { OnErr result (IsPart H.step (H.state handler.old) tokenizer.old.sink.handler (H.state handler.new)) }
    ensures refused { IfErr result (λ error. error ≡ PlaceError.Handler) }
    ensures left { tokenizer.new ≡ record tokenizer.old { sink = record tokenizer.old.sink { handler = [] } } }
{
    if are_none_waiting(tokenizer) {
        return Ok(false);
    }
    let tokens = take_tokens(tokenizer);
    let told = has_token(&tokens);
    match hand_on(handler, tokens) {
        Ok(()) => Ok(told),
        Err(error) => Err(error),
    }
}

// Feeds a character, by itself, so that what it tells stands there.
fn feed_character<A: Allocator + Copy>(
    tokenizer: &mut Tokenizer<'_, PlacedTokens<A>, A>,
    queue: &mut BufferQueue<A>,
    c: char,
) -> Result<(), PlaceError>
    requires going_on { tokenizer.old.ended ≡ false }
    requires not_failed { tokenizer.old.failed ≡ false }
    requires nothing_waits { queue.old.text ≡ [] }
    requires room { tokenizer.old.sink.marks.to + length (encode_utf8 c) < 2 ^ 64 }
    ensures reads { OnOk result (Reads waits (reading_of tokenizer.old) (reading_of tokenizer.new)
        tokenizer.old.sink.handler tokenizer.new.sink.handler (c ∷ [])) }
    ensures memory { IfErr result (λ error. error ≡ PlaceError.Memory) }
    ensures going_on { tokenizer.new.ended ≡ false }
    ensures not_failed { OnOk result (tokenizer.new.failed ≡ false) }
    ensures nothing_waits { OnOk result (queue.new.text ≡ []) }
    ensures rules { tokenizer.new.rules ≡ tokenizer.old.rules }
{
    let to = place_of(tokenizer) + c.len_utf8();
    stand_at(tokenizer, to);
    let mut bytes = [0; 4];
    let Ok(()) = queue.push_str(c.encode_utf8(&mut bytes)) else {
        return Err(PlaceError::Memory);
    };
    // The sink that keeps tokens refuses one where it finds no memory.
    let Ok(()) = feed_until_done(tokenizer, queue) else {
        return Err(PlaceError::Memory);
    };
    begin_markup(tokenizer);
    Ok(())
}

// Reads a character, and hands on what it tells. Whether that has a token other than a parse error.
fn read_character<H: PlacedHandler<Token<A>>, A: Allocator + Copy>(
    tokenizer: &mut Tokenizer<'_, PlacedTokens<A>, A>,
    queue: &mut BufferQueue<A>,
    handler: &mut H,
    c: char,
) -> Result<bool, PlaceError>
    requires going_on { tokenizer.old.ended ≡ false }
    requires not_failed { tokenizer.old.failed ≡ false }
    requires nothing_kept { tokenizer.old.sink.handler ≡ [] }
    requires nothing_waits { queue.old.text ≡ [] }
    requires room { tokenizer.old.sink.marks.to + length (encode_utf8 c) < 2 ^ 64 }
    ensures reads { OnOk result (Reads H.step (reading_of tokenizer.old) (reading_of tokenizer.new)
        (H.state handler.old) (H.state handler.new) (c ∷ [])) }
    ensures token { IfOk result (λ told. TellsToken (reading_of tokenizer.old) (c ∷ []) told) }
    ensures stops { OnErr result (StopsWithin H.step (reading_of tokenizer.old)
        (H.state handler.old) (H.state handler.new) (c ∷ [])) }
    ensures errors { IfErr result (λ error. (error ≡ PlaceError.Memory) ⊎ (error ≡ PlaceError.Handler)) }
    ensures going_on { tokenizer.new.ended ≡ false }
    ensures not_failed { OnOk result (tokenizer.new.failed ≡ false) }
    ensures nothing_kept { OnOk result (tokenizer.new.sink.handler ≡ []) }
    ensures nothing_waits { OnOk result (queue.new.text ≡ []) }
    ensures rules { tokenizer.new.rules ≡ tokenizer.old.rules }
{
    // Matches in place of `?`: split for the proof.
    match feed_character(tokenizer, queue, c) {
        Ok(()) => match hand_on_waiting(tokenizer, handler) {
            Ok(told) => Ok(told),
            Err(error) => Err(error),
        },
        Err(error) => Err(error),
    }
}

// Reads a text.
pub(crate) fn read_text<H: PlacedHandler<Token<A>>, A: Allocator + Copy>(
    tokenizer: &mut Tokenizer<'_, PlacedTokens<A>, A>,
    queue: &mut BufferQueue<A>,
    handler: &mut H,
    text: &str,
) -> Result<(), PlaceError>
    requires going_on { tokenizer.old.ended ≡ false }
    requires not_failed { tokenizer.old.failed ≡ false }
    requires nothing_kept { tokenizer.old.sink.handler ≡ [] }
    requires nothing_waits { queue.old.text ≡ [] }
    requires room { tokenizer.old.sink.marks.to + length text.now < 2 ^ 64 }
    ensures reads { OnOk result (Reads H.step (reading_of tokenizer.old) (reading_of tokenizer.new)
        (H.state handler.old) (H.state handler.new) (chars text.now)) }
    ensures stops { OnErr result (StopsWithin H.step (reading_of tokenizer.old)
        (H.state handler.old) (H.state handler.new) (chars text.now)) }
    ensures errors { IfErr result (λ error. (error ≡ PlaceError.Memory) ⊎ (error ≡ PlaceError.Handler)) }
    ensures going_on { tokenizer.new.ended ≡ false }
    ensures not_failed { OnOk result (tokenizer.new.failed ≡ false) }
    ensures nothing_kept { OnOk result (tokenizer.new.sink.handler ≡ []) }
    ensures nothing_waits { OnOk result (queue.new.text ≡ []) }
    ensures rules { tokenizer.new.rules ≡ tokenizer.old.rules }
{
    for c in text.chars() {
        // A match in place of `?`: split for the proof.
        match read_character(tokenizer, queue, handler, c) {
            Ok(_) => {}
            Err(error) => return Err(error),
        }
    }
    Ok(())
}

// Reads up to the first character that tells a token other than a parse error, with that. How many bytes these are.
pub(crate) fn read_to_token<H: PlacedHandler<Token<A>>, A: Allocator + Copy>(
    tokenizer: &mut Tokenizer<'_, PlacedTokens<A>, A>,
    queue: &mut BufferQueue<A>,
    handler: &mut H,
    text: &str,
) -> Result<usize, PlaceError>
    requires going_on { tokenizer.old.ended ≡ false }
    requires not_failed { tokenizer.old.failed ≡ false }
    requires nothing_kept { tokenizer.old.sink.handler ≡ [] }
    requires nothing_waits { queue.old.text ≡ [] }
    requires room { tokenizer.old.sink.marks.to + length text.now < 2 ^ 64 }
    ensures reads { IfOk result (λ count. Reads H.step (reading_of tokenizer.old) (reading_of tokenizer.new)
        (H.state handler.old) (H.state handler.new) (chars (take count text.now))) }
    ensures within { IfOk result (λ count. count ≤ length text.now) }
    ensures boundary { IfOk result (λ count. IsCharBoundary text.now count) }
    ensures no_token_before { IfOk result (λ count.
        HasNoTokenBefore (reading_of tokenizer.old) (chars (take count text.now))) }
    ensures token_last { IfOk result (λ count. count < length text.now
        → EndsInToken (reading_of tokenizer.old) (chars (take count text.now))) }
    ensures stops { OnErr result (StopsWithin H.step (reading_of tokenizer.old)
        (H.state handler.old) (H.state handler.new) (chars text.now)) }
    ensures errors { IfErr result (λ error. (error ≡ PlaceError.Memory) ⊎ (error ≡ PlaceError.Handler)) }
    ensures going_on { tokenizer.new.ended ≡ false }
    ensures not_failed { OnOk result (tokenizer.new.failed ≡ false) }
    ensures nothing_kept { OnOk result (tokenizer.new.sink.handler ≡ []) }
    ensures nothing_waits { OnOk result (queue.new.text ≡ []) }
    ensures rules { tokenizer.new.rules ≡ tokenizer.old.rules }
{
    let mut count = 0;
    for c in text.chars() {
        count += c.len_utf8();
        match read_character(tokenizer, queue, handler, c) {
            Ok(false) => {}
            Ok(true) => return Ok(count),
            Err(error) => return Err(error),
        }
    }
    Ok(count)
}

// Sends the end, which stands after the last character.
fn send_end<A: Allocator + Copy>(
    tokenizer: &mut Tokenizer<'_, PlacedTokens<A>, A>,
) -> Result<(), PlaceError>
    requires going_on { tokenizer.old.ended ≡ false }
    requires not_failed { tokenizer.old.failed ≡ false }
    ensures reads { OnOk result (ReadsEnd waits (reading_of tokenizer.old)
        tokenizer.old.sink.handler tokenizer.new.sink.handler) }
    ensures memory { IfErr result (λ error. error ≡ PlaceError.Memory) }
{
    let end = place_of(tokenizer);
    stand_at(tokenizer, end);
    // The sink that keeps tokens refuses one where it finds no memory.
    match tokenizer.end() {
        Ok(()) => Ok(()),
        Err(_) => Err(PlaceError::Memory),
    }
}

// Reads the end, and hands on what it tells.
pub(crate) fn read_end<H: PlacedHandler<Token<A>>, A: Allocator + Copy>(
    tokenizer: &mut Tokenizer<'_, PlacedTokens<A>, A>,
    handler: &mut H,
) -> Result<(), PlaceError>
    requires going_on { tokenizer.old.ended ≡ false }
    requires not_failed { tokenizer.old.failed ≡ false }
    requires nothing_kept { tokenizer.old.sink.handler ≡ [] }
    ensures reads { OnOk result (ReadsEnd H.step (reading_of tokenizer.old) (H.state handler.old) (H.state handler.new)) }
    ensures stops { OnErr result (StopsAtEnd H.step (reading_of tokenizer.old) (H.state handler.old) (H.state handler.new)) }
    ensures errors { IfErr result (λ error. (error ≡ PlaceError.Memory) ⊎ (error ≡ PlaceError.Handler)) }
{
    // Matches in place of `?`: split for the proof.
    match send_end(tokenizer) {
        Ok(()) => match hand_on_waiting(tokenizer, handler) {
            Ok(_) => Ok(()),
            Err(error) => Err(error),
        },
        Err(error) => Err(error),
    }
}
