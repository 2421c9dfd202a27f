//! Writing tokens with their places.
ghost use Rattle.std.specs.Prelude.{◌≡◌, ◌++◌, OnOk, OnErr};
ghost use Rattle.html5ever_interface.specs.Token.{told_by};
ghost use Rattle.html5placed.specs.PlacedRecords.{places_record, text_record, token_record};
ghost use Rattle.markup5ever.specs.Lists.{BeginsWith};

use html5ever_interface::interface::token::Token;
use html5places::Places;
use html5records::kinds;
use html5records::records::{push_number, push_record};
use std::alloc::{AllocError, Allocator};

// Appends the record of places.
#[tactic(auto, unfolding(crate::specs::PlacedRecords::places_record))]
fn push_places<A: Allocator>(written: &mut Vec<u8, A>, places: Places) -> Result<(), AllocError>
    ensures ok { OnOk result (written.new.items ≡ written.old.items ++ places_record places) }
    ensures err { OnErr result (BeginsWith written.new.items written.old.items) }
{
    written.push(kinds::PLACES)?;
    push_number(written, places.text as u64)?;
    push_number(written, places.begin as u64)?;
    push_number(written, places.end as u64)
}

// Appends the record of a text. An empty one has none.
#[tactic(auto, unfolding(crate::specs::PlacedRecords::text_record, html5records::specs::Records::record_of, html5records::specs::Records::heading_of, html5records::specs::Records::parts))]
fn push_text_record<A: Allocator>(written: &mut Vec<u8, A>, text: &[u8]) -> Result<(), AllocError>
    ensures ok { OnOk result (written.new.items ≡ written.old.items ++ text_record text.now) }
    ensures err { OnErr result (BeginsWith written.new.items written.old.items) }
{
    if text.is_empty() {
        return Ok(());
    }
    written.push(kinds::TEXT)?;
    written.extend_from_slice(text)?;
    written.push(kinds::TEXT_END)?;
    Ok(())
}

// Appends the record of a token.
#[tactic(auto, unfolding(crate::specs::PlacedRecords::token_record))]
fn push_token_record<A: Allocator>(
    written: &mut Vec<u8, A>,
    token: &Token<A>,
    line: u64,
) -> Result<(), AllocError>
    ensures ok { OnOk result
        (written.new.items ≡ written.old.items ++ token_record (told_by token.now) line) }
    ensures err { OnErr result (BeginsWith written.new.items written.old.items) }
{
    match token {
        Token::CharacterTokens(text) => push_text_record(written, text.as_bytes()),
        _ => push_record(written, token, line),
    }
}

/// Appends the records of a token: its places, the run before it, and itself.
pub fn push_placed<A: Allocator>(
    written: &mut Vec<u8, A>,
    run: &str,
    token: &Token<A>,
    line: u64,
    places: Places,
) -> Result<(), AllocError>
    ensures ok { OnOk result (written.new.items ≡ written.old.items
        ++ (places_record places ++ text_record run.now ++ token_record (told_by token.now) line)) }
    ensures err { OnErr result (BeginsWith written.new.items written.old.items) }
{
    push_places(written, places)?;
    push_text_record(written, run.as_bytes())?;
    push_token_record(written, token, line)
}
