//! One character where a reference or a keyword is not decided.
#![tactic(auto, unfolding(html5partial::specs::CharRef::with_reference))]

ghost use Rattle.std.specs.Prelude.{◌≡◌, ◌≤◌, ◌&&◌, ◌∷◌, [], ◌++◌, List, Ok, IfErr, IfOk, true, if◌then◌else◌};
ghost use Rattle.html5reading.specs.EndOfInput.{late_at_end_of, open_at_end_of};
ghost use Rattle.html5reading.specs.Characters.{number_sign};
ghost use Rattle.html5reading.specs.Reference.{is_undecided};
ghost use Rattle.html5reading.specs.Slice.{tokens_of_late};
ghost use Rattle.html5reading.specs.Start.{is_undecided_open};
ghost use Rattle.html5partial.specs.Undecided.{asks, is_reference, is_keyword_open};
ghost use Rattle.html5partial.specs.CurrentTag.{opened_of, last_name_of};
ghost use Rattle.html5feed.specs.Undecided.{IsEndedName, ReadsUndecided, rules_with};
ghost use Rattle.html5states.specs.Telling.{Emits, IsKept};
ghost use Rattle.markup5ever.specs.NamedReferences.{NamedReference};

use crate::position::Position;
use crate::rules::Rules;
use html5ever_interface::interface::sink::TokenSink;
use html5ever_interface::interface::token::Token;
use html5ever_interface::states::State;
use html5partial::char_ref::CharRef;
use html5partial::declaration::depends_on_sink;
use html5partial::error::TokenizerError;
use html5partial::keyword::hold_keyword;
use html5partial::opened::Opened;
use html5states::teller::Teller;
use markup5ever::data::NamedReferences;
use std::alloc::{AllocError, Allocator};

// Whether the sink says that the content is foreign. It asks the sink only if the character may belong to the keyword
// of a CDATA section.
fn asked_about_foreign<S: TokenSink<Token<A>>, A: Allocator>(
    sink: &S,
    opened: &Opened<A>,
    c: char,
) -> bool
    requires { is_keyword_open (opened_of opened.now) ≡ true }
    ensures { result ≡ (asks (opened_of opened.now) c && S.means.foreign (S.means.state sink.now)) }
{
    match opened.state {
        State::MarkupDeclarationOpen => {
            depends_on_sink(opened, c)
                && sink.adjusted_current_node_present_but_not_in_html_namespace()
        }
        _ => false,
    }
}

/// Sends the error of a keyword that doesn't come, where characters are held that may begin one. It
/// has nothing to do with names of the table, so it holds with every table.
pub fn decide_keyword<S: TokenSink<Token<A>>, A: Allocator + Copy>(
    teller: &mut Teller<'_, S, A>,
    opened: &mut Opened<A>,
) -> Result<(), TokenizerError>
    requires { is_keyword_open (opened_of opened.old) ≡ true }
    ensures emits { (references : List NamedReference) → Emits S.means S.faults result teller.old teller.new
        (tokens_of_late (late_at_end_of (rules_with teller.old references) (opened_of opened.old))) }
    ensures opened { (references : List NamedReference) →
        opened_of opened.new ≡ open_at_end_of (rules_with teller.old references) (opened_of opened.old) }
    ensures last { last_name_of opened.new ≡ last_name_of opened.old }
{
    match opened.state {
        State::MarkupDeclarationOpen => teller.finish_declaration(opened),
        _ => teller.finish_doctype_keyword(opened),
    }
}

// Whether a name is held with its semicolon.
fn is_ended_name<A: Allocator>(held: &CharRef<A>) -> bool
    ensures { result ≡ true → IsEndedName held.now }
{
    match held.number() {
        Some(_) => false,
        None => held.text().ends_with(';'),
    }
}

// Holds a character of a reference, too, where that leaves it undecided. No name goes on after its semicolon, so none
// is searched for then.
fn hold<A: Allocator>(
    held: &mut CharRef<A>,
    references: &NamedReferences<A>,
    c: char,
) -> Result<bool, AllocError>
    ensures undecided { IfOk result (λ undecided. undecided ≡ is_undecided references.now (held.old ++ c ∷ [])) }
    ensures held { IfOk result (λ undecided. held.new ≡ (if undecided then held.old ++ c ∷ [] else held.old)) }
    ensures plain { result ≡ Ok true → (number_sign ≤ c) × (c ≤ 0x7A) }
    ensures kept { IfErr result (λ e. held.new ≡ held.old) }
{
    if is_ended_name(held) {
        references.table_laws();
        return Ok(false);
    }
    held.hold(references, c)
}

// Reads a character after the held text of a reference, and answers whether it belongs to the
// reference. Else the reference is decided, and the character is still to be read.
fn read_reference<S: TokenSink<Token<A>>, A: Allocator + Copy>(
    teller: &mut Teller<'_, S, A>,
    references: &NamedReferences<A>,
    position: &mut Position<A>,
    c: char,
) -> Result<bool, TokenizerError>
    requires { is_reference position.old.opened ≡ true }
    ensures reads { ReadsUndecided S.means S.faults (rules_with teller.old references.now) teller.old.line c result
        teller.old.sink.now teller.new.sink.now position.old position.new }
    ensures kept { IsKept teller.old teller.new }
{
    if hold(&mut position.held, references, c)? {
        return Ok(true);
    }
    let opened = &mut position.opened;
    let ends = teller.finish_reference(references, opened, &position.held, Some(c))?;
    position.in_reference = false;
    Ok(ends)
}

// The same for what may begin a keyword. It asks the sink if that may be the keyword of a CDATA
// section.
fn read_keyword<S: TokenSink<Token<A>>, A: Allocator + Copy>(
    teller: &mut Teller<'_, S, A>,
    position: &mut Position<A>,
    c: char,
) -> Result<bool, TokenizerError>
    requires { is_keyword_open position.old.opened ≡ true }
    ensures reads { (references : List NamedReference) →
        ReadsUndecided S.means S.faults (rules_with teller.old references) teller.old.line c result
        teller.old.sink.now teller.new.sink.now position.old position.new }
    ensures kept { IsKept teller.old teller.new }
{
    let foreign = asked_about_foreign(teller.sink, &position.opened, c);
    if hold_keyword(&mut position.opened, c, foreign)? {
        return Ok(true);
    }
    decide_keyword(teller, &mut position.opened)?;
    Ok(false)
}

// The same where either is not decided. It stands apart, so that what each character goes through stays small.
#[inline(never)]
fn read_held<S: TokenSink<Token<A>>, A: Allocator + Copy>(
    alloc: A,
    sink: &mut S,
    rules: &Rules<'_, A>,
    position: &mut Position<A>,
    line: u64,
    c: char,
) -> Result<bool, TokenizerError>
    requires { is_undecided_open position.old.opened ≡ true }
    ensures { ReadsUndecided S.means S.faults rules.now line c result sink.old sink.new position.old position.new }
{
    let mut teller = Teller {
        sink,
        alloc,
        exact_errors: rules.exact_errors,
        line,
    };
    if position.in_reference {
        return read_reference(&mut teller, rules.references, position, c);
    }
    read_keyword(&mut teller, position, c)
}

/// Reads a character where a reference or a keyword may not be decided, and answers whether it belongs to
/// that. Else the character is still to be read, and decides what was not decided. `line` is the line
/// before it.
#[inline(always)]
pub fn read_undecided<S: TokenSink<Token<A>>, A: Allocator + Copy>(
    alloc: A,
    sink: &mut S,
    rules: &Rules<'_, A>,
    position: &mut Position<A>,
    line: u64,
    c: char,
) -> Result<bool, TokenizerError>
    ensures { ReadsUndecided S.means S.faults rules.now line c result sink.old sink.new position.old position.new }
{
    if !position.is_undecided() {
        return Ok(false);
    }
    read_held(alloc, sink, rules, position, line, c)
}
