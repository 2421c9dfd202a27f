//! Lines of JSON.
ghost use Rattle.std.specs.Prelude.{◌≡◌, ◌++◌, [], IfOk, option_map};
ghost use Rattle.html5ever_interface.specs.Token.{told_by};
ghost use Rattle.html5extract.specs.Bases.{resolved};
ghost use Rattle.html5json.specs.Lines.{line_of, link_line, run_line, token_line};
ghost use Rattle.json.specs.Json.{Json};
ghost use Rattle.json.specs.Tree.{json_tokens};

use crate::members::{begin_of_file, end_with_text, write_number};
use crate::tokens::{write_run, write_token};
use html5ever_interface::interface::token::Token;
use html5extract::bases::{Bases, shown};
use html5programs::Front;
use json::Writer;
use std::alloc::{AllocError, Allocator};

// The line of a value that was written, after what stood before.
#[tactic(auto, unfolding(crate::specs::Lines::text_of))]
pub(crate) fn ended<A: Allocator>(writer: Writer<A>) -> Result<Vec<u8, A>, AllocError>
    ensures { IfOk result (λ lines. (json : Json) → writer.tokens ≡ json_tokens json → lines.items ≡ writer.before ++ line_of json) }
{
    let mut lines = writer.into_inner();
    lines.push(b'\n')?;
    Ok(lines)
}

// The line of a run of text, if there is one.
fn run_line<A: Allocator>(alloc: A, file: Option<&str>, run: &str) -> Result<Vec<u8, A>, AllocError>
    ensures { IfOk result (λ lines. lines.items ≡ run_line (option_map (λ name. name.now) file.entry) run.now) }
{
    let lines = Vec::new(alloc);
    if run.is_empty() {
        return Ok(lines);
    }
    let mut writer = Writer::new(lines);
    begin_of_file(&mut writer, file)?;
    write_run(&mut writer, run)?;
    ended(writer)
}

// These lines, and that of a token.
fn with_token<A: Allocator, B: Allocator>(
    lines: Vec<u8, A>,
    file: Option<&str>,
    token: &Token<B>,
    line: u64,
) -> Result<Vec<u8, A>, AllocError>
    ensures { IfOk result (λ more. more.items
        ≡ lines.items ++ token_line (option_map (λ name. name.now) file.entry) (told_by token.now) line) }
{
    let mut writer = Writer::new(lines);
    begin_of_file(&mut writer, file)?;
    write_token(&mut writer, token, line)?;
    ended(writer)
}

/// The lines of a run of text and of the token after it, with the name of their file, if there is one. An
/// empty run has none.
pub fn token_lines<A: Allocator, B: Allocator>(
    alloc: A,
    front: &Front,
    run: &str,
    token: &Token<B>,
    line: u64,
) -> Result<Vec<u8, A>, AllocError>
    ensures { IfOk result (λ lines. lines.items
        ≡ run_line front.now run.now ++ token_line front.now (told_by token.now) line) }
{
    let file = front.name();
    with_token(run_line(alloc, file, run)?, file, token, line)
}

/// The line of a link, where it leads from these bases, with the name of its file, if there is one.
pub fn link_line<A: Allocator>(
    alloc: A,
    line: u64,
    bases: &Bases,
    front: &Front,
    link: &str,
) -> Result<Vec<u8, A>, AllocError>
    ensures { IfOk result (λ lines. lines.items ≡ link_line front.now line (resolved bases.now link.now)) }
{
    let url = bases.url_of(link)?;
    let mut writer = Writer::new(Vec::new(alloc));
    begin_of_file(&mut writer, front.name())?;
    write_number(&mut writer, "line", line)?;
    end_with_text(&mut writer, "link", shown(&url, link))?;
    ended(writer)
}
