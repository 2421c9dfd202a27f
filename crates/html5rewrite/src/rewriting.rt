//! A handler that rewrites a page as it arrives.
ghost use Rattle.std.specs.Prelude.{◌≡◌, ◌≢◌, Bool, ◌++◌, OnErr, OnOk};
ghost use Rattle.html5ever_interface.specs.Token.{TagOf, tag_of, told_by};
ghost use Rattle.html5ever_interface.specs.Token.Told.{Tag as ToldTag};
ghost use Rattle.html5elements.specs.Hidden.{hidden_after, hidden_from, hidden_of, nothing_hidden};
ghost use Rattle.html5rewrite.specs.Plain.{written_of_run, written_of_tag};
ghost use Rattle.html5rewrite.specs.Rewriter.{opens};
ghost use Rattle.html5rewrite.specs.Rewriting.{written};
ghost use Rattle.html5rewrite.specs.Writing.{page_bytes};

use crate::output::Output;
use crate::rewriter::{Keep, TagRewriter, keep_of};
use crate::written::{write_run, write_tag};
use html5elements::hidden::{Hidden, has_content};
use html5ever_interface::interface::token::{SinkFault, Tag, Token};
use html5sinks::text_runs::TokenHandler;
use html5write::Writer;
use std::alloc::{Allocator, Global};
use std::marker::Model;

/// Writes the runs of text that it takes, and of each tag what its rewriter says.
#[derive(Drop)]
pub struct Rewriting<H, O, A: Allocator = Global> {
    alloc: A,
    rewriter: H,
    output: O,
    hidden: Hidden<A>,
}

impl<H, O, A: Allocator> Model for Rewriting<H, O, A> {
    ghost use Rattle.html5elements.specs.Hidden.{hidden_of};
    ghost use Rattle.html5rewrite.specs.Writing.{Handler};

    ghost Value = { Handler H O };

    ghost view = { λ r. record { rewriter = r.rewriter; output = r.output; hidden = hidden_of r.hidden } };
}

// Writes a page after the others.
fn put_page<O: Output, A: Allocator + Copy>(
    output: &mut O,
    page: &Writer<A>,
) -> Result<(), SinkFault>
    ensures ok { OnOk result (O.bytes output.new ≡ O.bytes output.old ++ page_bytes page.now) }
    ensures err { OnErr result (O.bytes output.new ≡ O.bytes output.old) }
{
    output.put(page.as_str())
}

// Writes a run of text.
fn put_run<O: Output, A: Allocator + Copy>(
    alloc: A,
    output: &mut O,
    run: &str,
) -> Result<(), SinkFault>
    ensures ok { OnOk result (O.bytes output.new ≡ O.bytes output.old ++ page_bytes (written_of_run run.now)) }
    ensures err { OnErr result (O.bytes output.new ≡ O.bytes output.old) }
{
    let mut page = Writer::new(alloc);
    match write_run(&mut page, run) {
        Ok(()) => put_page(output, &page),
        Err(_) => Err(SinkFault),
    }
}

// Writes a run of text and the tag after it.
fn put_tag<O: Output, A: Allocator + Copy>(
    alloc: A,
    output: &mut O,
    run: &str,
    tag: &Tag<A>,
) -> Result<(), SinkFault>
    ensures ok { OnOk result (O.bytes output.new
        ≡ O.bytes output.old ++ page_bytes (written_of_run run.now ++ written_of_tag (tag_of tag.now))) }
    ensures err { OnErr result (O.bytes output.new ≡ O.bytes output.old) }
{
    let mut page = Writer::new(alloc);
    let Ok(()) = write_run(&mut page, run) else {
        return Err(SinkFault);
    };
    match write_tag(alloc, &mut page, tag) {
        Ok(()) => put_page(output, &page),
        Err(_) => Err(SinkFault),
    }
}

// Takes a run of text and the tag after it, when nothing is hidden.
fn take_tag<H: TagRewriter<Tag<A>>, O: Output, A: Allocator + Copy>(
    alloc: A,
    rewriter: &H,
    output: &mut O,
    hidden: &mut Hidden<A>,
    run: &str,
    mut tag: Tag<A>,
) -> Result<(), SinkFault>
    ensures written { OnOk result (O.bytes output.new
        ≡ O.bytes output.old ++ page_bytes (written (H.means rewriter.now) run.now (ToldTag (tag_of tag)))) }
    ensures hidden { OnOk result
        (hidden_of hidden.new ≡ hidden_from (opens (H.means rewriter.now) (tag_of tag)) (hidden_of hidden.old) (tag_of tag)) }
    ensures unwritten { OnErr result (O.bytes output.new ≡ O.bytes output.old) }
    ensures unchanged { OnErr result (hidden_of hidden.new ≡ hidden_of hidden.old) }
{
    match keep_of(rewriter, &tag) {
        Keep::Tag => {
            let Ok(()) = rewriter.rewrite(&mut tag) else {
                return Err(SinkFault);
            };
            put_tag(alloc, output, run, &tag)
        }
        Keep::ContentOnly => put_run(alloc, output, run),
        Keep::Nothing => {
            put_run(alloc, output, run)?;
            if has_content(&tag) {
                *hidden = Hidden::within(tag.name.0);
            }
            Ok(())
        }
    }
}

// Takes a run of text and the token after it, when nothing is hidden.
fn take_shown<H: TagRewriter<Tag<A>>, O: Output, A: Allocator + Copy>(
    alloc: A,
    rewriter: &H,
    output: &mut O,
    hidden: &mut Hidden<A>,
    run: &str,
    token: Token<A>,
) -> Result<(), SinkFault>
    requires { hidden.old.depth ≡ 0 }
    ensures written { OnOk result (O.bytes output.new
        ≡ O.bytes output.old ++ page_bytes (written (H.means rewriter.now) run.now (told_by token))) }
    ensures hidden { OnOk result (hidden_of hidden.new
        ≡ hidden_after (opens (H.means rewriter.now)) (hidden_of hidden.old) (told_by token)) }
    ensures unwritten { OnErr result (O.bytes output.new ≡ O.bytes output.old) }
    ensures unchanged { OnErr result (hidden_of hidden.new ≡ hidden_of hidden.old) }
{
    match token {
        Token::TagToken(tag) => take_tag(alloc, rewriter, output, hidden, run, tag),
        _ => put_run(alloc, output, run),
    }
}

// Passes a token that is hidden, whatever opens what is hidden elsewhere.
fn pass_hidden<A: Allocator>(hidden: &mut Hidden<A>, token: &Token<A>) -> Result<(), SinkFault>
    requires { hidden.old.depth ≢ 0 }
    ensures ok { (opens : TagOf → Bool)
        → OnOk result (hidden_of hidden.new ≡ hidden_after opens (hidden_of hidden.old) (told_by token.now)) }
    ensures err { OnErr result (hidden_of hidden.new ≡ hidden_of hidden.old) }
{
    if hidden.is_full() {
        return Err(SinkFault);
    }
    if let Token::TagToken(tag) = token {
        hidden.pass_within(tag);
    }
    Ok(())
}

impl<H: Drop, O, A: Allocator + Copy> Rewriting<H, O, A> {
    /// Writes to this output, at the start of a page.
    pub fn new(alloc: A, rewriter: H, output: O) -> Rewriting<H, O, A>
        ensures rewriter { result.rewriter ≡ rewriter }
        ensures output { result.output ≡ output }
        ensures hidden { result.hidden ≡ nothing_hidden }
    {
        Rewriting {
            alloc,
            rewriter,
            output,
            hidden: Hidden::none(alloc),
        }
    }

    /// The output, with all that was written.
    pub fn into_output(self) -> O
        ensures { result ≡ self.output }
    {
        self.output
    }
}

impl<H: TagRewriter<Tag<A>>, O: Output, A: Allocator + Copy> TokenHandler<Token<A>>
    for Rewriting<H, O, A> {
    ghost use Rattle.html5rewrite.specs.Writing.{Written, writing_of, writing_step};

    ghost State = { Written };

    ghost state = { writing_of H.means O.bytes };

    ghost step = { writing_step };

    fn take_token(
        &mut self,
        run: &str,
        token: Token<A>,
        _line_number: u64,
    ) -> Result<(), SinkFault> {
        if self.hidden.depth != 0 {
            return pass_hidden(&mut self.hidden, &token);
        }
        take_shown(
            self.alloc,
            &self.rewriter,
            &mut self.output,
            &mut self.hidden,
            run,
            token,
        )
    }
}
