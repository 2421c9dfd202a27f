//! A handler that splices a page as it arrives.
ghost use Rattle.std.specs.Prelude.{◌≡◌, ◌++◌, [], true, IfOk, OnErr, OnOk, string_bytes};
ghost use Rattle.html5ever_interface.specs.Token.{told_by};
ghost use Rattle.html5splice.specs.Edits.{edit_by, edited, edits_by, no_edits};
ghost use Rattle.html5splice.specs.Splicing.{front_cut, placed_as, spliced_cut, splicing_of, window_after};

use crate::cut::Cut;
use crate::edit::{Edit, Edits};
use crate::splicer::Splicer;
use crate::window::{Front, Window};
use html5ever_interface::interface::token::{SinkFault, Token};
use html5places::{PlacedHandler, Places};
use html5rewrite::Output;
use std::alloc::{AllocError, Allocator, Global};
use std::marker::Model;

/// Writes a page with what its splicer replaces.
#[derive(Drop)]
pub struct Splicing<H, O, A: Allocator = Global> {
    alloc: A,
    splicer: H,
    output: O,
    window: Window<A>,
}

impl<H, O, A: Allocator> Model for Splicing<H, O, A> {
    ghost use Rattle.html5splice.specs.Splicing.{Handler};

    ghost Value = { Handler H O };

    ghost view = { λ s. record { splicer = s.splicer; output = s.output; window = s.window } };
}

// Appends what is written where this stood.
fn push_edited<A: Allocator>(
    out: &mut String<A>,
    edit: &Edit<A>,
    written: &str,
) -> Result<(), AllocError>
    ensures { OnOk result (string_bytes out.new ≡ string_bytes out.old ++ edited (edit_by edit.now) written.now) }
{
    match edit {
        Edit::Keep => out.push_str(written),
        Edit::Replace(text) => out.push_str(text),
    }
}

// What is written of a run and of the token after it.
fn spliced_text<A: Allocator>(
    alloc: A,
    edits: &Edits<A>,
    cut: &Cut<'_>,
) -> Result<String<A>, AllocError>
    ensures { IfOk result (λ text. string_bytes text
        ≡ edited (edit_by edits.now.run) cut.now.run.now ++ edited (edit_by edits.now.token) cut.now.source.now) }
{
    let mut text = String::new(alloc);
    push_edited(&mut text, &edits.run, cut.run)?;
    push_edited(&mut text, &edits.token, cut.source)?;
    Ok(text)
}

// Whether both stay.
fn keeps_both<A: Allocator>(edits: &Edits<A>) -> bool
    ensures { result ≡ true → edits_by edits.now ≡ no_edits }
{
    matches!(edits.run, Edit::Keep) && matches!(edits.token, Edit::Keep)
}

// Writes what takes the place of a run and of the token after it.
fn put_spliced<O: Output, A: Allocator>(
    alloc: A,
    output: &mut O,
    edits: &Edits<A>,
    cut: &Cut<'_>,
    whole: &str,
) -> Result<(), SinkFault>
    requires { whole.now ≡ cut.now.run.now ++ cut.now.source.now }
    ensures ok { OnOk result (O.bytes output.new ≡ O.bytes output.old
        ++ edited (edit_by edits.now.run) cut.now.run.now ++ edited (edit_by edits.now.token) cut.now.source.now) }
    ensures err { OnErr result (O.bytes output.new ≡ O.bytes output.old) }
{
    if keeps_both(edits) {
        return output.put(whole);
    }
    match spliced_text(alloc, edits, cut) {
        Ok(text) => output.put(&text),
        Err(AllocError) => Err(SinkFault),
    }
}

impl<H: Drop, O, A: Allocator + Copy> Splicing<H, O, A> {
    /// Writes to this output, at the start of a page.
    pub fn new(alloc: A, splicer: H, output: O) -> Splicing<H, O, A>
        ensures splicer { result.splicer ≡ splicer }
        ensures output { result.output ≡ output }
        ensures window { result.window ≡ record { bytes = []; base = 0 } }
    {
        Splicing {
            alloc,
            splicer,
            output,
            window: Window::new(alloc),
        }
    }

    /// Takes note of text of the page, before its tokens are taken.
    pub fn push(&mut self, text: &str) -> Result<(), AllocError>
        ensures ok { OnOk result (self.new ≡ record self.old { window = record self.old.window { bytes = self.old.window.bytes ++ text.now } }) }
        ensures err { OnErr result (self.new ≡ self.old) }
    {
        self.window.push(text)
    }

    /// The output, with all that was written.
    pub fn into_output(self) -> O
        ensures { result ≡ self.output }
    {
        self.output
    }
}

impl<H: Splicer<Token<A>, A>, O: Output, A: Allocator + Copy> Splicing<H, O, A> {
    // Takes a token that is not a parse error.
    fn take_cut(
        &mut self,
        run: &str,
        token: Token<A>,
        line_number: u64,
        places: Places,
    ) -> Result<(), SinkFault>
        ensures ok { OnOk result (splicing_of H.state O.bytes self.new ≡ spliced_cut H.splices (splicing_of H.state O.bytes self.old)
            (front_cut self.old.window (placed_as run.now (told_by token) line_number places))
            (window_after self.old.window (placed_as run.now (told_by token) line_number places))) }
        ensures err { OnErr result (splicing_of H.state O.bytes self.new ≡ splicing_of H.state O.bytes self.old) }
    {
        let Some(front) = self.window.front(places) else {
            return Err(SinkFault);
        };
        let cut = Cut {
            run: front.run,
            text: run,
            source: front.source,
            line_number,
        };
        let Ok((edits, change)) = self.splicer.edit(&cut, token) else {
            return Err(SinkFault);
        };
        let Ok(()) = put_spliced(self.alloc, &mut self.output, &edits, &cut, front.whole) else {
            return Err(SinkFault);
        };
        self.splicer.change(change);
        self.window.pass(places.end);
        Ok(())
    }
}

impl<H: Splicer<Token<A>, A>, O: Output, A: Allocator + Copy> PlacedHandler<Token<A>>
    for Splicing<H, O, A> {
    ghost use Rattle.html5splice.specs.Splicing.{Splicing as SplicingOf, splicing_of, splicing_step};

    ghost State = { SplicingOf H.State };

    ghost state = { splicing_of H.state O.bytes };

    ghost step = { splicing_step H.splices };

    fn take_token(
        &mut self,
        run: &str,
        token: Token<A>,
        line_number: u64,
        places: Places,
    ) -> Result<(), SinkFault> {
        match token {
            Token::ParseError(_) => Ok(()),
            token => self.take_cut(run, token, line_number, places),
        }
    }
}
