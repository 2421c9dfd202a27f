//! The text of a page, without its scripts and styles.
ghost use Rattle.std.specs.Prelude.{◌≡◌, ◌++◌, false, OnOk, OnErr};
ghost use Rattle.html5ever_interface.specs.Token.{told_by};
ghost use Rattle.html5extract.specs.PageText.{is_skipped, within_after, shown};

use devices::{Printer, Target};
use html5ever_interface::interface::token::{SinkFault, TagKind, Token};
use html5sinks::text_runs::TokenHandler;
use std::alloc::{Allocator, Global};
use std::marker::Model;

// Whether the content of an element of this name is a script or a style.
#[tactic(auto, unfolding(crate::specs::PageText::is_skipped))]
fn is_skipped(name: &str) -> bool
    ensures { result ≡ is_skipped name.now }
{
    matches!(name, "script" | "style")
}

// Whether after a token a script or a style is open.
fn is_within_after<A: Allocator>(within: bool, token: &Token<A>) -> bool
    ensures { result ≡ within_after within (told_by token.now) }
{
    let Token::TagToken(tag) = token else {
        return within;
    };
    match tag.kind {
        TagKind::StartTag => is_skipped(&tag.name.0),
        TagKind::EndTag => false,
    }
}

/// Prints the text that it takes, except for the content of scripts and styles.
#[derive(Drop)]
pub struct PageText<W, A: Allocator = Global> {
    printer: Printer<W, A>,
    within: bool,
}

impl<W, A: Allocator> Model for PageText<W, A> {
    ghost use Rattle.html5extract.specs.PageText.{Showing};

    ghost Value = { Showing W };

    ghost view = { λ t. record { printer = t.printer; within = t.within } };
}

impl<W: Target, A: Allocator> PageText<W, A> {
    /// Prints to this printer, at the start of a page.
    pub fn new(printer: Printer<W, A>) -> PageText<W, A>
        ensures printer { result.printer ≡ printer }
        ensures within { result.within ≡ false }
    {
        PageText {
            printer,
            within: false,
        }
    }

    /// Prints to the same printer, at the start of a page.
    pub fn at_start(self) -> PageText<W, A>
        ensures printer { result.printer ≡ self.printer }
        ensures within { result.within ≡ false }
    {
        PageText::new(self.printer)
    }

    // Prints a run, when no script and no style is open.
    fn show(&mut self, run: &str) -> Result<(), SinkFault>
        ensures ok { OnOk result (self.new.printer.printed ≡ self.old.printer.printed
            ++ shown self.old.within run.now) }
        ensures err { OnErr result (self.new.printer.printed ≡ self.old.printer.printed) }
        ensures within { self.new.within ≡ self.old.within }
    {
        if self.within {
            return Ok(());
        }
        match self.printer.print(run.as_bytes()) {
            Ok(()) => Ok(()),
            Err(_) => Err(SinkFault),
        }
    }

    /// The printer, with its output.
    pub fn into_inner(self) -> Printer<W, A>
        ensures { result ≡ self.printer }
    {
        self.printer
    }
}

impl<W: Target, A: Allocator> TokenHandler<Token<A>> for PageText<W, A> {
    ghost use Rattle.html5extract.specs.PageText.{Reading, reading_of, text_step};

    ghost State = { Reading };

    ghost state = { reading_of };

    ghost step = { text_step };

    fn take_token(
        &mut self,
        run: &str,
        mut token: Token<A>,
        line_number: u64,
    ) -> Result<(), SinkFault> {
        self.take_lent(run, &mut token, line_number)
    }

    // Nothing of a token is kept.
    fn take_lent(
        &mut self,
        run: &str,
        token: &mut Token<A>,
        _line_number: u64,
    ) -> Result<(), SinkFault> {
        // A match in place of `?`: split for the proof.
        match self.show(run) {
            Ok(()) => {
                self.within = is_within_after(self.within, token);
                Ok(())
            }
            Err(SinkFault) => Err(SinkFault),
        }
    }
}
