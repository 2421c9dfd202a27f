//! A handler that prints the kept part of a page, as it arrives.
ghost use Rattle.std.specs.Prelude.{◌≡◌, ◌++◌, [], OnOk, OnErr, string_bytes};
ghost use Rattle.html5ever_interface.specs.Token.{told_by};
ghost use Rattle.html5cleaner.specs.Balance.{is_end, open_by, written_by};
ghost use Rattle.html5cleaner.specs.Clean.{kept_where};
ghost use Rattle.html5cleaner.specs.Settled.{names_in};
ghost use Rattle.html5cleaner.specs.Shape.{shape_of};
ghost use Rattle.html5cleaner.specs.Cleaning.{page_bytes, page_start, cleaning_of, standing_of};

use crate::draft::Draft;
use crate::hidden::pass_token;
use crate::opened::Opened;
use devices::{Printer, Target};
use html5elements::hidden::Hidden;
use html5ever_interface::interface::token::{SinkFault, Token};
use html5policy::Policy;
use html5sinks::text_runs::TokenHandler;
use std::alloc::{Allocator, Global};
use std::marker::Model;

/// Prints what a policy keeps of the runs of text and the tags that it takes.
#[derive(Drop)]
pub struct CleanPrinter<W, A: Allocator = Global> {
    draft: Draft<A>,
    policy: Policy<A>,
    printer: Printer<W, A>,
    hidden: Hidden<A>,
    opened: Opened<A>,
}

impl<W, A: Allocator> Model for CleanPrinter<W, A> {
    ghost use Rattle.std.specs.Prelude.{◌≡◌};
    ghost use Rattle.html5elements.specs.Hidden.{hidden_of};
    ghost use Rattle.html5cleaner.specs.Settled.{names_in};
    ghost use Rattle.html5cleaner.specs.Shape.{shape_of};
    ghost use Rattle.html5cleaner.specs.Cleaning.{Printed};

    ghost Value = { Printed W };

    ghost view = { λ c. record { policy = c.policy; printer = c.printer; hidden = hidden_of c.hidden; opened = names_in (shape_of c.policy) c.opened } };

    ghost invariant = { λ c. c.opened.tree.limit ≡ c.policy.depth };
}

// Prints the kept part of a run of text and the token after it, all of it or nothing.
fn print_kept<W: Target, A: Allocator + Copy>(
    draft: &mut Draft<A>,
    policy: &Policy<A>,
    depth: u64,
    opened: &mut Opened<A>,
    printer: &mut Printer<W, A>,
    run: &str,
    token: &Token<A>,
) -> Result<(), SinkFault>
    requires { opened.old.tree.limit ≡ policy.now.depth }
    ensures printed { OnOk result (printer.new.printed ≡ printer.old.printed ++ page_bytes
        (written_by (shape_of policy.now) (is_end (told_by token.now)) (names_in (shape_of policy.now) opened.old) (kept_where policy.now depth run.now (told_by token.now)))) }
    ensures opened { OnOk result (names_in (shape_of policy.now) opened.new
        ≡ open_by (shape_of policy.now) (is_end (told_by token.now)) (names_in (shape_of policy.now) opened.old) (kept_where policy.now depth run.now (told_by token.now))) }
    ensures unprinted { OnErr result (printer.new.printed ≡ printer.old.printed) }
    ensures unopened { OnErr result (names_in (shape_of policy.now) opened.new ≡ names_in (shape_of policy.now) opened.old) }
    ensures limit { opened.new.tree.limit ≡ opened.old.tree.limit }
{
    let Ok(pending) = draft.keep(policy, depth, opened, run, token) else {
        return Err(SinkFault);
    };
    match printer.print(draft.page.as_str().as_bytes()) {
        Ok(()) => {
            opened.settle(pending);
            Ok(())
        }
        Err(_) => {
            opened.undo(pending);
            Err(SinkFault)
        }
    }
}

impl<W: Target, A: Allocator + Copy> CleanPrinter<W, A> {
    /// Prints to this printer, at the start of a page.
    pub fn new(alloc: A, printer: Printer<W, A>, policy: Policy<A>) -> CleanPrinter<W, A>
        ensures start { cleaning_of result ≡ page_start (record { policy = policy; printed = printer.printed }) }
        ensures printer { result.printer ≡ printer }
    {
        let opened = Opened::none(alloc, policy.depth());
        CleanPrinter {
            draft: Draft::new(alloc),
            policy,
            printer,
            hidden: Hidden::none(alloc),
            opened,
        }
    }

    /// Prints to the same printer, at the start of a page.
    pub fn at_start(mut self) -> CleanPrinter<W, A>
        ensures start { cleaning_of result ≡ page_start (standing_of self) }
        ensures printer { result.printer ≡ self.printer }
    {
        let alloc = self.draft.allocator();
        self.hidden = Hidden::none(alloc);
        self.opened = Opened::none(alloc, self.policy.depth());
        self
    }

    /// The printer, with its output.
    pub fn into_inner(self) -> Printer<W, A>
        ensures { result ≡ self.printer }
    {
        self.printer
    }
}

impl<W: Target, A: Allocator + Copy> TokenHandler<Token<A>> for CleanPrinter<W, A> {
    ghost use Rattle.html5cleaner.specs.Cleaning.{Cleaning, cleaning_of, cleaning_step};

    ghost State = { Cleaning };

    ghost state = { cleaning_of };

    ghost step = { cleaning_step };

    fn take_token(
        &mut self,
        run: &str,
        mut token: Token<A>,
        line_number: u64,
    ) -> Result<(), SinkFault> {
        self.take_lent(run, &mut token, line_number)
    }

    fn take_lent(
        &mut self,
        run: &str,
        token: &mut Token<A>,
        _line_number: u64,
    ) -> Result<(), SinkFault> {
        if self.hidden.is_full() {
            return Err(SinkFault);
        }
        print_kept(
            &mut self.draft,
            &self.policy,
            self.hidden.depth,
            &mut self.opened,
            &mut self.printer,
            run,
            token,
        )?;
        pass_token(&mut self.hidden, &self.policy, token);
        Ok(())
    }
}
