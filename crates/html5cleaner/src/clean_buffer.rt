//! A handler that buffers the kept part of a page until it is taken.
ghost use Rattle.std.specs.Prelude.{◌≡◌, ◌≤◌, ◌++◌, ℕ, List, length, take, drop, min, OnOk, OnErr};
ghost use Rattle.html5ever_interface.specs.Sink.{Message, stepped};
ghost use Rattle.html5ever_interface.specs.Token.{told_by};
ghost use Rattle.html5sinks.specs.Runs.{Running, runs_step};
ghost use Rattle.html5stream.specs.Pages.{runs_after};
ghost use Rattle.html5policy.specs.Policy.{PolicyOf};
ghost use Rattle.html5cleaner.specs.Balance.{is_end, open_by, written_by};
ghost use Rattle.html5cleaner.specs.Buffering.{Buffered, WaitsOn, after_taking, buffer_start, buffered_step};
ghost use Rattle.html5cleaner.specs.Clean.{kept_where};
ghost use Rattle.html5cleaner.specs.Settled.{names_in};
ghost use Rattle.html5cleaner.specs.Shape.{shape_of};
ghost use Rattle.html5cleaner.specs.Cleaning.{kept_of_page, page_bytes};
ghost use Rattle.markup5ever.specs.NamedReferences.{NamedReference};
ghost use Rattle.outbox.specs.Outgoing.{adding, waiting};

use crate::draft::Draft;
use crate::hidden::pass_token;
use crate::opened::Opened;
use html5elements::hidden::Hidden;
use html5ever_interface::interface::token::{SinkFault, Token};
use html5policy::Policy;
use html5sinks::text_runs::TokenHandler;
use outbox::Outbox;
use std::alloc::{Allocator, Global};
use std::marker::Model;

/// What a buffer keeps of a page is what the policy keeps. The messages of a page, or of a part of one, take none of
/// the waiting bytes: more come after them.
pub fn buffers_clean_pages()
    ensures page { (policy : PolicyOf) (taken : ℕ) (references : List NamedReference) (bytes : List ℕ) →
        (runs_after buffered_step references (buffer_start policy taken) bytes).out.bytes
        ≡ page_bytes (kept_of_page policy references bytes) }
    ensures on { (s : Running Buffered) (M : List Message)
        → WaitsOn s.joined.handler (stepped (runs_step buffered_step) s M).joined.handler }
{}

/// Keeps what a policy keeps of the runs of text and the tags that it takes, until it is taken. It owns its policy.
#[derive(Drop)]
pub struct CleanBuffer<A: Allocator = Global> {
    draft: Draft<A>,
    policy: Policy<A>,
    out: Outbox<A>,
    hidden: Hidden<A>,
    opened: Opened<A>,
}

impl<A: Allocator> Model for CleanBuffer<A> {
    ghost use Rattle.std.specs.Prelude.{◌≡◌};
    ghost use Rattle.html5elements.specs.Hidden.{hidden_of};
    ghost use Rattle.html5cleaner.specs.Settled.{names_in};
    ghost use Rattle.html5cleaner.specs.Shape.{shape_of};
    ghost use Rattle.html5cleaner.specs.Buffering.{Buffered};

    ghost Value = { Buffered };

    ghost view = { λ c. record { policy = c.policy; out = c.out; hidden = hidden_of c.hidden; opened = names_in (shape_of c.policy) c.opened } };

    ghost invariant = { λ c. c.opened.tree.limit ≡ c.policy.depth };
}

// Puts out the kept part of a run of text and the token after it, all of it or nothing.
fn put_kept<A: Allocator + Copy>(
    draft: &mut Draft<A>,
    policy: &Policy<A>,
    depth: u64,
    opened: &mut Opened<A>,
    out: &mut Outbox<A>,
    run: &str,
    token: &Token<A>,
) -> Result<(), SinkFault>
    requires { opened.old.tree.limit ≡ policy.now.depth }
    ensures put { OnOk result (out.new ≡ adding out.old (page_bytes
        (written_by (shape_of policy.now) (is_end (told_by token.now)) (names_in (shape_of policy.now) opened.old) (kept_where policy.now depth run.now (told_by token.now))))) }
    ensures opened { OnOk result (names_in (shape_of policy.now) opened.new
        ≡ open_by (shape_of policy.now) (is_end (told_by token.now)) (names_in (shape_of policy.now) opened.old) (kept_where policy.now depth run.now (told_by token.now))) }
    ensures unchanged { OnErr result (out.new ≡ out.old) }
    ensures unopened { OnErr result (names_in (shape_of policy.now) opened.new ≡ names_in (shape_of policy.now) opened.old) }
    ensures limit { opened.new.tree.limit ≡ opened.old.tree.limit }
{
    let Ok(pending) = draft.keep(policy, depth, opened, run, token) else {
        return Err(SinkFault);
    };
    match out.push(draft.page.as_str().as_bytes()) {
        Ok(()) => {
            opened.settle(pending);
            Ok(())
        }
        Err(_) => {
            opened.undo(pending);
            Err(SinkFault)
        }
    }
}

impl<A: Allocator + Copy> CleanBuffer<A> {
    /// At the start of a page, with nothing that waits.
    pub fn new(alloc: A, policy: Policy<A>) -> CleanBuffer<A>
        ensures { result ≡ buffer_start policy 0 }
    {
        let opened = Opened::none(alloc, policy.depth());
        CleanBuffer {
            draft: Draft::new(alloc),
            policy,
            out: Outbox::new(alloc),
            hidden: Hidden::none(alloc),
            opened,
        }
    }
}

impl<A: Allocator> CleanBuffer<A> {
    /// The policy. The waiting bytes are dropped.
    pub fn into_policy(self) -> Policy<A>
        ensures { result ≡ self.policy }
    {
        self.policy
    }

    /// The bytes that wait to be taken. They go on waiting.
    pub fn waiting(&self) -> &[u8]
        ensures waiting { result.now ≡ waiting self.now.out }
        ensures within { self.now.out.taken ≤ length self.now.out.bytes }
    {
        self.out.waiting()
    }

    /// Takes as many waiting bytes as there is room for, and copies them. It answers how many.
    pub fn take(&mut self, into: &mut [u8]) -> usize
        ensures count { result ≡ min (length into.old) (length (waiting self.old.out)) }
        ensures copied { into.new ≡ take result (waiting self.old.out) ++ drop result into.old }
        ensures taken { self.new ≡ after_taking self.old result }
    {
        self.out.take(into)
    }
}

impl<A: Allocator + Copy> TokenHandler<Token<A>> for CleanBuffer<A> {
    ghost use Rattle.html5cleaner.specs.Buffering.{Buffered, buffered_step};

    ghost State = { Buffered };

    ghost state = { λ b. b };

    ghost step = { buffered_step };

    fn take_token(
        &mut self,
        run: &str,
        mut token: Token<A>,
        line_number: u64,
    ) -> Result<(), SinkFault> {
        self.take_lent(run, &mut token, line_number)
    }

    fn take_lent(
        &mut self,
        run: &str,
        token: &mut Token<A>,
        _line_number: u64,
    ) -> Result<(), SinkFault> {
        if self.hidden.is_full() {
            return Err(SinkFault);
        }
        put_kept(
            &mut self.draft,
            &self.policy,
            self.hidden.depth,
            &mut self.opened,
            &mut self.out,
            run,
            token,
        )?;
        pass_token(&mut self.hidden, &self.policy, token);
        Ok(())
    }
}
