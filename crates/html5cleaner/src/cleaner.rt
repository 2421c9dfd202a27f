//! A handler that writes the kept part of a page.
ghost use Rattle.std.specs.Prelude.{◌≡◌, ◌++◌, [], false, true};
ghost use Rattle.std.specs.List.{list_all};
ghost use Rattle.html5ever_interface.specs.Token.{tag_of, told_by};
ghost use Rattle.html5policy.specs.Rules.{IsSound};
ghost use Rattle.html5cleaner.specs.Allowed.{is_clean};
ghost use Rattle.html5cleaner.specs.Balance.{is_end, open_by, written_by};
ghost use Rattle.html5cleaner.specs.Clean.{at_start, kept_of_run, kept_of_tag, kept_where};
ghost use Rattle.html5cleaner.specs.Kept.{Keeps, Settles};
ghost use Rattle.html5cleaner.specs.Settled.{names_in};
ghost use Rattle.html5cleaner.specs.Shape.{shape_by_balance, shape_of};

use crate::attributes::kept_attributes;
use crate::balance::{Change, NO_CHANGE, write_balanced, write_closed, write_plain};
use crate::hidden::pass_token;
use crate::in_tree::keep_in_tree;
use crate::kept::{is_end, kept_tag};
use crate::open_elements::OpenElements;
use crate::opened::{Opened, Pending};
use html5elements::hidden::Hidden;
use html5ever_interface::interface::token::{SinkFault, Tag, Token};
use html5policy::Policy;
use html5sinks::text_runs::TokenHandler;
use html5write::{WriteError, Writer};
use std::alloc::{Allocator, Global};
use std::marker::Model;

/// Writes what a policy keeps of the runs of text and the tags that it takes. Contracts see the policy,
/// the pieces that were written, what is hidden, and the elements that are open.
#[derive(Drop)]
pub struct Cleaner<'p, A: Allocator = Global> {
    alloc: A,
    policy: &'p Policy<A>,
    page: Writer<A>,
    hidden: Hidden<A>,
    opened: Opened<A>,
}

impl<'p, A: Allocator> Model for Cleaner<'p, A> {
    ghost use Rattle.html5cleaner.specs.Balance.{AreClean};
    ghost use Rattle.std.specs.Prelude.{◌≡◌};
    ghost use Rattle.html5cleaner.specs.Clean.{Cleaned};
    ghost use Rattle.html5cleaner.specs.Settled.{names_in};
    ghost use Rattle.html5cleaner.specs.Shape.{shape_of};
    ghost use Rattle.html5elements.specs.Hidden.{hidden_of};

    ghost Value = { Cleaned };

    ghost view = { λ c. record { policy = c.policy.now; pieces = c.page; hidden = hidden_of c.hidden; opened = names_in (shape_of c.policy.now) c.opened } };

    ghost invariant = { λ c. AreClean c.policy.now c.page (names_in (shape_of c.policy.now) c.opened)
        × (c.opened.tree.limit ≡ c.policy.now.depth) };
}

impl<'p, A: Allocator + Copy> Cleaner<'p, A> {
    /// At the start of a page.
    pub fn new(alloc: A, policy: &'p Policy<A>) -> Cleaner<'p, A>
        ensures { result ≡ at_start policy.now }
    {
        Cleaner {
            alloc,
            policy,
            page: Writer::new(alloc),
            hidden: Hidden::none(alloc),
            opened: Opened::none(alloc, policy.depth()),
        }
    }

    /// The page. All of its pieces are clean, and so `laws::cleaned_page` says how it is read.
    pub fn into_page(self) -> Writer<A>
        ensures page { result ≡ self.entry.pieces }
        ensures clean { list_all (is_clean self.entry.policy) result ≡ true }
        ensures sound { IsSound self.entry.policy }
    {
        self.policy.soundness();
        self.page
    }
}

// Writes the kept part of a run of text and the tag after it, all of it or nothing.
fn keep_tag<A: Allocator + Copy>(
    alloc: A,
    policy: &Policy<A>,
    opened: &mut OpenElements<A>,
    page: &mut Writer<A>,
    run: &str,
    tag: &Tag<A>,
) -> Result<Change, WriteError>
    ensures { Keeps result page.old page.new opened.old opened.new
        (written_by (shape_by_balance policy.now.balance) false opened.old (kept_of_run run.now ++ kept_of_tag policy.now (tag_of tag.now)))
        (open_by (shape_by_balance policy.now.balance) false opened.old (kept_of_run run.now ++ kept_of_tag policy.now (tag_of tag.now))) }
{
    let attributes = kept_attributes(alloc, policy, &tag.name.0, &tag.attrs)?;
    let tag = kept_tag(policy, tag, &attributes);
    if policy.balances() {
        return write_balanced(alloc, opened, page, run, tag);
    }
    write_plain(page, run, tag)
}

// Writes the kept part of a run of text at the end of a page, all of it or nothing.
fn keep_end<A: Allocator + Copy>(
    alloc: A,
    policy: &Policy<A>,
    opened: &OpenElements<A>,
    page: &mut Writer<A>,
    run: &str,
) -> Result<Change, WriteError>
    ensures { Keeps result page.old page.new opened.now opened.now
        (written_by (shape_by_balance policy.now.balance) true opened.now (kept_of_run run.now ++ []))
        (open_by (shape_by_balance policy.now.balance) true opened.now (kept_of_run run.now ++ [])) }
{
    let close = if policy.balances() { opened.len() } else { 0 };
    write_closed(alloc, opened, page, run, close)?;
    Ok(Change { undo: 0, close })
}

// Writes the kept part of a run of text and the token after it, by its tags: all of it or nothing, when
// this many elements hide their content.
fn keep_by_tags<A: Allocator + Copy>(
    alloc: A,
    policy: &Policy<A>,
    depth: u64,
    opened: &mut OpenElements<A>,
    page: &mut Writer<A>,
    run: &str,
    token: &Token<A>,
) -> Result<Change, WriteError>
    ensures { Keeps result page.old page.new opened.old opened.new
        (written_by (shape_by_balance policy.now.balance) (is_end (told_by token.now)) opened.old (kept_where policy.now depth run.now (told_by token.now)))
        (open_by (shape_by_balance policy.now.balance) (is_end (told_by token.now)) opened.old (kept_where policy.now depth run.now (told_by token.now))) }
{
    if is_end(token) {
        let shown = if depth == 0 { run } else { "" };
        return keep_end(alloc, policy, opened, page, shown);
    }
    if depth != 0 {
        return Ok(NO_CHANGE);
    }
    match token {
        Token::TagToken(tag) => keep_tag(alloc, policy, opened, page, run, tag),
        _ => write_plain(page, run, None),
    }
}

/// Writes the kept part of a run of text and the token after it, all of it or nothing, when this many
/// elements hide their content.
pub fn keep_where<A: Allocator + Copy>(
    alloc: A,
    policy: &Policy<A>,
    depth: u64,
    opened: &mut Opened<A>,
    page: &mut Writer<A>,
    run: &str,
    token: &Token<A>,
) -> Result<Pending, WriteError>
    requires { opened.old.tree.limit ≡ policy.now.depth }
    ensures { Settles (shape_of policy.now) result page.old page.new opened.old opened.new
        (written_by (shape_of policy.now) (is_end (told_by token.now)) (names_in (shape_of policy.now) opened.old)
        (kept_where policy.now depth run.now (told_by token.now)))
        (open_by (shape_of policy.now) (is_end (told_by token.now)) (names_in (shape_of policy.now) opened.old)
        (kept_where policy.now depth run.now (told_by token.now))) }
{
    if policy.makes_tree() {
        return keep_in_tree(alloc, policy, depth, opened, page, run, token);
    }
    let change = keep_by_tags(alloc, policy, depth, &mut opened.tags, page, run, token)?;
    Ok(Pending::Tags(change))
}

impl<'p, A: Allocator + Copy> TokenHandler<Token<A>> for Cleaner<'p, A> {
    ghost use Rattle.html5cleaner.specs.Clean.{Cleaned, clean_step};

    ghost State = { Cleaned };

    ghost state = { λ c. c };

    ghost step = { clean_step };

    fn take_token(
        &mut self,
        run: &str,
        mut token: Token<A>,
        line_number: u64,
    ) -> Result<(), SinkFault> {
        self.take_lent(run, &mut token, line_number)
    }

    fn take_lent(
        &mut self,
        run: &str,
        token: &mut Token<A>,
        _line_number: u64,
    ) -> Result<(), SinkFault> {
        if self.hidden.is_full() {
            return Err(SinkFault);
        }
        self.policy.soundness();
        match keep_where(
            self.alloc,
            self.policy,
            self.hidden.depth,
            &mut self.opened,
            &mut self.page,
            run,
            token,
        ) {
            Ok(pending) => {
                self.opened.settle(pending);
                pass_token(&mut self.hidden, self.policy, token);
                Ok(())
            }
            Err(_) => Err(SinkFault),
        }
    }
}
