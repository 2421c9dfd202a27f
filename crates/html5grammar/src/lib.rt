//! The grammar: items in source form, and texts as sequences of them. The definitions are in specs/;
//! here are its two laws, `sound` and `each_text`, and in `anywhere` those of single items.
//!
//! Internal to `html5ever`: it has no code that runs. Contracts of that crate cite its words.
#![tactic(auto)]

ghost use Rattle.std.specs.Prelude.{◌≡◌, ℕ, Bool, List, ◌++◌, true, false, codes};
ghost use Rattle.html5ever_interface.specs.Sink.{Message};
ghost use Rattle.html5reading.specs.Reading.{all_messages, messages_so_far};
ghost use Rattle.html5reading.specs.Start.{Start, Rules, nothing_open};
ghost use Rattle.html5grammar.specs.Items.{Items, Composed};
ghost use Rattle.markup5ever.specs.NamedReferences.{IsTable};
ghost use Rattle.std.specs.List.{list_all};
ghost use Rattle.std.specs.Str.{bytes_eq};
ghost use Rattle.html5reading.specs.Characters.{lower_case};
ghost use Rattle.html5reading.specs.Doctype.{in_skipped_rest};
ghost use Rattle.html5grammar.specs.Cdata.{IsCdataText};
ghost use Rattle.html5grammar.specs.Comment.{occurs};
ghost use Rattle.html5grammar.specs.Doctype.{IsDoctypeText};

pub mod anywhere;

use html5ever_interface::interface::sink::TokenSink;
use html5ever_interface::interface::token::Token;
use std::alloc::Allocator;

/// A text that is items, and at most one unfinished one after them, tells their messages, and its
/// end tells the others. So what it tells is the same however it is taken as items.
pub fn sound<S: TokenSink<Token<A>>, A: Allocator>()
    ensures told { (rules : Rules) (K : Start) (s : S.State) (text : List ℕ) (M E : List Message) → IsTable rules.references
        → Items S.means rules K s text M E → messages_so_far S.means rules K s text ≡ M }
    ensures whole { (rules : Rules) (K : Start) (s : S.State) (text : List ℕ) (M E : List Message) → IsTable rules.references
        → Items S.means rules K s text M E → all_messages S.means rules K s text ≡ M ++ E }
    ensures only { (rules : Rules) (K : Start) (s : S.State) (text : List ℕ) (M E N F : List Message)
        → IsTable rules.references
        → Items S.means rules K s text M E → Items S.means rules K s text N F → (M ≡ N) × (E ≡ F) }
{}

/// Each text is items, and at most one unfinished one after them, from each start at which nothing
/// is open.
pub fn each_text<S: TokenSink<Token<A>>, A: Allocator>()
    ensures { (rules : Rules) (K : Start) (s : S.State) (text : List ℕ) → nothing_open K.opened ≡ true
        → Composed S.means rules K s text }
{}

/// Take `<!`, `doctype` in any case, characters other than `>`, and `>`. Each such text is one doctype,
/// written out. So what holds of one doctype holds of all.
pub fn each_doctype()
    ensures { (word text : List ℕ) → bytes_eq (lower_case word) (codes "doctype") ≡ true
        → list_all in_skipped_rest text ≡ true → IsDoctypeText word text }
{}

/// Each text in which `]]>` stands nowhere is that of one CDATA section, written out, between its
/// `<![CDATA[` and its `]]>`, or without one of them or both. So what holds of one section holds of all.
pub fn each_cdata()
    ensures { (has_opening is_ended : Bool) (text : List ℕ) → occurs (codes "]]>") text ≡ false
        → IsCdataText has_opening is_ended text }
{}
