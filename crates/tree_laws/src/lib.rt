//! What is proved of tree construction: laws of the definitions in tree_construction. There is no code that runs.
#![tactic(auto)]

ghost use Rattle.std.specs.Prelude.{◌≡◌, ℕ, List, [], ◌++◌, Option, Some, false, true};
ghost use Rattle.html5ever_interface.specs.Token.{TagOf, Told, is_tag, keeps_state};
ghost use Rattle.html5ever_interface.specs.Token.Told.{Tag, Text};
ghost use Rattle.html5ever_interface.specs.Token.Reply.{KeepOn};
ghost use Rattle.html5reading.specs.Reading.{all_messages, messages, open_after_reply, reading};
ghost use Rattle.html5reading.specs.Start.{Rules, Start};
ghost use Rattle.html5sinks.specs.Replies.{standard_reply};
ghost use Rattle.tree_construction.specs.Construction.{is_foreign, start, told_all};
ghost use Rattle.tree_laws.specs.Laws.{AreOrderly, AsksAsParser, Extends, IsInBody};
ghost use Rattle.tree_laws.specs.Pointers.{IsForm, IsHead};
ghost use Rattle.tree_laws.specs.Trees.{AreNested, IsOutside, KeepTree, parent_after, template_after};
ghost use Rattle.tree_construction.specs.Document.{built, parent_of};
ghost use Rattle.tree_construction.specs.Page.{Edit};
ghost use Rattle.tree_construction.specs.Parser.{Options, Parser};
ghost use Rattle.tree_construction.specs.Text.{parser_of_text, parser_so_far, replied_by, taken_by};

use html5ever_interface::interface::sink::TokenSink;
use html5ever_interface::interface::token::Token;
use std::alloc::Allocator;

/// Edits are only added: the edits after some messages of the tokenizer are the first of those after more
/// messages (`messages`). So are the edits that the characters of a text decide: they are the first
/// of the edits of that text and more (`text`). A document can be built while its text arrives.
pub fn edits_are_only_added()
    ensures messages { (p : Parser) (more : List Told) → Extends p.page.edits (told_all more p).page.edits }
    ensures text { (options : Options) (rules : Rules) (text more : List ℕ)
        → Extends (parser_so_far options rules text).page.edits (parser_of_text options rules (text ++ more)).page.edits }
{}

/// Nodes are numbered as they are made, from 3 on, and each edit names nodes that were made before it, or that
/// are there from the start. So it is after any messages (`messages`), and of any text (`text`). A builder can
/// take the number of a node as its place in a list.
pub fn nodes_are_numbered()
    ensures messages { (options : Options) (messages : List Told) → AreOrderly (told_all messages (start options)).page.edits }
    ensures text { (options : Options) (rules : Rules) (text : List ℕ)
        → AreOrderly (parser_of_text options rules text).page.edits }
{}

/// The document is a tree. A node that is put has no parent until then, and is put into neither itself nor a descendant (`KeepTree`).
/// So it is after any messages (`messages`), and of any text (`text`). After such edits a node's parent is no descendant of that node
/// (`parents`), and neither is the template whose contents it is (`templates`). The contents of a template count as its descendants.
/// The rows of the document have the parents that these clauses speak of (`rows`; `AreOrderly`: see `nodes_are_numbered`).
/// No element is twice on the stack of open elements, and none of them is a descendant of one further in (`stack`).
pub fn document_is_a_tree()
    ensures messages { (options : Options) (messages : List Told) → KeepTree (told_all messages (start options)).page.edits }
    ensures text { (options : Options) (rules : Rules) (text : List ℕ) → KeepTree (parser_of_text options rules text).page.edits }
    ensures parents { (edits : List Edit) (n parent : ℕ) → KeepTree edits → parent_after edits n ≡ Some parent → IsOutside edits n parent }
    ensures templates { (edits : List Edit) (n template : ℕ) → KeepTree edits → template_after edits n ≡ Some template
        → IsOutside edits n template }
    ensures rows { (edits : List Edit) (n : ℕ) → AreOrderly edits → KeepTree edits → parent_of n (built edits) ≡ parent_after edits n }
    ensures stack { (options : Options) (messages : List Told)
        → AreNested (told_all messages (start options)).page.edits (told_all messages (start options)).page.opened }
{}

/// The pointers name what they say, after any messages. Once it is set, the head element pointer names an HTML element `head` that an
/// edit made (`head`). The form element pointer names an HTML element `form` that an edit made, or in the fragment case the form around
/// the context element (`form`).
pub fn pointers_name_elements()
    ensures head { (options : Options) (messages : List Told)
        → IsHead (told_all messages (start options)).page.edits (told_all messages (start options)).head }
    ensures form { (options : Options) (messages : List Told)
        → IsForm (told_all messages (start options)).page.edits (told_all messages (start options)).form }
{}

/// Whoever asks as the parser does is sent the same messages. That is a sink each of whose states has a parser: a
/// message steps that parser, a tag is replied to as the parser does, as far as how to read on, and the answer
/// about foreign content is the parser's (`AsksAsParser`). It need not build any tree.
pub fn one_reading<S: TokenSink<Token<A>>, A: Allocator>()
    ensures { (parser : S.State → Parser) → AsksAsParser S.means.step S.means.reply S.means.foreign parser
        → (rules : Rules) (K : Start) (s : S.State) (text : List ℕ)
        → all_messages S.means rules K s text ≡ messages (reading taken_by replied_by is_foreign rules K (parser s) text) }
{}

/// Without scripting the parser follows the standard's elements: after a tag of a name after which they ask for
/// nothing, the tokenizer goes on, at once or after a pause. So pages that are written for sinks which
/// follow the standard (`FollowsStandard` of html5sinks) are read as they were written by a tokenizer that asks
/// the parser. The parser may go on after other tags, too, as in svg.
pub fn follows_the_standard()
    ensures { (p : Parser) (tag : TagOf) (line : ℕ) → p.options.scripting ≡ false → standard_reply tag ≡ KeepOn
        → keeps_state (replied_by p (Tag tag) line) ≡ true }
{}

/// In the body of a page names alone are enough: after each tag the tokenizer goes on as after the reply of the
/// standard's elements. That is in the modes of a body outside templates, if the adjusted current node is an HTML
/// element, so not in svg or math, and without scripting (`IsInBody`). Elsewhere a start tag may be ignored, and
/// its text is then read as markup.
pub fn replies_by_name()
    ensures { (p : Parser) (tag : TagOf) (line : ℕ) (last : List ℕ) → IsInBody p
        → open_after_reply last (replied_by p (Tag tag) line) ≡ open_after_reply last (standard_reply tag) }
{}

/// The parser is a lawful sink of the tokenizer's messages. Two adjacent texts are as one (`joins`), an
/// empty text is as none (`empty`), the line of a message is neglected (`any_line`), and only a tag gets another
/// reply than to go on (`keeps_on`).
pub fn parser_is_a_sink()
    ensures joins { (p : Parser) (a b : List ℕ) (line : ℕ)
        → taken_by (taken_by p (Text a) line) (Text b) line ≡ taken_by p (Text (a ++ b)) line }
    ensures empty { (p : Parser) (line : ℕ) → taken_by p (Text []) line ≡ p }
    ensures any_line { (p : Parser) (message : Told) (line other : ℕ)
        → taken_by p message line ≡ taken_by p message other }
    ensures keeps_on { (p : Parser) (message : Told) (line : ℕ)
        → is_tag message ≡ false → replied_by p message line ≡ KeepOn }
{}
