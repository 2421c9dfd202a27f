//! What is written is read again as the tokens that it was written for, and each token of a page can be
//! written.
ghost use Rattle.std.specs.Prelude.{◌≡◌, ℕ, List, [], ◌∷◌, ◌++◌, All, false, flat_map, true};
ghost use Rattle.std.specs.List.{list_all};
ghost use Rattle.std.specs.Option.{is_none};
ghost use Rattle.std.specs.Str.{IsUtf8};
ghost use Rattle.html5ever_interface.specs.Token.{Told, told_by};
ghost use Rattle.html5ever_interface.specs.Token.Told.{End};
ghost use Rattle.html5ever_interface.specs.declared.states.RawKind.{RawKind};
ghost use Rattle.html5reading.specs.Reading.{all_messages};
ghost use Rattle.html5reading.specs.Start.{Start, Rules, nothing_open};
ghost use Rattle.html5reading.specs.Start.Mode.{Data};
ghost use Rattle.html5reading.specs.Start.Open.{Between};
ghost use Rattle.html5serialize.specs.Escapes.{Reads};
ghost use Rattle.html5serialize.specs.Page.{AsksAsStandard, page_text};
ghost use Rattle.html5serialize.specs.declared.page_writer.PageOptions.{PageOptions};
ghost use Rattle.html5serialize.specs.Pages.{Part, AsksForParts, PartsHaveTexts, ReadsParts, can_write_part, part_read_back, parts_text};
ghost use Rattle.html5serialize.specs.RawRefusals.{raw_refusal};
ghost use Rattle.html5serialize.specs.RawTexts.{IsOpenRaw, ReadsRaw, can_write_raw};
ghost use Rattle.html5serialize.specs.ReadBack.{HasTexts, HaveTexts, KeepsOnAfterAll, ReadBack, ReadsBack};
ghost use Rattle.html5serialize.specs.Refusals.{refusal_of};
ghost use Rattle.html5serialize.specs.Tokens.{can_write, read_back, tokens_text};
ghost use Rattle.html5write.specs.Told.{IsOpen, proper, tokens_of};
ghost use Rattle.markup5ever.specs.NamedReferences.{IsTable};

use crate::scripting_sink::ScriptingSink;
use html5ever_interface::interface::sink::TokenSink;
use html5ever_interface::interface::token::{Tag, Token};
use html5sinks::tags::{TagHandler, TagsOnly};
use html5sinks::text_runs::{TextRuns, TokenHandler};
use std::alloc::Allocator;

/// A token that can be written, serialized in Data where nothing is open, tells that token, wherever it stands and
/// whatever follows. A text tells its characters one by one, and any other token itself, without the mark that an
/// attribute was left out. It also tells errors, as the original may: they are not written. A tag leaves open what
/// the sink's reply says, and any other token nothing.
pub fn read_back<S: TokenSink<Token<A>>, A: Allocator>()
    ensures { (rules : Rules) (K : Start) (s : S.State) (token : Told) → IsTable rules.references → IsOpen K
        → HasTexts token → can_write token ≡ true → ReadsBack S.means rules K s token }
{}

/// Suppose that the sink keeps on after each tag, at once or after a pause. Then tokens that can be written, one
/// after another, tell these tokens, wherever they stand, and nothing is open after them. Read alone they tell that
/// and the end.
pub fn tokens<S: TokenSink<Token<A>>, A: Allocator>()
    ensures tells { (rules : Rules) (K : Start) (s : S.State) (tokens : List Told) → IsTable rules.references → IsOpen K
        → HaveTexts tokens → list_all can_write tokens ≡ true → KeepsOnAfterAll {S = S.State} S.means.reply tokens
        → ReadBack S.means rules K s tokens }
    ensures alone { (rules : Rules) (K : Start) (s : S.State) (tokens : List Told) → IsTable rules.references → IsOpen K
        → HaveTexts tokens → list_all can_write tokens ≡ true → KeepsOnAfterAll {S = S.State} S.means.reply tokens
        → proper (all_messages S.means rules K s (tokens_text tokens)) ≡ flat_map read_back tokens ++ End ∷ [] }
{}

/// Take the tokens that a text tells, and write them. If the sink keeps on after each tag, the output tells, except
/// for errors, exactly these tokens and the end. A text tells its characters one by one, a tag itself without the
/// mark that an attribute was left out. The first text may be read from any mode in which nothing is open. That the
/// texts of the tokens are UTF-8 is supposed: those of a program's tokens are.
pub fn read_again<S: TokenSink<Token<A>>, A: Allocator>()
    ensures { (rules : Rules) (K later : Start) (s t : S.State) (text : List ℕ) → IsTable rules.references
        → nothing_open K.opened ≡ true → IsOpen later
        → let tokens : List Told = tokens_of (all_messages S.means rules K s text) in
        HaveTexts tokens → KeepsOnAfterAll {S = S.State} S.means.reply tokens
        → proper (all_messages S.means rules later t (tokens_text tokens)) ≡ flat_map read_back tokens ++ End ∷ [] }
{}

/// Take raw text that can be written, serialized where raw text of that kind is read, and the end tag of its
/// element after it. They tell exactly its characters and the end tag, except for errors, whatever follows. The
/// sink's reply to the end tag says what is open after it.
pub fn raw_text<S: TokenSink<Token<A>>, A: Allocator>()
    ensures { (rules : Rules) (K : Start) (s : S.State) (kind : RawKind) (name text : List ℕ) → IsTable rules.references
        → IsOpenRaw K kind name → IsUtf8 text → can_write_raw kind name text ≡ true
        → ReadsRaw S.means rules K s kind name text }
{}

/// Parts of a page, each a token or a start tag with its raw text and its end tag, tell their tokens one after
/// another, and nothing is open after them. It is supposed that the sink asks for that kind of raw text after the
/// start tags with raw text, and keeps on after each other tag. Read alone they tell that and the end.
pub fn pages<S: TokenSink<Token<A>>, A: Allocator>()
    ensures tells { (rules : Rules) (K : Start) (s : S.State) (parts : List Part) → IsTable rules.references → IsOpen K
        → PartsHaveTexts parts → list_all can_write_part parts ≡ true → AsksForParts {S = S.State} S.means.reply parts
        → ReadsParts S.means rules K s parts }
    ensures alone { (rules : Rules) (K : Start) (s : S.State) (parts : List Part) → IsTable rules.references → IsOpen K
        → PartsHaveTexts parts → list_all can_write_part parts ≡ true → AsksForParts {S = S.State} S.means.reply parts
        → proper (all_messages S.means rules K s (parts_text parts)) ≡ flat_map part_read_back parts ++ End ∷ [] }
{}

/// Take the tokens that a text tells, read from Data on, to a sink that asks after each tag for what the standard's
/// elements ask for. Write them as a page: raw text in `script`, `style`, `textarea` and others as raw text, up to
/// its end tag, and the text after `plaintext` as plain text. Another sink that asks so, by rules of its own,
/// receives exactly these tokens and the end from that page, except for errors, whatever the text was. That holds
/// with scripting and without, if it is the same for both sinks and for the writer. If characters are escaped by
/// names, the reader's table must have these.
pub fn page_read_again<S: TokenSink<Token<A>>, R: TokenSink<Token<A>>, A: Allocator>()
    ensures { (options : PageOptions) (source rules : Rules) (K later : Start) (s : S.State) (t : R.State) (text : List ℕ)
        → IsTable source.references → IsTable rules.references → Reads options.escapes rules.references
        → K.opened ≡ Between Data → IsOpen later
        → AsksAsStandard {S = S.State} options.scripting S.means.reply → AsksAsStandard {S = R.State} options.scripting R.means.reply
        → let tokens : List Told = tokens_of (all_messages S.means source K s text) in
        HaveTexts tokens
        → proper (all_messages R.means rules later t (page_text options tokens)) ≡ flat_map read_back tokens ++ End ∷ [] }
{}

/// The sinks of tags and of runs of text ask for what the standard's elements ask for without scripting, whatever
/// their handlers, where these leave the replies to the standard. A `ScriptingSink` asks for what they ask for with
/// scripting, whatever its sink. So pages that such a sink is sent can be written as `page_read_again` says.
pub fn standard_sinks<
    T: TagHandler<Tag<A>>,
    H: TokenHandler<Token<A>>,
    S: TokenSink<Token<A>>,
    A: Allocator,
>()
    ensures tags { AsksAsStandard false ⟦<TagsOnly<T> as TokenSink<Token<A>>>⟧.means.reply }
    ensures runs { AsksAsStandard false ⟦<TextRuns<H, A> as TokenSink<Token<A>>>⟧.means.reply }
    ensures scripting { AsksAsStandard true ⟦<ScriptingSink<S> as TokenSink<Token<A>>>⟧.means.reply }
{}

/// Raw text is refused for some reason exactly if it can't be written.
pub fn raw_refusals()
    ensures { (kind : RawKind) (name text : List ℕ) → is_none (raw_refusal kind name text) ≡ can_write_raw kind name text }
{}

/// Each token that a text tells can be written, by any table of references and for any sink, when nothing was open
/// before it. So can those of the end, and those that are read in raw text or in foreign content.
pub fn each_token<S: TokenSink<Token<A>>, A: Allocator>()
    ensures { (rules : Rules) (K : Start) (s : S.State) (text : List ℕ) → IsTable rules.references
        → nothing_open K.opened ≡ true
        → All (λ m. can_write m.token ≡ true) (all_messages S.means rules K s text) }
{}

/// A token is refused for some reason exactly if it can't be written.
pub fn refusals()
    ensures { (token : Told) → is_none (refusal_of token) ≡ can_write token }
{}

/// The texts of a program's token are UTF-8. It does nothing at run time.
pub fn has_texts<A: Allocator>(token: &Token<A>)
    ensures { HasTexts (told_by token.now) }
{
    let _token = token;
}
