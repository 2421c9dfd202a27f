//! The words of the grammar, and what a text tells, by slices of the whole text. The definitions are in
//! specs/; here are the laws that readers of a text in pieces rest on.
//!
//! Internal to `html5ever`: it has no code that runs. Contracts of that crate cite its words.
#![tactic(auto)]

ghost use Rattle.std.specs.Prelude.{◌≡◌, ◌≢◌, ℕ, List, [], ◌++◌, All, length, take_while, true, None, Some, if◌then◌else◌};
ghost use Rattle.std.specs.Char.{is_ascii_alphanumeric};
ghost use Rattle.std.specs.Option.{is_none};
ghost use Rattle.html5ever_interface.specs.Sink.{Message};
ghost use Rattle.html5reading.specs.Reading.{reading, told, is_among, all_messages, messages_so_far, state_after, start_after};
ghost use Rattle.html5reading.specs.Lawful.{IsLawful, TellsNoTagAfter};
ghost use Rattle.html5reading.specs.Characters.{number_sign};
ghost use Rattle.html5reading.specs.NormalisedText.{normalised};
ghost use Rattle.html5reading.specs.Reference.{first_or, is_undecided, longest_name};
ghost use Rattle.html5reading.specs.Slice.{run_of, run_while};
ghost use Rattle.html5reading.specs.Start.{Start, Rules, nothing_open};
ghost use Rattle.markup5ever.specs.NamedReferences.{NamedReference, IsTable, begins_name};

use html5ever_interface::interface::sink::TokenSink;
use html5ever_interface::interface::token::Token;
use std::alloc::Allocator;

/// Forgetting: what a text tells is what its first part tells, and then what its rest tells. The rest
/// is read from the start after the first part, in the state of the sink that this part leaves. So,
/// wherever a text is cut, a reader may forget all but that start.
pub fn forgetting<S: TokenSink<Token<A>>, A: Allocator>()
    ensures told { (rules : Rules) (K : Start) (s : S.State) (text rest : List ℕ) →
        messages_so_far S.means rules K s (text ++ rest)
        ≡ messages_so_far S.means rules K s text
        ++ messages_so_far S.means rules (start_after S.means rules K s text)
        (state_after S.means rules K s text) rest }
    ensures after { (rules : Rules) (K : Start) (s : S.State) (text rest : List ℕ) →
        start_after S.means rules K s (text ++ rest)
        ≡ start_after S.means rules (start_after S.means rules K s text)
        (state_after S.means rules K s text) rest }
{}

/// What the sink is sent of a text is a prefix of what it is sent of that text and more.
pub fn beginning<S: TokenSink<Token<A>>, A: Allocator>()
    ensures { (rules : Rules) (K : Start) (s : S.State) (text rest : List ℕ) → (later : List Message)
        × (messages_so_far S.means rules K s (text ++ rest)
        ≡ messages_so_far S.means rules K s text ++ later) }
{}

/// What the sink is sent of a text, however that goes on. Of the reading of the whole it is the events
/// before the first one that a character after the text decides, or the end.
pub fn told_of_a_split<S: TokenSink<Token<A>>, A: Allocator>()
    ensures { (rules : Rules) (K : Start) (s : S.State) (text more : List ℕ) →
        told S.means.step S.means.reply S.means.foreign rules K s text
        ≡ take_while (λ e. is_among (length (normalised K.input text)) e.decided_by)
        (reading S.means.step S.means.reply S.means.foreign rules K s (text ++ more)) }
{}

/// Names after an `&` that no `#` follows. When a reference is decided, the longest name that begins
/// the held text is the longest that begins the whole text. By a table the held text is the longest
/// prefix of the text that begins a name. When no name begins the text, it is the text's letters and
/// digits up to another character.
pub fn longest_name_of_text()
    ensures name { (references : List NamedReference) (text : List ℕ) → first_or text None ≢ Some number_sign →
        longest_name references (run_while (is_undecided references) [] text) ≡ longest_name references text }
    ensures held { (references : List NamedReference) (text : List ℕ) → IsTable references
        → first_or text None ≢ Some number_sign →
        run_while (is_undecided references) [] text
        ≡ (if is_none (longest_name references text) then run_of is_ascii_alphanumeric text
        else run_while (begins_name references) [] text) }
{}

/// A tag that the end of input cuts off is never sent: what the end decides and tells has no tag.
pub fn tags_cut_off<S: TokenSink<Token<A>>, A: Allocator>()
    ensures { (rules : Rules) (K : Start) (s : S.State) (text : List ℕ) →
        TellsNoTagAfter (messages_so_far S.means rules K s text) (all_messages S.means rules K s text) }
{}

/// By a table of names each token that a text tells is lawful, when nothing was open before it. A
/// text has no NUL. A tag's name begins with a letter, its names have no capital, and no attribute
/// comes twice. A doctype's name has no capital.
pub fn lawful_tokens<S: TokenSink<Token<A>>, A: Allocator>()
    ensures { (rules : Rules) (K : Start) (s : S.State) (text : List ℕ) → IsTable rules.references → nothing_open K.opened
        ≡ true →
        All (λ m. IsLawful m.token) (all_messages S.means rules K s text) }
{}
