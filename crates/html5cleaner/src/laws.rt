//! How a cleaned page is read.
ghost use Rattle.std.specs.Prelude.{◌≡◌, ◌||◌, ℕ, ◌*◌, ◌≤◌, Bool, length, List, [], ◌∷◌, ◌++◌, Option, Ok, IfSome, false, filter, true};
ghost use Rattle.std.specs.List.{list_all};
ghost use Rattle.html5ever_interface.specs.Sink.{Message};
ghost use Rattle.html5ever_interface.specs.Token.{Told};
ghost use Rattle.html5ever_interface.specs.Token.Told.{End};
ghost use Rattle.html5reading.specs.Reading.{all_messages};
ghost use Rattle.html5reading.specs.Start.{Input, Start, Rules};
ghost use Rattle.markup5ever.specs.NamedReferences.{IsTable, NamedReference};
ghost use Rattle.html5write.specs.Pieces.{Piece, pieces_text};
ghost use Rattle.html5grammar.specs.Anywhere.{TellsByItself};
ghost use Rattle.html5nested.specs.PageItems.{items_of, items_told};
ghost use Rattle.html5tree.specs.Construction.{parsed, tree_in, tree_of};
ghost use Rattle.html5tree.specs.Fitting.{all_fit};
ghost use Rattle.html5tree.specs.Hosts.{IsBack, IsHost, put_at, suits};
ghost use Rattle.html5tree.specs.Items.{keeps_newlines, read_items};
ghost use Rattle.html5tree.specs.Keeping.{Keeps};
ghost use Rattle.html5tree.specs.Normal.{stays_within};
ghost use Rattle.html5tree.specs.Page.{names};
ghost use Rattle.html5tree.specs.Parser.{Parser};
ghost use Rattle.html5tree.specs.Tree.{Path, nesting, whole};
ghost use Rattle.html5write.specs.Told.{IsOpen, KeepsOn, pieces_messages, pieces_tokens, proper, start_after_pieces};
ghost use Rattle.html5policy.specs.Addresses.{is_safe_address};
ghost use Rattle.html5policy.specs.Names.{runs_address};
ghost use Rattle.html5policy.specs.Policy.{PolicyOf};
ghost use Rattle.html5policy.specs.Rules.{IsSound};
ghost use Rattle.html5cleaner.specs.Allowed.{is_clean};
ghost use Rattle.html5cleaner.specs.Balance.{AreClean, is_nested, is_no_end_tag, with_depth, without_balance, without_tree};
ghost use Rattle.html5cleaner.specs.Urls.{HasSafeScheme};
ghost use Rattle.html5cleaner.specs.Clean.{Cleaned, at_start, clean_step};
ghost use Rattle.html5cleaner.specs.Cleaning as cleaning;
ghost use Rattle.html5cleaner.specs.Cleaning.{Standing, kept_of_page, page_bytes, printed_and_closed, printed_of};
ghost use Rattle.html5cleaner.specs.Reading.{IsReadBackClean, is_allowed_token};
ghost use Rattle.html5sinks.specs.Replies.{FollowsStandard};
ghost use Rattle.url.specs.Parser.{parse_url};
ghost use Rattle.url.specs.Parts.{Parts};

use html5ever_interface::interface::sink::TokenSink;
use html5ever_interface::interface::token::Token;
use html5nested::laws::{fitting_pieces_are_markup, tree_of_written_page, tree_of_written_part};
use html5sinks::text_runs::{TextRuns, TokenHandler};
use html5tree::laws::fits_in_host;
use html5write::laws::{all_pieces, whole_text};
use std::alloc::Allocator;

/// By each policy a page of clean pieces is read, except for errors, as exactly these pieces and the end. The table may
/// be any, and the sink any that keeps on after their tags, at once or after a pause. Each of their tokens is allowed:
/// text, or a tag of an allowed element, with attributes that are kept and addresses that are safe.
pub fn cleaned_page<S: TokenSink<Token<A>>, A: Allocator>()
    ensures tokens { (policy : PolicyOf) (rules : Rules) (K : Start) (s : S.State) (pieces : List Piece)
        → IsReadBackClean {S = S.State} policy rules K S.means.reply pieces
        → proper (all_messages S.means rules K s (pieces_text pieces)) ≡ pieces_tokens pieces ++ End ∷ [] }
    ensures allowed { (policy : PolicyOf) (rules : Rules) (K : Start) (s : S.State) (pieces : List Piece)
        → IsReadBackClean {S = S.State} policy rules K S.means.reply pieces
        → list_all (is_allowed_token policy) (proper (all_messages S.means rules K s (pieces_text pieces))) ≡ true }
{
    whole_text::<S, A>();
}

/// Wherever it is put in a page, in Data and with no CR directly before it, such a page tells its pieces. It leaves
/// nothing open: the text after it is read as it would be without it.
pub fn cleaned_part<S: TokenSink<Token<A>>, A: Allocator>()
    ensures { (policy : PolicyOf) (rules : Rules) (K : Start) (s : S.State) (pieces : List Piece)
        → IsReadBackClean {S = S.State} policy rules K S.means.reply pieces
        → TellsByItself S.means rules K s (pieces_text pieces) (pieces_messages rules.exact K.input pieces)
        (start_after_pieces K pieces) }
{
    all_pieces::<S, A>();
}

/// Where a policy is sound, as each that is made is, a sink that follows the standard keeps on after all
/// tags of clean pieces.
pub fn clean_pieces_are_markup<S: TokenSink<Token<A>>, A: Allocator>()
    ensures { (policy : PolicyOf) (pieces : List Piece) → IsSound policy → list_all (is_clean policy) pieces ≡ true
        → FollowsStandard {S = S.State} S.means.reply → KeepsOn {S = S.State} S.means.reply pieces }
{}

/// The pieces that were written are clean, after each run of text and token, and so are the end tags of
/// the elements that are open. By the rule `tree` this supposes that the policy is sound, as each that is made is:
/// it keeps the elements that are opened in a table.
pub fn kept_pieces_are_clean()
    ensures starts { (policy : PolicyOf) → AreClean policy (at_start policy).pieces (at_start policy).opened }
    ensures stay { (s : Cleaned) (run : List ℕ) (told : Told) (line : ℕ) → (s.policy.tree ≡ true → IsSound s.policy)
        → AreClean s.policy s.pieces s.opened
        → AreClean s.policy (clean_step s run told line).pieces (clean_step s run told line).opened }
{}

/// By a policy that balances, or makes a tree, each end tag of a page closes the innermost open element, and at
/// the end of the page none is open. One that balances, and makes no tree, writes what the same policy without the
/// rule writes, except for end tags.
pub fn balanced_page()
    ensures nested { (policy : PolicyOf) (references : List NamedReference) (text : List ℕ)
        → (policy.balance || policy.tree) ≡ true
        → is_nested [] (kept_of_page policy references text) ≡ true }
    ensures others { (policy : PolicyOf) (references : List NamedReference) (text : List ℕ) → policy.tree ≡ false →
        filter is_no_end_tag (kept_of_page policy references text)
        ≡ filter is_no_end_tag (kept_of_page (without_balance policy) references text) }
{}

/// By a policy with the rule `tree` each page fits at every item (`fits`), with no more elements open than the policy's
/// depth (`within`). So the tree that is built of the page's messages, read by any table and a sink that follows the
/// standard, is the nesting of its pieces (`tree`). Their tags and texts, as `cleaned_page` says, are the policy's. A
/// newline straight after the start tag of a `pre` is ignored, as tree construction does (`read_items`).
pub fn tree_of_cleaned_page<S: TokenSink<Token<A>>, A: Allocator>()
    ensures fits { (policy : PolicyOf) (references : List NamedReference) (text : List ℕ) → policy.tree ≡ true
        → all_fit [] (items_of (kept_of_page policy references text)) ≡ true }
    ensures within { (policy : PolicyOf) (references : List NamedReference) (text : List ℕ) → policy.tree ≡ true
        → stays_within policy.depth [] (items_of (kept_of_page policy references text)) ≡ true }
    ensures tree { (policy : PolicyOf) (references : List NamedReference) (text : List ℕ) (rules : Rules) (K : Start) (s : S.State)
        → policy.tree ≡ true → IsSound policy → IsTable rules.references → IsOpen K
        → FollowsStandard {S = S.State} S.means.reply
        → tree_of (items_told (proper (all_messages S.means rules K s (pieces_text (kept_of_page policy references text)))))
        ≡ nesting (read_items false (items_of (kept_of_page policy references text))) }
{
    tree_of_written_page::<S, A>();
    fitting_pieces_are_markup::<S, A>();
}

/// Such a page that is put into a host (`IsHost`), wherever it is read in Data with no CR directly before (`cleaned_part`
/// says what it tells there). If it suits the host (`suits`), it is built in place, as its pieces are nested. A newline
/// straight after the start tag of a `pre` is ignored (`as_read`); without one it is built as it stands (`in_place`). It
/// leaves the host's open elements, insertion mode, form element pointer and foster parenting as they were (`back`). Each
/// page suits a flow host, such as a `div` or a cell that stands in no form (`html5tree::laws::flow_hosts`).
pub fn cleaned_page_in_host()
    ensures in_place { (policy : PolicyOf) (references : List NamedReference) (text : List ℕ) (exact : Bool) (input : Input)
        (fresh : Bool) (p : Parser) (path : Path) → policy.tree ≡ true → IsHost p path
        → suits (names p.page.opened) (items_of (kept_of_page policy references text)) ≡ true
        → keeps_newlines fresh (items_of (kept_of_page policy references text)) ≡ true
        → tree_in (parsed fresh p (items_told (proper (pieces_messages exact input (kept_of_page policy references text)))))
        ≡ whole (put_at path (nesting (items_of (kept_of_page policy references text)))) }
    ensures as_read { (policy : PolicyOf) (references : List NamedReference) (text : List ℕ) (exact : Bool) (input : Input)
        (fresh : Bool) (p : Parser) (path : Path) → policy.tree ≡ true → IsHost p path
        → suits (names p.page.opened) (items_of (kept_of_page policy references text)) ≡ true
        → tree_in (parsed fresh p (items_told (proper (pieces_messages exact input (kept_of_page policy references text)))))
        ≡ whole (put_at path (nesting (read_items fresh (items_of (kept_of_page policy references text))))) }
    ensures back { (policy : PolicyOf) (references : List NamedReference) (text : List ℕ) (exact : Bool) (input : Input)
        (fresh : Bool) (p : Parser) (path : Path) → policy.tree ≡ true → IsHost p path
        → suits (names p.page.opened) (items_of (kept_of_page policy references text)) ≡ true
        → IsBack p (parsed fresh p (items_told (proper (pieces_messages exact input (kept_of_page policy references text))))) }
{
    tree_of_written_part();
    fits_in_host();
}

/// What the rule `tree` leaves out of what the same policy keeps without it, and what it adds (`Keeps`, of html5tree).
/// All text is kept, and each start tag with its attributes, in one order. A start tag is left out only if it has no
/// place (`has_place`): a part of a table outside one, or a form in another or straight in a table. End tags come and
/// go. Start tags of `tbody`, `tr`, `colgroup`, `td`, `p` and `br` are added, without attributes. That is so where
/// nowhere more elements would be open than the policy's depth, if any number could be, such as eight for each piece
/// (`all`). Of any page a start tag may be left out, too, and of its text what is no white space (`some`).
pub fn kept_in_tree()
    ensures all { (policy : PolicyOf) (references : List NamedReference) (text : List ℕ) (more : ℕ) → policy.tree ≡ true
        → policy.depth ≤ more → 8 * length (items_of (kept_of_page (without_tree policy) references text)) ≤ more
        → stays_within policy.depth [] (items_of (kept_of_page (with_depth more policy) references text)) ≡ true
        → Keeps true [] (items_of (kept_of_page (without_tree policy) references text)) (items_of (kept_of_page policy references text)) }
    ensures some { (policy : PolicyOf) (references : List NamedReference) (text : List ℕ) → policy.tree ≡ true
        → Keeps false [] (items_of (kept_of_page (without_tree policy) references text)) (items_of (kept_of_page policy references text)) }
{}

/// Cleaning twice by a policy changes nothing, whatever the table of each reading: what was kept of a text
/// is kept again to the byte. Of the output for a page, or for a prefix of it, the same is printed again, and then the
/// end tags of the elements still open there. There are none of a whole page, and none by a policy that neither
/// balances nor makes a tree.
pub fn cleaning_twice()
    ensures text { (policy : PolicyOf) (references others : List NamedReference) (text : List ℕ) → IsSound policy
        → IsTable others → page_bytes (kept_of_page policy others (page_bytes (kept_of_page policy references text)))
        ≡ page_bytes (kept_of_page policy references text) }
    ensures printed { (s : Standing) (references : List NamedReference) (M : List Message) → IsSound s.policy
        → IsTable references → printed_of s (cleaning.page_messages references s
        (printed_of (record { policy = s.policy; printed = [] }) M).printed) ≡ printed_and_closed s M }
    ensures whole { (s : Standing) (references : List NamedReference) (bytes : List ℕ) →
        printed_and_closed s (cleaning.page_messages references s bytes) ≡ printed_of s (cleaning.page_messages references s bytes) }
    ensures not_balanced { (s : Standing) (M : List Message) → s.policy.tree ≡ false → s.policy.balance ≡ false
        → printed_and_closed s M ≡ printed_of s M }
{}

/// Where an address that is kept leads, by the URL Standard's parser and from whatever base: to a URL of one
/// of the policy's schemes, or of the base's scheme. Where the base's runs nothing, neither does the URL's.
pub fn safe_addresses()
    ensures scheme { (policy : PolicyOf) (address : List ℕ) (base : Option Parts) (url : Parts) → IsSound policy
        → is_safe_address policy.schemes address ≡ true → parse_url base address ≡ Ok url
        → HasSafeScheme policy.schemes base url.scheme }
    ensures runs_nothing { (policy : PolicyOf) (address : List ℕ) (base : Option Parts) (url : Parts) → IsSound policy
        → is_safe_address policy.schemes address ≡ true → parse_url base address ≡ Ok url
        → IfSome base (λ b. runs_address b.scheme ≡ false) → runs_address url.scheme ≡ false }
{}

/// A sink of runs of text keeps on where the standard does, whatever its handler: so a reading by any
/// `TokenHandler` is such a reading.
pub fn runs_follow_the_standard<H: TokenHandler<Token<A>>, A: Allocator>()
    ensures { FollowsStandard ⟦<TextRuns<H, A> as TokenSink<Token<A>>>⟧.means.reply }
{}
