//! What a browser builds of items that fit is the tree that their tags show.
ghost use Rattle.std.specs.Prelude.{◌≡◌, ℕ, ◌+◌, ◌*◌, ◌≤◌, Bool, List, [], ◌∷◌, ◌++◌, false, length, not, true};
ghost use Rattle.html5tree.specs.Construction.{parsed, tree_in, tree_of};
ghost use Rattle.html5tree.specs.Fitting.{all_fit, all_open_after, each_fits, fits, none_near, open_after};
ghost use Rattle.html5tree.specs.Hosts.{IsBack, IsHost, allows, closes_paragraph, is_flow_host, is_neutral, put_at, suits};
ghost use Rattle.html5tree.specs.Items.{Attribute, Item, balanced, keeps_newlines, read_items, whole_texts};
ghost use Rattle.html5tree.specs.declared.kinds.Kind.{Kind};
ghost use Rattle.html5tree.specs.declared.kinds.Kind.TheVariants.{Anchor, ListItem, Paragraph, Unknown};
ghost use Rattle.html5tree.specs.Items.Item.{EndTag, StartTag};
ghost use Rattle.html5tree.specs.Keeping.{EndsWith, Keeps, has_place};
ghost use Rattle.html5tree.specs.Names.{has_marker, is_anchor, is_form, is_list_item, kind_of, no_kind};
ghost use Rattle.html5tree.specs.Normal.{IsReady, fitted, normal, open_after_fitted, stays_within};
ghost use Rattle.html5tree.specs.Page.{names};
ghost use Rattle.html5tree.specs.Parser.{Parser, start_parser};
ghost use Rattle.html5tree.specs.Tree.{Path, empty_path, nested, nesting, whole};

/// What tree construction builds of items that all fit, from no open elements to none, is their nesting.
/// `tree_of` is that of a fragment in a `div`, in a document that is not in quirks mode: what a browser
/// makes of `div.innerHTML`. `all_fit` (specs/Fitting) asks of each item that it fits where it stands, by the
/// names of the elements that are open; crates/html5tree/README.md has its table.
///
/// Texts may be empty, and stand side by side: they are read as the whole texts that they make. A newline
/// straight after the start tag of a `pre` or a `listing` is ignored by tree construction. `nesting` supposes
/// that there is none (`keeps_newlines`), and `without_newlines` says what is built if there is.
///
/// Items speak of the 94 elements of specs/Names alone. Elements of other names never fit: foreign content,
/// scripts, raw text, templates, frames, `select`, and the elements of a head are among them.
pub fn tree_of_fitting()
    ensures nesting { (items : List Item) → all_fit [] items ≡ true → keeps_newlines false items ≡ true
        → tree_of items ≡ nesting items }
    ensures without_newlines { (items : List Item) → all_fit [] items ≡ true
        → tree_of items ≡ nesting (read_items false items) }
{}

/// The same in a host: open elements, of these names too, which stay open (`IsHost`). Items that fit above them,
/// each by all names that are open, leave a parser that is a host again, whose tree is that of the items nested
/// there (`host`). Where they close all that they open, and nothing else (`balanced`), the open elements, the
/// insertion mode, the form element pointer and foster parenting are afterwards what they were (`back`). The document
/// is what it was, with the nesting of the items at the end of the innermost open element. They are as they are read
/// (`as_read`), or as they stand if no newline is ignored (`in_place`). Of the list of active formatting elements
/// `host` says that no entry has to be opened again.
///
/// `fresh` says whether the start tag of a `pre` or a `listing` stands straight before the items. Where the
/// innermost open element is a table, or a part of one that holds parts, no text may stand straight before
/// or after the items: there a text is read whole.
///
/// The parser with which a fragment begins is a host (`first`), and so is each that follows from a host.
pub fn tree_of_fitting_in_host()
    ensures host { (fresh : Bool) (p : Parser) (path : Path) (items : List Item) → IsHost p path
        → each_fits (names p.page.opened) items ≡ true
        → IsHost (parsed fresh p items) (nested path (read_items fresh items)) }
    ensures back { (fresh : Bool) (p : Parser) (path : Path) (items : List Item) → IsHost p path
        → each_fits (names p.page.opened) items ≡ true → balanced 0 items ≡ true
        → IsBack p (parsed fresh p items) }
    ensures in_place { (fresh : Bool) (p : Parser) (path : Path) (items : List Item) → IsHost p path
        → each_fits (names p.page.opened) items ≡ true → balanced 0 items ≡ true
        → keeps_newlines fresh items ≡ true
        → tree_in (parsed fresh p items) ≡ whole (put_at path (nesting items)) }
    ensures as_read { (fresh : Bool) (p : Parser) (path : Path) (items : List Item) → IsHost p path
        → each_fits (names p.page.opened) items ≡ true → balanced 0 items ≡ true
        → tree_in (parsed fresh p items) ≡ whole (put_at path (nesting (read_items fresh items))) }
    ensures first { IsHost start_parser empty_path }
{}

/// Which items fit in a host: those that fit by themselves, where it suits them (`suits`). That is, text can
/// stand in the host, and no element that bounds one of theirs is near in it. So a fragment that fits by
/// itself fits there (`fragment`), and is balanced (`balanced`). What fits above some open elements fits
/// above them in such a host, too (`within`): in a `li` of a list, say, what fits above `li` alone. A flow
/// host suits all items (`flow_host`).
pub fn fits_in_host()
    ensures fragment { (stack : List (List ℕ)) (items : List Item) → suits stack items ≡ true
        → all_fit [] items ≡ true → each_fits stack items ≡ true }
    ensures balanced { (items : List Item) → all_fit [] items ≡ true → balanced 0 items ≡ true }
    ensures within { (inner stack : List (List ℕ)) (items : List Item) → suits stack items ≡ true
        → each_fits inner items ≡ true → each_fits (inner ++ stack) items ≡ true }
    ensures flow_host { (stack : List (List ℕ)) (items : List Item) → is_flow_host stack ≡ true
        → suits stack items ≡ true }
{}

/// Which hosts are flow hosts. One with nothing open. A cell or a caption, if no form is open outside it. An element in
/// a flow host that changes nothing, such as a `div`, a `section`, a `ul`, a `span` or a `b` (`is_neutral`).
pub fn flow_hosts()
    ensures nothing_open { is_flow_host [] ≡ true }
    ensures cell { (name : List ℕ) (stack : List (List ℕ)) → has_marker (kind_of name) ≡ true
        → none_near is_form no_kind stack ≡ true → is_flow_host (name ∷ stack) ≡ true }
    ensures neutral { (name : List ℕ) (stack : List (List ℕ)) → is_neutral (kind_of name) ≡ true
        → is_flow_host stack ≡ true → is_flow_host (name ∷ stack) ≡ true }
{}

/// What a `p`, an `a` and a `li` allow in a flow host: all but what would close them.
pub fn narrow_hosts()
    ensures paragraph { (k : Kind) (name : List ℕ) (stack : List (List ℕ)) → kind_of name ≡ Paragraph
        → is_flow_host stack ≡ true → allows (name ∷ stack) k ≡ not (closes_paragraph k) }
    ensures anchor { (k : Kind) (name : List ℕ) (stack : List (List ℕ)) → kind_of name ≡ Anchor
        → is_flow_host stack ≡ true → allows (name ∷ stack) k ≡ not (is_anchor k) }
    ensures list_item { (k : Kind) (name : List ℕ) (stack : List (List ℕ)) → kind_of name ≡ ListItem
        → is_flow_host stack ≡ true → allows (name ∷ stack) k ≡ not (is_list_item k) }
{}

/// What the normaliser makes of items (`normal`, specs/Normal), with a limit of how many elements may be open. It
/// all fits, and leaves no element open (`fits`); nowhere are more elements open than the limit (`within`). So
/// tree construction builds it with the same nesting (`tree`). Items of which this holds already are not changed
/// (`unchanged`): made normal twice they are as once (`twice`). At most eight items are written for each
/// that is read (`bound`).
///
/// How a text is cut into pieces, and where empty ones stand, changes nothing once pieces that stand together
/// are read as one (`cut`). A newline straight after the start tag of a `pre` or a `listing` stays where it is.
pub fn normal_items()
    ensures fits { (limit : ℕ) (items : List Item) → all_fit [] (normal limit items) ≡ true }
    ensures within { (limit : ℕ) (items : List Item) → stays_within limit [] (normal limit items) ≡ true }
    ensures tree { (limit : ℕ) (items : List Item)
        → tree_of (normal limit items) ≡ nesting (read_items false (normal limit items)) }
    ensures unchanged { (limit : ℕ) (items : List Item) → all_fit [] items ≡ true
        → stays_within limit [] items ≡ true → normal limit items ≡ items }
    ensures twice { (limit : ℕ) (items : List Item) → normal limit (normal limit items) ≡ normal limit items }
    ensures bound { (limit : ℕ) (items : List Item) → length (normal limit items) ≤ 8 * length items }
    ensures cut { (limit : ℕ) (items others : List Item) → whole_texts items ≡ whole_texts others
        → whole_texts (normal limit items) ≡ whole_texts (normal limit others) }
{}

/// What the normaliser keeps of items, and what it adds (`Keeps`, specs/Keeping). It writes a part for each item, in
/// their order. The part has all characters of a text, or the start tag with all its attributes; end tags come and go.
/// A start tag is left out exactly if it has no place (`has_place`). That is a part of a table outside one, a form
/// in another, and a tag of other names than the 94. Added are start tags of `tbody`, `tr`, `colgroup`, `td`, `p` and
/// `br` alone, without attributes. That is so where eight elements may be open for each item (`all`). By any limit a
/// start tag may be left out, too, and of a text what is not white space (`some`). When no more elements would be open
/// than the limit, if more could be, the limit changes nothing (`not_reached`).
pub fn kept_items()
    ensures some { (limit : ℕ) (items : List Item) → Keeps false [] items (normal limit items) }
    ensures all { (limit : ℕ) (items : List Item) → 8 * length items ≤ limit → Keeps true [] items (normal limit items) }
    ensures not_reached { (limit more : ℕ) (items : List Item) → limit ≤ more
        → stays_within limit [] (normal more items) ≡ true → normal limit items ≡ normal more items }
{}

/// The same of one item, above the names of the open elements. Its output fits there (`fits`), with no more elements
/// open than the limit (`within`), and leaves these open (`after`). An item that fits is written as it is
/// (`unchanged`). What is written, and the end tags of what is open then, are at most eight items more than the end
/// tags before (`bound`). Of a tag of another name than the 94 nothing is written (`unknown_start`, `unknown_end`). Of
/// a start tag that has no place there (`has_place`, specs/Keeping) nothing is written, and no element is closed
/// (`no_place`). One that has a place is written as it is, as the last item, where eight elements more may be open
/// (`place`). Open elements that each fit where they stand, no more than the limit, are so afterwards (`ready`), and at
/// first (`first`).
pub fn normal_item()
    ensures first { (limit : ℕ) → IsReady limit [] }
    ensures ready { (limit : ℕ) (stack : List (List ℕ)) (item : Item) → IsReady limit stack
        → IsReady limit (open_after_fitted limit stack item) }
    ensures fits { (limit : ℕ) (stack : List (List ℕ)) (item : Item) → IsReady limit stack
        → each_fits stack (fitted limit stack item) ≡ true }
    ensures within { (limit : ℕ) (stack : List (List ℕ)) (item : Item) → IsReady limit stack
        → stays_within limit stack (fitted limit stack item) ≡ true }
    ensures after { (limit : ℕ) (stack : List (List ℕ)) (item : Item) → IsReady limit stack
        → all_open_after stack (fitted limit stack item) ≡ open_after_fitted limit stack item }
    ensures unchanged { (limit : ℕ) (stack : List (List ℕ)) (item : Item) → fits stack item ≡ true
        → length (open_after stack item) ≤ limit → fitted limit stack item ≡ item ∷ [] }
    ensures bound { (limit : ℕ) (stack : List (List ℕ)) (item : Item)
        → length (fitted limit stack item) + length (open_after_fitted limit stack item) ≤ 8 + length stack }
    ensures unknown_start { (limit : ℕ) (stack : List (List ℕ)) (name : List ℕ) (attributes : List Attribute)
        → kind_of name ≡ Unknown → fitted limit stack (StartTag name attributes) ≡ [] }
    ensures unknown_end { (limit : ℕ) (stack : List (List ℕ)) (name : List ℕ) → IsReady limit stack
        → kind_of name ≡ Unknown → fitted limit stack (EndTag name) ≡ [] }
    ensures no_place { (limit : ℕ) (stack : List (List ℕ)) (name : List ℕ) (attributes : List Attribute)
        → has_place (kind_of name) stack ≡ false → fitted limit stack (StartTag name attributes) ≡ [] }
    ensures place { (limit : ℕ) (stack : List (List ℕ)) (name : List ℕ) (attributes : List Attribute)
        → has_place (kind_of name) stack ≡ true → 8 + length stack ≤ limit
        → EndsWith (fitted limit stack (StartTag name attributes)) (StartTag name attributes) }
{}
