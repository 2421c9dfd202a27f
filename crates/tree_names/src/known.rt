//! Names of elements as small numbers: those that the rows of tree construction know.
ghost use Rattle.std.specs.Prelude.{◌≡◌, ℕ, ◌<◌, List, [], ◌∷◌, length, map, nat_lt, slice_index, codes, true, IfNone, IfSome};
ghost use Rattle.std.specs.List.{list_all};
ghost use Rattle.std.specs.Str.{bytes_eq};
ghost use Rattle.tree_construction.specs.Names.{kind_of};
ghost use Rattle.tree_construction.specs.declared.kinds.Kind.TheVariants.{Ordinary};
ghost use Rattle.tree_names.specs.Slots.{finds_all, known_names, name_at, slot_of};

use tree_construction::kinds::Kind;

// How many names there are.
const COUNT: usize = 115;

// How many slots there are.
const SLOTS: usize = 512;

// The names, in the order of the table of kinds.
static NAMES: [&str; COUNT] = [
    "html",
    "head",
    "body",
    "title",
    "base",
    "basefont",
    "bgsound",
    "link",
    "meta",
    "style",
    "script",
    "noscript",
    "noframes",
    "template",
    "frameset",
    "frame",
    "p",
    "address",
    "div",
    "blockquote",
    "center",
    "dl",
    "menu",
    "article",
    "aside",
    "details",
    "dir",
    "figcaption",
    "figure",
    "footer",
    "header",
    "hgroup",
    "main",
    "nav",
    "search",
    "section",
    "summary",
    "dialog",
    "fieldset",
    "ol",
    "ul",
    "li",
    "dd",
    "dt",
    "h1",
    "h2",
    "h3",
    "h4",
    "h5",
    "h6",
    "listing",
    "pre",
    "form",
    "button",
    "a",
    "nobr",
    "font",
    "b",
    "big",
    "code",
    "em",
    "i",
    "s",
    "small",
    "strike",
    "strong",
    "tt",
    "u",
    "span",
    "sub",
    "sup",
    "var",
    "ruby",
    "rb",
    "rtc",
    "rp",
    "rt",
    "applet",
    "marquee",
    "object",
    "table",
    "caption",
    "colgroup",
    "col",
    "tbody",
    "tfoot",
    "thead",
    "tr",
    "td",
    "th",
    "area",
    "keygen",
    "wbr",
    "br",
    "embed",
    "img",
    "image",
    "input",
    "param",
    "source",
    "track",
    "hr",
    "textarea",
    "xmp",
    "iframe",
    "noembed",
    "plaintext",
    "select",
    "option",
    "optgroup",
    "output",
    "math",
    "svg",
    "malignmark",
    "mglyph",
];

// The same, as a contract sees them.
#[inline(always)]
fn all_names() -> &'static [&'static str; COUNT]
    ensures { map (λ name. name.now) result.now ≡ known_names }
{
    &NAMES
}

// Their kinds.
static KINDS: [Kind; COUNT] = [
    Kind::HtmlRoot,
    Kind::Head,
    Kind::Body,
    Kind::Title,
    Kind::Base,
    Kind::Link,
    Kind::Link,
    Kind::Link,
    Kind::Meta,
    Kind::Style,
    Kind::Script,
    Kind::Noscript,
    Kind::Noframes,
    Kind::Template,
    Kind::Frameset,
    Kind::Frame,
    Kind::Paragraph,
    Kind::Address,
    Kind::Division,
    Kind::BreakoutBlock,
    Kind::BreakoutBlock,
    Kind::BreakoutBlock,
    Kind::BreakoutBlock,
    Kind::Block,
    Kind::Block,
    Kind::Block,
    Kind::Block,
    Kind::Block,
    Kind::Block,
    Kind::Block,
    Kind::Block,
    Kind::Block,
    Kind::Block,
    Kind::Block,
    Kind::Block,
    Kind::Block,
    Kind::Block,
    Kind::Dialog,
    Kind::Fieldset,
    Kind::ListBlock,
    Kind::ListBlock,
    Kind::ListItem,
    Kind::Description,
    Kind::Description,
    Kind::Heading,
    Kind::Heading,
    Kind::Heading,
    Kind::Heading,
    Kind::Heading,
    Kind::Heading,
    Kind::Preformatted,
    Kind::Preformatted,
    Kind::Form,
    Kind::Button,
    Kind::Anchor,
    Kind::NoBreak,
    Kind::Font,
    Kind::Formatting,
    Kind::Formatting,
    Kind::Formatting,
    Kind::Formatting,
    Kind::Formatting,
    Kind::Formatting,
    Kind::Formatting,
    Kind::Formatting,
    Kind::Formatting,
    Kind::Formatting,
    Kind::Formatting,
    Kind::Span,
    Kind::Span,
    Kind::Span,
    Kind::Span,
    Kind::Ruby,
    Kind::RubyBase,
    Kind::RubyContainer,
    Kind::RubyText,
    Kind::RubyText,
    Kind::Applet,
    Kind::Applet,
    Kind::Object,
    Kind::Table,
    Kind::Caption,
    Kind::ColumnGroup,
    Kind::Column,
    Kind::TableBody,
    Kind::TableBody,
    Kind::TableBody,
    Kind::TableRow,
    Kind::Cell,
    Kind::Cell,
    Kind::Void,
    Kind::Void,
    Kind::Void,
    Kind::LineBreak,
    Kind::Embed,
    Kind::Image,
    Kind::MisnamedImage,
    Kind::Input,
    Kind::Parameter,
    Kind::Parameter,
    Kind::Parameter,
    Kind::Rule,
    Kind::Textarea,
    Kind::Xmp,
    Kind::Iframe,
    Kind::Noembed,
    Kind::Plaintext,
    Kind::Select,
    Kind::SelectOption,
    Kind::OptionGroup,
    Kind::Output,
    Kind::MathRoot,
    Kind::SvgRoot,
    Kind::MathGlyph,
    Kind::MathGlyph,
];

// By slot, the place of the name that has it. It is 0 in a slot of no name: what a slot says is compared
// with the text.
static PLACES: [u8; SLOTS] = [
    0, 41, 111, 0, 0, 0, 0, 18, 0, 0, 87, 0, 0, 10, 0, 26, 76, 44, 0, 0, 0, 0, 56, 0, 0, 0, 0, 0,
    0, 0, 0, 0, 0, 0, 0, 0, 0, 0, 0, 0, 0, 0, 0, 0, 66, 0, 0, 0, 0, 0, 0, 46, 0, 25, 0, 0, 0, 0, 0,
    0, 42, 0, 0, 0, 0, 0, 0, 105, 0, 0, 0, 0, 0, 102, 0, 0, 0, 0, 0, 0, 72, 0, 0, 0, 0, 48, 0, 0,
    0, 0, 0, 0, 0, 0, 0, 0, 0, 68, 0, 0, 0, 0, 0, 0, 0, 0, 113, 0, 0, 0, 0, 0, 0, 0, 0, 71, 0, 0,
    0, 103, 0, 0, 0, 0, 53, 0, 0, 83, 82, 0, 20, 0, 0, 0, 0, 0, 0, 58, 0, 0, 0, 0, 37, 0, 8, 0, 13,
    0, 0, 19, 2, 0, 38, 0, 81, 0, 0, 0, 0, 0, 0, 0, 0, 0, 80, 32, 55, 0, 27, 0, 0, 64, 29, 0, 0, 0,
    0, 0, 0, 0, 0, 0, 0, 0, 0, 0, 0, 0, 0, 0, 0, 0, 0, 6, 0, 0, 21, 0, 0, 0, 0, 70, 77, 0, 59, 0,
    0, 54, 0, 12, 0, 0, 0, 0, 0, 0, 0, 28, 0, 1, 0, 0, 73, 36, 0, 108, 0, 0, 0, 0, 0, 0, 0, 0, 0,
    0, 0, 31, 112, 0, 52, 0, 106, 0, 0, 0, 22, 0, 0, 0, 3, 0, 0, 62, 0, 78, 0, 114, 0, 0, 0, 100,
    0, 0, 0, 0, 0, 0, 0, 0, 93, 0, 0, 0, 11, 0, 92, 0, 0, 0, 0, 65, 0, 0, 88, 0, 0, 0, 0, 0, 45, 0,
    0, 0, 0, 0, 109, 0, 0, 14, 0, 0, 0, 0, 0, 0, 0, 0, 0, 0, 0, 95, 0, 0, 0, 67, 0, 0, 0, 0, 0, 0,
    0, 0, 47, 0, 0, 0, 0, 0, 0, 90, 43, 15, 0, 0, 34, 0, 0, 0, 94, 0, 0, 0, 0, 0, 0, 4, 0, 0, 39,
    0, 89, 0, 101, 0, 0, 0, 49, 0, 0, 0, 0, 0, 0, 0, 0, 0, 0, 0, 0, 0, 0, 63, 97, 96, 0, 0, 35, 0,
    51, 85, 0, 0, 0, 0, 0, 91, 0, 0, 5, 104, 0, 79, 0, 0, 98, 0, 0, 0, 0, 0, 0, 0, 0, 0, 0, 0, 30,
    0, 0, 0, 0, 0, 0, 24, 16, 0, 0, 0, 0, 0, 50, 0, 0, 0, 0, 0, 0, 0, 0, 0, 0, 0, 40, 0, 0, 0, 0,
    0, 0, 0, 0, 0, 0, 0, 0, 23, 0, 107, 74, 0, 0, 0, 0, 61, 0, 0, 0, 9, 75, 0, 17, 0, 0, 0, 0, 0,
    0, 0, 99, 0, 0, 0, 110, 0, 0, 0, 0, 86, 0, 0, 0, 60, 0, 69, 0, 0, 0, 0, 0, 0, 0, 0, 57, 0, 0,
    0, 0, 84, 0, 0, 0, 0, 0, 0, 0, 33, 7, 0, 0, 0,
];

// The same, as a contract sees them.
#[inline(always)]
fn all_places() -> &'static [u8; SLOTS]
    ensures places { list_all (λ place. nat_lt place 115) result.now ≡ true }
    ensures finds { finds_all result.now ≡ true }
{
    &PLACES
}

/// A name that the rows know.
#[derive(Clone, Copy, Debug, PartialEq, Eq)]
pub struct KnownName {
    // Its place among the names.
    place: u8,
    ghost known: { place < 115 },
}

// The slot of a name. No two names have the same.
fn slot_of(name: &[u8]) -> usize
    requires { 0 < length name.now }
    ensures { result ≡ slot_of name.now }
{
    let last = name.len() - 1;
    let sum = 16 * (name.len() % 16)
        + 14 * usize::from(name[0])
        + 126 * usize::from(name[last])
        + 147 * usize::from(name[name.len() / 2]);
    sum % SLOTS
}

impl KnownName {
    ghost use Rattle.tree_names.specs.ElementNames.{name_of};

    /// `html`.
    pub const HTML: KnownName = KnownName { place: 0 };

    /// `head`.
    pub const HEAD: KnownName = KnownName { place: 1 };

    /// `body`.
    pub const BODY: KnownName = KnownName { place: 2 };

    /// `p`.
    pub const P: KnownName = KnownName { place: 16 };

    /// `colgroup`.
    pub const COLGROUP: KnownName = KnownName { place: 82 };

    /// `tbody`.
    pub const TBODY: KnownName = KnownName { place: 84 };

    /// `tr`.
    pub const TR: KnownName = KnownName { place: 87 };

    /// `br`.
    pub const BR: KnownName = KnownName { place: 93 };

    /// `img`.
    pub const IMG: KnownName = KnownName { place: 95 };

    /// `form`.
    pub const FORM: KnownName = KnownName { place: 52 };

    /// The name that a text is.
    pub fn find(text: &str) -> Option<KnownName>
        ensures found { IfSome result (λ name. name_of name ≡ text.now) }
        ensures none { IfNone result (kind_of text.now ≡ Ordinary) }
    {
        if text.is_empty() {
            return None;
        }
        let name = KnownName::in_slot(slot_of(text.as_bytes()));
        if name.as_str() == text {
            Some(name)
        } else {
            None
        }
    }

    // The name in a slot.
    fn in_slot(slot: usize) -> KnownName
        requires { slot < 512 }
        ensures { (places : List ℕ)
            × ((finds_all places ≡ true) × (name_of result ≡ name_at (slice_index places slot))) }
    {
        KnownName {
            place: all_places()[slot],
        }
    }

    /// The name as text.
    pub fn as_str(self) -> &'static str
        ensures { result.now ≡ name_of self }
    {
        all_names()[self.place as usize]
    }

    /// The kind of its elements.
    pub fn kind(self) -> Kind
        ensures { result ≡ kind_of (name_of self) }
    {
        KINDS[self.place as usize]
    }

    /// Whether it is the same name.
    pub fn is(self, other: KnownName) -> bool
        ensures { result ≡ bytes_eq (name_of self) (name_of other) }
    {
        self.place == other.place
    }

    /// The constants above, in their order.
    pub fn constants() -> [KnownName; 10]
        ensures { map name_of result
            ≡ codes "html" ∷ codes "head" ∷ codes "body" ∷ codes "p" ∷ codes "colgroup"
            ∷ codes "tbody" ∷ codes "tr" ∷ codes "br" ∷ codes "img" ∷ codes "form" ∷ [] }
    {
        [
            Self::HTML,
            Self::HEAD,
            Self::BODY,
            Self::P,
            Self::COLGROUP,
            Self::TBODY,
            Self::TR,
            Self::BR,
            Self::IMG,
            Self::FORM,
        ]
    }
}

/// The kind of an element by its name, known or not.
pub fn kind_by_name(name: &str) -> Kind
    ensures { result ≡ kind_of name.now }
{
    match KnownName::find(name) {
        Some(known) => known.kind(),
        None => Kind::Ordinary,
    }
}
