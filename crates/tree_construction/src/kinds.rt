//! Kinds of elements: all that the rows of tree construction tell apart in names and namespaces. Tests
//! of kinds: single ones, and the sets that rows name.

/// A namespace of elements.
#[derive(Clone, Copy, Debug, PartialEq, Eq)]
pub enum Namespace {
    Html,
    MathMl,
    Svg,
}

/// A kind of element: names that all rows treat alike. The rows find the names themselves where they
/// need them, as in "an element with the same tag name as the token".
#[derive(Clone, Copy, Debug, PartialEq, Eq)]
pub enum Kind {
    /// `html`.
    HtmlRoot,
    /// `head`.
    Head,
    /// `body`.
    Body,
    /// `title`.
    Title,
    /// `base`.
    Base,
    /// `basefont`, `bgsound` and `link`.
    Link,
    /// `meta`.
    Meta,
    /// `style`.
    Style,
    /// `script`.
    Script,
    /// `noscript`.
    Noscript,
    /// `noframes`.
    Noframes,
    /// `template`.
    Template,
    /// `frameset`.
    Frameset,
    /// `frame`.
    Frame,
    /// `p`.
    Paragraph,
    /// `address`.
    Address,
    /// `div`.
    Division,
    /// `blockquote`, `center`, `dl` and `menu`: blocks that break out of foreign content.
    BreakoutBlock,
    /// `article`, `aside`, `section` and the other blocks.
    Block,
    /// `dialog`, a block that is not special.
    Dialog,
    /// `fieldset`, a block that can belong to a form.
    Fieldset,
    /// `ol` and `ul`.
    ListBlock,
    /// `li`.
    ListItem,
    /// `dd` and `dt`.
    Description,
    /// `h1` to `h6`.
    Heading,
    /// `pre` and `listing`.
    Preformatted,
    /// `form`.
    Form,
    /// `button`.
    Button,
    /// `a`, a formatting element.
    Anchor,
    /// `nobr`, a formatting element.
    NoBreak,
    /// `font`, a formatting element.
    Font,
    /// The other formatting elements: `b`, `i`, `code` and their like.
    Formatting,
    /// `span`, `sub`, `sup` and `var`: ordinary elements that break out of foreign content.
    Span,
    /// `ruby`.
    Ruby,
    /// `rb`.
    RubyBase,
    /// `rtc`.
    RubyContainer,
    /// `rp` and `rt`.
    RubyText,
    /// `applet` and `marquee`.
    Applet,
    /// `object`.
    Object,
    /// `table`.
    Table,
    /// `caption`.
    Caption,
    /// `colgroup`.
    ColumnGroup,
    /// `col`.
    Column,
    /// `tbody`, `tfoot` and `thead`.
    TableBody,
    /// `tr`.
    TableRow,
    /// `td` and `th`.
    Cell,
    /// `area`, `keygen` and `wbr`.
    Void,
    /// `br`.
    LineBreak,
    /// `embed`.
    Embed,
    /// `img`.
    Image,
    /// `image`, which is read as `img`.
    MisnamedImage,
    /// `input`.
    Input,
    /// `param`, `source` and `track`.
    Parameter,
    /// `hr`.
    Rule,
    /// `textarea`.
    Textarea,
    /// `xmp`.
    Xmp,
    /// `iframe`.
    Iframe,
    /// `noembed`.
    Noembed,
    /// `plaintext`.
    Plaintext,
    /// `select`.
    Select,
    /// `option`.
    SelectOption,
    /// `optgroup`.
    OptionGroup,
    /// `output`.
    Output,
    /// `math`, as a tag name.
    MathRoot,
    /// `svg`, as a tag name.
    SvgRoot,
    /// `mglyph` and `malignmark`, as tag names.
    MathGlyph,
    /// An HTML element of another name: what the rows call "any other start tag".
    Ordinary,
    /// `mi`, `mo`, `mn`, `ms` and `mtext` of MathML: a MathML text integration point.
    MathTextPoint,
    /// `annotation-xml` of MathML.
    Annotation,
    /// `annotation-xml` of MathML whose `encoding` makes it an HTML integration point.
    HtmlAnnotation,
    /// Another element of MathML.
    OtherMath,
    /// `foreignObject`, `desc` and `title` of SVG: an HTML integration point.
    SvgHtmlPoint,
    /// `script` of SVG.
    SvgScript,
    /// Another element of SVG.
    OtherSvg,
}

#[tactic(auto, unfolding(crate::specs::Names::is_special, crate::specs::Names::is_formatting, crate::specs::Names::ends_scope, crate::specs::Names::ends_table_scope, crate::specs::Names::is_body_context, crate::specs::Names::is_row_context, crate::specs::Names::is_implied, crate::specs::Names::is_implied_thoroughly, crate::specs::Names::may_stay_open, crate::specs::Names::is_fostering, crate::specs::Names::is_listed, crate::specs::Names::breaks_out, crate::specs::Names::namespace_of))]
impl Kind {
    ghost use Rattle.std.specs.Prelude.{◌≡◌};
    ghost use Rattle.tree_construction.specs.Names.{is_html, is_root, is_body, is_template, is_script, is_frameset, is_paragraph, is_list_item, is_description, is_heading, is_form, is_button, is_no_break, is_ruby, is_ruby_container, is_table, is_caption, is_column_group, is_table_body, is_table_row, is_cell, is_select, is_select_option, is_option_group, is_svg_script, is_math_text_point, is_special, is_formatting, ends_scope, ends_list_scope, ends_button_scope, ends_table_scope, is_body_context, is_row_context, is_implied, is_implied_thoroughly, may_stay_open, is_fostering, takes_table_text, ends_item_search, is_listed, is_form_associated, is_html_point, is_annotation, breaks_out, namespace_of};

    /// The namespace of its elements.
    pub fn namespace(self) -> Namespace
        ensures { result ≡ namespace_of self }
    {
        match self {
            Kind::MathTextPoint | Kind::Annotation | Kind::HtmlAnnotation | Kind::OtherMath =>
                Namespace::MathMl,
            Kind::SvgHtmlPoint | Kind::SvgScript | Kind::OtherSvg => Namespace::Svg,
            _ => Namespace::Html,
        }
    }

    /// Whether an element is in the HTML namespace.
    pub fn is_html(self) -> bool
        ensures { result ≡ is_html self }
    {
        matches!(self.namespace(), Namespace::Html)
    }

    /// Whether it is `html`.
    pub fn is_root(self) -> bool
        ensures { result ≡ is_root self }
    {
        matches!(self, Kind::HtmlRoot)
    }

    /// Whether it is `body`.
    pub fn is_body(self) -> bool
        ensures { result ≡ is_body self }
    {
        matches!(self, Kind::Body)
    }

    /// Whether it is `template`.
    pub fn is_template(self) -> bool
        ensures { result ≡ is_template self }
    {
        matches!(self, Kind::Template)
    }

    /// Whether it is `script` of HTML.
    pub fn is_script(self) -> bool
        ensures { result ≡ is_script self }
    {
        matches!(self, Kind::Script)
    }

    /// Whether it is `frameset`.
    pub fn is_frameset(self) -> bool
        ensures { result ≡ is_frameset self }
    {
        matches!(self, Kind::Frameset)
    }

    /// Whether it is `p`.
    pub fn is_paragraph(self) -> bool
        ensures { result ≡ is_paragraph self }
    {
        matches!(self, Kind::Paragraph)
    }

    /// Whether it is `li`.
    pub fn is_list_item(self) -> bool
        ensures { result ≡ is_list_item self }
    {
        matches!(self, Kind::ListItem)
    }

    /// Whether it is `dd` or `dt`.
    pub fn is_description(self) -> bool
        ensures { result ≡ is_description self }
    {
        matches!(self, Kind::Description)
    }

    /// Whether it is one of `h1` to `h6`.
    pub fn is_heading(self) -> bool
        ensures { result ≡ is_heading self }
    {
        matches!(self, Kind::Heading)
    }

    /// Whether it is `form`.
    pub fn is_form(self) -> bool
        ensures { result ≡ is_form self }
    {
        matches!(self, Kind::Form)
    }

    /// Whether it is `button`.
    pub fn is_button(self) -> bool
        ensures { result ≡ is_button self }
    {
        matches!(self, Kind::Button)
    }

    /// Whether it is `nobr`.
    pub fn is_no_break(self) -> bool
        ensures { result ≡ is_no_break self }
    {
        matches!(self, Kind::NoBreak)
    }

    /// Whether it is `ruby`.
    pub fn is_ruby(self) -> bool
        ensures { result ≡ is_ruby self }
    {
        matches!(self, Kind::Ruby)
    }

    /// Whether it is `rtc`.
    pub fn is_ruby_container(self) -> bool
        ensures { result ≡ is_ruby_container self }
    {
        matches!(self, Kind::RubyContainer)
    }

    /// Whether it is `table`.
    pub fn is_table(self) -> bool
        ensures { result ≡ is_table self }
    {
        matches!(self, Kind::Table)
    }

    /// Whether it is `caption`.
    pub fn is_caption(self) -> bool
        ensures { result ≡ is_caption self }
    {
        matches!(self, Kind::Caption)
    }

    /// Whether it is `colgroup`.
    pub fn is_column_group(self) -> bool
        ensures { result ≡ is_column_group self }
    {
        matches!(self, Kind::ColumnGroup)
    }

    /// Whether it is `tbody`, `tfoot` or `thead`.
    pub fn is_table_body(self) -> bool
        ensures { result ≡ is_table_body self }
    {
        matches!(self, Kind::TableBody)
    }

    /// Whether it is `tr`.
    pub fn is_table_row(self) -> bool
        ensures { result ≡ is_table_row self }
    {
        matches!(self, Kind::TableRow)
    }

    /// Whether it is `td` or `th`.
    pub fn is_cell(self) -> bool
        ensures { result ≡ is_cell self }
    {
        matches!(self, Kind::Cell)
    }

    /// Whether it is `select`.
    pub fn is_select(self) -> bool
        ensures { result ≡ is_select self }
    {
        matches!(self, Kind::Select)
    }

    /// Whether it is `option`.
    pub fn is_select_option(self) -> bool
        ensures { result ≡ is_select_option self }
    {
        matches!(self, Kind::SelectOption)
    }

    /// Whether it is `optgroup`.
    pub fn is_option_group(self) -> bool
        ensures { result ≡ is_option_group self }
    {
        matches!(self, Kind::OptionGroup)
    }

    /// Whether it is `script` of SVG.
    pub fn is_svg_script(self) -> bool
        ensures { result ≡ is_svg_script self }
    {
        matches!(self, Kind::SvgScript)
    }

    /// Whether it is a MathML text integration point.
    pub fn is_math_text_point(self) -> bool
        ensures { result ≡ is_math_text_point self }
    {
        matches!(self, Kind::MathTextPoint)
    }

    /// Whether it is in the category "special".
    pub fn is_special(self) -> bool
        ensures { result ≡ is_special self }
    {
        matches!(
            self,
            Kind::HtmlRoot
                | Kind::Head
                | Kind::Body
                | Kind::Title
                | Kind::Base
                | Kind::Link
                | Kind::Meta
                | Kind::Style
                | Kind::Script
                | Kind::Noscript
                | Kind::Noframes
                | Kind::Template
                | Kind::Frameset
                | Kind::Frame
                | Kind::Paragraph
                | Kind::Address
                | Kind::Division
                | Kind::BreakoutBlock
                | Kind::Block
                | Kind::Fieldset
                | Kind::ListBlock
                | Kind::ListItem
                | Kind::Description
                | Kind::Heading
                | Kind::Preformatted
                | Kind::Form
                | Kind::Button
                | Kind::Applet
                | Kind::Object
                | Kind::Table
                | Kind::Caption
                | Kind::ColumnGroup
                | Kind::Column
                | Kind::TableBody
                | Kind::TableRow
                | Kind::Cell
                | Kind::Void
                | Kind::LineBreak
                | Kind::Embed
                | Kind::Image
                | Kind::Input
                | Kind::Parameter
                | Kind::Rule
                | Kind::Textarea
                | Kind::Xmp
                | Kind::Iframe
                | Kind::Noembed
                | Kind::Plaintext
                | Kind::Select
                | Kind::MathTextPoint
                | Kind::Annotation
                | Kind::HtmlAnnotation
                | Kind::SvgHtmlPoint
        )
    }

    /// Whether it is in the category "formatting".
    pub fn is_formatting(self) -> bool
        ensures { result ≡ is_formatting self }
    {
        matches!(
            self,
            Kind::Anchor | Kind::NoBreak | Kind::Font | Kind::Formatting
        )
    }

    /// Whether it ends the search of "has an element in scope".
    pub fn ends_scope(self) -> bool
        ensures { result ≡ ends_scope self }
    {
        matches!(
            self,
            Kind::Applet
                | Kind::Caption
                | Kind::HtmlRoot
                | Kind::Table
                | Kind::Cell
                | Kind::Object
                | Kind::Template
                | Kind::Select
                | Kind::MathTextPoint
                | Kind::Annotation
                | Kind::HtmlAnnotation
                | Kind::SvgHtmlPoint
        )
    }

    /// Whether it ends the search of "has an element in list item scope".
    pub fn ends_list_scope(self) -> bool
        ensures { result ≡ ends_list_scope self }
    {
        matches!(self, Kind::ListBlock) || self.ends_scope()
    }

    /// Whether it ends the search of "has an element in button scope".
    pub fn ends_button_scope(self) -> bool
        ensures { result ≡ ends_button_scope self }
    {
        matches!(self, Kind::Button) || self.ends_scope()
    }

    /// Whether it ends the search of "has an element in table scope", and is a table context.
    pub fn ends_table_scope(self) -> bool
        ensures { result ≡ ends_table_scope self }
    {
        matches!(self, Kind::HtmlRoot | Kind::Table | Kind::Template)
    }

    /// Whether "clear the stack back to a table body context" stops at it.
    pub fn is_body_context(self) -> bool
        ensures { result ≡ is_body_context self }
    {
        matches!(self, Kind::TableBody | Kind::Template | Kind::HtmlRoot)
    }

    /// Whether "clear the stack back to a table row context" stops at it.
    pub fn is_row_context(self) -> bool
        ensures { result ≡ is_row_context self }
    {
        matches!(self, Kind::TableRow | Kind::Template | Kind::HtmlRoot)
    }

    /// Whether "generate implied end tags" pops it.
    pub fn is_implied(self) -> bool
        ensures { result ≡ is_implied self }
    {
        matches!(
            self,
            Kind::Description
                | Kind::ListItem
                | Kind::OptionGroup
                | Kind::SelectOption
                | Kind::Paragraph
                | Kind::RubyBase
                | Kind::RubyText
                | Kind::RubyContainer
        )
    }

    /// Whether "generate all implied end tags thoroughly" pops it.
    pub fn is_implied_thoroughly(self) -> bool
        ensures { result ≡ is_implied_thoroughly self }
    {
        matches!(
            self,
            Kind::Caption | Kind::ColumnGroup | Kind::TableBody | Kind::Cell | Kind::TableRow
        ) || self.is_implied()
    }

    /// Whether it may be open where the body ends, without a parse error.
    pub fn may_stay_open(self) -> bool
        ensures { result ≡ may_stay_open self }
    {
        matches!(
            self,
            Kind::TableBody | Kind::Cell | Kind::TableRow | Kind::Body | Kind::HtmlRoot
        ) || self.is_implied()
    }

    /// Whether foster parenting happens in it.
    pub fn is_fostering(self) -> bool
        ensures { result ≡ is_fostering self }
    {
        matches!(self, Kind::Table | Kind::TableBody | Kind::TableRow)
    }

    /// Whether a character token starts "in table text" here.
    pub fn takes_table_text(self) -> bool
        ensures { result ≡ takes_table_text self }
    {
        matches!(self, Kind::Template) || self.is_fostering()
    }

    /// Whether it ends the search for a list item to close: special, and not `address`, `div` or `p`.
    pub fn ends_item_search(self) -> bool
        ensures { result ≡ ends_item_search self }
    {
        !matches!(self, Kind::Address | Kind::Division | Kind::Paragraph) && self.is_special()
    }

    /// Whether it is a "listed element".
    pub fn is_listed(self) -> bool
        ensures { result ≡ is_listed self }
    {
        matches!(
            self,
            Kind::Button
                | Kind::Fieldset
                | Kind::Input
                | Kind::Object
                | Kind::Output
                | Kind::Select
                | Kind::Textarea
        )
    }

    /// Whether it is a "form-associated element".
    pub fn is_form_associated(self) -> bool
        ensures { result ≡ is_form_associated self }
    {
        matches!(self, Kind::Image) || self.is_listed()
    }

    /// Whether it is an HTML integration point.
    pub fn is_html_point(self) -> bool
        ensures { result ≡ is_html_point self }
    {
        matches!(self, Kind::HtmlAnnotation | Kind::SvgHtmlPoint)
    }

    /// Whether it is `annotation-xml`, of either kind.
    pub fn is_annotation(self) -> bool
        ensures { result ≡ is_annotation self }
    {
        matches!(self, Kind::Annotation | Kind::HtmlAnnotation)
    }

    /// Whether a start tag of this kind breaks out of foreign content.
    pub fn breaks_out(self) -> bool
        ensures { result ≡ breaks_out self }
    {
        matches!(
            self,
            Kind::Formatting
                | Kind::BreakoutBlock
                | Kind::Body
                | Kind::LineBreak
                | Kind::Description
                | Kind::Division
                | Kind::Embed
                | Kind::Heading
                | Kind::Head
                | Kind::Rule
                | Kind::Image
                | Kind::ListItem
                | Kind::Preformatted
                | Kind::Meta
                | Kind::NoBreak
                | Kind::ListBlock
                | Kind::Paragraph
                | Kind::Ruby
                | Kind::Span
                | Kind::Table
        )
    }
}
