//! "The rules for parsing tokens in foreign content": tags.
ghost use Rattle.std.specs.Prelude.{◌≡◌, ◌<◌, ◌+◌, ℕ, List, true, drop, length, IfOk, OnOk, if◌then◌else◌};
ghost use Rattle.tree_construction.specs.ForeignContent.{InHtml, any_other_foreign_end, closed_at_once, expects_name, foreign_end, foreign_end_by_kind, foreign_start, has_lower_case, is_breakout, is_html_font, run_script, stays_foreign};
ghost use Rattle.tree_construction.specs.Names.{is_svg_script};
ghost use Rattle.tree_construction.specs.Parser.{Parser, adjusted_kind, is_current, pop_while, unexpected};
ghost use Rattle.tree_construction.specs.Tokens.Token.{EndTag};
ghost use Rattle.tree_names.specs.ElementNames.{name_bytes};
ghost use Rattle.tree_builder.specs.Built.{on_parser, tag_of};
ghost use Rattle.tree_builder.specs.Foreign.{foreign_ended, foreign_ended_or};
ghost use Rattle.tree_lists.specs.Opened.{open_of};

use crate::builder::Builder;
use crate::closing::PopTest;
use crate::request::Request;
use crate::tag::StartTag;
use std::alloc::Allocator;
use tree_construction::kinds::Kind;
use tree_lists::opened::OpenElement;
use tree_lists::wanted::{KindSet, Wanted};
use tree_names::attributes::matches;
use tree_names::name::ElementName;
use tree_sink::attributes::TagAttributes;
use tree_sink::error::TreeBuilderError;
use tree_sink::handle::NodeHandle;
use tree_sink::sink::TreeSink;

// What an end tag comes to.
#[derive(Drop)]
enum ForeignEnd<H> {
    Nothing,
    // This element is closed.
    Closed(H),
    // "Process the token according to the rules given in the section corresponding to the current insertion mode in HTML
    // content".
    ByHtml,
}

impl<S: TreeSink<T> + Drop, T: TagAttributes, A: Allocator + Copy> Builder<S, T, A> {
    // ---- start tags

    /// The kind of "the adjusted current node".
    pub(crate) fn adjusted_kind(&self) -> Kind
        ensures { result ≡ adjusted_kind self.now.parser.options.context self.now.parser.page.opened }
    {
        let kind = self.opened.current_kind();
        if self.open_len() == 1 {
            return self.last_kind(kind);
        }
        kind
    }

    // A script of SVG that was closed is run.
    fn run_script(&mut self) -> Result<(), TreeBuilderError>
        ensures { OnOk result (self.new ≡ on_parser run_script self.old) }
    {
        let node = self.current_node();
        self.pop()?;
        self.ask(Request::Run(node));
        Ok(())
    }

    // "If the token has its self-closing flag set".
    fn close_at_once(&mut self) -> Result<(), TreeBuilderError>
        ensures { OnOk result (self.new ≡ on_parser (closed_at_once true) self.old) }
    {
        if self.current_is(&Wanted::Of(KindSet::SvgScript)) {
            self.acknowledge();
            return self.run_script();
        }
        self.pop()?;
        self.acknowledge();
        Ok(())
    }

    /// "Any other start tag".
    pub fn foreign_start(&mut self, tag: &StartTag<T, A>) -> Result<(), TreeBuilderError>
        ensures { OnOk result (self.new ≡ on_parser (foreign_start (tag_of T.said tag.now)) self.old) }
    {
        let kind = self.adjusted_kind();
        self.insert_foreign(kind.namespace(), tag)?;
        if !tag.self_closing {
            return Ok(());
        }
        self.close_at_once()
    }

    /// A tag that breaks out: elements are popped until the current node is no foreign one, or an integration point.
    pub fn break_out(&mut self) -> Result<(), TreeBuilderError>
        ensures { OnOk result (self.new ≡ on_parser (λ p. pop_while stays_foreign (unexpected p)) self.old) }
    {
        self.unexpected()?;
        self.pop_while(&PopTest::Foreign)
    }

    // ---- end tags

    // Whether the current node has a name, in lower case.
    fn current_has_lower_case(&self, name: &ElementName<A>) -> bool
        ensures { (p : Parser) → (if result then p else unexpected p) ≡ expects_name (name_bytes name.now) self.now.parser.page.opened p }
    {
        match self.opened.top() {
            Some(element) => has_lower_case(name, element),
            None => true,
        }
    }

    // "If node's tag name, converted to ASCII lowercase, is not the same as the tag name of the token, then this is a parse
    // error".
    fn expect_name(&mut self, name: &ElementName<A>) -> Result<(), TreeBuilderError>
        ensures { OnOk result (self.new ≡ on_parser (λ p. expects_name (name_bytes name.now) p.page.opened p) self.old) }
    {
        if self.current_has_lower_case(name) {
            return Ok(());
        }
        self.unexpected()
    }

    // What an end tag comes to by the element at a depth, where that says something.
    fn foreign_end_at(&self, name: &ElementName<A>, depth: usize) -> Option<ForeignEnd<S::Handle>>
        requires { depth < length self.now.parser.page.opened }
        ensures { (in_html : InHtml) (p : Parser) → foreign_end in_html (name_bytes name.now) (drop depth self.now.parser.page.opened) p
            ≡ foreign_ended_or S.Handle.node in_html (name_bytes name.now) result
            (foreign_end in_html (name_bytes name.now) (drop (depth + 1) self.now.parser.page.opened) p) p }
    {
        let count = self.open_len();
        let element = self.opened.at(depth);
        if depth + 1 == count {
            return Some(ForeignEnd::Nothing);
        }
        let outer = self.opened.at(depth + 1);
        if has_lower_case(name, element) {
            return Some(ForeignEnd::Closed(element.handle));
        }
        if outer.kind.is_html() {
            return Some(ForeignEnd::ByHtml);
        }
        None
    }

    // What an end tag comes to, by the open elements from the current node outwards.
    #[tactic(auto, unfolding(tree_construction::specs::ForeignContent::foreign_end))]
    fn foreign_end_in(&self, name: &ElementName<A>) -> ForeignEnd<S::Handle>
        ensures { (in_html : InHtml) (p : Parser) → foreign_end in_html (name_bytes name.now) self.now.parser.page.opened p
            ≡ foreign_ended S.Handle.node in_html (name_bytes name.now) result p }
    {
        for depth in 0..self.open_len() {
            if let Some(end) = self.foreign_end_at(name, depth) {
                return end;
            }
        }
        ForeignEnd::Nothing
    }

    // Does what an end tag comes to. Whether it is then processed by the rules of HTML content.
    fn end_foreign(&mut self, end: ForeignEnd<S::Handle>) -> Result<bool, TreeBuilderError>
        ensures parser { IfOk result (λ by_html. (in_html : InHtml) (name : List ℕ)
            → (if by_html then in_html (EndTag name) self.new.parser else self.new.parser) ≡ foreign_ended S.Handle.node in_html name end self.old.parser) }
        ensures telling { OnOk result (self.new.telling ≡ self.old.telling) }
    {
        match end {
            ForeignEnd::Nothing => Ok(false),
            ForeignEnd::Closed(handle) => {
                self.pop_until(&Wanted::Node(handle))?;
                Ok(false)
            }
            ForeignEnd::ByHtml => Ok(true),
        }
    }

    /// "Any other end tag". Whether the token is then processed by the rules of the current insertion mode.
    pub fn any_other_foreign_end(&mut self, name: &ElementName<A>) -> Result<bool, TreeBuilderError>
        ensures parser { IfOk result (λ by_html. (in_html : InHtml) → (if by_html then in_html (EndTag (name_bytes name.now)) self.new.parser else self.new.parser)
            ≡ any_other_foreign_end in_html (name_bytes name.now) self.old.parser) }
        ensures telling { OnOk result (self.new.telling ≡ self.old.telling) }
    {
        let end = self.foreign_end_in(name);
        self.expect_name(name)?;
        self.end_foreign(end)
    }

    // `</script>`. The same question.
    fn foreign_script_end(&mut self, name: &ElementName<A>) -> Result<bool, TreeBuilderError>
        ensures parser { IfOk result (λ by_html. (in_html : InHtml) → (if by_html then in_html (EndTag (name_bytes name.now)) self.new.parser else self.new.parser)
            ≡ (if is_current is_svg_script self.old.parser then run_script self.old.parser else any_other_foreign_end in_html (name_bytes name.now) self.old.parser)) }
        ensures telling { OnOk result (self.new.telling ≡ self.old.telling) }
    {
        if !self.current_is(&Wanted::Of(KindSet::SvgScript)) {
            return self.any_other_foreign_end(name);
        }
        self.run_script()?;
        Ok(false)
    }

    /// An end tag. Whether the token is then processed by the rules of the current insertion mode.
    pub fn foreign_end(
        &mut self,
        kind: Kind,
        name: &ElementName<A>,
    ) -> Result<bool, TreeBuilderError>
        ensures parser { IfOk result (λ by_html. (in_html : InHtml) → (if by_html then in_html (EndTag (name_bytes name.now)) self.new.parser else self.new.parser)
            ≡ foreign_end_by_kind in_html kind (name_bytes name.now) self.old.parser) }
        ensures telling { OnOk result (self.new.telling ≡ self.old.telling) }
    {
        match kind {
            Kind::LineBreak | Kind::Paragraph => self.break_out()?,
            Kind::Script => return self.foreign_script_end(name),
            _ => return self.any_other_foreign_end(name),
        }
        Ok(true)
    }
}

// Whether an element has a name, in lower case.
fn has_lower_case<H: NodeHandle, A: Allocator>(
    name: &ElementName<A>,
    element: &OpenElement<H, A>,
) -> bool
    ensures { result ≡ has_lower_case (name_bytes name.now) (open_of H.node element.now) }
{
    matches(name.as_str(), element.name.as_str())
}

// "A start tag whose tag name is font, if the token has any attributes named color, face, or size".
fn is_html_font<T: TagAttributes, A: Allocator>(tag: &StartTag<T, A>) -> bool
    ensures { result ≡ is_html_font (tag_of T.said tag.now) }
{
    tag.attributes.value_of("color").is_some()
        || tag.attributes.value_of("face").is_some()
        || tag.attributes.value_of("size").is_some()
}

/// Whether a start tag breaks out of foreign content.
pub fn is_breakout<T: TagAttributes, A: Allocator>(kind: Kind, tag: &StartTag<T, A>) -> bool
    ensures { result ≡ is_breakout kind (tag_of T.said tag.now) }
{
    match kind {
        Kind::Font => is_html_font(tag),
        _ => kind.breaks_out(),
    }
}
