//! "The tree construction dispatcher".
ghost use Rattle.std.specs.Prelude.{◌≡◌, IfOk, OnOk};
ghost use Rattle.html5ever_interface.specs.Token.{doctype_of};
ghost use Rattle.tree_construction.specs.Construction.{dispatched, is_foreign};
ghost use Rattle.tree_construction.specs.Names.{is_html};
ghost use Rattle.tree_construction.specs.Parser.{Again, adjusted_kind};
ghost use Rattle.tree_construction.specs.Tokens.Token.{Doctype as DoctypeToken, StartTag as StartToken, EndTag, Comment, EndOfFile};
ghost use Rattle.tree_names.specs.ElementNames.{name_bytes};
ghost use Rattle.tree_builder.specs.Built.{followed, tag_of};
ghost use Rattle.tree_builder.specs.Taking.{takes_start};

use crate::builder::Builder;
use crate::foreign_content::is_breakout;
use crate::tag::{StartTag, Step};
use html5ever_interface::interface::token::Doctype;
use std::alloc::Allocator;
use tree_construction::kinds::Kind;
use tree_names::name::ElementName;
use tree_sink::attributes::TagAttributes;
use tree_sink::error::TreeBuilderError;
use tree_sink::sink::TreeSink;

// Whether a start tag is processed as HTML content, by the kind of the adjusted current node, and that of the tag.
fn takes_start(kind: Kind, tag: Kind) -> bool
    ensures { result ≡ takes_start kind tag }
{
    kind.is_html()
        || (kind.is_math_text_point() && tag != Kind::MathGlyph)
        || (kind.is_annotation() && tag == Kind::SvgRoot)
        || kind.is_html_point()
}

impl<S: TreeSink<T> + Drop, T: TagAttributes, A: Allocator + Copy> Builder<S, T, A> {
    // Whether the adjusted current node is an HTML element.
    fn is_in_html(&self) -> bool
        ensures { result ≡ is_html (adjusted_kind self.now.parser.options.context self.now.parser.page.opened) }
    {
        self.adjusted_kind().is_html()
    }

    /// Whether `<![CDATA[` begins a section: the adjusted current node is not an HTML element.
    pub fn is_foreign(&self) -> bool
        ensures { result ≡ is_foreign self.now.parser }
    {
        !self.is_in_html()
    }

    /// A start tag.
    pub(crate) fn dispatch_start(&mut self, tag: &StartTag<T, A>) -> Result<Step, TreeBuilderError>
        ensures parser { IfOk result (λ step. (again : Again) → followed again step self.new.parser (StartToken (tag_of T.said tag.now)) ≡ dispatched again (StartToken (tag_of T.said tag.now)) self.old.parser) }
        ensures telling { OnOk result (self.new.telling ≡ self.old.telling) }
    {
        let kind = tag.kind();
        if takes_start(self.adjusted_kind(), kind) {
            return self.start_in_mode(tag);
        }
        if is_breakout(kind, tag) {
            self.break_out()?;
            return self.start_in_mode(tag);
        }
        self.foreign_start(tag)?;
        Ok(Step::Done)
    }

    /// An end tag.
    pub(crate) fn dispatch_end(&mut self, name: &ElementName<A>) -> Result<Step, TreeBuilderError>
        ensures parser { IfOk result (λ step. (again : Again) → followed again step self.new.parser (EndTag (name_bytes name.now)) ≡ dispatched again (EndTag (name_bytes name.now)) self.old.parser) }
        ensures telling { OnOk result (self.new.telling ≡ self.old.telling) }
    {
        if self.is_in_html() || self.foreign_end(name.kind(), name)? {
            return self.end_in_mode(name);
        }
        Ok(Step::Done)
    }

    /// A comment.
    pub(crate) fn dispatch_comment(&mut self, text: &str) -> Result<Step, TreeBuilderError>
        ensures parser { IfOk result (λ step. (again : Again) → followed again step self.new.parser (Comment text.now) ≡ dispatched again (Comment text.now) self.old.parser) }
        ensures telling { OnOk result (self.new.telling ≡ self.old.telling) }
    {
        if self.is_in_html() {
            return self.comment_in_mode(text);
        }
        self.insert_comment(text)?;
        Ok(Step::Done)
    }

    /// A doctype.
    pub(crate) fn dispatch_doctype(
        &mut self,
        doctype: &Doctype<A>,
    ) -> Result<Step, TreeBuilderError>
        ensures parser { IfOk result (λ step. (again : Again) → followed again step self.new.parser (DoctypeToken (doctype_of doctype.now)) ≡ dispatched again (DoctypeToken (doctype_of doctype.now)) self.old.parser) }
        ensures telling { OnOk result (self.new.telling ≡ self.old.telling) }
    {
        if self.is_in_html() {
            return self.doctype_in_mode(doctype);
        }
        self.unexpected()?;
        Ok(Step::Done)
    }
}
