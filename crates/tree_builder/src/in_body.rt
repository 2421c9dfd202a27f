//! "The rules for parsing tokens in HTML content", "in body": blocks, items, headings, forms, void elements, select, ruby, and
//! the end of the body.
ghost use Rattle.std.specs.Prelude.{◌≡◌, Some, codes, IfOk, OnOk, if◌then◌else◌};
ghost use Rattle.html5ever_interface.specs.declared.states.RawKind.TheVariants.{Rawtext};
ghost use Rattle.tree_construction.specs.Formatting.{reconstructed};
ghost use Rattle.tree_construction.specs.InBody.{any_other_start_tag, end_block, end_description, end_form, end_form_of, end_heading, end_list_item, end_marked, end_paragraph, expects_no_option, insert_form, insert_input, is_hidden_type, is_in_select, is_option_or_group, is_quirks, is_ruby_or_container, item_met, start_block, start_button, start_foreign, start_form, start_input, start_item, start_marked, start_noscript, start_option, start_option_group, start_plaintext, start_preformatted, start_ruby_base, start_ruby_text, start_rule, start_select, start_table, start_textarea, start_void, start_xmp, without_heading, without_item_of, without_option, without_select};
ghost use Rattle.tree_construction.specs.Names.{is_button, is_heading, is_option_group, is_paragraph, is_ruby, is_ruby_container, is_select, is_select_option};
ghost use Rattle.tree_construction.specs.Page.{edited, has_kind, has_name, popped_to_first};
ghost use Rattle.tree_construction.specs.Parser.{Again, acknowledges, expects_current, implied_ended, implied_ended_but, in_button_scope, in_scope, insert, insert_void, insert_with_text, not_frameset_ok, on_page, pop_until, unexpected, without_paragraph};
ghost use Rattle.tree_construction.specs.Tokens.{bare_tag, value_of};
ghost use Rattle.tree_construction.specs.Tokens.Token.{StartTag as StartToken, EndTag, EndOfFile};
ghost use Rattle.tree_names.specs.ElementNames.{name_bytes};
ghost use Rattle.tree_builder.specs.Built.{followed, on_parser, tag_of};
ghost use Rattle.tree_lists.specs.Wanted.{is_in, is_wanted};

use crate::builder::Builder;
use crate::closing::PopTest;
use crate::request::Request;
use crate::tag::{StartTag, Step};
use html5ever_interface::states::RawKind;
use std::alloc::Allocator;
use tree_construction::kinds::{Kind, Namespace};
use tree_construction::mistakes::Mistake;
use tree_construction::modes::{Mode, QuirksMode};
use tree_lists::wanted::{KindSet, Scope, Wanted};
use tree_names::attributes::matches;
use tree_names::known::KnownName;
use tree_names::name::ElementName;
use tree_sink::attributes::TagAttributes;
use tree_sink::error::TreeBuilderError;
use tree_sink::sink::TreeSink;

impl<S: TreeSink<T> + Drop, T: TagAttributes, A: Allocator + Copy> Builder<S, T, A> {
    /// Blocks: `address`, `article`, `aside`, and so on.
    pub fn start_block(&mut self, tag: &StartTag<T, A>) -> Result<(), TreeBuilderError>
        ensures { OnOk result (self.new ≡ on_parser (start_block (tag_of T.said tag.now)) self.old) }
    {
        self.close_p_in_button_scope()?;
        self.insert(tag)?;
        Ok(())
    }

    // A heading that is the current node is closed.
    fn without_heading(&mut self) -> Result<(), TreeBuilderError>
        ensures { OnOk result (self.new ≡ on_parser (without_heading) self.old) }
    {
        if self.current_is(&Wanted::Of(KindSet::Heading)) {
            self.unexpected()?;
            self.pop()?;
        }
        Ok(())
    }

    /// `h1` to `h6`.
    pub fn start_heading(&mut self, tag: &StartTag<T, A>) -> Result<(), TreeBuilderError>
        ensures { OnOk result (self.new ≡ on_parser ((λ p. insert (tag_of T.said tag.now) (without_heading (without_paragraph p)))) self.old) }
    {
        self.close_p_in_button_scope()?;
        self.without_heading()?;
        self.insert(tag)?;
        Ok(())
    }

    /// `pre`, `listing`.
    pub fn start_preformatted(&mut self, tag: &StartTag<T, A>) -> Result<(), TreeBuilderError>
        ensures { OnOk result (self.new ≡ on_parser (start_preformatted (tag_of T.said tag.now)) self.old) }
    {
        self.start_block(tag)?;
        self.ignores_newline = true;
        self.frameset_ok = false;
        Ok(())
    }

    // Closes the item that a start tag `li`, `dd` or `dt` ends.
    fn close_item(&mut self, set: KindSet) -> Result<(), TreeBuilderError>
        ensures { OnOk result (self.new ≡ on_parser (λ p. without_item_of (item_met (has_kind (is_in set)) p.page.opened) p) self.old) }
    {
        match self.opened.item_met(set)? {
            Some(name) => self.end_element_without_implied(&Wanted::Named(&name)),
            None => Ok(()),
        }
    }

    /// `li`, `dd`, `dt`.
    pub fn start_item(&mut self, set: KindSet, tag: &StartTag<T, A>) -> Result<(), TreeBuilderError>
        ensures { OnOk result (self.new ≡ on_parser (start_item (has_kind (is_in set)) (tag_of T.said tag.now)) self.old) }
    {
        self.set_frameset_not_ok();
        self.close_item(set)?;
        self.close_p_in_button_scope()?;
        self.insert(tag)?;
        Ok(())
    }

    /// `plaintext`.
    pub fn start_plaintext(&mut self, tag: &StartTag<T, A>) -> Result<(), TreeBuilderError>
        ensures { OnOk result (self.new ≡ on_parser (start_plaintext (tag_of T.said tag.now)) self.old) }
    {
        self.start_block(tag)?;
        self.ask(Request::ReadPlain);
        Ok(())
    }

    /// The end tag of a block, if such an element is in scope.
    pub fn end_block(&mut self, wanted: &Wanted<'_, S::Handle, A>) -> Result<(), TreeBuilderError>
        ensures { OnOk result (self.new ≡ on_parser (end_block (is_wanted S.Handle.node wanted.now)) self.old) }
    {
        if self.has_in_scope(Scope::Default, wanted) {
            return self.end_element(wanted);
        }
        self.unexpected()
    }

    /// `</li>`.
    pub fn end_list_item(&mut self) -> Result<(), TreeBuilderError>
        ensures { OnOk result (self.new ≡ on_parser (end_list_item) self.old) }
    {
        if self.has_in_scope(Scope::ListItem, &Wanted::Of(KindSet::ListItem)) {
            return self.end_element_without_implied(&Wanted::Of(KindSet::ListItem));
        }
        self.unexpected()
    }

    /// `</dd>`, `</dt>`.
    pub fn end_description(&mut self, name: &ElementName<A>) -> Result<(), TreeBuilderError>
        ensures { OnOk result (self.new ≡ on_parser (end_description (name_bytes name.now)) self.old) }
    {
        let wanted = Wanted::Named(name);
        if self.has_in_scope(Scope::Default, &wanted) {
            return self.end_element_without_implied(&wanted);
        }
        self.unexpected()
    }

    // Closes a heading that is in scope.
    fn close_heading(&mut self, name: &ElementName<A>) -> Result<(), TreeBuilderError>
        ensures { OnOk result (self.new ≡ on_parser ((λ p. pop_until (has_kind is_heading) (expects_current (has_name (name_bytes name.now)) (implied_ended p)))) self.old) }
    {
        self.generate_implied_end_tags()?;
        self.expect_current(&Wanted::Named(name))?;
        self.pop_until(&Wanted::Of(KindSet::Heading))
    }

    /// `</h1>` to `</h6>`: any ends any.
    pub fn end_heading(&mut self, name: &ElementName<A>) -> Result<(), TreeBuilderError>
        ensures { OnOk result (self.new ≡ on_parser (end_heading (name_bytes name.now)) self.old) }
    {
        if self.has_in_scope(Scope::Default, &Wanted::Of(KindSet::Heading)) {
            return self.close_heading(name);
        }
        self.unexpected()
    }

    // Without a `p` in button scope an empty one is inserted.
    #[tactic(auto, unfolding(tree_construction::specs::Names::kind_of, tree_construction::specs::Names::kind_in, tree_construction::specs::Names::all_names, tree_construction::specs::Names::is_among))]
    fn ensure_p(&mut self) -> Result<(), TreeBuilderError>
        ensures { OnOk result (self.new ≡ on_parser (λ p. if in_button_scope (has_kind is_paragraph) p then p else insert (bare_tag (codes "p")) (unexpected p)) self.old) }
    {
        if self.has_in_scope(Scope::Button, &Wanted::Of(KindSet::Paragraph)) {
            return Ok(());
        }
        self.unexpected()?;
        self.insert_bare(KnownName::P)?;
        Ok(())
    }

    /// `</p>`.
    pub fn end_paragraph(&mut self) -> Result<(), TreeBuilderError>
        ensures { OnOk result (self.new ≡ on_parser (end_paragraph) self.old) }
    {
        self.ensure_p()?;
        self.close_p_element()
    }

    // Opens a form, and notes it.
    fn insert_form(&mut self, tag: &StartTag<T, A>) -> Result<(), TreeBuilderError>
        ensures { OnOk result (self.new ≡ on_parser (insert_form (tag_of T.said tag.now)) self.old) }
    {
        self.close_p_in_button_scope()?;
        let handle = self.insert_element(
            Kind::Form,
            &ElementName::Known(KnownName::FORM),
            &tag.attributes,
        )?;
        self.form = Some(handle);
        Ok(())
    }

    /// `form`.
    pub fn start_form(&mut self, tag: &StartTag<T, A>) -> Result<(), TreeBuilderError>
        ensures { OnOk result (self.new ≡ on_parser (start_form (tag_of T.said tag.now)) self.old) }
    {
        if self.has_template() {
            return self.start_block(tag);
        }
        if self.form.is_some() {
            return self.unexpected();
        }
        self.insert_form(tag)
    }

    // Closes the form that was noted.
    fn close_form(&mut self, form: S::Handle) -> Result<(), TreeBuilderError>
        ensures { OnOk result (self.new ≡ on_parser ((λ p. end_form_of (Some (S.Handle.node form)) p)) self.old) }
    {
        self.form = None;
        let wanted = Wanted::Node(form);
        if !self.has_in_scope(Scope::Default, &wanted) {
            return self.unexpected();
        }
        self.generate_implied_end_tags()?;
        self.expect_current(&wanted)?;
        self.remove_from_stack(form)
    }

    /// `</form>`.
    pub fn end_form(&mut self) -> Result<(), TreeBuilderError>
        ensures { OnOk result (self.new ≡ on_parser (end_form) self.old) }
    {
        if self.has_template() {
            return self.end_block(&Wanted::Of(KindSet::Form));
        }
        match self.form {
            Some(form) => self.close_form(form),
            None => self.unexpected(),
        }
    }

    // A button in scope is closed.
    fn without_button(&mut self) -> Result<(), TreeBuilderError>
        ensures { OnOk result (self.new ≡ on_parser ((λ p. if in_scope (has_kind is_button) p then pop_until (has_kind is_button) (implied_ended (unexpected p)) else p)) self.old) }
    {
        if !self.has_in_scope(Scope::Default, &Wanted::Of(KindSet::Button)) {
            return Ok(());
        }
        self.unexpected()?;
        self.generate_implied_end_tags()?;
        self.pop_until(&Wanted::Of(KindSet::Button))
    }

    /// `button`.
    pub fn start_button(&mut self, tag: &StartTag<T, A>) -> Result<(), TreeBuilderError>
        ensures { OnOk result (self.new ≡ on_parser (start_button (tag_of T.said tag.now)) self.old) }
    {
        self.without_button()?;
        self.reconstruct()?;
        self.insert(tag)?;
        self.set_frameset_not_ok();
        Ok(())
    }

    /// `applet`, `marquee`, `object`.
    pub fn start_marked(&mut self, tag: &StartTag<T, A>) -> Result<(), TreeBuilderError>
        ensures { OnOk result (self.new ≡ on_parser (start_marked (tag_of T.said tag.now)) self.old) }
    {
        self.reconstruct()?;
        self.insert(tag)?;
        self.push_marker()?;
        self.set_frameset_not_ok();
        Ok(())
    }

    /// `</applet>`, `</marquee>`, `</object>`.
    pub fn end_marked(&mut self, name: &ElementName<A>) -> Result<(), TreeBuilderError>
        ensures { OnOk result (self.new ≡ on_parser (end_marked (name_bytes name.now)) self.old) }
    {
        let wanted = Wanted::Named(name);
        if !self.has_in_scope(Scope::Default, &wanted) {
            return self.unexpected();
        }
        self.end_element(&wanted)?;
        self.clear_to_marker();
        Ok(())
    }

    // In quirks mode a `p` may hold a table.
    fn close_p_before_table(&mut self) -> Result<(), TreeBuilderError>
        ensures { OnOk result (self.new ≡ on_parser ((λ p. if is_quirks p.quirks_mode then p else without_paragraph p)) self.old) }
    {
        if self.quirks_mode == QuirksMode::Quirks {
            return Ok(());
        }
        self.close_p_in_button_scope()
    }

    /// `table`.
    pub fn start_table(&mut self, tag: &StartTag<T, A>) -> Result<(), TreeBuilderError>
        ensures { OnOk result (self.new ≡ on_parser (start_table (tag_of T.said tag.now)) self.old) }
    {
        self.close_p_before_table()?;
        self.insert(tag)?;
        self.set_frameset_not_ok();
        self.set_mode(Mode::InTable);
        Ok(())
    }

    /// `area`, `br`, `embed`, `img`, `keygen`, `wbr`.
    pub fn start_void(&mut self, tag: &StartTag<T, A>) -> Result<(), TreeBuilderError>
        ensures { OnOk result (self.new ≡ on_parser (start_void (tag_of T.said tag.now)) self.old) }
    {
        self.reconstruct()?;
        self.insert_void(tag)?;
        self.set_frameset_not_ok();
        Ok(())
    }

    /// `</br>`, which acts as `<br>`.
    pub fn end_line_break(&mut self) -> Result<(), TreeBuilderError>
        ensures { OnOk result (self.new ≡ on_parser ((λ p. start_void (bare_tag (codes "br")) (unexpected p))) self.old) }
    {
        self.unexpected()?;
        self.reconstruct()?;
        self.insert_void_bare(KnownName::BR)?;
        self.set_frameset_not_ok();
        Ok(())
    }

    // Whether the context element of a fragment is a `select`.
    fn is_in_select(&self) -> bool
        ensures { result ≡ is_in_select self.now.parser.options.context }
    {
        match self.context {
            Some(context) => context.kind.is_select(),
            None => false,
        }
    }

    // Closes a `select` that is in scope.
    fn close_select(&mut self) -> Result<(), TreeBuilderError>
        ensures { OnOk result (self.new ≡ on_parser ((λ p. pop_until (has_kind is_select) (unexpected p))) self.old) }
    {
        self.unexpected()?;
        self.pop_until(&Wanted::Of(KindSet::Select))
    }

    // A `select` in scope is closed.
    fn without_select(&mut self) -> Result<(), TreeBuilderError>
        ensures { OnOk result (self.new ≡ on_parser (without_select) self.old) }
    {
        if self.has_in_scope(Scope::Default, &Wanted::Of(KindSet::Select)) {
            return self.close_select();
        }
        Ok(())
    }

    // Inserts an `input`. One that is hidden lets framesets in.
    fn insert_input(&mut self, tag: &StartTag<T, A>) -> Result<(), TreeBuilderError>
        ensures { OnOk result (self.new ≡ on_parser (insert_input (tag_of T.said tag.now)) self.old) }
    {
        self.reconstruct()?;
        self.insert_void(tag)?;
        if !is_hidden(&tag.attributes) {
            self.set_frameset_not_ok();
        }
        Ok(())
    }

    /// `input`.
    pub fn start_input(&mut self, tag: &StartTag<T, A>) -> Result<(), TreeBuilderError>
        ensures { OnOk result (self.new ≡ on_parser (start_input (tag_of T.said tag.now)) self.old) }
    {
        if self.is_in_select() {
            return self.unexpected();
        }
        self.without_select()?;
        self.insert_input(tag)
    }

    // An `option` or `optgroup` in scope is a parse error.
    fn expect_no_option(&mut self, set: KindSet) -> Result<(), TreeBuilderError>
        ensures { OnOk result (self.new ≡ on_parser (expects_no_option (has_kind (is_in set))) self.old) }
    {
        if self.has_in_scope(Scope::Default, &Wanted::Of(set)) {
            return self.unexpected();
        }
        Ok(())
    }

    // Options in a `select` end.
    fn end_options(&mut self) -> Result<(), TreeBuilderError>
        ensures { OnOk result (self.new ≡ on_parser ((λ p. expects_no_option is_option_or_group (implied_ended p))) self.old) }
    {
        self.generate_implied_end_tags()?;
        self.expect_no_option(KindSet::OptionOrGroup)
    }

    // In a `select` a rule ends options.
    fn end_options_before_rule(&mut self) -> Result<(), TreeBuilderError>
        ensures { OnOk result (self.new ≡ on_parser ((λ p. if in_scope (has_kind is_select) p then expects_no_option is_option_or_group (implied_ended p) else p)) self.old) }
    {
        if self.has_in_scope(Scope::Default, &Wanted::Of(KindSet::Select)) {
            return self.end_options();
        }
        Ok(())
    }

    /// `hr`.
    pub fn start_rule(&mut self, tag: &StartTag<T, A>) -> Result<(), TreeBuilderError>
        ensures { OnOk result (self.new ≡ on_parser (start_rule (tag_of T.said tag.now)) self.old) }
    {
        self.close_p_in_button_scope()?;
        self.end_options_before_rule()?;
        self.insert_void(tag)?;
        self.set_frameset_not_ok();
        Ok(())
    }

    /// `textarea`.
    pub fn start_textarea(&mut self, tag: &StartTag<T, A>) -> Result<(), TreeBuilderError>
        ensures { OnOk result (self.new ≡ on_parser (start_textarea (tag_of T.said tag.now)) self.old) }
    {
        self.insert_with_text(RawKind::Rcdata, tag)?;
        self.ignores_newline = true;
        self.frameset_ok = false;
        Ok(())
    }

    /// `xmp`.
    pub fn start_xmp(&mut self, tag: &StartTag<T, A>) -> Result<(), TreeBuilderError>
        ensures { OnOk result (self.new ≡ on_parser (start_xmp (tag_of T.said tag.now)) self.old) }
    {
        self.close_p_in_button_scope()?;
        self.reconstruct()?;
        self.set_frameset_not_ok();
        self.insert_with_text(RawKind::Rawtext, tag)
    }

    /// `iframe`.
    pub fn start_iframe(&mut self, tag: &StartTag<T, A>) -> Result<(), TreeBuilderError>
        ensures { OnOk result (self.new ≡ on_parser ((λ p. insert_with_text Rawtext (tag_of T.said tag.now) (not_frameset_ok p))) self.old) }
    {
        self.set_frameset_not_ok();
        self.insert_with_text(RawKind::Rawtext, tag)
    }

    /// `select`.
    pub fn start_select(&mut self, tag: &StartTag<T, A>) -> Result<(), TreeBuilderError>
        ensures { OnOk result (self.new ≡ on_parser (start_select (tag_of T.said tag.now)) self.old) }
    {
        if self.is_in_select() {
            return self.unexpected();
        }
        if self.has_in_scope(Scope::Default, &Wanted::Of(KindSet::Select)) {
            return self.close_select();
        }
        self.reconstruct()?;
        self.insert(tag)?;
        self.set_frameset_not_ok();
        Ok(())
    }

    // An `option` that is the current node is closed.
    fn without_option(&mut self) -> Result<(), TreeBuilderError>
        ensures { OnOk result (self.new ≡ on_parser (without_option) self.old) }
    {
        if self.current_is(&Wanted::Of(KindSet::SelectOption)) {
            return self.pop();
        }
        Ok(())
    }

    // What an `option` ends.
    fn end_before_option(&mut self) -> Result<(), TreeBuilderError>
        ensures { OnOk result (self.new ≡ on_parser ((λ p. if in_scope (has_kind is_select) p then expects_no_option (has_kind is_select_option) (implied_ended_but (has_kind is_option_group) p) else without_option p)) self.old) }
    {
        if !self.has_in_scope(Scope::Default, &Wanted::Of(KindSet::Select)) {
            return self.without_option();
        }
        self.generate_implied_end_tags_but(&Wanted::Of(KindSet::OptionGroup))?;
        self.expect_no_option(KindSet::SelectOption)
    }

    /// `option`.
    pub fn start_option(&mut self, tag: &StartTag<T, A>) -> Result<(), TreeBuilderError>
        ensures { OnOk result (self.new ≡ on_parser (start_option (tag_of T.said tag.now)) self.old) }
    {
        self.end_before_option()?;
        self.reconstruct()?;
        self.insert(tag)?;
        Ok(())
    }

    // What an `optgroup` ends.
    fn end_before_option_group(&mut self) -> Result<(), TreeBuilderError>
        ensures { OnOk result (self.new ≡ on_parser ((λ p. if in_scope (has_kind is_select) p then expects_no_option is_option_or_group (implied_ended p) else without_option p)) self.old) }
    {
        if self.has_in_scope(Scope::Default, &Wanted::Of(KindSet::Select)) {
            return self.end_options();
        }
        self.without_option()
    }

    /// `optgroup`.
    pub fn start_option_group(&mut self, tag: &StartTag<T, A>) -> Result<(), TreeBuilderError>
        ensures { OnOk result (self.new ≡ on_parser (start_option_group (tag_of T.said tag.now)) self.old) }
    {
        self.end_before_option_group()?;
        self.reconstruct()?;
        self.insert(tag)?;
        Ok(())
    }

    // What `rb` and `rtc` end.
    fn end_before_ruby_base(&mut self) -> Result<(), TreeBuilderError>
        ensures { OnOk result (self.new ≡ on_parser ((λ p. if in_scope (has_kind is_ruby) p then expects_current (has_kind is_ruby) (implied_ended p) else p)) self.old) }
    {
        if !self.has_in_scope(Scope::Default, &Wanted::Of(KindSet::Ruby)) {
            return Ok(());
        }
        self.generate_implied_end_tags()?;
        self.expect_current(&Wanted::Of(KindSet::Ruby))
    }

    /// `rb`, `rtc`.
    pub fn start_ruby_base(&mut self, tag: &StartTag<T, A>) -> Result<(), TreeBuilderError>
        ensures { OnOk result (self.new ≡ on_parser (start_ruby_base (tag_of T.said tag.now)) self.old) }
    {
        self.end_before_ruby_base()?;
        self.insert(tag)?;
        Ok(())
    }

    // What `rp` and `rt` end.
    fn end_before_ruby_text(&mut self) -> Result<(), TreeBuilderError>
        ensures { OnOk result (self.new ≡ on_parser ((λ p. if in_scope (has_kind is_ruby) p then expects_current is_ruby_or_container (implied_ended_but (has_kind is_ruby_container) p) else p)) self.old) }
    {
        if !self.has_in_scope(Scope::Default, &Wanted::Of(KindSet::Ruby)) {
            return Ok(());
        }
        self.generate_implied_end_tags_but(&Wanted::Of(KindSet::RubyContainer))?;
        self.expect_current(&Wanted::Of(KindSet::RubyOrContainer))
    }

    /// `rp`, `rt`.
    pub fn start_ruby_text(&mut self, tag: &StartTag<T, A>) -> Result<(), TreeBuilderError>
        ensures { OnOk result (self.new ≡ on_parser (start_ruby_text (tag_of T.said tag.now)) self.old) }
    {
        self.end_before_ruby_text()?;
        self.insert(tag)?;
        Ok(())
    }

    /// `math` and `svg`.
    pub fn start_foreign(
        &mut self,
        namespace: Namespace,
        tag: &StartTag<T, A>,
    ) -> Result<(), TreeBuilderError>
        ensures { OnOk result (self.new ≡ on_parser (start_foreign namespace (tag_of T.said tag.now)) self.old) }
    {
        self.reconstruct()?;
        self.insert_foreign(namespace, tag)?;
        if tag.self_closing {
            self.pop()?;
            self.acknowledge();
        }
        Ok(())
    }

    /// Any other start tag.
    pub fn any_other_start_tag(&mut self, tag: &StartTag<T, A>) -> Result<(), TreeBuilderError>
        ensures { OnOk result (self.new ≡ on_parser (any_other_start_tag (tag_of T.said tag.now)) self.old) }
    {
        self.reconstruct()?;
        self.insert(tag)?;
        Ok(())
    }

    /// `noscript`.
    pub fn start_noscript(&mut self, tag: &StartTag<T, A>) -> Result<(), TreeBuilderError>
        ensures { OnOk result (self.new ≡ on_parser (start_noscript (tag_of T.said tag.now)) self.old) }
    {
        if self.opts.scripting_enabled {
            return self.insert_with_text(RawKind::Rawtext, tag);
        }
        self.any_other_start_tag(tag)
    }
}

// Whether an `input` is hidden.
pub(crate) fn is_hidden<T: TagAttributes>(attributes: &T) -> bool
    ensures { result ≡ is_hidden_type (value_of (codes "type") (T.said attributes.now)) }
{
    match attributes.value_of("type") {
        Some(value) => matches("hidden", value),
        None => false,
    }
}
