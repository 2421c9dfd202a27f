//! What a tokenizer sends, as a builder takes it, and what the builder asks the tokenizer for.
ghost use Rattle.std.specs.Prelude.{◌≡◌, ℕ, string_bytes, IfOk, OnOk};
ghost use Rattle.html5ever_interface.specs.Token.{reply_of, tag_of, told_by};
ghost use Rattle.html5ever_interface.specs.Token.Told.{Instruction, Tag as TagMessage};
ghost use Rattle.tree_construction.specs.Construction.{told};
ghost use Rattle.tree_construction.specs.Text.{replied_by, reply_of as reply_to};
ghost use Rattle.tree_builder.specs.Built.{on_parser};
ghost use Rattle.tree_parser.specs.Building.{sent_by};

use crate::attributes::Attributes;
use crate::handle::ScriptHandle;
use html5ever_interface::interface::token::{Tag, TagKind, Token, TokenSinkResult};
use std::alloc::Global;
use tree_builder::builder::Builder;
use tree_builder::request::Request;
use tree_builder::tag::StartTag;
use tree_names::name::ElementName;
use tree_sink::error::TreeBuilderError;
use tree_sink::sink::TreeSink;

/// What a tokenizer sends: a token, or a text that stays the tokenizer's.
#[derive(Drop)]
pub enum Sent<'t> {
    Token(Token),
    Text(&'t str),
}

// What the builder asks for after a tag.
#[tactic(auto, unfolding(tree_construction::specs::Text::reply_of))]
fn reply<S: TreeSink<Attributes> + Drop>(
    builder: &Builder<S, Attributes, Global>,
) -> Result<TokenSinkResult<ScriptHandle<S::Handle>, String>, TreeBuilderError>
    ensures { IfOk result (λ answer. reply_of string_bytes answer ≡ reply_to builder.now.parser.request) }
{
    match builder.request() {
        Request::GoOn => Ok(TokenSinkResult::Continue),
        Request::ReadRaw(kind) => Ok(TokenSinkResult::RawData(*kind)),
        Request::ReadPlain => Ok(TokenSinkResult::Plaintext),
        Request::Run(handle) => Ok(TokenSinkResult::Script(ScriptHandle(*handle))),
        Request::UseCharset(name) | Request::UseContent(name) => {
            Ok(TokenSinkResult::EncodingIndicator(name.clone()?))
        }
    }
}

// Takes a tag.
#[tactic(auto, unfolding(tree_construction::specs::Construction::run))]
fn take_tag<S: TreeSink<Attributes> + Drop>(
    builder: &mut Builder<S, Attributes, Global>,
    tag: Tag,
) -> Result<(), TreeBuilderError>
    ensures { OnOk result (builder.new ≡ on_parser (told (TagMessage (tag_of tag))) builder.old) }
{
    let name = ElementName::of(tag.name);
    match tag.kind {
        TagKind::StartTag => builder.take_start_tag(StartTag {
            name,
            attributes: tag.attrs,
            self_closing: tag.self_closing,
        }),
        TagKind::EndTag => builder.take_end_tag(&name),
    }
}

// Takes a processing instruction: it is a comment that begins with a question mark.
#[tactic(auto, unfolding(tree_construction::specs::Construction::run))]
fn take_instruction<S: TreeSink<Attributes> + Drop>(
    builder: &mut Builder<S, Attributes, Global>,
    alloc: Global,
    text: &str,
) -> Result<(), TreeBuilderError>
    ensures { OnOk result (builder.new ≡ on_parser (told (Instruction text.now)) builder.old) }
{
    let mut comment = String::new(alloc);
    comment.push('?')?;
    comment.push_str(text)?;
    builder.take_comment(&comment)
}

// Takes a token that is no tag. A parse error of the tokenizer is none of the tree's.
#[tactic(auto, unfolding(tree_construction::specs::Construction::run))]
fn take_token<S: TreeSink<Attributes> + Drop>(
    builder: &mut Builder<S, Attributes, Global>,
    alloc: Global,
    token: Token,
) -> Result<(), TreeBuilderError>
    ensures { OnOk result (builder.new ≡ on_parser (told (told_by token)) builder.old) }
{
    match token {
        Token::DoctypeToken(doctype) => builder.take_doctype(&doctype),
        Token::TagToken(tag) => take_tag(builder, tag),
        Token::CommentToken(text) => builder.take_comment(&text),
        Token::ProcessingInstructionToken(text) => take_instruction(builder, alloc, &text),
        Token::CharacterTokens(text) => builder.take_text(&text),
        Token::NullCharacterToken => builder.take_text("\0"),
        Token::EOFToken => builder.take_end_of_file(),
        Token::ParseError(_) => Ok(()),
    }
}

/// Takes what a tokenizer sends, and answers what it is to do then.
pub fn take<S: TreeSink<Attributes> + Drop>(
    builder: &mut Builder<S, Attributes, Global>,
    alloc: Global,
    sent: Sent<'_>,
) -> Result<TokenSinkResult<ScriptHandle<S::Handle>, String>, TreeBuilderError>
    ensures steps { OnOk result (builder.new ≡ on_parser (told (sent_by sent.entry)) builder.old) }
    ensures replies { IfOk result (λ answer. (line : ℕ) → reply_of string_bytes answer ≡ replied_by builder.old.parser (sent_by sent.entry) line) }
{
    match sent {
        Sent::Token(Token::TagToken(tag)) => {
            take_tag(builder, tag)?;
            reply(builder)
        }
        Sent::Token(token) => {
            take_token(builder, alloc, token)?;
            Ok(TokenSinkResult::Continue)
        }
        Sent::Text(text) => {
            builder.take_text(text)?;
            Ok(TokenSinkResult::Continue)
        }
    }
}
