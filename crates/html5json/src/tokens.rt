//! A token as JSON.
ghost use Rattle.std.specs.Prelude.{◌≡◌, [], ◌∷◌, ◌++◌, codes, decimal, map, option_map};
ghost use Rattle.html5ever_interface.specs.Token.{doctype_of, tag_of, told_by};
ghost use Rattle.html5ever_interface.specs.Token.Told.{Doctype as ToldDoctype, Error, Tag as ToldTag, Text};
ghost use Rattle.html5json.specs.Adding.{Adds};
ghost use Rattle.html5json.specs.Tokens.{attribute_items, code_word, json_of_attribute, kind_word, on_line, tag_members, text_members, token_members};
ghost use Rattle.json.specs.Json.{no_members};
ghost use Rattle.json.specs.Token.{begin_array, key};
ghost use Rattle.json.specs.Tree.{items_tokens, json_tokens, members_tokens};
ghost use Rattle.markup5ever.specs.Names.{attribute_of};

use crate::members::{
    end_with_flag, end_with_option, end_with_text, write_option, write_text, write_type,
    write_type_and_line,
};
use html5errors::error_code;
use html5ever_interface::interface::token::{Doctype, Tag, TagKind, Token};
use json::Writer;
use markup5ever::interface::Attribute;
use std::alloc::{AllocError, Allocator};

// Writes an attribute: its name and its value.
fn write_attribute<A: Allocator, B: Allocator>(
    writer: &mut Writer<A>,
    attribute: &Attribute<B>,
) -> Result<(), AllocError>
    ensures { Adds result writer.old writer.new (json_tokens (json_of_attribute (attribute_of attribute.now))) }
{
    writer.begin_array()?;
    writer.string(&attribute.name.local.0)?;
    writer.string(&attribute.value)?;
    writer.end_array()
}

// Writes the items of an array of attributes, and its end.
fn write_attribute_items<A: Allocator, B: Allocator>(
    writer: &mut Writer<A>,
    attributes: &[Attribute<B>],
) -> Result<(), AllocError>
    ensures { Adds result writer.old writer.new (items_tokens (attribute_items (map attribute_of attributes.now))) }
{
    for attribute in attributes {
        write_attribute(writer, attribute)?;
    }
    writer.end_array()
}

// Writes an array of attributes.
fn write_array<A: Allocator, B: Allocator>(
    writer: &mut Writer<A>,
    attributes: &[Attribute<B>],
) -> Result<(), AllocError>
    ensures { Adds result writer.old writer.new
        (begin_array ∷ items_tokens (attribute_items (map attribute_of attributes.now))) }
{
    writer.begin_array()?;
    write_attribute_items(writer, attributes)
}

// Writes the attributes of a tag.
fn write_attributes<A: Allocator, B: Allocator>(
    writer: &mut Writer<A>,
    attributes: &[Attribute<B>],
) -> Result<(), AllocError>
    ensures { Adds result writer.old writer.new
        (key (codes "attributes") ∷ begin_array ∷ items_tokens (attribute_items (map attribute_of attributes.now))) }
{
    writer.key("attributes")?;
    write_array(writer, attributes)
}

// Writes what a tag holds, and the end of its object.
fn write_tag_members<A: Allocator, B: Allocator>(
    writer: &mut Writer<A>,
    tag: &Tag<B>,
) -> Result<(), AllocError>
    ensures { Adds result writer.old writer.new (members_tokens (tag_members (tag_of tag.now))) }
{
    write_text(writer, "name", &tag.name.0)?;
    write_attributes(writer, &tag.attrs)?;
    end_with_flag(writer, "self_closing", tag.self_closing)
}

// The type of a tag.
fn kind_word(kind: TagKind) -> &'static str
    ensures { result.now ≡ kind_word kind }
{
    match kind {
        TagKind::StartTag => "start",
        TagKind::EndTag => "end",
    }
}

// Writes the members of an object that has a type and a line, and no more, and its end.
fn write_bare<A: Allocator>(writer: &mut Writer<A>, kind: &str, line: u64) -> Result<(), AllocError>
    ensures { Adds result writer.old writer.new (members_tokens (on_line kind.now line no_members)) }
{
    write_type_and_line(writer, kind, line)?;
    writer.end_object()
}

// Writes the members of an object that has a type, a line and a text, and its end.
fn write_texted<A: Allocator>(
    writer: &mut Writer<A>,
    kind: &str,
    line: u64,
    text: &str,
) -> Result<(), AllocError>
    ensures { Adds result writer.old writer.new (members_tokens (on_line kind.now line (text_members text.now))) }
{
    write_type_and_line(writer, kind, line)?;
    end_with_text(writer, "text", text)
}

// Writes the members of a tag, and the end of its object.
fn write_tag<A: Allocator, B: Allocator>(
    writer: &mut Writer<A>,
    tag: &Tag<B>,
    line: u64,
) -> Result<(), AllocError>
    ensures { Adds result writer.old writer.new (members_tokens (token_members (ToldTag (tag_of tag.now)) line)) }
{
    write_type_and_line(writer, kind_word(tag.kind), line)?;
    write_tag_members(writer, tag)
}

// Writes the members of a DOCTYPE, and the end of its object.
fn write_doctype<A: Allocator, B: Allocator>(
    writer: &mut Writer<A>,
    doctype: &Doctype<B>,
    line: u64,
) -> Result<(), AllocError>
    ensures { Adds result writer.old writer.new (members_tokens (token_members (ToldDoctype (doctype_of doctype.now)) line)) }
{
    write_type_and_line(writer, "doctype", line)?;
    write_option(writer, "name", &doctype.name)?;
    write_option(writer, "public_id", &doctype.public_id)?;
    write_option(writer, "system_id", &doctype.system_id)?;
    end_with_flag(writer, "force_quirks", doctype.force_quirks)
}

// The standard's code of a parse error by its message, if it has one.
fn code_word(message: &str) -> Option<&'static str>
    ensures { option_map (λ code. code.now) result ≡ code_word message.now }
{
    match error_code(message) {
        Some(code) => Some(code.as_str()),
        None => None,
    }
}

// Writes the members of a parse error, and the end of its object.
fn write_error<A: Allocator>(
    writer: &mut Writer<A>,
    message: &str,
    line: u64,
) -> Result<(), AllocError>
    ensures { Adds result writer.old writer.new (members_tokens (token_members (Error message.now) line)) }
{
    write_type_and_line(writer, "error", line)?;
    write_text(writer, "message", message)?;
    end_with_option(writer, "code", code_word(message))
}

/// Writes the members of a text, and the end of its object.
pub fn write_run<A: Allocator>(writer: &mut Writer<A>, text: &str) -> Result<(), AllocError>
    ensures { Adds result writer.old writer.new (members_tokens (token_members (Text text.now) 0)) }
{
    write_type(writer, "text")?;
    end_with_text(writer, "text", text)
}

/// Writes the members of a token, and the end of its object.
pub fn write_token<A: Allocator, B: Allocator>(
    writer: &mut Writer<A>,
    token: &Token<B>,
    line: u64,
) -> Result<(), AllocError>
    ensures { Adds result writer.old writer.new (members_tokens (token_members (told_by token.now) line)) }
{
    match token {
        Token::CharacterTokens(text) => write_run(writer, text),
        Token::NullCharacterToken => write_bare(writer, "null", line),
        Token::ParseError(message) => write_error(writer, message, line),
        Token::TagToken(tag) => write_tag(writer, tag, line),
        Token::CommentToken(text) => write_texted(writer, "comment", line, text),
        Token::ProcessingInstructionToken(text) => write_texted(writer, "instruction", line, text),
        Token::DoctypeToken(doctype) => write_doctype(writer, doctype, line),
        Token::EOFToken => write_bare(writer, "end_of_page", line),
    }
}
