//! Members of an object that is written.
ghost use Rattle.std.specs.Prelude.{◌≡◌, [], ◌∷◌, ◌++◌, codes, decimal, option_map, string_bytes};
ghost use Rattle.html5json.specs.Adding.{Adds};
ghost use Rattle.html5json.specs.Tokens.{file_tokens, json_of_option};
ghost use Rattle.json.specs.Json.{member, no_members};
ghost use Rattle.json.specs.Token.{begin_object, key, string, number, boolean, end_object};
ghost use Rattle.json.specs.Tree.{json_tokens, members_tokens};

use json::Writer;
use std::alloc::{AllocError, Allocator};

// Writes a member that is a text.
pub(crate) fn write_text<A: Allocator>(
    writer: &mut Writer<A>,
    name: &str,
    text: &str,
) -> Result<(), AllocError>
    ensures { Adds result writer.old writer.new (key name.now ∷ string text.now ∷ []) }
{
    writer.key(name)?;
    writer.string(text)
}

// Writes a member that is a number.
pub(crate) fn write_number<A: Allocator>(
    writer: &mut Writer<A>,
    name: &str,
    value: u64,
) -> Result<(), AllocError>
    ensures { Adds result writer.old writer.new (key name.now ∷ number (decimal value) ∷ []) }
{
    writer.key(name)?;
    writer.u64(value)
}

// Writes a member that is a text or null.
pub(crate) fn write_option<A: Allocator, B: Allocator>(
    writer: &mut Writer<A>,
    name: &str,
    text: &Option<String<B>>,
) -> Result<(), AllocError>
    ensures { Adds result writer.old writer.new
        (key name.now ∷ json_tokens (json_of_option (option_map string_bytes text.now))) }
{
    writer.key(name)?;
    match text {
        Some(text) => writer.string(text),
        None => writer.null(),
    }
}

// Begins an object, with the name of its file if there is one.
pub(crate) fn begin_of_file<A: Allocator>(
    writer: &mut Writer<A>,
    file: Option<&str>,
) -> Result<(), AllocError>
    ensures { Adds result writer.old writer.new (begin_object ∷ file_tokens (option_map (λ name. name.now) file.entry)) }
{
    writer.begin_object()?;
    match file {
        Some(name) => write_text(writer, "file", name),
        None => Ok(()),
    }
}

// Writes a type.
pub(crate) fn write_type<A: Allocator>(writer: &mut Writer<A>, kind: &str) -> Result<(), AllocError>
    ensures { Adds result writer.old writer.new (key (codes "type") ∷ string kind.now ∷ []) }
{
    write_text(writer, "type", kind)
}

// Writes a type and a line.
pub(crate) fn write_type_and_line<A: Allocator>(
    writer: &mut Writer<A>,
    kind: &str,
    line: u64,
) -> Result<(), AllocError>
    ensures { Adds result writer.old writer.new
        (key (codes "type") ∷ string kind.now ∷ key (codes "line") ∷ number (decimal line) ∷ []) }
{
    write_type(writer, kind)?;
    write_number(writer, "line", line)
}

// Writes the last member of an object, a text.
pub(crate) fn end_with_text<A: Allocator>(
    writer: &mut Writer<A>,
    name: &str,
    text: &str,
) -> Result<(), AllocError>
    ensures { Adds result writer.old writer.new (key name.now ∷ string text.now ∷ end_object ∷ []) }
{
    write_text(writer, name, text)?;
    writer.end_object()
}

// Writes the last member of an object, a text or null.
pub(crate) fn end_with_option<A: Allocator>(
    writer: &mut Writer<A>,
    name: &str,
    text: Option<&str>,
) -> Result<(), AllocError>
    ensures { Adds result writer.old writer.new (members_tokens
        (member name.now (json_of_option (option_map (λ text. text.now) text.entry)) no_members)) }
{
    writer.key(name)?;
    match text {
        Some(text) => writer.string(text)?,
        None => writer.null()?,
    }
    writer.end_object()
}

// Writes the last member of an object, true or false.
pub(crate) fn end_with_flag<A: Allocator>(
    writer: &mut Writer<A>,
    name: &str,
    value: bool,
) -> Result<(), AllocError>
    ensures { Adds result writer.old writer.new (key name.now ∷ boolean value ∷ end_object ∷ []) }
{
    writer.key(name)?;
    writer.boolean(value)?;
    writer.end_object()
}
