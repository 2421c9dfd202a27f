//! What is found in pages as a log of SARIF 2.1.0, as code hosts read it.
ghost use Rattle.std.specs.Prelude.{◌≡◌, ◌-◌, [], ◌∷◌, ◌++◌, IfOk, OnOk, codes, decimal, map, string_bytes};
ghost use Rattle.html5check.specs.Faults.{finding_by};
ghost use Rattle.html5check.specs.Located.{located_by};
ghost use Rattle.html5json.specs.Adding.{Adds};
ghost use Rattle.html5json.specs.Findings.{before_result, location_json, log_ended, message_of, message_text, place_members, region_members, result_json, results_of};
ghost use Rattle.html5json.specs.Lines.{text_of};
ghost use Rattle.json.specs.Json.{Json, array, item, member, no_items, no_members, object, string as json_string};
ghost use Rattle.json.specs.Token.{begin_object, end_object, key, number, string};
ghost use Rattle.json.specs.Tree.{json_tokens, members_tokens};

use crate::findings::write_code;
use crate::members::{end_with_text, write_number, write_text};
use html5check::{Finding, Located, Report};
use json::Writer;
use std::alloc::{AllocError, Allocator, Global};

const LOG_START: &str =
    "{\"$schema\":\"https://json.schemastore.org/sarif-2.1.0.json\",\"version\":\"2.1.0\",\"runs\":[{\"tool\":{\"driver\":{\"name\":\"firnuubal\"}},\"columnKind\":\"unicodeCodePoints\",\"results\":[\n";

const LOG_END: &str = "\n]}]}\n";

// The text that was written, after what stood before.
#[tactic(auto, unfolding(crate::specs::Lines::text_of))]
fn written<A: Allocator>(writer: Writer<A>) -> Vec<u8, A>
    ensures { (json : Json) → writer.tokens ≡ json_tokens json → result.items ≡ writer.before ++ text_of json }
{
    writer.into_inner()
}

// The code, and of what.
fn message_text(alloc: Global, code: &str, subject: &str) -> Result<String, AllocError>
    ensures { IfOk result (λ text. string_bytes text ≡ message_text code.now subject.now) }
{
    if subject.is_empty() {
        return String::from_str(alloc, code);
    }
    format!(in alloc; "{code}: {subject}")
}

// Writes how many bytes it takes.
fn write_length<A: Allocator>(
    writer: &mut Writer<A>,
    finding: &Finding<'_>,
) -> Result<(), AllocError>
    ensures { Adds result writer.old writer.new
        (key (codes "byteLength") ∷ number (decimal (finding.now.end - finding.now.begin)) ∷ []) }
{
    let len = finding.end.saturating_sub(finding.begin);
    write_number(writer, "byteLength", len as u64)
}

// Writes where it stands in its file, and the end of the object.
fn write_region<A: Allocator>(
    writer: &mut Writer<A>,
    located: &Located<'_>,
) -> Result<(), AllocError>
    ensures { Adds result writer.old writer.new (members_tokens (region_members (located_by located.now))) }
{
    write_number(writer, "startLine", located.position.line as u64)?;
    write_number(writer, "startColumn", located.position.column as u64)?;
    write_number(writer, "byteOffset", located.finding.begin as u64)?;
    write_length(writer, &located.finding)?;
    writer.end_object()
}

// Begins a member that is an object.
fn begin_member<A: Allocator>(writer: &mut Writer<A>, name: &str) -> Result<(), AllocError>
    ensures { Adds result writer.old writer.new (key name.now ∷ begin_object ∷ []) }
{
    writer.key(name)?;
    writer.begin_object()
}

// Writes a member that is an object with one text.
fn write_text_in<A: Allocator>(
    writer: &mut Writer<A>,
    name: &str,
    inner: &str,
    text: &str,
) -> Result<(), AllocError>
    ensures { Adds result writer.old writer.new
        (key name.now ∷ begin_object ∷ key inner.now ∷ string text.now ∷ end_object ∷ []) }
{
    begin_member(writer, name)?;
    end_with_text(writer, inner, text)
}

// Writes the file and where it stands there, and the end of the object.
fn write_place<A: Allocator>(
    writer: &mut Writer<A>,
    file: &str,
    located: &Located<'_>,
) -> Result<(), AllocError>
    ensures { Adds result writer.old writer.new (members_tokens (place_members file.now (located_by located.now))) }
{
    write_text_in(writer, "artifactLocation", "uri", file)?;
    begin_member(writer, "region")?;
    write_region(writer, located)?;
    writer.end_object()
}

// Writes a location.
fn write_location<A: Allocator>(
    writer: &mut Writer<A>,
    file: &str,
    located: &Located<'_>,
) -> Result<(), AllocError>
    ensures { Adds result writer.old writer.new (json_tokens (location_json file.now (located_by located.now))) }
{
    writer.begin_object()?;
    begin_member(writer, "physicalLocation")?;
    write_place(writer, file, located)?;
    writer.end_object()
}

// Writes the locations, of which there is one.
fn write_locations<A: Allocator>(
    writer: &mut Writer<A>,
    file: &str,
    located: &Located<'_>,
) -> Result<(), AllocError>
    ensures { Adds result writer.old writer.new
        (key (codes "locations") ∷ json_tokens (array (item (location_json file.now (located_by located.now)) no_items))) }
{
    writer.key("locations")?;
    writer.begin_array()?;
    write_location(writer, file, located)?;
    writer.end_array()
}

// Writes the message: the code, and of what.
fn write_message<A: Allocator>(
    alloc: Global,
    writer: &mut Writer<A>,
    finding: &Finding<'_>,
) -> Result<(), AllocError>
    ensures { Adds result writer.old writer.new (key (codes "message") ∷ json_tokens (object
        (member (codes "text") (json_string (message_of (finding_by finding.now))) no_members))) }
{
    let text = message_text(alloc, finding.fault.code(), finding.subject)?;
    write_text_in(writer, "message", "text", &text)
}

// Writes a result.
fn write_result<A: Allocator>(
    alloc: Global,
    writer: &mut Writer<A>,
    file: &str,
    located: &Located<'_>,
) -> Result<(), AllocError>
    ensures { Adds result writer.old writer.new (json_tokens (result_json file.now (located_by located.now))) }
{
    writer.begin_object()?;
    write_code(writer, "ruleId", located.finding.fault)?;
    write_text(writer, "level", "error")?;
    write_message(alloc, writer, &located.finding)?;
    write_locations(writer, file, located)?;
    writer.end_object()
}

// These bytes, and the text of a result.
fn with_result(
    alloc: Global,
    bytes: Vec<u8>,
    file: &str,
    located: &Located<'_>,
) -> Result<Vec<u8>, AllocError>
    ensures { IfOk result (λ more. more.items ≡ bytes.items ++ text_of (result_json file.now (located_by located.now))) }
{
    let mut writer = Writer::new(bytes);
    write_result(alloc, &mut writer, file, located)?;
    Ok(written(writer))
}

// Appends the text before a result, by whether another stands before it.
fn push_before(bytes: &mut Vec<u8>, has_found: bool) -> Result<(), AllocError>
    ensures { OnOk result (bytes.new.items ≡ bytes.old.items ++ before_result has_found) }
{
    let before = if has_found { ",\n" } else { LOG_START };
    bytes.extend_from_slice(before.as_bytes())?;
    Ok(())
}

// The results of a file.
#[tactic(auto, unfolding(crate::specs::Findings::results_of))]
fn results_of(
    alloc: Global,
    has_found: bool,
    file: &str,
    found: &[Located<'_>],
) -> Result<Vec<u8>, AllocError>
    ensures { IfOk result (λ bytes. bytes.items ≡ results_of has_found file.now (map located_by found.now)) }
{
    let mut bytes = Vec::new(alloc);
    let mut has_found = has_found;
    for located in found {
        push_before(&mut bytes, has_found)?;
        bytes = with_result(alloc, bytes, file, located)?;
        has_found = true;
    }
    Ok(bytes)
}

// The end of the log, by whether there is a result.
fn log_ended(alloc: Global, has_found: bool) -> Result<Vec<u8>, AllocError>
    ensures { IfOk result (λ bytes. bytes.items ≡ log_ended has_found) }
{
    let mut bytes = Vec::new(alloc);
    if !has_found {
        bytes.extend_from_slice(LOG_START.as_bytes())?;
    }
    bytes.extend_from_slice(LOG_END.as_bytes())?;
    Ok(bytes)
}

/// For code hosts: one log of SARIF 2.1.0, with a result for each. The names of files stand there as they were given.
#[derive(Drop)]
pub struct SarifLog;

impl Report for SarifLog {
    ghost use Rattle.html5json.specs.Findings.{log_ended, results_of};
    ghost use Rattle.html5json.specs.Laws.{no_results};

    ghost printed = { results_of };

    ghost ended = { log_ended };

    ghost nothing = { no_results };

    fn print(
        alloc: Global,
        has_found: bool,
        file: &str,
        found: &[Located<'_>],
    ) -> Result<Vec<u8>, AllocError> {
        results_of(alloc, has_found, file, found)
    }

    fn end(alloc: Global, has_found: bool) -> Result<Vec<u8>, AllocError> {
        log_ended(alloc, has_found)
    }
}
