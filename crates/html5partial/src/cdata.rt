//! The text of a CDATA section.
#![tactic(auto, unfolding(html5reading::specs::Cdata::ends_cdata))]

ghost use Rattle.std.specs.Prelude.{◌≡◌, ◌∷◌, [], ◌++◌, OnOk, true, take, string_bytes};
ghost use Rattle.std.specs.Str.{IsCharBoundary, chars};
ghost use Rattle.html5reading.specs.Cdata.{ends_cdata};
ghost use Rattle.html5reading.specs.Comment.{without_last};
ghost use Rattle.html5reading.specs.Start.Open.{InCdata};
ghost use Rattle.html5partial.specs.CurrentTag.{opened_of, last_name_of};

use crate::comments::ends_in;
use crate::opened::Opened;
use html5ever_interface::states::State;
use std::alloc::{AllocError, Allocator};

/// Whether `>` ends the section after this text.
pub fn ends_section(text: &str) -> bool
    ensures { result ≡ ends_cdata (chars text.now) }
{
    ends_in(text, b"]]")
}

/// The length of the text that is sent at the section's end, without the two brackets.
pub fn section_len(text: &str) -> usize
    requires { ends_cdata (chars text.now) ≡ true }
    ensures content { chars (take result text.now) ≡ without_last 2 (chars text.now) }
    ensures boundary { IsCharBoundary text.now result }
{
    text.len() - 2
}

/// Appends a character to the text that is held of a section.
pub fn push_text<A: Allocator>(at: &mut Opened<A>, c: char) -> Result<(), AllocError>
    requires { at.old.state ≡ State.CdataSection }
    ensures text { OnOk result (opened_of at.new ≡ InCdata (chars (string_bytes at.old.comment) ++ c ∷ [])) }
    ensures last { last_name_of at.new ≡ last_name_of at.old }
{
    at.comment.push(c)?;
    Ok(())
}
