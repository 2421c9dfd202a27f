//! How the program reads its input.
ghost use Rattle.std.specs.Prelude.{◌≡◌, IfOk, option_map, string_bytes};
ghost use Rattle.html5ever_interface.specs.Options.{options_of};
ghost use Rattle.html5cli.specs.Settings.{options_said};

use html5ever_interface::options::TokenizerOpts;
use html5ever_interface::states::State;
use std::alloc::{AllocError, Allocator};

/// How the program reads its input.
#[derive(Clone, Copy, Debug, PartialEq, Eq)]
pub struct Settings<'w> {
    /// Report every bad character, and name no state in error messages.
    pub exact_errors: bool,
    /// Drop U+FEFF if it is the first character.
    pub discard_bom: bool,
    /// The state to start in, if it is not `Data`.
    pub initial_state: Option<State>,
    /// The name of the start tag before the input, where one is given.
    pub last: Option<&'w str>,
    /// The sink's answer about foreign content.
    pub foreign: bool,
    /// How many characters are fed at once, and 0 for a number of the program's own.
    pub cut: usize,
    /// The list of the table's entries.
    pub table: &'w str,
}

// The name as a text of its own, if there is one.
fn owned<A: Allocator>(alloc: A, name: Option<&str>) -> Result<Option<String<A>>, AllocError>
    ensures { IfOk result (λ owned. option_map string_bytes owned
        ≡ option_map (λ name. name.now) name.entry) }
{
    match name {
        None => Ok(None),
        Some(name) => Ok(Some(String::from_str(alloc, name)?)),
    }
}

/// The options that the settings give a tokenizer.
pub fn options_of<A: Allocator>(
    alloc: A,
    settings: &Settings<'_>,
) -> Result<TokenizerOpts<A>, AllocError>
    ensures { IfOk result (λ opts. options_of opts ≡ options_said settings.now) }
{
    Ok(TokenizerOpts {
        exact_errors: settings.exact_errors,
        discard_bom: settings.discard_bom,
        initial_state: settings.initial_state,
        last_start_tag_name: owned(alloc, settings.last)?,
    })
}
