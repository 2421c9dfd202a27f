//! How a tokenizer reads.
ghost use Rattle.std.specs.Prelude.{◌≡◌, IfOk};

use crate::states::State;
use std::alloc::{AllocError, Allocator, Global};

/// How a tokenizer reads.
#[derive(Drop)]
#[derive_where(Debug, PartialEq, Eq)]
pub struct TokenizerOpts<A: Allocator = Global> {
    /// Report every bad character, and name no state in error messages.
    pub exact_errors: bool,
    /// Drop U+FEFF if it is the first character of the stream.
    pub discard_bom: bool,
    /// The state to start in, if it is not `Data`. It must be a text state.
    pub initial_state: Option<State>,
    /// The name of the start tag before the input: raw data ends at an end tag of that name.
    pub last_start_tag_name: Option<String<A>>,
}

impl<A: Allocator> Default for TokenizerOpts<A> {
    ghost use Rattle.std.specs.Prelude.{◌≡◌};
    ghost use Rattle.html5ever_interface.specs.Options.{options_of, default_options};

    ghost is_default = { λ opts. options_of opts ≡ default_options };

    fn default() -> Self {
        TokenizerOpts {
            exact_errors: false,
            discard_bom: true,
            initial_state: None,
            last_start_tag_name: None,
        }
    }
}

impl<A: Allocator + Copy> TokenizerOpts<A> {
    ghost use Rattle.html5ever_interface.specs.Options.{options_of};

    /// Equal options, with the same allocator.
    pub fn try_clone(&self) -> Result<TokenizerOpts<A>, AllocError>
        ensures { IfOk result (λ clone. options_of clone ≡ options_of self.now) }
    {
        let last_start_tag_name = self.last_start_tag_name.clone()?;
        Ok(TokenizerOpts {
            exact_errors: self.exact_errors,
            discard_bom: self.discard_bom,
            initial_state: self.initial_state,
            last_start_tag_name,
        })
    }
}
