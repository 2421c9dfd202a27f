//! Which errors have codes.
ghost use Rattle.std.specs.Prelude.{◌≡◌, ℕ, List, All, false};
ghost use Rattle.html5errors.specs.Forms.{IsFormed};
ghost use Rattle.html5reading.specs.Reading.{all_messages};
ghost use Rattle.html5reading.specs.Start.{Rules, Start};

use html5ever_interface::interface::sink::TokenSink;
use html5ever_interface::interface::token::Token;
use std::alloc::Allocator;

/// Each error that a text tells is of one of the three forms by which `error_code` finds its code, where errors are not
/// exact.
pub fn errors_have_forms<S: TokenSink<Token<A>>, A: Allocator>()
    ensures { (rules : Rules) (K : Start) (s : S.State) (text : List ℕ) → rules.exact ≡ false →
        All (λ m. IsFormed false m.token) (all_messages S.means rules K s text) }
{}
