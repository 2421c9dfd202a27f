//! What the cuts of a page make together.
ghost use Rattle.std.specs.Prelude.{◌≡◌, ℕ, List, encode_utf8_all, true};
ghost use Rattle.std.specs.List.{concat, flat_map};
ghost use Rattle.html5reading.specs.Start.{Rules, Start, nothing_open};
ghost use Rattle.html5splice.specs.Cuts.{CutOf, cut_text, cuts};
ghost use Rattle.html5splice.specs.Edits.{no_edits, parts};

use crate::splicer::Splicer;
use html5ever_interface::interface::token::Token;
use std::alloc::Allocator;

/// The runs and the tokens of a text, as they are written, make the text, one after the other and to the byte.
pub fn cuts_make_the_text()
    ensures { (rules : Rules) (K : Start) (text : List ℕ) → nothing_open K.opened ≡ true
        → flat_map cut_text (cuts rules K text) ≡ encode_utf8_all text }
{}

/// Where a splicer replaces nothing, the text is written as it is.
pub fn what_is_not_replaced_stays<H: Splicer<Token<A>, A>, A: Allocator>()
    ensures { (s : H.State) (rules : Rules) (K : Start) (text : List ℕ) → nothing_open K.opened ≡ true
        → ((t : H.State) (cut : CutOf) → H.splices.edits t cut ≡ no_edits)
        → concat (parts H.splices s (cuts rules K text)) ≡ encode_utf8_all text }
{}
