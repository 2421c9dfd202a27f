//! How the places of a text's tokens lie, and those of its pieces.
ghost use Rattle.std.specs.Prelude.{◌≡◌, ◌≤◌, ◌++◌, All, List, [], true, ℕ, slice_get};
ghost use Rattle.std.specs.Option.{option_and_then};
ghost use Rattle.html5ever_interface.specs.declared.states.State.{State};
ghost use Rattle.html5feed.specs.Starting.{in_state};
ghost use Rattle.html5places.specs.Origins.{LiesInText, all_bytes, byte_at, origin_of};
ghost use Rattle.html5places.specs.declared.origins.Stretch.{Stretch};
ghost use Rattle.html5places.specs.Placed.{Beginning, at_first_byte, follow, placed_at_end, placed_by, placed_tokens};
ghost use Rattle.html5places.specs.Readers.{Reading, StandsAfter};
ghost use Rattle.html5places.specs.Written.{BeginsAfter, Stands, StandsBetween, place_after};
ghost use Rattle.html5reading.specs.Start.{Rules, Start, nothing_open};
ghost use Rattle.markup5ever.specs.NamedReferences.{IsTable};

/// The places of the tokens of a text follow one another, except for those of errors. The run before the first token
/// begins at the first byte, and each other one where the token before it ends.
pub fn places_follow()
    ensures { (rules : Rules) (K : Start) (text : List ℕ) → follow 0 (placed_tokens rules K text) ≡ true }
{}

/// From a start with nothing open, the places of each token are in order and lie between characters of the text.
///
/// By a table of named references, each tag, comment, instruction and doctype is one item of the grammar, from its `<`
/// on. The characters between its places are that item, and tell the token last. At the end of the text they may be an
/// unfinished item, whose token the end tells.
pub fn tokens_are_items()
    ensures between { (rules : Rules) (K : Start) (text : List ℕ) → nothing_open K.opened ≡ true
        → All (StandsBetween text) (placed_tokens rules K text) }
    ensures written { (rules : Rules) (K : Start) (text : List ℕ) → IsTable rules.references → nothing_open K.opened ≡ true
        → All (Stands rules K text) (placed_tokens rules K text) }
{}

/// However a text is cut, the characters of its pieces tell its tokens, one piece after the other, and then the end does.
pub fn pieces_tell_the_text()
    ensures pieces { (rules : Rules) (B : Beginning) (before first second : List ℕ)
        → placed_by rules B before (first ++ second)
        ≡ placed_by rules B before first ++ placed_by rules B (before ++ first) second }
    ensures whole { (rules : Rules) (K : Start) (first second : List ℕ)
        → placed_tokens rules K (first ++ second)
        ≡ placed_by rules (at_first_byte K) [] first
        ++ (placed_by rules (at_first_byte K) first second ++ placed_at_end rules (at_first_byte K) (first ++ second)) }
{}

/// Where a reading begins after a text, the tokens that the characters of a piece tell stand between characters of all text
/// so far, whatever follows. So each ends within it. A reading begins after no text at the first byte, and after all that
/// was read where it goes on in another state. From the first byte on, markup is an item of the grammar, as
/// `tokens_are_items` says.
pub fn pieces_stand_in_the_text()
    ensures between { (rules : Rules) (B : Beginning) (front before piece : List ℕ) → BeginsAfter front B
        → All (StandsBetween (front ++ (before ++ piece))) (placed_by rules B before piece) }
    ensures within { (rules : Rules) (B : Beginning) (front before piece : List ℕ) → BeginsAfter front B
        → All (λ p. p.places.end ≤ place_after (front ++ (before ++ piece))) (placed_by rules B before piece) }
    ensures first_byte { (K : Start) → nothing_open K.opened ≡ true → BeginsAfter [] (at_first_byte K) }
    ensures state_set { (B : Beginning) (reading : Reading) (front before : List ℕ) (state : State)
        → BeginsAfter front B → StandsAfter reading B before
        → BeginsAfter (front ++ before) (record { start = in_state reading.position state; marks = reading.marks }) }
    ensures written { (rules : Rules) (K : Start) (before piece : List ℕ) → IsTable rules.references → nothing_open K.opened ≡ true
        → All (Stands rules K (before ++ piece)) (placed_by rules (at_first_byte K) before piece) }
{}

/// Where each stretch lies in its text, what was read is their bytes, one after the other. The byte at each place of
/// that is the one that its origin names, and there is none if there is no origin.
pub fn bytes_come_from_their_origins()
    ensures { (source : List ℕ) (put_in : ℕ → List ℕ) (stretches : List Stretch) (place : ℕ)
        → All (LiesInText source put_in) stretches
        → option_and_then (byte_at source put_in) (origin_of stretches place)
        ≡ slice_get (all_bytes source put_in stretches) place }
{}
