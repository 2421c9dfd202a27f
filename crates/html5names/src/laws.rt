//! Slips as they are written.
ghost use Rattle.std.specs.Prelude.{◌≡◌, ◌↔◌, ℕ, ◌≤◌, List, length, true};
ghost use Rattle.html5names.specs.Slips.{DiffersByOne, IsSwapOf, is_near, is_swap_of};

/// One name is a swap of another where they are the same except for two neighbouring characters, which stand the other
/// way round.
pub fn swaps_are_written()
    ensures { (name meant : List ℕ) → (is_swap_of name meant ≡ true) ↔ IsSwapOf name meant }
{}

/// One name is near another where both have four characters at least, and are the same except for one character that is
/// more, less or another.
pub fn near_names_are_written()
    ensures { (name meant : List ℕ) → (is_near name meant ≡ true) ↔ ((4 ≤ length name) × (4 ≤ length meant) × DiffersByOne name meant) }
{}
