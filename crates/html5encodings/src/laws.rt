//! Laws of the definitions.
ghost use Rattle.std.specs.Prelude.{◌≡◌, ◌≤◌, ◌++◌, ℕ, List, Some, encode_utf8_all, length, true};
ghost use Rattle.std.specs.Str.{all_scalars};
ghost use Rattle.html5encodings.specs.Decoding.{decoded, given, state_after};
ghost use Rattle.html5encodings.specs.Encodings.{encoding_of};
ghost use Rattle.html5encodings.specs.Labels.{name_of};
ghost use Rattle.html5encodings.specs.declared.encoding.Encoding.{Encoding};
ghost use Rattle.html5encodings.specs.declared.state.State.{State};

/// Text in UTF-8 decodes to its own characters.
pub fn text_is_kept()
    ensures { (cs : List ℕ) → all_scalars cs ≡ true → decoded Encoding.Utf8 (encode_utf8_all cs) ≡ cs }
{}

/// Bytes decode as their parts do, one after the other, wherever they are cut.
pub fn any_cutting()
    ensures given { (from : State) (xs ys : List ℕ) → given from (xs ++ ys) ≡ given from xs ++ given (state_after from xs) ys }
    ensures leaves { (from : State) (xs ys : List ℕ) → state_after from (xs ++ ys) ≡ state_after (state_after from xs) ys }
{}

/// The name of an encoding is a label of it.
pub fn names_are_labels()
    ensures { (by : Encoding) → encoding_of (name_of by) ≡ Some by }
{}

/// Bytes give no more characters than they are.
pub fn at_most_one_character_a_byte()
    ensures { (by : Encoding) (bytes : List ℕ) → length (decoded by bytes) ≤ length bytes }
{}
