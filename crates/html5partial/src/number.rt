//! The number of a numeric character reference.
#![tactic(auto)]

ghost use Rattle.std.specs.Prelude.{◌≡◌, ◌≤◌, ◌%◌, ◌^◌, ◌∷◌, [], ◌++◌, true, min, Some, None};
ghost use Rattle.html5reading.specs.Characters.{number_sign};
ghost use Rattle.html5reading.specs.Reference.{is_number, is_x, base_of, after_x, has_digits, number_value, character_of_number, is_invalid_number, goes_on};

use markup5ever::data::c1_replacement;

// The base of the text after a number's `#`.
fn base_of(number: &str) -> u32
    ensures base { result ≡ base_of number.now }
    ensures bounds { (10 ≤ result) × (result ≤ 16) }
{
    match number.as_bytes().first() {
        Some(b'x' | b'X') => 16,
        _ => 10,
    }
}

// Whether the digits after the character are those of base 16.
fn is_x(c: char) -> bool
    ensures { result ≡ is_x c }
{
    matches!(c, 'x' | 'X')
}

/// Whether the character goes on with the text after a number's `#`.
pub fn continues_number(number: &str, c: char) -> bool
    requires { is_number number.now ≡ true }
    ensures goes_on { result ≡ is_number (number.now ++ c ∷ []) }
    ensures plain { result ≡ true → (number_sign ≤ c) × (c ≤ 0x7A) }
{
    if number.is_empty() {
        return is_x(c) || c.is_ascii_digit();
    }
    if base_of(number) == 16 {
        c.is_ascii_hexdigit()
    } else {
        c.is_ascii_digit()
    }
}

// The digits of the text after a number's `#`.
fn digits_of(number: &str) -> &str
    ensures { result.now ≡ after_x number.now }
{
    if base_of(number) == 16 {
        &number[1..]
    } else {
        number
    }
}

/// Whether digits stand after a number's `#`, and after its `x` if it has one.
#[tactic(auto, unfolding(html5reading::specs::Reference::has_digits))]
pub fn has_digits(number: &str) -> bool
    ensures { result ≡ has_digits number.now }
{
    !digits_of(number).is_empty()
}

// Numbers from here on have no character.
const NUMBER_LIMIT: u32 = 0x11_0000;

/// The value of a number. From 0x110000 on no number has a character, so larger ones count as that.
/// The last 32 bits of the number are kept beside it.
#[derive(Clone, Copy)]
pub struct Number {
    pub value: u32,
    pub low_bits: u32,
}

/// The value of the text after a number's `#`.
pub fn number_value(number: &str) -> Number
    requires { is_number number.now ≡ true }
    ensures value { result.value ≡ min (number_value number.now) 0x11_0000 }
    ensures low_bits { result.low_bits ≡ number_value number.now % 2 ^ 32 }
{
    let base = base_of(number);
    let digits = digits_of(number).as_bytes();
    let mut value: u32 = 0;
    let mut low_bits: u32 = 0;
    for byte in digits {
        let digit = char::from(*byte).to_digit(base).unwrap_or(0);
        value = (value * base + digit).min(NUMBER_LIMIT);
        low_bits = low_bits.wrapping_mul(base).wrapping_add(digit);
    }
    Number { value, low_bits }
}

impl Number {
    /// The character that the number stands for.
    #[tactic(auto, unfolding(html5reading::specs::Reference::character_of_number, html5reading::specs::Characters::is_no_character))]
    pub fn character(&self) -> char
        ensures { result ≡ character_of_number self.now.value }
    {
        let Some(c) = char::from_u32(self.value) else {
            return '\u{fffd}';
        };
        if c == '\0' {
            return '\u{fffd}';
        }
        match u8::try_from(self.value) {
            Ok(byte) => c1_replacement(byte).unwrap_or(c),
            Err(_) => c,
        }
    }

    /// Whether the number is an error.
    #[tactic(auto, unfolding(html5reading::specs::Reference::is_invalid_number, html5reading::specs::Characters::is_no_character))]
    pub fn is_invalid(&self) -> bool
        ensures { result ≡ is_invalid_number self.now.value }
    {
        match char::from_u32(self.value) {
            None | Some('\0' | '\r') => true,
            Some(c) => crate::message::is_bad(c),
        }
    }
}
