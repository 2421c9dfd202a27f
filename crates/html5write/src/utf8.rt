//! Texts of a program are the UTF-8 of their characters.
ghost use Rattle.std.specs.Prelude.{◌≡◌, chars, encode_utf8_all, map};
ghost use Rattle.html5write.specs.Told.{attribute_told};
ghost use Rattle.html5write.specs.Writing.{attribute_of, attribute_said};

use crate::piece::Attribute;

// A text is the UTF-8 of its characters.
pub fn is_text(text: &str)
    ensures { encode_utf8_all (chars text.now) ≡ text.now }
{
    let _text = text;
}

// And so are the names and values of attributes.
pub fn are_texts(attributes: &[Attribute<'_>])
    ensures { map attribute_told (map attribute_of attributes.now) ≡ map attribute_said attributes.now }
{
    for attribute in attributes {
        is_text(attribute.name);
        is_text(attribute.value);
    }
}
