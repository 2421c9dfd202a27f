//! The single-byte encodings.
ghost use Rattle.std.specs.Prelude.{◌≡◌, OnOk};
ghost use Rattle.html5encodings.specs.IndexSingleByte.{index_of};
ghost use Rattle.html5encodings.specs.SingleByte.{handled, returns_error};
ghost use Rattle.html5encodings.specs.Steps.{Adds};

use crate::encoding::SingleByte;
use crate::index_single_byte as index;
use crate::pointers::character_at;
use crate::steps::append_or_error;
use std::alloc::{AllocError, Allocator};

// The index of an encoding.
fn index_of(single: SingleByte) -> &'static [char; 128]
    ensures { result.now ≡ index_of single }
{
    match single {
        SingleByte::Ibm866 => &index::IBM866,
        SingleByte::Iso8859_2 => &index::ISO_8859_2,
        SingleByte::Iso8859_3 => &index::ISO_8859_3,
        SingleByte::Iso8859_4 => &index::ISO_8859_4,
        SingleByte::Iso8859_5 => &index::ISO_8859_5,
        SingleByte::Iso8859_6 => &index::ISO_8859_6,
        SingleByte::Iso8859_7 => &index::ISO_8859_7,
        SingleByte::Iso8859_8 => &index::ISO_8859_8,
        SingleByte::Iso8859_8I => &index::ISO_8859_8,
        SingleByte::Iso8859_10 => &index::ISO_8859_10,
        SingleByte::Iso8859_13 => &index::ISO_8859_13,
        SingleByte::Iso8859_14 => &index::ISO_8859_14,
        SingleByte::Iso8859_15 => &index::ISO_8859_15,
        SingleByte::Iso8859_16 => &index::ISO_8859_16,
        SingleByte::Koi8R => &index::KOI8_R,
        SingleByte::Koi8U => &index::KOI8_U,
        SingleByte::Macintosh => &index::MACINTOSH,
        SingleByte::Windows874 => &index::WINDOWS_874,
        SingleByte::Windows1250 => &index::WINDOWS_1250,
        SingleByte::Windows1251 => &index::WINDOWS_1251,
        SingleByte::Windows1252 => &index::WINDOWS_1252,
        SingleByte::Windows1253 => &index::WINDOWS_1253,
        SingleByte::Windows1254 => &index::WINDOWS_1254,
        SingleByte::Windows1255 => &index::WINDOWS_1255,
        SingleByte::Windows1256 => &index::WINDOWS_1256,
        SingleByte::Windows1257 => &index::WINDOWS_1257,
        SingleByte::Windows1258 => &index::WINDOWS_1258,
        SingleByte::XMacCyrillic => &index::X_MAC_CYRILLIC,
    }
}

// Appends the character of a byte.
#[inline(always)]
pub(crate) fn append_byte<A: Allocator>(
    single: SingleByte,
    byte: u8,
    text: &mut String<A>,
) -> Result<(), AllocError>
    ensures { OnOk result (Adds text.old text.new (handled single byte)) }
{
    if byte < 0x80 {
        text.push(byte as char)
    } else {
        append_or_error(character_at(index_of(single), byte as usize - 0x80), text)
    }
}

// Whether a byte is an error.
pub(crate) fn returns_error(single: SingleByte, byte: u8) -> bool
    ensures { result ≡ returns_error single byte }
{
    if byte < 0x80 {
        false
    } else {
        character_at(index_of(single), byte as usize - 0x80).is_none()
    }
}
