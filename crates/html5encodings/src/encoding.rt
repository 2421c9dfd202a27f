//! The encodings, by their names, their labels and their byte order marks.
ghost use Rattle.std.specs.Prelude.{◌≡◌, map};
ghost use Rattle.std.specs.Str.{str_eq_ignore_ascii_case};
ghost use Rattle.html5encodings.specs.Encodings.{bom_of, encoding_of, found};
ghost use Rattle.html5encodings.specs.Labels.{name_of, single_byte_name_of};

use crate::label_list::LABELS;

/// A single-byte encoding.
#[derive(Clone, Copy, Debug, PartialEq, Eq)]
pub enum SingleByte {
    Ibm866,
    Iso8859_2,
    Iso8859_3,
    Iso8859_4,
    Iso8859_5,
    Iso8859_6,
    Iso8859_7,
    Iso8859_8,
    Iso8859_8I,
    Iso8859_10,
    Iso8859_13,
    Iso8859_14,
    Iso8859_15,
    Iso8859_16,
    Koi8R,
    Koi8U,
    Macintosh,
    Windows874,
    Windows1250,
    Windows1251,
    Windows1252,
    Windows1253,
    Windows1254,
    Windows1255,
    Windows1256,
    Windows1257,
    Windows1258,
    XMacCyrillic,
}

impl SingleByte {
    /// The name of the encoding, as the Standard writes it.
    pub fn name(self) -> &'static str
        ensures { result.now ≡ single_byte_name_of self }
    {
        match self {
            SingleByte::Ibm866 => "IBM866",
            SingleByte::Iso8859_2 => "ISO-8859-2",
            SingleByte::Iso8859_3 => "ISO-8859-3",
            SingleByte::Iso8859_4 => "ISO-8859-4",
            SingleByte::Iso8859_5 => "ISO-8859-5",
            SingleByte::Iso8859_6 => "ISO-8859-6",
            SingleByte::Iso8859_7 => "ISO-8859-7",
            SingleByte::Iso8859_8 => "ISO-8859-8",
            SingleByte::Iso8859_8I => "ISO-8859-8-I",
            SingleByte::Iso8859_10 => "ISO-8859-10",
            SingleByte::Iso8859_13 => "ISO-8859-13",
            SingleByte::Iso8859_14 => "ISO-8859-14",
            SingleByte::Iso8859_15 => "ISO-8859-15",
            SingleByte::Iso8859_16 => "ISO-8859-16",
            SingleByte::Koi8R => "KOI8-R",
            SingleByte::Koi8U => "KOI8-U",
            SingleByte::Macintosh => "macintosh",
            SingleByte::Windows874 => "windows-874",
            SingleByte::Windows1250 => "windows-1250",
            SingleByte::Windows1251 => "windows-1251",
            SingleByte::Windows1252 => "windows-1252",
            SingleByte::Windows1253 => "windows-1253",
            SingleByte::Windows1254 => "windows-1254",
            SingleByte::Windows1255 => "windows-1255",
            SingleByte::Windows1256 => "windows-1256",
            SingleByte::Windows1257 => "windows-1257",
            SingleByte::Windows1258 => "windows-1258",
            SingleByte::XMacCyrillic => "x-mac-cyrillic",
        }
    }
}

/// An encoding of the Encoding Standard.
#[derive(Clone, Copy, Debug, PartialEq, Eq)]
pub enum Encoding {
    Utf8,
    SingleByte(SingleByte),
    Gbk,
    Gb18030,
    Big5,
    EucJp,
    Iso2022Jp,
    ShiftJis,
    EucKr,
    Replacement,
    Utf16Be,
    Utf16Le,
    XUserDefined,
}

impl Encoding {
    /// The name of the encoding, as the Standard writes it.
    pub fn name(self) -> &'static str
        ensures { result.now ≡ name_of self }
    {
        match self {
            Encoding::SingleByte(single) => single.name(),
            Encoding::Utf8 => "UTF-8",
            Encoding::Gbk => "GBK",
            Encoding::Gb18030 => "gb18030",
            Encoding::Big5 => "Big5",
            Encoding::EucJp => "EUC-JP",
            Encoding::Iso2022Jp => "ISO-2022-JP",
            Encoding::ShiftJis => "Shift_JIS",
            Encoding::EucKr => "EUC-KR",
            Encoding::Replacement => "replacement",
            Encoding::Utf16Be => "UTF-16BE",
            Encoding::Utf16Le => "UTF-16LE",
            Encoding::XUserDefined => "x-user-defined",
        }
    }

    /// The encoding that a label names, in any ASCII case, with ASCII white space before and after it.
    pub fn for_label(label: &str) -> Option<Encoding>
        ensures { result ≡ encoding_of label.now }
    {
        find(&LABELS, label.trim_ascii_start().trim_ascii_end())
    }

    /// The encoding that a byte order mark at the front of bytes names, and how many bytes the mark has.
    pub fn for_bom(bytes: &[u8]) -> Option<(Encoding, usize)>
        ensures { result ≡ bom_of bytes.now }
    {
        if bytes.starts_with(&[0xEF, 0xBB, 0xBF]) {
            Some((Encoding::Utf8, 3))
        } else if bytes.starts_with(&[0xFE, 0xFF]) {
            Some((Encoding::Utf16Be, 2))
        } else if bytes.starts_with(&[0xFF, 0xFE]) {
            Some((Encoding::Utf16Le, 2))
        } else {
            None
        }
    }
}

// The encoding of the first row whose label this one is, in any ASCII case.
fn find(mut rows: &[(&str, Encoding)], label: &str) -> Option<Encoding>
    ensures { result ≡ found (map (λ row. (row.0.now, row.1)) rows.entry.now) label.now }
{
    while let [row, rest @ ..] = rows {
        if is_label(label, row.0) {
            return Some(row.1);
        }
        rows = rest;
    }
    None
}

fn is_label(label: &str, row: &str) -> bool
    ensures { result ≡ str_eq_ignore_ascii_case label.now row.now }
{
    label.eq_ignore_ascii_case(row)
}
