use crate::made::RECORDS;
use html5records::reading::{AttributeRecord, Record, TokenRecord, read_record};

// The token of the record at this place, where it is read whole. A text has no line.
fn token_of(index: usize) -> Option<TokenRecord<'static>> {
    let (record, rest) = read_record(RECORDS.get(index)?)?;
    let line = if index == 3 {
        0
    } else {
        (index as u64).saturating_add(1)
    };
    if !rest.is_empty() || record.line != line {
        return None;
    }
    Some(record.token)
}

#[test]
fn reads_texts(rt: HostRuntime) {
    let cases = [
        (3, TokenRecord::Text(b"x\xc3\xa9")),
        (5, TokenRecord::Comment(b"c")),
        (6, TokenRecord::ProcessingInstruction(b"pi?")),
        (7, TokenRecord::NullCharacter),
        (8, TokenRecord::ParseError(b"bad")),
        (10, TokenRecord::End),
    ];
    for (index, token) in cases {
        assert!(rt; token_of(index) == Some(token), "{index}");
    }
}

#[test]
fn reads_a_tag(rt: HostRuntime) {
    let Some(TokenRecord::Tag(tag)) = token_of(1) else {
        panic!(rt; "no tag");
    };
    assert_eq!(rt; tag.name, b"img".as_slice());
    assert!(rt; tag.self_closing && tag.had_duplicate_attributes);
    let mut attributes = tag.attributes;
    for (name, value) in [("src", "a.png"), ("alt", "")] {
        let expected = AttributeRecord {
            name: name.as_bytes(),
            value: value.as_bytes(),
        };
        assert!(rt; attributes.next() == Some(expected), "{name}");
    }
    assert!(rt; attributes.next().is_none());
}

#[test]
fn reads_a_doctype(rt: HostRuntime) {
    let Some(TokenRecord::Doctype(doctype)) = token_of(0) else {
        panic!(rt; "no DOCTYPE");
    };
    assert!(rt; doctype.name == Some(b"html".as_slice()));
    assert!(rt; doctype.public_id.is_none());
    assert!(rt; doctype.system_id == Some(b"s".as_slice()));
    assert!(rt; doctype.force_quirks);
}

#[test]
fn a_record_that_is_not_whole_is_none(rt: HostRuntime) {
    for record in RECORDS {
        for end in 0..record.len() {
            assert!(rt; read_record(&record[..end]).is_none(), "{end}");
        }
        assert!(rt; read_record(record).is_some() || record.is_empty());
    }
}

#[test]
fn no_other_kind_and_no_other_flag_is_read(rt: HostRuntime) {
    let refused: [&[u8]; 4] = [
        b"\0\x01\0\0\0\0\0\0\0",
        b"\x0a\x01\0\0\0\0\0\0\0",
        b"\x02\x01\0\0\0\0\0\0\0\x04\x01\0\0\0\0\0\0\0p\0\0\0\0\0\0\0\0",
        b"\x06\x01\0\0\0\0\0\0\0\x10",
    ];
    for bytes in refused {
        assert!(rt; read_record(bytes).is_none());
    }
}

// A comment of three bytes on line 2 and a text of three bytes, and more after each.
#[test]
fn answers_what_is_after(rt: HostRuntime) {
    let comment = Record {
        line: 2,
        token: TokenRecord::Comment(b"abc"),
    };
    let bytes = b"\x04\x02\0\0\0\0\0\0\0\x03\0\0\0\0\0\0\0abcdef";
    assert!(rt; read_record(bytes) == Some((comment, b"def".as_slice())));
    let text = Record {
        line: 0,
        token: TokenRecord::Text(b"abc"),
    };
    assert!(rt; read_record(b"\x03abc\xffdef") == Some((text, b"def".as_slice())));
}
