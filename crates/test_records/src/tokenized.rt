//! The records of a text that arrives in pieces, as a program in another language would read them.
use html5ever::TokenizerError;
use html5ever::tokenizer::{
    BufferQueue, NamedReferences, Tokenizer, TokenizerOpts, feed_until_done,
};
use html5ever_interface::interface::token::TagKind;
use html5records::reading::{TagRecord, TokenRecord, read_record};
use html5records::record_sink::{RecordOptions, RecordSink, Replies};
use std::alloc::{AllocError, Global};

// Takes all that waits.
fn take_all(sink: &mut RecordSink<Global>, taken: &mut Vec<u8>) -> Result<(), AllocError> {
    taken.extend_from_slice(sink.waiting())?;
    let all = sink.waiting().len();
    sink.skip(all);
    Ok(())
}

// The records of a text that arrives in two pieces: the waiting bytes are taken after each.
fn records_of_text(
    alloc: Global,
    references: &NamedReferences<Global>,
    first: &str,
    second: &str,
) -> Result<Vec<u8>, TokenizerError> {
    let options = RecordOptions {
        replies: Replies::Standard,
        foreign: false,
    };
    let mut tokenizer = Tokenizer::new(
        alloc,
        RecordSink::new(alloc, options),
        TokenizerOpts::default(),
        references,
    );
    let mut queue = BufferQueue::new(alloc);
    let mut taken = Vec::new(alloc);
    if queue.push_back(String::from_str(alloc, first)?).is_err() {
        return Err(TokenizerError::Memory);
    }
    feed_until_done(&mut tokenizer, &mut queue)?;
    take_all(&mut tokenizer.sink, &mut taken)?;
    if queue.push_back(String::from_str(alloc, second)?).is_err() {
        return Err(TokenizerError::Memory);
    }
    feed_until_done(&mut tokenizer, &mut queue)?;
    tokenizer.end()?;
    take_all(&mut tokenizer.sink, &mut taken)?;
    Ok(taken)
}

// Writes a tag with its attributes.
fn push_tag(page: &mut Vec<u8>, tag: TagRecord<'_>) -> Result<(), AllocError> {
    match tag.kind {
        TagKind::StartTag => page.extend_from_slice(b"<")?,
        TagKind::EndTag => page.extend_from_slice(b"</")?,
    }
    page.extend_from_slice(tag.name)?;
    for attribute in tag.attributes {
        page.extend_from_slice(b" ")?;
        page.extend_from_slice(attribute.name)?;
        page.extend_from_slice(b"=")?;
        page.extend_from_slice(attribute.value)?;
    }
    page.extend_from_slice(b">")
}

// Writes a token. A text is written as it is, so that its pieces are joined.
fn push_token(page: &mut Vec<u8>, token: TokenRecord<'_>) -> Result<(), AllocError> {
    match token {
        TokenRecord::Tag(tag) => push_tag(page, tag),
        TokenRecord::Text(text) => page.extend_from_slice(text),
        TokenRecord::End => page.extend_from_slice(b"."),
        _ => page.extend_from_slice(b"?"),
    }
}

// Writes all tokens of the records.
fn page_of(alloc: Global, records: &[u8]) -> Result<Vec<u8>, AllocError> {
    let mut page = Vec::new(alloc);
    let mut rest = records;
    while let Some((record, after)) = read_record(rest) {
        push_token(&mut page, record.token)?;
        rest = after;
    }
    page.extend_from_slice(rest)?;
    Ok(page)
}

const TEXT: &str = "<p CLASS=x>1 < 2</p><title><b></title>";

#[test]
fn the_records_of_pieces_read_as_the_text(rt: HostRuntime) {
    let alloc = rt.alloc();
    let references = NamedReferences::check(alloc, Vec::new(alloc)).expect(
        &rt,
        "a table of nothing",
    );
    for cut in [0, 1, 5, 12, 13, 20, 29, 38] {
        let Some((first, second)) = TEXT.split_at_checked(cut) else {
            continue;
        };
        let records = records_of_text(alloc, &references, first, second).expect(&rt, "memory");
        let page = page_of(alloc, &records).expect(&rt, "memory");
        assert_eq!(rt;
            page.as_slice(),
            b"<p class=x>1 ?< 2</p><title><b></title>.".as_slice(),
            "{cut}"
        );
    }
}
