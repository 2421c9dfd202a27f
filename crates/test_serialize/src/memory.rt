//! A refused growth is an error, wherever it comes.
use html5ever_interface::interface::token::{Doctype, Token};
use html5ever_interface::states::RawKind;
use html5serialize::{push_raw_text, push_token};
use std::alloc::{AllocError, Allocator, Global};
use testing_alloc::Refusing;

// A doctype with both identifiers.
fn long_doctype<A: Allocator + Copy>(alloc: A) -> Result<Token<A>, AllocError> {
    Ok(Token::DoctypeToken(Doctype {
        name: Some(String::from_str(alloc, "html")?),
        public_id: Some(String::from_str(alloc, "-//W3C//DTD XHTML 1.0 Strict//EN")?),
        system_id: Some(String::from_str(
            alloc,
            "http://www.w3.org/TR/xhtml1/DTD/xhtml1-strict.dtd",
        )?),
        force_quirks: false,
    }))
}

// Writes it, or answers that a growth was refused.
fn written<A: Allocator + Copy>(alloc: A) -> Result<String<A>, AllocError> {
    let token = long_doctype(alloc)?;
    let mut out = String::new(alloc);
    push_token(&mut out, &token)?;
    Ok(out)
}

#[test]
fn a_refused_growth_is_an_error(rt: HostRuntime) {
    let wanted = concat!(
        "<!DOCTYPE html PUBLIC \"-//W3C//DTD XHTML 1.0 Strict//EN\" ",
        "\"http://www.w3.org/TR/xhtml1/DTD/xhtml1-strict.dtd\">"
    );
    let mut finished = false;
    for admitted in 0..100 {
        let heap = Refusing::<Global>::new(rt.alloc(), admitted);
        if let Ok(out) = written(&heap) {
            assert!(rt; out.as_str() == wanted, "{out:?}");
            assert!(rt; admitted > 3, "{admitted}");
            finished = true;
            break;
        }
    }
    assert!(rt; finished);
}

// Writes raw text, or answers that a growth was refused.
fn written_raw<A: Allocator + Copy>(alloc: A) -> Result<String<A>, AllocError> {
    let mut out = String::new(alloc);
    push_raw_text(
        &mut out,
        RawKind::Rcdata,
        "&&&&&&&&&&&&&&&&&&&&&&&&&&&&&&&&",
    )?;
    push_raw_text(&mut out, RawKind::Rawtext, "&<>")?;
    Ok(out)
}

#[test]
fn a_refused_growth_of_raw_text_is_an_error(rt: HostRuntime) {
    let mut finished = false;
    for admitted in 0..100 {
        let heap = Refusing::<Global>::new(rt.alloc(), admitted);
        if let Ok(out) = written_raw(&heap) {
            assert!(rt; out.as_str().ends_with("&#38;&<>"), "{out:?}");
            assert!(rt; out.len() == 163, "{out:?}");
            assert!(rt; admitted > 1, "{admitted}");
            finished = true;
            break;
        }
    }
    assert!(rt; finished);
}
