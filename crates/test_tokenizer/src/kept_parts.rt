//! What the states keep of doctypes, by itself.
use html5partial::doctypes::option_push;
use std::alloc::{AllocError, Global};

// The text after pushing an `x` to it.
fn pushed(alloc: Global, text: Option<&str>) -> Result<Option<String>, AllocError> {
    let mut begun = match text {
        Some(text) => Some(String::from_str(alloc, text)?),
        None => None,
    };
    option_push(alloc, &mut begun, 'x')?;
    Ok(begun)
}

#[test]
fn begins_a_text_or_goes_on_with_it(rt: HostRuntime) -> Result<(), AllocError> {
    let alloc = rt.alloc();
    for (text, wanted) in [(None, "x"), (Some(""), "x"), (Some("y"), "yx")] {
        assert_eq!(rt; pushed(alloc, text)?.as_deref(), Some(wanted));
    }
    Ok(())
}
