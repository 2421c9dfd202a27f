//! Names, attributes and states as keys of sets: equal ones are one key, also by their hash.
use html5ever_interface::states::{RawKind, ScriptEscapeKind, State};
use markup5ever::interface::{Attribute, LocalName, Namespace, QualName};
use std::alloc::{AllocError, Global};
use std::collections::{BTreeSet, HashSet};
use std::test::Fail;

fn attribute_of(alloc: Global, name: &str, value: &str) -> Result<Attribute, AllocError> {
    let local = LocalName(String::from_str(alloc, name)?);
    Ok(Attribute {
        name: QualName::new(None, Namespace(String::new(alloc)), local),
        value: String::from_str(alloc, value)?,
    })
}

#[test]
fn equal_attributes_are_one_key(rt: HostRuntime) -> Result<(), Fail> {
    let alloc = rt.alloc();
    let mut hashed = HashSet::new(alloc);
    let mut ordered = BTreeSet::new(alloc);
    for (name, value) in [("b", "1"), ("a", "2"), ("b", "1"), ("b", "2")] {
        assert!(rt; hashed.insert(attribute_of(alloc, name, value)?).is_ok());
        assert!(rt; ordered.insert(attribute_of(alloc, name, value)?).is_ok());
    }
    assert_eq!(rt; hashed.len(), 3);
    assert_eq!(rt; ordered.len(), 3);
    assert!(rt; hashed.contains(&attribute_of(alloc, "b", "2")?));
    assert!(rt; !ordered.contains(&attribute_of(alloc, "a", "1")?));
    Ok(())
}

#[test]
fn states_are_keys_in_their_order(rt: HostRuntime) -> Result<(), Fail> {
    let alloc = rt.alloc();
    let escaped = RawKind::ScriptDataEscaped(ScriptEscapeKind::Escaped);
    let states = [
        State::ProcessingInstruction,
        State::CdataSectionEnd,
        State::RawData(escaped),
        State::Data,
        State::RawData(RawKind::Rcdata),
        State::Data,
    ];
    let mut hashed = HashSet::new(alloc);
    let mut ordered = BTreeSet::new(alloc);
    for state in states {
        assert!(rt; hashed.insert(state).is_ok());
        assert!(rt; ordered.insert(state).is_ok());
    }
    assert_eq!(rt; hashed.len(), 5);
    assert!(rt; ordered.first() == Some(&State::Data));
    assert!(rt; ordered.last() == Some(&State::ProcessingInstruction));
    assert!(rt; State::RawData(RawKind::Rcdata) < State::RawData(escaped));
    Ok(())
}
