//! Where the tokens of a page stand in its source, and in texts that were put in.
use crate::calls::{Call, check_calls};
use html5places::{Origin, Origins, PlaceError};
use std::alloc::{Allocator, Global};
use testing_alloc::Refusing;

// Notes some stretches: this many bytes of the source, three of text 0 from its second byte on, and the rest of the
// source.
fn noted<A: Allocator>(origins: &mut Origins<A>) -> Result<(), PlaceError> {
    origins.record(Origin::Source(0), 4)?;
    origins.record(Origin::PutIn { text: 0, at: 1 }, 3)?;
    origins.record(Origin::PutIn { text: 1, at: 0 }, 0)?;
    origins.record(Origin::Source(4), 2)
}

#[test]
fn each_byte_comes_from_its_stretch(rt: HostRuntime) {
    let mut origins = Origins::new(rt.alloc());
    assert_eq!(rt; origins.origin_of(0), None);
    noted(&mut origins).expect(&rt, "memory");
    for &(place, origin) in &[
        (0, Some(Origin::Source(0))),
        (3, Some(Origin::Source(3))),
        (4, Some(Origin::PutIn { text: 0, at: 1 })),
        (6, Some(Origin::PutIn { text: 0, at: 3 })),
        (7, Some(Origin::Source(4))),
        (8, Some(Origin::Source(5))),
        (9, None),
        (usize::MAX, None),
    ] {
        assert_eq!(rt; origins.origin_of(place), origin, "at {place}");
    }
}

#[test]
fn no_text_is_longer_than_places_count(rt: HostRuntime) {
    let mut origins = Origins::new(rt.alloc());
    let last = Origin::Source(usize::MAX);
    assert_eq!(rt; origins.record(last, 1), Err(PlaceError::TooLong));
    assert_eq!(rt; origins.origin_of(0), None);
    assert_eq!(rt; origins.record(Origin::Source(usize::MAX - 1), 1), Ok(()));
    assert_eq!(rt; origins.origin_of(0), Some(Origin::Source(usize::MAX - 1)));
}

#[test]
fn a_refused_growth_notes_nothing(rt: HostRuntime) {
    let heap = Refusing::<Global>::new(rt.alloc(), 0);
    let mut origins = Origins::new(&heap);
    assert_eq!(rt; noted(&mut origins), Err(PlaceError::Memory));
    assert_eq!(rt; origins.origin_of(0), None);
    assert_eq!(rt; noted(&mut origins), Ok(()));
    assert_eq!(rt; origins.origin_of(7), Some(Origin::Source(4)));
}

// A script puts a text in. The tags after it stand in the source where they are written.
#[test]
fn tags_stand_in_the_source(rt: HostRuntime) {
    check_calls(
        &rt,
        rt.alloc(),
        "<script></script><i class=a><b>",
        &[
            Call::ReadToToken("<script></script> class=a><b>", Ok("</script> class=a><b>")),
            Call::Place(8),
            Call::ReadToToken("</script> class=a><b>", Ok(" class=a><b>")),
            Call::Place(17),
            Call::Read("<i", Ok(())),
            Call::Read(" class=a><b>", Ok(())),
            Call::End(Ok(())),
        ],
        "|<script>|tag;|</script>|tag;|<i class=a>|tag;|<b>|tag;||end;",
    );
    // Where what it read of comes from, in the same order.
    let mut origins = Origins::new(rt.alloc());
    for &(origin, count) in &[
        (Origin::Source(0), 8),
        (Origin::Source(8), 9),
        (Origin::PutIn { text: 0, at: 0 }, 2),
        (Origin::Source(17), 12),
    ] {
        origins.record(origin, count).expect(&rt, "memory");
    }
    // The tag `<i class=a>` begins in the text that was put in, and its last byte is one of the source.
    for &(place, origin) in &[
        (17, Origin::PutIn { text: 0, at: 0 }),
        (27, Origin::Source(25)),
        (28, Origin::Source(26)),
    ] {
        assert_eq!(rt; origins.origin_of(place), Some(origin), "at {place}");
    }
}
