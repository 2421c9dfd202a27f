//! Guesses of where a name stands in a list.
ghost use Rattle.std.specs.Prelude.{◌<◌};

const SLOTS: usize = 256;

/// Where names may stand in a list. Who asks looks whether the name stands there, so a wrong guess costs time alone, and
/// no contract says which it is.
#[derive(Drop)]
pub struct Guesses {
    // By the slot of a name.
    places: [u8; SLOTS],
}

// The slot of a name. Of the elements of the standard policy two alone have the same one.
fn slot_of(name: &[u8]) -> usize
    ensures { result < SLOTS }
{
    if name.is_empty() {
        return 0;
    }
    let last = name.len() - 1;
    let sum = 184 * usize::from(name[0]) + 21 * usize::from(name[last]) + 165 * (name.len() % 16);
    sum % SLOTS
}

impl Guesses {
    /// Each name may stand at the front.
    pub fn none() -> Guesses {
        Guesses { places: [0; SLOTS] }
    }

    /// Notes where a name stands, unless it is far back.
    pub fn note(&mut self, name: &str, place: usize) {
        if let Ok(place) = u8::try_from(place) {
            self.places[slot_of(name.as_bytes())] = place;
        }
    }

    /// Where the name may stand.
    pub fn place_of(&self, name: &str) -> usize {
        usize::from(self.places[slot_of(name.as_bytes())])
    }
}
