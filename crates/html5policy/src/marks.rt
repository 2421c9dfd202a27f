//! Marks of the names that were noted.
ghost use Rattle.std.specs.Prelude.{◌≡◌, ◌<◌, ℕ, List, false, true};
ghost use Rattle.html5policy.specs.Marks.{KeepsMarks, is_marked, slot_of};

const SLOTS: usize = 64;

/// Which names may have been noted. A name that isn't marked was not; one that is marked may only share its slot with one
/// that was.
#[derive(Drop)]
pub struct Marks {
    // By the slot of a name.
    slots: [bool; SLOTS],
}

// The slot of a name. Of the standard policy's attributes none shares a slot with `class`, `content`, `id`, `name` and `rel`;
// `scope` shares that of `style`.
#[tactic(auto, unfolding(crate::specs::Marks::slot_of))]
fn slot_of(name: &[u8]) -> usize
    ensures slot { result ≡ slot_of name.now }
    ensures within { result < SLOTS }
{
    if name.is_empty() {
        return 0;
    }
    let last = name.len() - 1;
    let sum = usize::from(name[0]) + 7 * usize::from(name[last]) + 27 * (name.len() % 16);
    sum % SLOTS
}

impl Marks {
    /// No name is marked.
    pub fn none() -> Marks
        ensures { (name : List ℕ) → is_marked result name ≡ false }
    {
        Marks {
            slots: [false; SLOTS],
        }
    }

    /// Marks a name, and those that share its slot.
    pub fn note(&mut self, name: &str)
        ensures noted { is_marked self.new name.now ≡ true }
        ensures kept { KeepsMarks self.old self.new }
    {
        self.slots[slot_of(name.as_bytes())] = true;
    }

    /// Whether a name is marked.
    pub fn may_have(&self, name: &str) -> bool
        ensures { result ≡ is_marked self.now name.now }
    {
        let slot = slot_of(name.as_bytes());
        self.slots[slot]
    }
}
