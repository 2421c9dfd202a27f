//! What character references stand for.
ghost use Rattle.std.specs.Prelude.{◌≡◌, ℕ, ◌+◌, ◌≤◌, List, ◌++◌, ◌⊎◌, length, take, slice_get, true, IsTrue, IfOk, IfErr, IfSome, IsSomeAnd, OnOk, None, Some, string_bytes};
ghost use Rattle.std.specs.Cmp.Lexicographic.{slice_cmp};
ghost use Rattle.std.specs.Char.{is_ascii_alphanumeric};
ghost use Rattle.std.specs.Bool.{nat_eq};
ghost use Rattle.std.specs.List.{AllByRecursion, list_all, starts_with};
ghost use Rattle.std.specs.Ordering.{nat_cmp};
ghost use Rattle.std.specs.declared.cmp.Ordering.TheVariants.{Less};
ghost use Rattle.markup5ever.specs.C1.{character_of_c1};
ghost use Rattle.markup5ever.specs.NamedReferences.{NamedReference, IsTable, begins_name, characters_of_name, is_plain_name, without_semicolon, has_zero, reference_of, references_of, fault_after, first_fault, in_place, table_of};
ghost use Rattle.markup5ever.specs.Place.{IsAt, IsGapFor};
ghost use Rattle.markup5ever.specs.declared.data.TableError.TheVariants.{Memory};

use std::alloc::{AllocError, Allocator, Global};
use std::cmp::Ordering;
use std::marker::Model;
use thiserror::Error;

/// A name, without the ampersand before it, and the one or two characters that it stands for.
pub type Entry<A> = (String<A>, char, Option<char>);

/// Why entries make no table. The number is the place of the entry, from 0.
#[derive(Clone, Copy, Debug, PartialEq, Eq, Error)]
pub enum TableError {
    /// A growth was refused.
    #[error("out of memory")]
    Memory,
    /// A name is not letters and digits with at most one semicolon, at the end.
    #[error("bad name at {0}")]
    BadName(usize),
    /// A character is U+0000.
    #[error("zero character at {0}")]
    ZeroCharacter(usize),
    /// An earlier entry has the name.
    #[error("repeated name at {0}")]
    RepeatedName(usize),
}

impl From<AllocError> for TableError {
    ghost from_gives = { λ _ error. error ≡ Memory };

    fn from(_error: AllocError) -> TableError {
        TableError::Memory
    }
}

/// The named character references that a tokenizer knows.
#[derive(Drop)]
pub struct NamedReferences<A: Allocator = Global> {
    // In the order of their names.
    entries: Vec<Entry<A>, A>,
    // The keys of these names, by which a search guesses a place. What is found does not depend on them.
    keys: Vec<u64, A>,
    // Places of names, each in the slot of its name, where a search looks first. What is found does not depend on
    // them either.
    slots: Vec<u16, A>,
}

impl<A: Allocator> Model for NamedReferences<A> {
    ghost use Rattle.std.specs.Prelude.{List};
    ghost use Rattle.markup5ever.specs.NamedReferences.{NamedReference, references_of, IsTable, IsAscending};

    ghost Value = { List NamedReference };

    ghost view = { λ t. references_of t.entries.items };

    ghost invariant = { λ t. IsTable (references_of t.entries.items) × IsAscending (references_of t.entries.items) };
}

impl<A: Allocator + Copy> NamedReferences<A> {
    /// The table of these entries, which may come in any order. All of its memory is taken at once, and
    /// entries that come in the order of their names, by bytes, are taken in without moving others.
    pub fn check(alloc: A, entries: Vec<Entry<A>, A>) -> Result<NamedReferences<A>, TableError>
        // What fails, and when.
        ensures faultless { OnOk result (first_fault (references_of entries.items) ≡ None) }
        ensures fault { IfErr result (λ error. (error ≡ TableError.Memory) ⊎
            (first_fault (references_of entries.items) ≡ Some error)) }

        // The table answers as the entries do.
        ensures table { IfOk result (λ table. table ≡ table_of (references_of entries.items)) }
        ensures characters { IfOk result (λ table. (name : List ℕ)
            → characters_of_name table name ≡ characters_of_name (references_of entries.items) name) }
        ensures beginnings { IfOk result (λ table. (text : List ℕ)
            → begins_name table text ≡ begins_name (references_of entries.items) text) }
    {
        let mut table = NamedReferences {
            entries: Vec::with_capacity(alloc, entries.len())?,
            keys: Vec::with_capacity(alloc, entries.len())?,
            slots: vec![in alloc; 0; slots_for(entries.len())]?,
        };
        for entry in entries {
            table.add(entry)?;
        }
        table.fill_slots();
        Ok(table)
    }
}

impl<A: Allocator> NamedReferences<A> {
    // Takes in the entry that comes after those of the table.
    fn add(&mut self, entry: Entry<A>) -> Result<(), TableError>
        ensures faultless { OnOk result (fault_after self.old (reference_of entry) ≡ None) }
        ensures fault { IfErr result (λ error. (error ≡ TableError.Memory) ⊎
            (fault_after self.old (reference_of entry) ≡ Some error)) }
        ensures ok { OnOk result (self.new ≡ in_place self.old (reference_of entry)) }
    {
        let place = self.entries.len();
        if !is_plain_name(&entry.0) {
            return Err(TableError::BadName(place));
        }
        if has_zero(&entry) {
            return Err(TableError::ZeroCharacter(place));
        }
        let Err(gap) = self.search_in_order(&entry.0) else {
            return Err(TableError::RepeatedName(place));
        };
        if insert_key(&mut self.keys, gap, &entry.0).is_err() {
            return Err(TableError::Memory);
        }
        if self.entries.insert(gap, entry).is_err() {
            return Err(TableError::Memory);
        }
        Ok(())
    }

    // Notes in its slot where each name stands. Of names that share a slot the last has it: `lt;`, and not `lt`.
    fn fill_slots(&mut self)
        ensures { self.new ≡ self.old }
    {
        note_places(&mut self.slots, &self.entries);
    }

    /// The characters that the name stands for.
    pub fn get(&self, name: &str) -> Option<(char, Option<char>)>
        ensures characters { result ≡ characters_of_name self.now name.now }
        ensures table { IsTable self.now }
    {
        match self.search(name) {
            Ok(place) => {
                let (_, first, second) = &self.entries[place];
                Some((*first, *second))
            }
            Err(_) => None,
        }
    }

    /// Whether a name begins with the text.
    pub fn is_prefix(&self, text: &str) -> bool
        ensures begins { result ≡ begins_name self.now text.now }
        ensures table { IsTable self.now }
    {
        self.table_laws();
        if self.begins_at(self.place_by_slot(text), text) {
            return true;
        }
        match self.search_in_order(text) {
            Ok(_) => true,
            Err(gap) => match self.entries.get(gap) {
                Some(entry) => entry.0.as_bytes().starts_with(text.as_bytes()),
                None => false,
            },
        }
    }

    /// The laws of each table, which its contract says. It does nothing.
    #[inline(always)]
    pub fn table_laws(&self)
        ensures { IsTable self.now }
    {
        let _ = &self.entries;
    }

    // Where the name stands, or where it would. Most names stand where their slot says.
    #[inline(always)]
    fn search(&self, name: &str) -> Result<usize, usize>
        ensures found { IfOk result (IsAt self.now name.now) }
        ensures absent { IfErr result (IsGapFor self.now name.now) }
    {
        let place = self.place_by_slot(name);
        if self.is_at(place, name) {
            return Ok(place);
        }
        self.search_in_order(name)
    }

    // The place that the slot of the name says. The name may stand at another, or at none.
    #[inline(always)]
    fn place_by_slot(&self, name: &str) -> usize {
        match self.slots.get(slot_of(name)) {
            Some(place) => usize::from(*place),
            None => 0,
        }
    }

    // Whether the name stands at this place.
    #[inline(always)]
    fn is_at(&self, place: usize, name: &str) -> bool
        ensures { result ≡ true → IsAt self.now name.now place }
    {
        match self.entries.get(place) {
            Some(entry) => is_same(entry.0.as_bytes(), name.as_bytes()),
            None => false,
        }
    }

    // Whether the name at this place begins with the text.
    #[inline(always)]
    fn begins_at(&self, place: usize, text: &str) -> bool
        ensures { result ≡ true → begins_name self.now text.now ≡ true }
    {
        match self.entries.get(place) {
            Some(entry) => begins_with(entry.0.as_bytes(), text.as_bytes()),
            None => false,
        }
    }

    // Where the name stands, or where it would, by the order of names.
    fn search_in_order(&self, name: &str) -> Result<usize, usize>
        ensures found { IfOk result (IsAt self.now name.now) }
        ensures absent { IfErr result (IsGapFor self.now name.now) }
    {
        match self.found_at(self.guess(name), name) {
            Some(found) => found,
            None => self.entries.binary_search_by(|entry| order_of(entry, name)),
        }
    }

    // The place where the name stands or would stand, by the keys. Names that begin with the same bytes have the same
    // key, so it may be another.
    #[inline(always)]
    fn guess(&self, name: &str) -> usize {
        match self.keys.binary_search(&key_of(name.as_bytes())) {
            Ok(place) => place,
            Err(place) => place,
        }
    }

    // What a search finds if it ends at this place. `None` where the name belongs elsewhere.
    #[inline(always)]
    fn found_at(&self, place: usize, name: &str) -> Option<Result<usize, usize>>
        ensures found { IfSome result (λ found. IfOk found (IsAt self.now name.now)) }
        ensures absent { IfSome result (λ found. IfErr found (IsGapFor self.now name.now)) }
    {
        if !self.is_past(place, name) {
            return None;
        }
        let Some(entry) = self.entries.get(place) else {
            return Some(Err(place));
        };
        match order_of(entry, name) {
            Ordering::Less => None,
            Ordering::Equal => Some(Ok(place)),
            Ordering::Greater => Some(Err(place)),
        }
    }

    // Whether the entry before this place comes before the name, so that all before the place do.
    #[inline(always)]
    fn is_past(&self, place: usize, name: &str) -> bool
        ensures within { result ≡ true → place ≤ length self.now }
        ensures before { result ≡ true
            → AllByRecursion (λ entry. slice_cmp nat_cmp entry.name name.now ≡ Less) (take place self.now) }
    {
        let Some(last) = place.checked_sub(1) else {
            return true;
        };
        let Some(entry) = self.entries.get(last) else {
            return false;
        };
        order_of(entry, name).is_lt()
    }
}

// How many bytes of a name its key has.
const KEY_LEN: usize = 8;

// The first bytes of a name as a number, so that most names are in the order of their keys. Where the pieces that it
// is made of overlap, they have the same bits.
#[inline(always)]
fn key_of(name: &[u8]) -> u64 {
    let len = name.len().min(KEY_LEN);
    if len >= 4 {
        return four_bytes(name, 0) | four_bytes(name, len - 4);
    }
    if len == 0 {
        return 0;
    }
    one_byte(name, 0) | one_byte(name, len / 2) | one_byte(name, len - 1)
}

// Four bytes of a name, where its key has them.
#[inline(always)]
fn four_bytes(name: &[u8], at: usize) -> u64
    requires within { at + 4 ≤ length name.now }
    requires in_key { at ≤ 4 }
{
    let bytes = [name[at], name[at + 1], name[at + 2], name[at + 3]];
    u64::from(u32::from_be_bytes(bytes)) << (32 - 8 * at)
}

// A byte of a name, where its key has it.
#[inline(always)]
fn one_byte(name: &[u8], at: usize) -> u64
    requires within { at + 1 ≤ length name.now }
    requires in_key { at ≤ 7 }
{
    u64::from(name[at]) << (56 - 8 * at)
}

// How many slots a table has, if it has names.
const SLOTS: usize = 4096;

// By which keys are multiplied. With this number those of the standard's names that pages use most have their slots.
const SPREAD: u64 = 0xAB15_A7B1_CBF6_9201;

// How many slots a table of this many names has. One without names asks for no memory.
fn slots_for(names: usize) -> usize {
    if names == 0 { 0 } else { SLOTS }
}

// The slot of a name, a number of 12 bits. A semicolon at its end makes no difference.
#[inline(always)]
fn slot_of(name: &str) -> usize {
    let key = key_of(without_semicolon(name.as_bytes()));
    (key.wrapping_mul(SPREAD) >> 52) as usize
}

// Notes where a name stands, in its slot.
#[inline(always)]
fn note_place(slots: &mut [u16], place: usize, name: &str) {
    let slot = slot_of(name);
    if slot < slots.len() && place <= usize::from(u16::MAX) {
        slots[slot] = place as u16;
    }
}

// Notes where each name stands.
fn note_places<A: Allocator>(slots: &mut [u16], entries: &[Entry<A>]) {
    for place in 0..entries.len() {
        if let Some(entry) = entries.get(place) {
            note_place(slots, place, &entry.0);
        }
    }
}

// Takes in the key of a name that is to stand at this place.
fn insert_key<A: Allocator>(
    keys: &mut Vec<u64, A>,
    place: usize,
    name: &str,
) -> Result<(), AllocError> {
    if place <= keys.len() {
        keys.insert(place, key_of(name.as_bytes()))?;
    }
    Ok(())
}

// How the entry stands to the name, in the order of names.
#[inline(always)]
fn order_of<A: Allocator>(entry: &Entry<A>, name: &str) -> Ordering
    ensures { result ≡ slice_cmp nat_cmp (string_bytes entry.now.0) name.now }
{
    order_of_bytes(entry.0.as_bytes(), name.as_bytes())
}

// The order of two names. Most differ early, so it looks at one byte after another.
#[inline(always)]
fn order_of_bytes(name: &[u8], other: &[u8]) -> Ordering
    ensures { result ≡ slice_cmp nat_cmp name.now other.now }
{
    for at in 0..name.len().min(other.len()) {
        if name[at] != other[at] {
            return name[at].cmp(&other[at]);
        }
    }
    name.len().cmp(&other.len())
}

// Whether two names are the same. Most are short: of four to eight bytes the first four and the last four say it.
#[inline(always)]
fn is_same(name: &[u8], other: &[u8]) -> bool
    ensures { result ≡ true → name.now ≡ other.now }
{
    let len = name.len();
    if len != other.len() {
        return false;
    }
    if 4 <= len && len <= 8 {
        let last = len - 4;
        return name.starts_with(&other[..4]) && name[last..].starts_with(&other[last..]);
    }
    name == other
}

// Whether a name begins with these bytes.
#[inline(always)]
fn begins_with(name: &[u8], bytes: &[u8]) -> bool
    ensures { result ≡ true → starts_with nat_eq name.now bytes.now ≡ true }
{
    match name.get(..bytes.len()) {
        Some(front) => is_same(front, bytes),
        None => false,
    }
}

// Whether these are letters and digits, with at most one semicolon, at the end.
#[tactic(auto, unfolding(crate::specs::NamedReferences::is_plain_name))]
fn is_plain_name(name: &str) -> bool
    ensures { result ≡ is_plain_name name.now }
{
    let letters = without_semicolon(name.as_bytes());
    !letters.is_empty() && is_alphanumeric(letters)
}

// Whether these are ASCII letters and digits alone.
fn is_alphanumeric(bytes: &[u8]) -> bool
    ensures { result ≡ list_all is_ascii_alphanumeric bytes.now }
{
    bytes.iter().all(|byte| byte.is_ascii_alphanumeric())
}

// The name without a semicolon at its end.
fn without_semicolon(name: &[u8]) -> &[u8]
    ensures { result.now ≡ without_semicolon name.now }
{
    name.strip_suffix(b";").unwrap_or(name)
}

// Whether one of the characters is U+0000.
#[tactic(auto, unfolding(crate::specs::NamedReferences::has_zero))]
fn has_zero<A: Allocator>(entry: &Entry<A>) -> bool
    ensures { result ≡ has_zero (reference_of entry.now) }
{
    entry.1 == '\0' || entry.2 == Some('\0')
}

/// The character that a numeric reference to a C1 control stands for, if it is another.
#[tactic(auto, unfolding(crate::specs::C1::character_of_c1))]
pub fn c1_replacement(number: u8) -> Option<char>
    ensures { result ≡ character_of_c1 number }
{
    match number {
        0x80 => Some('\u{20AC}'),
        0x82 => Some('\u{201A}'),
        0x83 => Some('\u{0192}'),
        0x84 => Some('\u{201E}'),
        0x85 => Some('\u{2026}'),
        0x86 => Some('\u{2020}'),
        0x87 => Some('\u{2021}'),
        0x88 => Some('\u{02C6}'),
        0x89 => Some('\u{2030}'),
        0x8A => Some('\u{0160}'),
        0x8B => Some('\u{2039}'),
        0x8C => Some('\u{0152}'),
        0x8E => Some('\u{017D}'),
        0x91 => Some('\u{2018}'),
        0x92 => Some('\u{2019}'),
        0x93 => Some('\u{201C}'),
        0x94 => Some('\u{201D}'),
        0x95 => Some('\u{2022}'),
        0x96 => Some('\u{2013}'),
        0x97 => Some('\u{2014}'),
        0x98 => Some('\u{02DC}'),
        0x99 => Some('\u{2122}'),
        0x9A => Some('\u{0161}'),
        0x9B => Some('\u{203A}'),
        0x9C => Some('\u{0153}'),
        0x9E => Some('\u{017E}'),
        0x9F => Some('\u{0178}'),
        _ => None,
    }
}
