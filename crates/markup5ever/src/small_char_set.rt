//! Sets of characters below 64.
ghost use Rattle.std.specs.Prelude.{◌≡◌, ◌≢◌, ℕ, ◌+◌, ◌/◌, ◌%◌, ◌^◌, ◌<◌, ◌≤◌, ◌↔◌, List, ◌∷◌, length, drop, slice_index, IsTrue, All, Contains};
ghost use Rattle.std.specs.Str.{chars};
ghost use Rattle.markup5ever.specs.Lanes.{HasLanes, bit_of};
ghost use Rattle.markup5ever.specs.Blocks.{IsFirstFrom};
ghost use Rattle.markup5ever.specs.SmallCharSet.{IsMember, BeginsOutside};

use crate::blocks::{BLOCK, Sought, first_from, lowest_bit};
use std::marker::Model;
use std::simd::prelude::*;

// The bits of a byte, lowest first. The entries after them are never looked up.
const BITS: [u8; 16] = [1, 2, 4, 8, 16, 32, 64, 128, 0, 0, 0, 0, 0, 0, 0, 0];

/// A set of characters below 64, as one number of 64 bits.
#[derive(Clone, Copy, Debug, PartialEq, Eq)]
pub struct SmallCharSet {
    bits: u64,
}

impl Model for SmallCharSet {
    ghost Value = { ℕ };

    ghost view = { λ s. s.bits };

    ghost inverse = { λ n. record { bits = n } };
}

impl SmallCharSet {
    /// The set of these characters.
    #[inline(always)]
    pub fn of(members: &[u8]) -> SmallCharSet
        requires { All (λ member. member < 64) members.now }
        ensures { (c : ℕ) → IsMember result c ↔ Contains members.now c }
    {
        let mut bits = 0;
        for member in members {
            bits |= 1u64 << *member;
        }
        SmallCharSet { bits }
    }

    /// Whether the character is in the set. None from 64 on is.
    #[inline(always)]
    pub fn contains(&self, c: char) -> bool
        ensures { IsTrue result ↔ IsMember self.now c }
    {
        let code = u32::from(c);
        code < 64 && self.bits & (1u64 << code) != 0
    }

    /// How many bytes the characters outside the set take with which the text begins.
    #[inline(always)]
    pub fn nonmember_prefix_len(&self, text: &str) -> usize
        ensures outside { BeginsOutside self.now text.now result }
        ensures stops { (c : ℕ) (rest : List ℕ) →
            chars (drop result text.now) ≡ c ∷ rest → IsMember self.now c }
    {
        self.first_member(text.as_bytes())
    }

    // The place of the first byte that is in the set, or the end. One byte is looked at without a search.
    #[inline(always)]
    fn first_member(&self, bytes: &[u8]) -> usize
        ensures { IsFirstFrom (IsMember self.now) bytes.now 0 result }
    {
        if bytes.len() == 1 {
            return usize::from(!self.contains(char::from(bytes[0])));
        }
        first_from(self, bytes, 0)
    }
}

impl Sought for SmallCharSet {
    ghost is_sought = { IsMember };

    #[inline(always)]
    fn first_in_block(&self, bytes: &[u8], at: usize) -> usize {
        first_marked(marks(self.bits, u8x16::from_slice(&bytes[at..])))
    }

    #[inline(always)]
    fn first_in_rest(&self, bytes: &[u8], from: usize) -> usize {
        for at in from..bytes.len() {
            if self.contains(char::from(bytes[at])) {
                return at;
            }
        }
        bytes.len()
    }
}

// A lane for each byte, which is not zero just where the byte is in the set of these bits. Two tables are looked up,
// each for all bytes at once. The higher bits of a byte give eight bits of the set, and its lowest three the one of
// them that stands for it.
#[inline(always)]
fn marks(bits: u64, block: u8x16) -> u8x16
    ensures { (k : ℕ) → k < BLOCK
        → (slice_index result k ≢ 0 ↔ IsMember bits (slice_index block k)) }
{
    eighth_of_each(bits, block) & bit_of_each(block)
}

// The eight bits of the set among which that of each byte is. A byte of 128 or more has none there, and gets some eight.
#[inline(always)]
fn eighth_of_each(bits: u64, block: u8x16) -> u8x16
    ensures { HasLanes result (λ k. bits / 256 ^ (slice_index block k / 8 % 16) % 256) }
{
    eighths(bits).swizzle_dyn((block >> u8x16::splat(3)) & u8x16::splat(15))
}

// The bits of the set, eight in a lane, and then zeros, for no byte from 64 on is in a set.
#[inline(always)]
fn eighths(bits: u64) -> u8x16
    ensures { HasLanes result (λ k. bits / 256 ^ k % 256) }
{
    u64x2::from_array([bits, 0]).to_le_bytes()
}

// The bit of each byte among the eight. The index keeps the byte's top bit: where that is set, the lane is zero.
#[inline(always)]
fn bit_of_each(block: u8x16) -> u8x16
    ensures { HasLanes result (λ k. bit_of (slice_index block k)) }
{
    u8x16::from_array(BITS).swizzle_dyn(block & u8x16::splat(0x87))
}

// How many lanes come before the first that is not zero.
#[inline(always)]
fn first_marked(marks: u8x16) -> usize
    ensures within { result ≤ BLOCK }
    ensures unmarked { (k : ℕ) → k < result → slice_index marks k ≡ 0 }
    ensures marked { result < BLOCK → slice_index marks result ≢ 0 }
{
    lowest_bit(marks.simd_ne(u8x16::splat(0)).to_bitmask())
}
