//! Worked cases of pages that are written piece by piece.
mod memory;
mod pages;
mod places;
mod refusals;
