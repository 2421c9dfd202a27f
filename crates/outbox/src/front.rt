//! The front of bytes, of which some were taken.
ghost use Rattle.std.specs.Prelude.{◌≡◌, ◌+◌, ◌/◌, ◌≤◌, drop, vec_len};

use std::alloc::Allocator;

/// What is left of the bytes once this many were skipped.
pub fn rest_of<A: Allocator>(written: &Vec<u8, A>, skipped: usize) -> &[u8]
    requires { skipped ≤ vec_len written.now }
    ensures { result.now ≡ drop skipped written.now.items }
{
    &written[skipped..]
}

// Drops this many bytes at the front. What is left moves up.
fn drop_front<A: Allocator>(written: &mut Vec<u8, A>, count: usize)
    requires { count ≤ vec_len written.old }
    ensures { written.new.items ≡ drop count written.old.items }
{
    let rest = written.len() - count;
    written.copy_within(count.., 0);
    written.truncate(rest);
}

/// Counts this many more bytes as skipped. What is left moves up once more than half is skipped, so that each byte
/// moves at most once for each byte that is skipped.
pub fn skip_front<A: Allocator>(written: &mut Vec<u8, A>, skipped: &mut usize, count: usize)
    requires { skipped.old + count ≤ vec_len written.old }
    ensures rest { drop skipped.new written.new.items ≡ drop (skipped.old + count) written.old.items }
    ensures within { skipped.new ≤ vec_len written.new / 2 }
{
    *skipped += count;
    if *skipped > written.len() / 2 {
        drop_front(written, *skipped);
        *skipped = 0;
    }
}
