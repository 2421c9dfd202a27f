//! A line, as deep in a tree as it stands.
ghost use Rattle.std.specs.Prelude.{◌≡◌, ◌++◌, codes, flat_map, OnOk};
ghost use Rattle.tree_lines.specs.Lines.{line, spaces};

use std::alloc::{AllocError, Allocator};

// Begins a line.
fn begin_line<A: Allocator>(output: &mut Vec<u8, A>, depth: usize) -> Result<(), AllocError>
    ensures { OnOk result (output.new.items ≡ output.old.items ++ (codes "| " ++ spaces depth)) }
{
    output.extend_from_slice(b"| ")?;
    for _ in 0..depth {
        output.extend_from_slice(b"  ")?;
    }
    Ok(())
}

/// Appends a line of these parts.
pub fn push_line<A: Allocator>(
    output: &mut Vec<u8, A>,
    depth: usize,
    parts: &[&str],
) -> Result<(), AllocError>
    ensures { OnOk result (output.new.items
        ≡ output.old.items ++ line depth (flat_map (λ part. part.now) parts.now)) }
{
    begin_line(output, depth)?;
    for part in parts {
        output.extend_from_slice(part.as_bytes())?;
    }
    output.push(b'\n')?;
    Ok(())
}
