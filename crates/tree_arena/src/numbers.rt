//! Where the node of a number is kept.
ghost use Rattle.std.specs.Prelude.{◌≡◌, ◌<◌, MatchOption};
ghost use Rattle.tree_arena.specs.Rows.{IsAbsent, IsAt};

use crate::node::NodeId;

/// At which index a node is kept, if it is one of so many.
pub fn index_of(id: NodeId, count: usize) -> Option<usize>
    ensures { MatchOption result (IsAbsent id.0 count) (λ at. IsAt id.0 at count) }
{
    let at = match id.0 {
        0 => 0,
        1 | 2 => return None,
        number => number - 2,
    };
    if at < count { Some(at) } else { None }
}
