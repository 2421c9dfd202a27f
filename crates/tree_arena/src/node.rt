//! The number of a node.
use tree_sink::handle::NodeHandle;

/// The number of a node. Each arena has its own.
#[derive(Clone, Copy, Debug, PartialEq, Eq)]
pub struct NodeId(pub usize);

impl NodeHandle for NodeId {
    ghost node = { λ id. id.0 };

    fn is(self, other: NodeId) -> bool {
        self.0 == other.0
    }
}
