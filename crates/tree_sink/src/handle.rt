//! What names a node.
/// What names a node of a tree. A sink gives handles out, and a builder gives them back.
pub trait NodeHandle: Copy + Drop {
    ghost use Rattle.std.specs.Prelude.{◌≡◌, ℕ, ◌==◌};

    /// The number of the node. 0 is the document, 1 the context element of a fragment, 2 the form around it. Nodes that
    /// are made have numbers from 3 on, in their order.
    ghost node: { Self → ℕ };

    /// Whether it names the same node.
    fn is(self, other: Self) -> bool
        ensures { result ≡ (node self == node other) };
}
