//! Where a node or a text is put.
/// Where a node or a text is put.
#[derive(Clone, Copy, Debug)]
pub enum InsertionPoint<H> {
    /// After the last child of a node.
    LastChild(H),
    /// "Foster parenting": straight before a table, if that has a parent, or else after the last child of the
    /// element above it on the stack.
    TableFosterParenting {
        /// The table.
        element: H,
        /// The element above it.
        prev_element: H,
    },
    /// After the last child of the parent of a node: only with a limit of the depth.
    BesideNode(H),
}

/// What is put: a node that has no parent, or a text.
#[derive(Clone, Copy, Debug)]
pub enum NodeOrText<'a, H> {
    /// A node.
    AppendNode(H),
    /// A text. It is joined with a text that stands straight before the place.
    AppendText(&'a str),
}
