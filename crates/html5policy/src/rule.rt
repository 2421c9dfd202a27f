//! Rules, of which a policy is made.

/// A rule of a policy.
#[derive(Clone, Copy, Debug, PartialEq, Eq)]
pub enum Rule<'t> {
    /// Elements of this name are kept.
    Element(&'t str),
    /// An attribute is kept in elements of that name, where these are kept.
    Attribute { element: &'t str, name: &'t str },
    /// An attribute of this name is kept in each element.
    Everywhere(&'t str),
    /// Addresses of this scheme are kept.
    Scheme(&'t str),
    /// Elements of this name are dropped with their content.
    Hidden(&'t str),
    /// This word stands in the `rel` of each `a` with an `href`, after those of the rules before.
    Rel(&'t str),
    /// Each end tag closes the innermost open element, and at the end of a page none is open.
    Balance,
    /// A page is made to fit, so that a browser builds it with the same nesting. It keeps the elements that a
    /// browser makes in a table where they are left out, too: `colgroup`, `tbody`, `tr` and `td`.
    Tree,
    /// How many elements may be open then.
    Depth(usize),
}
