//! What is set before a page is parsed.
use tree_construction::kinds::Kind;
use tree_construction::modes::QuirksMode;

/// How a page is parsed. By default as the standard has it, without scripting.
#[derive(Clone, Copy, Debug, PartialEq, Eq, Default)]
pub struct TreeBuilderOpts {
    /// "The scripting flag".
    pub scripting_enabled: bool,
    /// Whether the document is "an iframe srcdoc document".
    pub iframe_srcdoc: bool,
    /// With so many open elements deeper ones become siblings. Browsers have 512, the standard has no limit.
    pub depth_limit: Option<usize>,
    /// With so many formatting elements after the last marker the earliest leaves its list. The standard has no limit.
    pub formatting_limit: Option<usize>,
}

/// The context element of a fragment.
#[derive(Clone, Copy, Debug, PartialEq, Eq)]
pub struct FragmentContext {
    /// Its kind.
    pub kind: Kind,
    /// Whether it or an element around it is a form.
    pub in_form: bool,
    /// The mode of its document.
    pub quirks_mode: QuirksMode,
}
