//! The policy if no other is given.
ghost use Rattle.std.specs.Prelude.{◌≡◌, Ok, true, IfOk};
ghost use Rattle.html5policy.specs.Rules.{IsSound};
ghost use Rattle.html5policy.specs.Standard.{standard_policy};
ghost use Rattle.html5policy.specs.Text.{policy_said};

use crate::policy::Policy;
use std::alloc::{AllocError, Allocator};

const STANDARD: &str = "\
# The standard policy of firnuubal: one rule per line. Lines that begin with # are comments.

# The allowed elements, each with its own attributes.
allow a href
allow abbr
allow address
allow article
allow aside
allow b
allow bdi
allow bdo
allow blockquote cite
allow br
allow caption
allow center
allow cite
allow code
allow col span
allow colgroup span
allow data value
allow dd
allow del cite
allow details
allow dfn
allow div
allow dl
allow dt
allow em
allow figcaption
allow figure
allow footer
allow h1
allow h2
allow h3
allow h4
allow h5
allow h6
allow header
allow hgroup
allow hr
allow i
allow img src alt width height
allow ins cite
allow kbd
allow li value
allow main
allow mark
allow nav
allow ol start reversed type
allow p
allow pre
allow q cite
allow rb
allow rp
allow rt
allow rtc
allow ruby
allow s
allow samp
allow section
allow small
allow span
allow strong
allow sub
allow summary
allow sup
allow table
allow tbody
allow td colspan rowspan scope headers
allow tfoot
allow th colspan rowspan scope headers
allow thead
allow time datetime
allow tr
allow u
allow ul
allow var
allow wbr

# The attributes that every element may have.
everywhere title lang dir

# The schemes of URLs that are not relative.
schemes http https mailto tel

# The value of rel on each link. The page's own is dropped.
rel noopener noreferrer

# The nesting is fixed, so that browsers build exactly the tree that the tags show. At most 256
# elements may be open at once, or as many as a rule 'depth NUMBER' says, 4096 at most.
tree

# More rules: 'hide ELEMENT..' drops elements with their content. Instead of 'tree', 'balance' only
# closes elements that are still open, and drops end tags that match none.
";

/// The standard policy as a text, to begin one's own from.
pub fn standard_text() -> &'static str
    ensures { policy_said result.now ≡ Ok standard_policy }
{
    STANDARD
}

impl<A: Allocator + Copy> Policy<A> {
    /// Text, its blocks, lists and tables, links and images, with no style of their own. A page is made
    /// to fit, so that a browser builds it with the same nesting, and links get `rel="noopener
    /// noreferrer"`.
    pub fn standard(alloc: A) -> Result<Policy<A>, AllocError>
        ensures standard { IfOk result (λ policy. policy ≡ standard_policy) }
        ensures sound { IfOk result (λ policy. IsSound policy) }
        ensures tree { IfOk result (λ policy. policy.tree ≡ true) }
    {
        match Policy::parse(alloc, standard_text()) {
            Ok(policy) => Ok(policy),
            Err(_) => Err(AllocError),
        }
    }
}
