//! What a splicer says of tokens.
use crate::cut::Cut;
use crate::edit::Edits;
use html5ever_interface::interface::sink::Says;
use html5ever_interface::interface::token::SinkFault;
use std::alloc::Allocator;

/// Says of each token, and of the run of text before it, what takes their place.
pub trait Splicer<T: Says, A: Allocator>: Drop {
    ghost use Rattle.std.specs.Prelude.{◌≡◌, IfOk};
    ghost use Rattle.html5splice.specs.Edits.{Splices, cut_by, edits_by};

    /// What a token changes in the splicer, as what it has open.
    type Change: Drop;

    // The abstract state of a splicer, what it says of each token and where that leaves it, and what a change makes of the state.
    ghost State: { Type 0 };

    ghost state: { Self → State };

    ghost splices: { Splices State };

    ghost changed: { State → Self.Change → State };

    /// What takes the place of a token, and what it changes in the splicer once that is written. A parse error is no token here;
    /// the end of the page is one.
    fn edit(&self, cut: &Cut<'_>, token: T) -> Result<(Edits<A>, Self::Change), SinkFault>
        ensures edits { IfOk result (λ said. edits_by said.0 ≡ splices.edits (state self.now) (cut_by cut.now (T.told token))) }
        ensures changes { IfOk result (λ said. changed (state self.now) said.1 ≡ splices.step (state self.now) (cut_by cut.now (T.told token))) };

    /// Changes the splicer.
    fn change(&mut self, change: Self::Change)
        ensures { state self.new ≡ changed (state self.old) change };
}
