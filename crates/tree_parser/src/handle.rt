//! The script at which a tokenizer pauses.
use std::marker::Model;
use tree_sink::handle::NodeHandle;

/// The element of a script that is to be run. Contracts see the number of the node.
#[derive(Drop)]
pub struct ScriptHandle<H: NodeHandle>(pub H);

impl<H: NodeHandle> Model for ScriptHandle<H> {
    ghost use Rattle.std.specs.Prelude.{ℕ};

    ghost Value = { ℕ };

    ghost view = { λ script. H.node script.0 };
}
