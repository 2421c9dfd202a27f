//! What takes tokens with their places.
use crate::places::Places;
use html5ever_interface::interface::sink::Says;
use html5ever_interface::interface::token::SinkFault;

/// Takes every token but text, each with the whole run of text before it, and with the places of both. It leaves it to the
/// standard how the text after a tag is read.
pub trait PlacedHandler<T: Says> {
    ghost use Rattle.std.specs.Prelude.{◌≡◌, OnErr, OnOk};
    ghost use Rattle.html5places.specs.Marks.{Placed};

    // The abstract state of a handler, and what a token with its run and its places makes of it.
    ghost State: { Type 0 };

    ghost state: { Self → State };

    ghost step: { State → Placed → State };

    /// Takes a run, empty if there was no text, with the token after it, the number of the line that the tokenizer has
    /// reached, and where they stand. The token is no text: the end brings the last run. A parse error does not end a
    /// run, and comes at once, with an empty one. An `Err` refuses what was handed, and the tokenizer stops: the state
    /// is then unchanged.
    fn take_token(
        &mut self,
        run: &str,
        token: T,
        line_number: u64,
        places: Places,
    ) -> Result<(), SinkFault>
        ensures steps { OnOk result (state self.new ≡ step (state self.old)
            (record { run = run.now; token = T.told token; line = line_number; places = places })) }
        ensures fault { OnErr result (state self.new ≡ state self.old) };
}
