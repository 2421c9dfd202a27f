//! What readings make of a tree builder. There is no code that runs.
ghost use Rattle.std.specs.Prelude.{◌≡◌, ℕ, List};
ghost use Rattle.html5ever_interface.specs.Sink.{stepped};
ghost use Rattle.html5reading.specs.Reading.{all_messages, state_after};
ghost use Rattle.html5reading.specs.Start.{Rules};
ghost use Rattle.tree_construction.specs.Construction.{start};
ghost use Rattle.tree_construction.specs.Parser.{Options};
ghost use Rattle.tree_construction.specs.Text.{parser_of_text, parser_so_far, text_start};
ghost use Rattle.tree_parser.specs.Building.{Building, after_message, building_means};

/// What a tokenizer's calls mean for the tree, if the builder was at the start of a document or a fragment. After all messages
/// of a text it stands where the parser stands after that text (`whole`). After the messages that the text's characters
/// decide, it stands where these lead, however the text goes on (`so_far`). The tokenizer's contracts say which it received.
pub fn readings_build_trees<S>()
    ensures whole { (options : Options) (rules : Rules) (s : Building S) (text : List ℕ) → s.parser ≡ start options
        → stepped after_message s (all_messages building_means rules (text_start options) s text)
        ≡ record s { parser = parser_of_text options rules text } }
    ensures so_far { (options : Options) (rules : Rules) (s : Building S) (text : List ℕ) → s.parser ≡ start options
        → state_after building_means rules (text_start options) s text ≡ record s { parser = parser_so_far options rules text } }
{}
