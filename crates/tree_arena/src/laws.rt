//! What is proved of an arena as a whole. There is no code that runs.
ghost use Rattle.std.specs.Prelude.{◌≡◌, List};
ghost use Rattle.tree_construction.specs.Document.{built};
ghost use Rattle.tree_construction.specs.Page.{Edit};
ghost use Rattle.tree_sink.specs.Sinks.{stepped};
ghost use Rattle.tree_arena.specs.Grown.{document_after, empty_document};

/// An empty arena that is told edits holds the rows that they make.
pub fn arena_holds_what_edits_make()
    ensures { (edits : List Edit) → (stepped document_after empty_document edits).rows ≡ built edits }
{}
