//! Pages that are edited as they arrive.
ghost use Rattle.std.specs.Prelude.{◌≡◌, ◌+◌, ◌++◌, OnErr, OnOk};
ghost use Rattle.std.specs.List.{concat};
ghost use Rattle.html5edit.specs.EditedPages.{edited_of};
ghost use Rattle.html5edit.specs.Pages.{edits_started, edited_page};
ghost use Rattle.html5stream.specs.Pages.{ReadsPage, StopsPage, passage_of};
ghost use Rattle.html5stream.specs.Streams.{failed_reads};

use crate::changes::Changes;
use crate::editor::Editor;
use crate::settings::EditSettings;
use devices::{Printer, Source, Target};
use html5extract::bases::Bases;
use html5programs::Filter;
use html5splice::splice_page;
use html5stream::StreamError;
use markup5ever::data::NamedReferences;
use std::alloc::{AllocError, Global};

/// Prints pages as they are edited.
#[derive(Drop)]
pub struct EditPages<W> {
    printer: Printer<W>,
    changes: Changes,
    bases: Bases,
}

// Reads a page, and prints it as it is edited.
fn edit_page<R: Source, W: Target>(
    alloc: Global,
    source: &mut R,
    changes: &Changes,
    bases: &Bases,
    printer: Printer<W>,
    references: &NamedReferences,
) -> (Printer<W>, Result<(), StreamError>)
    ensures finishes { OnOk result.1 (ReadsPage (λ before bytes. before ++ concat (edited_page references.now changes.now bases.now bytes))
        (passage_of R.remaining source.old source.new printer.printed result.0.printed)) }
    ensures beginning { OnErr result.1 (StopsPage (λ before bytes. edited_page references.now changes.now bases.now bytes)
        (λ before written. before ++ concat written)
        (passage_of R.remaining source.old source.new printer.printed result.0.printed)) }
    ensures read { R.failures source.new ≡ R.failures source.old + failed_reads result.1 }
{
    match Editor::new(alloc, changes, bases) {
        Ok(editor) => splice_page(alloc, source, editor, printer, references),
        Err(AllocError) => (printer, Err(StreamError::Memory)),
    }
}

impl<W: Target + Drop> Filter<W> for EditPages<W> {
    ghost use Rattle.std.specs.Prelude.{ℕ, List};
    ghost use Rattle.html5edit.specs.Pages.{Edited, edit_made};

    type Settings = EditSettings;

    ghost State = { Edited };

    ghost Part = { List ℕ };

    ghost state = { edited_of };

    ghost means = { edit_made };

    fn new(_alloc: Global, printer: Printer<W>, settings: EditSettings) -> EditPages<W>
        ensures { edited_of result ≡ edits_started settings printer.printed }
    {
        EditPages {
            printer,
            changes: settings.changes,
            bases: settings.bases,
        }
    }

    fn name_file(&mut self, _alloc: Global, _file: &str) -> Result<(), StreamError> {
        Ok(())
    }

    fn read_page<R: Source>(
        self,
        alloc: Global,
        source: &mut R,
        references: &NamedReferences,
    ) -> (EditPages<W>, Result<(), StreamError>) {
        let EditPages {
            printer,
            changes,
            bases,
        } = self;
        let (printer, read) = edit_page(alloc, source, &changes, &bases, printer, references);
        let pages = EditPages {
            printer,
            changes,
            bases,
        };
        (pages, read)
    }

    fn has_found(&self) -> bool {
        false
    }

    fn finish(self, _alloc: Global) -> (Printer<W>, Result<(), StreamError>)
        ensures { result.0.printed ≡ self.printer.printed }
    {
        (self.printer, Ok(()))
    }
}
