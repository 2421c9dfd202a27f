//! Laws of whole texts, on calls that read one.
ghost use Rattle.std.specs.Prelude.{◌≡◌, ◌++◌, ℕ, true, List, [], map, IfOk, string_bytes};
ghost use Rattle.std.specs.List.{concat};
ghost use Rattle.std.specs.Str.{chars};
ghost use Rattle.html5ever_interface.specs.Collected.{none_collected, collected_step, collected_finish};
ghost use Rattle.html5ever_interface.specs.Options.{options_of};
ghost use Rattle.html5ever_interface.specs.Sink.{stepped};
ghost use Rattle.html5grammar.specs.Cdata.{WrittenCdata, IsCdata, cdata_messages};
ghost use Rattle.html5grammar.specs.Comment.{WrittenComment, IsComment, comment_messages};
ghost use Rattle.html5grammar.specs.Doctype.{WrittenDoctype, IsDoctype, doctype_messages};
ghost use Rattle.html5grammar.specs.Instruction.{WrittenInstruction, IsInstruction, instruction_messages};
ghost use Rattle.html5grammar.specs.Reference.{WrittenReference, IsReference, reference_messages};
ghost use Rattle.html5grammar.specs.Declarations.{IsOpenBogusDeclaration, IsOpenDoctype};
ghost use Rattle.html5grammar.specs.Items.{IsTextRun, IsOpenComment, IsOpenBogus, text_run_messages, open_comment_messages, open_bogus_messages, open_declaration_messages, whole_open_doctype_messages};
ghost use Rattle.html5grammar.specs.Tag.{WrittenTag, IsTag, tag_messages};
ghost use Rattle.html5grammar.specs.RawText.{WrittenRaw, IsRawText, raw_messages};
ghost use Rattle.html5reading.specs.Start.{Mode, Raw, Start, Rules, start_of};
ghost use Rattle.html5ever.specs.Collecting.{CollectsText, Collects, ComposedOf};
ghost use Rattle.html5ever.specs.RunSteps.{run_text};
ghost use Rattle.html5ever.specs.RunSteps.StepOf.{AtBack};
ghost use Rattle.html5feed.specs.Starting.{CanStart};
ghost use Rattle.html5ever.specs.Tokenizer.{state_at_end, rules_of};

pub use crate::tokenizer::pieces::feed_pieces;
use crate::tokenizer::whole::read_whole;
/// `read_whole`, by the name that whole texts have elsewhere.
pub use crate::tokenizer::whole::read_whole as closed;
use html5ever_interface::collect::Collector;
use html5ever_interface::interface::sink::TokenSink;
use html5ever_interface::interface::token::Token;
use html5ever_interface::options::TokenizerOpts;
use html5partial::error::TokenizerError;
use markup5ever::data::NamedReferences;
use std::alloc::Allocator;

// Reads a whole text by a collector.
fn collect<A: Allocator + Copy>(
    alloc: A,
    opts: TokenizerOpts<A>,
    foreign: bool,
    references: &NamedReferences<A>,
    text: String<A>,
) -> Result<Collector<A>, TokenizerError>
    requires { CanStart opts.initial_state }
    ensures reads { CollectsText result (options_of opts) references.now foreign (chars (string_bytes text)) }
{
    let sink = Collector::new(alloc, foreign);
    let (sink, read) = read_whole(alloc, sink, opts, references, text);
    // A match in place of `?`: split for the proof.
    match read {
        Ok(()) => Ok(sink),
        Err(error) => Err(error),
    }
}

/// Reads a whole text by a collector. Take a text that is one tag, written out, with references in its
/// values. The collector then holds the errors of the tag, each at its character, the tag, and the end.
pub fn tag<A: Allocator + Copy>(
    alloc: A,
    opts: TokenizerOpts<A>,
    foreign: bool,
    references: &NamedReferences<A>,
    text: String<A>,
) -> Result<Collector<A>, TokenizerError>
    requires { CanStart opts.initial_state }
    ensures reads { CollectsText result (options_of opts) references.now foreign (chars (string_bytes text)) }
    ensures tag { IfOk result (λ sink. (tag : WrittenTag) →
        IsTag (start_of (options_of opts)) (chars (string_bytes text)) tag →
        sink.collected ≡ record {
          messages = tag_messages (rules_of (options_of opts) references.now) (start_of (options_of opts)).input tag;
          finished = true;
          foreign = foreign;
        }) }
{
    references.table_laws();
    collect(alloc, opts, foreign, references, text)
}

/// Reads a whole text by a collector. Where the text is one character reference, written out, read in
/// Data or in RCDATA, the collector then holds its errors, its characters as one text, and the end.
pub fn reference<A: Allocator + Copy>(
    alloc: A,
    opts: TokenizerOpts<A>,
    foreign: bool,
    references: &NamedReferences<A>,
    text: String<A>,
) -> Result<Collector<A>, TokenizerError>
    requires { CanStart opts.initial_state }
    ensures reads { CollectsText result (options_of opts) references.now foreign (chars (string_bytes text)) }
    ensures reference { IfOk result (λ sink. (reference : WrittenReference) →
        IsReference references.now (start_of (options_of opts)) (chars (string_bytes text)) reference →
        sink.collected ≡ record {
          messages = reference_messages opts.exact_errors (start_of (options_of opts)).input reference;
          finished = true;
          foreign = foreign;
        }) }
{
    references.table_laws();
    collect(alloc, opts, foreign, references, text)
}

/// Reads a whole text by a collector. Where the text is characters of Data or of plain text that are
/// text, the collector then holds them as one text, with each NUL apart, and the end. The text may also
/// be raw text, written out, with or without the end tag that ends it. Then the collector holds what
/// its items tell, with adjacent texts joined, the end tag, and the end. `opts` choose the kind of raw
/// text and the name of the end tag.
pub fn raw<A: Allocator + Copy>(
    alloc: A,
    opts: TokenizerOpts<A>,
    foreign: bool,
    references: &NamedReferences<A>,
    text: String<A>,
) -> Result<Collector<A>, TokenizerError>
    requires { CanStart opts.initial_state }
    ensures reads { CollectsText result (options_of opts) references.now foreign (chars (string_bytes text)) }
    ensures raw { IfOk result (λ sink. (raw : Raw) (name : List ℕ) (written : WrittenRaw) →
        IsRawText (start_of (options_of opts)) (chars (string_bytes text)) raw name written →
        Collects sink foreign
        (raw_messages (rules_of (options_of opts) references.now) (start_of (options_of opts)).input raw written)) }
    ensures text { IfOk result (λ sink. (mode : Mode) (run : List ℕ) →
        IsTextRun (start_of (options_of opts)) (chars (string_bytes text)) mode run →
        Collects sink foreign (text_run_messages opts.exact_errors (start_of (options_of opts)).input
        (chars (string_bytes text)) mode run)) }
{
    references.table_laws();
    collect(alloc, opts, foreign, references, text)
}

/// Reads a whole text by a collector. Where the text is one comment, written out, also a bogus one,
/// the collector then holds its errors, each at its character, the comment, and the end. Where the text
/// is a comment without its end, it holds what its characters tell, and what the end tells.
pub fn comment<A: Allocator + Copy>(
    alloc: A,
    opts: TokenizerOpts<A>,
    foreign: bool,
    references: &NamedReferences<A>,
    text: String<A>,
) -> Result<Collector<A>, TokenizerError>
    requires { CanStart opts.initial_state }
    ensures reads { CollectsText result (options_of opts) references.now foreign (chars (string_bytes text)) }
    ensures comment { IfOk result (λ sink. (comment : WrittenComment) →
        IsComment (start_of (options_of opts)) foreign (chars (string_bytes text)) comment →
        sink.collected ≡ record {
          messages = comment_messages opts.exact_errors (start_of (options_of opts)).input comment;
          finished = true;
          foreign = foreign;
        }) }
    ensures open { IfOk result (λ sink. (content : List ℕ) →
        IsOpenComment (start_of (options_of opts)) (chars (string_bytes text)) content →
        Collects sink foreign (open_comment_messages opts.exact_errors (start_of (options_of opts)).input
        (chars (string_bytes text)) content)) }
    ensures open_bogus { IfOk result (λ sink. (content : List ℕ) →
        IsOpenBogus (start_of (options_of opts)) (chars (string_bytes text)) content →
        Collects sink foreign (open_bogus_messages opts.exact_errors (start_of (options_of opts)).input
        (chars (string_bytes text)) content)) }
    ensures open_declaration { IfOk result (λ sink. (content : List ℕ) →
        IsOpenBogusDeclaration (start_of (options_of opts)) foreign (chars (string_bytes text)) content →
        Collects sink foreign (open_declaration_messages opts.exact_errors (start_of (options_of opts)).input
        (chars (string_bytes text)) content)) }
{
    references.table_laws();
    collect(alloc, opts, foreign, references, text)
}

/// Reads a whole text by a collector. Take a text that is one processing instruction, written out, also
/// one without its `>`. The collector then holds its errors, each at its character or at the end, the
/// instruction, and the end.
pub fn instruction<A: Allocator + Copy>(
    alloc: A,
    opts: TokenizerOpts<A>,
    foreign: bool,
    references: &NamedReferences<A>,
    text: String<A>,
) -> Result<Collector<A>, TokenizerError>
    requires { CanStart opts.initial_state }
    ensures reads { CollectsText result (options_of opts) references.now foreign (chars (string_bytes text)) }
    ensures instruction { IfOk result (λ sink. (instruction : WrittenInstruction) →
        IsInstruction (start_of (options_of opts)) (chars (string_bytes text)) instruction →
        sink.collected ≡ record {
          messages = instruction_messages opts.exact_errors (start_of (options_of opts)).input instruction;
          finished = true;
          foreign = foreign;
        }) }
{
    collect(alloc, opts, foreign, references, text)
}

/// Reads a whole text by a collector. Where the text is one doctype, written out, the collector then
/// holds its errors, each at its character, the doctype, and the end. Where the `>` is missing, it holds
/// what the doctype's characters tell, and what the end tells.
pub fn doctype<A: Allocator + Copy>(
    alloc: A,
    opts: TokenizerOpts<A>,
    foreign: bool,
    references: &NamedReferences<A>,
    text: String<A>,
) -> Result<Collector<A>, TokenizerError>
    requires { CanStart opts.initial_state }
    ensures reads { CollectsText result (options_of opts) references.now foreign (chars (string_bytes text)) }
    ensures doctype { IfOk result (λ sink. (doctype : WrittenDoctype) →
        IsDoctype (start_of (options_of opts)) (chars (string_bytes text)) doctype →
        sink.collected ≡ record {
          messages = doctype_messages opts.exact_errors (start_of (options_of opts)).input doctype;
          finished = true;
          foreign = foreign;
        }) }
    ensures open { IfOk result (λ sink. (doctype : WrittenDoctype) →
        IsOpenDoctype (start_of (options_of opts)) (chars (string_bytes text)) doctype →
        Collects sink foreign (whole_open_doctype_messages opts.exact_errors (start_of (options_of opts)).input
        (chars (string_bytes text)) doctype)) }
{
    references.table_laws();
    collect(alloc, opts, foreign, references, text)
}

/// Reads a whole text by a collector. Where the text is one CDATA section, written out, the collector
/// then holds the texts between its NULs, each joined to one, the NULs, and the end.
pub fn cdata<A: Allocator + Copy>(
    alloc: A,
    opts: TokenizerOpts<A>,
    foreign: bool,
    references: &NamedReferences<A>,
    text: String<A>,
) -> Result<Collector<A>, TokenizerError>
    requires { CanStart opts.initial_state }
    ensures reads { CollectsText result (options_of opts) references.now foreign (chars (string_bytes text)) }
    ensures cdata { IfOk result (λ sink. (cdata : WrittenCdata) →
        IsCdata (start_of (options_of opts)) foreign (chars (string_bytes text)) cdata →
        Collects sink foreign (cdata_messages opts.exact_errors (start_of (options_of opts)).input cdata)) }
{
    collect(alloc, opts, foreign, references, text)
}

/// Reads a whole text by a collector. However the text is taken as items and at most one unfinished
/// one, the collector then holds what the items tell and what the end tells, adjacent texts joined.
pub fn items<A: Allocator + Copy>(
    alloc: A,
    opts: TokenizerOpts<A>,
    foreign: bool,
    references: &NamedReferences<A>,
    text: String<A>,
) -> Result<Collector<A>, TokenizerError>
    requires { CanStart opts.initial_state }
    ensures reads { CollectsText result (options_of opts) references.now foreign (chars (string_bytes text)) }
    ensures items { IfOk result (λ sink.
        (one : ComposedOf (options_of opts) references.now foreign (chars (string_bytes text))) →
        Collects sink foreign (one.tells ++ one.ends)) }
{
    references.table_laws();
    collect(alloc, opts, foreign, references, text)
}

/// The law of cutting: runs that push the same text in all, however it is cut, take the same text.
/// So, by the contract of `run_steps`, they leave lawful sinks in equal states. That holds where they
/// begin with equal options and equal states, and both answer `Ok`.
pub fn cutting<S: TokenSink<Token<A>>, A: Allocator>()
    ensures text { (rules : Rules) (K : Start) (s : S.State) (pieces : List (List ℕ)) →
        run_text S.means rules K s [] [] (map AtBack pieces) ≡ concat pieces }
    ensures states { (rules : Rules) (K : Start) (s : S.State) (pieces others : List (List ℕ)) →
        concat pieces ≡ concat others →
        state_at_end S.means rules K s (run_text S.means rules K s [] [] (map AtBack pieces))
        ≡ state_at_end S.means rules K s (run_text S.means rules K s [] [] (map AtBack others)) }
{}
