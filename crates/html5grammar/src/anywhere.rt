//! Items of a text in source form, wherever they stand: what each tells by itself, after any text
//! that leads to where it is read, and before any text.
#![tactic(auto)]

ghost use Rattle.std.specs.Prelude.{◌≡◌, ℕ, true, false, List, [], ◌∷◌, Option, None, Some};
ghost use Rattle.html5ever_interface.specs.Sink.{Message, on_line};
ghost use Rattle.html5reading.specs.Characters.{ampersand};
ghost use Rattle.html5grammar.specs.Anywhere.{TellsBefore, TellsByItself, start_beyond, start_after_tag, is_decided_by, messages_within};
ghost use Rattle.html5reading.specs.NormalisedText.{normalised, input_after, line_after};
ghost use Rattle.html5reading.specs.Reference.{told_of};
ghost use Rattle.html5grammar.specs.Cdata as one_cdata;
ghost use Rattle.html5grammar.specs.Cdata.{WrittenCdata, IsCdata, opening_text, spell_cdata, open_after_cdata};
ghost use Rattle.html5grammar.specs.Comment as one_comment;
ghost use Rattle.html5grammar.specs.Comment.{WrittenComment, IsComment};
ghost use Rattle.html5grammar.specs.Doctype as one_doctype;
ghost use Rattle.html5grammar.specs.Doctype.{WrittenDoctype, IsDoctype};
ghost use Rattle.html5grammar.specs.Instruction as one_instruction;
ghost use Rattle.html5grammar.specs.Instruction.{WrittenInstruction, IsInstruction, open_after_instruction};
ghost use Rattle.html5grammar.specs.Reference.{WrittenReference, IsReference};
ghost use Rattle.html5grammar.specs.Reference.WrittenReference.{Number};
ghost use Rattle.html5grammar.specs.Items.{IsReferenceIn};
ghost use Rattle.html5grammar.specs.Tag.{WrittenTag, IsTag, tag_told, spelled, found_in};
ghost use Rattle.html5grammar.specs.Spelled.{spelled_messages};
ghost use Rattle.html5reading.specs.Reading.{start_after};
ghost use Rattle.html5reading.specs.Start.{Raw, Start, Mode, Rules};
ghost use Rattle.html5reading.specs.Start.Mode.{Data};
ghost use Rattle.html5reading.specs.Start.Open.{Between};
ghost use Rattle.html5reading.specs.Start.Stand.{InText};
ghost use Rattle.html5grammar.specs.RawText.{WrittenRaw, IsRawText, spell_raw};
ghost use Rattle.markup5ever.specs.NamedReferences.{IsTable};

use html5ever_interface::interface::sink::TokenSink;
use html5ever_interface::interface::token::Token;
use std::alloc::Allocator;

/// A tag, with references in its values. The sink's reply to it says what is open after it.
pub fn tag<S: TokenSink<Token<A>>, A: Allocator>()
    ensures { (rules : Rules) (K : Start) (s : S.State) (Y : List ℕ) (tag : WrittenTag) → IsTable rules.references
        → IsTag K Y tag
        → let M : List Message = spelled_messages rules.exact K.input [] (spelled rules tag) in
        TellsByItself S.means rules K s Y M (start_after_tag S.means K s Y (tag_told rules tag) M) }
{}

/// A character reference, in each mode that has references, before a text whose first character decides
/// it and is no part of it. A number with its semicolon is decided before any text. `whole` is for each
/// reference that the text after it decides: it tells what it comes to by that text.
pub fn reference<S: TokenSink<Token<A>>, A: Allocator>()
    ensures number { (rules : Rules) (K : Start) (s : S.State) (Y : List ℕ) (x : Option ℕ) (digits : List ℕ)
        → IsReference rules.references K Y (Number x digits true)
        → TellsByItself S.means rules K s Y (messages_within rules.exact K.input (Number x digits true))
        (start_beyond K Y K.opened K.last_start_tag) }
    ensures decided { (rules : Rules) (K : Start) (s : S.State) (Y Z : List ℕ) (reference : WrittenReference) (c : ℕ)
        (rest : List ℕ)
        → IsTable rules.references → IsReference rules.references K Y reference
        → normalised (input_after K.input Y) Z ≡ c ∷ rest → is_decided_by rules.references reference c ≡ true
        → TellsBefore S.means rules Z K s Y (messages_within rules.exact K.input reference)
        (start_beyond K Y K.opened K.last_start_tag) }
    ensures whole { (rules : Rules) (K : Start) (s : S.State) (Y Z : List ℕ) (mode : Mode) (F : List ℕ)
        → IsTable rules.references → IsReferenceIn rules K Y Z mode F
        → TellsBefore S.means rules Z K s Y
        (on_line (line_after K.input (ampersand ∷ [])) (told_of (InText mode) (found_in rules false F)))
        (start_beyond K Y (Between mode) K.last_start_tag) }
{}

/// Raw text up to its end tag, or without one. Without it, letters and marks at the text's end may be
/// sent only after it.
pub fn raw<S: TokenSink<Token<A>>, A: Allocator>()
    ensures ended { (rules : Rules) (K : Start) (s : S.State) (Y : List ℕ) (raw : Raw) (name : List ℕ)
        (written_as : WrittenRaw) (tag : WrittenTag)
        → written_as.end_tag ≡ Some tag → IsTable rules.references → IsRawText K Y raw name written_as
        → let M : List Message = spelled_messages rules.exact K.input [] (spell_raw rules raw written_as) in
        TellsByItself S.means rules K s Y M (start_after_tag S.means K s Y (tag_told rules tag) M) }
    ensures open { (rules : Rules) (K : Start) (s : S.State) (Y : List ℕ) (raw : Raw) (name : List ℕ)
        (written_as : WrittenRaw)
        → written_as.end_tag ≡ None → IsRawText K Y raw name written_as
        → TellsByItself S.means rules K s Y (spelled_messages rules.exact K.input []
        (spell_raw rules raw written_as))
        (start_after S.means rules K s Y) }
{}

/// A comment, proper or bogus.
pub fn comment<S: TokenSink<Token<A>>, A: Allocator>()
    ensures { (rules : Rules) (K : Start) (s : S.State) (Y : List ℕ) (comment : WrittenComment) → IsComment K
        (S.means.foreign s) Y comment
        → TellsByItself S.means rules K s Y (one_comment.messages_of rules.exact K.input comment)
        (start_beyond K Y (Between Data) K.last_start_tag) }
{}

/// A processing instruction, also one without its `>`. That one is still open, and is not sent yet.
pub fn instruction<S: TokenSink<Token<A>>, A: Allocator>()
    ensures { (rules : Rules) (K : Start) (s : S.State) (Y : List ℕ) (instruction : WrittenInstruction)
        → IsInstruction K Y instruction
        → TellsByItself S.means rules K s Y (one_instruction.messages_of rules.exact K.input instruction)
        (start_beyond K Y (open_after_instruction instruction) K.last_start_tag) }
{}

/// A doctype.
pub fn doctype<S: TokenSink<Token<A>>, A: Allocator>()
    ensures { (rules : Rules) (K : Start) (s : S.State) (Y : List ℕ) (doctype : WrittenDoctype) → IsDoctype K Y doctype
        → TellsByItself S.means rules K s Y (one_doctype.messages_of rules.exact K.input doctype.word doctype.space
        doctype.content)
        (start_beyond K Y (Between Data) K.last_start_tag) }
{}

/// A CDATA section, also one that is open already or doesn't end. One that doesn't end is open after
/// it, with its last piece, of which nothing is sent yet.
pub fn cdata<S: TokenSink<Token<A>>, A: Allocator>()
    ensures { (rules : Rules) (K : Start) (s : S.State) (Y : List ℕ) (cdata : WrittenCdata) → IsCdata K
        (S.means.foreign s) Y cdata
        → TellsByItself S.means rules K s Y
        (spelled_messages rules.exact K.input (opening_text cdata.has_opening) (spell_cdata cdata))
        (start_beyond K Y (open_after_cdata cdata) K.last_start_tag) }
{}
