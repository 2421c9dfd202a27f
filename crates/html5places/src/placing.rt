//! The sink that keeps tokens with their places.
ghost use Rattle.std.specs.Prelude.{◌≡◌, ◌++◌, ◌∷◌, [], true, map, string_bytes, IfOk, OnErr, OnOk};
ghost use Rattle.html5ever_interface.specs.Token.{told_by};
ghost use Rattle.html5ever_interface.specs.Token.Reply.{KeepOn};
ghost use Rattle.html5places.specs.Marks.{kept, placed_token, placed_of, placed_step, places_of, placing_of, waits};

use crate::places::Places;
use ghost_counts::Count;
use html5ever_interface::interface::sink::TokenSink;
use html5ever_interface::interface::token::{SinkFault, TextFault, Token, TokenSinkResult};
use html5sinks::text_runs::reply_to_token;
use std::alloc::{AllocError, Allocator, Global};
use std::marker::Model;
use std::mem;

/// A token with the run of text before it, and where both stand.
#[derive(Drop)]
pub struct PlacedToken<A: Allocator = Global> {
    pub run: String<A>,
    pub token: Token<A>,
    pub line_number: u64,
    pub places: Places,
}

// Appends a token.
fn push_token<A: Allocator>(
    tokens: &mut Vec<PlacedToken<A>, A>,
    placed: PlacedToken<A>,
) -> Result<(), SinkFault>
    ensures ok { OnOk result (tokens.new.items ≡ tokens.old.items ++ placed ∷ []) }
    ensures err { OnErr result (tokens.new.items ≡ tokens.old.items) }
{
    match tokens.push(placed) {
        Ok(()) => Ok(()),
        Err(_) => Err(SinkFault),
    }
}

/// Joins adjacent texts, and keeps each token with the run before it, and where both stand, until it is taken. The caller
/// says where the character ends that is read next (`stand_at`), and which `<` may begin markup (`begin_here`).
#[derive(Drop)]
pub struct PlacedTokens<A: Allocator = Global> {
    alloc: A,
    tokens: Vec<PlacedToken<A>, A>,
    run: String<A>,
    // Where the run begins.
    text: usize,
    // Where the last `<` stands that may have begun markup.
    begun: usize,
    // Where the character that is read begins, and where it ends.
    from: usize,
    to: usize,
    faults: Count,
}

impl<A: Allocator> Model for PlacedTokens<A> {
    ghost use Rattle.std.specs.Prelude.{List, map, string_bytes};
    ghost use Rattle.html5places.specs.Marks.{Placed, PlacingSink, placed_token};

    ghost Value = { PlacingSink (List Placed) };

    ghost view = { λ s. record {
      handler = map placed_token s.tokens.items;
      marks = record { run = string_bytes s.run; text = s.text; begun = s.begun; from = s.from; to = s.to };
      faults = s.faults.total;
    } };
}

impl<A: Allocator + Copy> PlacedTokens<A> {
    /// A sink at the first byte of a text.
    pub fn new(alloc: A) -> PlacedTokens<A>
        ensures tokens { result.handler ≡ [] }
        ensures marks { result.marks ≡ record { run = []; text = 0; begun = 0; from = 0; to = 0 } }
    {
        PlacedTokens {
            alloc,
            tokens: Vec::new(alloc),
            run: String::new(alloc),
            text: 0,
            begun: 0,
            from: 0,
            to: 0,
            faults: Count::new(),
        }
    }

    /// The character that is read next begins after the last one, and ends there.
    pub fn stand_at(&mut self, to: usize)
        ensures { self.new ≡ record self.old { marks = record self.old.marks { from = self.old.marks.to; to = to } } }
    {
        self.from = self.to;
        self.to = to;
    }

    /// The last character is a `<` that may begin markup.
    pub fn begin_here(&mut self)
        ensures { self.new ≡ record self.old { marks = record self.old.marks { begun = self.old.marks.from } } }
    {
        self.begun = self.from;
    }

    /// The byte after the last character.
    pub fn place(&self) -> usize
        ensures { result ≡ self.now.marks.to }
    {
        self.to
    }

    /// Whether no token waits.
    pub fn is_empty(&self) -> bool
        ensures { result ≡ true → self.now.handler ≡ [] }
    {
        self.tokens.is_empty()
    }

    /// Takes the tokens that wait.
    pub fn take_tokens(&mut self) -> Vec<PlacedToken<A>, A>
        ensures taken { map placed_token result.items ≡ self.old.handler }
        ensures left { self.new ≡ record self.old { handler = [] } }
    {
        mem::replace(&mut self.tokens, Vec::new(self.alloc))
    }

    // Where a token stands, with the run before it.
    fn places_of(&self, token: &Token<A>) -> Places
        ensures { result ≡ places_of self.now.marks (told_by token.now) }
    {
        match token {
            Token::ParseError(_) => Places {
                text: self.from,
                begin: self.from,
                end: self.to,
            },
            Token::TagToken(_)
            | Token::CommentToken(_)
            | Token::ProcessingInstructionToken(_)
            | Token::DoctypeToken(_) => Places {
                text: self.text,
                begin: self.begun,
                end: self.to,
            },
            Token::CharacterTokens(_) | Token::NullCharacterToken | Token::EOFToken => Places {
                text: self.text,
                begin: self.from,
                end: self.to,
            },
        }
    }

    // Keeps a token after this run.
    fn keep(
        &mut self,
        run: String<A>,
        token: Token<A>,
        line_number: u64,
        places: Places,
    ) -> Result<(), SinkFault>
        ensures kept { OnOk result (self.new ≡ record self.old {
          handler = waits self.old.handler (record {
            run = string_bytes run;
            token = told_by token;
            line = line_number;
            places = places;
          });
        }) }
        ensures fault { OnErr result (self.new ≡ self.old) }
    {
        let placed = PlacedToken {
            run,
            token,
            line_number,
            places,
        };
        push_token(&mut self.tokens, placed)
    }

    // A copy of the run.
    fn copied_run(&self) -> Result<String<A>, SinkFault>
        ensures { IfOk result (λ run. string_bytes run ≡ self.now.marks.run) }
    {
        match String::from_str(self.alloc, self.run.as_str()) {
            Ok(run) => Ok(run),
            Err(AllocError) => Err(SinkFault),
        }
    }

    // The run is ended.
    fn end_run(&mut self)
        ensures { self.new ≡ record self.old { marks = record self.old.marks { run = []; text = self.old.marks.to } } }
    {
        self.run.clear();
        self.text = self.to;
    }

    // Keeps a token after the run, which it ends.
    fn keep_after_run(&mut self, token: Token<A>, line_number: u64) -> Result<(), SinkFault>
        ensures kept { OnOk result (self.new ≡ record self.old {
          handler = waits self.old.handler (record {
            run = self.old.marks.run;
            token = told_by token;
            line = line_number;
            places = places_of self.old.marks (told_by token);
          });
          marks = record self.old.marks { run = []; text = self.old.marks.to };
        }) }
        ensures fault { OnErr result (self.new ≡ self.old) }
    {
        let places = self.places_of(&token);
        let run = self.copied_run()?;
        self.keep(run, token, line_number, places)?;
        self.end_run();
        Ok(())
    }

    // Keeps a parse error, which ends no run.
    fn keep_error(&mut self, token: Token<A>, line_number: u64) -> Result<(), SinkFault>
        ensures kept { OnOk result (self.new ≡ record self.old {
          handler = waits self.old.handler (record {
            run = [];
            token = told_by token;
            line = line_number;
            places = places_of self.old.marks (told_by token);
          });
        }) }
        ensures fault { OnErr result (self.new ≡ self.old) }
    {
        let places = self.places_of(&token);
        self.keep(String::new(self.alloc), token, line_number, places)
    }

    // Joins a text to the run.
    fn join(&mut self, text: &str) -> Result<(), SinkFault>
        ensures joins { OnOk result (self.new
            ≡ record self.old { marks = record self.old.marks { run = self.old.marks.run ++ text.now } }) }
        ensures fault { OnErr result (self.new ≡ self.old) }
    {
        match self.run.push_str(text) {
            Ok(()) => Ok(()),
            Err(AllocError) => Err(SinkFault),
        }
    }

    // Takes a token. Where it finds no memory, nothing has changed.
    fn take_told(&mut self, token: Token<A>, line_number: u64) -> Result<(), SinkFault>
        ensures steps { OnOk result (placing_of kept self.new
            ≡ placed_step waits (placing_of kept self.old) (told_by token) line_number) }
        ensures fault { OnErr result (self.new ≡ self.old) }
        ensures faults { self.new.faults ≡ self.old.faults }
    {
        match token {
            Token::CharacterTokens(text) => self.join(&text),
            Token::ParseError(message) => self.keep_error(Token::ParseError(message), line_number),
            token => self.keep_after_run(token, line_number),
        }
    }
}

impl<A: Allocator + Copy> TokenSink<Token<A>> for PlacedTokens<A> {
    ghost use Rattle.std.specs.Prelude.{List, refl};
    ghost use Rattle.html5places.specs.Laws.{placed_join, placed_empty};
    ghost use Rattle.html5sinks.specs.Replies.{standard_reply};
    ghost use Rattle.html5sinks.specs.RunLaws.{tags_alone_reply};
    ghost use Rattle.html5places.specs.Marks.{Placed, Placing, kept, placed_means, waits};

    type Handle = ();

    ghost State = { Placing (List Placed) };

    ghost means = { placed_means kept waits };

    ghost faults = { λ s. s.faults };

    ghost joins = { placed_join waits };

    ghost empty = { placed_empty waits };

    ghost any_line = { λ s a line other. refl };

    ghost keeps_on = { tags_alone_reply standard_reply };

    fn process_token(
        &mut self,
        token: Token<A>,
        line_number: u64,
    ) -> Result<TokenSinkResult<(), String<A>>, SinkFault> {
        let reply = reply_to_token(&token);
        match self.take_told(token, line_number) {
            Ok(()) => Ok(reply),
            Err(SinkFault) => {
                self.faults.add(1);
                Err(SinkFault)
            }
        }
    }

    // Joins the text to the run from where it lies. A run that finds no memory is a fault of the sink.
    fn process_text(&mut self, _alloc: A, text: &str, _line_number: u64) -> Result<(), TextFault> {
        match self.join(text) {
            Ok(()) => Ok(()),
            Err(SinkFault) => {
                self.faults.add(1);
                Err(TextFault::Sink)
            }
        }
    }

    fn end(&mut self) -> Result<(), SinkFault> {
        Ok(())
    }

    fn adjusted_current_node_present_but_not_in_html_namespace(&self) -> bool {
        false
    }
}
