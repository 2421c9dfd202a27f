//! Plays a script of a tokenizer once, on a heap.
use crate::tokenizer::player::{Player, Stage};
use crate::tokenizer::{Cutting, SinkKind, Step, TokenizerScript};
use html5cli::arguments::settings_of;
use html5ever_interface::collect::Collector;
use html5ever_interface::interface::sink::TokenSink;
use html5ever_interface::interface::token::Token;
use html5table::references_of;
use std::alloc::{AllocError, Allocator, Global};
use testing_lines::{Played, Stop};
use testing_sinks::alternating::Alternating;
use testing_sinks::counting::Counting;
use testing_sinks::faulty::FaultySink;
use testing_sinks::shown::{Numbered, Shown};
use testing_sinks::steering::Steering;
use token_printer::print_sink::PrintSink;

// Takes the steps, up to one that stops the play.
fn take_steps<S: TokenSink<Token<A>> + Shown, A: Allocator + Copy>(
    player: &mut Player<'_, S, A>,
    steps: &[Step],
) -> Option<(usize, Stop)>
where
    S::Handle: Numbered,
{
    for (place, step) in steps.iter().enumerate() {
        if let Err(stop) = player.take(step) {
            return Some((place, stop));
        }
    }
    None
}

// Plays the steps with a sink, and looks at what a refused tokenizer does.
fn play_with<S: TokenSink<Token<A>> + Shown, A: Allocator + Copy>(
    stage: Stage<'_, A>,
    steps: &[Step],
    sink: S,
    spare: S,
) -> Result<Played, Stop>
where
    S::Handle: Numbered,
{
    let mut player = Player::new(stage, sink, spare)?;
    let stop = take_steps(&mut player, steps);
    if player.has_failed() {
        player.check_refused()?;
    }
    let lines = player.lines()?;
    Ok(Played { stop, lines })
}

// Plays the steps with sinks that fault.
fn play_with_faults<A: Allocator + Copy>(
    stage: Stage<'_, A>,
    steps: &[Step],
    left: usize,
    at_end: bool,
) -> Result<Played, Stop> {
    let sink = FaultySink::new(left, at_end);
    play_with(stage, steps, sink, FaultySink::new(left, at_end))
}

// Plays the steps with sinks of the kind.
fn play_on<A: Allocator + Copy>(
    stage: Stage<'_, A>,
    steps: &[Step],
    sink: SinkKind,
) -> Result<Played, Stop> {
    let heap = stage.heap;
    let foreign = stage.settings.foreign;
    match sink {
        SinkKind::Collect => {
            let sink = Collector::new(heap, foreign);
            play_with(stage, steps, sink, Collector::new(heap, foreign))
        }
        SinkKind::Steer => play_with(stage, steps, Steering::new(heap), Steering::new(heap)),
        SinkKind::Alternate => {
            play_with(stage, steps, Alternating::new(heap), Alternating::new(heap))
        }
        SinkKind::Count => play_with(stage, steps, Counting::new(), Counting::new()),
        SinkKind::Print => {
            let sink = PrintSink::new(heap, foreign);
            play_with(stage, steps, sink, PrintSink::new(heap, foreign))
        }
        SinkKind::FaultAfter(left) => play_with_faults(stage, steps, left, false),
        SinkKind::FaultAtEnd => play_with_faults(stage, steps, usize::MAX, true),
    }
}

impl TokenizerScript {
    // Plays the script on a heap, if its words have a meaning.
    fn try_play<A: Allocator + Copy>(
        &self,
        ample: Global,
        heap: A,
        enough: A,
        cutting: Cutting,
    ) -> Result<Played, Stop> {
        let Some(settings) = settings_of(&self.words) else {
            return Err(Stop::BadWords);
        };
        let Ok(references) = references_of(enough, settings.table) else {
            return Err(Stop::BadWords);
        };
        let stage = Stage {
            ample,
            heap,
            settings,
            references: &references,
            cutting,
        };
        play_on(stage, &self.steps, self.sink)
    }

    /// Plays the script on a heap, with a table of named references that lies in enough memory.
    pub fn play<A: Allocator + Copy>(
        &self,
        ample: Global,
        heap: A,
        enough: A,
        cutting: Cutting,
    ) -> Played {
        match self.try_play(ample, heap, enough, cutting) {
            Ok(played) => played,
            Err(stop) => Played {
                stop: Some((self.steps.len(), stop)),
                lines: String::new(ample),
            },
        }
    }
}
