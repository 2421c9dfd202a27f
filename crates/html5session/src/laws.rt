//! What is taken of records, and what stays: how a page is read doesn't depend on it, and no feed takes any.
ghost use Rattle.std.specs.Prelude.{◌≡◌, ℕ, List, false};
ghost use Rattle.html5ever_interface.specs.Token.{Reply};
ghost use Rattle.html5records.specs.Recording.{Recorded, WritesOn, recorded_means, taking};
ghost use Rattle.html5records.specs.declared.record_sink.PausedAt.{PausedAt};
ghost use Rattle.html5feed.specs.Feed.{feed};
ghost use Rattle.html5reading.specs.Reading.{all_messages, messages_so_far, state_after, start_after};
ghost use Rattle.html5reading.specs.Start.{Rules, Start};
ghost use Rattle.html5session.specs.Intake.{Piece};
ghost use Rattle.html5session.specs.RecordSessions.{RecordSessionOf, recorded_by};
ghost use Rattle.html5session.specs.Session.{EndRefused, EndsSession, FeedRefused, FeedsPiece, is_over};
ghost use Rattle.html5session.specs.declared.error.SessionError.{SessionError};

/// A text is read alike however many bytes of the records were taken. It tells the same, a feed pauses at the same tag,
/// and the text after it is read from the same start.
pub fn readings_ignore_taking()
    ensures told { (rules : Rules) (K : Start) (r : Recorded) (count : ℕ) (text : List ℕ) →
        messages_so_far recorded_means rules K (taking r count) text
        ≡ messages_so_far recorded_means rules K r text }
    ensures whole { (rules : Rules) (K : Start) (r : Recorded) (count : ℕ) (text : List ℕ) →
        all_messages recorded_means rules K (taking r count) text
        ≡ all_messages recorded_means rules K r text }
    ensures state { (rules : Rules) (K : Start) (r : Recorded) (count : ℕ) (text : List ℕ) →
        state_after recorded_means rules K (taking r count) text
        ≡ taking (state_after recorded_means rules K r text) count }
    ensures start { (rules : Rules) (K : Start) (r : Recorded) (count : ℕ) (text : List ℕ) →
        start_after recorded_means rules K (taking r count) text
        ≡ start_after recorded_means rules K r text }
    ensures fed { (rules : Rules) (K : Start) (r : Recorded) (count : ℕ) (text queue : List ℕ) →
        feed recorded_means rules K (taking r count) text queue
        ≡ feed recorded_means rules K r text queue }
{}

/// A feed and an end of a session whose sink writes records take none of them, and write after what was written. So the
/// next bytes that are taken go on where the last ones ended. That holds also if they are refused.
pub fn records_wait_on()
    ensures feeds { (old new : RecordSessionOf) (piece : Piece) (reply : Reply PausedAt) → is_over old ≡ false
        → FeedsPiece recorded_means old new piece reply → WritesOn (recorded_by old) (recorded_by new) }
    ensures feed_refused { (old new : RecordSessionOf) (piece : Piece) (error : SessionError) → is_over old ≡ false
        → FeedRefused recorded_means old new piece error → WritesOn (recorded_by old) (recorded_by new) }
    ensures ends { (old new : RecordSessionOf) → is_over old ≡ false
        → EndsSession recorded_means old new → WritesOn (recorded_by old) (recorded_by new) }
    ensures end_refused { (old new : RecordSessionOf) (error : SessionError) → is_over old ≡ false
        → EndRefused recorded_means old new error → WritesOn (recorded_by old) (recorded_by new) }
{}
