//! The top call.
ghost use Rattle.std.specs.Prelude.{◌≡◌, ◌+◌, ◌<◌, ◌≤◌, ◌^◌, ℕ, List, [], IfSome, MatchOption, None};
ghost use Rattle.cg_io.specs.Faults.{Rose};
ghost use Rattle.cg_words.specs.Accepted.{IsAccepted, settings_of};
ghost use Rattle.cg_session.specs.Ends.{AnswersOrLacksMemory, AtWhole, EndsBeforeAnswers, IsSessionOf, IsWhole};
ghost use Rattle.cg_session.specs.Ends.{UsageOrLacksMemory, Writes};
ghost use Rattle.cg_session.specs.Input.{TakesAtMost};
ghost use Rattle.cg_session.specs.Kept.{KeepsSession};
ghost use Rattle.cg_syntax.specs.Session.{answered_lines};
ghost use Rattle.cg_session.specs.Settings.{IsWithinLimits, session_text};
ghost use Rattle.cg_session.specs.Words.{texts};

use crate::answering::{Kept, answer_session};
use crate::input::{TextFault, session_text};
use crate::status::Status;
use crate::writing::write_all;
use cg_io::{Failed, Sink, Source};
use cg_pool::Gate;
use cg_words::{Settings, SettingsFault};
use std::alloc::{AllocError, Global};
use std::thread::Threads;

/// Written to standard output if the words of the command line are refused.
const USAGE_LINE: &[u8] = b"usage: cg [--workers W] [--cells N] [--positions P] [--sample n]\n";

/// Reads a whole session, answers its lines by workers over one shared table, and writes the whole output.
///
/// The words are those after the program's name; for words that [`Settings::read`] refuses, the usage line is written
/// and nothing is read. The text of the session is its input, or the sample if one is asked for; then nothing is read,
/// and what is written is the one line `lines n refused r bytes b`. A session may have 1,048,576 bytes and 4,096
/// answered lines, and no more answered lines than the table has cells. Reading stops at the end, at a fault, or one
/// byte past the limit. Writing begins once the whole output exists. After the last byte, the answers, their table and
/// a pass of it go into `kept`, if there are answered lines. This holds for every source: `kept` has the answers to the
/// lines of one text within the limits, and the output is that text's.
pub fn run<R: Threads + Sync, S: Source, K: Sink, G: Gate>(
    rt: &R,
    alloc: Global,
    words: &[String],
    source: &mut S,
    sink: &mut K,
    gate: &G,
    kept: &mut Option<Kept>,
) -> Status
    requires { kept.old ≡ None }

    // What was read and written, by the status, if the source and the sink report their bytes.
    ensures written { Writes result (texts words.now)
        (S.left source.old) (S.left source.new) (K.taken sink.old) (K.taken sink.new) }
    ensures taken { TakesAtMost (2 ^ 20 + 1) (S.left source.old) (S.left source.new) }

    // Nothing is read if the words are refused, or if there is a sample.
    ensures unread { ¬ IsAccepted (texts words.now) → source.new ≡ source.old }
    ensures unread_for_sample { 0 < (settings_of (texts words.now)).sample → source.new ≡ source.old }

    // The next three follow from `written`, `read` and `write`; they say when each status comes. Refused words end with
    // Usage, unless the sink failed or memory ran out.
    ensures usage { ¬ IsAccepted (texts words.now) → ¬ Rose (K.faults sink.old) (K.faults sink.new)
        → UsageOrLacksMemory result }

    // A session past a limit ends with TooLong, unless reading failed or memory ran out.
    ensures past_limits { IsAccepted (texts words.now)
        → IfSome (session_text (settings_of (texts words.now)) (S.left source.old)) (λ text.
        ¬ IsWithinLimits (settings_of (texts words.now)) text → EndsBeforeAnswers result) }

    // A session within the limits is answered whole, unless the source or the sink failed or memory ran out.
    ensures complete { IsAccepted (texts words.now)
        → IfSome (session_text (settings_of (texts words.now)) (S.left source.old)) (λ text.
        IsWithinLimits (settings_of (texts words.now)) text
        → ¬ Rose (S.faults source.old) (S.faults source.new)
        → ¬ Rose (K.faults sink.old) (K.faults sink.new)
        → AnswersOrLacksMemory result) }

    // Read and Write say that the count of faults rose. No count falls.
    ensures read { result ≡ Status.Read → Rose (S.faults source.old) (S.faults source.new) }
    ensures write { result ≡ Status.Write → Rose (K.faults sink.old) (K.faults sink.new) }
    ensures source_never_falls { S.faults source.old ≤ S.faults source.new }
    ensures sink_never_falls { K.faults sink.old ≤ K.faults sink.new }

    // The answers and their table are kept if the whole output was written and some line is answered, and only then.
    ensures kept { IsWhole result
        → IfSome (session_text (settings_of (texts words.now)) (S.left source.old)) (λ text.
        MatchOption kept.new (answered_lines text ≡ []) (λ k.
        KeepsSession (settings_of (texts words.now)) text k.answers.items k.cells k.pass)) }
    ensures not_kept { ¬ IsWhole result → kept.new ≡ None }

    // The same for a source and a sink that report nothing: some text is the session that is answered and kept.
    ensures session { AtWhole result ((text : List ℕ)
        × IsSessionOf result (settings_of (texts words.now)) (S.left source.old) (K.taken sink.old) (K.taken sink.new)
        (K.counted sink.old) (K.counted sink.new) text
        × MatchOption kept.new (answered_lines text ≡ []) (λ k.
        KeepsSession (settings_of (texts words.now)) text k.answers.items k.cells k.pass)) }
{
    let settings = match Settings::read(alloc, words) {
        Ok(settings) => settings,
        Err(SettingsFault::Memory) => return Status::Memory,
        Err(SettingsFault::Usage) => {
            return match write_all(sink, USAGE_LINE) {
                Ok(()) => Status::Usage,
                Err(Failed) => Status::Write,
            };
        }
    };
    let text = match session_text(alloc, settings, source) {
        Ok(text) => text,
        Err(TextFault::Read) => return Status::Read,
        Err(TextFault::Memory) => return Status::Memory,
        Err(TextFault::TooLong) => return Status::TooLong,
    };
    let answers = match answer_session::<R, G>(rt, alloc, settings, &text, gate) {
        Ok(Some(answers)) => answers,
        Ok(None) => return Status::TooLong,
        Err(AllocError) => return Status::Memory,
    };
    if write_all(sink, &answers.output.text).is_err() {
        return Status::Write;
    }
    *kept = answers.kept;
    if answers.output.refused == 0 {
        Status::Done
    } else {
        Status::Refused
    }
}
