//! Laws of the definitions that the contract of `run` cites: each function does nothing, and its contract is the law.
ghost use Rattle.std.specs.Prelude.{◌≡◌, ◌↔◌, ℕ, List, Some, false};
ghost use Rattle.std.specs.Io.KnownBytes.{Appends};
ghost use Rattle.cg_words.specs.declared.settings.Settings.{Settings};
ghost use Rattle.cg_session.specs.Output.{Output, IsWritten};
ghost use Rattle.cg_session.specs.Replies.{IsReplyFor};
ghost use Rattle.cg_session.specs.Written.{AppendsFront};
ghost use Rattle.cg_eval.specs.Reply.{IsReply, Piece};
ghost use Rattle.cg_grammar.specs.Lines.{IsComment, is_blank_line};
ghost use Rattle.cg_query.specs.declared.format.Format.TheVariants as formats;
ghost use Rattle.cg_syntax.specs.Naming.{Bindings};
ghost use Rattle.cg_syntax.specs.Session.{IsLine, Resolved};

use cg_eval::laws::one_reply_to;
use cg_syntax::laws::{no_names, one_query, one_session};

/// A session writes exactly one text, and has one number of refused lines. Neither depends on the number of workers.
pub fn one_output()
    ensures some { (s : Settings) (text : List ℕ) → (p : Output) × IsWritten s text p }
    ensures unique { (s : Settings) (text : List ℕ) (p q : Output) → IsWritten s text p
        → IsWritten s text q → p ≡ q }
    ensures workers { (s : Settings) (workers : ℕ) (text : List ℕ) (p : Output) → IsWritten s text p
        → IsWritten (record s { workers = workers }) text p }
{
    one_reply_to();
    one_session();
}

/// If a sink that reports its bytes took only a front of a text, it didn't take the whole text. So `run` ends with
/// Write only if the whole text wasn't written.
pub fn front_is_not_whole()
    ensures { (text : List ℕ) (before : List ℕ) (now : List ℕ)
        → AppendsFront text (Some before) (Some now) → ¬ Appends (Some before) (Some now) text }
{}

/// In a session of format 1 the reply to an answered line is the reply to that line alone, as `cg_eval::answer` makes
/// it.
pub fn format_one()
    ensures { (share positions : ℕ) (before behind : Bindings) (line : List ℕ) (made : Resolved) (reply : Piece)
        → is_blank_line line ≡ false → ¬ IsComment line → IsLine formats.One before line made behind
        → IsReplyFor share positions made reply ↔ IsReply share positions line reply }
{
    one_query();
    no_names();
}
