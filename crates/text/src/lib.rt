// The text program as functions on bytes (document 01).
//
// A session is fed the input chunk by chunk, cut anywhere. What it has written and what it still owes make up `text_output` of the whole.
#![tactic(auto)]

ghost use Rattle.std.specs.Prelude.{◌≡◌, true, List, [], ℕ, ◌*◌, ◌≤◌, length};
ghost use Rattle.rules.specs.Text.{text_output, waiting};
ghost use Rattle.decimal.specs.Output.{page_of, Writes};
ghost use Rattle.answers.specs.Shows.{answer_room};
ghost use Rattle.replies.specs.Replies.{is_ended};
ghost use Rattle.session.specs.Session.{owed_by, Took};
ghost use Rattle.text.specs.Finished.{stage_after};

use decimal::Output;
use session::Session;

// A session that has read nothing.
#[tactic(auto, using(crate::proofs::Sessions::starts))]
pub fn start() -> Session
    ensures { (result.line ≡ []) × (result.program ≡ waiting) × ((x : List ℕ) → owed_by result x ≡ text_output x) }
{
    Session::new()
}

// Takes the next bytes of the input. `out` has room for an answer to every byte.
pub fn feed(s: &mut Session, chunk: &[u8], out: &mut Output)
    requires { answer_room * length chunk.now ≤ length (page_of out.old).rest }
    ensures took { Took s.old (page_of out.old) chunk.now s.new (page_of out.new) }
    ensures same_reference { out.new.bytes.ghost_name ≡ out.old.bytes.ghost_name }
{
    for byte in chunk {
        s.take_byte(*byte, out);
    }
}

// Answers a last line that lacks its CR LF, if there is one. The line is still held then.
pub fn finish(s: &mut Session, out: &mut Output)
    requires { answer_room ≤ length (page_of out.old).rest }
    ensures text { Writes (page_of out.old) (owed_by s.old []) answer_room (page_of out.new) }
    ensures same_reference { out.new.bytes.ghost_name ≡ out.old.bytes.ghost_name }
    ensures line { s.new.line ≡ s.old.line }
    ensures stage { s.new.program ≡ stage_after s.old.program s.old.line }
{
    let line = s.line.bytes();
    if !line.is_empty() {
        s.program.answer_line(line, out);
    }
}

// Whether the program is at its end, so that nothing more will be written.
#[tactic(auto, using(crate::proofs::Sessions::owes_nothing))]
pub fn ended(s: &Session) -> bool
    ensures { (result ≡ is_ended s.now.program) × (result ≡ true → (x : List ℕ) → owed_by s.now x ≡ []) }
{
    s.program.is_ended()
}
