// The text program over a reader and a writer: it reads, has the session answer, and writes.
#![tactic(auto)]

ghost use Rattle.std.specs.Prelude.{◌≡◌, false, ◌+◌, ◌*◌, ◌≤◌, length};
ghost use Rattle.std.specs.ControlFlow.{ForContinue};
ghost use Rattle.decimal.specs.Output.{page_of};
ghost use Rattle.answers.specs.Shows.{answer_room};
ghost use Rattle.replies.specs.Replies.{is_ended};

use decimal::Output;
use session::Session;
use std::io::{Read, Write};
use std::ops::ControlFlow;

// The bytes that are read at a time, at most.
const CHUNK: usize = 1024;

// Room for an answer to every byte of a chunk.
const OUT_ROOM: usize = CHUNK * answers::ANSWER_ROOM;

// Reads once and answers what came. A read that fails, a reader that has gone away and a session at its end do not go on.
fn take_turn<R: Read, W: Write>(
    s: &mut Session,
    out: &mut Output,
    from: &mut R,
    to: &mut W,
) -> ControlFlow<()>
    requires { 1024 * answer_room ≤ length (page_of out.old).written + length (page_of out.old).rest }
    ensures room { length (page_of out.new).written + length (page_of out.new).rest ≡ length (page_of out.old).written + length (page_of out.old).rest }
    ensures on { ForContinue result (λ _. is_ended s.new.program ≡ false) }
{
    let mut chunk = [0u8; CHUNK];
    let Ok(n) = from.read(&mut chunk) else {
        return ControlFlow::Break(());
    };
    out.clear();
    if n == 0 {
        text::finish(s, out);
    } else {
        text::feed(s, &chunk[..n], out);
    }
    let taken = to.write_all(out.written()).is_ok();
    if n > 0 && taken && !text::ended(s) {
        ControlFlow::Continue(())
    } else {
        ControlFlow::Break(())
    }
}

// Runs the program on the input of a reader and the output of a writer. A proved loop has to end, and nothing says that an input does:
// it has more turns than any run takes.
pub fn run<R: Read, W: Write>(from: &mut R, to: &mut W) {
    let mut s = text::start();
    let mut room = [0u8; OUT_ROOM];
    let mut out = Output::new(&mut room);
    for _ in 0..u64::MAX {
        if take_turn(&mut s, &mut out, from, to).is_break() {
            return;
        }
    }
}
