// A session of the text program: a byte of the input is held, or ends a line, which is answered (document 01).
#![tactic(auto)]

ghost use Rattle.std.specs.Prelude.{◌≡◌, [], ◌∷◌, ◌≤◌, length};
ghost use Rattle.rules.specs.Text.{waiting};
ghost use Rattle.answers.specs.Shows.{answer_room};
ghost use Rattle.decimal.specs.Output.{page_of};
ghost use Rattle.session.specs.Session.{Took};

use decimal::Output;
pub use line::{LINE_ROOM, Line};
use replies::Program;

mod line;

// The program, and the line that has not ended.
#[derive(Clone, Copy, Drop)]
pub struct Session {
    pub program: Program,
    pub line: Line,
}

impl Session {
    // A session that has read nothing.
    pub fn new() -> Session
        ensures { (result.program ≡ waiting) × (result.line ≡ []) }
    {
        Session {
            program: Program::new(),
            line: Line::new(),
        }
    }

    // Takes one byte of the input. It ends the line, which is then answered, or it is held.
    pub fn take_byte(&mut self, byte: u8, out: &mut Output)
        requires { answer_room ≤ length (page_of out.old).rest }
        ensures took { Took self.old (page_of out.old) (byte ∷ []) self.new (page_of out.new) }
        ensures same_reference { out.new.bytes.ghost_name ≡ out.old.bytes.ghost_name }
    {
        if self.line.ends(byte) {
            let line = self.line.bytes();
            self.program.answer_line(&line[..line.len() - 1], out);
            self.line.clear();
        } else {
            self.line.hold(byte);
        }
    }
}
