// The reply of the text program to one line, by where the program stands (document 01).
#![tactic(auto)]

ghost use Rattle.std.specs.Prelude.{◌≡◌, ◌≤◌, length};
ghost use Rattle.rules.specs.Text.{waiting, opened, replied, read_line};
ghost use Rattle.decimal.specs.Output.{page_of, Writes};
ghost use Rattle.answers.specs.Shows.{answer_room};
ghost use Rattle.reading.specs.Meanings.{reading_of};
ghost use Rattle.replies.specs.Replies.{is_ended};
ghost use Rattle.replies.specs.Opened.{opened_as};

use answers::Refused;
use decimal::Output;
use fields::Unreadable;
use held::Held;
use reading::Call;
use std::marker::Model;

mod held;

// The bytes of the largest table that the program takes, of 8 processes with 256 records each.
pub const TABLE_ROOM: usize = 8 + 4 * 8 * (shape::HEADING + shape::WIDTH * 256);

// Before the first line, with a table, or at the end.
#[derive(Clone, Copy, Drop)]
enum State {
    Waiting,
    Running(Held),
    Ended,
}

// The program. A clause sees the stage that document 01 names.
#[derive(Clone, Copy, Drop)]
pub struct Program {
    state: State,
}

impl Model for Program {
    ghost use Rattle.rules.specs.Text.{Stage};
    ghost use Rattle.replies.specs.Replies.{stage_of, state_of, state_back};

    ghost Value = { Stage };

    ghost view = { λ p. stage_of p.state };

    ghost inverse = { λ g. record { state = state_of g } };

    ghost inverse_ok = { λ p _ i. record { state = state_back p.state i } };
}

impl Program {
    // The program before its first line.
    pub fn new() -> Program
        ensures { result ≡ waiting }
    {
        Program {
            state: State::Waiting,
        }
    }

    // Whether the program is at its end, so that nothing more will be written.
    pub fn is_ended(&self) -> bool
        ensures { result ≡ is_ended self.now }
    {
        matches!(self.state, State::Ended)
    }

    // Answers the first line. Not inlined: every line would pay for the room on its stack.
    #[inline(never)]
    fn open(&mut self, said: Result<Call, Unreadable>, out: &mut Output)
        requires { answer_room ≤ length (page_of out.old).rest }
        ensures text { Writes (page_of out.old) (opened (reading_of said)).text answer_room (page_of out.new) }
        ensures same_reference { out.new.bytes.ghost_name ≡ out.old.bytes.ghost_name }
        ensures stage { self.new ≡ (opened (reading_of said)).stage }
    {
        self.state = match open(said) {
            Ok(held) => {
                answers::put_told(out, held.n(), Ok(0), &[]);
                State::Running(held)
            }
            Err(refused) => {
                answers::put_alone(out, u32::from(refused));
                State::Ended
            }
        };
    }

    // Answers a line.
    pub fn answer_line(&mut self, line: &[u8], out: &mut Output)
        requires { answer_room ≤ length (page_of out.old).rest }
        ensures text { Writes (page_of out.old) (replied self.old (read_line line.now)).text answer_room (page_of out.new) }
        ensures same_reference { out.new.bytes.ghost_name ≡ out.old.bytes.ghost_name }
        ensures stage { self.new ≡ (replied self.old (read_line line.now)).stage }
    {
        let said = reading::read_line(line);
        match &mut self.state {
            State::Waiting => self.open(said, out),
            State::Running(held) => held.answer_line(said, out),
            State::Ended => {}
        }
    }
}

// The table that a first line makes, or why it makes none.
fn open(said: Result<Call, Unreadable>) -> Result<Held, Refused>
    ensures { opened_as result ≡ opened (reading_of said) }
{
    match said? {
        Call::Fresh { n, e } => Held::fresh(n, e),
        _ => Err(Refused::Line),
    }
}
