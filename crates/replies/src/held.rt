ghost use Rattle.std.specs.Prelude.{◌≡◌, true, false, List, ℕ, ◌≤◌, length, take, MatchOption};
ghost use Rattle.rules.specs.Text.{in_program_range, call, fresh, opened, replied};
ghost use Rattle.decimal.specs.Output.{page_of, Writes};
ghost use Rattle.answers.specs.Shows.{answer_room};
ghost use Rattle.reading.specs.Meanings.{reading_of};
ghost use Rattle.replies.specs.Opened.{running_of, opened_as};

use crate::TABLE_ROOM;
use answers::{AREA_ROOM, Refused};
use decimal::Output;
use fields::Unreadable;
use reading::Call;
use refusals::Refusal;
use shape::Dims;
use std::marker::Model;

// The dimensions, where the program takes them.
fn in_program_range(n: u32, e: u32) -> Option<Dims>
    ensures { MatchOption result (in_program_range n e ≡ false) (λ d. (in_program_range n e ≡ true) × (d.n ≡ n) × (d.e ≡ e)) }
{
    let dims = Dims::of(n as usize, e as usize)?;
    if dims.n <= 8 && dims.e <= 256 {
        return Some(dims);
    }
    None
}

// A table of n processes, which lies in the first bytes of its room. A clause sees n and the table. Fixed memory: there is no heap. The bytes
// behind the table stay 0, so that n and the table say all of it, as a copy asks.
#[derive(Clone, Copy, Drop)]
pub(crate) struct Held {
    n: usize,
    size: usize,
    room: [u8; TABLE_ROOM],
}

impl Model for Held {
    ghost use Rattle.std.specs.Prelude.{◌≡◌, List, ◌++◌, ℕ, ◌≤◌, length, take, drop};
    ghost use Rattle.std.proofs.Common.{length-take-le};
    ghost use Rattle.replies.specs.Room.{unused, room_back};

    ghost Value = { ℕ × List ℕ };

    ghost view = { λ h. (h.n, take h.size h.room) };

    ghost invariant = { λ h. (h.n ≤ 8) × (h.size ≤ length h.room) × (drop h.size h.room ≡ unused h.size) };

    ghost inverse = { λ v. record { n = v.0; size = length v.1; room = v.1 ++ unused (length v.1) } };

    ghost inverse_ok = { λ h fits i. record {
      n = h.n;
      size = length-take-le h.size h.room fits.1 i;
      room = room_back h.room h.size fits.1 fits.2 i;
    } };
}

impl Held {
    // A fresh table, where the program takes these dimensions.
    pub(crate) fn fresh(n: u32, e: u32) -> Result<Held, Refused>
        ensures { opened_as result ≡ opened (call (fresh n e)) }
    {
        let Some(dims) = in_program_range(n, e) else {
            return Err(Refused::Call(Refusal::BadDimensions));
        };
        let size = dims.size();
        let mut room = [0; TABLE_ROOM];
        engine::ckpt_fresh(&mut room[..size], n, e)?;
        let n = dims.n;
        Ok(Held { n, size, room })
    }

    // The count of its processes.
    pub(crate) fn n(&self) -> usize
        ensures { (result ≡ self.now.0) × (result ≤ 8) }
    {
        self.n
    }

    // Answers a line.
    pub(crate) fn answer_line(&mut self, said: Result<Call, Unreadable>, out: &mut Output)
        requires { answer_room ≤ length (page_of out.old).rest }
        ensures text { Writes (page_of out.old) (replied (running_of self.old) (reading_of said)).text answer_room (page_of out.new) }
        ensures same_reference { out.new.bytes.ghost_name ≡ out.old.bytes.ghost_name }
        ensures stage { running_of self.new ≡ (replied (running_of self.old) (reading_of said)).stage }
    {
        let mut area = [0; AREA_ROOM];
        let told = calls::run(said, self.n, &mut self.room[..self.size], &mut area);
        // The call's own area, not the whole room: no line can then show more words than its call has room for.
        answers::put_told(out, self.n, told, &area[..calls::area_length(said, self.n)]);
    }
}
