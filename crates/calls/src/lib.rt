// A line's call on the engine (document 01, "The text program").
#![tactic(auto)]

ghost use Rattle.std.specs.Prelude.{◌≡◌, ◌*◌, ◌≤◌, replicate};
ghost use Rattle.rules.specs.Text.{ran as ran_of};
ghost use Rattle.reading.specs.Meanings.{reading_of};
ghost use Rattle.answers.specs.Shows.{area_room, count_of, Shows};
ghost use Rattle.calls.specs.Areas.{area_of};

use answers::{Refused, told};
use fields::Unreadable;
use reading::Call;

// How many bytes the answer area of a line's call has, on a table of n processes.
pub fn area_length(said: Result<Call, Unreadable>, n: usize) -> usize
    requires { n ≤ 8 }
    ensures { result ≡ area_of n (reading_of said) }
{
    match said {
        Err(_) | Ok(Call::Fresh { .. }) => 0,
        Ok(Call::Checkpoint { .. }) => 4,
        Ok(Call::Send { .. }) => 8,
        Ok(Call::Receipt { .. }) => 16,
        Ok(Call::Line { .. }) => 4 * n,
        Ok(Call::Failed { .. }) => 4 * n + 8,
    }
}

// Runs a line's call on a table of n processes, and answers how many words of the area it answered. The area is all 0. That n is at most 8 is
// the type's of the table that the program holds; here and where an answer is written it is a number, and asked for.
pub fn run(
    said: Result<Call, Unreadable>,
    n: usize,
    table: &mut [u8],
    area: &mut [u8],
) -> Result<usize, Refused>
    requires { (n ≤ 8) × (area.old ≡ replicate area_room 0) }
    ensures shows { Shows (ran_of n table.old (reading_of said)) result table.new area.new }
    ensures within { 4 * count_of result ≤ area_of n (reading_of said) }
{
    let area = &mut area[..area_length(said, n)];
    match said? {
        Call::Fresh { .. } => Err(Refused::Line),
        Call::Checkpoint { p } => told(engine::ckpt_checkpoint(table, area, p), 1),
        Call::Send { p, q } => told(engine::ckpt_send(table, area, p, q), 2),
        Call::Receipt { p, q, k } => told(engine::ckpt_receipt(table, area, p, q, k), 4),
        Call::Line { number } => told(engine::ckpt_line(table, area, number), n),
        Call::Failed { mask } => told(engine::ckpt_failed(table, area, mask), n + 2),
    }
}
