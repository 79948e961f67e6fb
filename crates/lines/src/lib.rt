// The numbered line (document 01, "Lines"; document 02, slip 8).
#![tactic(auto)]

ghost use Rattle.std.specs.Prelude.{◌≡◌, true, ℕ, ◌*◌, ◌≤◌, ◌<◌, get_or, length, MatchOption};
ghost use Rattle.std.proofs.Math.Option.{some};
ghost use Rattle.xdr.specs.Words.{put_each};
ghost use Rattle.rules.specs.Records.{history};
ghost use Rattle.rules.specs.Lines.{numbered, lacking};
ghost use Rattle.rules.specs.Calls.{outcome, line_on};
ghost use Rattle.refusals.specs.Refusals.{returned};
ghost use Rattle.layout.specs.Tables.{state_of};

use layout::Table;
use refusals::Refusal;

// The positions of all processes, if each has one; the first n of the sixteen count.
fn positions(table: &Table, m: usize) -> Option<[u16; 16]>
    ensures { MatchOption result (lacking m (state_of table.now) ≡ true) (λ line. (p : ℕ) → p < table.now.n → numbered m (history (state_of table.now) p) ≡ some (get_or line p 0)) }
{
    let mut line = [0; 16];
    for p in 0..table.n {
        line[p] = scans::position(&table.records(p), m)? as u16;
    }
    Some(line)
}

// Writes the first n of them.
#[tactic(auto, using(xdr::proofs::Puts::each_next, xdr::proofs::Puts::put_length), unfolding(xdr::specs::Words::put_each))]
fn fill(area: &mut [u8], n: usize, line: &[u16; 16])
    requires { (n ≤ 16) × (4 * n ≤ length area.old) }
    ensures { area.new ≡ put_each area.old (λ p. get_or line.now p 0) n }
{
    for p in 0..n {
        xdr::put(area, p, u32::from(line[p]));
    }
}

// The numbered line.
pub fn line(table: &[u8], area: &mut [u8], number: u32) -> Result<(), Refusal>
    ensures { outcome (returned result) table.now area.new ≡ line_on table.now area.old number }
{
    let table = Table::read(table)?;
    if area.len() != 4 * table.n {
        return Err(Refusal::BadAreaLength);
    }
    let Some(line) = positions(&table, number as usize) else {
        return Err(Refusal::NoSavedState);
    };
    fill(area, table.n, &line);
    Ok(())
}
