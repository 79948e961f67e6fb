// A cut: how many of each process's records have happened.

ghost use Rattle.std.specs.Prelude.{◌≡◌, ℕ, ◌*◌, ◌≤◌, ◌<◌, length};
ghost use Rattle.xdr.specs.Words.{word, words};
ghost use Rattle.rules.specs.Records.{history};
ghost use Rattle.rules.specs.Lines.{part};
ghost use Rattle.rules.specs.Calls.{first};
ghost use Rattle.layout.specs.Tables.{state_of};
ghost use Rattle.refusals.specs.Refusals.{returned};
ghost use Rattle.notes.specs.Cuts.{cut_rows};

use events::Records;
use layout::Table;
use refusals::Refusal;

// A position in the records of each process of a table.
#[derive(Clone, Copy, Drop)]
pub struct Cut<'a> {
    pub table: Table<'a>,
    pub positions: &'a [u8],
    ghost whole: { length positions.now ≡ 4 * table.n },
    ghost within: { (p : ℕ) → p < table.n → word positions.now p ≤ length (history (state_of table) p) },
}

impl<'a> Cut<'a> {
    ghost use Rattle.std.specs.Prelude.{IfOk};
    ghost use Rattle.events.specs.Events.{held};

    // The cut at these positions, unless they are none of the table.
    pub fn at(table: Table<'a>, positions: &'a [u8]) -> Result<Cut<'a>, Refusal>
        ensures row { returned result ≡ first (cut_rows table.entry.n (state_of table.entry) positions.now) }
        ensures cut { IfOk result (λ c. (c.table ≡ table.entry) × (c.positions.now ≡ positions.now)) }
    {
        if positions.len() != 4 * table.n {
            return Err(Refusal::BadPositions);
        }
        for p in 0..table.n {
            if table.count(p) < xdr::get(positions, p) as usize {
                return Err(Refusal::BadPositions);
            }
        }
        Ok(Cut { table, positions })
    }

    // How many of process p's records have happened.
    pub fn position(&self, p: usize) -> usize
        requires { p < self.now.table.n }
        ensures { (result ≡ word self.now.positions.now p) × (result ≤ self.now.table.e) }
    {
        xdr::get(self.positions, p) as usize
    }

    // Those records.
    pub fn part(&self, p: usize) -> Records<'a>
        requires { p < self.now.table.n }
        ensures held { held result ≡ part (state_of self.now.table) (words self.now.positions.now) p }
        ensures count { result.count ≡ word self.now.positions.now p }
    {
        self.table.records(p).upto(self.position(p))
    }
}
