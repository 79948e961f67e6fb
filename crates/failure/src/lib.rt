// The failure line (document 01, "Lines").
#![tactic(auto)]

ghost use Rattle.std.specs.Prelude.{◌≡◌, ◌++◌, IfOk, ℕ, ◌+◌, ◌*◌, ◌≤◌, ◌<◌, length, get_or};
ghost use Rattle.std.specs.Int.Count.{ones};
ghost use Rattle.xdr.specs.Words.{word, put_word, put_each};
ghost use Rattle.rules.specs.Records.{history};
ghost use Rattle.rules.specs.Lines.{goes_back, back_mask};
ghost use Rattle.rules.specs.FailureLine.{failure_line};
ghost use Rattle.rules.specs.Calls.{outcome, first, table_rows, failed_on};
ghost use Rattle.refusals.specs.Refusals.{returned};
ghost use Rattle.layout.specs.Tables.{state_of};
ghost use Rattle.cuts.specs.Parts.{positions, counts};
ghost use Rattle.tops.specs.Tops.{Counted};
ghost use Rattle.failure.specs.Asked.{mask_rows};

use cuts::Part;
use layout::Table;
use refusals::Refusal;

// The failure line; the first n of the sixteen parts count.
#[tactic(auto, using(crate::proofs::FailureLine::line_positions))]
pub fn line(table: &Table, mask: u32) -> [Part; 16]
    ensures line { (p : ℕ) → p < table.now.n → get_or (positions result) p 0 ≡ get_or (failure_line mask (state_of table.now)) p 0 }
    ensures counted { Counted (state_of table.now) (positions result) (counts result) }
{
    lowering::settled(table, lowering::pruned(table, tops::tops(table, mask)))
}

// Whether process p goes back, at this position; `down` tells whether it failed.
fn goes_back(table: &Table, p: usize, down: bool, position: u16) -> bool
    requires { p < table.now.n }
    ensures { result ≡ goes_back down (history (state_of table.now) p) position }
{
    down | (usize::from(position) < table.count(p))
}

// The mask of the processes that go back.
#[tactic(auto, using(crate::proofs::FailureLine::mask_fits, layout::proofs::Sections::processes))]
fn back(table: &Table, mask: u32, line: &[Part; 16]) -> u32
    ensures { result ≡ back_mask mask (state_of table.now) (positions line.now) }
{
    // By for: as a chain of filter, map and sum it was not proved; what `sum` asks of the closures stayed open.
    let mut back: u32 = 0;
    for p in 0..table.n {
        if goes_back(table, p, tops::bit(mask, p), line[p].position) {
            back += 1 << p;
        }
    }
    back
}

// Writes the first n positions, of sixteen: the memory is fixed.
#[tactic(auto, using(xdr::proofs::Puts::each_next, xdr::proofs::Puts::put_length, cuts::proofs::Parts::position_at), unfolding(xdr::specs::Words::put_each))]
fn put_positions(area: &mut [u8], n: usize, line: &[Part; 16])
    requires { (n ≤ 16) × (4 * n ≤ length area.old) }
    ensures { area.new ≡ put_each area.old (λ p. get_or (positions line.now) p 0) n }
{
    for p in 0..n {
        xdr::put(area, p, u32::from(line[p].position));
    }
}

// Writes the answer: the positions, the mask, and how many ones it has.
fn answer(area: &mut [u8], n: usize, line: &[Part; 16], mask: u32)
    requires { (n ≤ 16) × (4 * n + 8 ≤ length area.old) }
    ensures { area.new ≡ put_word (put_word (put_each area.old (λ p. get_or (positions line.now) p 0) n) n mask) (n + 1) (ones mask) }
{
    put_positions(area, n, line);
    xdr::put(area, n, mask);
    xdr::put(area, n + 1, mask.count_ones());
}

// The table, where a call meets no row that takes a mask and answers `each` bytes a process and `more`.
pub fn asked<'a>(
    table: &'a [u8],
    len: usize,
    each: usize,
    more: usize,
    mask: u32,
) -> Result<Table<'a>, Refusal>
    requires { (each ≤ 8) × (more ≤ 8) }
    ensures row { returned result ≡ first (table_rows table.now ++ mask_rows (word table.now 0) mask len (each * word table.now 0 + more)) }
    ensures table { IfOk result (λ t. t.bytes.now ≡ table.now) }
{
    let table = Table::read(table)?;
    if len != each * table.n + more {
        return Err(Refusal::BadAreaLength);
    }
    if mask >> table.n != 0 {
        return Err(Refusal::BadMask);
    }
    Ok(table)
}

// The failure line, once the processes of the mask have failed.
pub fn failed(table: &[u8], area: &mut [u8], mask: u32) -> Result<(), Refusal>
    ensures { outcome (returned result) table.now area.new ≡ failed_on table.now area.old mask }
{
    let table = asked(table, area.len(), 4, 8, mask)?;
    let line = line(&table, mask);
    answer(area, table.n, &line, back(&table, mask, &line));
    Ok(())
}
