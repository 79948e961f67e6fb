// Where a cut starts that is lowered to the failure line: every process at its latest permitted position (document 01, "Lines").
#![tactic(auto)]

ghost use Rattle.std.specs.Prelude.{◌≡◌, ◌<◌};
ghost use Rattle.rules.specs.Records.{history, sends as sends_of};
ghost use Rattle.rules.specs.Lines.{upto, failed};
ghost use Rattle.rules.specs.FailureLine.{top as top_of};
ghost use Rattle.layout.specs.Tables.{state_of};
ghost use Rattle.cuts.specs.Parts.{positions, counts};
ghost use Rattle.tops.specs.Tops.{Counted, Over};

use cuts::Part;
use layout::Table;

// Whether bit p of the mask is set.
pub fn bit(mask: u32, p: usize) -> bool
    requires { p < 16 }
    ensures { result ≡ failed mask p }
{
    (mask >> p) % 2 == 1
}

// Process p at its latest permitted position; it failed if `down`.
#[tactic(auto, using(crate::proofs::Starts::counted, crate::proofs::Starts::top_down, crate::proofs::Starts::top_up, tables::proofs::Laid::sends_length))]
pub fn top(table: &Table, p: usize, down: bool) -> Part
    requires { p < table.now.n }
    ensures { (result.position ≡ top_of down (history (state_of table.now) p)) × (result.sends ≡ sends_of (upto result.position (history (state_of table.now) p))) }
{
    let records = table.records(p);
    let sends = table.sends(p);
    if down {
        return cuts::back_to(&records, sends, records.count);
    }
    Part {
        position: records.count as u16,
        sends: sends as u16,
    }
}

// Every process at its latest permitted position. The memory is fixed: there are sixteen parts, of which the first n count. The table stays
// beside them: a struct of both would have each function say that the cut it returns is of the same table.
pub fn tops(table: &Table, mask: u32) -> [Part; 16]
    ensures { Counted (state_of table.now) (positions result) (counts result) × Over mask (state_of table.now) (positions result) }
{
    let mut cut = [Part {
        position: 0,
        sends: 0,
    }; 16];
    for p in 0..table.n {
        cut[p] = top(table, p, bit(mask, p));
    }
    cut
}
