// Which rule moved each process of a failure line (document 02, slip 7).
#![tactic(auto)]

ghost use Rattle.std.specs.Prelude.{◌≡◌, [], ◌∷◌, ℕ, ◌*◌, ◌<◌, get_or, length};
ghost use Rattle.xdr.specs.Words.{put_words};
ghost use Rattle.rules.specs.Records.{history};
ghost use Rattle.rules.specs.Lines.{orphan, failed};
ghost use Rattle.rules.specs.Calls.{outcome};
ghost use Rattle.rules.specs.Grounds.{first_after, moved_by, ground, grounds_below, grounds_on};
ghost use Rattle.refusals.specs.Refusals.{returned};
ghost use Rattle.layout.specs.Tables.{state_of};
ghost use Rattle.cuts.specs.Parts.{positions, counts};
ghost use Rattle.tops.specs.Tops.{Counted};
ghost use Rattle.grounds.specs.Sends.{is_send};

use cuts::Part;
use events::Event;
use layout::Table;
use refusals::Refusal;

// Whether a record is send k to p.
fn is_send(event: Event, p: usize, k: u32) -> bool
    ensures { result ≡ is_send p k event }
{
    matches!(event, Event::Sent { to, k: number, .. } if number == k && to as usize == p)
}

// The place of process p's first receipt after its position whose send is outside the cut, 0 if there is none. A receipt's send is looked
// for among its sender's records in the cut; the first k - 1 of them are before send k, and where the cut has less than k sends it has none.
fn first_orphan(table: &Table, cut: &[Part; 16], p: usize) -> u32
    requires { (p < table.now.n) × Counted (state_of table.now) (positions cut.now) (counts cut.now) }
    ensures { 2 ∷ result ∷ [] ≡ moved_by (first_after (orphan (state_of table.now) (positions cut.now) p) (get_or (positions cut.now) p 0) (history (state_of table.now) p)) }
{
    let records = table.records(p);
    let mut place = 0;
    'search: for i in usize::from(cut[p].position)..records.count {
        let Event::Received { from, k, .. } = records.get(i) else {
            continue;
        };
        let part = cut[from as usize % 16];
        if k <= u32::from(part.sends) {
            let sender = table.records(from as usize);
            for j in k as usize - 1..usize::from(part.position) {
                if is_send(sender.get(j), p, k) {
                    continue 'search;
                }
            }
        }
        place = i as u32 + 1;
        break 'search;
    }
    place
}

// The ground of process p, which failed if `down`, at its position in the failure line: its latest permitted position is its count, or its
// last checkpoint where it failed.
fn ground_of(table: &Table, line: &[Part; 16], p: usize, down: bool) -> [u32; 2]
    requires { (p < table.now.n) × Counted (state_of table.now) (positions line.now) (counts line.now) }
    ensures { (mask : ℕ) → down ≡ failed mask p → result ≡ ground mask (state_of table.now) (positions line.now) p }
{
    if line[p].position == tops::top(table, p, down).position {
        return [u32::from(down), 0];
    }
    [2, first_orphan(table, line, p)]
}

// Writes the grounds of all processes.
fn fill(table: &Table, area: &mut [u8], line: &[Part; 16], mask: u32)
    requires { (length area.old ≡ 8 * table.now.n) × Counted (state_of table.now) (positions line.now) (counts line.now) }
    ensures { area.new ≡ put_words area.old 0 (grounds_below mask (state_of table.now) (positions line.now) table.now.n) }
{
    for p in 0..table.n {
        xdr::put_all(area, 2 * p, ground_of(table, line, p, tops::bit(mask, p)));
    }
}

// The grounds of the failure line, once the processes of the mask have failed.
pub fn grounds(table: &[u8], area: &mut [u8], mask: u32) -> Result<(), Refusal>
    ensures { outcome (returned result) table.now area.new ≡ grounds_on table.now area.old mask }
{
    let table = failure::asked(table, area.len(), 8, 0, mask)?;
    fill(&table, area, &failure::line(&table, mask), mask);
    Ok(())
}
