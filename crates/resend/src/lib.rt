// The messages to send again after a restart (document 02, slip 1): those in transit at the cut from which it goes on.
#![tactic(auto)]

ghost use Rattle.std.specs.Prelude.{◌≡◌, ◌+◌, ◌*◌, ◌≤◌, leb, length};
ghost use Rattle.rules.specs.Calls.{outcome_with};
ghost use Rattle.rules.specs.Resend.{resend_on};
ghost use Rattle.refusals.specs.Refusals.{returned};
ghost use Rattle.layout.specs.Tables.{state_of};
ghost use Rattle.notes.specs.Noted.{HasRoom};
ghost use Rattle.transit.specs.Transit.{sends_below, transit_at};

use layout::Table;
use notes::{Cut, Notes};
use refusals::Refusal;

// How many sends the processes have made, in the cut and after it.
fn sends(table: &Table) -> usize
    ensures { (result ≡ sends_below (state_of table.now) table.now.n) × (result ≤ 16384) }
{
    (0..table.n).map(|p| table.sends(p)).sum()
}

// Whether the answer fits into len bytes. It has no more messages than were sent, so where these fit they need not be counted.
fn fits(notes: &mut Notes, len: usize) -> bool
    ensures { (result ≡ leb (4 + 12 * length (transit_at notes.old.cut)) len) × (notes.new.cut ≡ notes.old.cut) }
{
    let cut = notes.cut();
    4 + 12 * sends(&cut.table) <= len || 4 + 12 * transit::count(notes) <= len
}

// Answers the messages in transit at the cut of these notes.
fn answer(notes: &mut Notes, area: &mut [u8]) -> Result<(), Refusal>
    ensures { outcome_with (returned result) notes.old.cut.table.bytes.now area.new notes.old.cut.positions.now ≡ resend_on notes.old.cut.table.bytes.now notes.old.cut.positions.now area.old }
{
    if !fits(notes, area.len()) {
        return Err(Refusal::AreaTooShort);
    }
    let count = transit::list(notes, area);
    xdr::put(area, 0, count as u32);
    Ok(())
}

// With room for N notes, in a frame of its own.
#[inline(never)]
fn with_room<const N: usize>(cut: Cut, area: &mut [u8]) -> Result<(), Refusal>
    requires { HasRoom cut N }
    ensures { outcome_with (returned result) cut.entry.table.bytes.now area.new cut.entry.positions.now ≡ resend_on cut.entry.table.bytes.now cut.entry.positions.now area.old }
{
    answer(&mut Notes::new(cut, &mut [0; N]), area)
}

// A small table does not pay for the room that the largest needs: 3,072 notes, so that any three processes fit.
pub fn resend(table: &[u8], positions: &[u8], area: &mut [u8]) -> Result<(), Refusal>
    ensures { outcome_with (returned result) table.now area.new positions.now ≡ resend_on table.now positions.now area.old }
{
    let cut = Cut::at(Table::read(table)?, positions)?;
    if cut.table.n * cut.table.e < 256 {
        with_room::<256>(cut, area)
    } else {
        with_room::<3073>(cut, area)
    }
}
