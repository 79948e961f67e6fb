// Whether some run leaves a lent table (document 02, slip 5): a table back from storage.
#![tactic(auto)]

ghost use Rattle.std.specs.Prelude.{◌≡◌, length};
ghost use Rattle.rules.specs.Calls.{outcome_with};
ghost use Rattle.rules.specs.Audit.{audit_on};
ghost use Rattle.refusals.specs.Refusals.{returned};

use layout::Table;
use refusals::Refusal;

// What the scratch holds after an accepted call is left open: the outcome names what it holds then, whatever that is.
pub fn audit(table: &[u8], area: &mut [u8], scratch: &mut [u8]) -> Result<(), Refusal>
    ensures outcome { outcome_with (returned result) table.now area.new scratch.new ≡ audit_on table.now area.old scratch.old scratch.new }
    ensures scratch { length scratch.new ≡ length scratch.old }
{
    let table = Table::read(table)?;
    if area.len() != 4 {
        return Err(Refusal::BadAreaLength);
    }
    if scratch.len() != table.bytes.len() {
        return Err(Refusal::BadScratch);
    }
    let made = replay::made(table, scratch);
    xdr::put(area, 0, u32::from(made));
    Ok(())
}
