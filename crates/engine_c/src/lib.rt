// The calls that C makes (include/ckpt.h): those of engine, whose refusals are numbers for C. An archive holds its own functions alone, so
// the exports stand in a crate over the library.
#![tactic(auto)]

ghost use Rattle.std.specs.Prelude.{◌≡◌, [], length};
ghost use Rattle.rules.specs.Steps.{checkpoint, send, receipt};
ghost use Rattle.rules.specs.Calls.{outcome, outcome_with, fresh_on, step_on, line_on, failed_on};
ghost use Rattle.rules.specs.Resend.{resend_on};
ghost use Rattle.rules.specs.Grounds.{grounds_on};
ghost use Rattle.rules.specs.Audit.{audit_on};

#[unsafe(no_mangle)]
pub extern "C" fn ckpt_fresh(table: &mut [u8], n: u32, e: u32) -> u32
    ensures { outcome result table.new [] ≡ fresh_on table.old n e }
{
    refusals::returned(engine::ckpt_fresh(table, n, e))
}

#[unsafe(no_mangle)]
pub extern "C" fn ckpt_checkpoint(table: &mut [u8], area: &mut [u8], p: u32) -> u32
    ensures { outcome result table.new area.new ≡ step_on table.old area.old p checkpoint }
{
    refusals::returned(engine::ckpt_checkpoint(table, area, p))
}

#[unsafe(no_mangle)]
pub extern "C" fn ckpt_send(table: &mut [u8], area: &mut [u8], p: u32, q: u32) -> u32
    ensures { outcome result table.new area.new ≡ step_on table.old area.old p (send q) }
{
    refusals::returned(engine::ckpt_send(table, area, p, q))
}

#[unsafe(no_mangle)]
pub extern "C" fn ckpt_receipt(table: &mut [u8], area: &mut [u8], p: u32, q: u32, k: u32) -> u32
    ensures { outcome result table.new area.new ≡ step_on table.old area.old p (receipt q k) }
{
    refusals::returned(engine::ckpt_receipt(table, area, p, q, k))
}

#[unsafe(no_mangle)]
pub extern "C" fn ckpt_line(table: &[u8], area: &mut [u8], number: u32) -> u32
    ensures { outcome result table.now area.new ≡ line_on table.now area.old number }
{
    refusals::returned(engine::ckpt_line(table, area, number))
}

#[unsafe(no_mangle)]
pub extern "C" fn ckpt_failed(table: &[u8], area: &mut [u8], mask: u32) -> u32
    ensures { outcome result table.now area.new ≡ failed_on table.now area.old mask }
{
    refusals::returned(engine::ckpt_failed(table, area, mask))
}

#[unsafe(no_mangle)]
pub extern "C" fn ckpt_grounds(table: &[u8], area: &mut [u8], mask: u32) -> u32
    ensures { outcome result table.now area.new ≡ grounds_on table.now area.old mask }
{
    refusals::returned(engine::ckpt_grounds(table, area, mask))
}

#[unsafe(no_mangle)]
pub extern "C" fn ckpt_resend(table: &[u8], positions: &[u8], area: &mut [u8]) -> u32
    ensures { outcome_with result table.now area.new positions.now ≡ resend_on table.now positions.now area.old }
{
    refusals::returned(engine::ckpt_resend(table, positions, area))
}

// What the scratch holds after an accepted call is left open: audit_on is told what it holds then, and leaves it so. Its length never changes.
#[unsafe(no_mangle)]
pub extern "C" fn ckpt_audit(table: &[u8], area: &mut [u8], scratch: &mut [u8]) -> u32
    ensures outcome { outcome_with result table.now area.new scratch.new ≡ audit_on table.now area.old scratch.old scratch.new }
    ensures scratch { length scratch.new ≡ length scratch.old }
{
    refusals::returned(engine::ckpt_audit(table, area, scratch))
}
