// Checkpoint, send and receipt (document 01, "Steps").
#![tactic(auto)]

ghost use Rattle.std.specs.Prelude.{◌≡◌, cond, ◌+◌, ◌≤◌};
ghost use Rattle.rules.specs.Steps.{checkpoint as checkpoint_call, send as send_call, receipt as receipt_call};
ghost use Rattle.rules.specs.Calls.{outcome, step_on};
ghost use Rattle.refusals.specs.Refusals.{returned};

use events::Event;
use refusals::Refusal;

// A checkpoint of process p.
pub fn checkpoint(table: &mut [u8], area: &mut [u8], p: u32) -> Result<(), Refusal>
    ensures { outcome (returned result) table.new area.new ≡ step_on table.old area.old p checkpoint_call }
{
    let section = rows::checkpoint_row(table, area.len(), p as usize)?;
    let x = section.number + 1;
    let basic = Event::Basic { number: x };
    store::add_record(table, section, x, section.sends, basic.into());
    xdr::put(area, 0, x);
    Ok(())
}

// A send of process p to q.
pub fn send(table: &mut [u8], area: &mut [u8], p: u32, q: u32) -> Result<(), Refusal>
    ensures { outcome (returned result) table.new area.new ≡ step_on table.old area.old p (send_call q) }
{
    let section = rows::send_row(table, area.len(), p as usize, q as usize)?;
    let x = section.number;
    let s = section.sends + 1;
    let event = Event::Sent {
        to: q,
        k: s,
        carried: x,
    };
    store::add_record(table, section, x, s, event.into());
    xdr::put_all(area, 0, [s, x]);
    Ok(())
}

// The place of a receipt's record: behind c others, and behind a checkpoint that it forced.
fn place_behind(c: u32, forced: bool) -> u32
    requires { c ≤ 1024 }
    ensures { result ≡ c + 1 + cond forced 1 0 }
{
    c + 1 + u32::from(forced)
}

// The receipt of message k of q by process p.
pub fn receipt(table: &mut [u8], area: &mut [u8], p: u32, q: u32, k: u32) -> Result<(), Refusal>
    ensures { outcome (returned result) table.new area.new ≡ step_on table.old area.old p (receipt_call q k) }
{
    let (section, sent) = rows::receipt_row(table, area.len(), p as usize, q as usize, k as usize)?;
    let carried = sent.carried;
    let sent_at = sent.place;
    let forced = store::add_receipt(table, section, carried, q, k);
    let received_at = place_behind(section.count, forced);
    xdr::put_all(area, 0, [carried, u32::from(forced), sent_at, received_at]);
    Ok(())
}
