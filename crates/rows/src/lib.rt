// The rows of checkpoint, send and receipt (document 01, "Where a call is stopped"), in their order.
#![tactic(auto)]

ghost use Rattle.std.specs.Prelude.{◌≡◌, cond, ◌+◌, ◌*◌, ◌<◌, ◌≤◌, IfOk, ltb};
ghost use Rattle.rules.specs.Records.{history};
ghost use Rattle.rules.specs.Table.{decoded};
ghost use Rattle.rules.specs.Steps.{checkpoint, send, receipt};
ghost use Rattle.rules.specs.Calls.{first};
ghost use Rattle.refusals.specs.Refusals.{returned};
ghost use Rattle.layout.specs.Tables.{state_of};
ghost use Rattle.rows.specs.Rows.{act_rows, pair_rows, receipt_rows, Reads, Acts, ActsIn, laid_row, step_row};

use layout::{Section, Table};
use refusals::Refusal;
use scans::Sent;

// The section of the acting process, where it and the area of a call that wants `want` bytes pass. `Acts` says whose section it is: of this
// table and process, so that each function says it of what it answers.
fn act_row(table: &Table, len: usize, want: usize, p: usize) -> Result<Section, Refusal>
    ensures row { returned result ≡ first (act_rows table.now.n len want p) }
    ensures section { IfOk result (Acts table.now p) }
{
    if len != want {
        return Err(Refusal::BadAreaLength);
    }
    if table.n <= p {
        return Err(Refusal::BadProcess);
    }
    Ok(table.section(p))
}

// Whether a section has fewer records left, of e, than a step needs.
fn is_full(section: Section, e: usize, needed: u32) -> bool
    requires { needed ≤ 2 }
    ensures { result ≡ ltb e (section.count + needed) }
{
    e < (section.count + needed) as usize
}

// The section of process p, where no row of a step stops its checkpoint.
fn laid_checkpoint(table: &Table, len: usize, p: usize) -> Result<Section, Refusal>
    ensures row { returned result ≡ laid_row table.now p checkpoint len }
    ensures section { IfOk result (Acts table.now p) }
{
    let section = act_row(table, len, 4, p)?;
    if is_full(section, table.e, 1) {
        return Err(Refusal::NoRecordsLeft);
    }
    if section.number as usize == table.n * table.e {
        return Err(Refusal::NumberAtLimit);
    }
    Ok(section)
}

// The section of process p, where no row stops its checkpoint. Any bytes may be lent: the rows of the table come first.
pub fn checkpoint_row(t: &[u8], len: usize, p: usize) -> Result<Section, Refusal>
    ensures row { returned result ≡ step_row t.now p checkpoint len }
    ensures section { IfOk result (ActsIn t.now p) }
{
    laid_checkpoint(&Table::read(t)?, len, p)
}

// The section of the acting process, where the area, it and the other process pass.
fn pair_row(table: &Table, len: usize, want: usize, p: usize, q: usize) -> Result<Section, Refusal>
    ensures row { returned result ≡ first (pair_rows table.now.n len want p q) }
    ensures section { IfOk result (λ section. Acts table.now p section × (q < table.now.n)) }
{
    let section = act_row(table, len, want, p)?;
    if table.n <= q || q == p {
        return Err(Refusal::BadOtherProcess);
    }
    Ok(section)
}

// The section of process p, where no row of a step stops its send to q.
fn laid_send(table: &Table, len: usize, p: usize, q: usize) -> Result<Section, Refusal>
    ensures row { returned result ≡ laid_row table.now p (send q) len }
    ensures section { IfOk result (Acts table.now p) }
{
    let section = pair_row(table, len, 8, p, q)?;
    if is_full(section, table.e, 1) {
        return Err(Refusal::NoRecordsLeft);
    }
    Ok(section)
}

// The section of process p, where no row stops its send to q.
pub fn send_row(t: &[u8], len: usize, p: usize, q: usize) -> Result<Section, Refusal>
    ensures row { returned result ≡ step_row t.now p (send q) len }
    ensures section { IfOk result (ActsIn t.now p) }
{
    laid_send(&Table::read(t)?, len, p, q)
}

// The records that a receipt needs.
fn needed(forces: bool) -> u32
    ensures { (result ≡ cond forces 2 1) × (result ≤ 2) }
{
    if forces { 2 } else { 1 }
}

// The send of message k of q, where no row of the message stops its receipt by p, whose section is given.
fn message_row(
    table: &Table,
    section: Section,
    p: usize,
    q: usize,
    k: usize,
) -> Result<Sent, Refusal>
    requires { Acts table.now p section × (q < table.now.n) }
    ensures row { returned result ≡ first (receipt_rows table.now.e (history (state_of table.now) p) (history (state_of table.now) q) p q k) }
    ensures sent { IfOk result (Reads (history (state_of table.now) q) k) }
{
    let sent = match scans::find_send(&table.records(q), k) {
        Some(sent) if sent.to as usize == p => sent,
        _ => return Err(Refusal::NotSent),
    };
    if scans::has_receipt(&table.records(p), q, k) {
        return Err(Refusal::AlreadyReceived);
    }
    if is_full(section, table.e, needed(section.number < sent.carried)) {
        return Err(Refusal::NoRecordsLeft);
    }
    Ok(sent)
}

// The section of process p and the send, where no row of a step stops the receipt of message k of q.
fn laid_receipt(
    table: &Table,
    len: usize,
    p: usize,
    q: usize,
    k: usize,
) -> Result<(Section, Sent), Refusal>
    ensures row { returned result ≡ laid_row table.now p (receipt q k) len }
    ensures sent { IfOk result (λ r. Acts table.now p r.0 × Reads (history (state_of table.now) q) k r.1) }
{
    let section = pair_row(table, len, 16, p, q)?;
    let sent = message_row(table, section, p, q, k)?;
    Ok((section, sent))
}

// The section of process p and the send, where no row stops the receipt of message k of q.
pub fn receipt_row(
    t: &[u8],
    len: usize,
    p: usize,
    q: usize,
    k: usize,
) -> Result<(Section, Sent), Refusal>
    ensures row { returned result ≡ step_row t.now p (receipt q k) len }
    ensures sent { IfOk result (λ r. ActsIn t.now p r.0 × Reads (history (decoded t.now) q) k r.1) }
{
    laid_receipt(&Table::read(t)?, len, p, q, k)
}
