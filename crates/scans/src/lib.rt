// What is looked for among the records of one process.
#![tactic(auto)]

ghost use Rattle.std.specs.Prelude.{◌≡◌, ◌≤◌, ◌<◌, MatchOption, IfSome};
ghost use Rattle.std.proofs.Math.Option.{none, some};
ghost use Rattle.xdr.specs.Words.{word};
ghost use Rattle.rules.specs.Records.{has_receipt};
ghost use Rattle.tables.specs.Sections.{SendsLaid};
ghost use Rattle.rules.specs.Lines.{at_least, numbered};
ghost use Rattle.events.specs.Events.{held};
ghost use Rattle.scans.specs.Sends.{Answers};
ghost use Rattle.scans.specs.Receipts.{is_receipt};

use events::{Event, Records, Test};

// A send: what it carries, its destination and its place, counted from 1.
#[derive(Clone, Copy, Drop)]
pub struct Sent {
    pub carried: u32,
    pub to: u32,
    pub place: u32,
}

// Send k, if it is there. In a well laid table a send's own words tell its number and what it carries. The first k - 1 records have less
// than k sends, so the search begins behind them. `SendsLaid` is asked for here alone, and so it is no field of `Records`. No `Test`: the
// search begins at that record, and wants the words of the one that it finds.
#[tactic(auto, using(crate::proofs::Found::send_none, crate::proofs::Found::send_later, crate::proofs::Found::send_fewer))]
pub fn find_send(records: &Records, k: usize) -> Option<Sent>
    requires { SendsLaid (word records.now.bytes.now) records.now.at records.now.count }
    ensures { Answers k (held records.now) result }
{
    if k == 0 {
        return None;
    }
    for i in k - 1..records.count {
        if let Event::Sent {
            to,
            k: number,
            carried,
        } = records.get(i)
            && number as usize == k
        {
            let place = i as u32 + 1;
            return Some(Sent { carried, to, place });
        }
    }
    None
}

// The test for a receipt of send k of process q.
#[derive(Drop)]
struct ReceiptOf {
    q: usize,
    k: usize,
}

impl Test for ReceiptOf {
    ghost passes = { λ s. is_receipt s.q s.k };

    fn test(&self, event: Event) -> bool {
        matches!(event, Event::Received { from, k, .. } if from as usize == self.q && k as usize == self.k)
    }
}

// Whether there is a receipt of send k of process q.
#[tactic(auto, using(crate::proofs::Found::any_receipt))]
pub fn has_receipt(records: &Records, q: usize, k: usize) -> bool
    ensures { result ≡ has_receipt (held records.now) q k }
{
    records.any(&ReceiptOf { q, k })
}

// The test for a checkpoint with this number or more, which is not 0.
#[derive(Drop)]
struct AtLeast {
    number: usize,
    ghost some: { 0 < number },
}

impl Test for AtLeast {
    ghost passes = { λ s. at_least s.number };

    // A send or receipt counts as number 0: which kind comes next can't be foretold, so that a branch for it would take longer.
    fn test(&self, event: Event) -> bool {
        let number = match event {
            Event::Basic { number } | Event::Forced { number } => number,
            Event::Sent { .. } | Event::Received { .. } => 0,
        };
        self.number <= number as usize
    }
}

// The position of the first checkpoint with number m or more, the initial one included, if there is one.
#[tactic(auto, using(records::proofs::NumberedLines::numbered_zero, crate::proofs::Found::position_found, crate::proofs::Found::position_none))]
pub fn position(records: &Records, m: usize) -> Option<usize>
    ensures position { MatchOption result (numbered m (held records.now) ≡ none) (λ t. numbered m (held records.now) ≡ some t) }
    ensures within { IfSome result (λ t. t ≤ records.now.count) }
{
    if m == 0 {
        return Some(0);
    }
    let i = records.first(&AtLeast { number: m })?;
    Some(i + 1)
}
