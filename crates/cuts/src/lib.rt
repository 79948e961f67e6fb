// Scans of one process's records for a failure line, and for the messages to send again.
#![tactic(auto)]

ghost use Rattle.std.specs.Prelude.{◌≡◌, ◌+◌, ◌≤◌, ◌<◌, true, eqb, [], ◌∷◌, length};
ghost use Rattle.rules.specs.Records.{sends as sends_of};
ghost use Rattle.rules.specs.Lines.{upto, is_checkpoint};
ghost use Rattle.rules.specs.FailureLine.{last_saved};
ghost use Rattle.events.specs.Events.{meant, record_of, held};
ghost use Rattle.cuts.specs.Parts.{counts};
ghost use Rattle.cuts.specs.Tests.{late, noted_astray};
ghost use Rattle.cuts.specs.Notes.{note_of, noted, place_in, Inside, struck, is_receipt, struck_by_place};

use events::{Event, Records, Test};

// Where a process stands in a cut: how many of its records have happened, and how many of these are sends. Both are at most 1,024, so that
// sixteen bits hold them.
#[derive(Clone, Copy, Drop)]
pub struct Part {
    pub position: u16,
    pub sends: u16,
}

// Whether a record is a checkpoint.
fn is_checkpoint(event: Event) -> bool
    ensures { result ≡ is_checkpoint (meant event) }
{
    matches!(event, Event::Basic { .. } | Event::Forced { .. })
}

// 1 for a send, else 0.
fn sent(event: Event) -> usize
    ensures { result ≡ sends_of (meant event ∷ []) }
{
    usize::from(matches!(event, Event::Sent { .. }))
}

// Whether position i is 0 or a checkpoint's.
#[tactic(auto, using(tables::proofs::Scans::records_upto, crate::proofs::Scanned::saved_next))]
fn saved(records: &Records, i: usize) -> bool
    requires { i ≤ records.now.count }
    ensures saved { result ≡ eqb (last_saved (upto i (held records.now))) i }
    ensures start { i ≡ 0 → result ≡ true }
{
    i == 0 || is_checkpoint(records.get(i - 1))
}

// From the end of some records, of which k are sends, back to the latest saved position that is at most r.
#[tactic(auto, using(tables::proofs::Scans::records_upto, tables::proofs::Scans::sends_at_most, crate::proofs::Scanned::back_done))]
pub fn back_to(records: &Records, k: usize, r: usize) -> Part
    requires { (r ≤ records.now.count) × (k ≡ sends_of (held records.now)) }
    ensures { (result.position ≡ last_saved (upto r (held records.now))) × (result.sends ≡ sends_of (upto result.position (held records.now))) }
{
    let mut i = records.count;
    let mut sends = k;
    // By while: it goes down until a test holds, and counts the sends that it passes. A search and then a count would read them twice.
    while (r < i) | !saved(records, i) {
        i -= 1;
        sends -= sent(records.get(i));
    }
    Part {
        position: i as u16,
        sends: sends as u16,
    }
}

// The test for a receipt whose send is not in its sender's part of the cut, by its number.
#[derive(Clone, Copy, Drop)]
pub struct Late<'a> {
    pub cut: &'a [Part; 16],
}

impl<'a> Test for Late<'a> {
    ghost passes = { λ test. late (counts test.cut.now) };

    fn test(&self, event: Event) -> bool {
        match event {
            Event::Received { from, k, .. } => u32::from(self.cut[from as usize % 16].sends) < k,
            _ => false,
        }
    }
}

// What is noted at the place of the next send once a record is read: its destination, 16 if it is no send. A note is one byte; an `Option`
// would be two, and there are up to 3,072.
fn note_of(event: Event) -> u8
    ensures { result ≡ note_of (meant event) }
{
    match event {
        Event::Sent { to, .. } => (to % 32) as u8,
        _ => 16,
    }
}

// Notes from an index on where the sends go; how many there are. Every record is written at the next send's place, so that the loop needs no
// branch: where sends alone were written, failure lines took a quarter longer.
pub fn note(records: &Records, from: usize, to: &mut [u8]) -> usize
    requires { from + records.now.count < length to.old }
    ensures { (to.new ≡ noted from (held records.now) to.old) × (result ≡ sends_of (held records.now)) × (result ≤ records.now.count) }
{
    let mut k = 0;
    for i in 0..records.count {
        let event = records.get(i);
        to[from + k + 1] = note_of(event);
        k += sent(event);
    }
    k
}

// Where the sends of a process are noted: `count` of them, from index `start` on.
#[derive(Clone, Copy, Drop)]
pub struct Span {
    pub start: u16,
    pub count: u16,
}

impl Span {
    // Where send k is noted, if it is.
    fn place(self, k: u32) -> Option<usize>
        ensures { result ≡ place_in self k }
    {
        (k <= u32::from(self.count)).then_some(usize::from(self.start) + k as usize)
    }
}

// The test for a receipt of process p whose send is noted, as one to another process.
#[derive(Clone, Copy, Drop)]
pub struct Astray<'a> {
    pub spans: &'a [Span; 16],
    pub p: u8,
    pub to: &'a [u8],
    ghost inside: { Inside spans.now (length to.now) },
}

impl<'a> Test for Astray<'a> {
    ghost passes = { λ test. noted_astray test.spans.now test.p test.to.now };

    fn test(&self, event: Event) -> bool {
        match event {
            Event::Received { from, k, .. } => match self.spans[(from % 16) as usize].place(k) {
                Some(x) => self.to[x] != self.p,
                None => false,
            },
            _ => false,
        }
    }
}

// Strikes from the notes what process p has received: where p is noted for one of its receipts, 16 is noted instead.
//
// `Inside` is asked for here: a type that holds it, as `Astray` does, would be one of spans and notes, made for this call.
pub fn strike(records: &Records, spans: &[Span; 16], p: u8, to: &mut [u8])
    requires { Inside spans.now (length to.old) }
    ensures { to.new ≡ struck spans.now p (held records.now) to.old }
{
    for i in 0..records.count {
        if let Event::Received { from, k, .. } = records.get(i)
            && let Some(x) = spans[(from % 16) as usize].place(k)
            && to[x] == p
        {
            to[x] = 16;
        }
    }
}

// Whether a record is a receipt.
fn is_receipt(event: Event) -> bool
    ensures { result ≡ is_receipt (meant event) }
{
    matches!(event, Event::Received { .. })
}

// Strikes one record of process p from the notes: where p is noted for a receipt's send, 16 is noted instead. A send that is not noted is
// looked up at place 0, where no send is noted. A note is stored in any case, if only the one that stood there, and a record's numbers are
// read whatever its kind, since which records are such receipts can't be foretold: with a branch for these the messages to send again took
// up to half as long again.
#[tactic(auto, using(crate::proofs::Notes::place_inside, crate::proofs::Notes::strike_next))]
fn strike_one(records: &Records, i: usize, spans: &[Span; 16], p: u8, to: &mut [u8])
    requires { (i < records.now.count) × Inside spans.now (length to.old) }
    ensures { to.new ≡ struck_by_place spans.now p (record_of records.now i ∷ []) to.old }
{
    let (q, k) = records.numbers(i);
    let x = spans[(q % 16) as usize].place(k).unwrap_or(0);
    let d = to[x];
    let got = is_receipt(records.get(i)) & (d == p);
    to[x] = shape::pick(got, 16, usize::from(d)) as u8;
}

// Strikes as `strike` does, with no branch: a receipt whose send is not noted strikes place 0, where no send is noted.
//
// `Inside` is asked for as by `strike`.
#[tactic(auto, using(crate::proofs::Notes::by_place_length, crate::proofs::Notes::by_place_more))]
pub fn strike_by_place(records: &Records, spans: &[Span; 16], p: u8, to: &mut [u8])
    requires { Inside spans.now (length to.old) }
    ensures { to.new ≡ struck_by_place spans.now p (held records.now) to.old }
{
    for i in 0..records.count {
        strike_one(records, i, spans, p, to);
    }
}

#[cfg(test)]
mod tests {
    use super::*;

    // Process 2 receives message k of process 1, of which two are noted, behind place 0.
    #[test]
    fn strikes_what_is_noted(rt: HostRuntime) {
        for (k, want, by_place) in [
            (1, [2, 16, 2, 2], [2, 16, 2, 2]),
            (2, [2, 2, 16, 2], [2, 2, 16, 2]),
            (3, [2, 2, 2, 2], [16, 2, 2, 2]),
        ] {
            let bytes = [0, 0, 0, 4, 0, 0, 0, 1, 0, 0, 0, k, 0, 0, 0, 0];
            let records = Records {
                bytes: &bytes,
                at: 0,
                count: 1,
            };
            let spans = [Span { start: 0, count: 2 }; 16];
            let mut to = [2; 4];
            strike(&records, &spans, 2, &mut to);
            assert_eq!(rt; to, want, "message {k}");
            to = [2; 4];
            strike_by_place(&records, &spans, 2, &mut to);
            assert_eq!(rt; to, by_place, "message {k}");
        }
    }
}
