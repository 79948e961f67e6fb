// A cut that is lowered to the failure line (document 01, "Lines").
//
// Every process starts at its latest permitted position. A receipt that went astray, whose number is that of a send to another process, is
// an orphan in every cut: each process is taken back to before its first one. After that a receipt is an orphan exactly when it is late, its
// number above the count of sends in its sender's part, so that a scan for late receipts compares numbers and searches nothing.
#![tactic(auto)]

ghost use Rattle.std.specs.Prelude.{◌≡◌, cond, ◌+◌, ◌*◌, ◌≤◌, ◌<◌, ltb, length};
ghost use Rattle.rules.specs.Records.{sends as sends_of};
ghost use Rattle.rules.specs.Lines.{upto};
ghost use Rattle.rules.specs.FailureLine.{lowered};
ghost use Rattle.events.specs.Events.{held};
ghost use Rattle.layout.specs.Tables.{state_of};
ghost use Rattle.cuts.specs.Parts.{positions, counts};
ghost use Rattle.tops.specs.Tops.{Counted};
ghost use Rattle.notes.specs.Noted.{none_from, NotedAt};
ghost use Rattle.lowering.specs.Lowering.{ends, Pruned, Settled};

use cuts::{Astray, Late, Part};
use events::{Records, Test};
use layout::Table;
use notes::Senders;

// ---- one process

// A part of a process's records, taken back to the latest saved position before the first record in it that passes, if there is one.
#[tactic(auto, using(crate::proofs::Lowered::lower_stays))]
fn lower<T: Test>(records: &Records, part: Part, test: &T) -> Part
    requires { (part.position ≤ records.now.count) × (part.sends ≡ sends_of (upto part.position (held records.now))) }
    ensures { (result.position ≡ lowered (T.passes test.now) (held records.now) part.position) × (result.sends ≡ sends_of (upto result.position (held records.now))) }
{
    let records = records.upto(usize::from(part.position));
    match records.first(test) {
        Some(r) => cuts::back_to(&records, usize::from(part.sends), r),
        None => part,
    }
}

// `Counted` is a clause of each function below that takes a cut: a struct of table and parts would have each say in its place that the cut
// it returns is of the same table. Room for the notes of any one process is a clause too: it is about the table and its caller's notes.

// ---- receipts that went astray

// Notes where the sends go, of as many processes from the first one on as there is room for.
fn note_sends(table: &Table, senders: &mut Senders, to: &mut [u8])
    requires { (senders.old ≡ none_from senders.old.next) × (senders.old.next < table.now.n) × (table.now.e < length to.old) × (length to.old ≤ 65536) }
    ensures { NotedAt table.now (ends table.now) 0 senders.new to.new × (length to.new ≡ length to.old) × (senders.new.from ≡ senders.old.next) × (senders.old.next < senders.new.next) }
{
    for p in senders.next..table.n {
        if !senders.note(&table.records(p), to) {
            break;
        }
    }
}

// Every process before its first receipt that went astray, from one of the senders that are noted.
fn pruned_of(table: &Table, senders: &Senders, to: &[u8], cut: [Part; 16]) -> [Part; 16]
    requires { NotedAt table.now (ends table.now) 0 senders.now to.now × Counted (state_of table.now) (positions cut) (counts cut) }
    ensures { Pruned (state_of table.now) (positions cut) (positions result) (counts result) senders.now.from senders.now.next table.now.n }
{
    let mut lowered = cut;
    for p in 0..table.n {
        let astray = Astray {
            spans: &senders.spans,
            p: p as u8,
            to,
        };
        lowered[p] = lower(&table.records(p), lowered[p], &astray);
    }
    lowered
}

// Every process before its first such receipt, from the senders from q on that there is room for; and the next sender.
#[inline(always)]
fn pruned_from(table: &Table, q: usize, to: &mut [u8], cut: [Part; 16]) -> ([Part; 16], usize)
    requires { (q < table.now.n) × (table.now.e < length to.old) × (length to.old ≤ 65536) × Counted (state_of table.now) (positions cut) (counts cut) }
    ensures { Pruned (state_of table.now) (positions cut) (positions result.0) (counts result.0) q result.1 table.now.n × (length to.new ≡ length to.old) × (q < result.1) × (result.1 ≤ table.now.n) }
{
    let mut senders = Senders::none(q);
    note_sends(table, &mut senders, to);
    (pruned_of(table, &senders, to, cut), senders.next)
}

// Every process before its first such receipt, with room for N notes, in a frame of its own.
#[inline(never)]
fn pruned_within<const N: usize>(table: &Table, cut: [Part; 16]) -> [Part; 16]
    requires { (table.now.e < N) × (N ≤ 65536) × Counted (state_of table.now) (positions cut) (counts cut) }
    ensures { Pruned (state_of table.now) (positions cut) (positions result) (counts result) 0 table.now.n table.now.n }
{
    let mut to = [0; N];
    let mut lowered = cut;
    let mut next = 0;
    // By while: how many senders there is room for shows as they are noted.
    while next < table.n {
        let (pruned, then) = pruned_from(table, next, &mut to, lowered);
        lowered = pruned;
        next = then;
    }
    lowered
}

// Every process before its first such receipt. A small table does not pay for the room that the largest needs: 2,944 notes, as many as leave
// the calls less than 4 KiB of stack.
pub fn pruned(table: &Table, cut: [Part; 16]) -> [Part; 16]
    requires { Counted (state_of table.now) (positions cut) (counts cut) }
    ensures { Pruned (state_of table.now) (positions cut) (positions result) (counts result) 0 table.now.n table.now.n }
{
    if table.n * table.e < 256 {
        return pruned_within::<256>(table, cut);
    }
    pruned_within::<2945>(table, cut)
}

// ---- late receipts

// The process that has its turn after p, round the n of them.
fn after(p: usize, n: usize) -> usize
    requires { p < n }
    ensures { result ≡ cond (ltb (p + 1) n) (p + 1) 0 }
{
    if p + 1 < n { p + 1 } else { 0 }
}

// Takes one process after the other before its first late receipt, round and round, until n in a row have stayed.
pub fn settled(table: &Table, cut: [Part; 16]) -> [Part; 16]
    requires { Counted (state_of table.now) (positions cut) (counts cut) }
    ensures { Settled (state_of table.now) (positions cut) (positions result) (counts result) table.now.n }
{
    let mut lowered = cut;
    let mut stayed = 0;
    let mut p = 0;
    // By while: the turns go round until n in a row have stayed, so that neither count runs over a range.
    while stayed < table.n {
        let late = Late { cut: &lowered };
        let part = lower(&table.records(p), lowered[p], &late);
        stayed = if part.position < lowered[p].position {
            0
        } else {
            stayed + 1
        };
        lowered[p] = part;
        p = after(p, table.n);
    }
    lowered
}
