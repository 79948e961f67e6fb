// Whether a run leaves a lent table (document 02, slip 5): its calls are made once more.
//
// The records of a process say which calls it made, in their order, so that only the turns of the processes are open. What a call adds hangs
// on its own process and, for a receipt, on the send: once that is there, nothing that others do changes it. So each process goes on as far
// as it can, round by round, until none can. Where a send goes and what it carries is noted when it is made, so that a receipt searches
// nothing, and struck by its receipt, so that no message is received twice.
#![tactic(auto)]

ghost use Rattle.std.specs.Prelude.{◌≡◌, ◌≢◌, MatchResult, MatchOption, ℕ, ◌+◌, ◌*◌, ◌≤◌, ◌<◌, leb, set, length, ◌↔◌};
ghost use Rattle.xdr.specs.Words.{word, put_word};
ghost use Rattle.rules.specs.Audit.{audited};
ghost use Rattle.replay.specs.Notes.{note_of, taken};

use events::{Event, Records};
use layout::Table;

// No run leaves the table.
#[derive(Clone, Copy, Drop)]
struct Unmade;

// How far a process has come: how many of its records were made again, and its number and count of sends there.
#[derive(Clone, Copy, Drop)]
struct Done {
    records: usize,
    number: u32,
    sends: u32,
}

// What is noted of a message that was received: no note of one that wasn't.
const TAKEN: u32 = 4294967295;

// What is noted of a message to process p that carries this number.
fn note(p: u32, carried: u32) -> u32
    requires { (p < 16) × (carried ≤ 16384) }
    ensures { result ≡ note_of p carried }
{
    16 * carried + p
}

// Strikes the note at word i, which is to be this one.
fn strike(notes: &mut [u8], i: usize, note: u32) -> Result<(), Unmade>
    requires { 4 * i + 4 ≤ length notes.old }
    ensures { MatchResult result (λ x. (word notes.old i ≡ note) × (notes.new ≡ put_word notes.old i taken)) (λ x. word notes.old i ≢ note) }
{
    if xdr::get(notes, i) != note {
        return Err(Unmade);
    }
    xdr::put(notes, i, TAKEN);
    Ok(())
}

// A table whose calls are made again, with room for notes of every send; `left` is how many records are left.
#[derive(Drop)]
struct Replay<'a> {
    table: Table<'a>,
    notes: &'a mut [u8],
    done: [Done; 16],
    left: usize,
    ghost room: { length notes.now ≡ length table.bytes.now },
}

impl<'a> Replay<'a> {
    ghost use Rattle.rules.specs.Records.{forced};
    ghost use Rattle.events.specs.Events.{record_of};
    ghost use Rattle.replay.specs.Way.{done_at, Made, Going, Pending, Kept, Came, Stops, Rests, Took, Went};

    // Nothing is made yet.
    fn new(table: Table<'a>, notes: &'a mut [u8]) -> Replay<'a>
        requires { length notes.old ≡ length table.bytes.now }
        ensures { (result.table ≡ table.entry) × Going result }
    {
        let none = Done {
            records: 0,
            number: 0,
            sends: 0,
        };
        Replay {
            table,
            notes,
            done: [none; 16],
            left: (0..table.n).map(|p| table.count(p)).sum(),
        }
    }

    // Takes send k of process q for process p, if it was made already; whether it was.
    fn take(&mut self, p: usize, q: usize, k: u32, carried: u32) -> Result<bool, Unmade>
        requires { (p < 16) × (carried ≤ 16384) × (q < self.old.table.n) × (k ≤ self.old.table.e) }
        ensures same { Kept self.old self.new }
        ensures took { Took (leb k (done_at self.old.done q).sends) (note_of p carried) (q * self.old.table.e + k) self.old.notes.now result self.new.notes.now }
    {
        if self.done[q].sends < k {
            return Ok(false);
        }
        strike(
            self.notes,
            q * self.table.e + k as usize,
            note(p as u32, carried),
        )?;
        Ok(true)
    }

    // Process p makes the call of a forced checkpoint with this number: the receipt right behind it.
    fn forced(
        &mut self,
        p: usize,
        records: &Records,
        done: Done,
        number: u32,
    ) -> Result<Option<Done>, Unmade>
        requires pending { Pending self.old p done records.now }
        requires record { record_of records.now done.records ≡ forced number }
        ensures same { Kept self.old self.new }
        ensures went { Went self.old p done result self.new }
    {
        let i = done.records + 1;
        if number <= done.number || i == records.count {
            return Err(Unmade);
        }
        let Event::Received { from, k, carried } = records.get(i) else {
            return Err(Unmade);
        };
        if carried != number {
            return Err(Unmade);
        }
        let there = self.take(p, from as usize, k, number)?;
        Ok(there.then_some(Done {
            records: i + 1,
            number,
            ..done
        }))
    }

    // Process p makes its next call, where it has come this far; how far it has then, or none where it waits for a send.
    fn next(&mut self, p: usize, records: &Records, done: Done) -> Result<Option<Done>, Unmade>
        requires { Pending self.old p done records.now }
        ensures same { Kept self.old self.new }
        ensures went { Went self.old p done result self.new }
    {
        let i = done.records;
        match records.get(i) {
            Event::Basic { number } => {
                if number != done.number + 1 {
                    return Err(Unmade);
                }
                Ok(Some(Done {
                    records: i + 1,
                    number,
                    ..done
                }))
            },
            Event::Forced { number } => self.forced(p, records, done, number),
            Event::Sent { to, .. } => {
                let sends = done.sends + 1;
                let at = p * self.table.e + sends as usize;
                xdr::put(self.notes, at, note(to, done.number));
                Ok(Some(Done {
                    records: i + 1,
                    sends,
                    ..done
                }))
            },
            Event::Received { from, k, carried } => {
                let there = self.take(p, from as usize, k, carried)?;
                Ok(there.then_some(Done {
                    records: i + 1,
                    ..done
                }))
            },
        }
    }

    // How far process p comes by the sends that are made.
    fn furthest(&mut self, p: usize) -> Result<Done, Unmade>
        requires { (p < self.old.table.n) × Going self.old }
        ensures same { Kept self.old self.new }
        ensures went { MatchResult result (λ d. Came self.new p d × Stops self.new.table (set self.new.done p d) p) (λ _. ¬ Made self.old.table) }
    {
        let table = self.table;
        let records = table.records(p);
        let mut done = self.done[p];
        while done.records < records.count {
            match self.next(p, &records, done)? {
                Some(next) => done = next,
                None => return Ok(done),
            }
        }
        Ok(done)
    }

    // Process p goes on as far as it can.
    fn advance(&mut self, p: usize) -> Result<(), Unmade>
        requires { (p < self.old.table.n) × Going self.old }
        ensures same { self.new.table ≡ self.old.table }
        ensures went { MatchResult result (λ _. Going self.new × Stops self.new.table self.new.done p × (self.new.left ≤ self.old.left) × (self.new.left ≡ self.old.left → self.new.done ≡ self.old.done)) (λ _. ¬ Made self.old.table) }
    {
        let done = self.furthest(p)?;
        self.left -= done.records - self.done[p].records;
        self.done[p] = done;
        Ok(())
    }

    // The processes go on in turn, each as far as it can.
    fn round(&mut self) -> Result<(), Unmade>
        requires { Going self.old }
        ensures same { self.new.table ≡ self.old.table }
        ensures went { MatchResult result (λ _. Going self.new × (self.new.left ≤ self.old.left) × (self.new.left ≡ self.old.left → Rests self.new.table self.new.done self.new.table.n)) (λ _. ¬ Made self.old.table) }
    {
        for p in 0..self.table.n {
            self.advance(p)?;
        }
        Ok(())
    }

    // Round by round, until none goes on.
    fn run(&mut self) -> Result<(), Unmade>
        requires { Going self.old }
        ensures { MatchResult result (λ _. (self.new.left ≡ 0) ↔ Made self.old.table) (λ _. ¬ Made self.old.table) }
    {
        loop {
            let left = self.left;
            self.round()?;
            if self.left == left {
                return Ok(());
            }
        }
    }
}

// Whether a run leaves the table, by notes in a slice as long as it.
pub fn made(table: Table, notes: &mut [u8]) -> bool
    requires { length notes.old ≡ length table.bytes.now }
    ensures { result ≡ audited table.entry.bytes.now }
{
    let mut replay = Replay::new(table, notes);
    replay.run().is_ok() && replay.left == 0
}
