// The messages in transit at a cut, counted and listed (document 02, slip 1).
#![tactic(auto)]

ghost use Rattle.std.specs.Prelude.{◌≡◌, ◌+◌, ◌*◌, ◌≤◌, ◌<◌, length};
ghost use Rattle.std.specs.List.{count_by};
ghost use Rattle.xdr.specs.Words.{put_words};
ghost use Rattle.rules.specs.Resend.{messages_words};
ghost use Rattle.notes.specs.Noted.{is_left, left_in, messages_of};
ghost use Rattle.transit.specs.Transit.{transit_at};

use notes::Notes;

// How many notes are left: a sum, since `filter` would branch at each.
fn left(notes: &[u8]) -> usize
    ensures { result ≡ count_by is_left notes.now }
{
    notes.iter().map(|d| usize::from(*d < 16)).sum()
}

// How many messages are in transit.
pub fn count(notes: &mut Notes) -> usize
    ensures { (result ≡ length (transit_at notes.old.cut)) × (result ≤ 16384) × (notes.new.cut ≡ notes.old.cut) }
{
    let mut count = 0;
    for q in 0..notes.cut().table.n {
        notes.note(q);
        count += left(notes.of(q));
    }
    count
}

// Writes those of process q, behind this many others, by its notes; how many there are then. The count goes on from sender to sender, so
// that no `enumerate` gives it.
fn list_sender(area: &mut [u8], q: usize, notes: &[u8], others: usize) -> usize
    requires { (q < 16) × (length notes.now ≤ 1024) × (4 + 12 * (others + length (left_in q 0 notes.now)) ≤ length area.old) }
    ensures { (result ≡ others + length (left_in q 0 notes.now)) × (area.new ≡ put_words area.old (1 + 3 * others) (messages_words (left_in q 0 notes.now))) }
{
    let mut count = others;
    for (i, d) in notes.iter().enumerate() {
        if *d < 16 {
            xdr::put_all(area, 1 + 3 * count, [q as u32, i as u32 + 1, u32::from(*d)]);
            count += 1;
        }
    }
    count
}

// Notes process q, unless it is noted, and writes its messages behind this many others; how many there are then.
#[tactic(auto, using(crate::proofs::Messages::few_sent))]
fn list_process(notes: &mut Notes, area: &mut [u8], q: usize, others: usize) -> usize
    requires { (q < notes.old.cut.table.n) × (4 + 12 * (others + length (messages_of notes.old.cut q)) ≤ length area.old) }
    ensures cut { notes.new.cut ≡ notes.old.cut }
    ensures count { result ≡ others + length (messages_of notes.old.cut q) }
    ensures text { area.new ≡ put_words area.old (1 + 3 * others) (messages_words (messages_of notes.old.cut q)) }
{
    notes.note(q);
    list_sender(area, q, notes.of(q), others)
}

// Writes them; how many there are. It goes over the senders as `count` does, and no more: a function for both loops would be as long as they
// are, since each does something else with a sender's notes.
pub fn list(notes: &mut Notes, area: &mut [u8]) -> usize
    requires { 4 + 12 * length (transit_at notes.old.cut) ≤ length area.old }
    ensures { (result ≡ length (transit_at notes.old.cut)) × (result ≤ 16384) × (area.new ≡ put_words area.old 1 (messages_words (transit_at notes.old.cut))) }
{
    let mut count = 0;
    for q in 0..notes.cut().table.n {
        count = list_process(notes, area, q, count);
    }
    count
}
