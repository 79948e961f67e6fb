// Records added to a section in place.
#![tactic(auto)]

ghost use Rattle.std.specs.Prelude.{◌≡◌, cond, ◌+◌, ◌*◌, ◌≤◌, length};
ghost use Rattle.xdr.specs.Words.{put_words};
ghost use Rattle.rules.specs.Table.{heading, width};
ghost use Rattle.store.specs.Added.{with_record, forces, with_receipt};

use events::Event;
use layout::Section;

// The word behind a section's records.
fn end(section: Section) -> usize
    ensures { result ≡ section.at + heading + width * section.count }
{
    section.at + shape::HEADING + shape::WIDTH * section.count as usize
}

// Stores a record's words from word i on.
fn put(t: &mut [u8], i: usize, words: [u32; 4])
    requires { 4 * (i + width) ≤ length t.old }
    ensures { t.new ≡ put_words t.old i words }
{
    xdr::put_all(t, i, words);
}

// One record, by its words; x and s are the section's number and count of sends after it.
pub fn add_record(t: &mut [u8], section: Section, x: u32, s: u32, words: [u32; 4])
    requires { 4 * (section.at + heading + width * (section.count + 1)) ≤ length t.old }
    ensures { t.new ≡ with_record t.old section x s words }
{
    xdr::put_all(t, section.at, [section.count + 1, x, s]);
    put(t, end(section), words);
}

// The receipt of (q, k), which carries m, behind a checkpoint where it forces one; returns whether it does.
pub fn add_receipt(t: &mut [u8], section: Section, m: u32, q: u32, k: u32) -> bool
    requires { 4 * (section.at + heading + width * (section.count + cond (forces section m) 2 1)) ≤ length t.old }
    ensures forces { result ≡ forces section m }
    ensures stored { t.new ≡ with_receipt t.old section m q k }
{
    let forces = section.number < m;
    let count = section.count + 1 + u32::from(forces);
    xdr::put_all(t, section.at, [count, section.number.max(m), section.sends]);
    let mut behind = end(section);
    if forces {
        put(t, behind, Event::Forced { number: m }.into());
        behind += shape::WIDTH;
    }
    let receipt = Event::Received {
        from: q,
        k,
        carried: m,
    };
    put(t, behind, receipt.into());
    forces
}
