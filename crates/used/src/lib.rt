// The used records of a table, with what each section's heading says of them (document 01, "The table").
#![tactic(auto)]

ghost use Rattle.std.specs.Prelude.{◌≡◌, ◌+◌, ◌*◌, ◌<◌, ◌≤◌, true, length};
ghost use Rattle.xdr.specs.Words.{word};
ghost use Rattle.rules.specs.Table.{heading, width, start as start_of};
ghost use Rattle.tables.specs.Sections.{every, rear_ok, front_ok};
ghost use Rattle.used.specs.Marks.{kind_index, ByKind, Next, Found};

use events::Records;
use shape::Dims;

// Halves of a number of 64 bits: the top bit of a half, its other bits, and the weight of the upper half.
pub const TOP: usize = 2147483648;

pub const REST: usize = 2147483647;

pub const UPPER: usize = 4294967296;

// Two halves as one number.
pub const TOP_NONE: usize = TOP * UPPER;

pub const TOP_REST: usize = TOP * UPPER + REST;

pub const REST_REST: usize = REST * UPPER + REST;

pub const TOP_TOP: usize = TOP * UPPER + TOP;

// What a used record's words are tested with, by its kind: the lists of specs/Marks.antt for a table of these dimensions. The kind is a
// number here, since a table that is not well laid has others than those of document 01. Lists side by side: an array of one struct for each
// kind was tried, and took steps on the smallest tables from 0.97 to 1.00 times plain C to 1.04 to 1.06.
#[derive(Drop)]
pub struct Limits {
    pub dims: Dims,
    pub room: [usize; 5],
    pub floor: [usize; 5],
    pub masks: [usize; 6],
    ghost by_kind: { ByKind dims.n dims.e room floor masks },
}

// What a scan of used records has found so far: marks, which are clear as long as every record is in order; words a and b of the last
// checkpoint as a pair; and the count of sends.
#[derive(Clone, Copy, Drop)]
struct Seen {
    marks: usize,
    last: usize,
    sends: usize,
}

// Where the lists by kind have this kind. By number, not an enum: a table that is not well laid has others.
fn kind_index(kind: usize) -> usize
    ensures { (result ≡ kind_index kind) × (result < 5) }
{
    shape::pick(kind < 5, kind, 0)
}

// One record more, with words a and b as a pair and the fourth word c, by the lists in specs/Marks.antt. Words a and b are tested at once,
// and no kind has a branch of its own.
fn next(s: Seen, limits: &Limits, own: usize, kind: usize, pair: usize, c: usize) -> Seen
    requires { s.sends ≤ 1024 }
    ensures { Next s limits.now.room limits.now.floor own kind pair c result }
{
    let i = kind_index(kind);
    let m = limits.masks[i + 1];
    let k = std::num::wrapping_sub_usize(s.sends, m);
    let sum = std::num::wrapping_add_usize(pair ^ (k & m), limits.room[i]);
    let difference = std::num::wrapping_sub_usize(limits.floor[i], pair ^ own);
    let x = s.last / UPPER;
    let beyond = std::num::wrapping_sub_usize(x & limits.masks[i], c ^ (x & m));
    Seen {
        marks: s.marks | sum | difference | beyond,
        last: shape::pick(i < 3, pair, s.last),
        sends: k,
    }
}

// Records of process p.
fn used(records: &Records, p: usize, limits: &Limits) -> Seen
    requires { (p < limits.now.dims.n) × (records.now.count ≤ limits.now.dims.e) }
    ensures { Found limits.now.dims.n limits.now.dims.e (word records.now.bytes.now) p records.now.at records.now.count result }
{
    let t = records.bytes;
    let own = p * UPPER;
    let mut seen = Seen {
        marks: 0,
        last: 0,
        sends: 0,
    };
    for i in 0..records.count {
        let w = records.at + shape::WIDTH * i;
        let kind = xdr::get(t, w) as usize;
        let pair = xdr::pair(t, w + shape::A);
        let carried = xdr::get(t, w + shape::CARRIED) as usize;
        seen = next(seen, limits, own, kind, pair, carried);
    }
    seen
}

// Whether the used records of section p are in order and its number and count of sends are theirs.
fn front(t: &[u8], p: usize, limits: &Limits) -> bool
    requires { (p < limits.now.dims.n) × (4 * start_of limits.now.dims.e limits.now.dims.n ≤ length t.now) × (word t.now (start_of limits.now.dims.e p) ≤ limits.now.dims.e) }
    ensures { result ≡ front_ok limits.now.dims.n limits.now.dims.e (word t.now) p (start_of limits.now.dims.e p) }
{
    let at = limits.dims.start(p);
    let records = Records {
        bytes: t,
        at: at + shape::HEADING,
        count: xdr::get(t, at) as usize,
    };
    let seen = used(&records, p, limits);
    (seen.marks & TOP_TOP) | (xdr::pair(t, at + shape::NUMBER) ^ (seen.last | seen.sends)) == 0
}

// Whether that holds of all n sections.
pub fn fronts(t: &[u8], limits: &Limits) -> bool
    requires { (4 * start_of limits.now.dims.e limits.now.dims.n ≤ length t.now) × (every (λ p. rear_ok limits.now.dims.e (word t.now) (start_of limits.now.dims.e p)) limits.now.dims.n ≡ true) }
    ensures { result ≡ every (λ p. front_ok limits.now.dims.n limits.now.dims.e (word t.now) p (start_of limits.now.dims.e p)) limits.now.dims.n }
{
    (0..limits.dims.n).all(|p| front(t, p, limits))
}
