// The table's dimensions: their ranges, its length, and where its sections start (document 01, "The table").
#![tactic(auto)]

ghost use Rattle.std.specs.Prelude.{◌≡◌, cond, ◌≤◌, true, false, MatchOption};
ghost use Rattle.rules.specs.Table.{in_range, size, start as start_of, most_words};

// The words of a section before its records, and which they are behind its count of records.
pub const HEADING: usize = 3;

pub const NUMBER: usize = 1;

pub const SENDS: usize = 2;

// The words of a record, and which they are behind its kind: a, b, and what a send or receipt carries.
pub const WIDTH: usize = 4;

pub const A: usize = 1;

pub const B: usize = 2;

pub const CARRIED: usize = 3;

// The dimensions of a table: n processes, with room for e records each. Both have their upper bounds.
#[derive(Clone, Copy, Drop)]
pub struct Dims {
    pub n: usize,
    pub e: usize,
    ghost few: { (n ≤ 16) × (e ≤ 1024) },
}

impl Dims {
    // n and e, where they are in their ranges. No `TryFrom`: of a pair it would say less by its name.
    pub fn of(n: usize, e: usize) -> Option<Dims>
        ensures { MatchOption result (in_range n e ≡ false) (λ d. (in_range n e ≡ true) × (d.n ≡ n) × (d.e ≡ e)) }
    {
        if (1 <= n) & (n <= 16) & (1 <= e) & (e <= 1024) {
            return Some(Dims { n, e });
        }
        None
    }

    // The table's length in bytes.
    pub fn size(self) -> usize
        ensures { result ≡ size self.n self.e }
    {
        8 + 4 * self.n * (HEADING + WIDTH * self.e)
    }

    // The word at which section p starts.
    pub fn start(self, p: usize) -> usize
        requires { p ≤ 16 }
        ensures { (result ≡ start_of self.e p) × (result ≤ most_words) }
    {
        2 + p * (HEADING + WIDTH * self.e)
    }
}

// x where t holds, else y. Both are computed before the choice: where the loops that call it said `if`, they had branches.
pub fn pick(t: bool, x: usize, y: usize) -> usize
    ensures { result ≡ cond t x y }
{
    if t { x } else { y }
}
