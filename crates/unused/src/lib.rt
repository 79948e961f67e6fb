// The unused records of a table, which are zeros (document 01, "The table").
#![tactic(auto)]

ghost use Rattle.std.specs.Prelude.{◌≡◌, ◌*◌, ◌≤◌, ◌<◌, length};
ghost use Rattle.xdr.specs.Words.{word};
ghost use Rattle.rules.specs.Table.{width, start as start_of, zeros_at};
ghost use Rattle.tables.specs.Sections.{every, rear_ok};

use events::Records;
use shape::Dims;

// Whether records are unused. Their words are joined, two at a time, so that none has a branch of its own.
fn is_unused(records: &Records) -> bool
    ensures { result ≡ zeros_at (word records.now.bytes.now) records.now.at (width * records.now.count) }
{
    let mut joined = 0;
    for i in 0..2 * records.count {
        joined |= xdr::raw_pair(records.bytes, records.at + 2 * i);
    }
    joined == 0
}

// Whether section p has at most e used records, and zeros behind them.
fn rear(t: &[u8], dims: Dims, p: usize) -> bool
    requires { (p < dims.n) × (4 * start_of dims.e dims.n ≤ length t.now) }
    ensures { result ≡ rear_ok dims.e (word t.now) (start_of dims.e p) }
{
    let at = dims.start(p);
    let c = xdr::get(t, at) as usize;
    if dims.e < c {
        return false;
    }
    let behind = Records {
        bytes: t,
        at: at + shape::HEADING + shape::WIDTH * c,
        count: dims.e - c,
    };
    is_unused(&behind)
}

// Whether that holds of all n sections.
pub fn rears(t: &[u8], dims: Dims) -> bool
    requires { 4 * start_of dims.e dims.n ≤ length t.now }
    ensures { result ≡ every (λ p. rear_ok dims.e (word t.now) (start_of dims.e p)) dims.n }
{
    (0..dims.n).all(|p| rear(t, dims, p))
}
