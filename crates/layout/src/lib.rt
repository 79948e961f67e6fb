// The lent table: whether it is well laid, its rows, and fresh tables (document 01, "The table" and rows 1 to 3).
#![tactic(auto)]

ghost use Rattle.std.specs.Prelude.{◌≡◌, ℕ, ◌+◌, ◌*◌, ◌≤◌, ◌<◌, length, get_or, []};
ghost use Rattle.xdr.specs.Words.{word};
ghost use Rattle.rules.specs.Table.{start as start_of, most_words, sections_ok};
ghost use Rattle.rules.specs.Calls.{outcome, first, table_rows, fresh_on};
ghost use Rattle.layout.specs.Laid.{Laid};
ghost use Rattle.refusals.specs.Refusals.{returned};

use events::Records;
use refusals::Refusal;
use shape::Dims;
use used::Limits;

// What the used records of a table are tested with.
fn limits(dims: Dims) -> Limits
    ensures { result.dims ≡ dims }
{
    let Dims { n, e } = dims;
    let checkpoint = (used::REST - n * e) * used::UPPER + used::REST;
    let message = (used::TOP - n) * used::UPPER + used::REST;
    Limits {
        dims,
        room: [used::TOP_NONE, checkpoint, checkpoint, message, message - e],
        floor: [
            used::REST_REST,
            used::REST_REST,
            used::REST_REST,
            used::TOP_REST,
            used::TOP_TOP,
        ],
        masks: [0, 0, 0, 0, 18446744073709551615, 0],
    }
}

// Whether all n sections are well laid. That the bytes reach that far is asked for by each function of this test alone: a type for it would
// have the dimensions twice, since the limits are made for them. The limits are made before the first loop, so that the second does not
// read what was written right before. The sections are gone through twice, each time for a part of its own: a loop that looks at both has
// more at hand than there are registers.
fn sections_ok(t: &[u8], dims: Dims) -> bool
    requires { 4 * start_of dims.e dims.n ≤ length t.now }
    ensures { result ≡ sections_ok dims.n dims.e (word t.now) dims.n }
{
    let limits = limits(dims);
    unused::rears(t, dims) && used::fronts(t, &limits)
}

// Whether bytes are a well laid table, or the first of a table's own rows that is met.
#[inline(never)]
fn table_row(bytes: &[u8]) -> Result<(), Refusal>
    ensures { returned result ≡ first (table_rows bytes.now) }
{
    if bytes.len() < 8 {
        return Err(Refusal::BadTableLength);
    }
    let n = xdr::get(bytes, 0) as usize;
    let e = xdr::get(bytes, 1) as usize;
    let Some(dims) = Dims::of(n, e) else {
        return Err(Refusal::BadDimensions);
    };
    if bytes.len() != dims.size() {
        return Err(Refusal::BadTableLength);
    }
    if !sections_ok(bytes, dims) {
        return Err(Refusal::NotWellLaid);
    }
    Ok(())
}

// A process's section: the word at which it starts, and what its heading says.
#[derive(Clone, Copy, Drop)]
pub struct Section {
    pub at: usize,
    pub count: u32,
    pub number: u32,
    pub sends: u32,
    ghost near: { at ≤ most_words },
    ghost few: { count ≤ 1024 },
}

// A lent table that is well laid, of n processes with room for e records each. They stand apart here, since clauses name one or the other.
#[derive(Clone, Copy, Drop)]
pub struct Table<'a> {
    pub bytes: &'a [u8],
    pub n: usize,
    pub e: usize,
    ghost small: { (i : ℕ) → get_or bytes.now i 0 < 256 },
    ghost laid: { Laid bytes.now n e },
}

impl<'a> Table<'a> {
    ghost use Rattle.std.specs.Prelude.{IfOk};
    ghost use Rattle.rules.specs.Records.{history, sends};
    ghost use Rattle.events.specs.Events.{held};
    ghost use Rattle.tables.specs.Sections.{SendsLaid};
    ghost use Rattle.layout.specs.Tables.{state_of, Heads};

    // The table, or the first of its own rows that is met. Only the rows are looked at out of line: what they answer fits in a register.
    #[inline(always)]
    pub fn read(bytes: &'a [u8]) -> Result<Table<'a>, Refusal>
        ensures row { returned result ≡ first (table_rows bytes.now) }
        ensures table { IfOk result (λ t. t.bytes.now ≡ bytes.now) }
    {
        table_row(bytes)?;
        let n = xdr::get(bytes, 0) as usize;
        let e = xdr::get(bytes, 1) as usize;
        Ok(Table { bytes, n, e })
    }

    // Its dimensions.
    fn dims(&self) -> Dims
        ensures { (result.n ≡ self.now.n) × (result.e ≡ self.now.e) }
    {
        Dims {
            n: self.n,
            e: self.e,
        }
    }

    // Process p's section. Each function that is told a process asks that it is one of the table's, as an index of a slice is asked to be.
    pub fn section(&self, p: usize) -> Section
        requires { p < self.now.n }
        ensures { Heads result (start_of self.now.e p) (history (state_of self.now) p) }
    {
        let at = self.dims().start(p);
        Section {
            at,
            count: xdr::get(self.bytes, at),
            number: xdr::get(self.bytes, at + shape::NUMBER),
            sends: xdr::get(self.bytes, at + shape::SENDS),
        }
    }

    // How many records process p has.
    pub fn count(&self, p: usize) -> usize
        requires { p < self.now.n }
        ensures { result ≡ length (history (state_of self.now) p) }
    {
        self.section(p).count as usize
    }

    // Its count of sends.
    pub fn sends(&self, p: usize) -> usize
        requires { p < self.now.n }
        ensures { result ≡ sends (history (state_of self.now) p) }
    {
        self.section(p).sends as usize
    }

    // Its records; the sends among them are numbered in order, and carry the number before them.
    pub fn records(&self, p: usize) -> Records<'a>
        requires { p < self.now.n }
        ensures held { held result ≡ history (state_of self.now) p }
        ensures sends { SendsLaid (word result.bytes.now) result.at result.count }
    {
        let section = self.section(p);
        Records {
            bytes: self.bytes,
            at: section.at + shape::HEADING,
            count: section.count as usize,
        }
    }
}

// Makes t the fresh table of n and e.
pub fn fresh(t: &mut [u8], n: u32, e: u32) -> Result<(), Refusal>
    ensures { outcome (returned result) t.new [] ≡ fresh_on t.old n e }
{
    let Some(dims) = Dims::of(n as usize, e as usize) else {
        return Err(Refusal::BadDimensions);
    };
    if t.len() != dims.size() {
        return Err(Refusal::BadTableLength);
    }
    // Not by `fill`: it stores the last byte on its own, which took the smallest fresh table to 1.10 times plain C.
    for byte in t.iter_mut() {
        *byte = 0;
    }
    xdr::put(t, 0, n);
    xdr::put(t, 1, e);
    Ok(())
}
