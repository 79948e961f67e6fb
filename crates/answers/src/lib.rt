// The lines that the text program writes (document 01).
#![tactic(auto)]

ghost use Rattle.std.specs.Prelude.{◌≡◌, ◌+◌, ◌*◌, ◌≤◌, length, Ok, MatchResult, IsErrAnd};
ghost use Rattle.rules.specs.Text.{further_fields, line_end, alone_line};
ghost use Rattle.decimal.specs.Output.{page_of, Writes};
ghost use Rattle.answers.specs.Shows.{answer_room, field_or, shown, number_of, returned, count_of, shown_line, told_line};

use decimal::Output;
use fields::Unreadable;
use refusals::Refusal;

// The bytes of an answer area: ten words, as many as a failure line of eight processes has.
pub const AREA_ROOM: usize = 40;

// Room for an answer. Each function that writes one asks for it. An answer as a value, which `text` alone writes, was tried: the text
// program then took 1.4 times as long on empty lines, and 1.04 to 1.7 times on other lines that can't be read.
pub const ANSWER_ROOM: usize = 128;

// Why a line is answered no words.
#[derive(Clone, Copy, Debug, PartialEq, Eq, Drop)]
pub enum Refused {
    // By the call.
    Call(Refusal),
    // The line can't be read, or is a second fresh.
    Line,
}

impl From<Refusal> for Refused {
    ghost use Rattle.std.specs.Prelude.{◌≡◌};
    ghost use Rattle.answers.specs.declared.Refused.TheVariants.{Call};

    ghost from_gives = { λ refusal refused. refused ≡ Call refusal };

    fn from(refusal: Refusal) -> Refused {
        Self::Call(refusal)
    }
}

impl From<Unreadable> for Refused {
    ghost use Rattle.std.specs.Prelude.{◌≡◌};
    ghost use Rattle.answers.specs.declared.Refused.TheVariants.{Line};

    ghost from_gives = { λ _ refused. refused ≡ Line };

    fn from(_unreadable: Unreadable) -> Refused {
        Self::Line
    }
}

// The number that the answer begins with.
impl From<Refused> for u32 {
    ghost from_gives = { λ refused n. n ≡ number_of refused };

    fn from(refused: Refused) -> u32 {
        match refused {
            Refused::Call(refusal) => u32::from(refusal),
            Refused::Line => 99,
        }
    }
}

// What a call is told by: `count` words, or why there are none. What stands for that is the caller's, so that any number can: the program
// tells a refusal by its `Refused`.
pub fn told<E: Drop, F: From<E> + Drop>(outcome: Result<(), E>, count: usize) -> Result<usize, F>
    ensures { MatchResult outcome (λ _. result ≡ Ok count) (λ e. IsErrAnd result (F.from_gives e)) }
{
    outcome?;
    Ok(count)
}

// The number that an answer begins with.
fn returned(told: Result<usize, Refused>) -> u32
    ensures { result ≡ returned told }
{
    match told {
        Ok(_) => 0,
        Err(refused) => u32::from(refused),
    }
}

// Writes a comma and field i of the answer: word i of the area where i is below `count`, else nothing. The area comes whole, since its words
// are counted by what is told.
fn put_field(out: &mut Output, area: &[u8], count: usize, i: usize)
    requires { (11 ≤ length (page_of out.old).rest) × (4 * count ≤ length area.now) }
    ensures text { Writes (page_of out.old) (field_or count area.now i) 11 (page_of out.new) }
    ensures same_reference { out.new.bytes.ghost_name ≡ out.old.bytes.ghost_name }
{
    out.push(b',');
    if i < count {
        decimal::put(out, xdr::get(area, i));
    }
}

// Writes k fields, each after a comma, the first of them the first `count` words of the area.
fn put_fields(out: &mut Output, area: &[u8], count: usize, k: usize)
    requires { (k ≤ 10) × (110 ≤ length (page_of out.old).rest) × (4 * count ≤ length area.now) }
    ensures text { Writes (page_of out.old) (further_fields k (shown count area.now)) 110 (page_of out.new) }
    ensures same_reference { out.new.bytes.ghost_name ≡ out.old.bytes.ghost_name }
{
    for i in 0..k {
        put_field(out, area, count, i);
    }
}

// Writes CR LF.
fn put_end(out: &mut Output)
    requires { 2 ≤ length (page_of out.old).rest }
    ensures text { Writes (page_of out.old) line_end 2 (page_of out.new) }
    ensures same_reference { out.new.bytes.ghost_name ≡ out.old.bytes.ghost_name }
{
    out.push(b'\r');
    out.push(b'\n');
}

// Writes a line of n + 3 fields: the number that a call returned, then the first `count` words of its area.
pub fn put_answer(out: &mut Output, n: usize, returned: u32, count: usize, area: &[u8])
    requires { (n ≤ 8) × (answer_room ≤ length (page_of out.old).rest) × (4 * count ≤ length area.now) }
    ensures text { Writes (page_of out.old) (shown_line n returned count area.now) answer_room (page_of out.new) }
    ensures same_reference { out.new.bytes.ghost_name ≡ out.old.bytes.ghost_name }
{
    decimal::put(out, returned);
    put_fields(out, area, count, n + 2);
    put_end(out);
}

// Writes the line that tells what a line's call returned, on a table of n processes.
pub fn put_told(out: &mut Output, n: usize, told: Result<usize, Refused>, area: &[u8])
    requires { (n ≤ 8) × (answer_room ≤ length (page_of out.old).rest) × (4 * count_of told ≤ length area.now) }
    ensures text { Writes (page_of out.old) (told_line n told area.now) answer_room (page_of out.new) }
    ensures same_reference { out.new.bytes.ghost_name ≡ out.old.bytes.ghost_name }
{
    put_answer(out, n, returned(told), told.unwrap_or(0), area);
}

// Writes a line of the one field v.
pub fn put_alone(out: &mut Output, v: u32)
    requires { answer_room ≤ length (page_of out.old).rest }
    ensures text { Writes (page_of out.old) (alone_line v) answer_room (page_of out.new) }
    ensures same_reference { out.new.bytes.ghost_name ≡ out.old.bytes.ghost_name }
{
    decimal::put(out, v);
    put_end(out);
}
