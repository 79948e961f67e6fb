// Text in memory that the caller lends, and decimal writing (document 01, "The text program"; slip 6: without a list of powers).
#![tactic(auto)]

ghost use Rattle.std.specs.Prelude.{◌≡◌, ◌≤◌, length};
ghost use Rattle.rules.specs.Text.{decimal};
ghost use Rattle.decimal.specs.Output.{page_of, Writes};

pub use output::Output;

mod output;

// Writes v: first what stands before its last digit, as the definition does. That is at most ten calls, one inside the other.
pub fn put(out: &mut Output, v: u32)
    requires { 10 ≤ length (page_of out.old).rest }
    ensures text { Writes (page_of out.old) (decimal v) 10 (page_of out.new) }
    ensures same_reference { out.new.bytes.ghost_name ≡ out.old.bytes.ghost_name }
{
    let more = v >= 10;
    if more {
        put(out, v / 10);
    }
    out.push(b'0' + (v % 10) as u8);
}
