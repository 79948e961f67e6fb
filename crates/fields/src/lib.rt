// The fields of a line of the text program (document 01).
#![tactic(auto)]

ghost use Rattle.std.specs.Prelude.{◌≡◌, [], ◌∷◌, MatchOption};
ghost use Rattle.rules.specs.Text.{field_of, fields_from};
ghost use Rattle.fields.specs.Fields.{field_as};

// A line, or a field of it, that says nothing.
#[derive(Clone, Copy, Debug, PartialEq, Eq, Drop)]
pub struct Unreadable;

// A field after the word: empty, or a number of 1 to 10 digits and at most 32 bits.
pub fn read_field(s: &[u8]) -> Result<Option<u32>, Unreadable>
    ensures { field_as result ≡ field_of s.now }
{
    if s.is_empty() {
        return Ok(None);
    }
    if s.len() > 10 {
        return Err(Unreadable);
    }
    // No `parse`: it takes a sign.
    let mut v: u64 = 0;
    for b in s {
        if !b.is_ascii_digit() {
            return Err(Unreadable);
        }
        v = 10 * v + u64::from(*b - b'0');
    }
    u32::try_from(v).map(Some).or(Err(Unreadable))
}

// The bytes before the first comma, and those behind it.
pub fn cut(s: &[u8]) -> Option<(&[u8], &[u8])>
    ensures { MatchOption result (fields_from [] s.now ≡ s.now ∷ []) (λ p. fields_from [] s.now ≡ p.0.now ∷ fields_from [] p.1.now) }
{
    let i = s.iter().position(|b| *b == b',')?;
    Some((&s[..i], &s[i + 1..]))
}
