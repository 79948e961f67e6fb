// Reading a line of the text program (document 01).
#![tactic(auto)]

ghost use Rattle.std.specs.Prelude.{◌≡◌, ◌≢◌, [], ◌∷◌, Ok, MatchOption, length};
ghost use Rattle.rules.specs.Text.{asked, word_of, fields_from, read_line};
ghost use Rattle.fields.specs.Fields.{field_as};
ghost use Rattle.reading.specs.Meanings.{word_as, reading_of};

use fields::{Unreadable, cut, read_field};

// The word of a line.
#[derive(Clone, Copy, Debug, PartialEq, Eq, Drop)]
enum Word {
    Fresh,
    Checkpoint,
    Send,
    Receipt,
    Line,
    Failed,
}

// What a line says.
#[derive(Clone, Copy, Debug, PartialEq, Eq, Drop)]
pub enum Call {
    Fresh { n: u32, e: u32 },
    Checkpoint { p: u32 },
    Send { p: u32, q: u32 },
    Receipt { p: u32, q: u32, k: u32 },
    Line { number: u32 },
    Failed { mask: u32 },
}

// The word that these bytes are. No `TryFrom`: one line calls it.
#[tactic(auto, using(crate::proofs::Words::words))]
fn read_word(s: &[u8]) -> Result<Word, Unreadable>
    ensures { word_as result ≡ word_of s.now }
{
    match s {
        b"fresh" => Ok(Word::Fresh),
        b"checkpoint" => Ok(Word::Checkpoint),
        b"send" => Ok(Word::Send),
        b"receipt" => Ok(Word::Receipt),
        b"line" => Ok(Word::Line),
        b"failed" => Ok(Word::Failed),
        _ => Err(Unreadable),
    }
}

// The call of a word with the fields x, y and z.
fn with_fields(
    word: Word,
    x: Option<u32>,
    y: Option<u32>,
    z: Option<u32>,
) -> Result<Call, Unreadable>
    ensures { reading_of result ≡ asked (word_as (Ok word)) (field_as (Ok x)) (field_as (Ok y)) (field_as (Ok z)) }
{
    match (word, x, y, z) {
        (Word::Fresh, Some(n), Some(e), None) => Ok(Call::Fresh { n, e }),
        (Word::Checkpoint, Some(p), None, None) => Ok(Call::Checkpoint { p }),
        (Word::Send, Some(p), Some(q), None) => Ok(Call::Send { p, q }),
        (Word::Receipt, Some(p), Some(q), Some(k)) => Ok(Call::Receipt { p, q, k }),
        (Word::Line, Some(number), None, None) => Ok(Call::Line { number }),
        (Word::Failed, Some(mask), None, None) => Ok(Call::Failed { mask }),
        _ => Err(Unreadable),
    }
}

// The fields of a line that has four.
fn four_fields(s: &[u8]) -> Option<(&[u8], &[u8], &[u8], &[u8])>
    ensures { MatchOption result (length (fields_from [] s.now) ≢ 4) (λ f. fields_from [] s.now ≡ f.0.now ∷ f.1.now ∷ f.2.now ∷ f.3.now ∷ []) }
{
    let (word, s) = cut(s)?;
    let (x, s) = cut(s)?;
    let (y, z) = cut(s)?;
    match cut(z) {
        None => Some((word, x, y, z)),
        Some(_) => None,
    }
}

// What a line says, its CR LF left out.
pub fn read_line(s: &[u8]) -> Result<Call, Unreadable>
    ensures { reading_of result ≡ read_line s.now }
{
    if s.len() > 64 {
        return Err(Unreadable);
    }
    let (word, x, y, z) = four_fields(s).ok_or(Unreadable)?;
    with_fields(
        read_word(word)?,
        read_field(x)?,
        read_field(y)?,
        read_field(z)?,
    )
}
