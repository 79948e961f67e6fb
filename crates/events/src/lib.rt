// The records of one process as a lent table holds them, oldest first (document 01, "The table").
#![tactic(auto)]

ghost use Rattle.std.specs.Prelude.{◌≡◌, ◌+◌, ◌*◌, ◌≤◌, ◌<◌, length, IfSome};
ghost use Rattle.xdr.specs.Words.{word};
ghost use Rattle.rules.specs.Table.{width};
ghost use Rattle.rules.specs.Lines.{upto};
ghost use Rattle.rules.specs.FailureLine.{any};

// A record by its kind: what its words say.
#[derive(Clone, Copy, Drop)]
pub enum Event {
    Basic { number: u32 },
    Forced { number: u32 },
    Sent { to: u32, k: u32, carried: u32 },
    Received { from: u32, k: u32, carried: u32 },
}

// Its words: kind, a, b and, for a send or receipt, what it carries.
impl From<Event> for [u32; 4] {
    ghost use Rattle.events.specs.Events.{words_of};

    ghost from_gives = { λ event words. words ≡ words_of event };

    fn from(event: Event) -> [u32; 4] {
        match event {
            Event::Basic { number } => [1, number, 0, 0],
            Event::Forced { number } => [2, number, 0, 0],
            Event::Sent { to, k, carried } => [3, to, k, carried],
            Event::Received { from, k, carried } => [4, from, k, carried],
        }
    }
}

// `count` records of a lent table, from word `at` on. No part of a slice: what is read is then `word t i` of the definitions, and no law
// about parts is needed.
#[derive(Clone, Copy, Drop)]
pub struct Records<'a> {
    pub bytes: &'a [u8],
    pub at: usize,
    pub count: usize,
    ghost few: { count ≤ 1024 },
    ghost within: { 4 * (at + width * count) ≤ length bytes.now },
}

// A test of a record.
pub trait Test {
    ghost use Rattle.std.specs.Prelude.{Bool};
    ghost use Rattle.rules.specs.Records.{Event as Meant};
    ghost use Rattle.events.specs.Events.{meant};

    // whether the record that is meant passes
    ghost passes: { Self → Meant → Bool };

    fn test(&self, event: Event) -> bool
        ensures { result ≡ passes self.now (meant event) };
}

impl<'a> Records<'a> {
    ghost use Rattle.events.specs.Events.{meant, record_of, numbers_of, Spells, held, first_index};

    // The record at index i. Words become events here, and events words in `From`: a kind is a number there, and where words are tested
    // that may be no table's (used).
    pub fn get(&self, i: usize) -> Event
        requires { i < self.now.count }
        ensures event { meant result ≡ record_of self.now i }
        ensures sent { Spells (word self.now.bytes.now) (self.now.at + width * i) result }
    {
        let at = self.at + shape::WIDTH * i;
        let a = xdr::get(self.bytes, at + shape::A);
        let b = xdr::get(self.bytes, at + shape::B);
        let carried = xdr::get(self.bytes, at + shape::CARRIED);
        match xdr::get(self.bytes, at) {
            4 => Event::Received {
                from: a,
                k: b,
                carried,
            },
            3 => Event::Sent {
                to: a,
                k: b,
                carried,
            },
            2 => Event::Forced { number: a },
            _ => Event::Basic { number: a },
        }
    }

    // The words a and b of the record at index i, whatever its kind: of a receipt, the sender and the send number.
    pub fn numbers(&self, i: usize) -> (u32, u32)
        requires { i < self.now.count }
        ensures { result ≡ numbers_of self.now i }
    {
        let at = self.at + shape::WIDTH * i;
        (
            xdr::get(self.bytes, at + shape::A),
            xdr::get(self.bytes, at + shape::B),
        )
    }

    // The first i records.
    #[tactic(auto, using(tables::proofs::Scans::records_upto))]
    pub fn upto(&self, i: usize) -> Records<'a>
        requires { i ≤ self.now.count }
        ensures { held result ≡ upto i (held self.now) }
    {
        Records {
            bytes: self.bytes,
            at: self.at,
            count: i,
        }
    }

    // Where the first is that passes.
    #[tactic(auto, using(crate::proofs::First::first_found))]
    pub fn first<T: Test>(&self, test: &T) -> Option<usize>
        ensures first { result ≡ first_index (T.passes test.now) (held self.now) }
        ensures within { IfSome result (λ i. i < self.now.count) }
    {
        for i in 0..self.count {
            if test.test(self.get(i)) {
                return Some(i);
            }
        }
        None
    }

    // Whether one passes.
    pub fn any<T: Test>(&self, test: &T) -> bool
        ensures { result ≡ any (T.passes test.now) (held self.now) }
    {
        self.first(test).is_some()
    }
}
