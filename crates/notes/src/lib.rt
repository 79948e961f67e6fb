// Notes of the messages in transit at a cut (document 02, slip 1).
//
// Where the sends of some processes go is noted, one process behind the other, as many as there is room for, and what the receivers have
// got is struck: the notes that are left are the messages in transit. So no message is searched for, and a pass over the records serves
// all senders that are noted.
#![tactic(auto)]

mod cut;

ghost use Rattle.std.specs.Prelude.{◌≡◌, cond, ◌+◌, ◌≤◌, ◌<◌, ltb, length};
ghost use Rattle.rules.specs.Records.{sends};
ghost use Rattle.events.specs.Events.{held};
ghost use Rattle.cuts.specs.Notes.{noted};
ghost use Rattle.notes.specs.Noted.{HasRoom, none_from, grown, Noted, has, Has, sent_by, left_in, messages_of};

pub use cut::Cut;
use cuts::Span;
use events::Records;
use std::marker::Model;

// The senders that are noted: from process `from` on, before `next`. `spans` has where each is noted, and `many` is how many notes there
// are.
#[derive(Clone, Copy, Drop)]
pub struct Senders {
    pub from: usize,
    pub next: usize,
    pub many: usize,
    pub spans: [Span; 16],
}

impl Senders {
    // Nobody yet, of those from process q on.
    pub fn none(q: usize) -> Senders
        ensures { result ≡ none_from q }
    {
        Senders {
            from: q,
            next: q,
            many: 0,
            spans: [Span { start: 0, count: 0 }; 16],
        }
    }

    // One more, of which this many sends are noted behind the others.
    fn add(&mut self, count: usize)
        requires { (self.old.next < 16) × (self.old.many < 65536) × (count < 65536) }
        ensures { self.new ≡ grown self.old count }
    {
        let many = self.many;
        let next = self.next;
        self.many = many + count;
        self.next = next + 1;
        self.spans[next] = Span {
            start: many as u16,
            count: count as u16,
        };
    }

    // Notes where the sends of process `next` go, by its records, if there is room: it has no more of them than records. Whether there was.
    pub fn note(&mut self, records: &Records, to: &mut [u8]) -> bool
        requires { (self.old.next < 16) × (self.old.many < length to.old) × (length to.old ≤ 65536) }
        ensures room { result ≡ ltb (self.old.many + records.now.count) (length to.old) }
        ensures senders { self.new ≡ cond result (grown self.old (sends (held records.now))) self.old }
        ensures notes { to.new ≡ cond result (noted self.old.many (held records.now) to.old) to.old }
    {
        let room = self.many + records.count < to.len();
        if room {
            let count = cuts::note(records, self.many, to);
            self.add(count);
        }
        room
    }
}

// A cut, with room for the notes of any one process.
#[derive(Drop)]
struct Room<'a> {
    cut: Cut<'a>,
    to: &'a mut [u8],
    ghost enough: { HasRoom cut (length to.now) },
}

// Each method says which notes there are then, and that the cut is the same: this changes from one to the next, so that no type has it.
impl<'a> Room<'a> {
    // Notes where the sends in the cut go, of as many processes from q on as there is room for.
    fn note_sends(&mut self, q: usize) -> Senders
        requires { q < self.old.cut.table.n }
        ensures { Noted self.old.cut 0 result self.new.to.now × (self.new.cut ≡ self.old.cut) × (result.from ≡ q) × (q < result.next) }
    {
        let cut = self.cut;
        let mut senders = Senders::none(q);
        for p in q..cut.table.n {
            if !senders.note(&cut.part(p), self.to) {
                break;
            }
        }
        senders
    }

    // Strikes what the processes have received in the cut.
    fn strike_receipts(&mut self, senders: &Senders)
        requires { Noted self.old.cut 0 senders.now self.old.to.now }
        ensures { Noted self.old.cut self.old.cut.table.n senders.now self.new.to.now × (self.new.cut ≡ self.old.cut) }
    {
        let cut = self.cut;
        for p in 0..cut.table.n {
            cuts::strike_by_place(&cut.part(p), &senders.spans, p as u8, self.to);
        }
    }

    // Notes the messages in transit, of as many senders from q on as there is room for.
    fn note_transit(&mut self, q: usize) -> Senders
        requires { q < self.old.cut.table.n }
        ensures { Noted self.old.cut self.old.cut.table.n result self.new.to.now × (self.new.cut ≡ self.old.cut) × (result.from ≡ q) × (q < result.next) }
    {
        let senders = self.note_sends(q);
        self.strike_receipts(&senders);
        senders
    }
}

// The messages in transit at a cut, noted for some senders at a time. A clause sees the cut and which senders these are.
#[derive(Drop)]
pub struct Notes<'a> {
    room: Room<'a>,
    senders: Senders,
}

impl<'a> Model for Notes<'a> {
    ghost use Rattle.notes.specs.Noted.{Noting, Noted};

    ghost Value = { Noting };

    ghost view = { λ s. record { cut = s.room.cut; from = s.senders.from; next = s.senders.next } };

    ghost invariant = { λ s. Noted s.room.cut s.room.cut.table.n s.senders s.room.to.now };
}

impl<'a> Notes<'a> {
    // Of a cut, where nobody is noted yet.
    pub fn new(cut: Cut<'a>, to: &'a mut [u8]) -> Notes<'a>
        requires { HasRoom cut (length to.old) }
        ensures { result.cut ≡ cut.entry }
    {
        Notes {
            room: Room { cut, to },
            senders: Senders::none(0),
        }
    }

    pub fn cut(&self) -> Cut<'a>
        ensures { result ≡ self.now.cut }
    {
        self.room.cut
    }

    // Whether process q is noted.
    pub fn has(&self, q: usize) -> bool
        ensures { result ≡ has self.now q }
    {
        self.senders.from <= q && q < self.senders.next
    }

    // Notes process q, unless it is noted, and others behind it.
    pub fn note(&mut self, q: usize)
        requires { q < self.old.cut.table.n }
        ensures { (self.new.cut ≡ self.old.cut) × Has self.new q }
    {
        if !self.has(q) {
            self.senders = self.room.note_transit(q);
        }
    }

    // The notes of process q's sends in the cut, by their numbers: those that are left are its messages in transit.
    pub fn of(&self, q: usize) -> &[u8]
        requires { Has self.now q }
        ensures many { length result.now ≡ sent_by self.now.cut q }
        ensures left { left_in q 0 result.now ≡ messages_of self.now.cut q }
    {
        let senders = &self.senders;
        let span = &senders.spans[q];
        let start = usize::from(span.start) + 1;
        &self.room.to[start..start + usize::from(span.count)]
    }
}
