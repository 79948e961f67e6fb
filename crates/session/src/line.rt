ghost use Rattle.std.specs.Prelude.{◌≡◌, ◌&&◌, [], ◌∷◌, ◌++◌, ◌-◌, eqb, length, take};
ghost use Rattle.rules.specs.Text.{ends_in_cr};

use std::marker::Model;

// The bytes that are held of a line, at most.
pub const LINE_ROOM: usize = 66;

// The bytes of the line that has not ended. Of a line of 66 bytes and more the first 65 are held and the last: enough to know that it is
// too long, and whether it ends in CR. A clause sees the bytes that are held. Fixed memory: there is no heap. The bytes behind them stay 0, so
// that those that are held say all of it, as a copy asks.
#[derive(Clone, Copy, Drop)]
pub struct Line {
    bytes: [u8; LINE_ROOM],
    held: usize,
}

impl Model for Line {
    ghost use Rattle.std.specs.Prelude.{◌≡◌, List, ◌++◌, ℕ, ◌≤◌, length, take, drop};
    ghost use Rattle.std.proofs.Common.{arith, length-take-le};
    ghost use Rattle.session.specs.Line.{line_room, unused, line_back};

    ghost Value = { List ℕ };

    ghost view = { λ l. take l.held l.bytes };

    ghost invariant = { λ l. (l.held ≤ line_room) × (length l.bytes ≡ line_room) × (drop l.held l.bytes ≡ unused l.held) };

    ghost inverse = { λ b. record { bytes = b ++ unused (length b); held = length b } };

    ghost inverse_ok = { λ l fits i. record {
      bytes = line_back l.bytes l.held fits.0 fits.1 fits.2 i;
      held = length-take-le l.held l.bytes (omega (arith, fits.0, fits.1)) i;
    } };
}

impl Line {
    pub fn new() -> Line
        ensures { result ≡ [] }
    {
        Line {
            bytes: [0; LINE_ROOM],
            held: 0,
        }
    }

    pub fn bytes(&self) -> &[u8]
        ensures { result.now ≡ self.now }
    {
        &self.bytes[..self.held]
    }

    // Whether the byte ends the line: only CR LF does.
    pub fn ends(&self, byte: u8) -> bool
        ensures { result ≡ (eqb byte 10 && ends_in_cr self.now) }
    {
        byte == b'\n' && matches!(self.bytes(), [.., b'\r'])
    }

    pub fn clear(&mut self)
        ensures { self.new ≡ [] }
    {
        self.bytes = [0; LINE_ROOM];
        self.held = 0;
    }

    // Holds a byte. In a line that is too long already it takes the place of the last.
    #[tactic(auto, using(crate::proofs::Bytes::held_on))]
    pub fn hold(&mut self, byte: u8)
        ensures { self.new ≡ take 65 self.old ++ byte ∷ [] }
    {
        let i = self.held.min(LINE_ROOM - 1);
        self.bytes[i] = byte;
        self.held = i + 1;
    }
}
