// What is filled into the texts: a sheet of pieces, each of 128 characters, blank where nothing is known. A letter names each, here and in
// the texts:
//   a accepted     f field's name   k kind of message   p previous one   u in the SUO     z enclosed key
//   b byte         g held one       l line              q qualifier      v in the VAR     A version
//   c K or E       h its contents   m number of batch   r stamp's time   w working key    B bank's floor
//   d code         i identity       n notice            s its number                      C receiver's identity, D qualifier
//   e refused      j stamp's date   o number of reply   t transport key  y last day       E bank's identity, F qualifier
//   G data type    H types allowed  I SUO's line        J faulty message's line           K VAR's line
use crate::room::{Room, trimmed};

pub type Piece = Room<128>;

// The pieces of a reply's texts.
#[derive(Clone, Copy)]
pub struct Sheet {
    pieces: [Piece; 37],
}

// Where a letter's piece stands: the small letters, then the capitals.
fn place_of(letter: u8) -> usize {
    match letter {
        b'a'..=b'z' => (letter - b'a') as usize,
        b'A'..=b'K' => (letter - b'A') as usize + 26,
        _ => 37,
    }
}

impl Sheet {
    pub fn blank() -> Sheet {
        Sheet {
            pieces: [Room::blank(); 37],
        }
    }

    // The piece that a letter names, without the blanks at its end.
    pub fn piece(&self, letter: u8) -> &[u8] {
        match self.pieces.get(place_of(letter)) {
            Some(piece) => {
                let bytes = piece.bytes();
                bytes.get(..trimmed(bytes)).unwrap_or(bytes)
            }
            None => b"",
        }
    }

    fn set(&mut self, letter: u8, piece: Piece) {
        if let Some(place) = self.pieces.get_mut(place_of(letter)) {
            *place = piece;
        }
    }

    pub fn number(&mut self, letter: u8, n: u64) {
        let mut piece = Room::blank();
        piece.number(n);
        self.set(letter, piece);
    }

    pub fn types(&mut self, letter: u8, mask: u32) {
        let mut piece = Room::blank();
        piece.types(mask);
        self.set(letter, piece);
    }

    pub fn date(&mut self, letter: u8, d: calendar::Date) {
        let mut six = [0u8; 6];
        text::write_number(&mut six, d.yymmdd as u64);
        self.part(letter, &six);
    }

    // Characters of a reply or a message, or words of ours, as they are shown.
    pub fn part(&mut self, letter: u8, s: &[u8]) {
        let mut piece = Room::blank();
        piece.shown(s, false);
        self.set(letter, piece);
    }

    // The same with the letters past ASCII.
    pub fn letters(&mut self, letter: u8, s: &[u8]) {
        let mut piece = Room::blank();
        piece.shown(s, true);
        self.set(letter, piece);
    }

    // The same in quotes.
    pub fn quoted(&mut self, letter: u8, s: &[u8]) {
        let mut piece = Room::blank();
        piece.quoted(s);
        self.set(letter, piece);
    }

    // A name in a field: the blanks at its end are not its own.
    pub fn name(&mut self, letter: u8, s: &[u8]) {
        self.quoted(letter, s.get(..trimmed(s)).unwrap_or(s));
    }
}
