// Characters put into a room, one after another: what is over is cut.

// Characters from a room's beginning on. The rest of it is blank, so that a column is reached by going on.
#[derive(Clone, Copy)]
pub struct Room<const N: usize> {
    bytes: [u8; N],
    end: usize,
}

impl<const N: usize> Room<N> {
    pub fn blank() -> Room<N> {
        Room {
            bytes: [b' '; N],
            end: 0,
        }
    }

    // What was put.
    pub fn bytes(&self) -> &[u8] {
        match self.bytes.get(..self.end) {
            Some(bytes) => bytes,
            None => &self.bytes,
        }
    }

    pub fn byte(&mut self, b: u8) {
        self.end = put_byte(&mut self.bytes, self.end, b);
    }

    // Characters as they stand.
    pub fn copy(&mut self, s: &[u8]) {
        for &b in s {
            self.byte(b);
        }
    }

    // Characters as people are shown them.
    pub fn shown(&mut self, s: &[u8], letters: bool) {
        self.end = put_all(&mut self.bytes, self.end, s, letters);
    }

    pub fn number(&mut self, n: u64) {
        let mut digits = [0u8; 20];
        text::write_number(&mut digits, n);
        self.copy(without_zeros(&digits));
    }

    // The data types of a mask, in which type k is bit k - 1.
    pub fn types(&mut self, mask: u32) {
        if mask == 0 {
            self.copy(b"none");
        }
        let begun = self.end;
        for k in 0u32..16 {
            if mask >> k & 1 == 1 {
                if begun < self.end {
                    self.byte(b',');
                }
                self.number(k as u64 + 1);
            }
        }
    }

    // What was received, in quotes.
    pub fn quoted(&mut self, s: &[u8]) {
        self.byte(b'"');
        self.shown(s, false);
        self.byte(b'"');
    }

    // Goes on to a column, where that is still to come.
    pub fn go_on_to(&mut self, column: usize) {
        self.end = self.end.max(column);
    }
}

fn put_byte(out: &mut [u8], at: usize, b: u8) -> usize {
    if out.len() <= at {
        return at;
    }
    out[at] = b;
    at + 1
}

// A character as people are shown it: what a terminal might obey is '?', and so is a letter past ASCII where none is asked for.
fn shown(b: u8, letters: bool) -> char {
    match b {
        0x20..=0x7E => char::from(b),
        0xA0..=0xFF if letters => char::from(b),
        _ => '?',
    }
}

// Latin-1 characters, as they are shown, in UTF-8 from a place on, and the place after them.
pub fn put_all(out: &mut [u8], at: usize, s: &[u8], letters: bool) -> usize {
    let mut end = at;
    for &b in s {
        for &part in shown(b, letters).encode_utf8(&mut [0u8; 4]).as_bytes() {
            end = put_byte(out, end, part);
        }
    }
    end
}

// Whether all of it is shown as it stands.
pub fn is_shown(s: &[u8]) -> bool {
    s.iter().all(|&b| shown(b, false) == char::from(b))
}

// Digits without the zeros at their beginning; a last one stays.
fn without_zeros(digits: &[u8; 20]) -> &[u8] {
    match digits.iter().position(|&d| d != b'0') {
        Some(first) => &digits[first..],
        None => b"0",
    }
}

// How long a text is without the blanks at its end.
pub fn trimmed(s: &[u8]) -> usize {
    match s.iter().rposition(|&b| b != b' ') {
        Some(last) => last + 1,
        None => 0,
    }
}
