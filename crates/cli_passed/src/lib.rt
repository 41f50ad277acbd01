// How far a file was taken: its bytes and lines, where the SUO and the VAR on their way begin, and what was answered. The explanations
// say it of each reply.
#![tactic(auto)]

ghost use Rattle.std.specs.Prelude.{◌≤◌, length};

use cli_explain::{Count, Settled};
use session::{Place, Session};

// How far the file was taken, and what was answered. For the explanations alone: how many lines ended, the line of the last byte, the lines
// where the last SUO and the last VAR begin.
#[derive(Clone, Copy)]
pub struct Passed {
    pub bytes: u64,
    pub lines: u64,
    pub line: u64,
    pub suo: u64,
    pub var: u64,
    pub count: Count,
}

// Where the input is cut: before the LF of a line that may begin a message, unless it is the first byte. So each record that begins a
// message ends with the first byte of a part, and the session before it holds its beginning.
pub fn cut_at(input: &[u8]) -> usize
    ensures { result ≤ length input.now }
{
    let mut is_marked = true;
    let mut is_new = false;
    for (i, &b) in input.iter().enumerate() {
        if b == b'\n' && 0 < i && is_marked {
            return i;
        }
        if is_new {
            is_marked = b == b'>';
        }
        is_new = b == b'\n';
    }
    input.len()
}

// How many lines end in the first n bytes.
fn lines_in(bytes: &[u8], n: usize) -> u64 {
    match bytes.get(..n) {
        Some(first) => first.iter().filter(|&&b| b == b'\n').count() as u64,
        None => 0,
    }
}

// The same of all but the last of them.
fn lines_before_last(bytes: &[u8], n: usize) -> u64 {
    lines_in(bytes, n.saturating_sub(1))
}

// Whether the record on its way begins a SUO there, or a VAR.
fn is_suo(s: &Session) -> bool {
    s.gathered.text.starts_with(b">>SUO") && matches!(s.place, Place::Outside | Place::InData)
}

fn is_var(s: &Session) -> bool {
    s.gathered.text.starts_with(b">>VAR") && session::is_data(s.place)
}

impl Passed {
    pub fn begun() -> Passed {
        Passed {
            bytes: 0,
            lines: 0,
            line: 1,
            suo: 0,
            var: 0,
            count: Count::none(),
        }
    }

    // The line after those that ended before.
    fn line_after(&self, ended: u64) -> u64 {
        self.lines.wrapping_add(ended).wrapping_add(1)
    }

    // With the lines where a SUO or a VAR begins, if the record that is about to end begins one.
    pub fn marked_at_end(&self, s: &Session) -> Passed {
        let line = self.line_after(0);
        Passed {
            suo: if is_suo(s) { line } else { self.suo },
            var: if is_var(s) { line } else { self.var },
            ..*self
        }
    }

    // The same where the input begins with the record's LF.
    pub fn marked_by(&self, s: &Session, input: &[u8]) -> Passed {
        if input.starts_with(b"\n") {
            return self.marked_at_end(s);
        }
        *self
    }

    // How far the file was taken after a call that took so many bytes of the input.
    pub fn after(&self, input: &[u8], taken: usize, reply: &[u8]) -> Passed {
        let line = self.line_after(lines_before_last(input, taken));
        Passed {
            bytes: self.bytes.wrapping_add(taken as u64),
            lines: self.lines.wrapping_add(lines_in(input, taken)),
            line: if taken == 0 { self.line } else { line },
            count: self.count.with(reply),
            ..*self
        }
    }

    // The same where nothing is explained: bytes alone are counted.
    pub fn plainly_after(&self, taken: usize) -> Passed {
        Passed {
            bytes: self.bytes.wrapping_add(taken as u64),
            count: self.count,
            ..Passed::begun()
        }
    }

    // A SUO that ends a frame begins the next one: the reply is about the one before it.
    fn suo_answered(&self, marked: &Passed, s: &Session, is_first: bool) -> u64 {
        if is_first && session::is_data(s.place) {
            return self.suo;
        }
        marked.suo
    }

    // Where a reply was settled: at the last byte that was taken.
    pub fn at_step(&self, marked: &Passed, s: &Session, input: &[u8], taken: usize) -> Settled {
        Settled {
            line: self.line_after(lines_before_last(input, taken)),
            byte: self.bytes.wrapping_add(taken as u64),
            suo: self.suo_answered(marked, s, taken == 1),
            var: marked.var,
        }
    }

    // Where a reply was settled that the file's end gives: in the line of its last byte.
    pub fn at_end(&self, marked: &Passed, s: &Session) -> Settled {
        Settled {
            line: self.line,
            byte: self.bytes,
            suo: self.suo_answered(marked, s, true),
            var: marked.var,
        }
    }
}
