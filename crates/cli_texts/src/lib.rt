// The sentences that people are shown, and how the sheet of a reply fills the places that they leave open.
#![tactic(auto)]

pub mod room;
pub mod sheet;

use crate::room::Room;
use crate::sheet::Sheet;
use std::io;
use std::io::Write;

// Texts that are no code's.
pub const NO_ESI: u64 = 2010;

pub const LATER_ESI: u64 = 2011;

pub const OVER: u64 = 2012;

pub const NEW_KEY: u64 = 2003;

pub const CURRENT_KEY: u64 = 2004;

pub const TOO_LARGE: u64 = 2034;

pub const BEGINNING: u64 = 3001;

pub const PLACE: u64 = 3002;

pub const HELD: u64 = 3003;

pub const PREVIOUS: u64 = 3004;

pub const CUSTOMER: u64 = 3005;

pub const IDENTITY: u64 = 3006;

pub const STAMP: u64 = 3007;

pub const END: u64 = 3008;

pub const LINES: u64 = 3009;

pub const SENDER: u64 = 3010;

pub const OF_ESI: u64 = 4001;

pub const OF_BATCH: u64 = 4002;

pub const OUTSIDE: u64 = 4003;

pub const OF_FILE: u64 = 4004;

pub const NUMBER: u64 = 5001;

pub const NOTICE: u64 = 5002;

pub const ANSWERED: u64 = 5003;

pub const ENCLOSED: u64 = 5004;

pub const COUNT: u64 = 5005;

pub type Line = Room<1024>;

pub fn write<W: Write>(out: &mut W, l: &Line) -> io::Result<()> {
    out.write_all(l.bytes())
}

// A text: ~ and a letter stand for a piece, ^ for an LF, < and > for the next column.
fn put(l: &mut Line, sheet: &Sheet, text: &str) {
    let mut before = 0;
    for &b in text.as_bytes() {
        match (before, b) {
            (b'~', letter) => l.copy(sheet.piece(letter)),
            (_, b'~') => {}
            (_, b'^') => l.byte(b'\n'),
            (_, b'<') => l.go_on_to(3),
            (_, b'>') => l.go_on_to(12),
            (_, b) => l.byte(b),
        }
        before = b;
    }
}

// The texts with a key. Of a code: what is so, in the words of README.md, 'Replies'; what is known where the messages are at hand;
// what to tell the caller.
fn texts(key: u64) -> (&'static str, &'static str, &'static str) {
    match key {
        1001 => ("accepted", "", ": nothing to do"),
        1002 => (
            "accepted; the previous working key was used, the current one is enclosed",
            ": generation ~z",
            ": take the enclosed key into use",
        ),
        1003 => (
            "accepted; a new working key is enclosed (or the current one, where the previous was used)",
            "",
            ": take the enclosed key into use",
        ),
        1004 => (
            "accepted; no new key, since the customer has no leave to ask for one",
            "",
            ": ask the bank for leave, or don't ask for keys",
        ),
        1005 => (
            "accepted; no new key, since a changeover still runs",
            "",
            ": ask again when it is past",
        ),
        1036 => (
            "accepted; the changeover was ended",
            "",
            ": use the current key only",
        ),
        1037 => (
            "accepted; no changeover was ended: none runs, or the message itself used the previous key",
            "",
            ": use the current key",
        ),
        1010 => (
            "a field's format: ",
            "field ~f of the ~k in line ~J, ~h",
            "field ~f, ~h (a ? may stand for what can't be shown). Mend the sending program and send anew",
        ),
        1011 => (
            "a field's value: ",
            "field ~f of the ~k in line ~J, ~h",
            "field ~f, ~h (a ? may stand for what can't be shown). Mend the sending program and send anew",
        ),
        1012 => (
            "the version is too old",
            ": it is ~A, the floor is ~B (and 111 to 119 are never taken)",
            ": renew the sending program",
        ),
        1013 => (
            "the transport key of that generation isn't valid on the stamp's date",
            ": names transport key ~t",
            ": make the file anew with the current key (the previous one is good for stamps up to the changeover's last day, unless it was dropped); the bank sees the generations and their days with 'show'",
        ),
        1014 => (
            "the working key of that generation isn't valid on the stamp's date",
            ": names working key ~w",
            ": make the file anew with the current key (the previous one is good for stamps up to the changeover's last day, unless it was dropped); the bank sees the generations and their days with 'show'",
        ),
        1015 => (
            "the stamp's date is too old (more than five banking days)",
            "",
            ": look at the sender's clock; make the file anew",
        ),
        1016 => (
            "the stamp's date is after today",
            "",
            ": look at the sender's clock; make the file anew",
        ),
        1017 => (
            "the one-time key was used before",
            ": it is held already",
            ": was it sent twice? the first one counts; if not, make the file anew",
        ),
        1018 => (
            "the time stamp was used before",
            ": it is held already",
            ": was it sent twice? the first one counts; if not, make the file anew",
        ),
        1019 => (
            "the digest differs",
            "",
            ": the data was changed on its way, or made with another key. Send it anew; if it comes again, compare check values",
        ),
        1020 => (
            "the checksum differs",
            "",
            ": the message was changed on its way, or made with another key. Send it anew; if it comes again, compare check values",
        ),
        1021 => (
            "the receiver isn't this bank",
            ": it is ~C qualifier ~D, the bank is ~E qualifier ~F",
            ": the file went to the wrong bank",
        ),
        1023 => (
            "data without a SUO before it",
            "",
            ". The file is damaged or cut short: send it anew",
        ),
        1024 => (
            "a batch without its VAR",
            "",
            ". The file is damaged or cut short: send it anew",
        ),
        1025 => (
            "this data type isn't allowed to the customer",
            ": received as type ~G, allowed: ~H",
            ": look at 'types' with 'show'",
        ),
        1026 => (
            "SUO and VAR differ in ",
            "field ~f: ~u in the SUO in line ~I, ~v in the VAR in line ~K",
            "the field that the notice names: mend the sending program",
        ),
        1031 => (
            "the one-time key's parity is even",
            "",
            ": mend the sending program, or another transport key was used",
        ),
        1032 => (
            "a message is cut short",
            ": the ~k that begins in line ~J",
            ". The file is damaged: send it anew; if it comes again, the message is shorter than the length that it states: mend the sending program",
        ),
        1033 => (
            "no customer has this identity and qualifier",
            "",
            ". Look at both with 'show': the qualifier counts",
        ),
        1034 => (
            "64 live stamps are held, one for each accepted message",
            "",
            ": send again when stamps have become too old (on the sixth banking day after them), and put more payments into a batch",
        ),
        1035 => (
            "the customer is known and has not agreed on PATU",
            "",
            ": make the agreement first",
        ),
        NEW_KEY => (
            "accepted; a new working key is enclosed: generation ~z",
            "",
            "",
        ),
        CURRENT_KEY => (
            "accepted; the current working key is enclosed, since the previous one was used: generation ~z",
            "",
            "",
        ),
        NO_ESI => (
            "the file doesn't begin with an ESI but with ~h",
            "",
            ". Mend the sending program and send anew",
        ),
        LATER_ESI => (
            "a field's value: ",
            "field ~f of the ~k in line ~J, ~h: an ESI stands at a file's beginning alone",
            "a second ESI stands in the file, as where two files were joined. Mend the sending program and send anew",
        ),
        OVER => (
            "a field's format: ",
            "field ~f of the ~k in line ~J, ~h: more than blanks follows the message in its last record",
            "field ~f, ~h: more than blanks follows the message in its last record. Mend the sending program and send anew",
        ),
        TOO_LARGE => (
            "the file is too large",
            ": more than 4,294,967,295 bytes",
            ": send it as several files",
        ),
        BEGINNING => ("~c ~d  ", "", ""),
        PLACE => (", line ~l, byte ~b: ", "", ""),
        HELD => ("; held: ~g", "", ""),
        PREVIOUS => (", and ~p as the previous one up to ~y", "", ""),
        CUSTOMER => (". Customer ~i qualifier ~q", "", ""),
        IDENTITY => (". Identity ~i qualifier ~q", "", ""),
        STAMP => (", stamp ~j ~r ~s", "", ""),
        END => ("^", "", ""),
        LINES => (", lines ~I to ~l, byte ~b: ", "", ""),
        SENDER => (". The file's ESI is of customer ~i qualifier ~q", "", ""),
        OF_ESI => ("ESI", "", ""),
        OF_BATCH => ("batch ~m", "", ""),
        OUTSIDE => ("outside", "", ""),
        OF_FILE => ("file", "", ""),
        NUMBER => ("~o <", "", ""),
        NOTICE => (" >~c ~d  ~n^   ", "", ""),
        ANSWERED => ("customer ~i qualifier ~q, stamp ~j ~r ~s^   ", "", ""),
        ENCLOSED => (
            "customer ~i qualifier ~q, stamp ~j ~r ~s; a key is enclosed^   ",
            "",
            "",
        ),
        COUNT => ("accepted ~a, refused ~e^", "", ""),
        _ => ("a code that this program doesn't give", "", ""),
    }
}

// What is so, and what is known where the messages are at hand.
pub fn add_text(l: &mut Line, sheet: &Sheet, key: u64) {
    let (so, known, _) = texts(key);
    put(l, sheet, so);
    put(l, sheet, known);
}

// What is so, and what to tell the caller.
pub fn add_advice(l: &mut Line, sheet: &Sheet, key: u64) {
    let (so, _, advice) = texts(key);
    put(l, sheet, so);
    put(l, sheet, advice);
}
