// Messages with one field changed, or two, and the fault that each has.

#![tactic(auto)]

use message::{About, Extent, Fault, Kind};

fn say(words: &[u8]) {
    io::write_all(1, words);
}

fn say_number(n: u32) {
    let mut out = [0u8; 3];
    text::write_number(&mut out, n as u64);
    say(&out);
}

// A good message of each kind.
fn good(k: Kind) -> [u8; 161] {
    let mut m = [0x20u8; 161];
    match k {
        Kind::Esi => text::copy(
            &mut m,
            b">>ESI161120 0000SOFTWARE 1      SMH003701234567             CUSTOMER-1       BRANCH 112930415101530001                                          0123456789ABCDEF0",
        ),
        Kind::Suo => text::copy(
            &mut m,
            b">>SUO128120 0000SOFTWARE 1      SKH003701234567             CUSTOMER-1       BRANCH 112930415101530002S         0123456789ABCDEF",
        ),
        Kind::Var => text::copy(
            &mut m,
            b">>VAR161120 0000SOFTWARE 1      SMH003701234567             CUSTOMER-1       BRANCH 112930415101530003A         0123456789ABCDEFFEDCBA987654321000112233445566771",
        ),
    }
    m
}

// Where a field begins.
fn offset_of(number: u32) -> usize {
    match number {
        10 => 0,
        20 => 5,
        30 => 8,
        40 => 11,
        50 => 12,
        60 => 16,
        70 => 32,
        81 => 35,
        82 => 52,
        91 => 60,
        92 => 77,
        100 => 85,
        110 => 86,
        121 => 87,
        122 => 93,
        123 => 99,
        130 => 102,
        140 => 103,
        150 => 112,
        160 => 128,
        170 => 144,
        180 => 160,
        _ => 161,
    }
}

fn put(m: [u8; 161], number: u32, bytes: &[u8]) -> [u8; 161] {
    let mut out = m;
    text::copy(&mut out[offset_of(number).min(161)..], bytes);
    out
}

// What was collected, by its place among the five.
fn extent_of(n: u32) -> Extent {
    match n {
        1 => Extent::TooShort,
        2 => Extent::LengthNotDigits,
        3 => Extent::OtherLength,
        4 => Extent::CutShort,
        _ => Extent::Whole,
    }
}

// A line: the kind, what is put into which fields, and the fault.
fn tell(k: Kind, extent: u32, blank_over: bool, m: [u8; 161]) {
    match message::fault_of(k, About::Answered, extent_of(extent), blank_over, &m) {
        Ok(()) => say(b"-> sound\n"),
        Err(Fault { code, field, about }) => {
            let mut out = [0u8; 4];
            text::write_number(&mut out, code as u64);
            say(b"-> ");
            say(&out);
            say(b" ");
            say_number(field);
            say(b"\n");
        }
    }
}

fn say_kind(k: Kind) {
    match k {
        Kind::Esi => say(b"ESI "),
        Kind::Suo => say(b"SUO "),
        Kind::Var => say(b"VAR "),
    }
}

fn say_put(number: u32, bytes: &[u8]) {
    say_number(number);
    say(b" [");
    say(bytes);
    say(b"] ");
}

// One field changed, beside characters over that are blank or not.
fn one(k: Kind, blank_over: bool, number: u32, bytes: &[u8]) {
    say_kind(k);
    if !blank_over {
        say(b"surplus ");
    }
    say_put(number, bytes);
    tell(k, 0, blank_over, put(good(k), number, bytes));
}

// The same with a text that begins with the field's three digits; an empty one says nothing.
fn numbered(k: Kind, blank_over: bool, words: &[u8]) {
    if words.len() < 3 {
        return;
    }
    let number = (text::number(&words[0..3]) % 1000) as u32;
    one(k, blank_over, number, &words[3..]);
}

fn two(k: Kind, number: u32, bytes: &[u8], other: u32, others: &[u8]) {
    say_kind(k);
    say_put(number, bytes);
    say_put(other, others);
    tell(k, 0, true, put(put(good(k), number, bytes), other, others));
}

// Each of some texts that end in a bar.
fn each(k: Kind, blank_over: bool, texts: &[u8]) {
    for words in texts.split(|&b| b == b'|') {
        numbered(k, blank_over, words);
    }
}

// One record alone.
fn by_itself(k: Kind, alone: u32, blank_over: bool, bytes: &[u8]) {
    say_kind(k);
    if !blank_over {
        say(b"surplus ");
    }
    say(b"alone ");
    say_number(alone);
    say(b" ");
    say_put(10, bytes);
    tell(k, alone, blank_over, put(good(k), 10, bytes));
}

// Fields 1 to 9.2.
fn heads(k: Kind) {
    each(
        k,
        true,
        b"010>>|010>>ESi|010>>XYZ|02016A|020   |020160|020161|020128|03012A|030130|030110|040k|040K|05000 0|0500001|060Software 1|060SOFTWARE&|060!|060%()*+,-./:;<=>?|060%()*+,-./:;<=>|060                |070smh|070SMH|070SKH|070SKE|070SME|081a|081                         |082b|091c|091                         |092d|",
    );
}

// Fields 10 to 12.3.
fn stamps(k: Kind) {
    each(
        k,
        true,
        b"100A|1009|110 |1100|12193041A|121930431|121931301|121010229|121000229|121790101|121930400|12210153A|122240000|122236000|122235960|122235959|122000000|12300 |123999|",
    );
}

// Fields 13 to 18, of which SUO lacks the last three.
fn tails(k: Kind) {
    each(
        k,
        true,
        b"130s|130S|130A|130B|130 |140    a|140        A|1500123456789abcdef|1500123456789ABCDEG|1500000000000000000|150                |160abcdef0123456789|160ABCDEF012345678-|1600000000000000000|160                |1700123456789ABCDEf|1700123456789ABCDEG|170                |170FFFFFFFFFFFFFFFF|1800|1801|1802|1803|180a|180 |",
    );
}

// A fault of the format on one field against another fault.
fn pairs(k: Kind) {
    two(k, 20, b"160", 150, b"x");
    two(k, 30, b"130", 170, b"x");
    two(k, 50, b"0001", 60, b"x");
    two(k, 30, b"12A", 150, b"x");
    two(k, 121, b"93041A", 122, b"10153A");
    two(k, 82, b"x", 92, b"x");
    two(k, 122, b"240000", 123, b"x");
}

// Two faults of the values.
fn values(k: Kind) {
    two(k, 60, b"                ", 140, b"X");
    two(k, 121, b"930431", 122, b"240000");
    two(k, 40, b"K", 180, b"3");
    two(k, 140, b"X", 180, b"3");
}

// Characters over, against other faults.
fn surplus(k: Kind) {
    each(k, false, b"010>>|03012A|010>>ESi|020160|02016A|040K|");
}

// The faults of one record alone, beside other faults.
fn alone(k: Kind) {
    by_itself(k, 1, true, b">>");
    by_itself(k, 1, false, b"x");
    by_itself(k, 2, true, b">>");
    by_itself(k, 2, false, b"x");
    by_itself(k, 3, true, b">>");
    by_itself(k, 3, false, b"x");
    by_itself(k, 4, true, b">>");
    by_itself(k, 4, false, b"x");
}

fn all(k: Kind) {
    heads(k);
    stamps(k);
    tails(k);
    pairs(k);
    values(k);
    surplus(k);
    alone(k);
}

fn main() {
    all(Kind::Esi);
    all(Kind::Suo);
    all(Kind::Var);
}
