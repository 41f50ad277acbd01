// Every code of both orders, and every two neighbouring checks that can fail together: each line says what is wrong, then the code and the
// field that it names. (1015 and 1016, and on a sound table 1017 and 1031, never fail together.)
//
// A case is a line of parts between bars: its marks; what is wrong; two texts put into the ESI or VAR before its checksum is made,
// and one after; two texts put into the SUO. A text follows its place, three digits. The marks:
// E or F for an ESI or a frame; the data type; 0, or 1 to 3 for a SUO that is one record alone; the same for the ESI or VAR;
// the one-time key (O right, U used, P of even parity, M none held); the data's digest (D, or N where there are no characters).

#![tactic(auto)]

ghost use Rattle.std.specs.Prelude.{◌≤◌, length};

const WORKING: u64 = 0x0123456789ABCDEF;

const TRANSPORT: u64 = 0xFEDCBA9876543210;

const ONCE: u64 = 0x1313131313131313;

const HELD: u64 = 261112120000001;

const AHEAD: u64 = 261114120000001;

// A text written into a message from a place on.
fn put(m: [u8; 161], at: usize, s: &[u8]) -> [u8; 161] {
    let mut out = m;
    text::copy(&mut out[at.min(161)..], s);
    out
}

fn signed(m: [u8; 161]) -> [u8; 161] {
    let hex = text::hex_digits(digest::checksum(WORKING, &m));
    put(m, 144, &hex)
}

// The fields that all messages share, after the head.
fn common(head: &[u8]) -> [u8; 161] {
    let a = put([b' '; 161], 0, head);
    let b = put(a, 35, b"BANK             QUALIFY ");
    let c = put(b, 60, b"CUSTOMER         BRANCH  ");
    let d = put(c, 85, b"11261113120000001");
    put(d, 160, b"0")
}

fn esi() -> [u8; 161] {
    common(b">>ESI161120 0000SOFTWARE 1.0    SMH")
}

fn suo() -> [u8; 161] {
    let m = put(common(b">>SUO128120 0000SOFTWARE 1.0    SKH"), 102, b"S");
    put(m, 112, b"1313131313131313")
}

fn var() -> [u8; 161] {
    let m = put(common(b">>VAR161120 0000SOFTWARE 1.0    SMH"), 102, b"S");
    put(m, 112, b"13131313131313130123456789ABCDEF")
}

fn show(f: Result<(), message::Fault>) {
    match f {
        Ok(()) => {
            io::write_all(1, b"sound\n");
        }
        Err(message::Fault { code, field, about }) => {
            io::print_decimal(1, code as u64);
            io::write_all(1, b" ");
            io::print_decimal(1, field as u64);
            io::write_all(1, b"\n");
        }
    }
}

fn occasion(kind: u32) -> checks::Occasion {
    let today = calendar::Date { yymmdd: 261113 };
    checks::Occasion {
        today,
        kind,
        clock: 0,
        made: 0,
    }
}

// What was collected, by its place among the five.
fn extent_of(n: u32) -> message::Extent {
    match n {
        1 => message::Extent::TooShort,
        2 => message::Extent::LengthNotDigits,
        3 => message::Extent::OtherLength,
        4 => message::Extent::CutShort,
        _ => message::Extent::Whole,
    }
}

fn collected(extent: u32, m: [u8; 161]) -> message::Collected {
    message::Collected {
        extent: extent_of(extent),
        blank: true,
        text: m,
    }
}

// The part after so many bars; past the last part, an empty one.
fn part_of(line: &[u8], bars: usize) -> &[u8] {
    line.split(|&b| b == b'|').nth(bars).unwrap_or(b"")
}

// A message with one part of a line put in.
fn changed(m: [u8; 161], line: &[u8], bars: usize) -> [u8; 161] {
    let part = part_of(line, bars);
    if part.len() < 3 {
        return m;
    }
    put(m, text::number(&part[..3]) as usize, &part[3..])
}

// An ESI or VAR as a line changes it.
fn closed(m: [u8; 161], line: &[u8]) -> [u8; 161] {
    changed(signed(changed(changed(m, line, 2), line, 3)), line, 4)
}

fn digit(b: u8) -> u32 {
    u32::from(b.saturating_sub(b'0'))
}

fn once_of(mark: u8) -> Option<u64> {
    match mark {
        b'U' => Some(WORKING),
        b'P' => Some(0),
        b'M' => None,
        _ => Some(ONCE),
    }
}

fn digest_of(mark: u8) -> Option<u64> {
    match mark {
        b'N' => None,
        _ => Some(WORKING),
    }
}

fn esi_case(t: &[u8], line: &[u8], marks: [u8; 6]) {
    let m = collected(digit(marks[3]), closed(esi(), line));
    show(checks::check_esi(t, occasion(digit(marks[1])), m));
}

fn frame_of(line: &[u8], marks: [u8; 6]) -> checks::Frame {
    checks::Frame {
        suo: collected(digit(marks[2]), changed(changed(suo(), line, 5), line, 6)),
        var: collected(digit(marks[3]), closed(var(), line)),
        once: once_of(marks[4]),
        digest: digest_of(marks[5]),
    }
}

fn frame_case(t: &[u8], line: &[u8], marks: [u8; 6]) {
    show(checks::check_frame(t, occasion(digit(marks[1])), frame_of(line, marks)));
}

fn said(line: &[u8]) {
    io::write_all(1, part_of(line, 1));
    io::write_all(1, b": ");
}

fn judged(t: &[u8], line: &[u8]) {
    let mut marks = [b' '; 6];
    text::copy(&mut marks, line);
    said(line);
    if marks[0] == b'E' {
        esi_case(t, line, marks);
    } else {
        frame_case(t, line, marks);
    }
}

// Each line of some cases.
fn each(t: &[u8], lines: &[u8]) {
    for line in lines.split_inclusive(|&b| b == b'\n') {
        if let [line @ .., b'\n'] = line {
            judged(t, line);
        }
    }
}

fn customer_of(who: [u8; 25], agreed: bool, count: u32, stamp: u64) -> customer::Customer {
    let transport = customer::KeyPair {
        generation: 1,
        key: TRANSPORT,
        previous: None,
    };
    let working = customer::KeyPair {
        key: WORKING,
        ..transport
    };
    customer::Customer {
        who,
        types: 1,
        agreed,
        leave: true,
        length: calendar::CalendarDays(10),
        transport,
        working,
        count,
        stamps: [stamp; 64],
        once: [WORKING; 64],
    }
}

fn settings() -> customer::Settings {
    let maker = keys::KeyMaker {
        key: WORKING,
        seed: TRANSPORT,
    };
    customer::Settings {
        bank: *b"BANK             QUALIFY ",
        software: *b"BANKWARE 1.0    ",
        floor: 120,
        maker,
    }
}

fn esi_form(t: &[u8]) {
    each(
        t,
        b"E100OD|ESI|000>>ESI
E101OD|ESI too short
E102OD|ESI length not digits
E103OD|ESI length not the layout's
E100OD|ESI format|016a
E100OD|ESI value|011K
E100OD|ESI format and value|016a|011K
E100OD|ESI value and version|011K|008110
E100OD|ESI version|008110
E100OD|ESI version and receiver|008110|035X
E100OD|ESI of version 130|008130
E100OD|ESI of version 130 and length 162|005162|008130
E100OD|ESI of length 162|005162
E100OD|ESI of length 162 and version 110|005162|008110
E100OD|ESI of length 162 and version 119|005162|008119
E100OD|ESI of version 100 and receiver|008100|035X
",
    );
}

fn esi_parties(t: &[u8]) {
    each(
        t,
        b"E100OD|ESI receiver|035X
E100OD|ESI receiver's qualifier|052X
E100OD|ESI receiver and sender|035X|060X
E100OD|ESI sender, who is then not agreed|060X
E100OD|ESI sender's qualifier|077X
E100OD|ESI agreement|060SECOND  
E100OD|ESI agreement and old date|060SECOND  |087261101
E100OD|ESI old date|087261101
E100OD|ESI old date and transport generation|087261101|0852
E100OD|ESI date ahead|087261114
E100OD|ESI date ahead and stamp held|060AHEAD   |087261114
",
    );
}

fn esi_keys(t: &[u8]) {
    each(
        t,
        b"E100OD|ESI stamp held|087261112
E100OD|ESI stamp held and transport generation|087261112|0852
E100OD|ESI transport generation|0852
E100OD|ESI both generations|0852|0862
E100OD|ESI working generation, and so no checksum|0862
E100OD|ESI checksum|||1440000
E100OD|ESI checksum and room|060FULL    ||1440000
E100OD|ESI room|060FULL    
",
    );
}

fn frame_form(t: &[u8]) {
    each(
        t,
        b"F100OD|frame|102S|||102S
F110OD|SUO too short
F120OD|SUO length not digits
F131OD|SUO length not the layout's, VAR too short
F100OD|SUO format||||102x
F100OD|SUO format and value||||102x|011K
F100OD|SUO value||||011K
F101OD|VAR too short
F102OD|VAR length not digits
F100OD|VAR format|016a
F100OD|VAR format and value|016a|011K
F100OD|VAR value|011K
F100OD|VAR value and version|011K|||008110
F100OD|SUO of length 129||||005129
F100OD|VAR of length 162|005162
F100OD|frame of version 130|008130|||008130
F100OD|frame of version 130 and unlike lengths|005162|008130||005500|008130
",
    );
}

fn frame_parties(t: &[u8]) {
    each(
        t,
        b"F100OD|frame version|008110|||008110
F100OD|frame version and receiver|008110|035X||008110|035X
F100OD|frame of version 111|008111|||008111
F100OD|frame receiver|035X|||035X
F100OD|frame receiver and sender|035X|060X||035X|060X
F100OD|frame sender, who is then not agreed|060X|||060X
F100OD|frame agreement|060SECOND  |||060SECOND  
F200OD|frame agreement and data type|060SECOND  |008120||060SECOND  |008120
F200OD|frame data type
F200OD|frame data type and versions|008110
",
    );
}

fn frame_fields(t: &[u8]) {
    each(
        t,
        b"F100OD|unequal versions|008110
F100OD|unequal versions, the VAR's too old|008100
F100OD|unequal versions, both newer|008130|||008131
F100OD|unequal versions and receivers|008110|035X
F100OD|unequal receivers|035X
F100OD|unequal receivers and senders|035X|060X
F100OD|unequal senders|060X
F100OD|unequal senders and one-time keys|060X|1120
F100OD|unequal one-time keys|1120
F100OD|unequal one-time keys and transport generations|1120|0852
F100OD|unequal transport generations|0852
F100OD|unequal generations|08522
F100OD|unequal working generations|0862
F100OD|unequal working generations and scopes|0862|102A
F100OD|unequal scopes|102A
F100OD|unequal scopes and stamps|102A|087261112
F100OD|unequal stamps|087261112
F100OD|unequal stamps and old date||||087261101
",
    );
}

fn frame_stamps(t: &[u8]) {
    each(
        t,
        b"F100OD|frame old date|087261101|||087261101
F100OD|frame old date and transport generation|087261101|0852||087261101|0852
F100OD|frame date ahead|087261114|||087261114
F100OD|frame date ahead and stamp held|060AHEAD   |087261114||060AHEAD   |087261114
F100OD|frame stamp held|087261112|||087261112
F100OD|frame stamp held and transport generation|087261112|0852||087261112|0852
F100OD|frame transport generation|0852|||0852
F100MD|frame, no key held at the SUO's end
F100OD|frame both generations|0852|0862||0852|0862
F100OD|frame working generation|0862|||0862
F100UD|frame working generation and used one-time key|0862|102S||0862|102S
",
    );
}

fn frame_digests(t: &[u8]) {
    each(
        t,
        b"F100UD|frame used one-time key
F100UD|frame used one-time key and digest|1281
F100PD|frame parity
F100PD|frame parity and digest|1281
F100OD|frame digest|1281
F100ON|frame without characters
F100OD|frame digest and checksum|||1281123456789ABCDEF0000
F100OD|frame checksum|||1440000
F100OD|frame checksum and room|060FULL    ||1440000|060FULL    
F100OD|frame room|060FULL    |||060FULL    
",
    );
}

fn judge(t: &[u8]) {
    esi_form(t);
    esi_parties(t);
    esi_keys(t);
    frame_form(t);
    frame_parties(t);
    frame_fields(t);
    frame_stamps(t);
    frame_digests(t);
}

fn served(t: &mut [u8]) {
    let day = calendar::Date { yymmdd: 261113 };
    table::set_up(t, day, settings(), &[261106]);
}

fn joined(t: &mut [u8], who: [u8; 25], agreed: bool, count: u32, stamp: u64) {
    table::add(t, customer_of(who, agreed, count, stamp));
}

fn main() {
    let mut t = [0u8; 49152];
    served(&mut t);
    joined(&mut t, *b"CUSTOMER         BRANCH  ", true, 1, HELD);
    joined(&mut t, *b"SECOND           BRANCH  ", false, 1, HELD);
    joined(&mut t, *b"FULL             BRANCH  ", true, 64, HELD);
    joined(&mut t, *b"AHEAD            BRANCH  ", true, 1, AHEAD);
    judge(&t);
}
