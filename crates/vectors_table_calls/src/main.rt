// The calls that keep a table: each refusal, each pair that competes, appendix 3's customer, and changeovers. One labelled line each.

#![tactic(auto)]

use calendar::CalendarDays;
use refusals::Refusal;
use table_calls::{Adding, Entering, Ordering, Setting};

const STDOUT_FILENO: i32 = 1;

const PART1: u64 = 0xF18C57209492FEB3;

const PART2: u64 = 0xC71A7502021A022F;

const CHECK: u64 = 0x028E4C;

fn say(text: &[u8]) {
    io::write_all(STDOUT_FILENO, text);
}

fn say_number(label: &[u8], n: u64) {
    say(label);
    say(b": ");
    io::print_decimal(STDOUT_FILENO, n);
    say(b"\n");
}

// A label, and what a call answered.
fn answer(label: &[u8], outcome: Result<(), Refusal>) {
    say_number(label, refusals::code(outcome) as u64);
}

fn say_key(label: &[u8], x: u64) {
    say(label);
    say(b": ");
    say(&text::hex_digits(x));
    say(b"\n");
}

// ---- what is passed

fn date(yymmdd: u32) -> calendar::Date {
    calendar::Date { yymmdd }
}

// Appendix 3's identity, with a qualifier that is blank but for its first character.
fn who(qualifier: u8) -> [u8; 25] {
    let mut w = *b"99910000011111111        ";
    w[17] = qualifier;
    w
}

// Another identity.
fn other(first: u8, second: u8) -> [u8; 25] {
    let mut w = [b' '; 25];
    w[0] = first;
    w[1] = second;
    w
}

fn setting(floor: u32) -> Setting {
    Setting {
        bank: other(b'B', b'K'),
        software: *b"FRONT END       ",
        floor,
        key: 0x0123456789ABCDEF,
        seed: 7,
    }
}

fn adding_for(w: [u8; 25], today: u32, length: Option<CalendarDays>) -> Adding {
    Adding {
        today: date(today),
        who: w,
        part1: PART1,
        part2: PART2,
        check: CHECK,
        generation: 0,
        types: 0x8001,
        agreed: true,
        leave: false,
        length,
    }
}

fn adding(w: [u8; 25], today: u32) -> Adding {
    adding_for(w, today, None)
}

fn entering(w: [u8; 25], today: u32, generation: u32) -> Entering {
    Entering {
        today: date(today),
        who: w,
        part1: PART1,
        part2: PART2,
        check: CHECK,
        generation,
    }
}

fn ordering(w: [u8; 25], today: u32) -> Ordering {
    Ordering {
        today: date(today),
        who: w,
        clock: 42,
    }
}

// ---- what is there then

fn show_last(label: &[u8], p: Option<customer::Changeover>) {
    match p {
        None => {
            say(label);
            say(b": none\n");
        }
        Some(c) => say_number(label, u64::from(c.last.yymmdd)),
    }
}

fn show(t: &[u8], i: usize) {
    let c = table::load(t, i);
    say_number(b"  day", table::day(t).yymmdd as u64);
    say_number(b"  length", c.length.0 as u64);
    say_number(b"  transport generation", c.transport.generation as u64);
    say_key(b"  transport key", c.transport.key);
    show_last(b"  previous until", c.transport.previous);
    say_number(b"  working generation", c.working.generation as u64);
    say_key(b"  working key", c.working.key);
    show_last(b"  previous until", c.working.previous);
    say_key(b"  seed", table::settings(t).maker.seed);
}

// ---- set up

fn no_tables(t: &mut [u8]) {
    answer(
        b"add, no table and a bad day, 2",
        table_calls::add(t, adding(who(b' '), 991301)),
    );
    answer(
        b"enter, no table, 2",
        table_calls::enter(t, entering(who(b' '), 991201, 1)),
    );
    answer(
        b"order, no table, 2",
        table_calls::order(t, ordering(who(b' '), 991201)),
    );
}

fn settings(t: &mut [u8]) {
    let good = [990101u32, 991231, 101];
    let unreal = [990101u32, 990229];
    let falling = [101u32, 991231];
    let many = [990101u32; 201];
    answer(
        b"set up, holiday not real and floor 115, 4",
        table_calls::set_up(t, setting(115), &unreal),
    );
    answer(
        b"set up, floor 115, 11",
        table_calls::set_up(t, setting(115), &good),
    );
    answer(
        b"set up, holidays fall, 11",
        table_calls::set_up(t, setting(110), &falling),
    );
    answer(
        b"set up, 201 holidays, 11",
        table_calls::set_up(t, setting(110), &many),
    );
    let blank = Setting {
        software: [b' '; 16],
        ..setting(120)
    };
    answer(
        b"set up, name blank, 11",
        table_calls::set_up(t, blank, &good),
    );
    answer(b"set up, 0", table_calls::set_up(t, setting(110), &good));
    say_number(b"  day", table::day(t).yymmdd as u64);
}

// ---- add

fn adds(t: &mut [u8]) {
    answer(
        b"add on 010229, 4",
        table_calls::add(t, adding(who(b' '), 10229)),
    );
    answer(
        b"add appendix 3's customer, 0",
        table_calls::add(t, adding(who(b' '), 991201)),
    );
    show(t, 0);
    let even = Adding {
        part1: PART1 - 1,
        ..adding(who(b' '), 991202)
    };
    answer(
        b"add, already there and parity even, 6",
        table_calls::add(t, even),
    );
    say_number(b"  day", table::day(t).yymmdd as u64);
    answer(
        b"add the day before, and already there, 4",
        table_calls::add(t, adding(who(b' '), 991130)),
    );
    answer(
        b"add another qualifier, 0",
        table_calls::add(t, adding(who(b'Q'), 991201)),
    );
    say_number(b"  customers", table::customer_count(t) as u64);
}

fn bad_adds(t: &mut [u8]) {
    let w = other(b'A', b'A');
    let a = Adding {
        part2: PART2 - 1,
        check: 0,
        ..adding(w, 991201)
    };
    answer(
        b"add, parity even and check value differs, 8",
        table_calls::add(t, a),
    );
    let b = Adding {
        check: 0x028E4D,
        generation: 10,
        ..adding(w, 991201)
    };
    answer(
        b"add, check value differs and generation 10, 9",
        table_calls::add(t, b),
    );
    let c = Adding {
        generation: 10,
        ..adding(w, 991201)
    };
    answer(b"add, generation 10, 11", table_calls::add(t, c));
    let d = Adding {
        types: 65536,
        ..adding(w, 991201)
    };
    answer(b"add, type 17, 11", table_calls::add(t, d));
    answer(
        b"add, identity blank, 11",
        table_calls::add(t, adding([b' '; 25], 991201)),
    );
}

fn lengths(t: &mut [u8]) {
    let w = other(b'L', b'A');
    answer(
        b"add, length 0, 11",
        table_calls::add(t, adding_for(w, 991201, Some(CalendarDays(0)))),
    );
    answer(
        b"add, length 61, 11",
        table_calls::add(t, adding_for(w, 991201, Some(CalendarDays(61)))),
    );
    let c = Adding {
        generation: 9,
        ..adding_for(w, 991201, Some(CalendarDays(60)))
    };
    answer(
        b"add, length 60 and generation 9, 0",
        table_calls::add(t, c),
    );
}

// ---- enter

fn bad_enters(t: &mut [u8]) {
    let w = other(b'N', b'O');
    answer(
        b"enter, bad day and no such customer, 4",
        table_calls::enter(t, entering(w, 991200, 1)),
    );
    let a = Entering {
        part1: PART1 - 1,
        ..entering(w, 991201, 1)
    };
    answer(
        b"enter, no such customer and parity even, 7",
        table_calls::enter(t, a),
    );
    let b = Entering {
        part2: PART2 - 1,
        check: 0,
        ..entering(who(b' '), 991201, 1)
    };
    answer(
        b"enter, parity even and check value differs, 8",
        table_calls::enter(t, b),
    );
    let c = Entering {
        check: 0,
        ..entering(who(b' '), 991201, 2)
    };
    answer(
        b"enter, check value differs and generation not next, 9",
        table_calls::enter(t, c),
    );
    answer(
        b"enter, generation not next, 10",
        table_calls::enter(t, entering(who(b' '), 991201, 0)),
    );
}

fn enters(t: &mut [u8]) {
    answer(
        b"enter generation 1 on 991220, 0",
        table_calls::enter(t, entering(who(b' '), 991220, 1)),
    );
    show(t, 0);
    answer(
        b"enter, generation not next and changeover, 10",
        table_calls::enter(t, entering(who(b' '), 991221, 1)),
    );
    answer(
        b"enter, changeover, 12",
        table_calls::enter(t, entering(who(b' '), 991221, 2)),
    );
    answer(
        b"enter generation 10 after 9, 10",
        table_calls::enter(t, entering(other(b'L', b'A'), 991221, 10)),
    );
    answer(
        b"enter generation 1 after 9, 0",
        table_calls::enter(t, entering(other(b'L', b'A'), 991221, 1)),
    );
}

// ---- order

fn orders(t: &mut [u8]) {
    answer(
        b"order, bad day and no such customer, 4",
        table_calls::order(t, ordering(other(b'N', b'O'), 991220)),
    );
    answer(
        b"order, no such customer, 7",
        table_calls::order(t, ordering(other(b'N', b'O'), 991221)),
    );
    answer(
        b"order on 991221, 0",
        table_calls::order(t, ordering(who(b' '), 991221)),
    );
    show(t, 0);
    answer(
        b"enter on the last day, 12",
        table_calls::enter(t, entering(who(b' '), 119, 2)),
    );
    answer(
        b"order on the last day, 12",
        table_calls::order(t, ordering(who(b' '), 120)),
    );
    answer(
        b"enter generation 2 past the last day, 0",
        table_calls::enter(t, entering(who(b' '), 120, 2)),
    );
    answer(
        b"order past the last day, 0",
        table_calls::order(t, ordering(who(b' '), 121)),
    );
    show(t, 0);
}

// In 2079 no day lies past 791231.
fn ends(t: &mut [u8]) {
    answer(
        b"order on 791220, 0",
        table_calls::order(t, ordering(who(b'Q'), 791220)),
    );
    show(t, 1);
    answer(
        b"order on 791231, 12",
        table_calls::order(t, ordering(who(b'Q'), 791231)),
    );
    answer(
        b"order on 800101, 4",
        table_calls::order(t, ordering(who(b'Q'), 800101)),
    );
}

// ---- a full table

fn fill(t: &mut [u8]) {
    for i in 0..29u8 {
        let _ = table_calls::add(t, adding(other(b'A' + i / 10, b'0' + i % 10), 791231));
    }
    say_number(b"customers", table::customer_count(t) as u64);
}

fn full(t: &mut [u8]) {
    let even = Adding {
        part1: PART1 - 1,
        ..adding(other(b'G', b'G'), 791231)
    };
    answer(
        b"add, table full and parity even, 5",
        table_calls::add(t, even),
    );
    answer(
        b"add, table full and already there, 5",
        table_calls::add(t, adding(who(b' '), 791231)),
    );
    answer(
        b"add, bad day and table full, 4",
        table_calls::add(t, adding(who(b' '), 791230)),
    );
}

fn main() {
    let mut t = [0u8; 49152];
    let mut short = [0u8; 8];
    let holidays = [990101u32];
    answer(
        b"set up, 8 bytes, 11",
        table_calls::set_up(&mut short, setting(110), &holidays),
    );
    no_tables(&mut t);
    settings(&mut t);
    adds(&mut t);
    bad_adds(&mut t);
    lengths(&mut t);
    bad_enters(&mut t);
    enters(&mut t);
    orders(&mut t);
    ends(&mut t);
    fill(&mut t);
    full(&mut t);
}
