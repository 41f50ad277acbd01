// Writes tables, reads them back, and shows that each kind of damage makes them no table.

#![tactic(auto)]

use customer::{Changeover, Customer, KeyPair};

const STDOUT_FILENO: i32 = 1;

fn say(text: &[u8]) {
    io::write_all(STDOUT_FILENO, text);
}

fn say_number(text: &[u8], n: u64) {
    say(text);
    io::print_decimal(STDOUT_FILENO, n);
    say(b"\n");
}

// A label, and whether the bytes are a table.
fn judge(label: &[u8], t: &[u8]) {
    say(label);
    if table::is_table(t) {
        say(b": table\n");
    } else {
        say(b": no table\n");
    }
}

// The byte at a place, one more.
fn more(t: &mut [u8], at: usize) {
    if let Some(byte) = t.get_mut(at) {
        *byte = *byte % 255 + 1;
    }
}

// ---- what a table is made of

fn name(first: u8, second: u8) -> [u8; 25] {
    let mut who = [b' '; 25];
    who[0] = first;
    who[1] = second;
    who[17] = b'Q';
    who
}

// A customer with a previous working key, and one stamp with its one-time key.
fn person(first: u8, second: u8) -> Customer {
    let mut stamps = [0u64; 64];
    stamps[0] = 990129120000001;
    let mut once = [0u64; 64];
    once[0] = 0x0101010101010101;
    Customer {
        who: name(first, second),
        types: 0x8001,
        agreed: true,
        leave: false,
        length: calendar::CalendarDays(60),
        transport: KeyPair {
            generation: 0,
            key: 0x0202020202020202,
            previous: None,
        },
        working: KeyPair {
            generation: 1,
            key: 0x0404040404040404,
            previous: Some(Changeover {
                generation: 9,
                key: 0x0808080808080808,
                first: calendar::Date { yymmdd: 990101 },
                last: calendar::Date { yymmdd: 990228 },
            }),
        },
        count: 1,
        stamps,
        once,
    }
}

fn bank() -> customer::Settings {
    let mut software = [b' '; 16];
    software[0] = b'S';
    customer::Settings {
        bank: name(b'B', b'K'),
        software,
        floor: 110,
        maker: keys::KeyMaker {
            key: 0x0123456789ABCDEF,
            seed: 7,
        },
    }
}

// A table of 990131 with three holidays and two customers: the holidays stand at 82, the customers at 94 and 1203.
fn fresh(t: &mut [u8]) {
    let holidays = [990101u32, 991231, 101];
    table::set_up(t, calendar::Date { yymmdd: 990131 }, bank(), &holidays);
    table::add(t, person(b'A', b'A'));
    table::add(t, person(b'A', b'B'));
}

// ---- what is written is read back

fn show_place(label: &[u8], t: &[u8], who: [u8; 25]) {
    match table::find(t, who) {
        Some(i) => say_number(label, i as u64),
        None => {
            say(label);
            say(b"unknown\n");
        }
    }
}

fn show(t: &[u8]) {
    judge(b"as written", t);
    say_number(b"day ", table::day(t).yymmdd as u64);
    let h = table::holidays_in(t);
    say_number(b"holidays ", h.count as u64);
    say_number(b"the third holiday ", h.dates[2] as u64);
    say_number(b"customers ", table::customer_count(t) as u64);
    show_place(b"place of AB ", t, name(b'A', b'B'));
    show_place(b"place of AC ", t, name(b'A', b'C'));
    say_number(b"its first stamp ", table::load(t, 1).stamps[0]);
    let s = table::settings(t);
    say_number(b"floor ", u64::from(s.floor));
    say_number(b"seed ", s.maker.seed);
}

fn changed(t: &mut [u8]) {
    table::store_day(t, calendar::Date { yymmdd: 990201 });
    table::store_seed(t, 8);
    let mut c = table::load(t, 1);
    c.stamps[1] = 990131120000002;
    c.count = 2;
    table::store(t, 1, c);
}

fn show_change(t: &[u8]) {
    judge(b"another day, seed and customer", t);
    say_number(b"day ", table::day(t).yymmdd as u64);
    say_number(b"seed ", table::settings(t).maker.seed);
    say_number(b"stamps of AB ", u64::from(table::load(t, 1).count));
    say_number(b"stamps of AA ", u64::from(table::load(t, 0).count));
}

// Customers up to the limit and one beyond it.
fn fill(t: &mut [u8]) {
    for i in 0..31u8 {
        table::add(t, person(b'C' + i / 10, b'0' + i % 10));
    }
}

fn crowd(t: &mut [u8]) {
    fresh(t);
    fill(t);
    judge(b"33 customers added", t);
    say_number(b"customers ", table::customer_count(t) as u64);
}

// ---- damage

// One byte more at a place of a fresh table.
fn damaged(label: &[u8], t: &mut [u8], at: usize) {
    fresh(t);
    more(t, at);
    judge(label, t);
}

fn header(t: &mut [u8]) {
    damaged(b"total length off by one", t, 0);
    damaged(b"day off by one", t, 4);
    damaged(b"holiday count off by one", t, 8);
    damaged(b"holiday offset off by one", t, 12);
    damaged(b"customer count off by one", t, 16);
    damaged(b"customer offset off by one", t, 20);
}

fn gap(t: &mut [u8]) {
    fresh(t);
    more(t, 20);
    more(t, 0);
    judge(b"a gap before the customers", t);
}

fn dates(t: &mut [u8]) {
    let holidays = [990101u32, 990101];
    table::set_up(t, calendar::Date { yymmdd: 990131 }, bank(), &holidays);
    judge(b"a holiday twice", t);
    fresh(t);
    table::store_day(t, calendar::Date { yymmdd: 990229 });
    judge(b"an unreal day", t);
}

fn twice(t: &mut [u8]) {
    fresh(t);
    table::add(t, person(b'A', b'A'));
    judge(b"a customer twice", t);
}

fn records(t: &mut [u8]) {
    damaged(b"a flag that is 2", t, 121);
    damaged(b"even parity of a key", t, 125);
    damaged(b"a generation that does not follow", t, 151);
    damaged(b"a previous key that is not held", t, 134);
    damaged(b"a stamp after the count", t, 187);
}

fn short(t: &[u8]) {
    judge(b"whole buffer", t);
    if let [front @ .., _] = t {
        judge(b"buffer one byte short", front);
    }
}

fn main() {
    let mut t = [0u8; 49152];
    judge(b"zeros", &t);
    fresh(&mut t);
    show(&t);
    changed(&mut t);
    show_change(&t);
    crowd(&mut t);
    header(&mut t);
    gap(&mut t);
    dates(&mut t);
    twice(&mut t);
    records(&mut t);
    fresh(&mut t);
    short(&t);
}
