// The calls that keep a table, each from its line, with the number of the refusal or 0.
use vectors_words::{hex_at, holidays_at, small_at, who_at};

// setup BANK SOFTWARE FLOOR K V HOLIDAY…
pub fn set_up(t: &mut [u8], line: &[u8]) -> u32 {
    let mut software = [0u8; 16];
    vectors_words::bytes_at(&mut software, line, 2);
    let s = table_calls::Setting {
        bank: who_at(line, 1),
        software,
        floor: small_at(line, 3),
        key: hex_at(line, 4),
        seed: hex_at(line, 5),
    };
    let mut days = [0u32; 208];
    let n = holidays_at(&mut days, line);
    refusals::code(table_calls::set_up(t, s, &days[..n]))
}

// A length, or '-' where it is left out.
fn length_at(line: &[u8], number: usize) -> Option<calendar::CalendarDays> {
    match vectors_words::word_at(line, number) {
        [b'-', ..] => None,
        _ => Some(calendar::CalendarDays(small_at(line, number))),
    }
}

// add DATE WHO P1 P2 CHECK GENERATION TYPES AGREED LEAVE LENGTH
pub fn add(t: &mut [u8], line: &[u8]) -> u32 {
    let a = table_calls::Adding {
        today: calendar::Date {
            yymmdd: small_at(line, 1),
        },
        who: who_at(line, 2),
        part1: hex_at(line, 3),
        part2: hex_at(line, 4),
        check: hex_at(line, 5),
        generation: small_at(line, 6),
        types: small_at(line, 7),
        agreed: small_at(line, 8) == 1,
        leave: small_at(line, 9) == 1,
        length: length_at(line, 10),
    };
    refusals::code(table_calls::add(t, a))
}

// key DATE WHO P1 P2 CHECK GENERATION
pub fn enter(t: &mut [u8], line: &[u8]) -> u32 {
    let e = table_calls::Entering {
        today: calendar::Date {
            yymmdd: small_at(line, 1),
        },
        who: who_at(line, 2),
        part1: hex_at(line, 3),
        part2: hex_at(line, 4),
        check: hex_at(line, 5),
        generation: small_at(line, 6),
    };
    refusals::code(table_calls::enter(t, e))
}

// order DATE WHO CLOCK
pub fn order(t: &mut [u8], line: &[u8]) -> u32 {
    let o = table_calls::Ordering {
        today: calendar::Date {
            yymmdd: small_at(line, 1),
        },
        who: who_at(line, 2),
        clock: hex_at(line, 3),
    };
    refusals::code(table_calls::order(t, o))
}
