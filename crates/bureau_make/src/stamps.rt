// The stamps of a file: DATE, TIME and 001, 002 and so on. The bank accepts each once, so those of a file are later than all before.
use cli_terminal::program::Program;
use cli_terminal::say;
use cli_terminal::status::{Status, Told};

pub fn are_real(day: u32, time: u32) -> bool {
    let d = calendar::Date { yymmdd: day };
    d.is_real() && calendar::is_real_time(time)
}

// The answer to a refusal; 13 is of DATE or of TIME, since the desk's own names are sound.
pub fn answer(rt: &HostRuntime, refusal: u32, day: u32) -> Result<Status, Told> {
    if refusal != 13 {
        return say::answer(rt, Program::Bureau, refusal);
    }
    let d = calendar::Date { yymmdd: day };
    let line: &[u8] = if d.is_real() {
        b"refused 13: TIME isn't a real time: expected hhmmss\n"
    } else {
        b"refused 13: DATE isn't a real day: expected yymmdd, 1980 to 2079\n"
    };
    say::refused_as(rt, Program::Bureau, say::out(rt, line))
}

// Whether a day and time come after the last stamp's.
fn is_after(last: [u8; 15], day: u32, time: u32) -> bool {
    let before = calendar::Date {
        yymmdd: number(&last[0..6]),
    };
    let now = calendar::Date { yymmdd: day };
    before.before(now) || !now.before(before) && number(&last[6..12]) < time
}

fn number(digits: &[u8]) -> u32 {
    cli_words::digits(digits, 6, 6).unwrap_or(0)
}

// Whether they come after the last stamp's, or what is the matter.
pub fn are_later(rt: &HostRuntime, last: [u8; 15], day: u32, time: u32) -> Result<(), Told> {
    if last[0] == 0 || is_after(last, day, time) {
        return Ok(());
    }
    say::begin_line(rt, Program::Bureau);
    say::err(
        rt,
        b"DATE, TIME: expected a time after that of the last file, ",
    );
    say::err(rt, &last[0..12]);
    say::err(
        rt,
        b", since the bank accepts a stamp once: look at the clock; nothing was changed\n",
    );
    Err(Told)
}

// The stamp of a file's message: 1 is the ESI.
pub fn stamp(day: u32, time: u32, k: usize) -> [u8; 15] {
    let mut stamp = [0u8; 15];
    let (date, rest) = stamp.split_at_mut(6);
    let (clock, count) = rest.split_at_mut(6);
    text::write_number(date, u64::from(day));
    text::write_number(clock, u64::from(time));
    text::write_number(count, k as u64);
    stamp
}
