// The days of a command: a day far past the table's must be meant, since the table can't go back; a refusal 4 says which of its halves
// holds, a refusal 12 the last day of the changeover.
#![tactic(auto)]

ghost use Rattle.std.specs.Prelude.{◌≡◌};
ghost use Rattle.cli_days.specs.Far.{is_far};

use calendar::Date;
use cli_terminal::options::Words;
use cli_terminal::program::Program::Lentilpot;
use cli_terminal::say;
use cli_terminal::status::{Status, Told};
use std::io;

// ---- a day far past the table's

// More than 31 days; the first day after the set-up, whose own is 800101, may be any.
#[tactic(auto, unfolding(crate::specs::Far::is_far, ground::specs::Choice::both, ground::specs::Choice::fails))]
fn is_far(day: Date, today: Date) -> bool
    ensures { result ≡ is_far day.yymmdd today.yymmdd }
{
    let held = day.day_number();
    let given = today.day_number();
    day.yymmdd != 800101 && today.is_real() && 31 < given.saturating_sub(held)
}

fn tell_far(rt: &HostRuntime, day: Date, today: Date) {
    let (held, given) = (day.yymmdd, today.yymmdd);
    say::begin_line(rt, Lentilpot);
    let _ = eprintln!(rt;
        "DATE: {given:06} is more than 31 days after the table's day {held:06}, to which it could not go back; nothing was changed: expected an earlier day, or --later if it is meant"
    );
}

// Whether a day may be handed to a call on the table; told where it may not.
pub fn is_meant(rt: &HostRuntime, words: &Words, t: &[u8], today: Date) -> Result<(), Told> {
    if !table::is_table(t) {
        return Ok(());
    }
    let day = table::day(t);
    if !is_far(day, today) || words.is_given(b"--later") {
        return Ok(());
    }
    tell_far(rt, day, today);
    Err(Told)
}

// ---- refusal 4

// Which half of refusal 4 holds, and the table's day.
fn answer_day(rt: &HostRuntime, day: Date, today: Date, time: u32) -> io::Result<()> {
    let (n, what) = if !today.is_real() {
        (today.yymmdd, "isn't a real date; the table's day is")
    } else if !calendar::is_real_time(time) {
        (time, "isn't a real time; the table's day is")
    } else {
        (today.yymmdd, "is before the table's day")
    };
    let held = day.yymmdd;
    println!(rt; "refused 4: {n:06} {what} {held:06}")
}

// The answer line of a call on a table of that day.
pub fn answer(
    rt: &HostRuntime,
    day: Date,
    today: Date,
    time: u32,
    refusal: u32,
) -> Result<Status, Told> {
    if refusal != 4 {
        return say::answer(rt, Lentilpot, refusal);
    }
    say::refused_as(rt, Lentilpot, answer_day(rt, day, today, time))
}

// The first of the holidays that isn't a real date.
fn first_unreal(dates: &[u32]) -> u32 {
    let mut days = dates.iter().map(|&yymmdd| Date { yymmdd });
    match days.find(|day| !day.is_real()) {
        Some(day) => day.yymmdd,
        None => 0,
    }
}

fn holiday(rt: &HostRuntime, yymmdd: u32) -> io::Result<()> {
    println!(rt; "refused 4: {yymmdd:06}, a holiday, isn't a real date")
}

// The answer line of a set-up.
pub fn answer_setup(rt: &HostRuntime, dates: &[u32], refusal: u32) -> Result<Status, Told> {
    if refusal != 4 {
        return say::answer(rt, Lentilpot, refusal);
    }
    say::refused_as(rt, Lentilpot, holiday(rt, first_unreal(dates)))
}

// ---- refusal 12

fn changeover(rt: &HostRuntime, kind: &[u8], last: Date) -> io::Result<()> {
    let last = last.yymmdd;
    print!(rt; "refused 12: the changeover from the previous ")?;
    say::out(rt, kind)?;
    println!(rt; " key is not past; its last day is {last:06}")
}

// The answer line where a changeover of keys of that kind runs to that day.
pub fn answer_changeover(rt: &HostRuntime, kind: &[u8], last: Date) -> Result<Status, Told> {
    say::refused_as(rt, Lentilpot, changeover(rt, kind, last))
}
