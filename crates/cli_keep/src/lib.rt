// The commands that keep a table: setup, add, key, order, each one of `table_calls`'s calls between a load and a save.
#![tactic(auto)]

mod holidays;
mod limits;

use calendar::{CalendarDays, Date};
use cli_held::Held;
use cli_help::Command;
use cli_terminal::options::Words;
use cli_terminal::program::Program::Lentilpot;
use cli_terminal::say;
use cli_terminal::status::{Status, Told};
use refusals::Refusal;
use table_calls::{Adding, Entering, Ordering, Setting};

// Saves the table that a served call left, and answers.
fn saved(rt: &HostRuntime, table: &[u8], t: &[u8], h: &Held) -> Result<Status, Told> {
    cli_held::is_saved(rt, Lentilpot, table, t, h)?;
    say::answer(rt, Lentilpot, 0)
}

// Loads the table for a call on that day.
fn load(
    rt: &HostRuntime,
    words: &Words,
    table: &[u8],
    t: &mut [u8],
    today: Date,
) -> Result<(), Told> {
    cli_table::load(rt, Lentilpot, table, t)?;
    cli_days::is_meant(rt, words, t, today)
}

// A call on that day on the table, which is taken for it and saved where it was served; `own` answers the refusals that are the command's
// own.
fn called<
    C: FnOnce(&mut [u8]) -> Result<(), Refusal>,
    O: FnOnce(&[u8], Refusal) -> Option<Result<Status, Told>>,
>(
    rt: &HostRuntime,
    words: &Words,
    table: &[u8],
    today: Date,
    call: C,
    own: O,
) -> Result<Status, Told>
    requires call { C.IsAlwaysCallable call }
    requires own { O.IsAlwaysCallable own }
{
    let mut t = [0u8; 49152];
    let h = cli_held::take(rt, Lentilpot, table)?;
    if let Err(told) = load(rt, words, table, &mut t, today) {
        cli_held::release(rt, Lentilpot, table, &h);
        return Err(told);
    }
    let Err(refusal) = call(&mut t) else {
        return saved(rt, table, &t, &h);
    };
    cli_held::release(rt, Lentilpot, table, &h);
    match own(&t, refusal) {
        Some(answered) => answered,
        None => {
            let number = refusals::code(Err(refusal));
            cli_days::answer(rt, table::day(&t), today, 0, number)
        }
    }
}

// The words of every command: as many as it takes, with no other options, and the table's name.
fn named(
    rt: &HostRuntime,
    words: &Words,
    command: Command,
    low: usize,
    high: usize,
    options: &[u8],
) -> Result<Vec<u8>, Told> {
    cli_help::are_as_many(rt, words, command, low, high)?;
    words.are_taken(rt, Lentilpot, options)?;
    cli_names::of_kept(rt, Lentilpot, words.word(2), b"TABLE")
}

fn asked_day(rt: &HostRuntime, words: &Words) -> Result<Date, Told> {
    let yymmdd = cli_asked::date(rt, Lentilpot, words.word(3))?;
    Ok(Date { yymmdd })
}

fn asked_who(rt: &HostRuntime, words: &Words) -> Result<[u8; 25], Told> {
    let (identity, qualifier) = (words.word(4), words.word(5));
    cli_asked::who(
        rt,
        Lentilpot,
        identity,
        qualifier,
        b"IDENTITY",
        b"QUALIFIER",
    )
}

// ---- setup

pub fn setup(rt: &HostRuntime, words: &Words) -> Result<Status, Told> {
    let p = Lentilpot;
    let table = named(rt, words, Command::Setup, 9, 10, b"")?;
    let bank = cli_asked::who(rt, p, words.word(3), words.word(4), b"BANK", b"QUALIFIER")?;
    let software = cli_asked::software(rt, p, words.word(5))?;
    let floor = cli_asked::digits(rt, p, words.word(6), 1, 9, b"FLOOR", b"110 or 120")?;
    let key = cli_asked::key(rt, p, words.word(7), b"K")?;
    let seed = cli_asked::key(rt, p, words.word(8), b"V")?;
    let d = holidays::asked(rt, words, 9)?;
    let s = Setting {
        bank,
        software,
        floor,
        key,
        seed,
    };
    set_up(rt, &table, &s, &d)
}

fn set_up(
    rt: &HostRuntime,
    table: &[u8],
    s: &Setting,
    d: &cli_words::Dates,
) -> Result<Status, Told> {
    let mut t = [0u8; 49152];
    let h = cli_held::take(rt, Lentilpot, table)?;
    if let Err(told) = cli_table::is_free(rt, Lentilpot, table) {
        cli_held::release(rt, Lentilpot, table, &h);
        return Err(told);
    }
    let refusal = set_up_with(&mut t, s, &d.dates, d.count);
    if refusal == 0 {
        return saved(rt, table, &t, &h);
    }
    cli_held::release(rt, Lentilpot, table, &h);
    if refusal == 11 {
        return limits::answer_setup(rt, s, d.count);
    }
    cli_days::answer_setup(rt, &d.dates, refusal)
}

// The first n dates are the holidays.
fn set_up_with(t: &mut [u8], s: &Setting, dates: &[u32], n: usize) -> u32 {
    match dates.get(..n) {
        Some(dates) => refusals::code(table_calls::set_up(t, *s, dates)),
        None => 11,
    }
}

// ---- add

// A changeover's length.
fn asked_length(rt: &HostRuntime, words: &Words, i: usize) -> Result<Option<CalendarDays>, Told> {
    if words.count() <= i {
        return Ok(None);
    }
    let what = b"days, 1 to 60";
    let days = cli_asked::digits(rt, Lentilpot, words.word(i), 1, 9, b"LENGTH", what)?;
    Ok(Some(CalendarDays(days)))
}

pub fn add(rt: &HostRuntime, words: &Words) -> Result<Status, Told> {
    let table = named(rt, words, Command::Add, 13, 14, b"--later ")?;
    let a = asked_customer(rt, words)?;
    called(
        rt,
        words,
        &table,
        a.today,
        |t| table_calls::add(t, a),
        |_, refusal| match refusal {
            Refusal::OutOfLimits => Some(limits::answer_add(rt, &a)),
            _ => None,
        },
    )
}

fn asked_customer(rt: &HostRuntime, words: &Words) -> Result<Adding, Told> {
    let e = asked_key(rt, words)?;
    let types = cli_asked::types(rt, Lentilpot, words.word(10))?;
    let agreed = cli_asked::choice(rt, Lentilpot, words.word(11), b"AGREED")?;
    let leave = cli_asked::choice(rt, Lentilpot, words.word(12), b"LEAVE")?;
    let length = asked_length(rt, words, 13)?;
    let who = e.who;
    Ok(Adding {
        today: e.today,
        who,
        part1: e.part1,
        part2: e.part2,
        check: e.check,
        generation: e.generation,
        types,
        agreed,
        leave,
        length,
    })
}

// ---- key

// The words that `add` and `key` share: DATE IDENTITY QUALIFIER PART1 PART2 CHECK GENERATION, from word 3 on.
fn asked_key(rt: &HostRuntime, words: &Words) -> Result<Entering, Told> {
    let today = asked_day(rt, words)?;
    let who = asked_who(rt, words)?;
    let part1 = cli_asked::key(rt, Lentilpot, words.word(6), b"PART1")?;
    let part2 = cli_asked::key(rt, Lentilpot, words.word(7), b"PART2")?;
    let check = cli_asked::check(rt, Lentilpot, words.word(8))?;
    let generation = cli_asked::generation(rt, Lentilpot, words.word(9))?;
    Ok(Entering {
        today,
        who,
        part1,
        part2,
        check,
        generation,
    })
}

pub fn key(rt: &HostRuntime, words: &Words) -> Result<Status, Told> {
    let table = named(rt, words, Command::Key, 10, 10, b"--later ")?;
    let e = asked_key(rt, words)?;
    called(
        rt,
        words,
        &table,
        e.today,
        |t| table_calls::enter(t, e),
        |t, refusal| match refusal {
            Refusal::StillChanging => Some(limits::answer_transport(rt, t, e.who)),
            _ => None,
        },
    )
}

// ---- order

pub fn order(rt: &HostRuntime, words: &Words) -> Result<Status, Told> {
    let table = named(rt, words, Command::Order, 7, 7, b"--later ")?;
    let today = asked_day(rt, words)?;
    let who = asked_who(rt, words)?;
    let clock = cli_asked::key(rt, Lentilpot, words.word(6), b"CLOCK")?;
    let o = Ordering { today, who, clock };
    called(
        rt,
        words,
        &table,
        today,
        |t| table_calls::order(t, o),
        |t, refusal| match refusal {
            Refusal::StillChanging => Some(limits::answer_working(rt, t, who)),
            _ => None,
        },
    )
}
