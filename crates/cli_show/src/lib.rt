// The command show: what a table holds, with check values for keys.
#![tactic(auto)]

use calendar::Date;
use cli_help::Command;
use cli_terminal::options::Words;
use cli_terminal::program::Program::Lentilpot;
use cli_terminal::status::{Status, Told};
use cli_terminal::{say, status};
use std::io;

fn yes_or_no(is_so: bool) -> &'static str {
    if is_so { "yes" } else { "no" }
}

// ---- the bank

fn holidays(rt: &HostRuntime, h: &table::Holidays) -> io::Result<()> {
    print!(rt; "holidays    {}", h.count)?;
    for &yymmdd in h.dates.iter().take(h.count as usize) {
        print!(rt; " {yymmdd:06}")?;
    }
    say::out(rt, b"\n")
}

fn settings(rt: &HostRuntime, s: &customer::Settings) -> io::Result<()> {
    cli_shown::who(rt, b"bank        ", &s.bank, 17)?;
    say::out(rt, b"software    ")?;
    cli_shown::name(rt, &s.software)?;
    println!(rt; "\nfloor       {}", s.floor)
}

// The line of the table's day.
fn day(rt: &HostRuntime, t: &[u8]) -> io::Result<()> {
    println!(rt; "day         {:06}", table::day(t).yymmdd)
}

fn bank(rt: &HostRuntime, t: &[u8]) -> io::Result<()> {
    day(rt, t)?;
    settings(rt, &table::settings(t))?;
    holidays(rt, &table::holidays_in(t))?;
    println!(rt; "customers   {}", table::customer_count(t))
}

// ---- a customer

// Type k is bit k - 1.
fn types(rt: &HostRuntime, mask: u32) -> io::Result<()> {
    if mask == 0 {
        return say::out(rt, b"-");
    }
    let mut before = "";
    for k in 0u32..16 {
        if mask >> k & 1 == 1 {
            let kind = k + 1;
            print!(rt; "{before}{kind}")?;
            before = ",";
        }
    }
    Ok(())
}

// The previous key stays good for a stamp dated within its days as long as it is held.
fn previous(rt: &HostRuntime, c: &customer::Changeover, today: Date) -> io::Result<()> {
    say::out(rt, b", previous ")?;
    cli_shown::generation(rt, c.generation, c.key)?;
    let (first, last) = (c.first.yymmdd, c.last.yymmdd);
    let past = if c.last.before(today) { " (past)" } else { "" };
    print!(rt; " changeover {first:06} to {last:06}{past}")
}

fn key_pair(rt: &HostRuntime, kind: &str, k: &customer::KeyPair, today: Date) -> io::Result<()> {
    print!(rt; "  {kind}generation ")?;
    cli_shown::generation(rt, k.generation, k.key)?;
    if let Some(c) = k.previous {
        previous(rt, &c, today)?;
    }
    say::out(rt, b"\n")
}

// How many stamps are not too old on a day, with the first n dates for holidays.
fn live(c: customer::Customer, today: Date, dates: &[u32], n: usize) -> u32 {
    match dates.get(..n) {
        Some(dates) => acceptance::live_count(c, today, dates),
        None => 0,
    }
}

fn permits(rt: &HostRuntime, c: &customer::Customer) -> io::Result<()> {
    let (agreed, leave) = (yes_or_no(c.agreed), yes_or_no(c.leave));
    print!(rt; "  agreed     {agreed}\n  leave      {leave}\n  types      ")?;
    types(rt, c.types)?;
    println!(rt; "\n  changeover {} days", c.length.0)
}

fn customer_at(rt: &HostRuntime, t: &[u8], i: usize) -> io::Result<()> {
    let c = table::load(t, i);
    let today = table::day(t);
    let h = table::holidays_in(t);
    cli_shown::who(rt, b"\ncustomer    ", &c.who, 17)?;
    permits(rt, &c)?;
    key_pair(rt, "transport  ", &c.transport, today)?;
    key_pair(rt, "working    ", &c.working, today)?;
    let held = live(c, today, &h.dates, h.count as usize);
    println!(rt; "  stamps     {held} of 64 held")
}

// ---- the command

fn shown(rt: &HostRuntime, written: io::Result<()>) -> Result<Status, Told> {
    status::served_if(say::is_said(rt, Lentilpot, written, b"the table can't be shown: "))
}

fn whole(rt: &HostRuntime, t: &[u8]) -> io::Result<()> {
    bank(rt, t)?;
    for i in 0..32.min(table::customer_count(t) as usize) {
        customer_at(rt, t, i)?;
    }
    Ok(())
}

fn day_and_customer(rt: &HostRuntime, t: &[u8], i: usize) -> io::Result<()> {
    day(rt, t)?;
    customer_at(rt, t, i)
}

// The bank's day and one customer.
fn one(rt: &HostRuntime, t: &[u8], who: [u8; 25]) -> Result<Status, Told> {
    match table::find(t, who) {
        Some(i) => shown(rt, day_and_customer(rt, t, i)),
        _ => say::answer(rt, Lentilpot, 7),
    }
}

fn show_table(rt: &HostRuntime, words: &Words, t: &[u8]) -> Result<Status, Told> {
    if !table::is_table(t) {
        return say::answer(rt, Lentilpot, 2);
    }
    if words.count() == 3 {
        return shown(rt, whole(rt, t));
    }
    let who = cli_asked::who(
        rt,
        Lentilpot,
        words.word(3),
        words.word(4),
        b"IDENTITY",
        b"QUALIFIER",
    )?;
    one(rt, t, who)
}

pub fn show(rt: &HostRuntime, words: &Words) -> Result<Status, Told> {
    cli_help::are_as_many(rt, words, Command::Show, 3, 5)?;
    if words.count() == 4 {
        say::expected(
            rt,
            Lentilpot,
            b"QUALIFIER",
            b"a word after IDENTITY, \"\" for a blank one",
        );
        return Err(Told);
    }
    words.are_taken(rt, Lentilpot, b"")?;
    let table = cli_names::of(rt, Lentilpot, words.word(2), b"TABLE")?;
    let mut t = [0u8; 49152];
    cli_table::load(rt, Lentilpot, table.as_slice(), &mut t)?;
    show_table(rt, words, &t)
}
