// The calendar on known dates: each line is a label and an answer.

#![tactic(auto)]

use calendar::{CalendarDays, Date};
use std::io;

fn put_test(rt: &HostRuntime, label: &str, ok: bool) -> io::Result<()> {
    let answer = if ok { "yes" } else { "no" };
    println!(rt; "{label}: {answer}")
}

fn put_date(rt: &HostRuntime, label: &str, d: Date) -> io::Result<()> {
    let yymmdd = d.yymmdd;
    println!(rt; "{label}: {yymmdd:06}")
}

fn put_weekday(rt: &HostRuntime, yymmdd: u32) -> io::Result<()> {
    let day = match on(yymmdd).weekday_of() {
        0 => "Monday",
        1 => "Tuesday",
        2 => "Wednesday",
        3 => "Thursday",
        4 => "Friday",
        5 => "Saturday",
        _ => "Sunday",
    };
    println!(rt; "weekday of {yymmdd:06}: {day}")
}

fn on(yymmdd: u32) -> Date {
    Date { yymmdd }
}

fn put_later(rt: &HostRuntime, yymmdd: u32, days: u32) -> io::Result<()> {
    let later = on(yymmdd).plus(CalendarDays(days)).yymmdd;
    println!(rt; "{yymmdd:06} + {days}: {later:06}")
}

// Stamps of 941015, without and with the holiday 941019.
fn put_old(rt: &HostRuntime) -> io::Result<()> {
    let holidays: [u32; 1] = [941019];
    let stamp = on(941015);
    put_test(
        rt,
        "P6 941015 too old on 941023",
        stamp.is_too_old(on(941023), &[]),
    )?;
    put_test(
        rt,
        "P6 941015 too old on 941024",
        stamp.is_too_old(on(941024), &[]),
    )?;
    put_test(
        rt,
        "P7 941015 too old on 941024, holiday 941019",
        stamp.is_too_old(on(941024), &holidays),
    )?;
    put_test(
        rt,
        "P7 941015 too old on 941025, holiday 941019",
        stamp.is_too_old(on(941025), &holidays),
    )?;
    put_date(rt, "earliest good on 941024", on(941024).earliest_good(&[]))
}

fn put_dates(rt: &HostRuntime) -> io::Result<()> {
    put_test(rt, "P8 000229 real", on(000229).is_real())?;
    put_test(rt, "P8 010229 real", on(010229).is_real())?;
    put_later(rt, 991231, 1)?;
    put_test(rt, "991231 before 000101", on(991231).before(on(000101)))?;
    put_later(rt, 791201, 60)?;
    put_later(rt, 000228, 1)?;
    put_later(rt, 000228, 2)?;
    put_later(rt, 790228, 1)?;
    put_later(rt, 800228, 2)
}

fn put_weekdays(rt: &HostRuntime) -> io::Result<()> {
    for yymmdd in [800101u32, 941015, 000101, 791231] {
        put_weekday(rt, yymmdd)?;
    }
    Ok(())
}

fn put_times(rt: &HostRuntime) -> io::Result<()> {
    for time in [000000u32, 235959, 240000, 236000] {
        let answer = if calendar::is_real_time(time) {
            "yes"
        } else {
            "no"
        };
        println!(rt; "time {time:06} real: {answer}")?;
    }
    Ok(())
}

fn main(rt: HostRuntime) -> io::Result<()> {
    put_old(&rt)?;
    put_dates(&rt)?;
    put_weekdays(&rt)?;
    put_times(&rt)
}
