// The command make: a file to send, and what was sent kept in the desk. The order of writes is that of the bank's `receive`: the file beside
// its name, flushed; the desk; the file's name; then what is said.
#![tactic(auto)]

mod batch;
mod stamps;

use batch::Stopped;
use bureau_file::Forgotten;
use bureau_help::Command;
use cli_files::Seen;
use cli_held::Held;
use cli_terminal::options::Words;
use cli_terminal::program::Program;
use cli_terminal::status::{Status, Told};
use cli_terminal::{say, status};
use size_limit::Growing;
use std::fs::File;
use std::io;

// What is asked for: the stamps' date and time, the clock value, how the batches are sent, the request, and how many batches there are; and
// the desk's file, which is never sent.
#[derive(Clone, Copy)]
pub struct Order {
    pub desk: Option<Seen>,
    pub day: u32,
    pub time: u32,
    pub clock: u64,
    pub skh: bool,
    pub crlf: bool,
    pub area: u8,
    pub request: u8,
    pub batches: usize,
}

// A file that was made: its number, and of how many bytes it is.
#[derive(Clone, Copy)]
struct Done {
    number: u64,
    bytes: u64,
    forgotten: Option<Forgotten>,
}

// ---- words

pub fn make(rt: &HostRuntime, words: &Words) -> Result<Status, Told> {
    bureau_help::are_as_many(rt, words, Command::Make, 8, 71)?;
    words.are_taken(rt, Program::Bureau, b"--ask --end --crlf --area-a ")?;
    let path = cli_names::of_kept(rt, Program::Bureau, words.word(2), b"DESK")?;
    make_words(rt, words, path.as_slice())
}

// What the bank is asked for, which can't be two things at once.
fn request(rt: &HostRuntime, words: &Words) -> Result<u8, Told> {
    let asks = words.is_given(b"--ask");
    let ends = words.is_given(b"--end");
    if asks && ends {
        say::expected(rt, Program::Bureau, b"--ask, --end", b"one of the two");
        return Err(Told);
    }
    if ends {
        return Ok(b'2');
    }
    if asks {
        return Ok(b'1');
    }
    Ok(b'0')
}

fn area(words: &Words) -> u8 {
    if words.is_given(b"--area-a") {
        return b'A';
    }
    b'S'
}

// Whether the method is SKH.
fn is_skh(rt: &HostRuntime, word: &[u8]) -> Result<bool, Told> {
    if text::same_bytes(word, b"SKH") {
        return Ok(true);
    }
    if text::same_bytes(word, b"SKE") {
        return Ok(false);
    }
    say::expected(rt, Program::Bureau, b"METHOD", b"SKH or SKE");
    Err(Told)
}

fn make_words(rt: &HostRuntime, words: &Words, path: &[u8]) -> Result<Status, Told> {
    let p = Program::Bureau;
    let day = cli_asked::date(rt, p, words.word(3))?;
    let time = cli_asked::digits(rt, p, words.word(4), 6, 6, b"TIME", b"six digits hhmmss")?;
    let clock = cli_asked::key(rt, p, words.word(5), b"CLOCK")?;
    let skh = is_skh(rt, words.word(6))?;
    let request = request(rt, words)?;
    let o = Order {
        desk: cli_files::of_name(rt, path).ok(),
        day,
        time,
        clock,
        skh,
        crlf: words.is_given(b"--crlf"),
        area: area(words),
        request,
        batches: words.count().wrapping_sub(8),
    };
    make_into(rt, words, path, &o)
}

fn make_into(rt: &HostRuntime, words: &Words, path: &[u8], o: &Order) -> Result<Status, Told> {
    let file = cli_names::of_made(rt, Program::Bureau, words.word(7), b"FILE")?;
    make_locked(rt, words, path, file.as_slice(), o)
}

// ---- files

fn make_locked(
    rt: &HostRuntime,
    words: &Words,
    path: &[u8],
    file: &[u8],
    o: &Order,
) -> Result<Status, Told> {
    let h = cli_held::take(rt, Program::Bureau, path)?;
    let done = under_lock(rt, words, path, file, &h, o);
    cli_held::release(rt, Program::Bureau, path, &h);
    answered(rt, done, o)
}

// Loads the desk and looks at the stamps.
fn under_lock(
    rt: &HostRuntime,
    words: &Words,
    path: &[u8],
    file: &[u8],
    h: &Held,
    o: &Order,
) -> Result<Done, Stopped> {
    let mut d = [0u8; 16640];
    bureau_show::is_loaded(rt, path, &mut d)?;
    if !stamps::are_real(o.day, o.time) {
        return Err(Stopped::Refused(13));
    }
    stamps::are_later(rt, bureau_file::last_stamp(&d), o.day, o.time)?;
    make_new(rt, words, path, file, h, o, &mut d)
}

// Makes DESK.new: from here on the names that this run may not give to its file are taken.
fn make_new(
    rt: &HostRuntime,
    words: &Words,
    path: &[u8],
    file: &[u8],
    h: &Held,
    o: &Order,
    d: &mut [u8],
) -> Result<Done, Stopped> {
    let kept = cli_table::begin(rt, Program::Bureau, path)?;
    if let Err(told) = cli_replies::is_free(rt, Program::Bureau, file) {
        cli_table::give_up(rt, path, kept);
        return Err(Stopped::from(told));
    }
    let out = match cli_replies::begin(rt, Program::Bureau, file, path, &h.run) {
        Ok(out) => out,
        Err(told) => {
            cli_replies::undo(rt, Program::Bureau, path, kept, &h.run);
            return Err(Stopped::from(told));
        }
    };
    make_file(rt, words, path, kept, file, out, h, o, d)
}

// Fills FILE.new, saves the desk and gives the file its name.
fn make_file(
    rt: &HostRuntime,
    words: &Words,
    path: &[u8],
    kept: File,
    file: &[u8],
    mut out: Growing,
    h: &Held,
    o: &Order,
    d: &mut [u8],
) -> Result<Done, Stopped> {
    let forgotten = room_for(d, o.batches);
    let bytes = match fill(rt, words, &mut out, file, o, d) {
        Ok(bytes) => bytes,
        Err(stopped) => {
            cli_replies::remove(rt, Program::Bureau, file, out.file(), &h.run);
            cli_replies::undo(rt, Program::Bureau, path, kept, &h.run);
            return Err(stopped);
        }
    };
    cli_replies::is_finished(
        rt,
        Program::Bureau,
        path,
        kept,
        h.seen,
        file,
        out.file(),
        &h.run,
        d,
    )?;
    Ok(Done {
        number: bureau_file::files(d),
        bytes,
        forgotten,
    })
}

// All of the file, written and flushed; how many bytes it has.
fn fill(
    rt: &HostRuntime,
    words: &Words,
    out: &mut Growing,
    file: &[u8],
    o: &Order,
    d: &mut [u8],
) -> Result<u64, Stopped> {
    let bytes = batch::fill(rt, words, out, file, o, d)?;
    cli_replies::is_flushed(rt, Program::Bureau, file, out.file())?;
    Ok(bytes)
}

// Room for an ESI and the batches.
fn room_for(d: &mut [u8], batches: usize) -> Option<Forgotten> {
    bureau_file::drop_answered(d);
    bureau_file::make_room(d, (batches as u64).wrapping_add(1))
}

// ---- what is said

fn answered(rt: &HostRuntime, done: Result<Done, Stopped>, o: &Order) -> Result<Status, Told> {
    match done {
        Ok(done) => {
            if let Some(forgotten) = done.forgotten {
                tell_forgotten(rt, forgotten);
            }
            status::served_if(say::is_said(
                rt,
                Program::Bureau,
                made(rt, &done, o),
                b"the file is made and the desk is saved, and that can't be written: ",
            ))
        }
        Err(Stopped::Refused(refusal)) => stamps::answer(rt, refusal, o.day),
        Err(Stopped::Told) => Err(Told),
    }
}

// The line of a file that was made.
fn made(rt: &HostRuntime, done: &Done, o: &Order) -> io::Result<()> {
    let number = done.number;
    let batches = o.batches;
    let noun = if batches == 1 { "batch" } else { "batches" };
    let bytes = done.bytes;
    println!(rt; "file {number}: ESI and {batches} {noun}, {bytes} bytes")
}

// What had to make room.
fn tell_forgotten(rt: &HostRuntime, f: Forgotten) {
    let Forgotten { count, first, last } = f;
    say::begin_line(rt, Program::Bureau);
    let _ = eprint!(rt;
        "the desk has room for 128 messages: the oldest that waited for a reply were forgotten, {count} of file {first}"
    );
    if first != last {
        let _ = eprint!(rt; " to {last}");
    }
    say::err(rt, b"; their replies can't be checked any more\n");
}
