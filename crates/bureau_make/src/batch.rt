// What stands in a file: the ESI, and each batch from its SUO to its VAR.
use crate::{Order, stamps};
use bureau_records::{Bad, Fault, Lines, Way};
use cli_files::Seen;
use cli_terminal::options::Words;
use cli_terminal::program::Program;
use cli_terminal::say;
use cli_terminal::status::Told;
use size_limit::Growing;
use std::fs::File;
use std::io::{Read, Write};

// Why a file is not made: trouble that was told, or a refusal to answer.
#[derive(Clone, Copy)]
pub enum Stopped {
    Told,
    Refused(u32),
}

impl From<Told> for Stopped {
    fn from(_told: Told) -> Stopped {
        Stopped::Told
    }
}

// ---- writing

// Bytes more, if the file stays within its limit; how many it has then.
fn put(
    rt: &HostRuntime,
    out: &mut Growing,
    file: &[u8],
    before: u64,
    s: &[u8],
) -> Result<u64, Stopped> {
    let bytes = before.wrapping_add(s.len() as u64);
    if 4294967295 < bytes {
        cli_beside::tell(
            rt,
            Program::Bureau,
            file,
            b"nothing was changed: the file would have more than 4294967295 bytes: put fewer RECORDS into it\n",
        );
        return Err(Stopped::Told);
    }
    if let Err(e) = out.write_all(s) {
        cli_beside::trouble_new(
            rt,
            Program::Bureau,
            b"nothing was changed: can't write the $w",
            file,
            &e,
        );
        return Err(Stopped::Told);
    }
    say::progress(rt, before, bytes);
    Ok(bytes)
}

// A message and the end of its line.
fn put_line(
    rt: &HostRuntime,
    out: &mut Growing,
    file: &[u8],
    before: u64,
    s: &[u8],
    crlf: bool,
) -> Result<u64, Stopped> {
    let bytes = put(rt, out, file, before, s)?;
    let end = if crlf {
        b"\r\n".as_slice()
    } else {
        b"\n".as_slice()
    };
    put(rt, out, file, bytes, end)
}

// ---- the file

// The file's number: one more than were made.
fn number(d: &[u8]) -> u64 {
    bureau_file::files(d).wrapping_add(1)
}

// The request goes into the last message: the bank would read what comes after it under another key.
fn request_of(o: &Order, k: usize) -> u8 {
    if k == o.batches { o.request } else { b'0' }
}

fn put_esi(
    rt: &HostRuntime,
    out: &mut Growing,
    file: &[u8],
    o: &Order,
    d: &mut [u8],
) -> Result<u64, Stopped> {
    let m = build::build_esi(
        bureau_file::held(d),
        bureau_file::software(d),
        stamps::stamp(o.day, o.time, 1),
        request_of(o, 0),
    );
    if m.refusal != 0 {
        return Err(Stopped::Refused(m.refusal));
    }
    let file_number = number(d);
    bureau_file::add(d, m.sent, file_number, bureau_file::ESI);
    put_line(rt, out, file, 0, &m.text, o.crlf)
}

// All of the file; what was sent, the key maker and the last stamp go into the desk.
pub fn fill(
    rt: &HostRuntime,
    words: &Words,
    out: &mut Growing,
    file: &[u8],
    o: &Order,
    d: &mut [u8],
) -> Result<u64, Stopped> {
    let mut bytes = put_esi(rt, out, file, o, d)?;
    for k in 0..o.batches {
        bytes = put_batch(rt, words, out, file, o, d, bytes, k + 1)?;
    }
    finish(o, d);
    Ok(bytes)
}

// The file that is written is one more, and its last stamp the last of all.
fn finish(o: &Order, d: &mut [u8]) {
    let last = stamps::stamp(o.day, o.time, o.batches.wrapping_add(1));
    let file_number = number(d);
    bureau_file::set_file(d, file_number, last);
}

// ---- a batch

fn method(skh: bool) -> [u8; 3] {
    if skh { *b"SKH" } else { *b"SKE" }
}

fn digested(skh: bool) -> digest::Method {
    if skh {
        digest::Method::Skh
    } else {
        digest::Method::Ske
    }
}

fn given(o: &Order, software: [u8; 16], k: usize) -> build::Given {
    build::Given {
        software,
        method: method(o.skh),
        stamp: stamps::stamp(o.day, o.time, k.wrapping_add(1)),
        area: o.area,
    }
}

// Batch k: its SUO, with a one-time key of its own.
fn put_batch(
    rt: &HostRuntime,
    words: &Words,
    out: &mut Growing,
    file: &[u8],
    o: &Order,
    d: &mut [u8],
    before: u64,
    k: usize,
) -> Result<u64, Stopped> {
    let clock = keys::clock_value(o.clock, (k as u64).wrapping_sub(1));
    let m = build::make_suo(
        bureau_file::held(d),
        bureau_file::maker(d),
        clock,
        given(o, bureau_file::software(d), k),
    );
    if m.built.refusal != 0 {
        return Err(Stopped::Refused(m.built.refusal));
    }
    bureau_file::set_maker(d, m.maker);
    let b = m.built.batch;
    let bytes = put_line(rt, out, file, before, &b.suo, o.crlf)?;
    put_records(rt, words, out, file, o, d, bytes, k, b)
}

// The records and the VAR.
fn put_records(
    rt: &HostRuntime,
    words: &Words,
    out: &mut Growing,
    file: &[u8],
    o: &Order,
    d: &mut [u8],
    before: u64,
    k: usize,
    b: build::Batch,
) -> Result<u64, Stopped> {
    let word = words.word(k.wrapping_add(7));
    let path = cli_names::of(rt, Program::Bureau, word, b"RECORDS")?;
    let path = path.as_slice();
    let mut input = cli_beside::open_told(rt, Program::Bureau, b"can't open the records", path)?;
    is_other(rt, o.desk, &input, out.file())?;
    let way = bureau_records::way_of(b.once, digested(o.skh), o.crlf);
    let copied = copy(rt, &mut input, path, out, file, before, way)?;
    let whole = build::Batch {
        state: copied.state,
        ..b
    };
    put_var(rt, out, file, o, d, copied.bytes, k, whole)
}

// Whether records are a file of their own: the desk holds keys, and the file that is being written would never end.
fn is_other(rt: &HostRuntime, desk: Option<Seen>, input: &File, out: &File) -> Result<(), Told> {
    let seen = cli_files::of_open(input).ok();
    if cli_files::are_same(seen, desk) || cli_files::are_same(seen, cli_files::of_open(out).ok()) {
        say::expected(
            rt,
            Program::Bureau,
            b"RECORDS",
            b"another file than DESK and FILE; nothing was changed",
        );
        return Err(Told);
    }
    Ok(())
}

fn put_var(
    rt: &HostRuntime,
    out: &mut Growing,
    file: &[u8],
    o: &Order,
    d: &mut [u8],
    before: u64,
    k: usize,
    b: build::Batch,
) -> Result<u64, Stopped> {
    let m = build::build_var(b, request_of(o, k));
    if m.refusal != 0 {
        return Err(Stopped::Refused(m.refusal));
    }
    let file_number = number(d);
    bureau_file::add(d, m.sent, file_number, bureau_file::BATCH);
    put_line(rt, out, file, before, &m.text, o.crlf)
}

// ---- the records

// How many bytes the file has with a file of records, and the digest of them all.
#[derive(Clone, Copy)]
struct Copied {
    bytes: u64,
    state: digest::State,
}

// A file of records to its end. A proved loop has to end and nothing says that a file does, so it counts turns up to a number that no run
// reaches.
fn copy(
    rt: &HostRuntime,
    input: &mut File,
    path: &[u8],
    out: &mut Growing,
    file: &[u8],
    before: u64,
    way: Way,
) -> Result<Copied, Stopped> {
    let mut now = Stand {
        lines: bureau_records::begin(),
        bytes: before,
        is_ended: false,
    };
    for _ in 0..u64::MAX {
        now = turn(rt, input, path, out, file, now.bytes, way, now.lines)?;
        if now.is_ended {
            return Ok(Copied {
                bytes: now.bytes,
                state: bureau_records::state_of(now.lines),
            });
        }
    }
    Err(Stopped::Told)
}

// How far records are copied.
#[derive(Clone, Copy)]
struct Stand {
    lines: Lines,
    bytes: u64,
    is_ended: bool,
}

// One read of the records, or their end.
fn turn(
    rt: &HostRuntime,
    input: &mut File,
    path: &[u8],
    out: &mut Growing,
    file: &[u8],
    before: u64,
    way: Way,
    lines: Lines,
) -> Result<Stand, Stopped> {
    let mut part = [0u8; 16384];
    let mut room = [0u8; 65536];
    let n = match input.read(&mut part) {
        Ok(n) => n,
        Err(e) => {
            say::trouble(
                rt,
                Program::Bureau,
                b"nothing was changed: can't read the records",
                path,
                &e,
            );
            return Err(Stopped::Told);
        }
    };
    let next = if n == 0 {
        bureau_records::finish(way, lines, &mut room)
    } else {
        bureau_records::next(way, lines, &part[..n], &mut room)
    };
    let next = match next {
        Ok(next) => next,
        Err(bad) => {
            tell_fault(rt, path, bad);
            return Err(Stopped::Told);
        }
    };
    let bytes = put_lines(rt, path, out, file, before, &next, &room)?;
    if n == 0 {
        with_characters(rt, path, &next)?;
    }
    Ok(Stand {
        lines: next,
        bytes,
        is_ended: n == 0,
    })
}

// What a part left in the room.
fn put_lines(
    rt: &HostRuntime,
    path: &[u8],
    out: &mut Growing,
    file: &[u8],
    before: u64,
    l: &Lines,
    room: &[u8],
) -> Result<u64, Stopped> {
    let Some(filled) = room.get(..l.filled) else {
        tell_fault(
            rt,
            path,
            Bad {
                line: l.line,
                fault: Fault::NoRoom,
            },
        );
        return Err(Stopped::Told);
    };
    put(rt, out, file, before, filled)
}

// Without a character there is no digest, and the bank refuses the batch.
fn with_characters(rt: &HostRuntime, path: &[u8], l: &Lines) -> Result<(), Told> {
    if bureau_records::state_of(*l).n != 0 {
        return Ok(());
    }
    cli_beside::tell(
        rt,
        Program::Bureau,
        path,
        b"no character in it that is digested: expected records; nothing was changed\n",
    );
    Err(Told)
}

fn tell_fault(rt: &HostRuntime, path: &[u8], bad: Bad) {
    cli_beside::tell(rt, Program::Bureau, path, b"line ");
    let line = bad.line;
    let _ = eprint!(rt; "{line}");
    match bad.fault {
        Fault::LikeMessage => say::err(
            rt,
            b" begins like a message: expected records that don't begin with >>ESI, >>SUO or >>VAR; nothing was changed\n",
        ),
        Fault::EndsInCr => say::err(
            rt,
            b" ends in a CR of its own: expected records that LF or CR LF ends; nothing was changed\n",
        ),
        Fault::NoRoom => say::err(rt, b" has no room; nothing was changed\n"),
    }
}
