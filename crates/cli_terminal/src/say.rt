// What is said: answers on standard output, trouble on standard error, one line each. A text that both programs say has marks where they
// differ: $p the program, $k what it keeps, $m the command that makes that, $n its size, $w what it writes beside it, $W the word for it.
use crate::program::Program;
use crate::status;
use crate::status::{Status, Told};
use std::io;
use std::io::IsTerminal;

pub fn out(rt: &HostRuntime, text: &[u8]) -> io::Result<()> {
    rt.write_all(text)
}

// What can't be written there can't be told.
pub fn err(rt: &HostRuntime, text: &[u8]) {
    let _ = Print::write_all(&rt.stderr(), text);
}

// A line that has no more to say.
pub fn end_line(rt: &HostRuntime) {
    err(rt, b"\n");
}

// Why the system says so, in its words alone: std adds the number, as ' (os error 2)'.
fn why(rt: &HostRuntime, e: &io::Error) {
    let Ok(words) = format!(in rt.alloc(); "{e}") else {
        err(rt, b"out of memory");
        return;
    };
    let words = words.as_str();
    match words.find(" (os error ") {
        Some(at) => err(rt, words[..at].as_bytes()),
        None => err(rt, words.as_bytes()),
    }
}

// The end of a line: a name, and why the system says so.
pub fn fail(rt: &HostRuntime, name: &[u8], e: &io::Error) {
    err(rt, name);
    err(rt, b": ");
    why(rt, e);
    end_line(rt);
}

// What a mark stands for: in the bank's program, and in the customer's.
// kept: a text goes through `trouble`, `of_file` and `expected` as the bytes that the customer's crates give them too; formats would stand
// at each of some fifty calls, with the same five words after each.
fn mark(p: Program, m: u8) -> &'static [u8] {
    match m {
        b'k' => one_of(p, b"table", b"desk"),
        b'm' => one_of(p, b"setup", b"open"),
        b'n' => one_of(p, b"49152", b"16640"),
        b'p' => one_of(p, b"lentilpot", b"bureau"),
        b'w' => one_of(p, b"replies", b"messages"),
        b'W' => one_of(p, b"REPLIES", b"FILE"),
        b'a' => one_of(
            p,
            b"stamps would be accepted twice",
            b"its keys would be lost",
        ),
        b'A' => one_of(p, b"stamps are accepted twice", b"its keys are lost"),
        b'u' => one_of(p, b"used stamps", b"keys"),
        _ => one_of(p, b"says that their stamps are held", b"lists their stamps"),
    }
}

fn one_of<'a>(p: Program, banks: &'a [u8], customers: &'a [u8]) -> &'a [u8] {
    match p {
        Program::Lentilpot => banks,
        Program::Bureau => customers,
    }
}

// A text with what its marks stand for.
pub fn told(rt: &HostRuntime, p: Program, text: &[u8]) {
    let mut parts = text.split(|&b| b == b'$');
    if let Some(first) = parts.next() {
        err(rt, first);
    }
    for part in parts {
        if let Some((&m, rest)) = part.split_first() {
            err(rt, mark(p, m));
            err(rt, rest);
        }
    }
}

// A line begins with the program's name.
pub fn begin_line(rt: &HostRuntime, p: Program) {
    told(rt, p, b"$p: ");
}

// A word of the wrong form. What the word was is not said, since it may be a key.
pub fn expected(rt: &HostRuntime, p: Program, name: &[u8], what: &[u8]) {
    begin_line(rt, p);
    err(rt, name);
    err(rt, b": expected ");
    told(rt, p, what);
    end_line(rt);
}

// A file with which something can't be done, and why the system says so.
pub fn trouble(rt: &HostRuntime, p: Program, what: &[u8], path: &[u8], e: &io::Error) {
    trouble_beside(rt, p, what, path, b"", e);
}

// The same of the file beside a name.
pub fn trouble_beside(
    rt: &HostRuntime,
    p: Program,
    what: &[u8],
    path: &[u8],
    ending: &[u8],
    e: &io::Error,
) {
    begin_line(rt, p);
    told(rt, p, what);
    err(rt, b": ");
    err(rt, path);
    fail(rt, ending, e);
}

// A file of which something is to be told.
pub fn of_file(rt: &HostRuntime, p: Program, path: &[u8], ending: &[u8], what: &[u8]) {
    begin_line(rt, p);
    err(rt, path);
    err(rt, ending);
    err(rt, b": ");
    told(rt, p, what);
}

// A name in quotes: a quote itself is written '\'' , so that what is told can be typed for any name.
fn inside_quotes(rt: &HostRuntime, name: &[u8]) {
    for &b in name {
        match b {
            b'\'' => err(rt, b"'\\''"),
            _ => err(rt, &[b]),
        }
    }
}

// A file's name in a command to type.
pub fn quoted(rt: &HostRuntime, path: &[u8], ending: &[u8]) {
    err(rt, b" '");
    inside_quotes(rt, path);
    err(rt, ending);
    err(rt, b"'");
}

// How far a long file is: on a terminal, a line that is written over after each 4 MB.
pub fn progress(rt: &HostRuntime, before: u64, now: u64) {
    if before / 4000000 == now / 4000000 {
        return;
    }
    if rt.stderr().is_terminal() {
        let megabytes = now / 1000000;
        let _ = eprint!(rt; "\r{megabytes} MB \r");
    }
}

// Why a call is refused, in a few words: document 01, 'Call refusals'.
fn reason(refusal: u32) -> &'static [u8] {
    match refusal {
        1 => b"the room for a reply is too small\n",
        2 => b"the file holds no table\n",
        3 => b"the file's session is not open\n",
        4 => b"a date or time isn't real, or the day is before the table's\n",
        5 => b"the table has 32 customers already\n",
        6 => b"a customer with this identity and qualifier is there already\n",
        7 => b"there is no customer with this identity and qualifier\n",
        8 => b"the parity of a key part is even\n",
        9 => b"the check value differs\n",
        10 => b"the new transport generation isn't the next\n",
        11 => b"an argument is outside its limits\n",
        13 => b"a field breaks the rules of the messages\n",
        _ => b"the changeover from the previous key is not past\n",
    }
}

// A line of an answer that was written, or that could not be.
pub fn is_said(
    rt: &HostRuntime,
    p: Program,
    written: io::Result<()>,
    what: &[u8],
) -> Result<(), Told> {
    written.map_err(|e| {
        begin_line(rt, p);
        told(rt, p, what);
        fail(rt, b"standard output", &e);
        Told
    })
}

fn refused(rt: &HostRuntime, refusal: u32) -> io::Result<()> {
    print!(rt; "refused {refusal}: ")
}

// How a refusal ends whose answer line was written, or could not be.
pub fn refused_as(rt: &HostRuntime, p: Program, written: io::Result<()>) -> Result<Status, Told> {
    status::refused_if(is_said(
        rt,
        p,
        written,
        b"the call was refused, and the answer can't be written: ",
    ))
}

// The answer line of a call that a word outside its limits has refused.
fn limits(rt: &HostRuntime, name: &[u8], what: &[u8]) -> io::Result<()> {
    refused(rt, 11)?;
    out(rt, name)?;
    out(rt, b" is outside its limits: expected ")?;
    out(rt, what)?;
    out(rt, b"\n")
}

pub fn answer_limits(
    rt: &HostRuntime,
    p: Program,
    name: &[u8],
    what: &[u8],
) -> Result<Status, Told> {
    refused_as(rt, p, limits(rt, name, what))
}

fn refusal_line(rt: &HostRuntime, refusal: u32) -> io::Result<()> {
    refused(rt, refusal)?;
    out(rt, reason(refusal))
}

// The answer line of a call.
pub fn answer(rt: &HostRuntime, p: Program, refusal: u32) -> Result<Status, Told> {
    if refusal == 0 {
        return status::served_if(is_said(
            rt,
            p,
            out(rt, b"ok\n"),
            b"the call was served, and 'ok' can't be written: ",
        ));
    }
    refused_as(rt, p, refusal_line(rt, refusal))
}
