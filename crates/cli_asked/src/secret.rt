// A key, a part or another value in hex digits: the word itself, the next line of standard input for `-`, or the first line of a file for
// `@NAME`. On the command line every user of the machine can see it while the command runs.
ghost use Rattle.std.specs.Prelude.{◌≤◌, length};

use cli_terminal::program::Program;
use cli_terminal::say;
use cli_terminal::status::Told;
use std::io::{IsTerminal, Read};

// One byte at a time, so that nothing past the line is taken from standard input.
fn next_byte<R: Read>(input: &mut R) -> Option<u8> {
    let mut one = [0u8; 1];
    match input.read(&mut one) {
        Ok(1) => Some(one[0]),
        _ => None,
    }
}

// The bytes of a line up to its LF, as many as fit.
fn line<R: Read>(input: &mut R, room: &mut [u8]) -> usize
    ensures { result ≤ length room.new }
{
    let size = room.len();
    for (i, place) in room.iter_mut().enumerate() {
        match next_byte(input) {
            Some(b) if b != b'\n' => *place = b,
            _ => return i,
        }
    }
    size
}

// A line's hex digits.
fn line_of<R: Read>(input: &mut R, width: usize) -> Option<u64> {
    let mut room = [0u8; 4096];
    let n = line(input, &mut room);
    cli_words::hex_digits(cli_words::without_cr(&room[..n]), width)
}

// A value that is asked for: of how many hex digits, under which name, and what is expected there.
#[derive(Clone, Copy)]
pub struct Wanted<'a> {
    pub width: usize,
    pub name: &'a [u8],
    pub what: &'a [u8],
}

// The value, or what is expected and where.
fn told(
    rt: &HostRuntime,
    p: Program,
    value: Option<u64>,
    wanted: Wanted,
    place: &[u8],
) -> Result<u64, Told> {
    value.ok_or_else(|| {
        say::begin_line(rt, p);
        say::err(rt, wanted.name);
        say::err(rt, b": expected ");
        say::err(rt, wanted.what);
        say::err(rt, place);
        say::end_line(rt);
        Told
    })
}

fn from_input(rt: &HostRuntime, p: Program, wanted: Wanted) -> Result<u64, Told> {
    let mut input = rt.stdin();
    if input.is_terminal() {
        say::err(rt, wanted.name);
        say::err(rt, b": ");
    }
    let value = line_of(&mut input, wanted.width);
    told(
        rt,
        p,
        value,
        wanted,
        b", as the next line of standard input",
    )
}

// A value that isn't one may be a file that can't be read: a folder can be opened and not read.
fn from_file(rt: &HostRuntime, p: Program, path: &[u8], wanted: Wanted) -> Result<u64, Told> {
    let mut file = cli_files::open(rt, path).map_err(|e| {
        say::trouble(rt, p, b"can't open the file that holds a key", path, &e);
        Told
    })?;
    let value = line_of(&mut file, wanted.width);
    if value.is_none() {
        file.read(&mut [0u8; 1]).map_err(|e| {
            say::trouble(rt, p, b"can't read the file that holds a key", path, &e);
            Told
        })?;
    }
    told(rt, p, value, wanted, b", as the first line of its file")
}

// Whether a word says where its value is, and is not the value.
pub fn is_elsewhere(word: &[u8]) -> bool {
    word.starts_with(b"@") || word == b"-".as_slice()
}

// A word as a value of that many hex digits.
pub fn block(rt: &HostRuntime, p: Program, word: &[u8], wanted: Wanted) -> Result<u64, Told> {
    if let Some((&b'@', path)) = word.split_first() {
        crate::is_in_utf8(rt, p, wanted.name, path)?;
        return from_file(rt, p, path, wanted);
    }
    if word == b"-".as_slice() {
        return from_input(rt, p, wanted);
    }
    told(
        rt,
        p,
        cli_words::hex_digits(word, wanted.width),
        wanted,
        b"",
    )
}
