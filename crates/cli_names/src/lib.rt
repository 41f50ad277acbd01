// Names of files, made whole at the start: what is told and kept of them is then right from any folder, and begins with no dash.
#![tactic(auto)]

use cli_terminal::program::Program;
use cli_terminal::say;
use cli_terminal::status::Told;
use std::io;

// The folder that the program runs in, and a slash.
fn here(rt: &HostRuntime) -> Option<Vec<u8>> {
    let folder = cli_files::link_text(rt, b"/proc/self/cwd").ok()?;
    cli_beside::beside(rt, folder.as_bytes(), b"/").ok()
}

// A name that there is room for.
fn made(
    rt: &HostRuntime,
    p: Program,
    label: &[u8],
    name: &[u8],
    ending: &[u8],
) -> Result<Vec<u8>, Told> {
    cli_beside::beside(rt, name, ending).map_err(|e| {
        say::begin_line(rt, p);
        say::fail(rt, label, &io::Error::from(e));
        Told
    })
}

// A name below the folder that the program runs in, or what is the matter.
fn below_here(rt: &HostRuntime, p: Program, label: &[u8], word: &[u8]) -> Result<Vec<u8>, Told> {
    let Some(folder) = here(rt) else {
        say::expected(
            rt,
            p,
            label,
            b"a name that begins with '/', since the system doesn't tell which folder this is",
        );
        return Err(Told);
    };
    made(rt, p, label, &folder, word)
}

// The whole name that a word gives, or what is the matter.
fn of_word(rt: &HostRuntime, p: Program, label: &[u8], word: &[u8]) -> Result<Vec<u8>, Told> {
    cli_asked::is_file(rt, p, label, word)?;
    cli_asked::is_in_utf8(rt, p, label, word)?;
    if word.starts_with(b"/") {
        return made(rt, p, label, word, b"");
    }
    below_here(rt, p, label, word)
}

// A word as a file's whole name, or what is the matter.
pub fn of(rt: &HostRuntime, p: Program, word: &[u8], label: &[u8]) -> Result<Vec<u8>, Told> {
    let name = of_word(rt, p, label, word)?;
    cli_asked::is_file(rt, p, label, &name)?;
    Ok(name)
}

// How many bytes of a name are past its folder.
fn own_length(name: &[u8]) -> usize {
    match name.iter().rposition(|&b| b == b'/') {
        Some(at) => name[at..].len() - 1,
        None => name.len(),
    }
}

// A word as the name of a file beside which others have names that a folder takes, of at most 255 bytes.
fn of_short(
    rt: &HostRuntime,
    p: Program,
    word: &[u8],
    label: &[u8],
    most: usize,
    what: &[u8],
) -> Result<Vec<u8>, Told> {
    let name = of(rt, p, word, label)?;
    if own_length(&name) <= most {
        return Ok(name);
    }
    say::expected(rt, p, label, what);
    Err(Told)
}

// A word as the name of a table or a desk, which gets endings of up to 11 bytes.
pub fn of_kept(rt: &HostRuntime, p: Program, word: &[u8], label: &[u8]) -> Result<Vec<u8>, Told> {
    let what = b"the name of a file, of at most 244 bytes past its folder";
    of_short(rt, p, word, label, 244, what)
}

// A word as the name of replies or messages to make, which get endings of up to 17 bytes.
pub fn of_made(rt: &HostRuntime, p: Program, word: &[u8], label: &[u8]) -> Result<Vec<u8>, Told> {
    let what = b"the name of a file, of at most 238 bytes past its folder";
    of_short(rt, p, word, label, 238, what)
}

// The same of the file to receive, of which `-` is standard input.
pub fn of_input(rt: &HostRuntime, p: Program, word: &[u8]) -> Result<Vec<u8>, Told> {
    if word == b"-".as_slice() {
        return made(rt, p, b"FILE", b"-", b"");
    }
    of(rt, p, word, b"FILE")
}
