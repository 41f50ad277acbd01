// Who a lock, or replies under way, are of: a process and sixteen random letters of the run, in one line, and perhaps a name in the next.
#![tactic(auto)]

use cli_terminal::program::Program;
use cli_terminal::say;
use cli_terminal::status::Told;
use std::process;
use std::random::RandomSource;

// A process, by its number, and the letters of its run.
#[derive(Clone, Copy, Debug, PartialEq, Eq)]
pub struct Run {
    pub process: u32,
    pub letters: [u8; 16],
}

fn letter(b: u8) -> u8 {
    b'A' + b % 16
}

// This process, on a run of its own.
pub fn begun(rt: &HostRuntime, p: Program) -> Result<Run, Told> {
    let mut letters = [0u8; 16];
    rt.fill_bytes(&mut letters).map_err(|e| {
        say::trouble(rt, p, b"can't begin a run", b"random bytes", &e);
        Told
    })?;
    for b in letters.iter_mut() {
        *b = letter(*b);
    }
    let process = process::id(rt.process());
    Ok(Run { process, letters })
}

// The line: ten digits, a blank, the letters, LF.
pub fn line(r: &Run) -> [u8; 28] {
    let mut line = [b' '; 28];
    text::write_number(&mut line[..10], r.process as u64);
    line[11..27].copy_from_slice(&r.letters);
    line[27] = b'\n';
    line
}

// The letters as the ending of a name that no other run gives.
pub fn ending(r: &Run) -> [u8; 17] {
    let mut ending = [b'.'; 17];
    ending[1..].copy_from_slice(&r.letters);
    ending
}

// What a file says, if it begins with such a line.
pub fn read(file: &[u8]) -> Option<Run> {
    let line = file.get(..28)?;
    if line[10] != b' ' || line[27] != b'\n' {
        return None;
    }
    let process = cli_words::digits(&line[..10], 10, 10).filter(|&n| n != 0)?;
    let mut letters = [0u8; 16];
    letters.copy_from_slice(&line[11..27]);
    Some(Run { process, letters })
}

// The name in the line after it; none where that line has no end.
pub fn name(file: &[u8]) -> &[u8] {
    let Some(rest) = file.get(28..) else {
        return b"";
    };
    match rest.iter().position(|&b| b == b'\n') {
        Some(end) => &rest[..end],
        None => b"",
    }
}

// Whether the process of a run lives. Where the system shows no other process, every one counts as living, so that no mend is told of what
// may be held.
pub fn is_living(rt: &HostRuntime, r: &Run) -> bool {
    r.process <= 2147483647 && (!is_shown(rt, 1) || is_shown(rt, r.process))
}

// Whether the system shows a process of that number; so too where it can't be asked.
fn is_shown(rt: &HostRuntime, process: u32) -> bool {
    match format!(in rt.alloc(); "/proc/{process}") {
        Ok(path) => cli_files::of_name(rt, path.as_bytes()).is_ok(),
        Err(_) => true,
    }
}

// The number of the process, in what is told.
pub fn tell(rt: &HostRuntime, r: &Run) {
    let _ = eprint!(rt; "process {}", r.process);
}
