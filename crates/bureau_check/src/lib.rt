// The command check: each reply of the bank against what was sent. The desk is saved before anything is said: a key that a reply enclosed
// comes only once.
#![tactic(auto)]

mod replies;
mod words;

use bureau_help::Command;
use cli_held::Held;
use cli_terminal::options::Words;
use cli_terminal::program::Program;
use cli_terminal::say;
use cli_terminal::status::{Status, Told};
use size_limit::Growing;
use std::fs::File;
use std::io;
use words::EsiWord;

// How far replies were checked: where the next one may begin, and whether all so far is well.
#[derive(Clone, Copy)]
struct Progress {
    from: usize,
    is_well: bool,
}

// ---- words

pub fn check(rt: &HostRuntime, words: &Words) -> Result<Status, Told> {
    bureau_help::are_as_many(rt, words, Command::Check, 4, 5)?;
    words.are_taken(rt, Program::Bureau, b"")?;
    let path = cli_names::of_kept(rt, Program::Bureau, words.word(2), b"DESK")?;
    check_words(rt, words, path.as_slice())
}

// The number of a file; 0 where the word is left out.
fn number(rt: &HostRuntime, words: &Words) -> Result<u32, Told> {
    if words.count() < 5 {
        return Ok(0);
    }
    cli_asked::digits(
        rt,
        Program::Bureau,
        words.word(4),
        1,
        9,
        b"NUMBER",
        b"the number of a file, as 'show' lists it",
    )
}

fn check_words(rt: &HostRuntime, words: &Words, path: &[u8]) -> Result<Status, Told> {
    let name = cli_names::of(rt, Program::Bureau, words.word(3), b"REPLIES")?;
    let file = number(rt, words)?;
    let mut input = cli_beside::open_told(
        rt,
        Program::Bureau,
        b"can't open the replies",
        name.as_slice(),
    )?;
    check_read(rt, path, name.as_slice(), &mut input, file as u64)
}

// All the replies at once: those of 64 messages are some 20,000 bytes.
fn check_read(
    rt: &HostRuntime,
    path: &[u8],
    name: &[u8],
    input: &mut File,
    file: u64,
) -> Result<Status, Told> {
    let mut r = [0u8; 65536];
    let n = cli_files::read_full(input, &mut r);
    let more = cli_beside::read_over(rt, Program::Bureau, input, b"can't read the replies", name)?;
    if more {
        cli_beside::tell(
            rt,
            Program::Bureau,
            name,
            b"too long for the replies to a file: expected at most 65536 bytes\n",
        );
        return Err(Told);
    }
    check_locked(rt, path, &r[..n], file)
}

// ---- the desk

fn check_locked(rt: &HostRuntime, path: &[u8], r: &[u8], asked: u64) -> Result<Status, Told> {
    let h = cli_held::take(rt, Program::Bureau, path)?;
    let mut d = [0u8; 16640];
    match loaded_for(rt, path, &mut d, r, asked) {
        Ok(file) => check_file(rt, path, &h, &mut d, r, file),
        Err(told) => {
            cli_held::release(rt, Program::Bureau, path, &h);
            Err(told)
        }
    }
}

// Loads the desk; the file that the replies are about.
fn loaded_for(
    rt: &HostRuntime,
    path: &[u8],
    d: &mut [u8],
    r: &[u8],
    asked: u64,
) -> Result<u64, Told> {
    bureau_show::is_loaded(rt, path, d)?;
    file_of(rt, path, d, r, asked)
}

// The file that the replies are about, or what is the matter.
fn file_of(rt: &HostRuntime, path: &[u8], d: &[u8], r: &[u8], asked: u64) -> Result<u64, Told> {
    if asked != 0 {
        if replies::next_of(d, asked, None, 0).is_some() {
            return Ok(asked);
        }
        cli_beside::tell(
            rt,
            Program::Bureau,
            path,
            b"the desk keeps no message of a file of that number: 'show' lists those that wait\n",
        );
        return Err(Told);
    }
    let Some(file) = replies::file_of(d, r) else {
        cli_beside::tell(
            rt,
            Program::Bureau,
            path,
            b"it can't be told which file these replies answer: name its NUMBER, 'show' lists those that wait\n",
        );
        return Err(Told);
    };
    Ok(file)
}

// Checks all, saves the desk where it changed, then lists what was found.
fn check_file(
    rt: &HostRuntime,
    path: &[u8],
    h: &Held,
    d: &mut [u8],
    r: &[u8],
    file: u64,
) -> Result<Status, Told> {
    let mut before = [0u8; 16640];
    text::copy(&mut before, d);
    match found(rt, path, d, r, file) {
        Ok((mut findings, is_well)) => {
            is_kept(rt, path, h, &before, d)?;
            listed(rt, &mut findings, is_well)
        }
        Err(told) => {
            cli_held::release(rt, Program::Bureau, path, h);
            Err(told)
        }
    }
}

// What was found, in a file of its own, and whether all is well.
fn found(
    rt: &HostRuntime,
    path: &[u8],
    d: &mut [u8],
    r: &[u8],
    file: u64,
) -> Result<(Growing, bool), Told> {
    let unnamed = cli_beside::nameless(
        rt,
        Program::Bureau,
        b"nothing was changed: can't make a file for the findings beside the desk",
        path,
    )?;
    let mut findings = Growing::new(rt, unnamed);
    match checked(&mut findings, d, r, file) {
        Ok(is_well) => Ok((findings, is_well)),
        Err(e) => {
            say::trouble(
                rt,
                Program::Bureau,
                b"nothing was changed: can't write the findings beside the desk",
                path,
                &e,
            );
            Err(Told)
        }
    }
}

fn is_kept(rt: &HostRuntime, path: &[u8], h: &Held, before: &[u8], d: &[u8]) -> Result<(), Told> {
    if text::same_bytes(before, d) {
        cli_held::release(rt, Program::Bureau, path, h);
        return Ok(());
    }
    cli_held::is_saved(rt, Program::Bureau, path, d, h)
}

fn listed(rt: &HostRuntime, findings: &mut Growing, is_well: bool) -> Result<Status, Told> {
    say::is_said(
        rt,
        Program::Bureau,
        cli_beside::is_copied(rt, findings.file_mut()),
        b"the desk is saved, and the findings can't be listed (check the replies again): ",
    )?;
    if is_well {
        return Ok(Status::Served);
    }
    Ok(Status::Refused)
}

// ---- the replies

// Checks them all; whether all is well.
fn checked(out: &mut Growing, d: &mut [u8], r: &[u8], file: u64) -> io::Result<bool> {
    let mut seen = [0u8; 128];
    let is_well = all_replies(out, d, &mut seen, r, file)?;
    let esi = esi_word(d, &seen, file);
    all_missing(out, d, &seen, file, esi, is_well)
}

fn all_replies(
    out: &mut Growing,
    d: &mut [u8],
    seen: &mut [u8; 128],
    r: &[u8],
    file: u64,
) -> io::Result<bool> {
    let mut progress = Progress {
        from: 0,
        is_well: true,
    };
    for line in r.split(|&b| b == b'\n') {
        progress = one_line(out, d, seen, line, file, progress)?;
    }
    Ok(progress.is_well)
}

// An empty line is no reply.
fn one_line(
    out: &mut Growing,
    d: &mut [u8],
    seen: &mut [u8; 128],
    ended: &[u8],
    file: u64,
    before: Progress,
) -> io::Result<Progress> {
    let line = cli_words::without_cr(ended);
    if line.is_empty() {
        return Ok(before);
    }
    let Some(i) = replies::answered_by(d, file, line, before.from) else {
        words::stray(out, file, line)?;
        return Ok(Progress {
            is_well: false,
            ..before
        });
    };
    one_reply(out, d, seen, line, i, before)
}

fn checked_as(d: &[u8], i: usize, line: &[u8]) -> desk::Checked {
    let h = bureau_file::held(d);
    let s = bureau_file::sent(d, i);
    if bureau_file::kind_of(d, i) == bureau_file::ESI {
        return desk::check_esi(h, s, line);
    }
    desk::check_pte(h, s, line)
}

// The four digits of the bank's code, of a reply that passes.
fn code_in(line: &[u8]) -> [u8; 4] {
    let mut code = [b'0'; 4];
    if let Some(digits) = line.get(12..16) {
        text::copy(&mut code, digits);
    }
    code
}

fn one_reply(
    out: &mut Growing,
    d: &mut [u8],
    seen: &mut [u8; 128],
    line: &[u8],
    i: usize,
    before: Progress,
) -> io::Result<Progress> {
    let c = checked_as(d, i, line);
    let passes = c.finding.is_ok();
    let key_before = working(d);
    bureau_file::set_held(d, c.held);
    answer(d, i, passes, c.letter, code_in(line));
    mark(seen, i, c.letter);
    words::reply(out, d, i, &c.finding, c.letter, line)?;
    tell_key(out, &key_before, &working(d))?;
    Ok(Progress {
        from: i.wrapping_add(1),
        is_well: before.is_well && passes && c.letter == b'K',
    })
}

// A message is answered once a reply to it passes.
fn answer(d: &mut [u8], i: usize, passes: bool, letter: u8, code: [u8; 4]) {
    if passes {
        bureau_file::set_answer(d, i, letter, code);
    }
}

// What a reply said of a message: that it came, and whether it is an E.
fn mark(seen: &mut [u8; 128], i: usize, letter: u8) {
    if let Some(place) = seen.get_mut(i) {
        *place = if letter == b'E' { 2 } else { 1 };
    }
}

fn working(d: &[u8]) -> desk::Keys {
    bureau_file::held(d).working
}

// A key that a reply brought is told with what to compare.
fn tell_key(out: &mut Growing, before: &desk::Keys, now: &desk::Keys) -> io::Result<()> {
    if before.generation == now.generation && before.key == now.key {
        return Ok(());
    }
    words::key(out, now)
}

// ---- messages without a reply

// What the bank said of the file's ESI, in these replies or before. After an E it read nothing more; but an E that doesn't pass may be
// anyone's, and who believes it may send twice what was accepted.
fn esi_word(d: &[u8], seen: &[u8; 128], file: u64) -> EsiWord {
    let Some(i) = replies::next_of(d, file, Some(bureau_file::ESI), 0) else {
        return EsiWord::NoRefusal;
    };
    let Some(&said) = seen.get(i) else {
        return EsiWord::NoRefusal;
    };
    if bureau_file::is_answered(d, i) {
        return passed_word(bureau_file::letter_of(d, i), bureau_file::code_of(d, i));
    }
    if said == 2 {
        return EsiWord::Doubted;
    }
    EsiWord::NoRefusal
}

// 1018: its stamp was used, so the bank has had the file before.
fn passed_word(letter: u8, code: [u8; 4]) -> EsiWord {
    if letter != b'E' {
        return EsiWord::NoRefusal;
    }
    if text::same_bytes(&code, b"1018") {
        return EsiWord::CameBefore;
    }
    EsiWord::Refused
}

fn all_missing(
    out: &mut Growing,
    d: &[u8],
    seen: &[u8; 128],
    file: u64,
    esi: EsiWord,
    is_well: bool,
) -> io::Result<bool> {
    let mut all_well = is_well;
    for i in 0..128 {
        if seen[i] == 0 && bureau_file::file_of(d, i) == file {
            words::missing(out, d, i, esi)?;
            all_well = all_well && was_accepted(d, i);
        }
    }
    Ok(all_well)
}

// Whether the bank accepted a message, in a reply that was checked before.
fn was_accepted(d: &[u8], i: usize) -> bool {
    bureau_file::is_answered(d, i) && bureau_file::letter_of(d, i) == b'K'
}
