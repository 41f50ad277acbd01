// The command show: what a desk holds, with check values for keys.
#![tactic(auto)]

use bureau_help::Command;
use cli_terminal::options::Words;
use cli_terminal::program::Program;
use cli_terminal::status::{Status, Told};
use cli_terminal::{say, status};
use std::io;

// ---- the keys

fn before(rt: &HostRuntime, b: Option<desk::Numbered>) -> io::Result<()> {
    let Some(k) = b else {
        return Ok(());
    };
    say::out(rt, b", previous ")?;
    cli_shown::generation(rt, k.generation, k.key)
}

fn key_pair(rt: &HostRuntime, label: &[u8], k: &desk::Keys) -> io::Result<()> {
    say::out(rt, label)?;
    say::out(rt, b"generation ")?;
    cli_shown::generation(rt, k.generation, k.key)?;
    before(rt, k.before)?;
    say::out(rt, b"\n")
}

// The keys, in the words of the bank's `show`, to be compared by telephone.
pub fn keys(rt: &HostRuntime, h: &desk::Held) -> io::Result<()> {
    key_pair(rt, b"transport   ", &h.transport)?;
    key_pair(rt, b"working     ", &h.working)
}

// ---- the desk

fn names(rt: &HostRuntime, h: &desk::Held, software: &[u8; 16]) -> io::Result<()> {
    cli_shown::who(rt, b"customer    ", &h.own, 17)?;
    cli_shown::who(rt, b"bank        ", &h.bank, 17)?;
    say::out(rt, b"software    ")?;
    cli_shown::name(rt, software)?;
    say::out(rt, b"\n")
}

fn last(rt: &HostRuntime, stamp: &[u8; 15]) -> io::Result<()> {
    if stamp[0] == 0 {
        return say::out(rt, b"last stamp  none\n");
    }
    say::out(rt, b"last stamp  ")?;
    say::out(rt, stamp)?;
    say::out(rt, b"\n")
}

// Which message of its file an entry is: the stamps of a file count from 001, the ESI's.
pub fn place(d: &[u8], i: usize) -> u64 {
    let stamp = bureau_file::stamp_of(d, i);
    text::number(&stamp[12..15]).wrapping_sub(1)
}

// Whether an entry has no reply yet that passes.
fn is_waiting(d: &[u8], i: usize) -> bool {
    bureau_file::file_of(d, i) != 0 && !bureau_file::is_answered(d, i)
}

fn waiting(rt: &HostRuntime, d: &[u8], i: usize) -> io::Result<()> {
    if !is_waiting(d, i) {
        return Ok(());
    }
    say::out(rt, b"  file ")?;
    cli_shown::number(rt, bureau_file::file_of(d, i))?;
    say_place(rt, bureau_file::kind_of(d, i), place(d, i))?;
    say::out(rt, &bureau_file::stamp_of(d, i))?;
    say::out(rt, b"\n")
}

fn say_place(rt: &HostRuntime, kind: u8, n: u64) -> io::Result<()> {
    if kind == bureau_file::ESI {
        return say::out(rt, b" ESI ");
    }
    say::out(rt, b" batch ")?;
    cli_shown::number(rt, n)?;
    say::out(rt, b" ")
}

fn all_waiting(rt: &HostRuntime, d: &[u8]) -> io::Result<()> {
    for i in 0..128 {
        waiting(rt, d, i)?;
    }
    Ok(())
}

// How many entries have no reply yet that passes.
fn count_waiting(d: &[u8]) -> u64 {
    (0..128usize).filter(|&i| is_waiting(d, i)).count() as u64
}

fn messages(rt: &HostRuntime, d: &[u8]) -> io::Result<()> {
    say::out(rt, b"files made  ")?;
    cli_shown::number(rt, bureau_file::files(d))?;
    say::out(rt, b"\nwaiting     ")?;
    cli_shown::number(rt, count_waiting(d))?;
    say::out(rt, b"\n")?;
    all_waiting(rt, d)
}

// ---- the command

fn whole(rt: &HostRuntime, d: &[u8]) -> io::Result<()> {
    let h = bureau_file::held(d);
    names(rt, &h, &bureau_file::software(d))?;
    keys(rt, &h)?;
    last(rt, &bureau_file::last_stamp(d))?;
    messages(rt, d)
}

fn shown(rt: &HostRuntime, d: &[u8]) -> Result<Status, Told> {
    status::served_if(say::is_said(
        rt,
        Program::Bureau,
        whole(rt, d),
        b"the desk can't be shown: ",
    ))
}

// Loads a desk, or says what is the matter.
pub fn is_loaded(rt: &HostRuntime, path: &[u8], d: &mut [u8]) -> Result<(), Told> {
    cli_table::load(rt, Program::Bureau, path, d)?;
    if bureau_file::is_desk(d) {
        return Ok(());
    }
    cli_beside::tell(
        rt,
        Program::Bureau,
        path,
        b"not a desk, or a damaged one: expected a file that 'open' made; put back a copy\n",
    );
    Err(Told)
}

pub fn show(rt: &HostRuntime, words: &Words) -> Result<Status, Told> {
    bureau_help::are_as_many(rt, words, Command::Show, 3, 3)?;
    words.are_taken(rt, Program::Bureau, b"")?;
    let path = cli_names::of(rt, Program::Bureau, words.word(2), b"DESK")?;
    let mut d = [0u8; 16640];
    is_loaded(rt, path.as_slice(), &mut d)?;
    shown(rt, &d)
}
