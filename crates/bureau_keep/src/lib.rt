// The commands open and key: a call of `desk` between a load and a save. Keys are read from standard input or a file, never from the
// command line.
#![tactic(auto)]

use bureau_help::Command;
use cli_held::Held;
use cli_terminal::options::Words;
use cli_terminal::program::Program;
use cli_terminal::status::{Status, Told};
use cli_terminal::{say, status};
use std::io;

// A transport key's words, PART1 PART2 CHECK GENERATION.
fn asked(
    rt: &HostRuntime,
    part1: &[u8],
    part2: &[u8],
    check: &[u8],
    generation: &[u8],
) -> Result<desk::Parts, Told> {
    let p = Program::Bureau;
    let part1 = cli_asked::hidden_key(rt, p, part1, b"PART1")?;
    let part2 = cli_asked::hidden_key(rt, p, part2, b"PART2")?;
    let check = cli_asked::check(rt, p, check)?;
    let generation = cli_asked::generation(rt, p, generation)?;
    Ok(desk::Parts {
        part1,
        part2,
        check,
        generation,
    })
}

fn ok(rt: &HostRuntime, d: &[u8]) -> io::Result<()> {
    say::out(rt, b"ok\n")?;
    bureau_show::keys(rt, &bureau_file::held(d))
}

// Saves the desk that a served call left, and answers with the check values, which are compared by telephone.
fn saved(rt: &HostRuntime, path: &[u8], d: &[u8], h: &Held) -> Result<Status, Told> {
    cli_held::is_saved(rt, Program::Bureau, path, d, h)?;
    status::served_if(say::is_said(
        rt,
        Program::Bureau,
        ok(rt, d),
        b"the desk is saved, and its check values can't be written ('show' tells them): ",
    ))
}

// ---- open

pub fn open(rt: &HostRuntime, words: &Words) -> Result<Status, Told> {
    bureau_help::are_as_many(rt, words, Command::Open, 14, 14)?;
    words.are_taken(rt, Program::Bureau, b"")?;
    let path = cli_names::of_kept(rt, Program::Bureau, words.word(2), b"DESK")?;
    open_words(rt, words, path.as_slice())
}

fn open_words(rt: &HostRuntime, words: &Words, path: &[u8]) -> Result<Status, Told> {
    let p = Program::Bureau;
    let own = cli_asked::who(
        rt,
        p,
        words.word(3),
        words.word(4),
        b"IDENTITY",
        b"QUALIFIER",
    )?;
    let bank = cli_asked::who(
        rt,
        p,
        words.word(5),
        words.word(6),
        b"BANK",
        b"BANKQUALIFIER",
    )?;
    let software = cli_asked::software(rt, p, words.word(7))?;
    let parts = asked(
        rt,
        words.word(8),
        words.word(9),
        words.word(10),
        words.word(11),
    )?;
    let given = desk::open(own, bank, parts);
    let key = cli_asked::hidden_key(rt, p, words.word(12), b"K")?;
    let seed = cli_asked::hidden_key(rt, p, words.word(13), b"V")?;
    let maker = keys::KeyMaker { key, seed };
    open_with(rt, path, &given, maker, &own, &bank, software)
}

// The limits of what was typed.
fn open_with(
    rt: &HostRuntime,
    path: &[u8],
    given: &desk::Given,
    maker: keys::KeyMaker,
    own: &[u8; 25],
    bank: &[u8; 25],
    software: [u8; 16],
) -> Result<Status, Told> {
    if given.refusal == 11 {
        return refused_names(rt, own, bank);
    }
    if given.refusal != 0 {
        return say::answer(rt, Program::Bureau, given.refusal);
    }
    if !customer::is_sound_name(&software) {
        return cli_asked::answer_software(rt, Program::Bureau);
    }
    open_new(rt, path, given.held, maker, software)
}

fn refused_names(rt: &HostRuntime, own: &[u8; 25], bank: &[u8; 25]) -> Result<Status, Told> {
    if !customer::is_sound_who(own) {
        return cli_asked::answer_who(rt, Program::Bureau, b"IDENTITY", b"QUALIFIER", own);
    }
    cli_asked::answer_who(rt, Program::Bureau, b"BANK", b"BANKQUALIFIER", bank)
}

fn open_new(
    rt: &HostRuntime,
    path: &[u8],
    held: desk::Held,
    maker: keys::KeyMaker,
    software: [u8; 16],
) -> Result<Status, Told> {
    let h = cli_held::take(rt, Program::Bureau, path)?;
    if let Err(told) = cli_table::is_free(rt, Program::Bureau, path) {
        cli_held::release(rt, Program::Bureau, path, &h);
        return Err(told);
    }
    let mut d = [0u8; 16640];
    bureau_file::begin(&mut d, held, maker, software);
    saved(rt, path, &d, &h)
}

// ---- key

pub fn key(rt: &HostRuntime, words: &Words) -> Result<Status, Told> {
    bureau_help::are_as_many(rt, words, Command::Key, 7, 7)?;
    words.are_taken(rt, Program::Bureau, b"")?;
    let path = cli_names::of_kept(rt, Program::Bureau, words.word(2), b"DESK")?;
    let parts = asked(
        rt,
        words.word(3),
        words.word(4),
        words.word(5),
        words.word(6),
    )?;
    enter(rt, path.as_slice(), parts)
}

fn enter(rt: &HostRuntime, path: &[u8], parts: desk::Parts) -> Result<Status, Told> {
    let h = cli_held::take(rt, Program::Bureau, path)?;
    let mut d = [0u8; 16640];
    if let Err(told) = bureau_show::is_loaded(rt, path, &mut d) {
        cli_held::release(rt, Program::Bureau, path, &h);
        return Err(told);
    }
    let given = desk::enter(bureau_file::held(&d), parts);
    if given.refusal != 0 {
        cli_held::release(rt, Program::Bureau, path, &h);
        return say::answer(rt, Program::Bureau, given.refusal);
    }
    bureau_file::set_held(&mut d, given.held);
    saved(rt, path, &d, &h)
}
