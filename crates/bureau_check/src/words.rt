// What is told of a reply, in words that a bureau understands. It goes into a file that is listed once the desk is saved.
use desk::Finding;
use size_limit::Growing;
use std::io;
use std::io::Write;

// What the bank said of a file's ESI: no E; an E that passes, with 1018 or another code; or an E that doesn't pass.
#[derive(Clone, Copy)]
pub enum EsiWord {
    NoRefusal,
    CameBefore,
    Refused,
    Doubted,
}

fn put(out: &mut Growing, s: &[u8]) -> io::Result<()> {
    out.write_all(s)
}

fn put_number(out: &mut Growing, n: u64) -> io::Result<()> {
    write!(out, "{n}")
}

// Characters that the bank wrote, as people are shown them.
fn put_shown(out: &mut Growing, s: &[u8]) -> io::Result<()> {
    let mut room = [0u8; 256];
    let n = cli_texts::room::put_all(&mut room, 0, s, true);
    match room.get(..n) {
        Some(shown) => put(out, shown),
        None => Err(io::Error::from(io::ErrorKind::InvalidInput)),
    }
}

// Which message a line is about.
pub fn place(out: &mut Growing, d: &[u8], i: usize) -> io::Result<()> {
    put(out, b"file ")?;
    put_number(out, bureau_file::file_of(d, i))?;
    put_kind(out, bureau_file::kind_of(d, i), bureau_show::place(d, i))?;
    put(out, &bureau_file::stamp_of(d, i))?;
    put(out, b": ")
}

fn put_kind(out: &mut Growing, kind: u8, n: u64) -> io::Result<()> {
    if kind == bureau_file::ESI {
        return put(out, b" ESI ");
    }
    put(out, b" batch ")?;
    put_number(out, n)?;
    put(out, b" ")
}

// The bank's own word, as it stands in the reply.
fn word(out: &mut Growing, line: &[u8]) -> io::Result<()> {
    if line.len() < 16 {
        return put(out, b"no word: ");
    }
    put_shown(out, &line[11..12])?;
    put(out, b" ")?;
    put_shown(out, &line[12..16])?;
    put(out, b": ")
}

// A field's name, as the notice of 1010 has it past its twenty characters.
fn field_name(out: &mut Growing, field: u32) -> io::Result<()> {
    let text = notice::text(1010, field, message::no_contents());
    let n = cli_texts::room::trimmed(&text);
    if n < 20 || 51 < n {
        return Ok(());
    }
    put(out, b" ")?;
    put_shown(out, &text[20..n])
}

// A finding: its code, the field that it names, what is so and what to do.
fn finding(out: &mut Growing, code: u32, field: u32) -> io::Result<()> {
    put_number(out, code as u64)?;
    if field != 0 {
        field_name(out, field)?;
    }
    put(out, b": ")?;
    put(out, advice(code, field))?;
    put(out, b"\n")
}

// 15 and 17 are the one-time key and the checksum, which a reply that repeats no message leaves blank.
fn is_unsigned(field: u32) -> bool {
    matches!(field, 150 | 170)
}

fn advice(code: u32, field: u32) -> &'static [u8] {
    if code == 3010 && is_unsigned(field) {
        return b"the reply has no checksum, so that nobody can see who wrote it. With an E do what its code asks for, and ask the bank whether it is its own";
    }
    match code {
        3010 => b"a field's format. Get the replies again as the bank wrote them",
        3011 => b"a field's value. Is it the reply to this file? Else get it again",
        3020 =>
            b"the checksum differs, or the desk has no working key of that generation. Check earlier replies first, one may enclose it; else get the reply again, and if it comes again compare check values with the bank",
        3021 => b"the reply is for another customer. Give it back to the bank",
        3022 => b"the stamp isn't the one that was sent. It answers another file",
        3027 => b"it differs from what was sent. It answers another batch",
        3028 =>
            b"the digest isn't the one that was sent. Get the reply again; if it comes again call the bank at once",
        3030 =>
            b"the enclosed key is none, or the desk has no transport key of that generation; nothing was kept. Enter the transport key if one is due; else get the reply again",
        _ => b"the reply is too short. Get it again as the bank wrote it",
    }
}

// A reply that passes: the bank's answer. An E has its notice beside it.
fn passing(out: &mut Growing, letter: u8, line: &[u8]) -> io::Result<()> {
    if letter == b'K' {
        return put(out, b"passes\n");
    }
    let Some(notice) = notice_in(line) else {
        return put(out, b"passes, the bank refused it\n");
    };
    put(out, b"passes, the bank refused it: ")?;
    put_shown(out, notice)?;
    put(out, b"\n")
}

// The notice of a reply without the blanks at its end; none where the reply is too short for one, or blank there.
fn notice_in(line: &[u8]) -> Option<&[u8]> {
    let head = line.get(..237)?;
    head.get(177..cli_texts::room::trimmed(head))
}

// The line of a reply that was checked.
pub fn reply(
    out: &mut Growing,
    d: &[u8],
    i: usize,
    f: &Result<(), Finding>,
    letter: u8,
    line: &[u8],
) -> io::Result<()> {
    place(out, d, i)?;
    word(out, line)?;
    match *f {
        Ok(()) => passing(out, letter, line),
        Err(Finding { code, field }) => finding(out, code, field),
    }
}

// A reply to nothing that was sent.
pub fn stray(out: &mut Growing, file: u64, line: &[u8]) -> io::Result<()> {
    put(out, b"file ")?;
    put_number(out, file)?;
    put(out, b": ")?;
    word(out, line)?;
    put(out, b"answers no message of the file\n")
}

// A message without a reply: answered before, never looked at, or still to be asked for.
pub fn missing(out: &mut Growing, d: &[u8], i: usize, esi: EsiWord) -> io::Result<()> {
    place(out, d, i)?;
    if bureau_file::is_answered(d, i) {
        put(out, &[bureau_file::letter_of(d, i), b' '])?;
        put(out, &bureau_file::code_of(d, i))?;
        return put(out, b": passed before\n");
    }
    if bureau_file::kind_of(d, i) == bureau_file::ESI {
        return put(out, b"no reply: ask the bank for it\n");
    }
    put(out, missing_batch(esi))
}

fn missing_batch(esi: EsiWord) -> &'static [u8] {
    match esi {
        EsiWord::CameBefore =>
            b"not looked at this time: the bank has had the file before. Ask it for the replies of that time, and don't send the batch again meanwhile\n",
        EsiWord::Refused =>
            b"not looked at by the bank, since the ESI was refused. If the file was sent before too, ask for the replies of that time before the batch goes into another\n",
        EsiWord::Doubted =>
            b"no reply: 3029: no PTE came. The E to the ESI may not be the bank's: ask the bank whether the batch was accepted, and don't send it again meanwhile\n",
        EsiWord::NoRefusal =>
            b"no reply: 3029: no PTE came. Ask the bank for it, and don't send the batch again meanwhile\n",
    }
}

// The working key that a reply enclosed.
pub fn key(out: &mut Growing, k: &desk::Keys) -> io::Result<()> {
    let value = text::hex_digits(keys::check_value(k.key));
    put(out, b"  the enclosed working key is kept: generation ")?;
    put_number(out, k.generation as u64)?;
    put(out, b" check value ")?;
    put(out, &value[10..16])?;
    put(
        out,
        b". Compare both with the bank by telephone before a file is made with it\n",
    )
}
