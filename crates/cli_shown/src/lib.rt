// What both programs' `show` have in common.
#![tactic(auto)]

ghost use Rattle.std.specs.Prelude.{◌≤◌, length};

use cli_terminal::say;
use std::io;

pub fn number(rt: &HostRuntime, n: u64) -> io::Result<()> {
    print!(rt; "{n}")
}

// A name without the blanks at its end.
fn trimmed(s: &[u8]) -> &[u8]
    ensures { length result.now ≤ length s.now }
{
    match s.iter().rposition(|&b| b != b' ') {
        Some(last) => &s[..=last],
        None => b"",
    }
}

// A name in quotes, of which no name has any.
pub fn name(rt: &HostRuntime, s: &[u8]) -> io::Result<()> {
    say::out(rt, b"\"")?;
    say::out(rt, trimmed(s))?;
    say::out(rt, b"\"")
}

// An identity of n characters, and the qualifier after it.
pub fn who(rt: &HostRuntime, label: &[u8], who: &[u8], n: usize) -> io::Result<()> {
    let Some((identity, qualifier)) = who.split_at_checked(n) else {
        return Err(io::Error::from(io::ErrorKind::InvalidInput));
    };
    say::out(rt, label)?;
    name(rt, identity)?;
    say::out(rt, b" qualifier ")?;
    name(rt, qualifier)?;
    say::out(rt, b"\n")
}

// A key by its generation and check value, never itself.
pub fn generation(rt: &HostRuntime, g: u32, key: u64) -> io::Result<()> {
    let value = text::hex_digits(keys::check_value(key));
    number(rt, g as u64)?;
    say::out(rt, b" check value ")?;
    say::out(rt, &value[10..])
}
