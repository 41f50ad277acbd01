// What a refusal 11 or 12 of a command is about: the word that is outside its limits, or the changeover that is not past.
use cli_terminal::program::Program::Lentilpot;
use cli_terminal::say;
use cli_terminal::status::{Status, Told};

// ---- refusal 11

fn answer_holidays(rt: &HostRuntime, count: usize) -> Result<Status, Told> {
    let what: &[u8] = if 200 < count {
        b"at most 200 days"
    } else {
        b"rising days, each of them once"
    };
    say::answer_limits(rt, Lentilpot, b"HOLIDAYS", what)
}

// Of a set-up: the words in the order of the call's own tests.
pub fn answer_setup(
    rt: &HostRuntime,
    s: &table_calls::Setting,
    count: usize,
) -> Result<Status, Told> {
    if !customer::is_sound_who(&s.bank) {
        return cli_asked::answer_who(rt, Lentilpot, b"BANK", b"QUALIFIER", &s.bank);
    }
    if !customer::is_sound_name(&s.software) {
        return cli_asked::answer_software(rt, Lentilpot);
    }
    if !refusals::is_floor(s.floor) {
        return say::answer_limits(rt, Lentilpot, b"FLOOR", b"110 or 120");
    }
    answer_holidays(rt, count)
}

// Of an addition: GENERATION and TYPES can't be typed outside their limits.
pub fn answer_add(rt: &HostRuntime, a: &table_calls::Adding) -> Result<Status, Told> {
    if !customer::is_sound_who(&a.who) {
        return cli_asked::answer_who(rt, Lentilpot, b"IDENTITY", b"QUALIFIER", &a.who);
    }
    say::answer_limits(rt, Lentilpot, b"LENGTH", b"days, 1 to 60")
}

// ---- refusal 12

fn customer_of(t: &[u8], who: [u8; 25]) -> Option<customer::Customer> {
    let i = table::find(t, who)?;
    Some(table::load(t, i))
}

fn answer_pair(
    rt: &HostRuntime,
    kind: &[u8],
    k: Option<customer::KeyPair>,
) -> Result<Status, Told> {
    match k.and_then(|k| k.previous) {
        Some(c) => cli_days::answer_changeover(rt, kind, c.last),
        None => say::answer(rt, Lentilpot, 12),
    }
}

pub fn answer_transport(rt: &HostRuntime, t: &[u8], who: [u8; 25]) -> Result<Status, Told> {
    answer_pair(rt, b"transport", customer_of(t, who).map(|c| c.transport))
}

pub fn answer_working(rt: &HostRuntime, t: &[u8], who: [u8; 25]) -> Result<Status, Told> {
    answer_pair(rt, b"working", customer_of(t, who).map(|c| c.working))
}
