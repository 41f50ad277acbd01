// The checks on an ESI or a frame, in their order: the first that fails.

#![tactic(auto)]

ghost use Rattle.std.specs.Prelude.{◌≡◌, List, [], ◌∷◌, ◌++◌, ◌-◌, ◌≤◌};
ghost use Rattle.ground.specs.Choice.{either, fails};
ghost use Rattle.ground.specs.Lists.{same, part};
ghost use Rattle.changeover.specs.Held.{good_for};
ghost use Rattle.table.specs.Table.{Table};
ghost use Rattle.customer.specs.declared.Customer.{Customer};
ghost use Rattle.table.specs.Named.{named};
ghost use Rattle.table.specs.Decode.{table_of};
ghost use Rattle.message.specs.Order.{first_failing};
ghost use Rattle.message.specs.Rules.{form_of, form_checks};
ghost use Rattle.message.specs.Fields.{receiver_of, sender_of};
ghost use Rattle.checks.specs.Checks.{type_allowed, type_checks, checksum_differs, digest_differs, is_missing, key_or0, party_checks};
ghost use Rattle.checks.specs.Checks.{too_old_version, stamp_checks, room_checks, esi_key_checks, esi_checks, pair_checks, key_checks};
ghost use Rattle.checks.specs.Checks.{frame_checks};

use calendar::Date;
use customer::{Customer, KeyPair};
use message::{About, Check, Collected, Fault, Kind};

// A frame at its VAR's end: the two messages, the one-time key deciphered at the SUO's end, and the digest of the records between.
#[derive(Clone, Copy)]
pub struct Frame {
    pub suo: Collected,
    pub var: Collected,
    pub once: Option<u64>,
    pub digest: Option<u64>,
}

// When a message is judged: today, the data type and the clock value given at opening, and the keys made in this file so far.
#[derive(Clone, Copy)]
pub struct Occasion {
    pub today: Date,
    pub kind: u32,
    pub clock: u64,
    pub made: u64,
}

// The customer who sent a message; where there is none, the one of all-zero bytes.
pub fn customer_of(t: &[u8], m: [u8; 161]) -> Customer
    ensures { result ≡ named (table_of t.now) (sender_of m) }
{
    table::named(t, message::sender(m))
}

// Whether the same characters of two messages differ.
fn differs(from: usize, to: usize, a: [u8; 161], b: [u8; 161]) -> bool
    requires { (from ≤ to) × (to ≤ 161) }
    ensures { result ≡ fails (same (part from (to - from) a) (part from (to - from) b)) }
{
    !text::same_bytes(&a[from..to], &b[from..to])
}

// Whether a data type is not among the customer's.
fn is_type_refused(types: u32, n: u32) -> bool
    ensures { result ≡ fails (type_allowed types n) }
{
    if n == 0 {
        return true;
    }
    if 32 < n {
        return true;
    }
    (types >> (n - 1)) % 2 != 1
}

// 1025.
fn type_faults(types: u32, n: u32) -> Result<(), Fault>
    ensures { (c : Customer) → c.types ≡ types → result ≡ first_failing (type_checks c n) }
{
    message::first_failing(&[Check::new(1025, is_type_refused(types, n))])
}

fn checksum_differs(k: Option<u64>, m: [u8; 161]) -> bool
    ensures { result ≡ checksum_differs k m }
{
    match k {
        None => true,
        Some(key) => digest::checksum(key, &m) != message::checksum_field(m),
    }
}

fn digest_differs(a: Option<u64>, d: u64) -> bool
    ensures { result ≡ digest_differs a d }
{
    match a {
        None => true,
        Some(x) => x != d,
    }
}

/// The key, or 0 where there is none.
pub fn key_or_0(k: Option<u64>) -> u64
    ensures { result ≡ key_or0 k }
{
    k.unwrap_or(0)
}

// Whether there is no good transport key: none was held at the SUO's end, or its generation is not good for the stamp's date.
fn is_key_refused(once: Option<u64>, k: KeyPair, generation: u32, date: Date) -> bool
    ensures { result ≡ either (is_missing once) (fails (good_for k generation date)) }
{
    match once {
        None => true,
        Some(_) => !changeover::is_good_for(k, generation, date),
    }
}

// 1032, 1010, 1011.
fn form_faults(k: Kind, about: About, m: Collected) -> Result<(), Fault>
    ensures { result ≡ first_failing (form_checks (form_of k) about m) }
{
    message::fault_of(k, about, m.extent, m.blank, &m.text)
}

// Whether the receiver is not this bank: identity and qualifier count.
fn is_elsewhere(m: [u8; 161], bank: [u8; 25]) -> bool
    ensures { result ≡ fails (same (receiver_of m) bank) }
{
    let width = 25;
    let receiver = message::receiver(m);
    !text::same_bytes(&receiver[..width], &bank[..width])
}

// Whether a version is below the floor, or below 120 and not 110.
fn too_old_version(floor: u32, version: u32) -> bool
    ensures { result ≡ too_old_version floor version }
{
    if version < floor {
        return true;
    }
    if 120 <= version {
        return false;
    }
    version != 110
}

// 1012, 1021, 1033, 1035.
fn party_faults(t: &[u8], m: [u8; 161]) -> Result<(), Fault>
    ensures { result ≡ first_failing (party_checks (table_of t.now) m) }
{
    let settings = table::settings(t);
    message::first_failing(&[
        Check::new(1012, too_old_version(settings.floor, message::version(m))),
        Check::new(1021, is_elsewhere(m, settings.bank)),
        Check::new(1033, table::find(t, message::sender(m)).is_none()),
        Check::new(1035, !customer_of(t, m).agreed),
    ])
}

// 1026, field by field.
fn pair_faults(suo: [u8; 161], var: [u8; 161]) -> Result<(), Fault>
    ensures { result ≡ first_failing (pair_checks suo var) }
{
    message::first_failing(&[
        Check::of_field(1026, 30, differs(8, 11, suo, var)),
        Check::of_field(1026, 80, differs(35, 60, suo, var)),
        Check::of_field(1026, 90, differs(60, 85, suo, var)),
        Check::of_field(1026, 150, differs(112, 128, suo, var)),
        Check::of_field(1026, 100, differs(85, 86, suo, var)),
        Check::of_field(1026, 110, differs(86, 87, suo, var)),
        Check::of_field(1026, 130, differs(102, 103, suo, var)),
        Check::of_field(1026, 120, differs(87, 102, suo, var)),
    ])
}

// 1015, 1016, 1018, with the holidays of the table.
fn stamp_faults(holidays: &[u32], c: Customer, today: Date, m: [u8; 161]) -> Result<(), Fault>
    ensures { (t : Table) → t.holidays ≡ holidays.now → result ≡ first_failing (stamp_checks t c today m) }
{
    let date = message::date(m);
    message::first_failing(&[
        Check::new(1015, date.is_too_old(today, holidays)),
        Check::new(1016, today.before(date)),
        Check::new(1018, acceptance::holds_stamp(c, message::stamp(m))),
    ])
}

// 1034.
fn room_faults(holidays: &[u32], c: Customer, today: Date) -> Result<(), Fault>
    ensures { (t : Table) → t.holidays ≡ holidays.now → result ≡ first_failing (room_checks t c today) }
{
    message::first_failing(&[Check::new(1034, 64 <= acceptance::live_count(c, today, holidays))])
}

// Of an ESI 1013, 1014, 1020.
fn esi_key_faults(c: Customer, m: [u8; 161]) -> Result<(), Fault>
    ensures { result ≡ first_failing (esi_key_checks c m) }
{
    let date = message::date(m);
    let transport = message::transport_generation(m);
    let working = message::working_generation(m);
    message::first_failing(&[
        Check::new(1013, !changeover::is_good_for(c.transport, transport, date)),
        Check::new(1014, !changeover::is_good_for(c.working, working, date)),
        Check::new(
            1020,
            checksum_differs(changeover::held(c.working, working), m),
        ),
    ])
}

// Of a frame 1013, 1014, 1017, 1031, 1019, 1020, with the holidays of the table.
fn key_faults(holidays: &[u32], c: Customer, today: Date, f: Frame) -> Result<(), Fault>
    ensures { (t : Table) → t.holidays ≡ holidays.now → result ≡ first_failing (key_checks t c today f) }
{
    let m = f.suo.text;
    let closing = f.var.text;
    let date = message::date(m);
    let transport = message::transport_generation(m);
    let working = message::working_generation(m);
    let once = key_or_0(f.once);
    let key = changeover::held(c.working, working);
    let digest = message::digest_field(closing);
    message::first_failing(&[
        Check::new(1013, is_key_refused(f.once, c.transport, transport, date)),
        Check::new(1014, !changeover::is_good_for(c.working, working, date)),
        Check::new(1017, acceptance::is_once_used(c, today, holidays, once)),
        Check::new(1031, !keys::has_odd_parity(once)),
        Check::new(1019, digest_differs(f.digest, digest)),
        Check::new(1020, checksum_differs(key, closing)),
    ])
}

/// The first failing check of an ESI.
pub fn check_esi(t: &[u8], o: Occasion, m: Collected) -> Result<(), Fault>
    ensures { result ≡ first_failing (esi_checks (table_of t.now) o.today m) }
{
    let c = customer_of(t, m.text);
    let all = table::holidays_in(t);
    let holidays = &all.dates[..all.count as usize];
    form_faults(Kind::Esi, About::Answered, m)?;
    party_faults(t, m.text)?;
    stamp_faults(holidays, c, o.today, m.text)?;
    esi_key_faults(c, m.text)?;
    room_faults(holidays, c, o.today)
}

/// The first failing check of a frame.
pub fn check_frame(t: &[u8], o: Occasion, f: Frame) -> Result<(), Fault>
    ensures { result ≡ first_failing (frame_checks (table_of t.now) o.today o.kind f) }
{
    let suo = f.suo.text;
    let c = customer_of(t, suo);
    let all = table::holidays_in(t);
    let holidays = &all.dates[..all.count as usize];
    form_faults(Kind::Suo, About::Answered, f.suo)?;
    form_faults(Kind::Var, About::Closing, f.var)?;
    party_faults(t, suo)?;
    type_faults(c.types, o.kind)?;
    pair_faults(suo, f.var.text)?;
    stamp_faults(holidays, c, o.today, suo)?;
    key_faults(holidays, c, o.today, f)?;
    room_faults(holidays, c, o.today)
}
