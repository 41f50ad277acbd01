// A customer's record and a bank's settings as bytes: read at a place, written at a place, and whether the bytes are exact. Offsets are
// those of docs/FORMAT.md.

#![tactic(auto)]

ghost use Rattle.std.specs.Prelude.{◌≡◌, true, ◌+◌, ◌*◌, ◌/◌, ◌≤◌, eqb, length};
ghost use Rattle.std.specs.List.{list_all};
ghost use Rattle.splices.specs.Bytes.{splice, put};
ghost use Rattle.ground.specs.Choice.{both};
ghost use Rattle.codec.specs.Layout.{perhaps, numbers, every, enc, dec, ok};
ghost use Rattle.calendar.specs.Dates.{real_time};
ghost use Rattle.customer.specs.Customer.{real_stamp, sound_stamps, sound_customer};
ghost use Rattle.customer_bytes.specs.Tests.{starts_day, real_at, once_at};
ghost use Rattle.customer_bytes.specs.Layout.{record_width, pair_width, previous_width, settings_width, previous_held, pair_shape};
ghost use Rattle.customer_bytes.specs.Layout.{terms_width, terms_shape, customer_shape, settings_shape, previous_from, previous_to, pair_from, pair_to, customer_from};
ghost use Rattle.customer_bytes.specs.Layout.{terms_to, settings_from, customer_bytes};
ghost use Rattle.customer_bytes.specs.Layout.{settings_bytes, customer_at, settings_at, exact_at};

// ---- reading, where the bytes lie within the slice

fn previous_in(t: &[u8], at: usize) -> Option<customer::Changeover>
    requires { at + previous_width ≤ length t.now }
    ensures { result ≡ previous_from (dec (perhaps previous_held) at t.now) }
{
    if codec::read1(t, at) != 1 {
        return None;
    }
    Some(customer::Changeover {
        generation: codec::read1(t, at + 1),
        key: codec::read8(t, at + 2),
        first: calendar::Date {
            yymmdd: codec::read4(t, at + 10),
        },
        last: calendar::Date {
            yymmdd: codec::read4(t, at + 14),
        },
    })
}

fn pair_in(t: &[u8], at: usize) -> customer::KeyPair
    requires { at + pair_width ≤ length t.now }
    ensures { result ≡ pair_from (dec pair_shape at t.now) }
{
    customer::KeyPair {
        generation: codec::read1(t, at),
        key: codec::read8(t, at + 1),
        previous: previous_in(t, at + 9),
    }
}

fn customer_in(t: &[u8], at: usize) -> customer::Customer
    requires { at + record_width ≤ length t.now }
    ensures { result ≡ customer_from (dec customer_shape at t.now) }
{
    let mut who = [0u8; 25];
    let mut stamps = [0u64; 64];
    let mut once = [0u64; 64];
    codec::read_bytes(&mut who, t, at);
    codec::read_numbers(&mut stamps, t, at + 85);
    codec::read_numbers(&mut once, t, at + 597);
    customer::Customer {
        who,
        types: codec::read2(t, at + 25),
        agreed: codec::read1(t, at + 27) == 1,
        leave: codec::read1(t, at + 28) == 1,
        length: calendar::CalendarDays(codec::read1(t, at + 29)),
        transport: pair_in(t, at + 30),
        working: pair_in(t, at + 57),
        count: codec::read1(t, at + 84),
        stamps,
        once,
    }
}

fn settings_in(t: &[u8], at: usize) -> customer::Settings
    requires { at + settings_width ≤ length t.now }
    ensures { result ≡ settings_from (dec settings_shape at t.now) }
{
    let mut bank = [0u8; 25];
    let mut software = [0u8; 16];
    codec::read_bytes(&mut bank, t, at);
    codec::read_bytes(&mut software, t, at + 25);
    customer::Settings {
        bank,
        software,
        floor: codec::read1(t, at + 41),
        maker: keys::KeyMaker {
            key: codec::read8(t, at + 42),
            seed: codec::read8(t, at + 50),
        },
    }
}

// ---- writing, where the bytes lie within the slice

// A previous key, or as many zeros where there is none.
fn store_previous(t: &mut [u8], at: usize, p: Option<customer::Changeover>)
    requires { at + previous_width ≤ length t.old }
    ensures { t.new ≡ splice at (enc (perhaps previous_held) (previous_to p)) t.old }
{
    match p {
        None => codec::write_bytes(t, at, &[0; 18]),
        Some(h) => {
            codec::write1(t, at, 1);
            codec::write1(t, at + 1, h.generation);
            codec::write8(t, at + 2, h.key);
            codec::write4(t, at + 10, h.first.yymmdd);
            codec::write4(t, at + 14, h.last.yymmdd);
        }
    }
}

fn store_pair(t: &mut [u8], at: usize, k: customer::KeyPair)
    requires { at + pair_width ≤ length t.old }
    ensures { t.new ≡ splice at (enc pair_shape (pair_to k)) t.old }
{
    codec::write1(t, at, k.generation);
    codec::write8(t, at + 1, k.key);
    store_previous(t, at + 9, k.previous);
}

fn store_terms(t: &mut [u8], at: usize, c: customer::Customer)
    requires { at + terms_width ≤ length t.old }
    ensures { t.new ≡ splice at (enc terms_shape (terms_to c)) t.old }
{
    codec::write_number(t, at, 2, u64::from(c.types));
    codec::write1(t, at + 2, codec::flag_number(c.agreed));
    codec::write1(t, at + 3, codec::flag_number(c.leave));
    codec::write1(t, at + 4, c.length.0);
    store_pair(t, at + 5, c.transport);
    store_pair(t, at + 32, c.working);
    codec::write1(t, at + 59, c.count);
}

fn store_customer(t: &mut [u8], at: usize, c: customer::Customer)
    requires { at + record_width ≤ length t.old }
    ensures { t.new ≡ splice at (customer_bytes c) t.old }
{
    codec::write_bytes(t, at, &c.who);
    store_terms(t, at + 25, c);
    codec::write_numbers(t, at + 85, &c.stamps);
    codec::write_numbers(t, at + 597, &c.once);
}

fn store_bank(t: &mut [u8], at: usize, s: customer::Settings)
    requires { at + settings_width ≤ length t.old }
    ensures { t.new ≡ splice at (settings_bytes s) t.old }
{
    codec::write_bytes(t, at, &s.bank);
    codec::write_bytes(t, at + 25, &s.software);
    codec::write1(t, at + 41, s.floor);
    codec::write8(t, at + 42, s.maker.key);
    codec::write8(t, at + 50, s.maker.seed);
}

// ---- at any place

pub fn load_at(t: &[u8], at: usize) -> customer::Customer
    ensures { result ≡ customer_at at t.now }
{
    if !codec::fits(t.len(), at, 1109) {
        return customer_in(&[0; 1109], 0);
    }
    customer_in(t, at)
}

pub fn settings_at(t: &[u8], at: usize) -> customer::Settings
    ensures { result ≡ settings_at at t.now }
{
    if !codec::fits(t.len(), at, 58) {
        return settings_in(&[0; 58], 0);
    }
    settings_in(t, at)
}

pub fn store_at(t: &mut [u8], at: usize, c: customer::Customer)
    ensures { t.new ≡ put at (customer_bytes c) t.old }
{
    if codec::fits(t.len(), at, 1109) {
        store_customer(t, at, c);
    }
}

pub fn store_settings(t: &mut [u8], at: usize, s: customer::Settings)
    ensures { t.new ≡ put at (settings_bytes s) t.old }
{
    if codec::fits(t.len(), at, 58) {
        store_bank(t, at, s);
    }
}

// ---- exactness

// Whether the 18 bytes of a previous key are just what it is written as: all zero, unless it is held.
fn is_exact_previous(t: &[u8], at: usize) -> bool
    requires { at + previous_width ≤ length t.now }
    ensures { result ≡ ok (perhaps previous_held) at t.now }
{
    codec::read1(t, at) == 1 || codec::same_at(&[0; 18], t, at)
}

// Flags are 0 or 1, and the room of a previous key that is not held is zero: all else is written as it is read.
fn is_exact(t: &[u8], at: usize) -> bool
    requires { at + record_width ≤ length t.now }
    ensures { result ≡ ok customer_shape at t.now }
{
    codec::read1(t, at + 27) < 2
        && codec::read1(t, at + 28) < 2
        && is_exact_previous(t, at + 39)
        && is_exact_previous(t, at + 66)
}

// ---- soundness, tested on the bytes where they stand

// Whether a stamp is of the day that starts at `day`.
fn is_of_day(s: u64, day: u64) -> bool
    requires { starts_day day ≡ true }
    ensures { result ≡ eqb (s / 1000000000) (day / 1000000000) }
{
    day <= s && s - day < 1000000000
}

// Whether the digits hhmmssnnn after a day's start are a real time. Minutes are tested with what comes after them, and so are seconds.
fn is_real_rest(rest: u64) -> bool
    ensures { result ≡ real_time (rest / 1000) }
{
    rest < 240000000 && rest % 10000000 < 6000000 && rest % 100000 < 60000
}

// Whether a stamp is real, beside a real day's start: a stamp of that day needs its time alone.
fn is_real_beside(s: u64, day: u64) -> bool
    requires { starts_day day ≡ true }
    ensures { result ≡ real_stamp s }
{
    if is_of_day(s, day) {
        is_real_rest(s - day)
    } else {
        customer::is_real_stamp(s)
    }
}

// The start of a real stamp's day. Stamps stand in the order of acceptance, so it is mostly the one that was kept.
fn day_beside(s: u64, day: u64) -> u64
    requires { (starts_day day ≡ true) × (real_stamp s ≡ true) }
    ensures { starts_day result ≡ true }
{
    if is_of_day(s, day) {
        day
    } else {
        s / 1000000000 * 1000000000
    }
}

// Whether the n stamps from `at` on are real. The start of the last one's day is kept; any real day does to start with.
fn are_real(t: &[u8], at: usize, n: usize) -> bool
    requires { at + 8 * n ≤ length t.now }
    ensures { result ≡ every (real_at t.now) 8 n at }
{
    let mut day = 101000000000;
    for i in 0..n {
        let s = codec::read8(t, at + 8 * i);
        if !is_real_beside(s, day) {
            return false;
        }
        day = day_beside(s, day);
    }
    true
}

// Whether the n one-time keys from `at` on are sound.
fn are_sound_once(t: &[u8], at: usize, n: usize) -> bool
    requires { at + 8 * n ≤ length t.now }
    ensures { result ≡ every (once_at t.now) 8 n at }
{
    (0..n).all(|i| customer::is_sound_once(codec::read8(t, at + 8 * i)))
}

// Whether bytes are zero. There is no branch at each, so that many go at once.
fn are_zero(bytes: &[u8]) -> bool
    ensures { result ≡ list_all (λ b. eqb b 0) bytes.now }
{
    bytes.iter().fold(0, |any, &b| any | b) == 0
}

// The first n of 64 stamps from `at` on are real, with sound one-time keys after all 64, and the room after each is zero.
fn are_sound_stamps(t: &[u8], at: usize, n: usize) -> bool
    requires { (n ≤ 64) × (at + 512 + 512 ≤ length t.now) }
    ensures { result ≡ sound_stamps n (dec (numbers 64 8) at t.now) (dec (numbers 64 8) (at + 512) t.now) }
{
    let once = at + 512;
    are_real(t, at, n)
        && are_sound_once(t, once, n)
        && are_zero(&t[at + 8 * n..once])
        && are_zero(&t[once + 8 * n..once + 512])
}

// Whether the customer that the bytes say is sound.
fn is_sound_in(t: &[u8], at: usize) -> bool
    requires { at + record_width ≤ length t.now }
    ensures { result ≡ sound_customer (customer_from (dec customer_shape at t.now)) }
{
    let mut who = [0u8; 25];
    codec::read_bytes(&mut who, t, at);
    let days = codec::read1(t, at + 29);
    let count = codec::read1(t, at + 84);
    customer::is_sound_who(&who)
        && codec::read2(t, at + 25) < 65536
        && (1..=60).contains(&days)
        && customer::is_sound_keys(pair_in(t, at + 30))
        && customer::is_sound_keys(pair_in(t, at + 57))
        && count <= 64
        && are_sound_stamps(t, at + 85, count as usize)
}

// Whether the bytes are exact, and the customer that they say is sound. Where there is no room for one, there is none.
pub fn is_sound_at(t: &[u8], at: usize) -> bool
    ensures { result ≡ both (exact_at at t.now) (sound_customer (customer_at at t.now)) }
{
    codec::fits(t.len(), at, 1109) && is_exact(t, at) && is_sound_in(t, at)
}
