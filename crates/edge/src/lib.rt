// The seven calls for a box in C or Rust: numbers and byte slices; the session is lent bytes of one length.

#![tactic(auto)]

ghost use Rattle.std.specs.Prelude.{◌≡◌, [], ◌%◌, ◌<◌, ◌^◌, eqb};
ghost use Rattle.ground.specs.Choice.{pick, one};
ghost use Rattle.session_bytes.specs.Session.{session_size, session_stored};
ghost use Rattle.edge.specs.Edge.{fixed, length_by, types_by, packed};
ghost use Rattle.edge.specs.Box.{MeetsBox, lp_set_up, lp_add, lp_enter, lp_order, lp_open, lp_read, lp_end};

// Bytes of another length stand for zeros, which are no name.
#[tactic(auto, unfolding(crate::specs::Edge::fixed, ground::specs::Choice::pick))]
fn fixed<const N: usize>(bytes: &[u8]) -> [u8; N]
    ensures { result ≡ fixed N bytes.now }
{
    let mut out = [0; N];
    if bytes.len() == N {
        out.copy_from_slice(bytes);
    }
    out
}

// What stands for types where a yes-or-no number is neither: past the sixteenth, which no customer may have.
const NO_TYPES: u32 = 65536;

#[tactic(auto, using(ground::proofs::Std::words), unfolding(crate::specs::Edge::types_by, crate::specs::Edge::is_flag))]
fn types_by(types: u32, agreed: u32, leave: u32, given: u32) -> u32
    ensures { result ≡ types_by types agreed leave given }
{
    if agreed < 2 && leave < 2 && given < 2 {
        types
    } else {
        NO_TYPES
    }
}

#[tactic(auto, unfolding(crate::specs::Edge::length_by, ground::specs::Choice::pick))]
fn length_by(given: u32, n: calendar::CalendarDays) -> Option<calendar::CalendarDays>
    ensures { result ≡ length_by given n }
{
    (given != 0).then_some(n)
}

// How many bytes a session takes.
#[unsafe(no_mangle)]
pub extern "C" fn lp_session_size() -> u32
    ensures { result ≡ 472 }
{
    472
}

#[unsafe(no_mangle)]
pub extern "C" fn lp_set_up(
    table: &mut [u8],
    bank: &[u8],
    software: &[u8],
    floor: u32,
    k: u64,
    v: u64,
    holidays: &[u32],
) -> u32
    ensures { MeetsBox table.old
        (lp_set_up bank.now software.now floor k v holidays.now)
        result table.new [] [] }
{
    let s = table_calls::Setting {
        bank: fixed(bank),
        software: fixed(software),
        floor,
        key: k,
        seed: v,
    };
    refusals::code(table_calls::set_up(table, s, holidays))
}

#[unsafe(no_mangle)]
pub extern "C" fn lp_add(
    table: &mut [u8],
    today: u32,
    who: &[u8],
    part1: u64,
    part2: u64,
    check: u32,
    generation: u32,
    types: u32,
    agreed: u32,
    leave: u32,
    given: u32,
    length: u32,
) -> u32
    ensures { MeetsBox table.old
        (lp_add today who.now part1 part2 check generation types agreed leave given length)
        result table.new [] [] }
{
    let a = table_calls::Adding {
        today: calendar::Date { yymmdd: today },
        who: fixed(who),
        part1,
        part2,
        check: check as u64,
        generation,
        types: types_by(types, agreed, leave, given),
        agreed: agreed == 1,
        leave: leave == 1,
        length: length_by(given, calendar::CalendarDays(length)),
    };
    refusals::code(table_calls::add(table, a))
}

#[unsafe(no_mangle)]
pub extern "C" fn lp_enter(
    table: &mut [u8],
    today: u32,
    who: &[u8],
    part1: u64,
    part2: u64,
    check: u32,
    generation: u32,
) -> u32
    ensures { MeetsBox table.old
        (lp_enter today who.now part1 part2 check generation)
        result table.new [] [] }
{
    let e = table_calls::Entering {
        today: calendar::Date { yymmdd: today },
        who: fixed(who),
        part1,
        part2,
        check: check as u64,
        generation,
    };
    refusals::code(table_calls::enter(table, e))
}

#[unsafe(no_mangle)]
pub extern "C" fn lp_order(table: &mut [u8], today: u32, who: &[u8], clock: u64) -> u32
    ensures { MeetsBox table.old
        (lp_order today who.now clock)
        result table.new [] [] }
{
    let o = table_calls::Ordering {
        today: calendar::Date { yymmdd: today },
        who: fixed(who),
        clock,
    };
    refusals::code(table_calls::order(table, o))
}

// A session's buffer of another length stands for a data type that is none.
#[tactic(auto, unfolding(ground::specs::Choice::pick))]
fn kind_asked(length: usize, kind: u32) -> u32
    ensures { result ≡ pick (eqb length session_size) kind 0 }
{
    if length == 472 { kind } else { 0 }
}

// The session's bytes after a call: a refused one leaves them.
#[tactic(auto, unfolding(ground::specs::Choice::pick))]
fn put_session(session: &mut [u8], refusal: u32, after: session::Session)
    ensures { session.new ≡ pick (eqb refusal 0) (session_stored session.old after) session.old }
{
    if refusal == 0 {
        session_bytes::store(session, after);
    }
}

#[unsafe(no_mangle)]
pub extern "C" fn lp_open(
    table: &mut [u8],
    session: &mut [u8],
    today: u32,
    time: u32,
    kind: u32,
    clock: u64,
) -> u32
    ensures { MeetsBox table.old
        (lp_open session.old today time kind clock)
        result table.new session.new [] }
{
    let o = opening::Opening {
        today: calendar::Date { yymmdd: today },
        time,
        kind: kind_asked(session.len(), kind),
        clock,
    };
    let a = calls::open(table, o);
    put_session(session, a.refusal, a.session);
    a.refusal
}

#[tactic(auto, unfolding(ground::specs::Choice::one))]
fn one_of(b: bool) -> u64
    ensures { (result ≡ one b) × (result < 2) }
{
    u64::from(b)
}

// The lowest 40 bits, 16 bits and 7 bits.
fn taken_bits(n: usize) -> u64
    ensures { (result ≡ n % 2 ^ 40) × (result < 2 ^ 40) }
{
    (n % 1099511627776) as u64
}

fn length_bits(n: usize) -> u64
    ensures { (result ≡ n % 2 ^ 16) × (result < 2 ^ 16) }
{
    (n % 65536) as u64
}

fn refusal_bits(n: u32) -> u64
    ensures { (result ≡ n % 2 ^ 7) × (result < 2 ^ 7) }
{
    (n % 128) as u64
}

// An answer as one number.
fn packed_answer(a: calls::Answer) -> u64
    ensures { result ≡ packed a }
{
    let taken = taken_bits(a.taken);
    let length = length_bits(a.length);
    let finished = one_of(a.finished);
    let refusal = refusal_bits(a.refusal);
    taken + 1099511627776 * length + 72057594037927936 * finished + 144115188075855872 * refusal
}

#[unsafe(no_mangle)]
pub extern "C" fn lp_read(
    table: &mut [u8],
    session: &mut [u8],
    input: &[u8],
    reply: &mut [u8],
) -> u64
    ensures { MeetsBox table.old
        (lp_read session.old input.now reply.old)
        result table.new session.new reply.new }
{
    let s = session_bytes::load(session);
    let a = calls::read(table, s, input, reply);
    put_session(session, a.refusal, a.session);
    packed_answer(a)
}

#[unsafe(no_mangle)]
pub extern "C" fn lp_end(table: &mut [u8], session: &mut [u8], reply: &mut [u8]) -> u64
    ensures { MeetsBox table.old
        (lp_end session.old reply.old)
        result table.new session.new reply.new }
{
    let s = session_bytes::load(session);
    let a = calls::end(table, s, reply);
    put_session(session, a.refusal, a.session);
    packed_answer(a)
}
