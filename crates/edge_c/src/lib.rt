// The archive for C and Rust of a box: each export calls edge's function of its name, and states what that does.

#![tactic(auto)]

ghost use Rattle.std.specs.Prelude.{◌≡◌, []};
ghost use Rattle.edge.specs.Box.{MeetsBox, lp_set_up, lp_add, lp_enter, lp_order, lp_open, lp_read, lp_end};

// How many bytes a session takes.
#[unsafe(no_mangle)]
pub extern "C" fn lp_session_size() -> u32
    ensures { result ≡ 472 }
{
    edge::lp_session_size()
}

#[unsafe(no_mangle)]
pub extern "C" fn lp_set_up(
    table: &mut [u8],
    bank: &[u8],
    software: &[u8],
    floor: u32,
    k: u64,
    v: u64,
    holidays: &[u32],
) -> u32
    ensures { MeetsBox table.old
        (lp_set_up bank.now software.now floor k v holidays.now)
        result table.new [] [] }
{
    edge::lp_set_up(table, bank, software, floor, k, v, holidays)
}

#[unsafe(no_mangle)]
pub extern "C" fn lp_add(
    table: &mut [u8],
    today: u32,
    who: &[u8],
    part1: u64,
    part2: u64,
    check: u32,
    generation: u32,
    types: u32,
    agreed: u32,
    leave: u32,
    given: u32,
    length: u32,
) -> u32
    ensures { MeetsBox table.old
        (lp_add today who.now part1 part2 check generation types agreed leave given length)
        result table.new [] [] }
{
    edge::lp_add(
        table, today, who, part1, part2, check, generation, types, agreed, leave, given, length,
    )
}

#[unsafe(no_mangle)]
pub extern "C" fn lp_enter(
    table: &mut [u8],
    today: u32,
    who: &[u8],
    part1: u64,
    part2: u64,
    check: u32,
    generation: u32,
) -> u32
    ensures { MeetsBox table.old
        (lp_enter today who.now part1 part2 check generation)
        result table.new [] [] }
{
    edge::lp_enter(table, today, who, part1, part2, check, generation)
}

#[unsafe(no_mangle)]
pub extern "C" fn lp_order(table: &mut [u8], today: u32, who: &[u8], clock: u64) -> u32
    ensures { MeetsBox table.old
        (lp_order today who.now clock)
        result table.new [] [] }
{
    edge::lp_order(table, today, who, clock)
}

#[unsafe(no_mangle)]
pub extern "C" fn lp_open(
    table: &mut [u8],
    session: &mut [u8],
    today: u32,
    time: u32,
    kind: u32,
    clock: u64,
) -> u32
    ensures { MeetsBox table.old
        (lp_open session.old today time kind clock)
        result table.new session.new [] }
{
    edge::lp_open(table, session, today, time, kind, clock)
}

#[unsafe(no_mangle)]
pub extern "C" fn lp_read(
    table: &mut [u8],
    session: &mut [u8],
    input: &[u8],
    reply: &mut [u8],
) -> u64
    ensures { MeetsBox table.old
        (lp_read session.old input.now reply.old)
        result table.new session.new reply.new }
{
    edge::lp_read(table, session, input, reply)
}

#[unsafe(no_mangle)]
pub extern "C" fn lp_end(table: &mut [u8], session: &mut [u8], reply: &mut [u8]) -> u64
    ensures { MeetsBox table.old
        (lp_end session.old reply.old)
        result table.new session.new reply.new }
{
    edge::lp_end(table, session, reply)
}
