// The archive for C and Rust of a customer's box: each export calls desk_edge's function of its name, and states what that does.

#![tactic(auto)]

ghost use Rattle.std.specs.Prelude.{◌≡◌};
ghost use Rattle.ground.specs.Choice.{pick};
ghost use Rattle.desk_bytes.specs.Bytes.{held_in};
ghost use Rattle.desk_edge.specs.Calls.{opened_by, entered_by, held_after_call, values_of, are_told, sent_refusal, sent_after_call};
ghost use Rattle.desk_edge.specs.Calls.{esi_by, pte_by, MeetsCheck};
ghost use Rattle.desk_edge.specs.Builder.{MeetsBuilding, esi_built_by, var_built_by, given_of, suo_built_by, suo_text_after, batch_after, maker_later};
ghost use Rattle.desk_edge.specs.Builder.{add_refusal, added_by};

// How many bytes a desk takes, and what was sent.
#[unsafe(no_mangle)]
pub extern "C" fn lp_held_size() -> u32
    ensures { result ≡ 88 }
{
    desk_edge::lp_held_size()
}

#[unsafe(no_mangle)]
pub extern "C" fn lp_sent_size() -> u32
    ensures { result ≡ 100 }
{
    desk_edge::lp_sent_size()
}

#[unsafe(no_mangle)]
pub extern "C" fn lp_held_open(
    held: &mut [u8],
    own: &[u8],
    bank: &[u8],
    part1: u64,
    part2: u64,
    check: u32,
    generation: u32,
) -> u32
    ensures answers { result ≡ (opened_by held.old own.now bank.now part1 part2 check generation).refusal }
    ensures keeps { held.new ≡ held_after_call held.old
        (opened_by held.old own.now bank.now part1 part2 check generation) }
{
    desk_edge::lp_held_open(held, own, bank, part1, part2, check, generation)
}

#[unsafe(no_mangle)]
pub extern "C" fn lp_held_enter(
    held: &mut [u8],
    part1: u64,
    part2: u64,
    check: u32,
    generation: u32,
) -> u32
    ensures answers { result ≡ (entered_by held.old
        (record { part1 = part1; part2 = part2; check = check; generation = generation })).refusal }
    ensures keeps { held.new ≡ held_after_call held.old (entered_by held.old
        (record { part1 = part1; part2 = part2; check = check; generation = generation })) }
{
    desk_edge::lp_held_enter(held, part1, part2, check, generation)
}

// The current keys' generations and check values, which both sides read out after a change.
#[unsafe(no_mangle)]
pub extern "C" fn lp_held_values(held: &[u8], values: &mut [u32]) -> u32
    ensures answers { result ≡ pick (are_told held.now values.old) 0 11 }
    ensures tells { values.new ≡ pick (are_told held.now values.old)
        (values_of (held_in held.now)) values.old }
{
    desk_edge::lp_held_values(held, values)
}

#[unsafe(no_mangle)]
pub extern "C" fn lp_sent_of(first: &[u8], closing: &[u8], sent: &mut [u8]) -> u32
    ensures answers { result ≡ sent_refusal first.now closing.now sent.old }
    ensures keeps { sent.new ≡ sent_after_call first.now closing.now sent.old }
{
    desk_edge::lp_sent_of(first, closing, sent)
}

#[unsafe(no_mangle)]
pub extern "C" fn lp_check_esi(held: &mut [u8], sent: &[u8], reply: &[u8], word: &mut [u32]) -> u32
    ensures { MeetsCheck held.old sent.now word.old
        (esi_by held.old sent.now reply.now)
        result held.new word.new }
{
    desk_edge::lp_check_esi(held, sent, reply, word)
}

#[unsafe(no_mangle)]
pub extern "C" fn lp_check_pte(held: &mut [u8], sent: &[u8], reply: &[u8], word: &mut [u32]) -> u32
    ensures { MeetsCheck held.old sent.now word.old
        (pte_by held.old sent.now reply.now)
        result held.new word.new }
{
    desk_edge::lp_check_pte(held, sent, reply, word)
}

// How many bytes a batch takes.
#[unsafe(no_mangle)]
pub extern "C" fn lp_batch_size() -> u32
    ensures { result ≡ 168 }
{
    desk_edge::builder::lp_batch_size()
}

#[unsafe(no_mangle)]
pub extern "C" fn lp_build_esi(
    held: &[u8],
    software: &[u8],
    stamp: &[u8],
    request: u32,
    text: &mut [u8],
    sent: &mut [u8],
) -> u32
    ensures { MeetsBuilding text.old sent.old
        (esi_built_by held.now software.now stamp.now request text.old sent.old)
        result text.new sent.new }
{
    desk_edge::builder::lp_build_esi(held, software, stamp, request, text, sent)
}

#[unsafe(no_mangle)]
pub extern "C" fn lp_build_var(batch: &[u8], request: u32, text: &mut [u8], sent: &mut [u8]) -> u32
    ensures { MeetsBuilding text.old sent.old
        (var_built_by batch.now request text.old sent.old)
        result text.new sent.new }
{
    desk_edge::builder::lp_build_var(batch, request, text, sent)
}

#[unsafe(no_mangle)]
pub extern "C" fn lp_build_suo(
    held: &[u8],
    maker: &mut [u64],
    clock: u64,
    software: &[u8],
    method: &[u8],
    stamp: &[u8],
    area: u32,
    text: &mut [u8],
    batch: &mut [u8],
) -> u32
    ensures answers { result ≡ (suo_built_by held.now maker.old clock
        (given_of software.now method.now stamp.now area)
        text.old batch.old).refusal }
    ensures writes { text.new ≡ suo_text_after text.old (suo_built_by held.now maker.old clock
        (given_of software.now method.now stamp.now area)
        text.old batch.old) }
    ensures keeps { batch.new ≡ batch_after batch.old (suo_built_by held.now maker.old clock
        (given_of software.now method.now stamp.now area)
        text.old batch.old) }
    ensures moves { maker.new ≡ maker_later held.now maker.old clock
        (given_of software.now method.now stamp.now area)
        text.old batch.old }
{
    desk_edge::builder::lp_build_suo(
        held, maker, clock, software, method, stamp, area, text, batch,
    )
}

// The record stands without its line end.
#[unsafe(no_mangle)]
pub extern "C" fn lp_add_record(batch: &mut [u8], characters: &[u8]) -> u32
    ensures answers { result ≡ add_refusal batch.old }
    ensures keeps { batch.new ≡ added_by batch.old characters.now }
{
    desk_edge::builder::lp_add_record(batch, characters)
}
