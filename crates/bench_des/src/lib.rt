// The cipher for a benchmark in another language: many blocks in one call.

#![tactic(auto)]

ghost use Rattle.std.specs.Prelude.{◌≡◌};
ghost use Rattle.des.specs.Des.{schedule_of};
ghost use Rattle.bench_des.specs.Again.{again, scheduled};

// A block enciphered over and over under one key.
#[unsafe(no_mangle)]
pub extern "C" fn lp_bench_rounds(key: u64, block: u64, count: u64) -> u64
    ensures { result ≡ again (schedule_of key) block count }
{
    let ks = des::schedule(key);
    let mut x = block;
    for _ in 0..count {
        x = des::rounds(ks, x);
    }
    x
}

// The same with the table taken once and lent.
#[unsafe(no_mangle)]
pub extern "C" fn lp_bench_lent(key: u64, block: u64, count: u64) -> u64
    ensures { result ≡ again (schedule_of key) block count }
{
    let t = des::joined_table();
    let ks = des::schedule(key);
    let mut x = block;
    for _ in 0..count {
        x = des::rounds_by(&t, ks, x);
    }
    x
}

// Round keys made over and over, each from the last round key before.
#[unsafe(no_mangle)]
pub extern "C" fn lp_bench_schedule(key: u64, count: u64) -> u64
    ensures { result ≡ scheduled key count }
{
    let mut x = key;
    for _ in 0..count {
        x = des::schedule(x)[15];
    }
    x
}
