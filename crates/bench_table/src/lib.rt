// The table's check for a benchmark in another language: many checks in one call.

#![tactic(auto)]

ghost use Rattle.std.specs.Prelude.{◌≡◌};
ghost use Rattle.table.specs.Decode.{is_table};
ghost use Rattle.bench_table.specs.Counted.{counted};

// How many of so many checks say that the bytes are a table.
#[unsafe(no_mangle)]
pub extern "C" fn lp_bench_is_table(t: &[u8], count: u64) -> u64
    ensures { result ≡ counted (is_table t.now) count }
{
    let mut n: u64 = 0;
    for _ in 0..count {
        if table::is_table(t) {
            n += 1;
        }
    }
    n
}
