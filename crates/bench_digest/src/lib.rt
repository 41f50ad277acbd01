// The digest for a benchmark in another language: one record of any length.

#![tactic(auto)]

ghost use Rattle.std.specs.Prelude.{◌≡◌};
ghost use Rattle.des.specs.Des.{enciphered};
ghost use Rattle.digest.specs.Running.{begun, alike, took_bytes};

// The chain after a record's characters.
#[unsafe(no_mangle)]
pub extern "C" fn lp_bench_digest(key: u64, bytes: &[u8]) -> u64
    ensures { result ≡ (took_bytes (enciphered key) (alike begun) bytes.now).last.chain }
{
    let table = des::joined_table();
    let keys = des::schedule(key);
    let r = digest::run(&table, keys, digest::at_record(digest::start()), bytes);
    r.last.chain
}
