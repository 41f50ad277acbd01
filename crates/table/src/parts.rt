// The parts of a table by their places: counts, dates and customers.
ghost use Rattle.std.specs.Prelude.{◌≡◌, ◌+◌, ◌*◌, ◌≤◌, eqb, length};
ghost use Rattle.ground.specs.Lists.{part, same};
ghost use Rattle.splices.specs.Bytes.{num, bytes_of_all, splice};
ghost use Rattle.table.specs.Table.{place_from, is_unknown};
ghost use Rattle.table.specs.Written.{settings_start, customers_start};
ghost use Rattle.table.specs.Decode.{holiday_count, customer_count};
ghost use Rattle.table.specs.Tests.{dates_at, customers_at, filled};

pub(crate) const SIZE: usize = 49152;

// The counts of the header, no more than there is room for.
pub(crate) fn count_holidays(t: &[u8]) -> usize
    requires { settings_start ≤ length t.now }
    ensures { (result ≡ holiday_count t.now) × (result ≤ 200) }
{
    codec::read4(t, 8).min(200) as usize
}

pub(crate) fn count_customers(t: &[u8]) -> usize
    requires { settings_start ≤ length t.now }
    ensures { (result ≡ customer_count t.now) × (result ≤ 32) }
{
    codec::read4(t, 16).min(32) as usize
}

// Where the customers stand.
pub(crate) fn customers_start(t: &[u8]) -> usize
    requires { settings_start ≤ length t.now }
    ensures { (result ≡ customers_start (holiday_count t.now)) × (result ≤ 882) }
{
    82 + 4 * count_holidays(t)
}

// The date that stands at `at`.
pub(crate) fn date_in(t: &[u8], at: usize) -> calendar::Date
    requires { at + 4 ≤ length t.now }
    ensures { result.yymmdd ≡ num (part at 4 t.now) }
{
    calendar::Date {
        yymmdd: codec::read4(t, at),
    }
}

// The n dates that stand from `at` on, in an array of 200.
pub(crate) fn dates_at(t: &[u8], at: usize, n: usize) -> [u32; 200]
    requires { (n ≤ 200) × (at + 4 * n ≤ length t.now) }
    ensures { result ≡ filled (dates_at at n t.now) }
{
    let mut out = [0; 200];
    for i in 0..n {
        out[i] = codec::read4(t, at + 4 * i);
    }
    out
}

// The dates are written from `at` on.
pub(crate) fn store_dates(t: &mut [u8], at: usize, dates: &[u32])
    requires { at + 4 * length dates.now ≤ length t.old }
    ensures { t.new ≡ splice at (bytes_of_all 4 dates.now) t.old }
{
    for i in 0..dates.len() {
        codec::write4(t, at + 4 * i, dates[i]);
    }
}

// Whether the 25 bytes at `at` are that identity and qualifier.
fn is_named(t: &[u8], at: usize, who: [u8; 25]) -> bool
    requires { at + 25 ≤ length t.now }
    ensures { result ≡ same who (part at 25 t.now) }
{
    t[at..].starts_with(&who)
}

// The place of that identity and qualifier among the n customers who stand from `at` on.
pub(crate) fn find_from(t: &[u8], at: usize, n: usize, who: [u8; 25]) -> Option<usize>
    requires { at + 1109 * n ≤ length t.now }
    ensures { result ≡ place_from 0 who (customers_at at n t.now) }
{
    (0..n).find(|&i| is_named(t, at + 1109 * i, who))
}

// Whether the same eight bytes stand at a and at b.
fn are_same8(t: &[u8], a: usize, b: usize) -> bool
    requires { (a + 8 ≤ length t.now) × (b + 8 ≤ length t.now) }
    ensures { result ≡ eqb (num (part a 8 t.now)) (num (part b 8 t.now)) }
{
    codec::read8(t, a) == codec::read8(t, b)
}

// Whether the same identity and qualifier stand at a and at b. The qualifiers go first: where customers are alike, they differ there. Eight
// bytes at a time: each call compares each two of a table's customers.
fn are_same(t: &[u8], a: usize, b: usize) -> bool
    requires { (a + 25 ≤ length t.now) × (b + 25 ≤ length t.now) }
    ensures { result ≡ same (part a 25 t.now) (part b 25 t.now) }
{
    are_same8(t, a + 17, b + 17)
        && are_same8(t, a, b)
        && are_same8(t, a + 8, b + 8)
        && codec::read1(t, a + 16) == codec::read1(t, b + 16)
}

// Whether the customer at `at` has a name that none of the n after it has.
pub(crate) fn is_only(t: &[u8], at: usize, n: usize) -> bool
    requires { at + 1109 + 1109 * n ≤ length t.now }
    ensures { result ≡ is_unknown (place_from 0 (part at 25 t.now) (customers_at (at + 1109) n t.now)) }
{
    !(0..n).any(|i| are_same(t, at, at + 1109 + 1109 * i))
}
