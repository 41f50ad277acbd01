// The tests that make up the test of a whole table.
ghost use Rattle.std.specs.Prelude.{◌≡◌, ◌+◌, ◌*◌, ◌≤◌, length};
ghost use Rattle.ground.specs.Lists.{all};
ghost use Rattle.calendar.specs.Dates.{real_date};
ghost use Rattle.table.specs.Table.{rising};
ghost use Rattle.table.specs.Written.{settings_start};
ghost use Rattle.table.specs.Tests.{dates_at, ok_header, ok_dates, ok_record, ok_records};

use crate::parts::{date_in, is_only};

// Whether the header's counts are within their limits, and its offsets and total length follow from them.
pub(crate) fn is_header(t: &[u8]) -> bool
    requires { settings_start ≤ length t.now }
    ensures { result ≡ ok_header t.now }
{
    let holidays = codec::read4(t, 8);
    let customers = codec::read4(t, 16);
    holidays <= 200
        && customers <= 32
        && codec::read4(t, 12) == 82
        && codec::read4(t, 20) == 82 + 4 * holidays
        && codec::read4(t, 0) == 82 + 4 * holidays + 1109 * customers
}

// Whether the n dates that stand from `at` on are real.
fn are_real(t: &[u8], at: usize, n: usize) -> bool
    requires { at + 4 * n ≤ length t.now }
    ensures { result ≡ all real_date (dates_at at n t.now) }
{
    (0..n).all(|i| date_in(t, at + 4 * i).is_real())
}

// Whether they rise strictly.
fn are_rising(t: &[u8], at: usize, n: usize) -> bool
    requires { at + 4 * n ≤ length t.now }
    ensures { result ≡ rising (dates_at at n t.now) }
{
    (1..n).all(|i| date_in(t, at + 4 * (i - 1)).before(date_in(t, at + 4 * i)))
}

// Whether the n dates that stand from `at` on are real and rise strictly.
pub(crate) fn are_dates(t: &[u8], at: usize, n: usize) -> bool
    requires { at + 4 * n ≤ length t.now }
    ensures { result ≡ ok_dates (dates_at at n t.now) }
{
    are_real(t, at, n) && are_rising(t, at, n)
}

// Whether a customer is written at `at` exactly, is sound, and has a name that none of the n after it has.
fn is_customer(t: &[u8], at: usize, n: usize) -> bool
    requires { at + 1109 + 1109 * n ≤ length t.now }
    ensures { result ≡ ok_record n at t.now }
{
    customer_bytes::is_sound_at(t, at) && is_only(t, at, n)
}

// Whether the n customers who stand from `at` on are written exactly, are sound, and none is there twice.
pub(crate) fn are_customers(t: &[u8], at: usize, n: usize) -> bool
    requires { at + 1109 * n ≤ length t.now }
    ensures { result ≡ ok_records n at t.now }
{
    (0..n).all(|i| is_customer(t, at + 1109 * i, n - 1 - i))
}
