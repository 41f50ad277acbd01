// A table of customers kept as bytes in a lent buffer.

#![tactic(auto)]

mod parts;
mod tests;

ghost use Rattle.std.specs.Prelude.{◌≡◌, ◌≤◌, length};
ghost use Rattle.splices.specs.Bytes.{splice};
ghost use Rattle.codec.specs.Layout.{enc};
ghost use Rattle.table.specs.Table.{place_of, customer_in};
ghost use Rattle.table.specs.Named.{named};
ghost use Rattle.table.specs.Decode.{table_of, is_table};
ghost use Rattle.table.specs.Written.{settings_start, header_shape, header_to};
ghost use Rattle.table.specs.Stored.{day_stored, seed_stored, customer_stored, customer_added, table_set_up, holidays_of};

use crate::parts::{
    SIZE, count_customers, count_holidays, customers_start, date_in, dates_at, find_from,
    store_dates,
};

#[derive(Clone, Copy, Debug, PartialEq, Eq)]
pub struct Holidays {
    pub count: u32,
    pub dates: [u32; 200],
}

// Whether a table is written as these bytes.
pub fn is_table(t: &[u8]) -> bool
    ensures { result ≡ is_table t.now }
{
    t.len() == SIZE
        && tests::is_header(t)
        && date_in(t, 4).is_real()
        && customer::is_sound_settings(customer_bytes::settings_at(t, 24))
        && tests::are_dates(t, 82, count_holidays(t))
        && tests::are_customers(t, customers_start(t), count_customers(t))
}

// The table's day.
pub fn day(t: &[u8]) -> calendar::Date
    ensures { result.yymmdd ≡ (table_of t.now).day }
{
    if t.len() != SIZE {
        return calendar::Date { yymmdd: 0 };
    }
    date_in(t, 4)
}

// The bank's settings.
pub fn settings(t: &[u8]) -> customer::Settings
    ensures { result ≡ (table_of t.now).settings }
{
    if t.len() != SIZE {
        return customer_bytes::settings_at(t, t.len());
    }
    customer_bytes::settings_at(t, 24)
}

// The holidays.
pub fn holidays_in(t: &[u8]) -> Holidays
    ensures { result ≡ holidays_of (table_of t.now) }
{
    if t.len() != SIZE {
        return Holidays {
            count: 0,
            dates: [0; 200],
        };
    }
    let n = count_holidays(t);
    Holidays {
        count: n as u32,
        dates: dates_at(t, 82, n),
    }
}

// How many customers the table has.
pub fn customer_count(t: &[u8]) -> u32
    ensures { result ≡ length (table_of t.now).customers }
{
    if t.len() != SIZE {
        return 0;
    }
    count_customers(t) as u32
}

// The place of the customer with that identity and qualifier.
pub fn find(t: &[u8], who: [u8; 25]) -> Option<usize>
    ensures { result ≡ place_of (table_of t.now) who }
{
    if t.len() != SIZE {
        return None;
    }
    find_from(t, customers_start(t), count_customers(t), who)
}

// The customer at a place; where there is none, one of all-zero bytes.
pub fn load(t: &[u8], i: usize) -> customer::Customer
    ensures { result ≡ customer_in (table_of t.now) i }
{
    if t.len() == SIZE && i < count_customers(t) {
        return customer_bytes::load_at(t, customers_start(t) + 1109 * i);
    }
    customer_bytes::load_at(t, t.len())
}

// Another record for the customer at a place.
pub fn store(t: &mut [u8], i: usize, c: customer::Customer)
    ensures { t.new ≡ customer_stored t.old i c }
{
    if t.len() == SIZE && i < count_customers(t) {
        let start = customers_start(t);
        customer_bytes::store_at(t, start + 1109 * i, c);
    }
}

// One customer more, where there is room.
pub fn add(t: &mut [u8], c: customer::Customer)
    ensures { t.new ≡ customer_added t.old c }
{
    if t.len() != SIZE {
        return;
    }
    let n = count_customers(t);
    if n >= 32 {
        return;
    }
    let start = customers_start(t);
    customer_bytes::store_at(t, start + 1109 * n, c);
    codec::write4(t, 16, (n + 1) as u32);
    codec::write4(t, 0, (start + 1109 * (n + 1)) as u32);
}

// Another day.
pub fn store_day(t: &mut [u8], d: calendar::Date)
    ensures { t.new ≡ day_stored t.old d.yymmdd }
{
    if t.len() == SIZE {
        codec::write4(t, 4, d.yymmdd);
    }
}

// Another seed of the key maker.
pub fn store_seed(t: &mut [u8], v: u64)
    ensures { t.new ≡ seed_stored t.old v }
{
    if t.len() == SIZE {
        codec::write8(t, 74, v);
    }
}

// The header of a table without customers.
fn store_header(t: &mut [u8], day: u32, holidays: u32)
    requires { (settings_start ≤ length t.old) × (holidays ≤ 200) }
    ensures { t.new ≡ splice 0 (enc header_shape (header_to day holidays 0)) t.old }
{
    let start = 82 + 4 * holidays;
    codec::write4(t, 0, start);
    codec::write4(t, 4, day);
    codec::write4(t, 8, holidays);
    codec::write4(t, 12, 82);
    codec::write4(t, 16, 0);
    codec::write4(t, 20, start);
}

// A new table without customers.
pub fn set_up(t: &mut [u8], day: calendar::Date, s: customer::Settings, holidays: &[u32])
    ensures { t.new ≡ table_set_up t.old day.yymmdd s holidays.now }
{
    if t.len() == SIZE && holidays.len() <= 200 {
        store_header(t, day.yymmdd, holidays.len() as u32);
        customer_bytes::store_settings(t, 24, s);
        store_dates(t, 82, holidays);
    }
}

/// The customer with that identity and qualifier; where there is none, the one of all-zero bytes.
pub fn named(t: &[u8], who: [u8; 25]) -> customer::Customer
    ensures { result ≡ named (table_of t.now) who }
{
    match find(t, who) {
        Some(i) => load(t, i),
        None => load(t, customer_count(t) as usize),
    }
}
