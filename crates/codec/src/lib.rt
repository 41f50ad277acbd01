// Numbers, bytes and runs of numbers at a place of a slice that has room for them: what a layout's fields are read and written by.

#![tactic(auto)]

ghost use Rattle.std.specs.Prelude.{◌≡◌, ◌+◌, ◌*◌, ◌≤◌, ◌<◌, leb, length};
ghost use Rattle.ground.specs.Choice.{one};
ghost use Rattle.ground.specs.Lists.{part, same};
ghost use Rattle.codec.specs.Rows.{total, fields};
ghost use Rattle.splices.specs.Bytes.{num, nums, bytes_of, bytes_of_all, splice};

// Whether k bytes at `at` lie within n bytes.
pub fn fits(n: usize, at: usize, k: usize) -> bool
    ensures { result ≡ leb (at + k) n }
{
    at <= n && k <= n - at
}

// ---- reading

// The N bytes at `at`.
fn bytes_at<const N: usize>(t: &[u8], at: usize) -> [u8; N]
    requires { at + N ≤ length t.now }
    ensures { result ≡ part at N t.now }
{
    let mut out = [0; N];
    read_bytes(&mut out, t, at);
    out
}

#[tactic(auto, using(ground::proofs::Parts::part1), unfolding(splices::specs::Bytes::num))]
pub fn read1(t: &[u8], at: usize) -> u32
    requires { at + 1 ≤ length t.now }
    ensures { result ≡ num (part at 1 t.now) }
{
    u32::from(t[at])
}

pub fn read2(t: &[u8], at: usize) -> u32
    requires { at + 2 ≤ length t.now }
    ensures { result ≡ num (part at 2 t.now) }
{
    u32::from(u16::from_le_bytes(bytes_at(t, at)))
}

pub fn read4(t: &[u8], at: usize) -> u32
    requires { at + 4 ≤ length t.now }
    ensures { result ≡ num (part at 4 t.now) }
{
    u32::from_le_bytes(bytes_at(t, at))
}

pub fn read8(t: &[u8], at: usize) -> u64
    requires { at + 8 ≤ length t.now }
    ensures { result ≡ num (part at 8 t.now) }
{
    u64::from_le_bytes(bytes_at(t, at))
}

// The bytes at `at`, as many as there is room for.
#[tactic(auto, using(ground::proofs::Std::words))]
pub fn read_bytes(out: &mut [u8], t: &[u8], at: usize)
    requires { at + length out.old ≤ length t.now }
    ensures { out.new ≡ part at (length out.old) t.now }
{
    out.copy_from_slice(&t[at..at + out.len()]);
}

// The numbers of 8 bytes each at `at`, as many as there is room for.
pub fn read_numbers(out: &mut [u64], t: &[u8], at: usize)
    requires { at + 8 * length out.old ≤ length t.now }
    ensures { out.new ≡ nums 8 (length out.old) (part at (8 * length out.old) t.now) }
{
    for (i, n) in out.iter_mut().enumerate() {
        *n = read8(t, at + 8 * i);
    }
}

// ---- writing

#[tactic(auto, using(splices::proofs::Splice::set1), unfolding(splices::specs::Bytes::bytes_of))]
pub fn write1(t: &mut [u8], at: usize, n: u32)
    requires { at + 1 ≤ length t.old }
    ensures { t.new ≡ splice at (bytes_of 1 n) t.old }
{
    t[at] = (n % 256) as u8;
}

pub fn write4(t: &mut [u8], at: usize, n: u32)
    requires { at + 4 ≤ length t.old }
    ensures { t.new ≡ splice at (bytes_of 4 n) t.old }
{
    write_bytes(t, at, &n.to_le_bytes());
}

pub fn write8(t: &mut [u8], at: usize, n: u64)
    requires { at + 8 ≤ length t.old }
    ensures { t.new ≡ splice at (bytes_of 8 n) t.old }
{
    write_bytes(t, at, &n.to_le_bytes());
}

#[tactic(auto, unfolding(splices::specs::Bytes::splice))]
pub fn write_bytes(t: &mut [u8], at: usize, s: &[u8])
    requires { at + length s.now ≤ length t.old }
    ensures { t.new ≡ splice at s.now t.old }
{
    t[at..at + s.len()].copy_from_slice(s);
}

// Numbers of 8 bytes each, one after the other.
pub fn write_numbers(t: &mut [u8], at: usize, s: &[u64])
    requires { at + 8 * length s.now ≤ length t.old }
    ensures { t.new ≡ splice at (bytes_of_all 8 s.now) t.old }
{
    for (i, &n) in s.iter().enumerate() {
        write8(t, at + 8 * i, n);
    }
}

// 1 for a flag that is set, else 0.
#[tactic(auto, unfolding(ground::specs::Choice::one))]
pub fn flag_number(b: bool) -> u32
    ensures { result ≡ one b }
{
    u32::from(b)
}

// ---- testing

// Whether the bytes at `at` are those of s.
#[tactic(auto, using(ground::proofs::Std::words))]
pub fn same_at<'a>(s: &'a [u8], t: &'a [u8], at: usize) -> bool
    requires { at + length s.now ≤ length t.now }
    ensures { result ≡ same s.now (part at (length s.now) t.now) }
{
    s == &t[at..at + s.len()]
}

// ---- rows

// n's lowest w bytes.
#[tactic(auto, unfolding(splices::specs::Bytes::splice))]
pub fn write_number(t: &mut [u8], at: usize, w: usize, n: u64)
    requires { at + w ≤ length t.old }
    ensures { t.new ≡ splice at (bytes_of w n) t.old }
{
    let mut rest = n;
    for byte in &mut t[at..at + w] {
        *byte = (rest % 256) as u8;
        rest /= 256;
    }
}

// Each number in as many bytes as its width says.
pub fn write_row<'a>(t: &mut [u8], at: usize, widths: &'a [u8], numbers: &'a [u64])
    requires { (length numbers.now ≡ length widths.now) × (at + total widths.now ≤ length t.old) }
    ensures { t.new ≡ splice at (fields widths.now numbers.now) t.old }
{
    let mut p = at;
    for (&w, &n) in widths.iter().zip(numbers) {
        let w = usize::from(w);
        write_number(t, p, w, n);
        p += w;
    }
}

#[tactic(auto, unfolding(ground::specs::Choice::one))]
pub fn flag_cell(b: bool) -> u64
    ensures { result ≡ one b }
{
    u64::from(b)
}
