// A batch on its way as bytes that a bureau keeps between calls. The offsets are those of docs/FORMAT.md.

#![tactic(auto)]

ghost use Rattle.std.specs.Prelude.{◌≡◌, length};
ghost use Rattle.codec.specs.Layout.{dec};
ghost use Rattle.build_bytes.specs.Layout.{batch_size, state_shape, state_from};
ghost use Rattle.build_bytes.specs.Bytes.{sound_batch, batch_bytes, batch_of, is_batch, batch_in, batch_stored};

// The bytes that a batch takes.
const SIZE: usize = 168;

// ---- reading, where the bytes have a batch's length

fn state_in(b: &[u8]) -> digest::State
    requires { length b.now ≡ batch_size }
    ensures { result ≡ state_from (dec state_shape 144 b.now) }
{
    digest::State {
        chain: codec::read8(b, 144),
        block: codec::read8(b, 152),
        n: codec::read8(b, 160),
    }
}

fn batch_in(b: &[u8]) -> build::Batch
    requires { length b.now ≡ batch_size }
    ensures { result ≡ batch_of b.now }
{
    let mut suo = [0u8; 128];
    codec::read_bytes(&mut suo, b, 0);
    build::Batch {
        suo,
        once: codec::read8(b, 128),
        working: codec::read8(b, 136),
        state: state_in(b),
    }
}

// ---- soundness

#[tactic(auto, unfolding(crate::specs::Bytes::sound_batch, ground::specs::Choice::both, ground::specs::Choice::fails))]
fn is_sound(x: build::Batch) -> bool
    ensures { result ≡ sound_batch x }
{
    !build::suo_breaks_rules(x.suo)
        && keys::has_odd_parity(x.once)
        && keys::has_odd_parity(x.working)
}

// Whether bytes are a batch's.
#[tactic(auto, unfolding(crate::specs::Bytes::is_batch, ground::specs::Choice::both))]
pub fn is_batch(b: &[u8]) -> bool
    ensures { result ≡ is_batch b.now }
{
    b.len() == SIZE && is_sound(batch_in(b))
}

// The batch that bytes say; bytes that are none say no batch.
#[tactic(auto, unfolding(crate::specs::Bytes::batch_in, ground::specs::Choice::pick))]
pub fn load_batch(b: &[u8]) -> build::Batch
    ensures { result ≡ batch_in b.now }
{
    if is_batch(b) {
        batch_in(b)
    } else {
        build::no_batch()
    }
}

// ---- writing

fn put_batch(b: &mut [u8], x: build::Batch)
    requires { length b.old ≡ batch_size }
    ensures { b.new ≡ batch_bytes x }
{
    let numbers = [x.once, x.working, x.state.chain, x.state.block, x.state.n];
    codec::write_bytes(b, 0, &x.suo);
    codec::write_row(b, 128, &[8, 8, 8, 8, 8], &numbers);
}

// Writes a batch over bytes of its length; others stay.
#[tactic(auto, unfolding(crate::specs::Bytes::batch_stored, ground::specs::Choice::pick))]
pub fn store_batch(b: &mut [u8], x: build::Batch)
    ensures { b.new ≡ batch_stored b.old x }
{
    if b.len() == SIZE {
        put_batch(b, x);
    }
}
