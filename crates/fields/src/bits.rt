// Single bits of bytes. A bit is a number, 0 or 1, since a field is the sum of its bits.
ghost use Rattle.std.specs.Prelude.{◌≡◌, ◌<◌};
ghost use Rattle.fields.specs.Bits.{byte_values, bit_at, with_bit, put_bit};

// The bit at a position; 0 past the end.
#[tactic(auto, unfolding(crate::specs::Bits::bit_at))]
pub fn bit(s: &[u8], at: usize) -> u32
    ensures { result ≡ bit_at s.now at }
{
    let Some(byte) = s.get(at / 8) else {
        return 0;
    };
    (u32::from(*byte) >> (7 - at % 8)) % 2
}

// A byte with its bit of weight 2 ^ e made b: in arithmetic, as its definition is, so that the laws of division say what the other bits are.
fn with_bit(x: u32, e: usize, b: u32) -> u32
    requires { (x < byte_values) × (e < 8) × (b < 2) }
    ensures { (result ≡ with_bit x e b) × (result < byte_values) }
{
    let p = 1 << e;
    let q = 2 * p;
    x / q * q + (b * p + x % p)
}

// Makes the bit at a position b; past the end it does nothing.
#[tactic(auto, unfolding(crate::specs::Bits::put_bit))]
pub fn put_bit(out: &mut [u8], k: usize, b: u32)
    requires { b < 2 }
    ensures { out.new ≡ put_bit k b out.old }
{
    let i = k / 8;
    if i < out.len() {
        out[i] = with_bit(u32::from(out[i]), 7 - k % 8, b) as u8;
    }
}
