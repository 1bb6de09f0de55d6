// Putting a field into lent bytes. What lies past the bytes' end is not put.
ghost use Rattle.std.specs.Prelude.{◌≡◌, ◌≤◌};
ghost use Rattle.fields.specs.Bits.{widest_field, farthest_bit, put_field};

use crate::bits::put_bit;

// Makes the w bits from a position on the value v.
pub fn put_field(out: &mut [u8], at: usize, w: usize, v: u32)
    requires { (w ≤ widest_field) × (at ≤ farthest_bit) }
    ensures { out.new ≡ put_field at w v out.old }
{
    for k in 0..w {
        put_bit(out, at + k, (v >> (w - 1 - k)) % 2);
    }
}
