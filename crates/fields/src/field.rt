// A field of a sheet, read.
ghost use Rattle.std.specs.Prelude.{◌≡◌, ◌≤◌};
ghost use Rattle.fields.specs.Bits.{widest_field, farthest_bit, field_at};
ghost use Rattle.fields.specs.Judging.{on_sheet, read};

use crate::bits::bit;

// The value of the w bits from a position on.
pub fn field(s: &[u8], at: usize, w: usize) -> u32
    requires { (w ≤ widest_field) × (at ≤ farthest_bit) }
    ensures { result ≡ field_at s.now at w }
{
    // A loop and no fold: that the sum stays below 2 ^ w is said of each turn by the loop's invariant.
    let mut v = 0;
    for k in at..at + w {
        v = 2 * v + bit(s, k);
    }
    v
}

// The same, where the bytes do not end before the field is complete.
pub fn whole_field(s: &[u8], at: usize, w: usize) -> Option<usize>
    requires { (w ≤ widest_field) × (at ≤ farthest_bit) }
    ensures { result ≡ read (on_sheet s.now at w) }
{
    if s.len() < (at + w).div_ceil(8) {
        return None;
    }
    // A usize holds each u32, and has no From for it.
    Some(field(s, at, w) as usize)
}
