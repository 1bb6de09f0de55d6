// Values in lists of bytes, as the historian has them: four bytes each, most significant first.
#![tactic(auto)]

ghost use Rattle.std.specs.Prelude.{◌≡◌, ℕ, map, ◌*◌, ◌+◌, ◌≤◌, length};
ghost use Rattle.task.specs.Loops.{tab, over};
ghost use Rattle.fields.specs.Judging.{each};
ghost use Rattle.fields.specs.Places.{puts};
ghost use Rattle.values.specs.Values.{value_bytes, bytes_at, value_on, twos};

use task::Model;

// A list of three values for each place that a run can use, for its cuts or for its rows.
pub type PlaceValues = [u32; (Model::BLOCKS - 1) * 3];

// A number that is put as a value. Its worth is the number from 0 on whose four bytes stand for it.
pub trait Value: Copy {
    ghost worth: { Self → ℕ };

    fn bytes(self) -> [u8; 4]
        ensures { result ≡ value_bytes (worth self) };
}

impl Value for u32 {
    ghost worth = { λ v. v };

    #[tactic(auto, unfolding(crate::specs::Values::value_bytes))]
    fn bytes(self) -> [u8; 4] {
        u32::to_be_bytes(self)
    }
}

// A signed value is in two's complement.
impl Value for i32 {
    ghost worth = { twos };

    #[tactic(auto, using(crate::proofs::ValueLaws::twos_bits), unfolding(crate::specs::Values::value_bytes))]
    fn bytes(self) -> [u8; 4] {
        i32::to_be_bytes(self)
    }
}

// Puts the first n values of a list over the front of the bytes. The list is lent whole, since a part of some hundred places would be worked out in a caller's
// proof; the same below.
pub fn put_values<V: Value>(values: &[V], n: usize, bytes: &mut [u8])
    requires room { n * 4 ≤ length bytes.old }
    requires given { n ≤ length values.now }
    ensures { bytes.new ≡ puts 0 (each n (bytes_at (map V.worth values.now))) bytes.old }
{
    for (i, v) in values[..n].iter().enumerate() {
        bytes[i * 4..i * 4 + 4].copy_from_slice(&v.bytes());
    }
}

// Value k of a list of bytes.
fn get_value(bytes: &[u8], k: usize) -> u32
    requires { k * 4 + 4 ≤ length bytes.now }
    ensures { result ≡ value_on bytes.now k }
{
    let at = k * 4;
    u32::from_be_bytes([bytes[at], bytes[at + 1], bytes[at + 2], bytes[at + 3]])
}

// Gets the first n values of the bytes into the front of a list.
pub fn get_values(bytes: &[u8], n: usize, values: &mut [u32])
    requires given { n * 4 ≤ length bytes.now }
    requires room { n ≤ length values.old }
    ensures { values.new ≡ over (tab n (value_on bytes.now)) values.old }
{
    for (k, value) in values[..n].iter_mut().enumerate() {
        *value = get_value(bytes, k);
    }
}
