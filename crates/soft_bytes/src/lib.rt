// Soft values as two's-complement bytes, as programs read them.
#![tactic(auto)]

ghost use Rattle.std.specs.Prelude.{◌≡◌};
ghost use Rattle.soft_bytes.specs.Soft.{soft_of, converted};

// std's cast under a public name (docs/PROMISES.md), with the programs' rule for a byte as its promise.
#[tactic(auto, unfolding(crate::specs::Soft::soft_of))]
pub fn soft_of(byte: u8) -> i8
    ensures { result ≡ soft_of byte }
{
    byte.cast_signed()
}

// The bytes as soft values, as many as there are places.
pub fn convert(bytes: &[u8], soft: &mut [i8])
    ensures { soft.new ≡ converted bytes.now soft.old }
{
    let n = bytes.len().min(soft.len());
    // By index: after a zip over `iter_mut` a proof knows none of the values that it wrote.
    for (i, byte) in bytes[..n].iter().enumerate() {
        soft[i] = soft_of(*byte);
    }
}
