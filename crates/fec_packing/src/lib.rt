// Decoded bits to bytes, the high bit first (fic/handler.rs and msc/mod.rs, each in its own loop there).
#![tactic(auto)]

ghost use Rattle.std.specs.Prelude.{◌≡◌, map};
ghost use Rattle.laws.specs.Bits.{num_of};
ghost use Rattle.fec_packing.specs.Bytes.{as_bit, Packs};

use refusal::Refusal;

// The byte of eight values.
fn byte_of(eight: &[u8; 8]) -> u8
    ensures { result ≡ num_of (map as_bit eight.now) }
{
    let mut byte = 0;
    for bit in eight {
        byte = byte * 2 + u8::from(*bit != 0);
    }
    byte
}

// Packs the bits into the start of the bytes: how many bytes, or a refusal where they do not fit.
#[tactic(auto, unfolding(crate::specs::Bytes::pack_refusal))]
pub fn pack(bits: &[u8], bytes: &mut [u8]) -> Result<usize, Refusal>
    ensures { Packs bits.now bytes.old result bytes.new }
{
    let (eights, _) = bits.as_chunks::<8>();
    if bytes.len() < eights.len() {
        return Err(Refusal::ShortBuffer);
    }
    // By index: after a zip over `iter_mut` a proof knows none of the bytes that it wrote.
    for (j, eight) in eights.iter().enumerate() {
        bytes[j] = byte_of(eight);
    }
    Ok(eights.len())
}
