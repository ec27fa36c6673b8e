// The CRC of a FIB: the byte test (constants.rs) and the bit test (fic/handler.rs).
#![tactic(auto)]

ghost use Rattle.std.specs.Prelude.{◌≡◌, fold};
ghost use Rattle.laws.specs.Bits.{bits_of};
ghost use Rattle.spec_en300401.specs.Crc.{crc_step, crc_from};
ghost use Rattle.fec_crc.specs.Tests.{byte_test, all_bits, bit_test};

// Bytes of a FIB, and of the CRC at its end.
pub const FIB_LENGTH: usize = 32;

pub const FIB_CRC_LENGTH: usize = 2;

// Bits of a FIB.
const FIB_BITS: usize = 256;

// Carriers of mode I: a symbol has two soft values for each.
pub const K: usize = 1536;

// The register after one bit more.
#[tactic(auto, unfolding(spec_en300401::specs::Crc::crc_step))]
fn crc_step(reg: u16, bit: u8) -> u16
    ensures { result ≡ crc_step reg bit }
{
    let shifted = reg << 1;
    let differ = ((reg >> 15) + u16::from(bit)) % 2;
    shifted ^ (differ * 0x1021)
}

// The register after the eight bits of a byte, the high bit first.
fn crc_byte(start: u16, byte: u8) -> u16
    ensures { result ≡ crc_from start (bits_of 8 byte) }
{
    let mut reg = start;
    for place in (0..8u8).rev() {
        reg = crc_step(reg, byte >> place & 1);
    }
    reg
}

// The register after the bits of some bytes.
fn crc_bytes(bytes: &[u8]) -> u16
    ensures { result ≡ fold (λ r y. crc_from r (bits_of 8 y)) 0xffff bytes.now }
{
    bytes.iter().fold(0xffff, |reg, byte| crc_byte(reg, *byte))
}

// Whether the first 32 bytes are a FIB with a good CRC.
pub fn fib_crc_valid(fib: &[u8]) -> bool
    ensures { result ≡ byte_test fib.now }
{
    let Some(fib) = fib.first_chunk::<FIB_LENGTH>() else {
        return false;
    };
    let (covered, sent) = fib.split_at(FIB_LENGTH - FIB_CRC_LENGTH);
    !crc_bytes(covered) == u16::from_be_bytes([sent[0], sent[1]])
}

// Whether each value is a bit. In a function of its own, since a caller's proof knows a chain's value only by a clause.
fn are_bits(bits: &[u8]) -> bool
    ensures { result ≡ all_bits bits.now }
{
    bits.iter().all(|bit| *bit < 2)
}

// Whether these are the 256 zeros and ones of a FIB with a good CRC.
pub fn check_crc_bits(bits: &[u8]) -> bool
    ensures { result ≡ bit_test bits.now }
{
    if bits.len() != FIB_BITS {
        return false;
    }
    if !are_bits(bits) {
        return false;
    }
    // 256 bits are the 32 bytes.
    let mut fib = [0; FIB_LENGTH];
    fec_packing::pack(bits, &mut fib).unwrap();
    fib_crc_valid(&fib)
}
