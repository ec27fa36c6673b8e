// Energy dispersal (fec/energy_dispersal.rs): the same for scrambling and for undoing it.
#![tactic(auto)]

ghost use Rattle.std.specs.Prelude.{◌≡◌};
ghost use Rattle.spec_en300401.specs.Dispersal.{disperse};

// Xors each value with its bit of the sequence, which begins anew at each call. Any length, any values.
pub fn energy_dispersal(bits: &mut [u8])
    ensures { bits.new ≡ disperse bits.old }
{
    let mut reg: u16 = 0x1ff;
    for value in bits.iter_mut() {
        // The next bit of the sequence: bits 8 and 4 of the register, added modulo two.
        let bit = ((reg >> 8) + (reg >> 4)) % 2;
        *value ^= bit as u8;
        reg = (2 * reg + bit) % 512;
    }
}
