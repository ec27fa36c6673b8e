// Depuncturing: what is not sent is filled in with 0, for a sub-channel by its description and for the FIC (eep.rs and uep.rs).
#![tactic(auto)]

ghost use Rattle.std.specs.Prelude.{◌≡◌, ◌*◌, ◌<◌, ◌≤◌, drop, length, pos};
ghost use Rattle.std.specs.Slice.Iter.{iter_rest};
ghost use Rattle.laws.specs.Integers.{at, pick_z};
ghost use Rattle.laws.specs.Words.{pick_n};
ghost use Rattle.spec_en300401.specs.Puncturing.{mask, region_mask};
ghost use Rattle.fec_protection.specs.Code.{region, regions_in};
ghost use Rattle.fec_depuncturing.specs.Code.{flag, flags, Fillable, Filled};
ghost use Rattle.fec_depuncturing.specs.Promises.{DepuncturedMsc, DepuncturedFic};

use fec_profiles::Section;
use fec_protection::{Description, ProtectionParams};
use refusal::Refusal;
use std::slice::Iter;

// The next value where the place is kept, 0 where it is not or the values have ended.
fn next_value(values: &mut Iter<'_, i8>, keep: u8) -> i8
    ensures value { result ≡ pick_z (flag keep) (at (iter_rest values.old) 0) (pos 0) }
    ensures left { iter_rest values.new ≡ drop (pick_n (flag keep) 1 0) (iter_rest values.old) }
{
    if keep == 0 {
        0
    } else {
        values.next().copied().unwrap_or(0)
    }
}

// Fills a place at the front of `out` for each of `kept`. By index: after a zip over `iter_mut` a proof knows none of the values that it wrote.
fn fill(values: &mut Iter<'_, i8>, kept: &[u8], out: &mut [i8])
    requires { length kept.now ≤ length out.old }
    ensures { Filled (flags kept.now) (iter_rest values.old) out.old out.new (iter_rest values.new) }
{
    for (j, keep) in kept.iter().enumerate() {
        out[j] = next_value(values, *keep);
    }
}

// Fills a region: four sub-blocks of 32 for each block, by place: std says nothing of what a slice ends as whose chunks are written.
fn fill_region(values: &mut Iter<'_, i8>, section: Section, out: &mut [i8])
    requires { (128 * section.blocks ≤ length out.old) × (0 < section.blocks → section.pi < 24) }
    ensures { Filled (region_mask (region section)) (iter_rest values.old) out.old out.new (iter_rest values.new) }
{
    let kept = fec_profiles::vector_of(section.pi);
    for i in 0..4 * section.blocks {
        fill(values, &kept, &mut out[32 * i..]);
    }
}

// Fills the four regions and the tail.
fn fill_profile(values: &mut Iter<'_, i8>, p: ProtectionParams, out: &mut [i8])
    requires { Fillable p (length out.old) }
    ensures { Filled (mask (regions_in p)) (iter_rest values.old) out.old out.new (iter_rest values.new) }
{
    let mut at = 0;
    for section in p.sections {
        fill_region(values, section, &mut out[at..]);
        at += 128 * section.blocks;
    }
    fill(values, &fec_profiles::tail(), &mut out[at..]);
}

// Depunctures a sub-channel's values into the front of `out`, as its description says: refusals 1 to 7, then 8.
pub fn depuncture_msc(soft: &[i8], d: Description, out: &mut [i8]) -> Result<(), Refusal>
    ensures { DepuncturedMsc d soft.now out.old out.new result }
{
    fec_protection::judge(d)?;
    if out.len() < 96 * usize::from(d.bitrate) + 24 {
        return Err(Refusal::ShortBuffer);
    }
    let params = fec_protection::protection_params(d)?;
    fill_profile(&mut soft.iter(), params, out);
    Ok(())
}

// The FIC's profile: 21 blocks of PI 16, 3 of PI 15.
const FIC: ProtectionParams = ProtectionParams {
    sections: [
        Section { blocks: 21, pi: 15 },
        Section { blocks: 3, pi: 14 },
        Section { blocks: 0, pi: 24 },
        Section { blocks: 0, pi: 24 },
    ],
};

// Depunctures a block of the FIC into the front of `out`: refusal 8.
pub fn depuncture_fic(soft: &[i8], out: &mut [i8]) -> Result<(), Refusal>
    ensures { DepuncturedFic soft.now out.old out.new result }
{
    if out.len() < 3096 {
        return Err(Refusal::ShortBuffer);
    }
    fill_profile(&mut soft.iter(), FIC, out);
    Ok(())
}
