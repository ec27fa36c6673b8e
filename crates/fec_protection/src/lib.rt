// Protection: descriptions and their refusals 1 to 7, and the row and the sizes of a description (eep.rs and uep.rs).
#![tactic(auto)]

ghost use Rattle.std.specs.Prelude.{◌≡◌, ◌+◌, ◌*◌, ◌<◌, ◌≤◌, ◌^◌};
ghost use Rattle.spec_en300401.specs.Puncturing.{kept_size};
ghost use Rattle.spec_en300401.specs.Eep.{unit, eep_profile};
ghost use Rattle.spec_en300401.specs.Uep.{uep_profile};
ghost use Rattle.refusal.specs.Outcome.{outcome, first_of, told};
ghost use Rattle.fec_protection.specs.Code.{level_row, Bounded, blocks_by, sent_of, sent_by};
ghost use Rattle.fec_protection.specs.Promises.{mother_size, JudgePromise, RowPromise, SizePromise};
ghost use Rattle.fec_protection.specs.Refusals.{profile_of, row_refusal_of, eep_row, uep_none, outside, eep_shape, uep_shape};

use fec_profiles::Section;
use refusal::Refusal;

// A sub-channel's place, size, bit rate and protection, as they follow from FIG 0/1: units, units, kbit/s.
// Option and level stay numbers, C's form: refusals 1 and 2 speak of those that an enum of the sets and levels would not have.
#[derive(Clone, Copy, Debug, PartialEq, Eq)]
pub struct Description {
    pub start_addr: u16,
    pub sub_size: u16,
    pub bitrate: u16,
    pub protection_level: u8,
    pub eep_option: u8,
    pub is_eep: bool,
}

// The four regions of a profile; an empty one stands with `pi` 24.
#[derive(Clone, Copy, Debug, PartialEq, Eq)]
pub struct ProtectionParams {
    pub sections: [Section; 4],
}

// No region: no blocks, under none of the 24 vectors.
const EMPTY: Section = Section { blocks: 0, pi: 24 };

// L1 is fold1 × n - 3, L2 is fold2 × n + 3.
#[derive(Clone, Copy)]
struct EepLevel {
    fold1: usize,
    fold2: usize,
    pi1: usize,
    pi2: usize,
}

// 1-A to 4-A, 1-B to 4-B: fold1, fold2, pi1 and pi2. A static, since a constant is written out on the stack at each use; as structs a row is six lines.
static EEP_LEVELS: [[[usize; 4]; 4]; 2] = [
    [[6, 0, 23, 22], [2, 4, 13, 12], [6, 0, 7, 6], [4, 2, 2, 1]],
    [[24, 0, 9, 8], [24, 0, 5, 4], [24, 0, 3, 2], [24, 0, 1, 0]],
];

fn eep_level(option: u8, level: u8) -> EepLevel
    requires { (option ≤ 1) × (level ≤ 3) }
    ensures { result ≡ level_row option level }
{
    let [fold1, fold2, pi1, pi2] = EEP_LEVELS[usize::from(option)][usize::from(level)];
    EepLevel {
        fold1,
        fold2,
        pi1,
        pi2,
    }
}

// The unit of a bit rate: 8 kbit/s, or 32.
#[tactic(auto, unfolding(spec_en300401::specs::Eep::unit))]
fn unit(option: u8) -> usize
    ensures value { result ≡ unit option }
    ensures positive { 0 < result }
{
    if option == 0 { 8 } else { 32 }
}

fn eep_params(d: Description) -> Result<ProtectionParams, Refusal>
    ensures { RowPromise
        (first_of (eep_row d.eep_option d.protection_level d.bitrate))
        (eep_profile d.eep_option d.protection_level d.bitrate)
        result }
{
    if d.eep_option > 1 {
        return Err(Refusal::NoSuchOption);
    }
    if d.protection_level > 3 {
        return Err(Refusal::NoSuchLevel);
    }
    let row = eep_level(d.eep_option, d.protection_level);
    let n = usize::from(d.bitrate) / unit(d.eep_option);
    let first = row.fold1 * n;
    if first < 3 {
        return Err(Refusal::RateTooLow);
    }
    let second = row.fold2 * n;
    Ok(ProtectionParams {
        sections: [
            Section {
                blocks: first - 3,
                pi: row.pi1,
            },
            Section {
                blocks: second + 3,
                pi: row.pi2,
            },
            EMPTY,
            EMPTY,
        ],
    })
}

fn uep_params(d: Description) -> Result<ProtectionParams, Refusal>
    ensures { RowPromise (first_of (uep_none d.bitrate d.protection_level)) (uep_profile d.bitrate d.protection_level) result }
{
    let Some(row) = fec_profiles::uep_profile(d.bitrate, d.protection_level) else {
        return Err(Refusal::NoProfile);
    };
    let sections = row.sections;
    Ok(ProtectionParams { sections })
}

// The row of a description, or its first refusal of 1 to 4; one lookup for EEP and UEP alike.
pub fn protection_params(d: Description) -> Result<ProtectionParams, Refusal>
    ensures { RowPromise (row_refusal_of d) (profile_of d) result }
{
    if d.is_eep {
        eep_params(d)
    } else {
        uep_params(d)
    }
}

// Values that a region sends: 4 × (9 + pi) for each block.
fn sent_in(section: Section) -> usize
    requires { (section.blocks < 65536) × (section.pi ≤ 24) }
    ensures { (result ≡ sent_of section) × (result < 2 ^ 24) }
{
    4 * (section.blocks * (9 + section.pi))
}

// The four by name, here and below: a sum over the array would need its bound as a `requires` on the list.
fn kept_size(p: ProtectionParams) -> usize
    requires { Bounded p }
    ensures { result ≡ sent_by p + 12 }
{
    let [a, b, c, d] = p.sections;
    sent_in(a) + sent_in(b) + sent_in(c) + sent_in(d) + 12
}

fn mother_size(p: ProtectionParams) -> usize
    requires { Bounded p }
    ensures { result ≡ 128 * blocks_by p + 24 }
{
    let [a, b, c, d] = p.sections;
    128 * (a.blocks + b.blocks + c.blocks + d.blocks) + 24
}

// How many values a sub-channel must hold, or the description's first refusal of 1 to 4.
pub fn needed_size(d: Description) -> Result<usize, Refusal>
    ensures { SizePromise kept_size d result }
{
    let params = protection_params(d)?;
    Ok(kept_size(params))
}

// How many values they become, or the description's first refusal of 1 to 4: a public name beside `needed_size`, over the same lookup.
pub fn depunctured_size(d: Description) -> Result<usize, Refusal>
    ensures { SizePromise mother_size d result }
{
    let params = protection_params(d)?;
    Ok(mother_size(params))
}

fn judge_place(d: Description) -> Result<(), Refusal>
    ensures { told result ≡ outcome (outside d.start_addr d.sub_size) tt }
{
    if usize::from(d.start_addr) + usize::from(d.sub_size) > 864 {
        return Err(Refusal::BeyondCif);
    }
    Ok(())
}

fn judge_eep(d: Description, needed: usize) -> Result<(), Refusal>
    ensures { told result ≡ outcome (first_of (eep_shape d.eep_option d.bitrate d.start_addr d.sub_size needed)) tt }
{
    if 64 * usize::from(d.sub_size) != needed {
        return Err(Refusal::SizeDiffers);
    }
    if usize::from(d.bitrate) % unit(d.eep_option) != 0 {
        return Err(Refusal::UnevenRate);
    }
    judge_place(d)
}

fn judge_uep(d: Description, needed: usize) -> Result<(), Refusal>
    ensures { told result ≡ outcome (first_of (uep_shape d.start_addr d.sub_size needed)) tt }
{
    let have = 64 * usize::from(d.sub_size);
    if have < needed || have - needed > 8 {
        return Err(Refusal::SizeDiffers);
    }
    judge_place(d)
}

// The description's first refusal of 1 to 7.
pub fn judge(d: Description) -> Result<(), Refusal>
    ensures { JudgePromise d result }
{
    let needed = needed_size(d)?;
    if d.is_eep {
        judge_eep(d, needed)
    } else {
        judge_uep(d, needed)
    }
}
