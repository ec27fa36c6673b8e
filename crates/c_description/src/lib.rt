// A description as six numbers, as C passes it, and what is asked of one: its judgement, its profile and its sizes, in the caller's places.
#![tactic(auto)]

ghost use Rattle.std.specs.Prelude.{◌≡◌, length};
ghost use Rattle.spec_en300401.specs.Puncturing.{kept_size};
ghost use Rattle.refusal.specs.Outcome.{told, number_of};
ghost use Rattle.fec_protection.specs.Promises.{mother_size};
ghost use Rattle.fec_protection.specs.Refusals.{refusal_of};
ghost use Rattle.c_description.specs.Lookups.{row_of, one, Looked};
ghost use Rattle.c_description.specs.Places.{describes, short, Wrote};

use fec_protection::Description;
use refusal::Refusal;

// Any flag but 0 says EEP.
#[tactic(auto, unfolding(crate::specs::Places::describes))]
pub fn described(
    start_addr: u16,
    sub_size: u16,
    bitrate: u16,
    protection_level: u8,
    eep_option: u8,
    is_eep: u32,
) -> Description
    ensures { result ≡ describes start_addr sub_size bitrate protection_level eep_option is_eep }
{
    Description {
        start_addr,
        sub_size,
        bitrate,
        protection_level,
        eep_option,
        is_eep: is_eep != 0,
    }
}

// Values into the first places, before the rest as it was; 8 where there are fewer.
pub fn put<T: Copy, const N: usize>(values: [T; N], places: &mut [T]) -> Result<(), Refusal>
    ensures { Wrote (short N (length places.old)) N values places.old places.new (number_of (told result)) }
{
    if places.len() < N {
        return Err(Refusal::ShortBuffer);
    }
    places[..N].copy_from_slice(&values);
    Ok(())
}

// 1 to 7.
pub fn judge(d: Description) -> Result<(), Refusal>
    ensures { number_of (told result) ≡ refusal_of d }
{
    fec_protection::judge(d)
}

// 1 to 4, then 8.
#[tactic(auto, unfolding(crate::specs::Lookups::row_of, fec_profiles::specs::Rows::sections_of))]
pub fn profile(d: Description, row: &mut [u64]) -> Result<(), Refusal>
    ensures { Looked d 8 row_of row.old row.new (number_of (told result)) }
{
    let [first, second, third, fourth] = fec_protection::protection_params(d)?.sections;
    let numbers = [
        first.blocks as u64,
        second.blocks as u64,
        third.blocks as u64,
        fourth.blocks as u64,
        first.pi as u64,
        second.pi as u64,
        third.pi as u64,
        fourth.pi as u64,
    ];
    put(numbers, row)
}

// How many values the profile sends: 1 to 4, then 8.
pub fn needed_size(d: Description, size: &mut [u64]) -> Result<(), Refusal>
    ensures { Looked d 1 (one kept_size) size.old size.new (number_of (told result)) }
{
    put([fec_protection::needed_size(d)? as u64], size)
}

// How many values they become when depunctured: 1 to 4, then 8. C has a name for each of the two sizes.
pub fn depunctured_size(d: Description, size: &mut [u64]) -> Result<(), Refusal>
    ensures { Looked d 1 (one mother_size) size.old size.new (number_of (told result)) }
{
    put([fec_protection::depunctured_size(d)? as u64], size)
}
