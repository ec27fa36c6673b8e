// A sub-channel's state as eleven numbers in the caller's array, written and read back.
#![tactic(auto)]

ghost use Rattle.std.specs.Prelude.{◌≡◌, length, MatchResult};
ghost use Rattle.refusal.specs.Outcome.{outcome, told, number_of};
ghost use Rattle.c_description.specs.Places.{short, Wrote};
ghost use Rattle.c_state.specs.Numbers.{numbers_of, state_in, state_refusal};

use fec_protection::Description;
use msc_state::{Channel, State};
use refusal::Refusal;

// The state's eleven numbers before the rest as it was; or 8, where there are fewer places.
#[tactic(auto, unfolding(crate::specs::Numbers::numbers_of))]
pub fn write(s: State, state: &mut [u64]) -> Result<(), Refusal>
    ensures { Wrote (short 11 (length state.old)) 11 (numbers_of s) state.old state.new (number_of (told result)) }
{
    let channel = s.channel;
    let d = channel.description;
    let numbers = [
        u64::from(s.symbols),
        u64::from(s.cif_in_frame),
        u64::from(channel.ring_index),
        u64::from(channel.cif_count),
        channel.frames_decoded,
        u64::from(d.start_addr),
        u64::from(d.sub_size),
        u64::from(d.bitrate),
        u64::from(d.protection_level),
        u64::from(d.eep_option),
        u64::from(d.is_eep),
    ];
    c_description::put(numbers, state)
}

// A number as its field holds it, or 10.
fn field<T: TryFrom<u64>>(n: u64) -> Result<T, Refusal>
where
    T::Error: Drop,
    ensures { MatchResult result (λ x. T.try_from_gives n (Ok x)) (λ r. (r ≡ Refusal.BadState) × ((e : T.Error) × T.try_from_gives n (Err e))) }
{
    T::try_from(n).map_err(|_| Refusal::BadState)
}

// The state that the first eleven numbers are: 8, 10.
pub fn read(state: &[u64]) -> Result<State, Refusal>
    ensures { told result ≡ outcome (state_refusal state.now) (state_in state.now) }
{
    let &[
        symbols,
        cif_in_frame,
        ring_index,
        cif_count,
        frames_decoded,
        start_addr,
        sub_size,
        bitrate,
        protection_level,
        eep_option,
        is_eep,
        ..
    ] = state
    else {
        return Err(Refusal::ShortBuffer);
    };
    let description = Description {
        start_addr: field(start_addr)?,
        sub_size: field(sub_size)?,
        bitrate: field(bitrate)?,
        protection_level: field(protection_level)?,
        eep_option: field(eep_option)?,
        is_eep: is_eep != 0,
    };
    let channel = Channel {
        description,
        ring_index: field(ring_index)?,
        cif_count: field(cif_count)?,
        frames_decoded,
    };
    Ok(State {
        symbols: field(symbols)?,
        cif_in_frame: field(cif_in_frame)?,
        channel,
    })
}
