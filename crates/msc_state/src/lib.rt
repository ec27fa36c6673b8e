// The state of a sub-channel between symbols, and its refusals (msc/mod.rs).
#![tactic(auto)]

ghost use Rattle.std.specs.Prelude.{◌≡◌, ltb};
ghost use Rattle.refusal.specs.Outcome.{outcome, check, told};
ghost use Rattle.msc_state.specs.States.{ring_length, bad_state, is_too_short, set_up_refusal, reset_refusal, feed_refusal, fresh_state};

use fec_protection::Description;
use refusal::Refusal;

// Values of a CIF, 864 units of 64, and of a symbol, of which a CIF has eighteen.
pub const CIF_VALUES: usize = 55_296;

pub const SYMBOL_VALUES: usize = 3_072;

// What belongs to the sub-channel.
#[derive(Clone, Copy, Debug, PartialEq, Eq)]
pub struct Channel {
    pub description: Description,
    pub ring_index: u8,
    pub cif_count: u8,
    pub frames_decoded: u64,
}

// What belongs to the CIF, and the sub-channel. It has no ghost field: C hands eleven numbers back, so `check_feed` and `check_reset` judge any value.
#[derive(Clone, Copy, Debug, PartialEq, Eq)]
pub struct State {
    pub symbols: u8,
    pub cif_in_frame: u8,
    pub channel: Channel,
}

impl State {
    // The state of a new set-up: nothing counted yet.
    #[tactic(auto, unfolding(crate::specs::States::started_at))]
    pub fn fresh(description: Description) -> State
        ensures { result ≡ fresh_state description }
    {
        State {
            symbols: 0,
            cif_in_frame: 0,
            channel: Channel {
                description,
                ring_index: 0,
                cif_count: 0,
                frames_decoded: 0,
            },
        }
    }
}

// The lengths of the seven buffers that a caller of feeding provides.
#[derive(Clone, Copy, Debug, PartialEq, Eq)]
pub struct Lengths {
    pub cif: usize,
    pub ring: usize,
    pub deinterleaved: usize,
    pub depunctured: usize,
    pub words: usize,
    pub bits: usize,
    pub frame: usize,
}

// A count above its range, or a description refused by 1 to 7.
#[tactic(auto, unfolding(crate::specs::States::bad_state))]
pub fn is_bad(state: State) -> bool
    ensures { result ≡ bad_state state }
{
    let channel = state.channel;
    state.symbols > 17
        || state.cif_in_frame > 3
        || channel.ring_index > 15
        || channel.cif_count > 17
        || fec_protection::judge(channel.description).is_err()
}

// Some buffer is shorter than this description needs.
#[tactic(auto, unfolding(crate::specs::States::is_too_short))]
fn too_short(d: Description, lengths: Lengths) -> bool
    ensures { result ≡ is_too_short d lengths }
{
    let size = usize::from(d.sub_size);
    let rate = usize::from(d.bitrate);
    lengths.cif < CIF_VALUES
        || lengths.ring < 1024 * size
        || lengths.deinterleaved < 64 * size
        || lengths.depunctured < 96 * rate + 24
        || lengths.words < 24 * rate + 6
        || lengths.bits < 24 * rate + 6
        || lengths.frame < 3 * rate
}

// 10 for a state that set-up and feeding never give.
fn check_state(state: State) -> Result<(), Refusal>
    ensures { told result ≡ outcome (check 10 (bad_state state)) tt }
{
    if is_bad(state) {
        return Err(Refusal::BadState);
    }
    Ok(())
}

// 8 for a ring shorter than the description needs.
fn check_ring(d: Description, ring: usize) -> Result<(), Refusal>
    ensures { told result ≡ outcome (check 8 (ltb ring (ring_length d))) tt }
{
    if ring < 1024 * usize::from(d.sub_size) {
        return Err(Refusal::ShortBuffer);
    }
    Ok(())
}

// Whether set-up is refused: by 1 to 7, then 8.
#[tactic(auto, unfolding(crate::specs::States::set_up_refusal))]
pub fn check_set_up(d: Description, ring: usize) -> Result<(), Refusal>
    ensures { told result ≡ outcome (set_up_refusal d ring) tt }
{
    fec_protection::judge(d)?;
    check_ring(d, ring)
}

// Whether reset is refused: by 10, then 8.
#[tactic(auto, unfolding(crate::specs::States::reset_refusal))]
pub fn check_reset(state: State, ring: usize) -> Result<(), Refusal>
    ensures { told result ≡ outcome (reset_refusal state ring) tt }
{
    check_state(state)?;
    check_ring(state.channel.description, ring)
}

// Whether a symbol is refused: by 10, 8, then 9.
#[tactic(auto, unfolding(crate::specs::States::feed_refusal))]
pub fn check_feed(state: State, soft: usize, lengths: Lengths) -> Result<(), Refusal>
    ensures { told result ≡ outcome (feed_refusal state soft lengths) tt }
{
    check_state(state)?;
    if too_short(state.channel.description, lengths) {
        return Err(Refusal::ShortBuffer);
    }
    if soft < SYMBOL_VALUES {
        return Err(Refusal::ShortSymbol);
    }
    Ok(())
}
