// MSC handling as C has it: the state as eleven numbers in the caller's array, a symbol's answer in places of its own.
#![tactic(auto)]

ghost use Rattle.std.specs.Prelude.{◌≡◌};
ghost use Rattle.refusal.specs.Outcome.{told, number_of};
ghost use Rattle.msc_handler.specs.Memory.{buffers_in, SameBuffers};
ghost use Rattle.c_msc.specs.Msc.{SetUpCall, ResetCall, fed_places, FeedCall};

use fec_protection::Description;
use msc_handler::{Answer, Memory};
use refusal::Refusal;

// Sets a description up: 1 to 7, then 8.
#[tactic(auto, unfolding(crate::specs::Msc::set_up_number, msc_state::specs::States::set_up_refusal))]
pub fn set_up(d: Description, ring: &mut [i8], state: &mut [u64]) -> Result<(), Refusal>
    ensures { SetUpCall d ring.old state.old (number_of (told result)) ring.new state.new }
{
    if state.len() < 11 {
        fec_protection::judge(d)?;
        return Err(Refusal::ShortBuffer);
    }
    let made = msc_set_up::set_up(d, ring);
    made.answer?;
    c_state::write(made.state, state)
}

// The state of a new set-up with the same description: 8 for too few numbers of a state, 10, 8.
#[tactic(auto, unfolding(crate::specs::Msc::reset_number, msc_state::specs::States::reset_refusal, c_state::specs::Numbers::state_refusal))]
pub fn reset(state: &mut [u64], ring: &mut [i8]) -> Result<(), Refusal>
    ensures { ResetCall state.old ring.old (number_of (told result)) ring.new state.new }
{
    let made = msc_set_up::reset(c_state::read(state)?, ring);
    made.answer?;
    c_state::write(made.state, state)
}

// Takes a symbol: 8 for too few numbers of a state, 10, 8, 9.
#[tactic(auto, unfolding(crate::specs::Msc::feed_number, msc_state::specs::States::feed_refusal, c_state::specs::Numbers::state_refusal))]
pub fn feed_symbol(
    state: &mut [u64],
    soft: &[i8],
    memory: &mut Memory,
    length: &mut [u64],
    percent: &mut [f64],
) -> Result<(), Refusal>
    ensures promise { FeedCall soft.now (buffers_in memory.old) (fed_places state.old length.old percent.old) (number_of (told result)) (buffers_in memory.new) (fed_places state.new length.new percent.new) }
    ensures same { SameBuffers memory.old memory.new }
{
    let s = c_state::read(state)?;
    if length.is_empty() || percent.is_empty() {
        if msc_state::is_bad(s) {
            return Err(Refusal::BadState);
        }
        return Err(Refusal::ShortBuffer);
    }
    let fed = msc_handler::feed_symbol(s, soft, memory);
    match fed.answer {
        Answer::Waiting => length[0] = 0,
        Answer::Frame(bytes, quality) => {
            length[0] = bytes as u64;
            percent[0] = quality;
        }
        Answer::Refused(refusal) => return Err(refusal),
    }
    c_state::write(fed.state, state)
}
