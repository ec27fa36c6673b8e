// MSC: set-up and reset of a sub-channel's state and ring (msc/mod.rs).
#![tactic(auto)]

ghost use Rattle.std.specs.Prelude.{◌≡◌, ◌≤◌, length};
ghost use Rattle.msc_state.specs.States.{ring_length};
ghost use Rattle.msc_set_up.specs.Promises.{cleared, SetUpPromise, ResetPromise};

use fec_protection::Description;
use msc_state::State;
use refusal::Refusal;

// Document 01's form: a state by value, on a refusal too, beside the answer.
#[derive(Clone, Copy, Debug, PartialEq, Eq)]
pub struct SetUp {
    pub state: State,
    pub answer: Result<(), Refusal>,
}

// What a refused set-up has.
const NO_DESCRIPTION: Description = Description {
    start_addr: 0,
    sub_size: 0,
    bitrate: 0,
    protection_level: 0,
    eep_option: 0,
    is_eep: false,
};

// Zeros for the ring's need.
#[tactic(auto, unfolding(crate::specs::Promises::cleared))]
fn clear_ring(d: Description, ring: &mut [i8])
    requires { ring_length d ≤ length ring.old }
    ensures { ring.new ≡ cleared d ring.old }
{
    ring[..1024 * usize::from(d.sub_size)].fill(0);
}

// A state for a description, and its ring's need filled with zeros: refusals 1 to 7, then 8.
#[tactic(auto, using(msc_state::proofs::Refusals::number_zero, msc_state::proofs::Refusals::set_up_long))]
pub fn set_up(d: Description, ring: &mut [i8]) -> SetUp
    ensures { SetUpPromise d ring.old result ring.new }
{
    let answer = msc_state::check_set_up(d, ring.len());
    if answer.is_err() {
        return SetUp {
            state: State::fresh(NO_DESCRIPTION),
            answer,
        };
    }
    clear_ring(d, ring);
    SetUp {
        state: State::fresh(d),
        answer,
    }
}

// The state of a new set-up with the same description: refusals 10, 8.
#[tactic(auto, using(msc_state::proofs::Refusals::number_zero, msc_state::proofs::Refusals::reset_long))]
pub fn reset(state: State, ring: &mut [i8]) -> SetUp
    ensures { ResetPromise state ring.old result ring.new }
{
    let answer = msc_state::check_reset(state, ring.len());
    if answer.is_err() {
        return SetUp { state, answer };
    }
    let description = state.channel.description;
    clear_ring(description, ring);
    SetUp {
        state: State::fresh(description),
        answer,
    }
}
