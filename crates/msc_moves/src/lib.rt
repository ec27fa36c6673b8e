// The state of a sub-channel after a symbol (msc/mod.rs).
#![tactic(auto)]

ghost use Rattle.std.specs.Prelude.{◌≡◌, ◌+◌, ◌%◌, ◌<◌};
ghost use Rattle.msc_state.specs.States.{channel_after, state_after};

use msc_state::{Channel, State};

// One more, modulo n, of any number: x + 1 may not fit.
fn next(x: u8, n: u8) -> u8
    requires { 0 < n }
    ensures { result ≡ (x + 1) % n }
{
    (x % n + 1) % n
}

// The sub-channel after a whole CIF.
#[tactic(auto, unfolding(msc_state::specs::States::channel_after))]
fn moved_on(channel: Channel) -> Channel
    ensures { result ≡ channel_after channel }
{
    let frames = channel.frames_decoded;
    Channel {
        ring_index: next(channel.ring_index, 16),
        cif_count: channel.cif_count.saturating_add(1).min(17),
        frames_decoded: if channel.cif_count < 16 {
            frames
        } else {
            frames.saturating_add(1)
        },
        ..channel
    }
}

// The state after a symbol.
#[tactic(auto, unfolding(msc_state::specs::States::state_after))]
pub fn after_symbol(state: State) -> State
    ensures { result ≡ state_after state }
{
    if state.symbols < 17 {
        return State {
            symbols: state.symbols + 1,
            ..state
        };
    }
    State {
        symbols: 0,
        cif_in_frame: next(state.cif_in_frame, 4),
        channel: moved_on(state.channel),
    }
}
