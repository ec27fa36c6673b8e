// Replays recorded answers of the Rust on the smallest sub-channel, kind 11, from standard input, and counts which answers are the same:
// set up, then symbol by symbol, 256 values at the start of each CIF and zeros behind them. The buffers handed to the calls have just the needed
// lengths, with another value in each place.
#![tactic(auto)]

ghost use Rattle.std.specs.Prelude.{◌≡◌, IsTrue};

use fec_protection::Description;
use msc_handler::{Answer, Memory};
use test_records::Judge;

const SMALLEST: Description = Description {
    start_addr: 0,
    sub_size: 4,
    bitrate: 8,
    protection_level: 3,
    eep_option: 0,
    is_eep: true,
};

// What of the recorded frames is still to come after a symbol; none where it gave another frame, or was refused.
fn still_to_come<'a>(answer: Answer, frame: &[u8; 24], to_come: &'a [u8]) -> Option<&'a [u8]> {
    match answer {
        Answer::Waiting => Some(to_come),
        Answer::Frame(_, _) => match to_come.split_at_checked(24) {
            Some((next, rest)) if next == frame.as_slice() => Some(rest),
            _ => None,
        },
        Answer::Refused(_) => None,
    }
}

// The values of each CIF since set-up, and the frames in order.
fn receives(input: &[u8], recorded: &[u8]) -> bool {
    if input.len() > 65536 || input.len() % 256 != 0 {
        return false;
    }
    let mut ring = [77; 4096];
    let set_up = msc_set_up::set_up(SMALLEST, &mut ring);
    if set_up.answer.is_err() {
        return false;
    }
    let mut state = set_up.state;
    let mut cif = [77; 55296];
    let mut to_come = recorded;
    for values in input.chunks_exact(256) {
        for symbol in 0..18 {
            let mut soft = [0; 3072];
            if symbol == 0 {
                soft_bytes::convert(values, &mut soft);
            }
            // No work buffer holds anything from symbol to symbol.
            let mut frame = [77; 24];
            let mut memory = Memory {
                cif: &mut cif,
                ring: &mut ring,
                deinterleaved: &mut [77; 256],
                depunctured: &mut [77; 792],
                words: &mut [77; 198],
                bits: &mut [77; 198],
                frame: &mut frame,
            };
            let fed = msc_handler::feed_symbol(state, &soft, &mut memory);
            state = fed.state;
            let Some(rest) = still_to_come(fed.answer, &frame, to_come) else {
                return false;
            };
            to_come = rest;
        }
    }
    to_come.is_empty()
}

struct Replay;

impl Judge for Replay {
    // An answer is as recorded only where it is of this program's kind.
    ghost says = { λ _ kind _ _ same. IsTrue same → kind ≡ 11 };

    // Whether the functions of this kind give the recorded answer: the trait's method, for the one kind that this program knows.
    fn is_same(&self, kind: u8, input: &mut [u8], answer: &[u8]) -> bool {
        kind == 11 && receives(input, answer)
    }
}

fn main(rt: HostRuntime) {
    let tally = test_records::replay_all(&mut rt.stdin(), &Replay);
    tally.print(&rt, &[(11, "set_up and feed_symbol")]);
}
