// The program `recorded_frames`: five transmission frames of a recording (recordings/README.md) from standard input, as two's-complement bytes,
// go to three sub-channels that are set up before the first symbol; each frame goes to standard output as it comes. A short input ends it, and an
// incomplete symbol is dropped.
#![tactic(auto)]

use fec_protection::Description;
use msc_handler::{Answer, Memory};
use msc_state::State;
use std::io::{Read, Write};

const DESCRIPTIONS: [Description; 3] = [
    // EEP 3-A, 96 kbit/s: a description counts EEP levels from 0.
    Description {
        start_addr: 0,
        sub_size: 72,
        bitrate: 96,
        protection_level: 2,
        eep_option: 0,
        is_eep: true,
    },
    // UEP level 3, 128 kbit/s.
    Description {
        start_addr: 100,
        sub_size: 96,
        bitrate: 128,
        protection_level: 3,
        eep_option: 0,
        is_eep: false,
    },
    // EEP 3-B, 64 kbit/s.
    Description {
        start_addr: 300,
        sub_size: 36,
        bitrate: 64,
        protection_level: 2,
        eep_option: 1,
        is_eep: true,
    },
];

// A sub-channel's state and its buffers that hold something from symbol to symbol. They are lent: each move of a receiver that owned them would be a copy
// of 150 KB on the stack.
#[derive(Drop)]
struct Receiver<'a> {
    state: State,
    cif: &'a mut [i8],
    ring: &'a mut [i8],
}

impl<'a> Receiver<'a> {
    fn new(d: Description, cif: &'a mut [i8], ring: &'a mut [i8]) -> Self {
        let set_up = msc_set_up::set_up(d, &mut *ring);
        Receiver {
            state: set_up.state,
            cif,
            ring,
        }
    }

    // Takes a symbol, and writes the frame that came, if one did.
    fn listen<W: Write>(&mut self, soft: &[i8], output: &mut W) {
        let mut frame = [0; 384];
        let mut memory = Memory {
            cif: &mut *self.cif,
            ring: &mut *self.ring,
            deinterleaved: &mut [0; 6144],
            depunctured: &mut [0; 12312],
            words: &mut [0; 3078],
            bits: &mut [0; 3078],
            frame: &mut frame,
        };
        let fed = msc_handler::feed_symbol(self.state, soft, &mut memory);
        self.state = fed.state;
        if let Answer::Frame(n, _) = fed.answer
            && n <= 384
        {
            let _ = output.write_all(&frame[..n]);
        }
    }
}

// The next symbol of the MSC, if there is a whole one; the FIC's three symbols stand before a transmission frame's 72 of the MSC.
fn next<R: Read>(input: &mut R, symbol: usize) -> Option<[i8; 3072]> {
    if symbol % 72 == 0 {
        let _ = byte_streams::read_full(input, &mut [0; 9216]);
    }
    let mut bytes = [0; 3072];
    let (got, _) = byte_streams::read_full(input, &mut bytes);
    if got < 3072 {
        return None;
    }
    let mut soft = [0; 3072];
    soft_bytes::convert(&bytes, &mut soft);
    Some(soft)
}

// Every symbol of the MSC in five transmission frames.
fn main(rt: HostRuntime) {
    let mut input = rt.stdin();
    let mut output = rt.stdout();
    let [first, second, third] = DESCRIPTIONS;
    // A ring has room for the largest of the three.
    let mut cif1 = [0; 55296];
    let mut cif2 = [0; 55296];
    let mut cif3 = [0; 55296];
    let mut ring1 = [0; 98304];
    let mut ring2 = [0; 98304];
    let mut ring3 = [0; 98304];
    let mut receivers = [
        Receiver::new(first, &mut cif1, &mut ring1),
        Receiver::new(second, &mut cif2, &mut ring2),
        Receiver::new(third, &mut cif3, &mut ring3),
    ];
    for symbol in 0..360 {
        let Some(soft) = next(&mut input, symbol) else {
            break;
        };
        for receiver in &mut receivers {
            receiver.listen(&soft, &mut output);
        }
    }
}
