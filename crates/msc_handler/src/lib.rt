// MSC: symbols to CIFs, a sub-channel's slice through the ring, frames (msc/mod.rs).
#![tactic(auto)]

ghost use Rattle.std.specs.Prelude.{◌≡◌, ◌+◌, ◌*◌, ◌-◌, ◌<◌, ◌≤◌, length};
ghost use Rattle.std.proofs.Math.Seq.{paste};
ghost use Rattle.refusal.specs.Outcome.{told};
ghost use Rattle.fec_viterbi.specs.Decoders.{ends_of, Decoded};
ghost use Rattle.msc_handler.specs.Frames.{Framed, FrameLongEnough};
ghost use Rattle.msc_handler.specs.Memory.{buffers_in, SameBuffers};
ghost use Rattle.msc_handler.specs.Promises.{said_of, rotated, lengths_of, CifPromise, FeedPromise};
ghost use Rattle.msc_handler.specs.Ring.{read_out, refilled, part};
ghost use Rattle.msc_handler.specs.Code.{RingLent, FrameLent, CifLent, FrameMade};

use fec_protection::Description;
use fec_viterbi::Score;
use msc_state::{Channel, Lengths, SYMBOL_VALUES, State};
use refusal::Refusal;

// What a symbol gives, in document 01's form: nothing yet, a frame's bytes and its percentage, or a refusal.
#[derive(Clone, Copy, Debug, PartialEq)]
pub enum Answer {
    Waiting,
    Frame(usize, f64),
    Refused(Refusal),
}

// Document 01's form: the state comes back by value, on a refusal too.
#[derive(Clone, Copy, Debug, PartialEq)]
pub struct Fed {
    pub state: State,
    pub answer: Answer,
}

// The caller's memory: the CIF store and the ring, which keep what came in between calls, and what a frame is worked out in.
// A symbol is refused where one is shorter than the description needs.
#[derive(Drop)]
pub struct Memory<'a> {
    pub cif: &'a mut [i8],
    pub ring: &'a mut [i8],
    pub deinterleaved: &'a mut [i8],
    pub depunctured: &'a mut [i8],
    pub words: &'a mut [u64],
    pub bits: &'a mut [u8],
    pub frame: &'a mut [u8],
}

// A field that is read while another is written is borrowed once more, so that it stays known. That the buffers stay the caller's, `same`, is a clause of
// each function: it speaks of before and after, which no invariant of the struct can.
impl Memory<'_> {
    fn lengths(&self) -> Lengths
        ensures { result ≡ lengths_of (buffers_in self.now) }
    {
        Lengths {
            cif: self.cif.len(),
            ring: self.ring.len(),
            deinterleaved: self.deinterleaved.len(),
            depunctured: self.depunctured.len(),
            words: self.words.len(),
            bits: self.bits.len(),
            frame: self.frame.len(),
        }
    }

    // A whole CIF: what the ring holds of it is read, and the sub-channel's slice takes its place.
    fn rotate(&mut self, channel: Channel)
        requires { RingLent channel (buffers_in self.old) }
        ensures promise { buffers_in self.new ≡ rotated channel (buffers_in self.old) }
        ensures same { SameBuffers self.old self.new }
    {
        let d = channel.description;
        let n = 64 * usize::from(d.sub_size);
        let from = 64 * usize::from(d.start_addr);
        let cif = &mut *self.cif;
        let read = &mut *self.deinterleaved;
        let own = own_slice(cif, from, from + n);
        deinterleave(
            own,
            self.ring,
            usize::from(channel.ring_index),
            &mut read[..n],
        );
    }

    // What was read of the ring to the bytes of a frame: its percentage.
    fn decode_frame(&mut self, d: Description) -> f64
        requires { FrameLent d (buffers_in self.old) }
        ensures promise { FrameMade d (buffers_in self.old) result (buffers_in self.new) }
        ensures same { SameBuffers self.old self.new }
    {
        let deinterleaved = &mut *self.deinterleaved;
        let depunctured = &mut *self.depunctured;
        let read = &*deinterleaved;
        fec_depuncturing::depuncture_msc(
            &read[..64 * usize::from(d.sub_size)],
            d,
            depunctured,
        ).unwrap();
        let soft = &*depunctured;
        frame_of(
            d,
            &soft[..96 * usize::from(d.bitrate) + 24],
            self.words,
            self.bits,
            self.frame,
        )
    }
}

// Slot x + DELAYS[i % 16], modulo 16, is the one that value i is read from.
const DELAYS: [usize; 16] = [0, 8, 4, 12, 2, 10, 6, 14, 1, 9, 5, 13, 3, 11, 7, 15];

// Copies a symbol's first 3,072 values to their place. By index, here and below: with `copy_from_slice` the library for C would need a memmove of whoever
// links it.
fn store(soft: &[i8], cif: &mut [i8], from: usize)
    requires { (3072 ≤ length soft.now) × (from + 3072 ≤ length cif.old) }
    ensures { cif.new ≡ paste cif.old from soft.now 3072 }
{
    for i in 0..SYMBOL_VALUES {
        cif[from + i] = soft[i];
    }
}

// The sub-channel's own slice of the CIF, as a part of the store: document 01's form.
#[tactic(auto, unfolding(crate::specs::Ring::part))]
fn own_slice(cif: &[i8], from: usize, to: usize) -> &[i8]
    requires { (from ≤ to) × (to ≤ length cif.now) }
    ensures { result.now ≡ part cif.now from (to - from) }
{
    &cif[from..to]
}

// Each value is read from its slot before slot x takes the new ones. The ring is flat, since a slot's length is known only at run time.
fn deinterleave(own: &[i8], ring: &mut [i8], x: usize, out: &mut [i8])
    requires { (x < 16) × (16 * length out.old ≤ length ring.old) × (length own.now ≡ length out.old) }
    ensures { (out.new ≡ read_out ring.old (length out.old) x) × (ring.new ≡ refilled ring.old (length out.old) x own.now) }
{
    let n = out.len();
    for (i, read) in out.iter_mut().enumerate() {
        let slot = (x + DELAYS[i % 16]) % 16;
        *read = ring[slot * n + i];
    }
    for (k, value) in own.iter().enumerate() {
        ring[x * n + k] = *value;
    }
}

// The decoder with a free end for EEP, or the one that ends in state 0 for UEP. A function of its own: after an `if` a proof loses what a `&mut` holds.
fn decode(is_eep: bool, soft: &[i8], words: &mut [u64], bits: &mut [u8]) -> Result<Score, Refusal>
    ensures { Decoded (ends_of is_eep) soft.now words.old bits.old (told result) words.new bits.new }
{
    if is_eep {
        fec_viterbi::viterbi_decode_with_metric(soft, words, bits)
    } else {
        fec_viterbi::viterbi_decode_state0(soft, words, bits)
    }
}

// Depunctured values to the bytes of a frame: its percentage.
fn frame_of(
    d: Description,
    soft: &[i8],
    words: &mut [u64],
    bits: &mut [u8],
    frame: &mut [u8],
) -> f64
    requires { FrameLongEnough d.bitrate soft.now words.old bits.old frame.old }
    ensures { Framed (ends_of d.is_eep) d.bitrate soft.now words.old bits.old frame.old result words.new bits.new frame.new }
{
    let score = decode(d.is_eep, soft, words, bits).unwrap();
    let quality = fec_quality::measure(score.metric, soft).unwrap();
    let bits = &mut bits[..24 * usize::from(d.bitrate)];
    fec_dispersal::energy_dispersal(bits);
    fec_packing::pack(bits, frame).unwrap();
    quality.percent
}

// A whole CIF: through the ring, and to a frame where sixteen went before it.
#[tactic(auto, using(crate::proofs::Feeding::cif_waits, crate::proofs::Feeding::cif_frames))]
fn process_cif(channel: Channel, memory: &mut Memory) -> Answer
    requires { CifLent channel (buffers_in memory.old) }
    ensures promise { CifPromise channel (buffers_in memory.old) (said_of result) (buffers_in memory.new) }
    ensures same { SameBuffers memory.old memory.new }
{
    memory.rotate(channel);
    if channel.cif_count < 16 {
        return Answer::Waiting;
    }
    let d = channel.description;
    let percent = memory.decode_frame(d);
    Answer::Frame(3 * usize::from(d.bitrate), percent)
}

// Takes a symbol: refusals 10, 8, 9. The eighteenth makes a CIF, and from the seventeenth CIF on a frame.
pub fn feed_symbol(state: State, soft: &[i8], memory: &mut Memory) -> Fed
    ensures promise { FeedPromise state soft.now (buffers_in memory.old) result (buffers_in memory.new) }
    ensures same { SameBuffers memory.old memory.new }
{
    if let Err(refusal) = msc_state::check_feed(state, soft.len(), memory.lengths()) {
        return Fed {
            state,
            answer: Answer::Refused(refusal),
        };
    }
    let after = msc_moves::after_symbol(state);
    store(soft, memory.cif, SYMBOL_VALUES * usize::from(state.symbols));
    if state.symbols < 17 {
        return Fed {
            state: after,
            answer: Answer::Waiting,
        };
    }
    let answer = process_cif(state.channel, memory);
    Fed {
        state: after,
        answer,
    }
}
