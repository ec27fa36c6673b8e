// FIC handling (fic/handler.rs): three symbols to checked FIBs, with the quality of each block.
#![tactic(auto)]

ghost use Rattle.std.specs.Prelude.{◌≡◌, cond, ◌++◌, ◌+◌, ◌*◌, ◌<◌, ◌≤◌, length, take, drop};
ghost use Rattle.laws.specs.Bits.{AreBits};
ghost use Rattle.spec_en300401.specs.Bytes.{bytes_of_bits};
ghost use Rattle.spec_en300401.specs.Crc.{fib_valid};
ghost use Rattle.fic_handler.specs.Blocks.{joined, blocks_in, fic_buffers};
ghost use Rattle.fic_handler.specs.Code.{KeptFibs, BlockDecoded, BlockProcessed};
ghost use Rattle.fic_handler.specs.Promise.{Processed, FicPromise};

use fec_quality::Quality;
use refusal::Refusal;

// Soft values of a symbol: two for each carrier.
const SYMBOL: usize = 2 * fec_crc::K;

const JOINED: usize = 3 * SYMBOL;

// Soft values of a block.
const BLOCK: usize = 2304;

// Steps of the trellis in a block, and its values with the erasures put back: four for each step.
const STEPS: usize = 774;

const VALUES: usize = 4 * STEPS;

// Data bits of a block: all but the tail's.
const DATA: usize = 768;

// Bits of a FIB, and bytes.
const FIB_BITS: usize = 8 * fec_crc::FIB_LENGTH;

// What three symbols came to: FIBs passed in all and in each block, and the quality of each block; all zero for an absent block.
// `quality` is four records in an array, document 01's form, and `passed` stands beside it as C is told it.
#[derive(Clone, Copy, Debug, Default, PartialEq)]
pub struct Fic {
    pub fibs: usize,
    pub passed: [usize; 4],
    pub quality: [Quality; 4],
}

// What one block gave.
#[derive(Clone, Copy)]
struct BlockAnswer {
    passed: usize,
    quality: Quality,
}

// The three symbols, joined from the start of an array on. It is lent, so that it stands on the stack once.
fn join(first: &[i8], second: &[i8], third: &[i8], values: &mut [i8; JOINED])
    requires first { length first.now ≤ 3072 }
    requires second { length second.now ≤ 3072 }
    requires third { length third.now ≤ 3072 }
    ensures { take (length first.now + length second.now + length third.now) values.new ≡ joined first.now second.now third.now }
{
    let second_at = first.len();
    let third_at = second_at + second.len();
    let end = third_at + third.len();
    values[..second_at].copy_from_slice(first);
    values[second_at..third_at].copy_from_slice(second);
    values[third_at..end].copy_from_slice(third);
}

// Tests a FIB, and packs it only if it passed: whether it did.
#[tactic(auto, using(fec_crc::proofs::Agree::bit_is))]
fn keep_fib(bits: &[u8; FIB_BITS], out: &mut [u8]) -> bool
    requires room { 32 ≤ length out.old }
    requires are_bits { AreBits bits.now }
    ensures passed { result ≡ fib_valid bits.now }
    ensures bytes { out.new ≡ cond (fib_valid bits.now) (bytes_of_bits bits.now ++ drop 32 out.old) out.old }
{
    let passed = fec_crc::check_crc_bits(bits);
    if passed {
        fec_packing::pack(bits, out).unwrap();
    }
    passed
}

// The three FIBs of a block: how many passed. The packer is lent the part from the next free 32-byte place, document 01's form.
fn keep_fibs(bits: &[u8], fibs: &mut [u8]) -> usize
    requires bits_len { length bits.now ≡ 768 }
    requires room { 96 ≤ length fibs.old }
    requires are_bits { AreBits bits.now }
    ensures { KeptFibs bits.now 3 fibs.old result fibs.new }
{
    let mut kept = 0;
    let (each, _) = bits.as_chunks();
    for fib in each {
        kept += usize::from(keep_fib(fib, &mut fibs[32 * kept..]));
    }
    kept
}

// Decodes the depunctured values of a block: its quality. The bits are then dispersed, but for the tail.
fn decode_block(
    depunctured: &[i8; VALUES],
    words: &mut [u64; STEPS],
    bits: &mut [u8; STEPS],
) -> Quality
    ensures { BlockDecoded depunctured.now words.old bits.old result words.new bits.new }
{
    let score = fec_viterbi::viterbi_decode_state0(depunctured, &mut *words, &mut *bits).unwrap();
    fec_dispersal::energy_dispersal(&mut bits[..DATA]);
    fec_quality::measure(score.metric, depunctured).unwrap()
}

// One block: depunctured, decoded, dispersed, and its FIBs tested; those that passed stand at the start of the output.
// The work arrays stay three parameters, here and below: a struct of three `&mut` would need a clause and a borrow more for each.
fn process_block(
    block: &[i8; BLOCK],
    depunctured: &mut [i8; VALUES],
    words: &mut [u64; STEPS],
    bits: &mut [u8; STEPS],
    fibs: &mut [u8],
) -> BlockAnswer
    requires { 96 ≤ length fibs.old }
    ensures { BlockProcessed
        block.now
        (fic_buffers depunctured.old words.old bits.old fibs.old)
        result.passed
        result.quality
        (fic_buffers depunctured.new words.new bits.new fibs.new) }
{
    fec_depuncturing::depuncture_fic(block, &mut *depunctured).unwrap();
    let quality = decode_block(&*depunctured, &mut *words, &mut *bits);
    let passed = keep_fibs(&bits[..DATA], fibs);
    BlockAnswer { passed, quality }
}

// The whole blocks of the symbols' values; what stands for an absent one is all zero.
fn process_blocks(
    values: &[i8],
    depunctured: &mut [i8; VALUES],
    words: &mut [u64; STEPS],
    bits: &mut [u8; STEPS],
    fibs: &mut [u8],
) -> Fic
    requires few { blocks_in values.now ≤ 4 }
    requires room { 96 * blocks_in values.now ≤ length fibs.old }
    ensures { Processed
        values.now
        (blocks_in values.now)
        (fic_buffers depunctured.old words.old bits.old fibs.old)
        result
        (fic_buffers depunctured.new words.new bits.new fibs.new) }
{
    let mut fic = Fic::default();
    let (blocks, _) = values.as_chunks();
    for (b, block) in blocks.iter().enumerate() {
        let out = &mut fibs[32 * fic.fibs..];
        let one = process_block(block, &mut *depunctured, &mut *words, &mut *bits, out);
        fic.fibs += one.passed;
        fic.passed[b] = one.passed;
        fic.quality[b] = one.quality;
    }
    fic
}

// Three symbols of up to 3,072 values to checked FIBs: each passed FIB is written into the output, the k-th from byte 32 k on.
pub fn process_fic(
    first: &[i8],
    second: &[i8],
    third: &[i8],
    depunctured: &mut [i8],
    words: &mut [u64],
    bits: &mut [u8],
    fibs: &mut [u8],
) -> Result<Fic, Refusal>
    ensures { FicPromise
        first.now
        second.now
        third.now
        (fic_buffers depunctured.old words.old bits.old fibs.old)
        result
        (fic_buffers depunctured.new words.new bits.new fibs.new) }
{
    if SYMBOL < first.len() || SYMBOL < second.len() || SYMBOL < third.len() {
        return Err(Refusal::LongInput);
    }
    let depunctured = depunctured.first_chunk_mut().ok_or(Refusal::ShortBuffer)?;
    let words = words.first_chunk_mut().ok_or(Refusal::ShortBuffer)?;
    let bits = bits.first_chunk_mut().ok_or(Refusal::ShortBuffer)?;
    let len = first.len() + second.len() + third.len();
    // Without a whole block nothing is joined, and no array is zeroed.
    if len < BLOCK {
        return Ok(Fic::default());
    }
    if fibs.len() < 96 * (len / BLOCK) {
        return Err(Refusal::ShortBuffer);
    }
    let mut joined = [0; JOINED];
    join(first, second, third, &mut joined);
    Ok(process_blocks(&joined[..len], depunctured, words, bits, fibs))
}
