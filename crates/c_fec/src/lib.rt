// The depuncturers and the decoders as C has them: a decoder's metric in the caller's place.
#![tactic(auto)]

ghost use Rattle.std.specs.Prelude.{◌≡◌};
ghost use Rattle.spec_trellis.specs.Trellis.{zero_end, free_end};
ghost use Rattle.refusal.specs.Outcome.{told, numbered, number_of};
ghost use Rattle.fec_viterbi.specs.Decoders.{steps};
ghost use Rattle.c_fec.specs.Code.{no_place};
ghost use Rattle.c_fec.specs.Decoders.{Decoder};
ghost use Rattle.c_fec.specs.Depuncturing.{FilledMsc, FilledFic};

use fec_protection::Description;
use refusal::Refusal;

// 1 to 7, then 8.
pub fn depuncture_msc(soft: &[i8], d: Description, out: &mut [i8]) -> Result<(), Refusal>
    ensures { FilledMsc d soft.now out.old out.new (number_of (told result)) }
{
    fec_depuncturing::depuncture_msc(soft, d, out)
}

// 8.
pub fn depuncture_fic(soft: &[i8], out: &mut [i8]) -> Result<(), Refusal>
    ensures { FilledFic soft.now out.old out.new (number_of (told result)) }
{
    fec_depuncturing::depuncture_fic(soft, out)
}

// No place for the metric: 8, after 11.
fn no_place(soft: &[i8]) -> Refusal
    ensures { numbered result ≡ no_place (steps soft.now) }
{
    if 65536 < soft.len() / 4 {
        Refusal::LongInput
    } else {
        Refusal::ShortBuffer
    }
}

// The paths that end in state 0: 11, then 8.
#[tactic(auto, unfolding(crate::specs::Decoders::decoder_number, fec_viterbi::specs::Decoders::decoder_refusal))]
pub fn viterbi_decode_state0(
    soft: &[i8],
    words: &mut [u64],
    bits: &mut [u8],
    metric: &mut [i32],
) -> Result<(), Refusal>
    ensures { Decoder zero_end soft.now words.old bits.old metric.old (number_of (told result)) words.new bits.new metric.new }
{
    if metric.is_empty() {
        return Err(no_place(soft));
    }
    let score = fec_viterbi::viterbi_decode_state0(soft, words, bits)?;
    metric[0] = score.metric;
    Ok(())
}

// Every path: 11, then 8. A body of its own: a closure that is lent two buffers, with its clauses, is longer than the lines that the two share.
#[tactic(auto, unfolding(crate::specs::Decoders::decoder_number, fec_viterbi::specs::Decoders::decoder_refusal))]
pub fn viterbi_decode_with_metric(
    soft: &[i8],
    words: &mut [u64],
    bits: &mut [u8],
    metric: &mut [i32],
) -> Result<(), Refusal>
    ensures { Decoder free_end soft.now words.old bits.old metric.old (number_of (told result)) words.new bits.new metric.new }
{
    if metric.is_empty() {
        return Err(no_place(soft));
    }
    let score = fec_viterbi::viterbi_decode_with_metric(soft, words, bits)?;
    metric[0] = score.metric;
    Ok(())
}
