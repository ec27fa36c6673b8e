// FIC handling over plain numbers: the handler's function, with its figures in the caller's places.
#![tactic(auto)]

ghost use Rattle.std.specs.Prelude.{◌≡◌, ◌++◌, ◌∷◌, ◌≤◌, length, drop};
ghost use Rattle.refusal.specs.Outcome.{number_of, told};
ghost use Rattle.fic_handler.specs.Blocks.{fic_buffers};
ghost use Rattle.c_fic.specs.Fic.{figures, counts_of, metrics_of, percents_of, FicCall};

use fec_quality::Quality;
use fic_handler::Fic;
use refusal::Refusal;

// How many FIBs, in all and of each block.
fn put_counts(fic: Fic, counts: &mut [u64])
    requires { 5 ≤ length counts.old }
    ensures { counts.new ≡ counts_of fic ++ drop 5 counts.old }
{
    counts[0] = fic.fibs as u64;
    counts[1..5].copy_from_slice(&fic.passed.map(|n| n as u64));
}

// The records of the four blocks.
fn put_qualities(quality: [Quality; 4], metrics: &mut [i32], percents: &mut [f64])
    requires metrics { 8 ≤ length metrics.old }
    requires percents { 4 ≤ length percents.old }
    ensures metrics { metrics.new ≡ metrics_of quality ++ drop 8 metrics.old }
    ensures percents { percents.new ≡ percents_of quality ++ drop 4 percents.old }
{
    metrics[..4].copy_from_slice(&quality.map(|q| q.metric));
    metrics[4..8].copy_from_slice(&quality.map(|q| q.sum));
    percents[..4].copy_from_slice(&quality.map(|q| q.percent));
}

// Three symbols to checked FIBs: 11, then 8.
pub fn process_fic(
    first: &[i8],
    second: &[i8],
    third: &[i8],
    depunctured: &mut [i8],
    words: &mut [u64],
    bits: &mut [u8],
    fibs: &mut [u8],
    counts: &mut [u64],
    metrics: &mut [i32],
    percents: &mut [f64],
) -> Result<(), Refusal>
    ensures { FicCall
        first.now
        second.now
        third.now
        (fic_buffers depunctured.old words.old bits.old fibs.old)
        (figures counts.old metrics.old percents.old)
        (number_of (told result))
        (fic_buffers depunctured.new words.new bits.new fibs.new)
        (figures counts.new metrics.new percents.new) }
{
    // 11 comes before 8, so the symbols are looked at before the places.
    if 3072 < first.len() || 3072 < second.len() || 3072 < third.len() {
        return Err(Refusal::LongInput);
    }
    if counts.len() < 5 || metrics.len() < 8 || percents.len() < 4 {
        return Err(Refusal::ShortBuffer);
    }
    let fic = fic_handler::process_fic(first, second, third, depunctured, words, bits, fibs)?;
    put_counts(fic, counts);
    put_qualities(fic.quality, metrics, percents);
    Ok(())
}
