// Replays recorded answers of the Rust on soft values, kinds 6 to 9, from standard input, and counts, function by function, which
// answers are the same. The buffer for an answer has as many places as the Rust gave values, with another value in each.
#![tactic(auto)]

ghost use Rattle.std.specs.Prelude.{◌≤◌, IsTrue};

use fec_viterbi::Score;
use refusal::Refusal;
use test_records::Judge;

// Whether the values are those of the bytes.
fn are_values(values: &[i8], bytes: &[u8]) -> bool {
    values.len() == bytes.len()
        && values
            .iter()
            .zip(bytes)
            .all(|(value, byte)| *value == byte.cast_signed())
}

// Whether a function depunctures values to the recorded ones.
fn depunctures<F: FnOnce(&[i8], &mut [i8]) -> Result<(), Refusal>>(
    values: &[u8],
    answer: &[u8],
    depuncture: F,
) -> bool
    requires { F.IsAlwaysCallable depuncture }
{
    if values.len() > 4096 || answer.len() > 4096 {
        return false;
    }
    let mut soft = [77; 4096];
    let mut out = [77; 4096];
    soft_bytes::convert(values, &mut soft);
    let out = &mut out[..answer.len()];
    depuncture(&soft[..values.len()], &mut *out).is_ok() && are_values(out, answer)
}

// The description and then the values.
fn depunctures_msc(input: &[u8], answer: &[u8]) -> bool {
    if input.len() < 9 || input.len() > 4096 {
        return false;
    }
    let d = test_records::description(input);
    depunctures(&input[9..], answer, |soft, out| {
        fec_depuncturing::depuncture_msc(soft, d, out)
    })
}

// Whether a decoder is done with the metric and the bits recorded: four bytes, then the bits.
fn decodes<F: FnOnce(&[i8], &mut [u64], &mut [u8]) -> Result<Score, Refusal>>(
    input: &[u8],
    answer: &[u8],
    decode: F,
) -> bool
    requires { F.IsAlwaysCallable decode }
{
    let Some((metric, recorded)) = answer.split_first_chunk::<4>() else {
        return false;
    };
    if input.len() > 4096 || recorded.len() > 1024 {
        return false;
    }
    let mut soft = [77; 4096];
    let mut words = [77; 1024];
    let mut bits = [77; 1024];
    soft_bytes::convert(input, &mut soft);
    let bits = &mut bits[..recorded.len()];
    match decode(&soft[..input.len()], &mut words, &mut *bits) {
        Ok(score) => score.metric == i32::from_le_bytes(*metric) && &*bits == recorded,
        Err(_) => false,
    }
}

struct Replay;

impl Judge for Replay {
    // An answer is as recorded only where its kind is one of this program's.
    ghost says = { λ _ kind _ _ same. IsTrue same → (6 ≤ kind) × (kind ≤ 9) };

    // Whether the function of this kind, a number of the file's form, gives the recorded answer.
    fn is_same(&self, kind: u8, input: &mut [u8], answer: &[u8]) -> bool {
        match kind {
            6 => depunctures_msc(input, answer),
            7 => depunctures(input, answer, fec_depuncturing::depuncture_fic),
            8 => decodes(input, answer, fec_viterbi::viterbi_decode_state0),
            9 => decodes(input, answer, fec_viterbi::viterbi_decode_with_metric),
            _ => false,
        }
    }
}

fn main(rt: HostRuntime) {
    let tally = test_records::replay_all(&mut rt.stdin(), &Replay);
    tally.print(
        &rt,
        &[
            (6, "depuncture_msc"),
            (7, "depuncture_fic"),
            (8, "viterbi_decode_state0"),
            (9, "viterbi_decode_with_metric"),
        ],
    );
}
