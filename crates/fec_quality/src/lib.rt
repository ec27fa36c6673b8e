// The quality of a decoding: what the Rust works out for its log lines, as one record.
#![tactic(auto)]

ghost use Rattle.std.specs.Prelude.{◌≡◌, ◌^◌, ◌<◌, ◌≤◌, length};
ghost use Rattle.refusal.specs.Outcome.{told};
ghost use Rattle.fec_quality.specs.Figures.{sum_abs, percent_of, measured, nothing};

use refusal::Refusal;

// Two i32 and one f64: document 01's form.
#[derive(Clone, Copy, Debug, Default, PartialEq)]
pub struct Quality {
    pub metric: i32,
    pub sum: i32,
    pub percent: f64,
}

// The sum of the absolute values, few enough that it fits. A loop reads each value, so the proof knows its range; of a chain's it does not.
fn sum_of(soft: &[i8]) -> u32
    requires { length soft.now ≤ 262147 }
    ensures same { result ≡ sum_abs soft.now }
    ensures small { result < 2 ^ 31 }
{
    let mut sum = 0;
    for v in soft {
        sum += u32::from(v.unsigned_abs());
    }
    sum
}

// Two exact conversions, then a division and a multiplication, each rounded once in that order: document 01's form.
fn percent(metric: i32, sum: u32) -> f64
    ensures { result ≡ percent_of metric sum }
{
    if sum == 0 {
        return 0.0;
    }
    metric as f64 / sum as f64 * 100.0
}

// The record of a metric and the values that it was decoded from; refused above 65,536 whole steps.
#[tactic(auto, unfolding(crate::specs::Figures::measure_refusal))]
pub fn measure(metric: i32, depunctured: &[i8]) -> Result<Quality, Refusal>
    ensures { told result ≡ measured metric depunctured.now }
{
    if 65536 < depunctured.len() / 4 {
        return Err(Refusal::LongInput);
    }
    let sum = sum_of(depunctured);
    Ok(Quality {
        metric,
        sum: sum as i32,
        percent: percent(metric, sum),
    })
}

// The record of an absent block: all zero, which is the default under a public name (docs/PROMISES.md).
pub fn none() -> Quality
    ensures { result ≡ nothing }
{
    Quality::default()
}
