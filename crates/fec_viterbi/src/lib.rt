// Viterbi decoding of the mother code, rate 1/4, 64 states: bits of the path that no permitted path beats.
#![tactic(auto)]

ghost use Rattle.std.specs.Prelude.{◌≡◌, ℕ, ◌+◌, ◌*◌, ◌/◌, ◌%◌, ◌^◌, ◌<◌, ◌≤◌, length, nat_abs, ◌-ℤ◌, fold};
ghost use Rattle.std.specs.Int.{int_max};
ghost use Rattle.laws.specs.Integers.{at};
ghost use Rattle.laws.specs.Words.{word_of};
ghost use Rattle.refusal.specs.Outcome.{told};
ghost use Rattle.spec_trellis.specs.Trellis.{parity, branch, sign_by, start_score, zero_end, free_end};
ghost use Rattle.spec_trellis.specs.Program.{takes, acs, FirstGreatest, Renormalised, Forward, traced};
ghost use Rattle.fec_branch_outputs.specs.Outputs.{branch_outputs};
ghost use Rattle.fec_viterbi.specs.Code.{pattern_of, correlation_of, ArePatterns, Within, Chosen, permitted};
ghost use Rattle.fec_viterbi.specs.Decoders.{Accepted, Decoded};

use refusal::Refusal;

// What a decode gives beside its bits: the best path's score less all that was subtracted.
#[derive(Clone, Copy, Debug, PartialEq, Eq)]
pub struct Score {
    pub metric: i32,
}

// More steps than this are refused.
const MAX_STEPS: usize = 65_536;

// A best score above this is subtracted from all 64.
const MAX_SCORE: i32 = 100_000;

// One output of a register: the number of ones of register and mask, modulo two.
#[tactic(auto, unfolding(spec_trellis::specs::Trellis::parity))]
pub fn parity_of(register: u32, mask: u32) -> u32
    ensures { result ≡ parity register mask }
{
    (register & mask).count_ones() % 2
}

// A soft value times +1 where the output is 1 and -1 where it is 0.
#[tactic(auto, using(spec_trellis::proofs::Trellis::sign_zero, spec_trellis::proofs::Trellis::sign_one))]
fn signed(output: usize, value: i8) -> i32
    ensures value { result ≡ sign_by output value }
    ensures small { nat_abs result ≤ 128 }
{
    if output == 0 {
        -i32::from(value)
    } else {
        i32::from(value)
    }
}

// What a step adds where its four outputs are the bits of `pattern`, output 0 lowest.
fn correlation(soft: [i8; 4], pattern: usize) -> i32
    ensures value { result ≡ correlation_of soft pattern }
    ensures small { nat_abs result ≤ 512 }
{
    signed(pattern % 2, soft[0])
        + signed(pattern / 2 % 2, soft[1])
        + signed(pattern / 4 % 2, soft[2])
        + signed(pattern / 8 % 2, soft[3])
}

// All that a step can add: one correlation for each of the 16 patterns. Filled in place, here and in `Patterns::new`: of `array::from_fn` a proof has to
// show, call by call, that the closure keeps what it captured.
fn correlations(soft: [i8; 4]) -> [i32; 16]
    ensures by_pattern { (p : ℕ) → p < 16 → at result p ≡ correlation_of soft p }
    ensures small { Within 16 512 result }
{
    let mut added = [0; 16];
    for (pattern, value) in added.iter_mut().enumerate() {
        *value = correlation(soft, pattern);
    }
    added
}

// The four outputs of a register, which is a state and its input, as one number: output 0 lowest.
#[tactic(auto, using(crate::proofs::Table::entry_is, crate::proofs::Table::entry_below), unfolding(crate::specs::Code::pattern_of))]
fn pattern(outputs: &[[[u8; 4]; 2]; 64], register: usize) -> u8
    requires register_bound { register < 128 }
    requires outputs_value { outputs.now ≡ branch_outputs }
    ensures { result ≡ pattern_of (register / 2) (register % 2) }
{
    let [o0, o1, o2, o3] = outputs[register / 2][register % 2];
    o0 + 2 * o1 + 4 * o2 + 8 * o3
}

// The patterns of all registers: made once per decode and passed down to the step.
#[derive(Clone, Copy)]
struct Patterns {
    by_register: [u8; 128],
    ghost right: { ArePatterns by_register },
}

impl Patterns {
    fn new() -> Self {
        let outputs = fec_branch_outputs::branch_outputs();
        let mut by_register = [0; 128];
        for (register, value) in by_register.iter_mut().enumerate() {
            *value = pattern(&outputs, register);
        }
        Patterns { by_register }
    }

    fn of(&self, register: usize) -> usize
        requires { register < 128 }
        ensures value { result ≡ pattern_of (register / 2) (register % 2) }
        ensures below { result < 16 }
    {
        usize::from(self.by_register[register])
    }
}

// One step of the trellis: into each state the better way, the lower predecessor where both are equal. The scores go in and come out by value,
// which is document 01's form. `soft_small` is what the type says of the values, for a caller that has not read them.
fn step(scores: [i32; 64], patterns: &Patterns, soft: [i8; 4], choices: &mut u64) -> [i32; 64]
    requires { Within 64 1000000 scores }
    ensures by_index { (t : ℕ) → t < 64 → at result t ≡ acs (at scores) (branch soft 0) t }
    ensures choices_after { choices.new ≡ word_of (takes (at scores) (branch soft 0)) 64 }
    ensures soft_small { Within 4 128 soft }
{
    let added = correlations(soft);
    let mut next = [0; 64];
    let mut word = 0;
    for (t, score) in next.iter_mut().enumerate() {
        let low = scores[t / 2] + added[patterns.of(t)];
        let high = scores[t / 2 + 32] + added[patterns.of(t + 64)];
        *score = low.max(high);
        word += u64::from(low < high) << t;
    }
    *choices = word;
    next
}

// The best of the 64 scores.
fn greatest(scores: &[i32; 64]) -> i32
    ensures { result ≡ fold int_max (at scores.now 0) scores.now }
{
    scores.iter().copied().fold(scores[0], i32::max)
}

// The scores, all lowered by the best where that is more than `MAX_SCORE`.
fn renormalised(mut scores: [i32; 64]) -> [i32; 64]
    requires { Within 64 1000000 scores }
    ensures { Renormalised (at scores) (at result) }
{
    let best = greatest(&scores);
    if best <= MAX_SCORE {
        return scores;
    }
    for score in scores.iter_mut() {
        *score -= best;
    }
    scores
}

// Before the first step: 0 in state 0, else -63.
fn start() -> [i32; 64]
    ensures { (t : ℕ) → t < 64 → at result t ≡ start_score t }
{
    let mut scores = [-63; 64];
    scores[0] = 0;
    scores
}

// As many steps as there are words: the last scores, and each step's choices in its word.
fn forward(soft: &[i8], words: &mut [u64]) -> [i32; 64]
    requires { 4 * length words.old ≤ length soft.now }
    ensures { Forward soft.now (length words.old) (at result) words.new }
{
    let patterns = Patterns::new();
    let (steps, _) = soft.as_chunks::<4>();
    let mut scores = start();
    // By index: over a `zip` with `iter_mut` the proof loses what was written.
    for (k, word) in words.iter_mut().enumerate() {
        scores = renormalised(step(scores, &patterns, steps[k], word));
    }
    scores
}

// The bits of the path that the words give, from its end backwards; by index, as `forward` goes.
fn trace_back(words: &[u64], end: usize, bits: &mut [u8])
    requires { (end < 64) × (length words.now ≡ length bits.old) }
    ensures { bits.new ≡ traced words.now (length words.now) end }
{
    let mut state = end;
    for k in (0..words.len()).rev() {
        bits[k] = (state % 2) as u8;
        state = state / 2 + 32 * ((words[k] >> state) % 2) as usize;
    }
}

// The lowest state with the best score.
fn best_end(scores: &[i32; 64]) -> usize
    ensures { FirstGreatest (at scores.now) 64 result }
{
    let mut best = 0;
    for state in 1..64 {
        if scores[state] > scores[best] {
            best = state;
        }
    }
    best
}

// Where a path may end: in state 0 alone, or in every state.
#[derive(Clone, Copy)]
enum End {
    Zero,
    Free,
}

impl End {
    // The state from which the path is traced back.
    fn state(self, scores: &[i32; 64]) -> usize
        ensures below { result < 64 }
        ensures chosen { Chosen self (at scores.now) result }
    {
        match self {
            End::Zero => 0,
            End::Free => best_end(scores),
        }
    }
}

// Decodes as many steps as there are words: the metric.
fn best_path(soft: &[i8], words: &mut [u64], bits: &mut [u8], end: End) -> i32
    requires { (4 * length words.old ≤ length soft.now) × (length bits.old ≡ length words.old) }
    ensures { Accepted (permitted end) soft.now (length words.old) words.old bits.old result words.new bits.new }
{
    let scores = forward(soft, &mut *words);
    let state = end.state(&scores);
    trace_back(words, state, bits);
    scores[state]
}

// Both decoders: the refusals in document 01's order, then as many elements of the words and the bits as there are steps. These stay two parameters, as
// the public functions and C lend them.
fn decode(soft: &[i8], words: &mut [u64], bits: &mut [u8], end: End) -> Result<Score, Refusal>
    ensures { Decoded (permitted end) soft.now words.old bits.old (told result) words.new bits.new }
{
    let n = soft.len() / 4;
    if n > MAX_STEPS {
        return Err(Refusal::LongInput);
    }
    if words.len().min(bits.len()) < n {
        return Err(Refusal::ShortBuffer);
    }
    let metric = best_path(soft, &mut words[..n], &mut bits[..n], end);
    Ok(Score { metric })
}

// Decodes to the best path that ends in state 0. Four soft values make a step; each step takes one element of `words` and one of `bits`.
pub fn viterbi_decode_state0(
    soft: &[i8],
    words: &mut [u64],
    bits: &mut [u8],
) -> Result<Score, Refusal>
    ensures { Decoded zero_end soft.now words.old bits.old (told result) words.new bits.new }
{
    decode(soft, words, bits, End::Zero)
}

// Decodes to the best path, whatever state it ends in: the other public name over `decode`.
pub fn viterbi_decode_with_metric(
    soft: &[i8],
    words: &mut [u64],
    bits: &mut [u8],
) -> Result<Score, Refusal>
    ensures { Decoded free_end soft.now words.old bits.old (told result) words.new bits.new }
{
    decode(soft, words, bits, End::Free)
}
