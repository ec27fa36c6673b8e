// What every crate answers where it turns a caller away: document 01's refusals, each with its number there.
#![tactic(auto)]

ghost use Rattle.std.specs.Prelude.{◌≡◌};
ghost use Rattle.refusal.specs.Outcome.{number_of, numbered, told};

use std::error::Error;
use std::fmt;

#[derive(Clone, Copy, Debug, PartialEq, Eq, Hash)]
pub enum Refusal {
    NoSuchOption = 1,
    NoSuchLevel = 2,
    RateTooLow = 3,
    NoProfile = 4,
    SizeDiffers = 5,
    UnevenRate = 6,
    BeyondCif = 7,
    ShortBuffer = 8,
    ShortSymbol = 9,
    BadState = 10,
    LongInput = 11,
    ShortDirectory = 12,
}

impl Refusal {
    // Its number in document 01, and document 02 from 12 on.
    pub fn number(self) -> u8
        ensures { result ≡ numbered self }
    {
        self as u8
    }
}

impl fmt::Display for Refusal {
    fn fmt<W: fmt::Write>(&self, f: &mut fmt::Formatter<W>) -> fmt::Result {
        f.write_str(match self {
            Refusal::NoSuchOption => "an EEP option above 1",
            Refusal::NoSuchLevel => "an EEP level above 3",
            Refusal::RateTooLow => "a bit rate too low for its level",
            Refusal::NoProfile => "no UEP profile for the bit rate and level",
            Refusal::SizeDiffers => "a size that the profile does not need",
            Refusal::UnevenRate => "a bit rate that is no multiple of the level's unit",
            Refusal::BeyondCif => "a sub-channel that passes the CIF's end",
            Refusal::ShortBuffer => "a buffer that is too short",
            Refusal::ShortSymbol => "a symbol that is too short",
            Refusal::BadState => "a state that set-up and feeding never give",
            Refusal::LongInput => "an input that is too long",
            Refusal::ShortDirectory => "a directory with too few places",
        })
    }
}

impl Error for Refusal {}

// The number of an answer as C has it: 0 where nothing is refused.
pub fn number<T>(answer: &Result<T, Refusal>) -> u8
    ensures { result ≡ number_of (told answer.now) }
{
    match answer {
        Ok(_) => 0,
        Err(refusal) => refusal.number(),
    }
}
