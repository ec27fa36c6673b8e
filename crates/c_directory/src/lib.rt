// The station list over plain numbers (document 02, order 1): answers as numbers in the caller's places.
#![tactic(auto)]

ghost use Rattle.std.specs.Prelude.{◌≡◌};
ghost use Rattle.refusal.specs.Outcome.{told, number_of};
ghost use Rattle.fic_directory_places.specs.Places.{held};
ghost use Rattle.c_directory.specs.Calls.{EmptyCall, ReadCall, SubCall, ServiceCall, AudioCall};

use refusal::Refusal;

// Empties every place: 12.
pub fn empty(subs: &mut [u64], services: &mut [u64]) -> Result<(), Refusal>
    ensures { EmptyCall (held subs.old services.old) (number_of (told result)) (held subs.new services.new) }
{
    fic_directory_places::empty(subs, services)
}

// Reads FIBs into the directory: 12, then 8 under five counts, so the directory is looked at first.
#[tactic(auto, unfolding(crate::specs::Calls::read_number, fic_directory_places::specs::Promises::directory_refusal))]
pub fn read(
    fibs: &[u8],
    subs: &mut [u64],
    services: &mut [u64],
    counts: &mut [u64],
) -> Result<(), Refusal>
    ensures { ReadCall fibs.now (held subs.old services.old) counts.old (number_of (told result)) (held subs.new services.new) counts.new }
{
    if counts.len() < 5 {
        if subs.len() < 64 || services.len() < 256 {
            return Err(Refusal::ShortDirectory);
        }
        return Err(Refusal::ShortBuffer);
    }
    let reading = fic_directory::read_fibs(fibs, subs, services)?;
    let numbers = [
        reading.fibs as u64,
        reading.broken as u64,
        reading.first_fib as u64,
        reading.first_offset as u64,
        reading.left_out as u64,
    ];
    c_description::put(numbers, counts)
}

// What the directory has for a SubChId, into seven places: 12, then 8.
pub fn sub_channel(subs: &[u64], id: usize, description: &mut [u64]) -> Result<(), Refusal>
    ensures { SubCall subs.now id description.old (number_of (told result)) description.new }
{
    let numbers = match fic_directory_places::sub_channel(subs, id)? {
        Some(d) => [
            1,
            u64::from(d.start_addr),
            u64::from(d.sub_size),
            u64::from(d.bitrate),
            u64::from(d.protection_level),
            u64::from(d.eep_option),
            u64::from(d.is_eep),
        ],
        None => [0; 7],
    };
    c_description::put(numbers, description)
}

// What the directory has at a service's place, into sixteen places: 12, then 8.
pub fn service(services: &[u64], place: usize, answer: &mut [u64]) -> Result<(), Refusal>
    ensures { ServiceCall services.now place answer.old (number_of (told result)) answer.new }
{
    let mut numbers = [0; 16];
    if let Some(entry) = fic_directory_places::service(services, place)? {
        let head = [
            1,
            u64::from(entry.wide),
            u64::from(entry.sid),
            entry.count as u64,
        ];
        numbers[..4].copy_from_slice(&head);
        numbers[4..].copy_from_slice(&entry.words.map(u64::from));
    }
    c_description::put(numbers, answer)
}

// The sub-channel that a listener of the service at a place hears, into two places: 12, then 8.
pub fn audio(services: &[u64], place: usize, answer: &mut [u64]) -> Result<(), Refusal>
    ensures { AudioCall services.now place answer.old (number_of (told result)) answer.new }
{
    let numbers = match fic_directory_places::audio_sub_channel(services, place)? {
        Some(id) => [1, id as u64],
        None => [0; 2],
    };
    c_description::put(numbers, answer)
}
