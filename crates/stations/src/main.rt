// The program `stations`: soft values from standard input, as two's-complement bytes, transmission frames of 75 symbols of 3,072 values (3 of the FIC,
// 72 of the MSC, which are passed over), or, with the argument `fic`, the symbols of the FIC alone; the station list to standard output. An
// incomplete frame at the end is not decoded.
#![tactic(auto)]

use fec_protection::Description;
use fic_directory::Reading;
use fic_directory_places::ServiceEntry;
use refusal::Refusal;
use std::env::{Env, FillError};
use std::fmt;
use std::io::Read;

// ---- reading

// What standard input holds: whole transmission frames, or the three symbols of each one's FIC.
#[derive(Clone, Copy, PartialEq, Eq)]
enum Recording {
    Frames,
    FicAlone,
}

impl Recording {
    // The FIC of the next frame, if the frame is whole.
    fn next_fic<R: Read>(self, input: &mut R) -> Option<[i8; 9216]> {
        let mut bytes = [0; 9216];
        let (got, _) = byte_streams::read_full(input, &mut bytes);
        if got < 9216 {
            return None;
        }
        if self == Recording::Frames {
            let (got, _) = byte_streams::read_full(input, &mut [0; 221184]);
            if got < 221184 {
                return None;
            }
        }
        let mut soft = [0; 9216];
        soft_bytes::convert(&bytes, &mut soft);
        Some(soft)
    }
}

// Two readings, one after the other: FIBs are numbered through. A sum stops at the largest number.
fn joined(a: Reading, b: Reading) -> Reading {
    let (first_fib, first_offset) = if a.broken == 0 && b.broken > 0 {
        (a.fibs.saturating_add(b.first_fib), b.first_offset)
    } else {
        (a.first_fib, a.first_offset)
    };
    Reading {
        fibs: a.fibs.saturating_add(b.fibs),
        broken: a.broken.saturating_add(b.broken),
        first_fib,
        first_offset,
        left_out: a.left_out.saturating_add(b.left_out),
    }
}

// The directory's numbers, of 64 sub-channels and of 64 services.
#[derive(Drop)]
struct Directory {
    subs: [u64; 64],
    services: [u64; 256],
}

impl Directory {
    fn empty() -> Self {
        Directory {
            subs: [0; 64],
            services: [0; 256],
        }
    }

    // Enters what three symbols of the FIC say.
    fn read(&mut self, soft: &[i8; 9216]) -> Result<Reading, Refusal> {
        let mut fibs = [0; 384];
        let fic = fic_handler::process_fic(
            &soft[..3072],
            &soft[3072..6144],
            &soft[6144..],
            &mut [0; 3096],
            &mut [0; 774],
            &mut [0; 774],
            &mut fibs,
        )?;
        let n = 32 * fic.fibs.min(12);
        fic_directory::read_fibs(&fibs[..n], &mut self.subs, &mut self.services)
    }

    // Enters what every frame says. A loop must be shown to end, and nothing says that an input does: hence the bound.
    fn read_all<R: Read>(&mut self, input: &mut R, recording: Recording) -> Reading {
        let mut reading = Reading::default();
        for _ in 0..u64::MAX {
            let Some(soft) = recording.next_fic(input) else {
                break;
            };
            reading = joined(reading, self.read(&soft).unwrap_or_default());
        }
        reading
    }

    fn service(&self, place: usize) -> Option<ServiceEntry> {
        fic_directory_places::service(&self.services, place).unwrap_or(None)
    }

    fn sub_channel(&self, id: usize) -> SubChannel {
        let description = fic_directory_places::sub_channel(&self.subs, id).unwrap_or(None);
        SubChannel { id, description }
    }

    // Whether a service is carried in a sub-channel.
    fn is_in_use(&self, id: usize) -> bool {
        (0..64).any(|place| {
            self.service(place)
                .is_some_and(|service| fic_stations::carries(service.components(), id))
        })
    }
}

// ---- telling

// As radio people write it: a description counts the levels of EEP from 0.
#[derive(Clone, Copy)]
struct Protection(Description);

impl fmt::Display for Protection {
    fn fmt<W: fmt::Write>(&self, f: &mut fmt::Formatter<W>) -> fmt::Result {
        let d = &self.0;
        if !d.is_eep {
            return write!(f, "UEP {}", d.protection_level);
        }
        let level = u16::from(d.protection_level) + 1;
        match d.eep_option {
            0 => write!(f, "EEP {level}-A"),
            1 => write!(f, "EEP {level}-B"),
            option => write!(f, "EEP {level} of reserved option {option}"),
        }
    }
}

// A sub-channel, what is known of it, and what set-up says of that.
#[derive(Clone, Copy)]
struct SubChannel {
    id: usize,
    description: Option<Description>,
}

impl fmt::Display for SubChannel {
    fn fmt<W: fmt::Write>(&self, f: &mut fmt::Formatter<W>) -> fmt::Result {
        let id = self.id;
        let Some(d) = self.description else {
            return write!(f, "sub-channel {id}, which is not known");
        };
        let start = d.start_addr;
        let size = d.sub_size;
        let bitrate = d.bitrate;
        let protection = Protection(d);
        write!(
            f,
            "sub-channel {id}, start {start}, size {size} units, {bitrate} kbit/s, {protection}, "
        )?;
        match fec_protection::judge(d) {
            Ok(()) => f.write_str("accepted"),
            Err(refusal) => write!(f, "refused by {}", refusal.number()),
        }
    }
}

// What was read of a recording.
#[derive(Clone, Copy)]
struct Summary(Reading);

impl fmt::Display for Summary {
    fn fmt<W: fmt::Write>(&self, f: &mut fmt::Formatter<W>) -> fmt::Result {
        let Summary(r) = *self;
        write!(
            f,
            "FIBs read: {}, ended at a FIG that passes the end: {}",
            r.fibs, r.broken
        )?;
        if r.broken > 0 {
            write!(
                f,
                ", the first is FIB {} at offset {}",
                r.first_fib, r.first_offset
            )?;
        }
        write!(f, ", entries of services left out: {}", r.left_out)
    }
}

fn print_service(rt: &impl Print, directory: &Directory, service: ServiceEntry) {
    let _ = match fic_stations::primary(service.components()) {
        None => println!(rt; "{service}: no primary component, sub-channel not known"),
        Some(component) => match component.sub_channel() {
            None => println!(rt; "{service}: {component}, sub-channel not known"),
            Some(id) => println!(rt; "{service}: {component}, {}", directory.sub_channel(id)),
        },
    };
}

// A line that cannot be written is passed over, here and below.
fn print_services(rt: &impl Print, directory: &Directory) {
    for place in 0..64 {
        if let Some(service) = directory.service(place) {
            print_service(rt, directory, service);
        }
    }
}

fn print_without_service(rt: &impl Print, directory: &Directory) {
    for id in 0..64 {
        let sub_channel = directory.sub_channel(id);
        if sub_channel.description.is_some() && !directory.is_in_use(id) {
            let _ = println!(rt; "no service, {sub_channel}");
        }
    }
}

fn print_list(rt: &impl Print, directory: &Directory, reading: Reading) {
    print_services(rt, directory);
    print_without_service(rt, directory);
    let _ = println!(rt; "{}", Summary(reading));
    // Services that left the air keep their places, so a long recording may fill them.
    if reading.left_out > 0 {
        let _ = println!(rt;
            "The list has 64 services and is full, with those that have left the air: give a later part of the recording for a new list."
        );
    }
}

// ---- the argument

// What the arguments say of standard input, if they are right.
fn asked(rt: &impl Env) -> Option<Recording> {
    let mut word = [0; 4];
    let at_most_one = matches!(rt.arg(2, &mut [0; 4]), Err(FillError::NotPresent));
    match rt.arg(1, &mut word) {
        Err(FillError::NotPresent) => Some(Recording::Frames),
        Ok(3) if at_most_one && word.starts_with(b"fic") => Some(Recording::FicAlone),
        _ => None,
    }
}

fn print_usage(rt: &impl Eprint) {
    let _ = eprintln!(rt; "usage: stations [fic] < recording");
    let _ = eprintln!(rt;
        "The services of an ensemble, from soft values as two's-complement bytes: transmission frames of 75 symbols\nof 3,072 values, or, with `fic`, the first three symbols of each frame alone."
    );
}

fn main(rt: HostRuntime) {
    match asked(&rt) {
        Some(recording) => {
            let mut directory = Directory::empty();
            let reading = directory.read_all(&mut rt.stdin(), recording);
            print_list(&rt, &directory, reading);
        }
        None => print_usage(&rt),
    }
}
