// The library for C and Rust: each export is a bare call of a function below with the same promise. include/feltcomet.h declares and explains them.
// A description is six numbers and a refusal its number, 0 where the call is done: C's form. After a refusal the caller's buffers are as they were.
#![tactic(auto)]

ghost use Rattle.std.specs.Prelude.{◌≡◌};
ghost use Rattle.spec_en300401.specs.Dispersal.{disperse};
ghost use Rattle.spec_en300401.specs.Puncturing.{kept_size};
ghost use Rattle.spec_trellis.specs.Trellis.{zero_end, free_end};
ghost use Rattle.fec_crc.specs.Tests.{byte_test, bit_test};
ghost use Rattle.fec_protection.specs.Promises.{mother_size};
ghost use Rattle.fec_protection.specs.Refusals.{refusal_of};
ghost use Rattle.fic_handler.specs.Blocks.{fic_buffers};
ghost use Rattle.msc_handler.specs.Promises.{buffers};
ghost use Rattle.c_description.specs.Lookups.{row_of, one, Looked};
ghost use Rattle.c_description.specs.Places.{describes};
ghost use Rattle.c_fec.specs.Decoders.{Decoder};
ghost use Rattle.c_fec.specs.Depuncturing.{FilledMsc, FilledFic};
ghost use Rattle.c_fic.specs.Fic.{figures, FicCall};
ghost use Rattle.c_directory.specs.Calls.{EmptyCall, ReadCall, SubCall, ServiceCall, AudioCall};
ghost use Rattle.fic_directory_places.specs.Places.{held};
ghost use Rattle.c_msc.specs.Msc.{SetUpCall, ResetCall, fed_places, FeedCall};

use msc_handler::Memory;

#[unsafe(no_mangle)]
pub extern "C" fn feltcomet_energy_dispersal(bits: &mut [u8])
    ensures { bits.new ≡ disperse bits.old }
{
    fec_dispersal::energy_dispersal(bits);
}

#[unsafe(no_mangle)]
pub extern "C" fn feltcomet_fib_crc_valid(fib: &[u8]) -> bool
    ensures { result ≡ byte_test fib.now }
{
    fec_crc::fib_crc_valid(fib)
}

#[unsafe(no_mangle)]
pub extern "C" fn feltcomet_check_crc_bits(bits: &[u8]) -> bool
    ensures { result ≡ bit_test bits.now }
{
    fec_crc::check_crc_bits(bits)
}

#[unsafe(no_mangle)]
pub extern "C" fn feltcomet_judge(
    start_addr: u16,
    sub_size: u16,
    bitrate: u16,
    protection_level: u8,
    eep_option: u8,
    is_eep: u32,
) -> u8
    ensures { result ≡ refusal_of (describes start_addr sub_size bitrate protection_level eep_option is_eep) }
{
    let d = c_description::described(
        start_addr,
        sub_size,
        bitrate,
        protection_level,
        eep_option,
        is_eep,
    );
    refusal::number(&c_description::judge(d))
}

#[unsafe(no_mangle)]
pub extern "C" fn feltcomet_profile(
    start_addr: u16,
    sub_size: u16,
    bitrate: u16,
    protection_level: u8,
    eep_option: u8,
    is_eep: u32,
    row: &mut [u64],
) -> u8
    ensures { Looked (describes start_addr sub_size bitrate protection_level eep_option is_eep) 8 row_of row.old row.new result }
{
    let d = c_description::described(
        start_addr,
        sub_size,
        bitrate,
        protection_level,
        eep_option,
        is_eep,
    );
    refusal::number(&c_description::profile(d, row))
}

#[unsafe(no_mangle)]
pub extern "C" fn feltcomet_needed_size(
    start_addr: u16,
    sub_size: u16,
    bitrate: u16,
    protection_level: u8,
    eep_option: u8,
    is_eep: u32,
    size: &mut [u64],
) -> u8
    ensures { Looked (describes start_addr sub_size bitrate protection_level eep_option is_eep) 1 (one kept_size) size.old size.new result }
{
    let d = c_description::described(
        start_addr,
        sub_size,
        bitrate,
        protection_level,
        eep_option,
        is_eep,
    );
    refusal::number(&c_description::needed_size(d, size))
}

#[unsafe(no_mangle)]
pub extern "C" fn feltcomet_depunctured_size(
    start_addr: u16,
    sub_size: u16,
    bitrate: u16,
    protection_level: u8,
    eep_option: u8,
    is_eep: u32,
    size: &mut [u64],
) -> u8
    ensures { Looked (describes start_addr sub_size bitrate protection_level eep_option is_eep) 1 (one mother_size) size.old size.new result }
{
    let d = c_description::described(
        start_addr,
        sub_size,
        bitrate,
        protection_level,
        eep_option,
        is_eep,
    );
    refusal::number(&c_description::depunctured_size(d, size))
}

#[unsafe(no_mangle)]
pub extern "C" fn feltcomet_depuncture_msc(
    soft: &[i8],
    start_addr: u16,
    sub_size: u16,
    bitrate: u16,
    protection_level: u8,
    eep_option: u8,
    is_eep: u32,
    out: &mut [i8],
) -> u8
    ensures { FilledMsc (describes start_addr sub_size bitrate protection_level eep_option is_eep) soft.now out.old out.new result }
{
    let d = c_description::described(
        start_addr,
        sub_size,
        bitrate,
        protection_level,
        eep_option,
        is_eep,
    );
    refusal::number(&c_fec::depuncture_msc(soft, d, out))
}

#[unsafe(no_mangle)]
pub extern "C" fn feltcomet_depuncture_fic(soft: &[i8], out: &mut [i8]) -> u8
    ensures { FilledFic soft.now out.old out.new result }
{
    refusal::number(&c_fec::depuncture_fic(soft, out))
}

#[unsafe(no_mangle)]
pub extern "C" fn feltcomet_viterbi_decode_state0(
    soft: &[i8],
    words: &mut [u64],
    bits: &mut [u8],
    metric: &mut [i32],
) -> u8
    ensures { Decoder zero_end soft.now words.old bits.old metric.old result words.new bits.new metric.new }
{
    refusal::number(&c_fec::viterbi_decode_state0(soft, words, bits, metric))
}

#[unsafe(no_mangle)]
pub extern "C" fn feltcomet_viterbi_decode_with_metric(
    soft: &[i8],
    words: &mut [u64],
    bits: &mut [u8],
    metric: &mut [i32],
) -> u8
    ensures { Decoder free_end soft.now words.old bits.old metric.old result words.new bits.new metric.new }
{
    refusal::number(&c_fec::viterbi_decode_with_metric(soft, words, bits, metric))
}

#[unsafe(no_mangle)]
pub extern "C" fn feltcomet_process_fic(
    first: &[i8],
    second: &[i8],
    third: &[i8],
    depunctured: &mut [i8],
    words: &mut [u64],
    bits: &mut [u8],
    fibs: &mut [u8],
    counts: &mut [u64],
    metrics: &mut [i32],
    percents: &mut [f64],
) -> u8
    ensures { FicCall first.now second.now third.now (fic_buffers depunctured.old words.old bits.old fibs.old) (figures counts.old metrics.old percents.old) result (fic_buffers depunctured.new words.new bits.new fibs.new) (figures counts.new metrics.new percents.new) }
{
    refusal::number(&c_fic::process_fic(
        first,
        second,
        third,
        depunctured,
        words,
        bits,
        fibs,
        counts,
        metrics,
        percents,
    ))
}

#[unsafe(no_mangle)]
pub extern "C" fn feltcomet_set_up(
    start_addr: u16,
    sub_size: u16,
    bitrate: u16,
    protection_level: u8,
    eep_option: u8,
    is_eep: u32,
    ring: &mut [i8],
    state: &mut [u64],
) -> u8
    ensures { SetUpCall (describes start_addr sub_size bitrate protection_level eep_option is_eep) ring.old state.old result ring.new state.new }
{
    let d = c_description::described(
        start_addr,
        sub_size,
        bitrate,
        protection_level,
        eep_option,
        is_eep,
    );
    refusal::number(&c_msc::set_up(d, ring, state))
}

#[unsafe(no_mangle)]
pub extern "C" fn feltcomet_reset(state: &mut [u64], ring: &mut [i8]) -> u8
    ensures { ResetCall state.old ring.old result ring.new state.new }
{
    refusal::number(&c_msc::reset(state, ring))
}

#[unsafe(no_mangle)]
pub extern "C" fn feltcomet_feed_symbol(
    state: &mut [u64],
    soft: &[i8],
    cif: &mut [i8],
    ring: &mut [i8],
    deinterleaved: &mut [i8],
    depunctured: &mut [i8],
    words: &mut [u64],
    bits: &mut [u8],
    frame: &mut [u8],
    length: &mut [u64],
    percent: &mut [f64],
) -> u8
    ensures { FeedCall soft.now (buffers cif.old ring.old deinterleaved.old depunctured.old words.old bits.old frame.old) (fed_places state.old length.old percent.old) result (buffers cif.new ring.new deinterleaved.new depunctured.new words.new bits.new frame.new) (fed_places state.new length.new percent.new) }
{
    let mut memory = Memory {
        cif,
        ring,
        deinterleaved,
        depunctured,
        words,
        bits,
        frame,
    };
    refusal::number(&c_msc::feed_symbol(state, soft, &mut memory, length, percent))
}

#[unsafe(no_mangle)]
pub extern "C" fn feltcomet_directory_empty(subs: &mut [u64], services: &mut [u64]) -> u8
    ensures { EmptyCall (held subs.old services.old) result (held subs.new services.new) }
{
    refusal::number(&c_directory::empty(subs, services))
}

#[unsafe(no_mangle)]
pub extern "C" fn feltcomet_directory_read(
    fibs: &[u8],
    subs: &mut [u64],
    services: &mut [u64],
    counts: &mut [u64],
) -> u8
    ensures { ReadCall fibs.now (held subs.old services.old) counts.old result (held subs.new services.new) counts.new }
{
    refusal::number(&c_directory::read(fibs, subs, services, counts))
}

#[unsafe(no_mangle)]
pub extern "C" fn feltcomet_directory_sub_channel(
    subs: &[u64],
    id: usize,
    description: &mut [u64],
) -> u8
    ensures { SubCall subs.now id description.old result description.new }
{
    refusal::number(&c_directory::sub_channel(subs, id, description))
}

#[unsafe(no_mangle)]
pub extern "C" fn feltcomet_directory_service(
    services: &[u64],
    place: usize,
    answer: &mut [u64],
) -> u8
    ensures { ServiceCall services.now place answer.old result answer.new }
{
    refusal::number(&c_directory::service(services, place, answer))
}

#[unsafe(no_mangle)]
pub extern "C" fn feltcomet_directory_audio(
    services: &[u64],
    place: usize,
    answer: &mut [u64],
) -> u8
    ensures { AudioCall services.now place answer.old result answer.new }
{
    refusal::number(&c_directory::audio(services, place, answer))
}
