// The C interface: include/undrelvoa.h says what each parameter is. A slice here is a pointer and a length there; for the names that
// differ, size is output_size, out is result, a register slice is register_space, and the validator's unique, register and ram are the
// three lengths. A call that answers another number than 0 changes no buffer.
#![tactic(auto)]

ghost use Rattle.std.specs.Prelude.{◌≡◌, cond, eqb, ◌+◌, ◌≤◌, length, set};
ghost use Rattle.std.proofs.lemmas.List.Edits.{sets};
ghost use Rattle.word.specs.Word.{part, value_of, bytes_of};
ghost use Rattle.arithmetic.specs.Result.{result_of};
ghost use Rattle.machine.specs.Memory.{spaces};
ghost use Rattle.undrelvoa_faults.specs.Faults.{value_fault, gather_fault, scatter_fault, place_fault};
ghost use Rattle.undrelvoa.specs.Calls.{AnswerPromise, BuffersPromise, LabelledBuffersPromise, SpeculativeBuffersPromise};
ghost use Rattle.undrelvoa.specs.Calls.{ReportAnswerPromise, CountingBuffersPromise};
ghost use Rattle.undrelvoa.specs.Answers.{verdict_words, shown_length, place_words};

use operation::layout::{Lengths, Spaces, Varnode};
use undrelvoa_faults::{of_gather, of_lengths, of_place, of_report, of_scatter, of_value};
use word::bytes::{gather, scatter};
use words::{settings_in, write_place, write_report};

mod words;

#[unsafe(no_mangle)]
#[tactic(auto, using(undrelvoa_faults::proofs::Passed::value_passed))]
pub extern "C" fn undrelvoa_value(
    opcode: u64,
    size: u64,
    size0: u64,
    size1: u64,
    a: u64,
    b: u64,
    out: &mut [u64],
) -> u64
    ensures answer { result ≡ value_fault opcode size size0 size1 a b (length out.old) }
    ensures buffer { out.new ≡ cond (eqb result 0) (set out.old 0 (result_of opcode size size0 size1 a b)) out.old }
{
    if let Err(fault) = of_value(opcode, size, size0, size1, a, b, out.len()) {
        return fault.number();
    }
    out[0] = arithmetic::value(opcode, size, size0, size1, a, b);
    0
}

#[unsafe(no_mangle)]
#[tactic(auto, using(undrelvoa_faults::proofs::Passed::gather_passed))]
pub extern "C" fn undrelvoa_gather(
    order: u64,
    bytes: &[u8],
    offset: u64,
    size: u64,
    out: &mut [u64],
) -> u64
    ensures answer { result ≡ gather_fault order (length bytes.now) offset size (length out.old) }
    ensures buffer { out.new ≡ cond (eqb result 0) (set out.old 0 (value_of (eqb order 1) (part bytes.now offset size))) out.old }
{
    if let Err(fault) = of_gather(order, bytes.len(), offset, size, out.len()) {
        return fault.number();
    }
    out[0] = gather(order == 1, bytes, offset as usize, size as usize);
    0
}

#[unsafe(no_mangle)]
#[tactic(auto, using(undrelvoa_faults::proofs::Passed::scatter_passed))]
pub extern "C" fn undrelvoa_scatter(
    order: u64,
    bytes: &mut [u8],
    offset: u64,
    size: u64,
    value: u64,
) -> u64
    ensures answer { result ≡ scatter_fault order (length bytes.old) offset size value }
    ensures buffer { bytes.new ≡ cond (eqb result 0) (sets bytes.old offset (bytes_of (eqb order 1) size value)) bytes.old }
{
    if let Err(fault) = of_scatter(order, bytes.len(), offset, size, value) {
        return fault.number();
    }
    scatter(order == 1, bytes, offset as usize, size as usize, value);
    0
}

#[unsafe(no_mangle)]
#[tactic(auto, using(undrelvoa_faults::proofs::Passed::lengths_passed), unfolding(crate::specs::Answers::verdict_words))]
pub extern "C" fn undrelvoa_validate(
    settings: &[u64],
    unique: u64,
    register: u64,
    ram: u64,
    list: &[u64],
    report: &mut [u64],
) -> u64
    ensures answer { AnswerPromise settings.now report.old result }
    ensures buffer { report.new ≡ cond (eqb result 0) (sets report.old 0 (verdict_words settings.now unique register ram list.now)) report.old }
{
    if let Err(fault) = of_lengths(settings.len(), report.len()) {
        return fault.number();
    }
    let settings = settings_in(settings);
    let lengths = Lengths {
        unique,
        register,
        ram,
    };
    let verdict = interpreter::validate(settings, lengths, list);
    write_report(report, verdict);
    0
}

#[unsafe(no_mangle)]
#[tactic(auto, using(undrelvoa_faults::proofs::Passed::lengths_passed), unfolding(crate::specs::Buffers::after))]
pub extern "C" fn undrelvoa_run(
    settings: &[u64],
    list: &[u64],
    start: u64,
    budget: u32,
    unique: &mut [u8],
    register: &mut [u8],
    ram: &mut [u8],
    log: &mut [u64],
    report: &mut [u64],
) -> u64
    ensures answer { AnswerPromise settings.now report.old result }
    ensures buffers { BuffersPromise settings.now list.now start budget
        (spaces unique.old register.old ram.old) log.old report.old
        (spaces unique.new register.new ram.new) log.new report.new result }
{
    if let Err(fault) = of_lengths(settings.len(), report.len()) {
        return fault.number();
    }
    let settings = settings_in(settings);
    let mut memory = Spaces {
        unique,
        register,
        ram,
    };
    let ran = interpreter::run(settings, list, start, budget, &mut memory, log);
    write_report(report, ran);
    0
}

#[unsafe(no_mangle)]
#[tactic(auto, using(undrelvoa_faults::proofs::Passed::lengths_passed), unfolding(crate::specs::Buffers::after))]
pub extern "C" fn undrelvoa_step(
    settings: &[u64],
    list: &[u64],
    start: u64,
    unique: &mut [u8],
    register: &mut [u8],
    ram: &mut [u8],
    log: &mut [u64],
    report: &mut [u64],
) -> u64
    ensures answer { AnswerPromise settings.now report.old result }
    ensures buffers { BuffersPromise settings.now list.now start 1
        (spaces unique.old register.old ram.old) log.old report.old
        (spaces unique.new register.new ram.new) log.new report.new result }
{
    if let Err(fault) = of_lengths(settings.len(), report.len()) {
        return fault.number();
    }
    let settings = settings_in(settings);
    let mut memory = Spaces {
        unique,
        register,
        ram,
    };
    let ran = interpreter::step(settings, list, start, &mut memory, log);
    write_report(report, ran);
    0
}

#[unsafe(no_mangle)]
#[tactic(auto, using(undrelvoa_faults::proofs::Passed::lengths_passed), unfolding(crate::specs::Buffers::after, crate::specs::Buffers::after_labelled))]
pub extern "C" fn undrelvoa_labelled_run(
    settings: &[u64],
    list: &[u64],
    start: u64,
    budget: u32,
    unique: &mut [u8],
    register: &mut [u8],
    ram: &mut [u8],
    unique_labels: &mut [u8],
    register_labels: &mut [u8],
    ram_labels: &mut [u8],
    unique_counts: &mut [u64],
    register_counts: &mut [u64],
    ram_counts: &mut [u64],
    log: &mut [u64],
    report: &mut [u64],
) -> u64
    ensures answer { AnswerPromise settings.now report.old result }
    ensures buffers { LabelledBuffersPromise settings.now list.now start budget
        (spaces unique.old register.old ram.old)
        (spaces unique_labels.old register_labels.old ram_labels.old)
        (spaces unique_counts.old register_counts.old ram_counts.old)
        log.old report.old
        (spaces unique.new register.new ram.new)
        (spaces unique_labels.new register_labels.new ram_labels.new)
        (spaces unique_counts.new register_counts.new ram_counts.new)
        log.new report.new result }
{
    if let Err(fault) = of_lengths(settings.len(), report.len()) {
        return fault.number();
    }
    let settings = settings_in(settings);
    let mut memory = Spaces {
        unique,
        register,
        ram,
    };
    let mut labels = Spaces {
        unique: unique_labels,
        register: register_labels,
        ram: ram_labels,
    };
    let mut counts = Spaces {
        unique: unique_counts,
        register: register_counts,
        ram: ram_counts,
    };
    let ran = interpreter::labelled_run(
        settings,
        list,
        start,
        budget,
        &mut memory,
        &mut labels,
        &mut counts,
        log,
    );
    write_report(report, ran);
    0
}

#[unsafe(no_mangle)]
#[tactic(auto, using(undrelvoa_faults::proofs::Passed::lengths_passed), unfolding(crate::specs::Buffers::after, crate::specs::Buffers::after_labelled))]
pub extern "C" fn undrelvoa_labelled_step(
    settings: &[u64],
    list: &[u64],
    start: u64,
    unique: &mut [u8],
    register: &mut [u8],
    ram: &mut [u8],
    unique_labels: &mut [u8],
    register_labels: &mut [u8],
    ram_labels: &mut [u8],
    unique_counts: &mut [u64],
    register_counts: &mut [u64],
    ram_counts: &mut [u64],
    log: &mut [u64],
    report: &mut [u64],
) -> u64
    ensures answer { AnswerPromise settings.now report.old result }
    ensures buffers { LabelledBuffersPromise settings.now list.now start 1
        (spaces unique.old register.old ram.old)
        (spaces unique_labels.old register_labels.old ram_labels.old)
        (spaces unique_counts.old register_counts.old ram_counts.old)
        log.old report.old
        (spaces unique.new register.new ram.new)
        (spaces unique_labels.new register_labels.new ram_labels.new)
        (spaces unique_counts.new register_counts.new ram_counts.new)
        log.new report.new result }
{
    if let Err(fault) = of_lengths(settings.len(), report.len()) {
        return fault.number();
    }
    let settings = settings_in(settings);
    let mut memory = Spaces {
        unique,
        register,
        ram,
    };
    let mut labels = Spaces {
        unique: unique_labels,
        register: register_labels,
        ram: ram_labels,
    };
    let mut counts = Spaces {
        unique: unique_counts,
        register: register_counts,
        ram: ram_counts,
    };
    let ran = interpreter::labelled_step(
        settings,
        list,
        start,
        &mut memory,
        &mut labels,
        &mut counts,
        log,
    );
    write_report(report, ran);
    0
}

#[unsafe(no_mangle)]
#[tactic(auto, using(undrelvoa_faults::proofs::Passed::lengths_passed), unfolding(crate::specs::Buffers::after, crate::specs::Buffers::after_speculation))]
pub extern "C" fn undrelvoa_speculative_run(
    settings: &[u64],
    list: &[u64],
    start: u64,
    budget: u32,
    window: u64,
    unique: &mut [u8],
    register: &mut [u8],
    ram: &mut [u8],
    unique_labels: &mut [u8],
    register_labels: &mut [u8],
    ram_labels: &mut [u8],
    unique_counts: &mut [u64],
    register_counts: &mut [u64],
    ram_counts: &mut [u64],
    log: &mut [u64],
    journal: &mut [u64],
    report: &mut [u64],
) -> u64
    ensures answer { AnswerPromise settings.now report.old result }
    ensures buffers { SpeculativeBuffersPromise settings.now list.now start budget window
        (spaces unique.old register.old ram.old)
        (spaces unique_labels.old register_labels.old ram_labels.old)
        (spaces unique_counts.old register_counts.old ram_counts.old)
        log.old journal.old report.old
        (spaces unique.new register.new ram.new)
        (spaces unique_labels.new register_labels.new ram_labels.new)
        (spaces unique_counts.new register_counts.new ram_counts.new)
        log.new journal.new report.new result }
{
    if let Err(fault) = of_lengths(settings.len(), report.len()) {
        return fault.number();
    }
    let settings = settings_in(settings);
    let mut memory = Spaces {
        unique,
        register,
        ram,
    };
    let mut labels = Spaces {
        unique: unique_labels,
        register: register_labels,
        ram: ram_labels,
    };
    let mut counts = Spaces {
        unique: unique_counts,
        register: register_counts,
        ram: ram_counts,
    };
    let ran = interpreter::speculative_run(
        settings,
        list,
        start,
        budget,
        window,
        &mut memory,
        &mut labels,
        &mut counts,
        log,
        journal,
    );
    write_report(report, ran);
    0
}

#[unsafe(no_mangle)]
#[tactic(auto, using(undrelvoa_faults::proofs::Passed::report_passed), unfolding(crate::specs::Buffers::after_counting))]
pub extern "C" fn undrelvoa_count_secrets(
    unique_labels: &[u8],
    register_labels: &[u8],
    ram_labels: &[u8],
    unique_counts: &mut [u64],
    register_counts: &mut [u64],
    ram_counts: &mut [u64],
    report: &mut [u64],
) -> u64
    ensures answer { ReportAnswerPromise report.old result }
    ensures buffers { CountingBuffersPromise
        (spaces unique_labels.now register_labels.now ram_labels.now)
        (spaces unique_counts.old register_counts.old ram_counts.old) report.old
        (spaces unique_counts.new register_counts.new ram_counts.new) report.new result }
{
    if let Err(fault) = of_report(report.len()) {
        return fault.number();
    }
    let labels = Spaces {
        unique: unique_labels,
        register: register_labels,
        ram: ram_labels,
    };
    let mut counts = Spaces {
        unique: unique_counts,
        register: register_counts,
        ram: ram_counts,
    };
    let counted = interpreter::count_secrets(labels, &mut counts);
    write_report(report, counted);
    0
}

#[unsafe(no_mangle)]
#[tactic(auto, using(undrelvoa_faults::proofs::Passed::place_passed), unfolding(crate::specs::Answers::place_words))]
pub extern "C" fn undrelvoa_show<'a>(
    unique: &'a [u8],
    register: &'a [u8],
    ram: &'a [u8],
    space: u64,
    offset: u64,
    size: u64,
    place: &mut [u64],
) -> u64
    ensures answer { result ≡ place_fault (length place.old) }
    ensures buffer { place.new ≡ cond (eqb result 0) (sets place.old 0 (place_words unique.now register.now ram.now space offset size)) place.old }
{
    if let Err(fault) = of_place(place.len()) {
        return fault.number();
    }
    let memory = Spaces {
        unique,
        register,
        ram,
    };
    let v = Varnode {
        space,
        offset,
        size,
    };
    write_place(place, space, offset, shown_length(memory, v));
    0
}

// How many bytes are shown.
fn shown_length(memory: Spaces<&[u8]>, v: Varnode) -> u64
    ensures { result ≡ shown_length memory.entry.unique.now memory.entry.register.now memory.entry.ram.now v.space v.offset v.size }
{
    interpreter::show(memory, v).len() as u64
}
