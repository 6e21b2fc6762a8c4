//! What a run answers, and the line that it says.
ghost use Rattle.std.specs.Prelude.{◌≡◌, codes, ◌++◌, decimal};
ghost use Rattle.jl_io.specs.Outside.{SaysMore, SaysSame};
ghost use Rattle.jl_top.specs.Reports.{report_of, plain_report, fault_report, report_line, fault_line};

use super::stops::ReadStop;
use itoa::Buffer;
use jl_io::Port;
use jl_model::{Code, Fault};

/// What a run answers.
///
/// `status` is the exit status. `code` is there exactly for status 1, and `at` is then the place of
/// the fault, else 0. `quads` counts the whole lines put, up to 2^64 - 1. `peak`, `weight` and
/// `limit` are 0 so far.
#[derive(Clone, Copy, Debug, PartialEq, Eq)]
pub struct Report {
    pub status: u8,
    pub code: Option<Code>,
    pub at: u64,
    pub quads: u64,
    pub peak: u64,
    pub weight: u64,
    pub limit: u64,
}

/// A report with this status and this number of lines, and nothing else.
pub fn plain(status: u8, quads: u64) -> Report
    ensures { result ≡ plain_report status quads }
{
    Report {
        status,
        code: None,
        at: 0,
        quads,
        peak: 0,
        weight: 0,
        limit: 0,
    }
}

fn faulty(fault: Fault, quads: u64) -> Report
    ensures { result ≡ fault_report fault.code fault.at quads }
{
    Report {
        status: 1,
        code: Some(fault.code),
        at: fault.at,
        quads,
        peak: 0,
        weight: 0,
        limit: 0,
    }
}

/// The report of a reading that put this number of lines.
pub fn make_report(outcome: Result<(), ReadStop>, quads: u64) -> Report
    ensures { result ≡ report_of outcome quads }
{
    match outcome {
        Ok(()) => plain(0, quads),
        Err(ReadStop::Refused(fault)) => faulty(fault, quads),
        Err(ReadStop::TooLong) => plain(8, quads),
        Err(ReadStop::TakeFault) => plain(3, quads),
        Err(ReadStop::OutFault) => plain(4, quads),
        Err(ReadStop::NoMemory) => plain(5, quads),
    }
}

/// Says the line of the report, or nothing for status 0.
pub fn say_report<P: Port>(port: &mut P, report: &Report)
    ensures said { SaysMore (P.said port.old) (report_line report.now) (P.said port.new) }
    ensures taken { P.taken port.new ≡ P.taken port.old }
    ensures left { P.left port.new ≡ P.left port.old }
    ensures ended { P.ended port.new ≡ P.ended port.old }
    ensures take_faults { P.take_faults port.new ≡ P.take_faults port.old }
    ensures written { P.written port.new ≡ P.written port.old }
    ensures put_faults { P.put_faults port.new ≡ P.put_faults port.old }
{
    match report.code {
        Some(code) => say_fault(port, code, report.at),
        None => match report.status {
            0 => port.say(b""),
            2 => port.say(b"jl: bad words\n"),
            3 => port.say(b"jl: reading failed\n"),
            4 => port.say(b"jl: writing failed\n"),
            8 => port.say(b"jl: too long\n"),
            _ => port.say(b"jl: no memory\n"),
        },
    }
}

fn say_fault<P: Port>(port: &mut P, code: Code, at: u64)
    ensures said { SaysMore (P.said port.old) (fault_line code at) (P.said port.new) }
    ensures taken { P.taken port.new ≡ P.taken port.old }
    ensures left { P.left port.new ≡ P.left port.old }
    ensures ended { P.ended port.new ≡ P.ended port.old }
    ensures take_faults { P.take_faults port.new ≡ P.take_faults port.old }
    ensures written { P.written port.new ≡ P.written port.old }
    ensures put_faults { P.put_faults port.new ≡ P.put_faults port.old }
{
    let mut digits = Buffer::new();
    port.say(b"jl: ");
    port.say(code.name());
    port.say(b" at ");
    port.say(digits.format(at).as_bytes());
    port.say(b"\n");
}
