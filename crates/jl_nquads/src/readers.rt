//! Lines of quads as they come in.
ghost use Rattle.std.specs.Prelude.{◌≡◌, ◌+◌, ◌-◌, ◌<◌, ◌≤◌, ◌^◌, [], length, None, OnOk, IsTrue};
ghost use Rattle.jl_nquads.specs.LineReading.{HasRead, AnswersBytes, AnswersByte, AnswersEnd, StaysStopped, stop_of};
ghost use Rattle.jl_nquads.specs.LinesRead.{IsInLine, ReadsFrom};
ghost use Rattle.jl_nquads.specs.Spots.{begins};

use super::halts::LineHalt;
use super::line_stops::LineStop;
use super::read_lines::read_line;
use super::rests::rest_of;
use jl_model::{Code, Fault, Quad, Text};
use memchr::memchr2;
use std::alloc::Global;
use std::marker::Model;

/// How far a call has read.
#[derive(Debug, Drop)]
pub struct LineStep {
    /// How many bytes were read.
    pub count: usize,
    /// The quad of the line that ended with the last of them, if one did and has a quad.
    pub quad: Option<Quad>,
}

/// Reads quads from the lines of N-Quads (RDF 1.1 N-Quads, section 3), whose bytes come in pieces of
/// any size.
///
/// A line is read as a whole where it ends. So a bad one is refused at its line feed or carriage
/// return, or at the end.
#[derive(Drop)]
pub struct LineReader {
    alloc: Global,
    /// The place at which the line begins that hasn't ended.
    start: u64,
    /// What has come of that line.
    part: Text,
    /// Why it stopped, once it has.
    stopped: Option<LineStop>,
}

impl Model for LineReader {
    ghost use Rattle.jl_nquads.specs.LineStates.{LineState};
    ghost use Rattle.jl_nquads.specs.LinesRead.{IsInLine};

    ghost Value = { LineState };

    ghost view = { λ r. record { start = r.start; part = r.part; stopped = r.stopped } };

    ghost invariant = { λ r. IsInLine r.part };
}

impl LineReader {
    ghost use Rattle.jl_nquads.specs.LineSteps.{TakesLine, EndsLine, IsWithin, stop_for, end_stop_for};

    /// A reader that has read nothing. It takes no memory.
    pub fn new(alloc: Global) -> LineReader
        ensures { HasRead [] [] result }
    {
        LineReader {
            alloc,
            start: 0,
            part: Text::empty(alloc),
            stopped: None,
        }
    }

    /// Reads bytes up to and with the first that ends a line with a quad, or all of them.
    pub fn read(&mut self, bytes: &[u8]) -> Result<LineStep, LineStop>
        requires few { self.old.start + length self.old.part + length bytes.now < 2 ^ 64 }
        ensures answer { AnswersBytes result bytes.now self.old self.new }
        ensures stops { self.new.stopped ≡ stop_of result }
        ensures again { StaysStopped self.old.stopped result self.old self.new }
    {
        if let Some(stop) = self.stopped {
            return Err(stop);
        }
        match self.read_lines(bytes) {
            Ok(step) => Ok(step),
            Err(stop) => {
                self.stopped = Some(stop);
                Err(stop)
            }
        }
    }

    /// Reads one byte, and gives the quad of the line that it ends, if it ends one with a quad.
    pub fn step(&mut self, byte: u8) -> Result<Option<Quad>, LineStop>
        requires few { self.old.start + length self.old.part + 1 < 2 ^ 64 }
        ensures answer { AnswersByte result byte self.old self.new }
        ensures stops { self.new.stopped ≡ stop_of result }
        ensures again { StaysStopped self.old.stopped result self.old self.new }
    {
        let bytes = [byte];
        match self.read(&bytes) {
            Ok(step) => Ok(step.quad),
            Err(stop) => Err(stop),
        }
    }

    /// The quad of the last line, which nothing ended, if it has one. The reader has then read
    /// nothing again.
    pub fn finish(&mut self) -> Result<Option<Quad>, LineStop>
        requires few { self.old.start + length self.old.part < 2 ^ 64 }
        ensures answer { AnswersEnd result self.old }
        ensures anew { OnOk result (HasRead [] [] self.new) }
        ensures stops { self.new.stopped ≡ stop_of result }
        ensures again { StaysStopped self.old.stopped result self.old self.new }
    {
        if let Some(stop) = self.stopped {
            return Err(stop);
        }
        match read_line(self.alloc, self.part.bytes()) {
            Ok(quad) => {
                self.start = 0;
                self.part.clear();
                Ok(quad)
            }
            Err(halt) => {
                let stop = self.end_stop(halt);
                self.stopped = Some(stop);
                Err(stop)
            }
        }
    }

    /// Why the last line isn't read: where it is bad only because it ends, its end is the bad place.
    fn end_stop(&self, halt: LineHalt) -> LineStop
        requires few { self.now.start + length self.now.part < 2 ^ 64 }
        requires within { IsWithin halt (length self.now.part) }
        ensures { result ≡ end_stop_for self.now.start (length self.now.part) halt }
    {
        let len = self.part.bytes().len();
        match halt {
            LineHalt::Bad(place) if place.open => LineStop::Refused(Fault {
                code: Code::BadLine,
                at: self.start + len as u64,
            }),
            _ => self.stop_at(halt, len),
        }
    }

    /// Reads line by line.
    fn read_lines(&mut self, bytes: &[u8]) -> Result<LineStep, LineStop>
        requires few { self.old.start + length self.old.part + length bytes.now < 2 ^ 64 }
        requires goes_on { self.old.stopped ≡ None }
        ensures answer { AnswersBytes result bytes.now self.old self.new }
        ensures goes_on { self.new.stopped ≡ None }
    {
        let mut count = 0;
        while count < bytes.len() {
            match self.read_on(rest_of(bytes, count)) {
                Ok(step) => {
                    count += step.count;
                    if step.quad.is_some() {
                        return Ok(LineStep {
                            count,
                            quad: step.quad,
                        });
                    }
                }
                Err(stop) => return Err(stop),
            }
        }
        Ok(LineStep { count, quad: None })
    }

    /// Reads bytes up to and with the first that ends a line, or all of them.
    fn read_on(&mut self, bytes: &[u8]) -> Result<LineStep, LineStop>
        requires few { self.old.start + length self.old.part + length bytes.now < 2 ^ 64 }
        requires goes_on { self.old.stopped ≡ None }
        ensures answer { TakesLine result bytes.now self.old self.new }
        ensures goes_on { self.new.stopped ≡ None }
    {
        match memchr2(b'\n', b'\r', bytes) {
            None => {
                self.part.extend(bytes)?;
                Ok(LineStep {
                    count: bytes.len(),
                    quad: None,
                })
            }
            Some(at) => match self.end_line(&bytes[..at]) {
                Ok(quad) => Ok(LineStep {
                    count: at + 1,
                    quad,
                }),
                Err(stop) => Err(stop),
            },
        }
    }

    /// The quad of the line that ends behind these bytes, if it has one.
    fn end_line(&mut self, bytes: &[u8]) -> Result<Option<Quad>, LineStop>
        requires few { self.old.start + length self.old.part + length bytes.now + 1 < 2 ^ 64 }
        requires in_line { IsInLine bytes.now }
        requires goes_on { self.old.stopped ≡ None }
        ensures answer { EndsLine result bytes.now self.old self.new }
        ensures goes_on { self.new.stopped ≡ None }
    {
        if !self.part.bytes().is_empty() {
            self.part.extend(bytes)?;
            return self.end_part();
        }
        match read_line(self.alloc, bytes) {
            Ok(quad) => {
                self.start += bytes.len() as u64 + 1;
                Ok(quad)
            }
            Err(halt) => Err(self.stop_at(halt, bytes.len())),
        }
    }

    /// The same, where all of the line has come.
    fn end_part(&mut self) -> Result<Option<Quad>, LineStop>
        requires few { self.old.start + length self.old.part + 1 < 2 ^ 64 }
        requires goes_on { self.old.stopped ≡ None }
        ensures answer { EndsLine result [] self.old self.new }
        ensures goes_on { self.new.stopped ≡ None }
    {
        match read_line(self.alloc, self.part.bytes()) {
            Ok(quad) => {
                self.start += self.part.bytes().len() as u64 + 1;
                self.part.clear();
                Ok(quad)
            }
            Err(halt) => Err(self.stop_at(halt, self.part.bytes().len())),
        }
    }

    /// Why the line isn't read, which has this many bytes.
    fn stop_at(&self, halt: LineHalt, len: usize) -> LineStop
        requires few { self.now.start + len < 2 ^ 64 }
        requires within { IsWithin halt len }
        ensures { result ≡ stop_for self.now.start len halt }
    {
        match halt {
            LineHalt::Bad(place) => LineStop::Refused(Fault {
                code: Code::BadLine,
                at: self.start + (len - place.left) as u64,
            }),
            LineHalt::NoMemory => LineStop::NoMemory,
        }
    }
}
