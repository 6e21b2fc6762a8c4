//! From lines of quads to JSON-LD.
ghost use Rattle.std.specs.Prelude.{◌≡◌, ◌+◌, ◌-◌, ◌<◌, ◌^◌, ℕ, List, [], None, Option, IfSome, length, IsErrOf, OnOk};
ghost use Rattle.jl_model.specs.Causes.{HasCause};
ghost use Rattle.jl_top.specs.Conversions.{Converts, AnswersPiece, AnswersEnd};
ghost use Rattle.jl_top.specs.ConversionSteps.{TakesBytes, AnswersStep, AnswersQuad, AnswersLast, ClosesText, line_stop_for, write_stop_for};

use jl_engine::Stop;
use jl_io::ByteOut;
use jl_model::Quad;
use jl_nquads::{LineReader, LineStep, LineStop};
use jl_writer::{WriteStop, Writer};
use std::alloc::Global;

/// A reading of lines of quads that writes them as JSON-LD.
#[derive(Drop)]
pub struct Conversion {
    pub reader: LineReader,
    pub writer: Writer,
    /// How many quads were read, up to 2^64 - 1.
    pub quads: u64,
}

impl Conversion {
    /// A conversion that has read nothing. It takes no memory.
    pub fn new(alloc: Global) -> Conversion
        ensures { (before : Option (List ℕ)) → IfSome before (λ told. told ≡ []) → Converts
            before [] [] result before }
    {
        Conversion {
            reader: LineReader::new(alloc),
            writer: Writer::new(alloc),
            quads: 0,
        }
    }

    /// Reads a piece of the lines, and puts what the quads of those that end in it add to the text.
    pub fn convert<B: ByteOut>(&mut self, piece: &[u8], out: &mut B) -> Result<(), Stop>
        requires few { self.old.reader.start + length self.old.reader.part + length piece.now < 2 ^
            64 }
        requires goes_on { self.old.writer.stopped ≡ None }
        ensures answer { AnswersPiece result piece.now self.old self.new (B.written out.old)
            (B.written out.new) }
        ensures goes_on { OnOk result (self.new.writer.stopped ≡ None) }
        ensures cause { HasCause (B.put_faults out.old) (B.put_faults out.new)
            (IsErrOf result Stop.OutFault) }
        ensures beside { B.beside out.old out.new }
    {
        let mut at = 0;
        while at < piece.len() {
            match self.take(&piece[at..], out) {
                Ok(count) => at += count,
                Err(stop) => return Err(stop),
            }
        }
        Ok(())
    }

    /// Reads the end of the lines, and closes the text.
    pub fn finish<B: ByteOut>(&mut self, out: &mut B) -> Result<(), Stop>
        requires few { self.old.reader.start + length self.old.reader.part < 2 ^ 64 }
        requires goes_on { self.old.writer.stopped ≡ None }
        ensures answer { AnswersEnd result self.old self.new (B.written out.old) (B.written out.new) }
        ensures cause { HasCause (B.put_faults out.old) (B.put_faults out.new)
            (IsErrOf result Stop.OutFault) }
        ensures beside { B.beside out.old out.new }
    {
        match self.reader.finish() {
            Ok(Some(quad)) => self.put_last(&quad, out),
            Ok(None) => self.close(out),
            Err(stop) => Err(stop_of_line(stop)),
        }
    }

    /// Reads bytes up to and with the first that ends a line with a quad, or all, puts what the quad
    /// adds to the text, and says how many bytes these are.
    fn take<B: ByteOut>(&mut self, bytes: &[u8], out: &mut B) -> Result<usize, Stop>
        requires few { self.old.reader.start + length self.old.reader.part + length bytes.now < 2 ^
            64 }
        requires goes_on { self.old.writer.stopped ≡ None }
        ensures answer { TakesBytes result bytes.now self.old self.new (B.written out.old)
            (B.written out.new) }
        ensures goes_on { OnOk result (self.new.writer.stopped ≡ None) }
        ensures cause { HasCause (B.put_faults out.old) (B.put_faults out.new)
            (IsErrOf result Stop.OutFault) }
        ensures beside { B.beside out.old out.new }
    {
        match self.reader.read(bytes) {
            Ok(step) => match self.put_step(&step, out) {
                Ok(()) => Ok(step.count),
                Err(stop) => Err(stop),
            },
            Err(stop) => Err(stop_of_line(stop)),
        }
    }

    /// Puts what the quad of the line that ended adds to the text, if one did and has a quad.
    fn put_step<B: ByteOut>(&mut self, step: &LineStep, out: &mut B) -> Result<(), Stop>
        requires goes_on { self.old.writer.stopped ≡ None }
        ensures answer { AnswersStep result step.now.quad self.old self.new (B.written out.old)
            (B.written out.new) }
        ensures goes_on { OnOk result (self.new.writer.stopped ≡ None) }
        ensures cause { HasCause (B.put_faults out.old) (B.put_faults out.new)
            (IsErrOf result Stop.OutFault) }
        ensures beside { B.beside out.old out.new }
    {
        match &step.quad {
            Some(quad) => self.put(quad, out),
            None => Ok(()),
        }
    }

    /// Puts what the last quad adds to the text, and closes it.
    fn put_last<B: ByteOut>(&mut self, quad: &Quad, out: &mut B) -> Result<(), Stop>
        requires goes_on { self.old.writer.stopped ≡ None }
        ensures answer { AnswersLast result quad.now self.old self.new (B.written out.old)
            (B.written out.new) }
        ensures cause { HasCause (B.put_faults out.old) (B.put_faults out.new)
            (IsErrOf result Stop.OutFault) }
        ensures beside { B.beside out.old out.new }
    {
        match self.put(quad, out) {
            Ok(()) => self.close(out),
            Err(stop) => Err(stop),
        }
    }

    /// Counts a quad, and puts what it adds to the text.
    fn put<B: ByteOut>(&mut self, quad: &Quad, out: &mut B) -> Result<(), Stop>
        requires goes_on { self.old.writer.stopped ≡ None }
        ensures answer { AnswersQuad result quad.now self.old self.new (B.written out.old)
            (B.written out.new) }
        ensures goes_on { OnOk result (self.new.writer.stopped ≡ None) }
        ensures cause { HasCause (B.put_faults out.old) (B.put_faults out.new)
            (IsErrOf result Stop.OutFault) }
        ensures beside { B.beside out.old out.new }
    {
        self.quads = self.quads.saturating_add(1);
        match self.writer.put(quad, out) {
            Ok(()) => Ok(()),
            Err(stop) => Err(stop_of_write(stop)),
        }
    }

    /// Closes the text.
    fn close<B: ByteOut>(&mut self, out: &mut B) -> Result<(), Stop>
        requires goes_on { self.old.writer.stopped ≡ None }
        ensures answer { ClosesText result self.old self.new (B.written out.old) (B.written out.new) }
        ensures cause { HasCause (B.put_faults out.old) (B.put_faults out.new)
            (IsErrOf result Stop.OutFault) }
        ensures beside { B.beside out.old out.new }
    {
        match self.writer.finish(out) {
            Ok(()) => Ok(()),
            Err(stop) => Err(stop_of_write(stop)),
        }
    }
}

fn stop_of_line(stop: LineStop) -> Stop
    ensures { result ≡ line_stop_for stop }
{
    match stop {
        LineStop::Refused(fault) => Stop::Refused(fault),
        LineStop::NoMemory => Stop::NoMemory,
    }
}

fn stop_of_write(stop: WriteStop) -> Stop
    ensures { result ≡ write_stop_for stop }
{
    match stop {
        WriteStop::OutFault => Stop::OutFault,
        WriteStop::NoMemory => Stop::NoMemory,
    }
}
