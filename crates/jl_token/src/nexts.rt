//! Bytes up to and with the one that completes a token.
ghost use Rattle.std.specs.Prelude.{◌≡◌, ◌+◌, ◌≤◌, ◌<◌, ◌^◌, length, take, None, Some, Ok, true, false, IfOk, IfErr, OnOk, IsSome};
ghost use Rattle.jl_token.specs.Machine as machine;
ghost use Rattle.jl_token.specs.Lexed.{IsFormed, IsFormedReading, HasOneText, Stops, told};
ghost use Rattle.jl_token.specs.Nexts.{CountsWithin, Reached, read_len, goes_on};

use crate::states::LexState;
use crate::steps::{LexStop, Next, Signs};
use std::alloc::Global;

impl LexState {
    /// Takes a byte, which has a place, and says what it completes.
    #[inline(always)]
    pub(crate) fn take_byte(&mut self, alloc: Global, byte: u8) -> Result<Signs, LexStop>
        requires goes_on { self.old.stopped ≡ None }
        requires formed { IsFormedReading self.old.reading }
        requires room { self.old.reading.at < 2 ^ 40 }
        ensures moves { IfOk result (λ signs.
            machine.moved true 256 self.old.reading byte
            ≡ Ok (told signs self.old.reading.at self.new.reading, self.new.reading)) }
        ensures texts { IfOk result (λ signs. HasOneText signs.number signs.sign) }
        ensures stops { IfErr result (λ stop.
            (self.new.stopped ≡ Some stop) × Stops self.old byte stop) }
        ensures formed { OnOk result (IsFormedReading self.new.reading) }
        ensures place { OnOk result (self.new.reading.at ≡ self.old.reading.at + 1) }
        ensures goes_on { OnOk result (self.new.stopped ≡ None) }
        ensures ended { self.new.ended ≡ self.old.ended }
    {
        let at = self.reading.at;
        let start = self.reading.start;
        match self.reading.move_on(alloc, byte) {
            Ok(signs) => Ok(signs),
            Err(halt) => Err(self.stop(halt.stop(at, start))),
        }
    }

    /// Takes bytes up to and with the first that completes a token. Each of them has a place.
    pub(crate) fn next(&mut self, alloc: Global, bytes: &[u8]) -> Next
        requires goes_on { self.old.stopped ≡ None }
        requires formed { IsFormedReading self.old.reading }
        requires room { self.old.reading.at + length bytes.now ≤ 2 ^ 40 }
        ensures reached { Reached result self.old self.new bytes.now }
        ensures bound { CountsWithin result (length bytes.now) }
        ensures places { self.old.reading.at + read_len result (length bytes.now) ≤ 2 ^ 40 }
        ensures formed { IsFormed self.new }
        ensures place { goes_on result ≡ true
            → self.new.reading.at ≡ self.old.reading.at + read_len result (length bytes.now) }
        ensures goes_on { goes_on result ≡ true → self.new.stopped ≡ None }
        ensures stops { goes_on result ≡ false → IsSome self.new.stopped }
        ensures ended { self.new.ended ≡ self.old.ended }
    {
        let mut count = 0;
        while count < bytes.len() {
            let Ok(run) = self.reading.skip(&bytes[count..]) else {
                self.stop(LexStop::NoMemory);
                return Next::Stopped { count: count + 1 };
            };
            count += run;
            // Where nothing was skipped, a byte is left: the loop has asked.
            if run > 0 && count == bytes.len() {
                return Next::Nothing;
            }
            match self.take_byte(alloc, bytes[count]) {
                Err(_) => return Next::Stopped { count: count + 1 },
                Ok(signs) => {
                    count += 1;
                    if !signs.is_silent() {
                        return Next::Completes { count, signs };
                    }
                }
            }
        }
        Next::Nothing
    }
}
