//! What takes bytes, and what gives them too.
//!
//! A meaning such as the bytes put is optional: a port over memory tells it, one over a device
//! doesn't. A call changes no meaning that its clauses don't name.
ghost use Rattle.std.specs.Prelude.{◌≡◌, ◌<◌, ◌≤◌, ◌==◌, ◌++◌, ℕ, List, Bool, false, Option, length, take, IfOk, OnErr, IsErr};
ghost use Rattle.jl_model.specs.Causes.{HasCause};
ghost use Rattle.jl_io.specs.Outside.{appended, PutsAtOnce, Leaves, NoneLeft, SaysMore, MayTake, SaysSame};

/// A device failed.
#[derive(Clone, Copy, Debug, PartialEq, Eq)]
pub struct Failed;

/// What takes bytes. Bytes are put once it has taken them.
pub trait ByteOut {
    /// The bytes put, where it tells them.
    ghost written: { Self → Option (List ℕ) };

    /// How often `put` has failed. The count never falls.
    ghost put_faults: { Self → ℕ };

    /// What stays the same beside the bytes that are put.
    ghost beside: { Self → Self → Type 0 };

    /// Takes one byte or more from the front, and tells how many.
    fn put(&mut self, bytes: &[u8]) -> Result<usize, Failed>
        requires { 0 < length bytes.now }
        ensures some { IfOk result (λ n. 0 < n) }
        ensures within { IfOk result (λ n. n ≤ length bytes.now) }
        ensures put { IfOk result (λ n. written self.new
            ≡ appended (written self.old) (take n bytes.now)) }
        ensures unput { OnErr result (written self.new ≡ written self.old) }
        ensures cause { HasCause (put_faults self.old) (put_faults self.new) (IsErr result) }
        ensures beside { beside self.old self.new };

    /// Takes all of these texts, one after another, and says yes; or changes nothing. It is for an
    /// out that has room at hand, and never fails.
    fn put_at_once(&mut self, front: &[u8], text: &[u8], back: &[u8]) -> bool
        ensures put { PutsAtOnce result (front.now ++ (text.now ++ back.now)) (written self.old) (written self.new) }
        ensures faults { put_faults self.new ≡ put_faults self.old }
        ensures beside { beside self.old self.new }
    {
        false
    }

    /// Nothing changes beside a value and itself.
    ghost itself: { (out : Self) → beside out out };

    /// Two steps join to one.
    ghost joins: { (a b c : Self) → beside a b → beside b c → beside a c };
}

/// What gives the input, takes the output, and passes bytes to the standard error.
pub trait Port: ByteOut {
    /// The bytes taken, where it tells them.
    ghost taken: { Self → Option (List ℕ) };

    /// The bytes left, where it tells them.
    ghost left: { Self → Option (List ℕ) };

    /// The bytes said, where it tells them.
    ghost said: { Self → Option (List ℕ) };

    /// Whether the end was told.
    ghost ended: { Self → Bool };

    /// What must hold of the bytes taken and the bytes put before it gives more.
    ghost may_take: { Self → List ℕ → List ℕ → Type 0 };

    /// How often `take` has failed. The count never falls.
    ghost take_faults: { Self → ℕ };

    /// Gives the next bytes into the front of `buf`, and tells how many. None tells the end.
    fn take(&mut self, buf: &mut [u8]) -> Result<usize, Failed>
        requires some { 0 < length buf.old }
        requires open { ended self.old ≡ false }
        requires may { MayTake (may_take self.old) (taken self.old) (Self.written self.old) }

        // The bytes that it gives, and the end.
        ensures within { IfOk result (λ n. n ≤ length buf.new) }
        ensures taken { IfOk result (λ n. taken self.new
            ≡ appended (taken self.old) (take n buf.new)) }
        ensures left { IfOk result (λ n. Leaves (left self.old) (take n buf.new) (left self.new)) }
        ensures end { IfOk result (λ n. ended self.new ≡ (n == 0)) }
        ensures none_left { IfOk result (λ n. n ≡ 0 → NoneLeft (left self.old)) }

        // A failed call takes nothing.
        ensures err_taken { OnErr result (taken self.new ≡ taken self.old) }
        ensures err_left { OnErr result (left self.new ≡ left self.old) }
        ensures err_end { OnErr result (ended self.new ≡ false) }
        ensures cause { HasCause (take_faults self.old) (take_faults self.new) (IsErr result) }

        // What stays.
        ensures may_take { SaysSame (may_take self.old) (may_take self.new) }
        ensures said { said self.new ≡ said self.old }
        ensures written { Self.written self.new ≡ Self.written self.old }
        ensures put_faults { Self.put_faults self.new ≡ Self.put_faults self.old };

    /// Passes bytes to the standard error. A failure of the device is dropped.
    fn say(&mut self, bytes: &[u8])
        ensures said { SaysMore (said self.old) bytes.now (said self.new) }
        ensures taken { taken self.new ≡ taken self.old }
        ensures left { left self.new ≡ left self.old }
        ensures ended { ended self.new ≡ ended self.old }
        ensures may_take { SaysSame (may_take self.old) (may_take self.new) }
        ensures take_faults { take_faults self.new ≡ take_faults self.old }
        ensures written { Self.written self.new ≡ Self.written self.old }
        ensures put_faults { Self.put_faults self.new ≡ Self.put_faults self.old };

    ghost keeps_taken: { (a b : Self) → Self.beside a b → taken b ≡ taken a };

    ghost keeps_left: { (a b : Self) → Self.beside a b → left b ≡ left a };

    ghost keeps_said: { (a b : Self) → Self.beside a b → said b ≡ said a };

    ghost keeps_ended: { (a b : Self) → Self.beside a b → ended b ≡ ended a };

    ghost keeps_take_faults: { (a b : Self) → Self.beside a b → take_faults b ≡ take_faults a };

    ghost keeps_may_take: { (a b : Self) → Self.beside a b → SaysSame (may_take a) (may_take b) };
}
