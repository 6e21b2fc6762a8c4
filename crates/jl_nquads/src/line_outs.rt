//! An out for quads that puts their lines.
ghost use Rattle.std.proofs.Common.{arith, refl, sym, subst, ◌∙◌, inl, inr, append_assoc, append-nil, length-append};
ghost use Rattle.std.proofs.lemmas.Bool.{cases_Bool, false≢true};
ghost use Rattle.std.specs.Prelude.{◌≡◌, ◌+◌, ◌≤◌, true, false, ℕ, List, [], ◌∷◌, ◌++◌, IfSome, OnOk, OnErr, IsErrOf};
ghost use Rattle.jl_io.specs.Outside.{appended};
ghost use Rattle.jl_model.specs.Causes.{HasCause};
ghost use Rattle.jl_model.specs.Lines.{line};
ghost use Rattle.jl_model.specs.Parts.{Parts};
ghost use Rattle.jl_nquads.specs.LineOuts.{TellsLines, FailsByCount, CountsTold, answer_of, lines_after, refused_after};
ghost use Rattle.jl_io.specs.Puts.{PutsFront};

use super::lines::write_line;
use jl_io::ByteOut;
use jl_model::{OutStop, Quad, QuadOut};

/// An out over an out for bytes, to which it puts the line of each quad. Its test always holds.
/// After a failed line each later `put` answers `Failed`.
#[derive(Drop)]
pub struct LineOut<'a, B: ByteOut> {
    pub out: &'a mut B,
    /// Whether a line has failed.
    pub failed: bool,
    /// How many calls were answered `Failed` since then, up to 2^64 - 1.
    pub refused: u64,
    /// How many whole lines were put, up to 2^64 - 1.
    pub lines: u64,
}

impl<'a, B: ByteOut> LineOut<'a, B> {
    /// An out that hasn't failed. It takes no memory.
    pub fn new(out: &'a mut B) -> LineOut<'a, B>
        ensures out { result.out.ghost_name ≡ out.entry.ghost_name }
        ensures out_now { result.out.now ≡ out.old }
        ensures failed { result.failed ≡ false }
        ensures refused { result.refused ≡ 0 }
        ensures lines { result.lines ≡ 0 }
    {
        LineOut {
            out,
            failed: false,
            refused: 0,
            lines: 0,
        }
    }

    /// How many whole lines were put, up to 2^64 - 1. It takes no memory.
    pub fn lines(&self) -> u64
        ensures { result ≡ self.now.lines }
    {
        self.lines
    }
}

impl<'a, B: ByteOut> QuadOut for LineOut<'a, B> {
    ghost selects = { λ _ _. true };

    ghost faults = { λ o. B.put_faults o.out.now + o.refused };

    ghost tells = { λ o quads. IfSome (B.written o.out.now) (TellsLines o.failed quads) };

    ghost beside = { λ a b. (b.out.ghost_name ≡ a.out.ghost_name) × B.beside a.out.now b.out.now
        × FailsByCount a.failed b.failed (B.put_faults a.out.now) (B.put_faults b.out.now) a.refused b.refused
        × CountsTold a.failed b.failed a.lines b.lines (B.written a.out.now) (B.written b.out.now) };

    /// Puts the line of the quad. It takes no memory.
    fn put(&mut self, quad: &Quad) -> Result<(), OutStop>
        // What it puts.
        ensures line { OnOk result (B.written self.new.out.now ≡ appended
            (B.written self.old.out.now) (line quad.now)) }
        ensures cut { OnErr result (PutsFront (B.written self.old.out.now) (line quad.now)
            (B.written self.new.out.now)) }
        ensures untouched { self.old.failed ≡ true → self.new.out.now ≡ self.old.out.now }

        // What it answers, and what it counts.
        ensures answer { result ≡ answer_of self.new.failed }
        ensures lines { self.new.lines ≡ lines_after self.new.failed self.old.lines }
        ensures refused { self.new.refused ≡ refused_after self.old.failed self.old.refused }

        // What every out of quads promises.
        ensures put { OnOk result ((quads : List Parts) → IfSome (B.written self.old.out.now)
            (TellsLines self.old.failed quads) → IfSome (B.written self.new.out.now)
            (TellsLines self.new.failed (quads ++ quad.now ∷ []))) }
        ensures unput { OnErr result ((quads : List Parts) → IfSome (B.written self.old.out.now)
            (TellsLines self.old.failed quads) → IfSome (B.written self.new.out.now)
            (TellsLines self.new.failed quads)) }
        ensures cause { HasCause (B.put_faults self.old.out.now + self.old.refused)
            (B.put_faults self.new.out.now + self.new.refused) (IsErrOf result OutStop.Failed) }
        ensures beside { (self.new.out.ghost_name ≡ self.old.out.ghost_name) × B.beside
            self.old.out.now self.new.out.now
            × FailsByCount self.old.failed self.new.failed (B.put_faults self.old.out.now) (B.put_faults self.new.out.now) self.old.refused self.new.refused
            × CountsTold self.old.failed self.new.failed self.old.lines self.new.lines (B.written self.old.out.now) (B.written self.new.out.now) }
    {
        if self.failed {
            self.refused = self.refused.saturating_add(1);
            return Err(OutStop::Failed);
        }
        match write_line(quad, self.out) {
            Ok(()) => {
                self.lines = self.lines.saturating_add(1);
                Ok(())
            }
            Err(_) => {
                self.failed = true;
                Err(OutStop::Failed)
            }
        }
    }

    ghost itself = { λ a. (
      refl,
      B.itself a.out.now,
      record { stays = λ e. e; later = Prim.omega arith; rose = λ e. inl e; unrefused = λ e. refl },
      record {
        more = [];
        told = λ quads t. subst (λ q. IfSome (B.written a.out.now) (TellsLines a.failed q)) (sym (append-nil quads)) t;
        count = Prim.omega arith;
      },
    ) };

    ghost joins = { λ a b c h k. (
      k.0 ∙ h.0,
      B.joins a.out.now b.out.now c.out.now h.1 k.1,
      record {
        stays = λ e. k.2.stays (h.2.stays e);
        later = Prim.omega (arith, h.2.later, k.2.later);
        rose = λ e. elim (k.2.rose e) [
          | inl f ↦ elim (h.2.rose f) [ inl d ↦ inl d | inr r ↦ inr (Prim.omega (arith, r, k.2.later)) ]
          | inr r ↦ inr (Prim.omega (arith, r, h.2.later))
        ];
        unrefused = λ e. elim (cases_Bool b.failed) [
          | inl f ↦ absurd (false≢true (sym e ∙ k.2.stays f))
          | inr f ↦ k.2.unrefused e ∙ h.2.unrefused f
        ];
      },
      record {
        more = h.3.more ++ k.3.more;
        told = λ quads t. subst (λ q. IfSome (B.written c.out.now) (TellsLines c.failed q)) (append_assoc quads h.3.more k.3.more)
            (k.3.told (quads ++ h.3.more) (h.3.told quads t));
        count = Prim.omega (arith, length-append h.3.more k.3.more, h.3.count, k.3.count);
      },
    ) };
}
