//! What takes quads.
ghost use Rattle.std.specs.Prelude.{◌≡◌, ◌++◌, [], ◌∷◌, ℕ, List, Bool, OnOk, OnErr, IsErrOf, if◌then◌else◌};
ghost use Rattle.jl_model.specs.Causes.{HasCause};
ghost use Rattle.jl_model.specs.Parts.{Parts};

use super::quads::Quad;

/// Why an out put no quad.
#[derive(Clone, Copy, Debug, PartialEq, Eq)]
pub enum OutStop {
    /// The out failed, and its count of faults has risen.
    Failed,
    NoMemory,
}

/// What takes quads, one after another.
///
/// An out has a test of quads: it keeps those of which the test holds, and passes over the others.
/// The quads kept are told by a relation, so that an out over bytes can tell them by its lines.
pub trait QuadOut {
    /// The test of quads. No call changes it.
    ghost selects: { Self → Parts → Bool };

    /// How often it has failed. The count never falls.
    ghost faults: { Self → ℕ };

    /// These are the quads that it has put. An out that doesn't tell them relates to no list.
    ghost tells: { Self → List Parts → Type 0 };

    /// What stays the same beside the quads that are put.
    ghost beside: { Self → Self → Type 0 };

    /// Puts a quad. After an error it has put nothing whole.
    fn put(&mut self, quad: &Quad) -> Result<(), OutStop>
        ensures selects { (q : Parts) → selects self.new q ≡ selects self.old q }
        ensures put { OnOk result ((quads : List Parts) → tells self.old quads →
            tells self.new (if selects self.old quad.now then quads ++ quad.now ∷ [] else quads)) }
        ensures unput { OnErr result ((quads : List Parts) → tells self.old quads
            → tells self.new quads) }
        ensures cause { HasCause (faults self.old) (faults self.new)
            (IsErrOf result OutStop.Failed) }
        ensures beside { beside self.old self.new };

    ghost itself: { (out : Self) → beside out out };

    ghost joins: { (a b c : Self) → beside a b → beside b c → beside a c };
}
