//! What stands behind an engine's relation to what it was fed and what it put.
ghost use Rattle.std.specs.Prelude.{ℕ, List};
ghost use Rattle.jl_model.specs.Parts.{Parts};
ghost use Rattle.jl_defs.specs.Settings.{Settings};
ghost use Rattle.jl_engine.specs.Standing.{Stands, AreSure};
ghost use Rattle.jl_engine.specs.declared.engines.EngineState.{EngineState};

/// What an engine has read so far begins a text, and the quads that it says are of the dataset of
/// each accepted document, of the forms that are built, that begins so.
pub fn law_sure()
    ensures { (s : Settings) (bytes : List ℕ) (quads : List Parts) (e : EngineState)
        → Stands s bytes quads e → AreSure s bytes quads }
{}
