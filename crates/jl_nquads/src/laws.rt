//! What holds of the lines of quads and of the grammar by which they are read.

ghost use Rattle.jl_nquads.specs.Laws.{LinesReadBack};

/// The lines of quads, one after another, read back as these quads, in order, with their labels
/// renamed.
pub fn law_lines()
    ensures { LinesReadBack }
{}
