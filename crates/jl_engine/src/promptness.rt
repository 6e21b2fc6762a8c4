//! When quads are said.
ghost use Rattle.jl_engine.specs.Prompt.{DueIsSaid};

/// Each quad that is due by the bytes that an engine was fed is among those that it has said, where
/// some accepted document of the forms that are built begins with these bytes.
pub fn law_due_is_said()
    ensures { DueIsSaid }
{}
