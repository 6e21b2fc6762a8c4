//! What is proved of the writer's text.
ghost use Rattle.jl_writer.specs.Laws.{TextReadsBack};

/// The text of well-formed quads can be read, is in the streaming form and is accepted in
/// streaming order, without a base and without contexts that are handed in; and its dataset is the
/// set of these quads, with their labels renamed.
pub fn law_text()
    ensures { TextReadsBack }
{}
