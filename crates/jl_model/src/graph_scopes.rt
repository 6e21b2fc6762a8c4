//! The graph in which a node stands.
ghost use Rattle.std.specs.Prelude.{◌≡◌, IfOk};

use super::terms::Term;
use super::texts::NoMemory;
use std::alloc::Global;

/// The graph that takes the quads of a node.
#[derive(Debug, Drop)]
pub enum GraphScope {
    /// A graph whose name isn't well-formed: its quads are left out.
    LeftOut,
    /// The default graph.
    Main,
    /// A named graph.
    Named(Term),
}

impl GraphScope {
    /// An equal scope with memory of its own.
    pub fn copy(&self, alloc: Global) -> Result<GraphScope, NoMemory>
        ensures { IfOk result (λ scope. scope ≡ self.now) }
    {
        match self {
            GraphScope::LeftOut => Ok(GraphScope::LeftOut),
            GraphScope::Main => Ok(GraphScope::Main),
            GraphScope::Named(graph) => Ok(GraphScope::Named(graph.copy(alloc)?)),
        }
    }
}
