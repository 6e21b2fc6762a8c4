//! What values are read as.
ghost use Rattle.std.specs.Prelude.{◌≡◌};
ghost use Rattle.jl_frames.specs.ReadAs.{read_as, read_under};

use super::keywords::Keyword;
use super::nodes::Pending;
use super::states::StackState;

/// What the value that comes next is read as.
#[derive(Clone, Copy, Debug, PartialEq, Eq)]
pub enum ReadAs {
    /// As an item of the document, outside of all properties.
    Item,
    /// As the value of a property.
    Property,
    /// As a type.
    Types,
    /// As the value of another keyword.
    Keyword,
    /// It is dropped.
    Nothing,
}

impl StackState {
    /// What the value that comes next is read as.
    #[inline(always)]
    pub(crate) fn reads_as(&self) -> ReadAs
        ensures { result ≡ read_as self.now }
    {
        if self.opens.is_in_dropped() {
            return ReadAs::Nothing;
        }
        match &self.node {
            None => ReadAs::Item,
            Some(node) => node.node().pending.reads_as(),
        }
    }
}

impl Pending {
    /// What the value of this key is read as.
    #[inline(always)]
    fn reads_as(&self) -> ReadAs
        ensures { result ≡ read_under self.now }
    {
        match self {
            Pending::Property(_) => ReadAs::Property,
            Pending::Keyword { keyword, .. } => match keyword {
                Keyword::Kind => ReadAs::Types,
                _ => ReadAs::Keyword,
            },
            Pending::Ignored | Pending::Nothing => ReadAs::Nothing,
        }
    }
}
