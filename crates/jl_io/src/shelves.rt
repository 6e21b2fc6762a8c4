//! Contents by name, such as files.
ghost use Rattle.std.specs.Prelude.{◌≡◌, ℕ, List, Option, OnOk, OnErr, IsErrOf, Err, Some, None};
ghost use Rattle.jl_model.specs.Causes.{HasCause};
ghost use Rattle.jl_io.specs.Shelves.{Fetches, Asks};

/// Why a shelf gave no content.
#[derive(Clone, Copy, Debug, PartialEq, Eq)]
pub enum FetchStop {
    /// The name isn't there, or the shelf failed. Its count of faults has risen.
    Failed,
    NoMemory,
}

/// What holds contents by name.
pub trait Shelf {
    /// The content of each name, where it tells them. A name that isn't there has none.
    ghost content: { Self → Option (List ℕ → Option (List ℕ)) };

    /// The names asked, one after another, where it tells them.
    ghost asked: { Self → Option (List (List ℕ)) };

    /// How often it has failed. The count never falls.
    ghost faults: { Self → ℕ };

    /// Appends the content of this name to `out`. After an error `out` is as before.
    fn fetch(&mut self, name: &[u8], out: &mut Vec<u8>) -> Result<(), FetchStop>
        ensures ok { OnOk result (Fetches (content self.old) name.now out.old.items out.new.items) }
        ensures err { OnErr result (out.new.items ≡ out.old.items) }
        ensures cause { HasCause (faults self.old) (faults self.new)
            (IsErrOf result FetchStop.Failed) }
        ensures asked { Asks (asked self.old) name.now (asked self.new) result }
        ensures content { content self.new ≡ content self.old };
}

/// A shelf on which nothing stands. It takes no memory, so it doesn't tell the names asked.
#[derive(Debug, Drop)]
pub struct NoShelf {
    faults: u64,
}

impl NoShelf {
    pub fn new() -> NoShelf
        ensures { ⟦<NoShelf as Shelf>⟧.faults result ≡ 0 }
    {
        NoShelf { faults: 0 }
    }
}

impl Shelf for NoShelf {
    ghost content = { λ _. Some (λ _. None) };

    ghost asked = { λ _. None };

    ghost faults = { λ shelf. shelf.faults };

    fn fetch(&mut self, _name: &[u8], _out: &mut Vec<u8>) -> Result<(), FetchStop>
        ensures failed { result ≡ Err FetchStop.Failed }
        ensures out { _out.new.items ≡ _out.old.items }
        ensures rose { HasCause (⟦<NoShelf as Shelf>⟧.faults self.old)
            (⟦<NoShelf as Shelf>⟧.faults self.new) (Unit {0}) }
    {
        self.faults = self.faults.saturating_add(1);
        Err(FetchStop::Failed)
    }
}

#[cfg(test)]
mod tests {
    use super::*;

    #[test]
    fn holds_no_name(rt: HostRuntime) {
        let mut shelf = NoShelf::new();
        let mut out = Vec::new(rt.alloc());
        assert_eq!(rt; shelf.fetch(b"c.txt", &mut out), Err(FetchStop::Failed));
        assert_eq!(rt; out.len(), 0);
    }
}
