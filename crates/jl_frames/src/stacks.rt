//! The stack.
ghost use Rattle.std.specs.Prelude.{◌≡◌, true, false, Ok, Err, None, Some, IfOk, IfErr, IfSome, IsErr};
ghost use Rattle.jl_frames.specs.Answers.{AnswersAgain, HasCause, IsBuilt, IsRefusal, after_stop, is_built_key};
ghost use Rattle.jl_frames.specs.Machine as spec;
ghost use Rattle.jl_frames.specs.Nodes.{text_fact};
ghost use Rattle.jl_frames.specs.ReadAs.{read_as};

use super::emits::Emits;
use super::facts::{Frame, KeyFact, ValueFact};
use super::opens::Opens;
use super::reads::ReadAs;
use super::spares::Spare;
use super::states::{FrameStop, StackState};
use jl_model::{NoMemory, Text};
use std::alloc::Global;
use std::marker::Model;

/// The stack of open containers: it is told a document fact by fact, and gives the quads that each
/// fact brings.
///
/// After an error each call answers it again, and the stack stays as it is.
#[derive(Debug, Drop)]
pub struct Stack {
    state: StackState,
    /// Memory for what comes next.
    spare: Spare,
}

impl Model for Stack {
    ghost use Rattle.jl_frames.specs.declared.states.StackState.{StackState};

    ghost Value = { StackState };

    ghost view = { λ stack. stack.state };
}

impl Stack {
    /// A stack before the first fact. It takes no memory.
    pub fn new(alloc: Global) -> Stack
        ensures { result ≡ spec.start }
    {
        Stack {
            state: StackState {
                node: None,
                opens: Opens::empty(alloc),
                stopped: None,
                short: false,
            },
            spare: Spare::none(alloc),
        }
    }

    /// A stack that goes on from all that another one kept: every state is one that a stack may
    /// have. It takes no memory.
    pub fn from_state(state: StackState) -> Option<Stack>
        ensures { result ≡ Some state }
    {
        let spare = Spare::none(state.opens.allocator());
        Some(Stack { state, spare })
    }

    /// All that it keeps.
    pub fn state(&self) -> &StackState
        ensures { result.now ≡ self.now }
    {
        &self.state
    }

    /// What the value that comes next is read as.
    #[inline(always)]
    pub fn reads_as(&self) -> ReadAs
        ensures { result ≡ read_as self.now }
    {
        self.state.reads_as()
    }

    /// A container opens, in one of the roles that are built.
    #[tactic(auto, unfolding(crate::specs::Machine::enter))]
    pub fn enter(&mut self, frame: Frame) -> Result<Emits, FrameStop>
        requires built { IsBuilt frame.role }
        ensures goes { IfOk result (λ quads. spec.enter frame self.old ≡ Ok (quads, self.new)) }
        ensures stops { IfErr result (λ stop. HasCause stop (spec.enter frame self.old)) }
        ensures after { IfErr result (λ stop. self.new ≡ after_stop stop self.old) }
        ensures again { AnswersAgain self.old result self.new }
    {
        if let Some(stop) = self.state.again() {
            return Err(stop);
        }
        let entered = self.state.on_enter(&mut self.spare, frame);
        self.state.told(entered)
    }

    /// A key of the innermost object, of a form that is built. It takes no memory.
    #[tactic(auto, unfolding(crate::specs::Machine::key))]
    pub fn key(&mut self, key: KeyFact) -> Result<Emits, FrameStop>
        requires built { is_built_key key.expanded ≡ true }
        ensures goes { IfOk result (λ quads. spec.key key self.old ≡ Ok (quads, self.new)) }
        ensures stops { IfErr result (λ stop. HasCause stop (spec.key key self.old)) }
        ensures refusal { self.old.short ≡ false → IfErr result (λ stop. IsRefusal stop) }
        ensures after { IfErr result (λ stop. self.new ≡ after_stop stop self.old) }
        ensures again { AnswersAgain self.old result self.new }
    {
        if let Some(stop) = self.state.again() {
            return Err(stop);
        }
        let told = self.state.on_key(&mut self.spare, key);
        self.state.told(told)
    }

    /// A scalar.
    #[tactic(auto, unfolding(crate::specs::Machine::scalar))]
    pub fn scalar(&mut self, alloc: Global, value: ValueFact) -> Result<Emits, FrameStop>
        ensures goes { IfOk result (λ quads. spec.scalar value self.old ≡ Ok (quads, self.new)) }
        ensures stops { IfErr result (λ stop. HasCause stop (spec.scalar value self.old)) }
        ensures after { IfErr result (λ stop. self.new ≡ after_stop stop self.old) }
        ensures again { AnswersAgain self.old result self.new }
    {
        if let Some(stop) = self.state.again() {
            return Err(stop);
        }
        let given = self.state.on_scalar(alloc, &mut self.spare, value);
        self.state.told(given)
    }

    /// A string at this place, where the value of a property is read.
    #[tactic(auto, unfolding(crate::specs::Machine::scalar))]
    pub fn text(&mut self, alloc: Global, at: u64, text: &[u8]) -> Result<Emits, FrameStop>
        ensures goes { IfOk result (λ quads.
            spec.scalar (text_fact at text.now) self.old ≡ Ok (quads, self.new)) }
        ensures stops { IfErr result (λ stop.
            HasCause stop (spec.scalar (text_fact at text.now) self.old)) }
        ensures after { IfErr result (λ stop. self.new ≡ after_stop stop self.old) }
        ensures again { AnswersAgain self.old result self.new }
    {
        if let Some(stop) = self.state.again() {
            return Err(stop);
        }
        let given = self.state.on_text(alloc, &mut self.spare, at, text);
        self.state.told(given)
    }

    /// A text of these bytes, in the memory of a key that has ended, where there is one.
    #[inline(always)]
    pub fn text_of(&mut self, alloc: Global, bytes: &[u8]) -> Result<Text, NoMemory>
        ensures text { IfOk result (λ text. text ≡ bytes.now) }
        ensures same { self.new ≡ self.old }
    {
        self.spare.text(alloc, bytes)
    }

    /// Takes back the quads of a fact once they have been put: their memory serves again.
    #[inline(always)]
    pub fn keep(&mut self, emits: Emits)
        ensures { self.new ≡ self.old }
    {
        self.spare.keep(emits.into_room());
    }

    /// The innermost container closes.
    #[tactic(auto, unfolding(crate::specs::Machine::close))]
    pub fn close(&mut self, alloc: Global) -> Result<Emits, FrameStop>
        ensures goes { IfOk result (λ quads. spec.close self.old ≡ Ok (quads, self.new)) }
        ensures stops { IfErr result (λ stop. HasCause stop (spec.close self.old)) }
        ensures after { IfErr result (λ stop. self.new ≡ after_stop stop self.old) }
        ensures again { AnswersAgain self.old result self.new }
    {
        if let Some(stop) = self.state.again() {
            return Err(stop);
        }
        let closed = self.state.on_close(alloc, &mut self.spare);
        self.state.told(closed)
    }
}
