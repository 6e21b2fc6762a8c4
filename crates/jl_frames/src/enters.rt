//! Containers that open.
ghost use Rattle.std.specs.Prelude.{◌≡◌, ◌∷◌, Some};
ghost use Rattle.jl_frames.specs.Answers.{Goes, Opens, IsLive};
ghost use Rattle.jl_frames.specs.Machine as spec;
ghost use Rattle.jl_frames.specs.Nodes.{opened};
ghost use Rattle.jl_frames.specs.declared.nodes.Node.{Node as SpecNode};

use super::emits::Emits;
use super::facts::Frame;
use super::keywords::Keyword;
use super::nodes::{Node, Pending, wrong_form};
use super::opens::Open;
use super::roles::Role;
use super::spares::Spare;
use super::states::{FrameStop, StackState};

impl StackState {
    /// A container opens.
    pub(crate) fn on_enter(&mut self, spare: &mut Spare, frame: Frame) -> Result<Emits, FrameStop>
        requires live { IsLive self.old }
        ensures { Goes result (spec.on_enter frame self.old.node self.old.opens) self.old self.new }
    {
        if self.opens.is_in_dropped() {
            return self.open_dropped();
        }
        if let Some(node) = &self.node {
            match node.node().pending {
                Pending::Property(_) => {}
                Pending::Keyword { at, keyword } => return self.on_types(at, keyword, frame.role),
                Pending::Nothing | Pending::Ignored => return self.open_dropped(),
            }
        }
        self.on_frame(spare, frame)
    }

    #[inline(always)]
    fn on_frame(&mut self, spare: &mut Spare, frame: Frame) -> Result<Emits, FrameStop>
        requires live { IsLive self.old }
        ensures { Opens result
            (spec.on_frame frame.role frame self.old.node self.old.opens) self.old self.new }
    {
        match frame.role {
            Role::Object => self.open_object(spare, frame),
            Role::Set => self.open_array(),
            _ => self.open_dropped(),
        }
    }

    #[inline(never)]
    fn open_dropped(&mut self) -> Result<Emits, FrameStop>
        requires live { IsLive self.old }
        ensures { Opens result
            (spec.quiet self.old.node (Open.Dropped ∷ self.old.opens)) self.old self.new }
    {
        match self.opens.push(Open::Dropped) {
            Ok(()) => Ok(Emits::none()),
            Err(_) => Err(FrameStop::NoMemory),
        }
    }

    fn open_object(&mut self, spare: &mut Spare, frame: Frame) -> Result<Emits, FrameStop>
        requires live { IsLive self.old }
        ensures { Opens result
            (spec.quiet (Some (opened frame)) (Open.Object self.old.node ∷ self.old.opens))
            self.old self.new }
    {
        let Ok(node) = spare.node(self.opens.allocator(), Node::opened(frame)) else {
            return Err(FrameStop::NoMemory);
        };
        match self.opens.push(Open::Object(self.node.take())) {
            Ok(()) => {
                self.node = Some(node);
                Ok(Emits::none())
            }
            Err(back) => {
                self.node = back.into_node();
                Err(FrameStop::NoMemory)
            }
        }
    }

    fn open_array(&mut self) -> Result<Emits, FrameStop>
        requires live { IsLive self.old }
        ensures { Opens result
            (spec.quiet (spec.all_holding self.old.node) (Open.Array ∷ self.old.opens))
            self.old self.new }
    {
        match self.opens.push(Open::Array) {
            Ok(()) => {
                self.hold();
                Ok(Emits::none())
            }
            Err(_) => Err(FrameStop::NoMemory),
        }
    }

    /// A container opens under a keyword: only an array of types may.
    #[inline(never)]
    fn on_types(&mut self, at: u64, keyword: Keyword, role: Role) -> Result<Emits, FrameStop>
        requires live { IsLive self.old }
        ensures { (n : SpecNode) → self.old.node ≡ Some n → Goes result
            (spec.on_types (spec.opens_types keyword role (spec.in_object self.old.opens))
            at keyword n self.old.opens) self.old self.new }
    {
        if opens_types(keyword, role, self.opens.is_in_object()) {
            self.open_types()
        } else {
            Err(wrong_form(keyword, at))
        }
    }

    fn open_types(&mut self) -> Result<Emits, FrameStop>
        requires live { IsLive self.old }
        ensures { Opens result
            (spec.quiet (spec.all_typed self.old.node) (Open.Array ∷ self.old.opens))
            self.old self.new }
    {
        match self.opens.push(Open::Array) {
            Ok(()) => {
                self.take_types();
                Ok(Emits::none())
            }
            Err(_) => Err(FrameStop::NoMemory),
        }
    }

    fn take_types(&mut self)
        ensures { self.new ≡ record self.old { node = spec.all_typed self.old.node } }
    {
        if let Some(node) = &mut self.node {
            node.take_types();
        }
    }

    /// A property of the innermost object gave something.
    pub(crate) fn hold(&mut self)
        ensures { self.new ≡ record self.old { node = spec.all_holding self.old.node } }
    {
        if let Some(node) = &mut self.node {
            node.hold();
        }
    }
}

fn opens_types(keyword: Keyword, role: Role, in_object: bool) -> bool
    ensures { result ≡ spec.opens_types keyword role in_object }
{
    match keyword {
        Keyword::Kind => match role {
            Role::Set => in_object,
            _ => false,
        },
        _ => false,
    }
}
