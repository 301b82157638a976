// What a process has still to run: a stack of places in routines, each with the scope in which its statements run.
ghost use Rattle.std.specs.Prelude.{◌≡◌, ◌∷◌, ◌<◌, [], ℕ, Option, None, Some, true, drop, reverse, length, nat_le, OnOk, IfOk, IfSome, IfNone};
ghost use Rattle.sv_value.specs.declared.place.Place.{Place};
ghost use Rattle.sv_value.specs.declared.val.Val.{Val};
ghost use Rattle.sv_flat.specs.declared.design.Parts.{Parts};
ghost use Rattle.sv_flat.specs.Process.{body_in};
ghost use Rattle.sv_flat.specs.State.{Name};
ghost use Rattle.sv_built.specs.Positions.{stmt_at};
ghost use Rattle.sv_flat.specs.Statements.Jumps.{open_calls};
ghost use Rattle.sv_stack.specs.declared.frames.Frame.TheVariants.{Rest};
ghost use Rattle.sv_stack.specs.Calls.{called_at, end_at, end_of_call};
ghost use Rattle.sv_stack.specs.Frames.{todos_in, todos_of, turn_at, turns_at, elements_at, put_at, children_at, scope_in, ends_in, is_end, is_more, is_rest, passed_in, begins_with_rest, passed, IsFirst, IsSettled};

use crate::routines::{call_of, subroutine_of};
use smallvec::SmallVec;
use std::alloc::Global;
use std::marker::Model;
use sv_arena::Name;
use sv_built::{Design, Position};
use sv_flat::{Call, CallForm, Form};
use sv_value::{NoMemory, RoutineId, Val};

/// Something that a process has still to run, in a scope.
pub enum Frame {
    /// The statements of a routine from a place on.
    Rest {
        at: Position,
        scope: Option<Name>,
    },
    /// The next test of the `while` or `forever` at a position, which was entered.
    Loop {
        at: Position,
        scope: Option<Name>,
    },
    /// So many turns of the `repeat` at a position.
    Turns {
        at: Position,
        left: u64,
        scope: Option<Name>,
    },
    /// The walk of the `foreach` at a position, after so many elements of a fixed array.
    Elements {
        at: Position,
        next: u64,
        scope: Option<Name>,
    },
    /// What is left of the `a = #d e` at a position.
    Put {
        at: Position,
        value: Val,
        scope: Option<Name>,
    },
    /// The children of the fork at a position, whose initializers have run.
    Children {
        at: Position,
        scope: Option<Name>,
    },
    /// The statement at a position, of whose calls so many were made.
    Called {
        at: Position,
        made: usize,
        /// What its branches and bodies see.
        outer: Option<Name>,
        /// The activation of its hidden variables, once it is made.
        hidden: Option<Name>,
    },
    /// The end of a call of the statement at a position: of the one with this number before it, or of the call that it is.
    Leave {
        at: Position,
        number: Option<usize>,
        /// The activation of the call, if it has one.
        callee: Option<Name>,
        /// What the caller sees.
        caller: Option<Name>,
    },
}

/// What stands in the room of a stack that is not used.
impl Default for Frame {
    fn default() -> Self {
        Frame::Rest {
            at: Position {
                routine: RoutineId(0),
                place: 0,
            },
            scope: None,
        }
    }
}

impl Drop for Frame {
    fn drop(self) {
        match self {
            Frame::Rest { at: _, scope: _ } => {}
            Frame::Loop { at: _, scope: _ } => {}
            Frame::Turns {
                at: _,
                left: _,
                scope: _,
            } => {}
            Frame::Elements {
                at: _,
                next: _,
                scope: _,
            } => {}
            Frame::Put {
                at: _,
                value: _,
                scope: _,
            } => {}
            Frame::Children { at: _, scope: _ } => {}
            Frame::Called {
                at: _,
                made: _,
                outer: _,
                hidden: _,
            } => {}
            Frame::Leave {
                at: _,
                number: _,
                callee: _,
                caller: _,
            } => {}
        }
    }
}

/// What a process has still to run, innermost last. It is seen as the list of its entries, innermost first. Most processes have one
/// or two, which need no memory of their own.
#[derive(Drop)]
pub struct Frames {
    stack: SmallVec<Frame, 2>,
    /// How many of the entries end calls.
    calls: usize,
}

impl Model for Frames {
    ghost use Rattle.std.specs.Prelude.{◌≡◌, List, reverse};
    ghost use Rattle.sv_stack.specs.declared.frames.Frame.{Frame};
    ghost use Rattle.sv_stack.specs.Frames.{ends_of};

    ghost Value = { List Frame };

    ghost view = { λ f. reverse f.stack.items };

    ghost invariant = { λ f. f.calls ≡ ends_of (reverse f.stack.items) };
}

impl Frames {
    /// At the beginning of a routine, in a scope.
    #[tactic(auto, using(crate::proofs::FrameLemmas::begun))]
    pub fn new(alloc: Global, routine: RoutineId, scope: Option<Name>) -> Result<Self, NoMemory>
        ensures entry { IfOk result (λ f. f ≡ Rest (record { routine = routine; place = 0 }) scope ∷ []) }
        ensures todos { IfOk result (λ f. (d : Parts) → todos_of d f ≡ body_in d routine scope) }
    {
        let mut stack = SmallVec::new(alloc);
        stack.push(Frame::Rest {
            at: Position { routine, place: 0 },
            scope,
        })?;
        Ok(Frames { stack, calls: 0 })
    }

    /// Nothing is left.
    pub fn clear(&mut self)
        ensures { self.new ≡ [] }
    {
        self.stack.clear();
        self.calls = 0;
    }

    /// From the beginning of a routine, outside of all activations, with nothing else left.
    #[tactic(auto, using(crate::proofs::FrameLemmas::begun))]
    pub fn begin(&mut self, routine: RoutineId) -> Result<(), NoMemory>
        ensures entry { OnOk result (self.new ≡ Rest (record { routine = routine; place = 0 }) None ∷ []) }
        ensures todos { OnOk result ((d : Parts) → todos_of d self.new ≡ body_in d routine None) }
    {
        self.clear();
        self.enter(routine, None)?;
        Ok(())
    }

    /// An entry comes before the others.
    pub fn push(&mut self, frame: Frame) -> Result<(), NoMemory>
        ensures { OnOk result (self.new ≡ frame ∷ self.old) }
    {
        let ends = ends_in(&frame);
        self.stack.push(frame)?;
        let _entries = self.stack.len();
        self.calls += ends;
        Ok(())
    }

    /// Takes the entry that comes first.
    pub fn pop(&mut self) -> Option<Frame>
        ensures some { IfSome result (λ f. self.old ≡ f ∷ self.new) }
        ensures none { IfNone result ((self.old ≡ []) × (self.new ≡ [])) }
        ensures fewer { IfSome result (λ _. length self.new < length self.old) }
    {
        let frame = self.stack.pop()?;
        self.calls -= ends_in(&frame);
        Some(frame)
    }

    /// A routine comes before the others, to run in a scope.
    pub fn enter(&mut self, routine: RoutineId, scope: Option<Name>) -> Result<(), NoMemory>
        ensures { OnOk result (self.new ≡ Rest (record { routine = routine; place = 0 }) scope ∷ self.old) }
    {
        self.push(Frame::Rest {
            at: Position { routine, place: 0 },
            scope,
        })
    }

    /// Drops the entries of which nothing is left.
    #[inline(always)]
    pub fn settle(&mut self, design: &Design)
        ensures same { todos_of design.now self.new ≡ todos_of design.now self.old }
        ensures settled { IsSettled design.now self.new }
    {
        settle(self, design);
    }

    /// The entry that comes first.
    #[inline(always)]
    #[tactic(auto, using(crate::proofs::FrameLemmas::first_entry))]
    pub fn first(&self) -> Option<&Frame>
        ensures some { IfSome result (λ f. (d : Parts) → IsFirst d f.now (todos_of d self.now)) }
        ensures none { IfNone result (self.now ≡ []) }
    {
        self.innermost()
    }

    /// The innermost entry.
    #[inline(always)]
    fn innermost(&self) -> Option<&Frame>
        ensures some { IfSome result (λ f. self.now ≡ f.now ∷ drop 1 self.now) }
        ensures none { IfNone result (self.now ≡ []) }
    {
        last_of(&self.stack)
    }

    /// Moves on to the next place, where the entry that comes first is the rest of a routine. Memory is wanting where that place has no number.
    #[inline(always)]
    fn pass_place(&mut self) -> Result<bool, NoMemory>
        ensures passed { OnOk result (self.new ≡ passed self.old) }
        ensures rest { IfOk result (λ b. b ≡ begins_with_rest self.old) }
    {
        let Some(last) = self.stack.len().checked_sub(1) else {
            return Ok(false);
        };
        match self.stack.get_mut(last) {
            Some(frame) => pass(frame),
            None => Ok(false),
        }
    }

    /// Leaves what comes first.
    #[inline(always)]
    pub fn leave_first(&mut self, design: &Design) -> Result<(), NoMemory>
        ensures { OnOk result (todos_of design.now self.new ≡ drop 1 (todos_of design.now self.old)) }
    {
        settle(self, design);
        leave_top(self, design)
    }

    /// Whether no other call may be opened.
    #[tactic(auto, using(crate::proofs::DepthLemmas::few_calls))]
    pub fn is_deep(&self, design: &Design) -> bool
        ensures { result ≡ nat_le 1000 (open_calls (todos_of design.now self.now)) }
    {
        if self.calls < 1000 {
            return false;
        }
        1000 <= open_calls(self.stack.as_slice(), design)
    }

    /// Whether something is left.
    #[inline(always)]
    #[tactic(auto, using(crate::proofs::FrameLemmas::more_left, crate::proofs::FrameLemmas::none_left))]
    pub fn is_more(&mut self, design: &Design) -> bool
        ensures same { todos_of design.now self.new ≡ todos_of design.now self.old }
        ensures more { result ≡ is_more (todos_of design.now self.new) }
    {
        settle(self, design);
        match self.innermost() {
            Some(_) => true,
            None => false,
        }
    }
}

/// One for an entry that ends a call.
fn ends_in(frame: &Frame) -> usize
    ensures { result ≡ ends_in frame.now }
{
    match frame {
        Frame::Leave { .. } => 1,
        _ => 0,
    }
}

/// Whether something is left of an entry.
#[tactic(auto, using(crate::proofs::FrameLemmas::more_rest))]
fn is_live(frame: &Frame, design: &Design) -> bool
    ensures { result ≡ is_more (todos_in design.now frame.now) }
{
    match frame {
        Frame::Rest { at, .. } => at.place < design.body(at.routine).len(),
        Frame::Loop { at, .. } => is_stmt(design, *at),
        Frame::Turns { at, .. } => is_repeat(design, *at),
        Frame::Elements { at, .. } => is_stmt(design, *at),
        Frame::Put { at, .. } => is_put(design, *at),
        Frame::Children { at, .. } => is_fork(design, *at),
        Frame::Called { at, .. } => is_stmt(design, *at),
        Frame::Leave { at, number, .. } => is_call(design, *at, *number),
    }
}

/// Whether a statement stands there.
pub fn is_stmt(design: &Design, at: Position) -> bool
    ensures turn { (scope : Option Name) → result ≡ is_more (turn_at (stmt_at design.now at) scope) }
    ensures elements { (n : ℕ) (scope : Option Name) → result ≡ is_more (elements_at (stmt_at design.now at) n scope) }
    ensures called { (n : ℕ) (outer : Option Name) (hidden : Option Name) → result ≡ is_more (called_at (stmt_at design.now at) n outer hidden) }
{
    match design.body(at.routine).get(at.place) {
        Some(_) => true,
        None => false,
    }
}

/// Whether a `repeat` stands there.
pub fn is_repeat(design: &Design, at: Position) -> bool
    ensures { (n : ℕ) (scope : Option Name) → result ≡ is_more (turns_at (stmt_at design.now at) n scope) }
{
    match design.body(at.routine).get(at.place) {
        Some(stmt) => match &stmt.form {
            Form::Repeat { .. } => true,
            _ => false,
        },
        None => false,
    }
}

/// Whether an `a = #d e` stands there.
fn is_put(design: &Design, at: Position) -> bool
    ensures { (x : Val) (scope : Option Name) → result ≡ is_more (put_at (stmt_at design.now at) x scope) }
{
    match design.body(at.routine).get(at.place) {
        Some(stmt) => match &stmt.form {
            Form::AssignAfter { .. } => true,
            _ => false,
        },
        None => false,
    }
}

/// Whether a fork stands there.
fn is_fork(design: &Design, at: Position) -> bool
    ensures { (scope : Option Name) → result ≡ is_more (children_at (stmt_at design.now at) scope) }
{
    match design.body(at.routine).get(at.place) {
        Some(stmt) => match &stmt.form {
            Form::Fork { .. } => true,
            _ => false,
        },
        None => false,
    }
}

/// Whether a call of a subroutine stands there: of this number before the statement, or the statement itself.
fn is_call(design: &Design, at: Position, number: Option<usize>) -> bool
    ensures { (callee : Option Name) (caller : Option Name) → result ≡ is_more (end_at design.now (stmt_at design.now at) number callee caller) }
{
    match design.body(at.routine).get(at.place) {
        Some(stmt) => match call_of(stmt, number) {
            Some(call) => calls_subroutine(design, call),
            None => false,
        },
        None => false,
    }
}

/// Whether a call is one of a subroutine.
fn calls_subroutine(design: &Design, call: &Call) -> bool
    ensures { (at : Place) (callee : Option Name) (caller : Option Name) → result ≡ is_more (end_of_call design.now at (Some call.now) callee caller) }
{
    match &call.form {
        CallForm::Routine {
            routine,
            through,
            ..
        } => match through {
            None => match subroutine_of(design, *routine) {
                Some(_) => true,
                None => false,
            },
            Some(_) => false,
        },
        _ => false,
    }
}

/// Whether an entry is the end of a call.
pub fn is_end(frame: &Frame, design: &Design) -> bool
    ensures { result ≡ is_end design.now frame.now }
{
    match frame {
        Frame::Leave { at, number, .. } => is_call(design, *at, *number),
        _ => false,
    }
}

/// How many calls are open.
fn open_calls(stack: &[Frame], design: &Design) -> usize
    ensures { result ≡ open_calls (todos_of design.now (reverse stack.now)) }
{
    let mut open = 0;
    for frame in stack {
        if is_end(frame, design) {
            open += 1;
        }
    }
    open
}

/// Whether something is left of the entry that comes first. The rest of a routine, which comes first most often, is asked here.
#[inline(always)]
#[tactic(auto, using(crate::proofs::FrameLemmas::settled_first, crate::proofs::FrameLemmas::more_rest))]
fn is_settled(frames: &Frames, design: &Design) -> bool
    ensures { result ≡ true → IsSettled design.now frames.now }
{
    match frames.innermost() {
        Some(Frame::Rest { at, .. }) => at.place < design.body(at.routine).len(),
        Some(top) => is_live(top, design),
        None => false,
    }
}

/// Drops the entries of which nothing is left.
#[inline(always)]
fn settle(frames: &mut Frames, design: &Design)
    ensures same { todos_of design.now frames.new ≡ todos_of design.now frames.old }
    ensures settled { IsSettled design.now frames.new }
{
    if is_settled(frames, design) {
        return;
    }
    drop_done(frames, design);
}

/// Drops the entries of which nothing is left, one after another.
#[inline(never)]
#[tactic(auto, using(crate::proofs::FrameLemmas::settled_first, crate::proofs::FrameLemmas::settled_none))]
fn drop_done(frames: &mut Frames, design: &Design)
    ensures same { todos_of design.now frames.new ≡ todos_of design.now frames.old }
    ensures settled { IsSettled design.now frames.new }
{
    while let Some(top) = frames.innermost() {
        if is_live(top, design) {
            return;
        }
        frames.pop();
    }
}

/// The last entry of a stack.
#[inline(always)]
#[tactic(auto, using(crate::proofs::FrameLemmas::last_first, crate::proofs::FrameLemmas::no_entry))]
fn last_of(stack: &SmallVec<Frame, 2>) -> Option<&Frame>
    ensures some { IfSome result (λ f. reverse stack.now.items ≡ f.now ∷ drop 1 (reverse stack.now.items)) }
    ensures none { IfNone result (reverse stack.now.items ≡ []) }
{
    stack.as_slice().last()
}

/// The scope in which the statements of an entry run.
pub fn scope_in(frame: &Frame) -> Option<Name>
    ensures { result ≡ scope_in frame.now }
{
    match frame {
        Frame::Rest { scope, .. } => *scope,
        Frame::Loop { scope, .. } => *scope,
        Frame::Turns { scope, .. } => *scope,
        Frame::Elements { scope, .. } => *scope,
        Frame::Put { scope, .. } => *scope,
        Frame::Children { scope, .. } => *scope,
        Frame::Called { outer, hidden, .. } => match hidden {
            Some(name) => Some(*name),
            None => *outer,
        },
        Frame::Leave { callee, .. } => *callee,
    }
}

/// Moves the rest of a routine on to its next place, and tells whether it is one. Memory is wanting where that place has no number.
#[inline(always)]
fn pass(frame: &mut Frame) -> Result<bool, NoMemory>
    ensures passed { OnOk result (frame.new ≡ passed_in frame.old) }
    ensures rest { IfOk result (λ b. b ≡ is_rest frame.old) }
    ensures ends { ends_in frame.new ≡ ends_in frame.old }
{
    match frame {
        Frame::Rest { at, .. } => {
            let Some(place) = at.place.checked_add(1) else {
                return Err(NoMemory::Memory);
            };
            at.place = place;
            Ok(true)
        }
        _ => Ok(false),
    }
}

/// Leaves what comes first. Memory is wanting where no number is left for the next place.
#[inline(always)]
#[tactic(auto, using(crate::proofs::FrameLemmas::left_rest, crate::proofs::FrameLemmas::left_loop, crate::proofs::FrameLemmas::left_turns, crate::proofs::FrameLemmas::left_elements, crate::proofs::FrameLemmas::left_put, crate::proofs::FrameLemmas::left_children, crate::proofs::FrameLemmas::left_called, crate::proofs::FrameLemmas::left_end))]
fn leave_top(frames: &mut Frames, design: &Design) -> Result<(), NoMemory>
    requires { IsSettled design.now frames.old }
    ensures { OnOk result (todos_of design.now frames.new ≡ drop 1 (todos_of design.now frames.old)) }
{
    let _ = design;
    if frames.pass_place()? {
        return Ok(());
    }
    let _ = frames.pop();
    Ok(())
}
