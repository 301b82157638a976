// What a name with its members and calls can stand for.
ghost use Rattle.std.specs.Prelude.{◌≡◌, Some, IfOk, IfErr};
ghost use Rattle.sv_names.specs.declared.checked.Checked.TheVariants.{Good};
ghost use Rattle.sv_names.specs.declared.refusal.Refusal.TheVariants.{Memory};
ghost use Rattle.sv_names.specs.Expressions as expressions;
ghost use Rattle.sv_names.specs.Given.{Gives, GivesAs};
ghost use Rattle.sv_names.specs.Things as things;
ghost use Rattle.sv_names.specs.Views.{around_in};
ghost use Rattle.sv_elab_name.specs.Things.{thing_in, no_target};

use crate::suffixes::member_of_value;
use crate::value::{bare_method, bare_subroutine, result_value};
use crate::{Calls, signal_named, signal_read, signal_target, value_member};
use std::alloc::Global;
use sv_elab_copies::copy_typed;
use sv_elab_value::values_stand;
use sv_names::{
    Arg, Around, Called, Callee, Checked, Fault, Method, Refusal, SignalInfo, Ty, Typed, where_also,
};
use sv_tree::Name;
use sv_value::{Place, Seq, Text};

/// What a name with its members and calls can stand for. The declarations that it names are those of the scopes around.
pub enum Thing<'a> {
    /// A value.
    Value(Typed),
    /// A subroutine (13), or a method (8.6).
    Subroutine {
        /// Its head.
        callee: &'a Callee,
        /// The object that it is called for.
        object: Option<Typed>,
        /// Whether `super` or `::` names it, so that it is called itself where it is virtual.
        is_direct: bool,
        /// Its name.
        at: Place,
    },
    /// A method of the language (6.16, 6.19, 7.5 to 7.10 and 15).
    Method {
        /// What it does.
        method: Method,
        /// What it is called for, in memory of its own, as the result variable of a function is: else each thing would be larger, for
        /// what is named seldom.
        object: Box<Typed>,
        /// Its name.
        at: Place,
    },
    /// A function inside itself, with its result variable (13.4.1).
    ItsResult {
        /// Its head.
        callee: &'a Callee,
        /// The object that it is called for.
        object: Option<Typed>,
        /// Its result variable, in memory of its own: else each thing would be twice as large, for what is named seldom.
        variable: Box<Typed>,
        /// Its name.
        at: Place,
    },
    /// A clocking block (14.3).
    Block {
        /// Its name from the root.
        path: &'a [Text],
        /// Its signals in order.
        signals: &'a [Checked<SignalInfo>],
        /// Its name.
        at: Place,
    },
    /// A signal of a clocking block (14.3).
    Signal {
        /// The block.
        block: &'a [Text],
        /// The place of the signal in it.
        place: u32,
        /// The signal.
        signal: &'a SignalInfo,
        /// Its name.
        at: Place,
    },
    /// A type, or a class.
    TypeName {
        /// The type.
        ty: Ty,
        /// Its name.
        at: Place,
    },
}

impl Drop for Thing<'_> {
    fn drop(self) {
        match self {
            Thing::Value(_) => {}
            Thing::Subroutine {
                callee: _,
                object: _,
                is_direct: _,
                at: _,
            } => {}
            Thing::Method {
                method: _,
                object: _,
                at: _,
            } => {}
            Thing::ItsResult {
                callee: _,
                object: _,
                variable: _,
                at: _,
            } => {}
            Thing::Block {
                path: _,
                signals: _,
                at: _,
            } => {}
            Thing::Signal {
                block: _,
                place: _,
                signal: _,
                at: _,
            } => {}
            Thing::TypeName { ty: _, at: _ } => {}
        }
    }
}

/// How many hidden variables an object takes.
fn hidden_in_object(object: &Option<Typed>) -> usize
    ensures { result ≡ things.hidden_in_object object.now }
{
    match object {
        None => 0,
        Some(o) => o.code.hidden.as_slice().len(),
    }
}

impl Thing<'_> {
    /// The name that stands for it in a rule.
    pub fn place(&self) -> Place
        ensures { result ≡ things.thing_place (thing_in self.now) }
    {
        match self {
            Thing::Value(t) => t.at,
            Thing::Subroutine { at, .. } => *at,
            Thing::Method { at, .. } => *at,
            Thing::ItsResult { at, .. } => *at,
            Thing::Block { at, .. } => *at,
            Thing::Signal { at, .. } => *at,
            Thing::TypeName { at, .. } => *at,
        }
    }

    /// How many hidden variables stand before the arguments of what is called.
    pub fn hidden_before(&self) -> usize
        ensures { result ≡ things.hidden_before (Good (thing_in self.now)) }
    {
        match self {
            Thing::Value(t) => t.code.hidden.as_slice().len(),
            Thing::Subroutine { object, .. } => hidden_in_object(object),
            Thing::Method { object, .. } => object.code.hidden.as_slice().len(),
            Thing::ItsResult { object, .. } => hidden_in_object(object),
            Thing::Block { .. } => 0,
            Thing::Signal { .. } => 0,
            Thing::TypeName { .. } => 0,
        }
    }

    /// Whether the thing can be called.
    pub fn is_callable(&self) -> bool
        ensures { result ≡ expressions.is_callable (Good (thing_in self.now)) }
    {
        match self {
            Thing::Subroutine { .. } => true,
            Thing::Method { .. } => true,
            Thing::ItsResult { .. } => true,
            Thing::Value(_) => false,
            Thing::Block { .. } => false,
            Thing::Signal { .. } => false,
            Thing::TypeName { .. } => false,
        }
    }

    /// The rule that the thing breaks where it is to be a target and is none, in an expression that begins at the place. E18: it is a
    /// method of the language; E7: it is no value and no method.
    pub fn no_target(&self, place: Place) -> Fault
        ensures { result ≡ no_target place (thing_in self.now) }
    {
        let no_value = Fault {
            at: self.place(),
            rule: 7,
        };
        match self {
            Thing::Method { .. } => Fault {
                at: place,
                rule: 18,
            },
            Thing::Value(_) => no_value,
            Thing::Subroutine { .. } => no_value,
            Thing::ItsResult { .. } => no_value,
            Thing::Block { .. } => no_value,
            Thing::Signal { .. } => no_value,
            Thing::TypeName { .. } => no_value,
        }
    }

    /// What the thing is as a target, in memory of its own; none where it is no target.
    pub fn to_target(&self, alloc: Global, around: &Around) -> Result<Option<Typed>, Refusal>
        ensures ok { IfOk result (λ t. t ≡ expressions.as_target (around_in around.now) (Good (thing_in self.now))) }
        ensures err { IfErr result (λ e. e ≡ Memory) }
    {
        match self {
            Thing::Value(t) => some_copy(alloc, t),
            Thing::ItsResult { variable, .. } => some_copy(alloc, variable),
            Thing::Signal {
                block,
                place,
                signal,
                at,
            } => some_signal(alloc, around, block, *place, signal, *at),
            Thing::Subroutine { .. } => Ok(None),
            Thing::Method { .. } => Ok(None),
            Thing::Block { .. } => Ok(None),
            Thing::TypeName { .. } => Ok(None),
        }
    }
}

/// A target that is there, in memory of its own.
fn some_copy(alloc: Global, t: &Typed) -> Result<Option<Typed>, Refusal>
    ensures ok { IfOk result (λ c. c ≡ Some t.now) }
    ensures err { IfErr result (λ e. e ≡ Memory) }
{
    let t = copy_typed(alloc, t)?;
    Ok(Some(t))
}

/// A signal of a clocking block as a target, which is there.
fn some_signal(
    alloc: Global,
    around: &Around,
    block: &[Text],
    place: u32,
    signal: &SignalInfo,
    at: Place,
) -> Result<Option<Typed>, Refusal>
    ensures ok { IfOk result (λ t. t ≡ Some (things.signal_target (around_in around.now) block.now place signal.now at)) }
    ensures err { IfErr result (λ e. e ≡ Memory) }
{
    let t = signal_target(alloc, around, block, place, signal, at)?;
    Ok(Some(t))
}

// ---- what a thing is taken apart into

impl<'a> Thing<'a> {
    /// The thing as a value, in an expression that begins at the place. E7: it is a clocking block, a type or a function without brackets,
    /// or the result variable of an activation in the initializer of a static one; E47: a signal that is no input; E51: a result variable
    /// is printed later, and does not last; what a call without brackets breaks (13.4.1).
    pub fn value<C: Calls>(
        self,
        alloc: Global,
        around: &Around,
        place: Place,
    ) -> Result<Typed, Refusal>
        ensures { Gives result (things.thing_value (around_in around.now) place (thing_in self.entry)) }
    {
        match self {
            Thing::Value(t) => Ok(t),
            Thing::Subroutine {
                callee,
                object,
                is_direct,
                at,
            } => bare_subroutine::<C>(alloc, around, place, callee, object, is_direct, at),
            Thing::Method {
                method,
                object,
                at: _,
            } => bare_method::<C>(alloc, around, place, method, object),
            Thing::ItsResult {
                callee: _,
                object: _,
                variable,
                at,
            } => result_value(around, at, Box::into_inner(variable)),
            Thing::Block {
                path: _,
                signals: _,
                at,
            } => Err(Refusal::Rule { rule: 7, at }),
            Thing::Signal {
                block,
                place: number,
                signal,
                at,
            } => signal_read(alloc, around, block, number, signal, at),
            Thing::TypeName { ty: _, at } => Err(Refusal::Rule { rule: 7, at }),
        }
    }

    /// What stands behind the thing and a dot, in an expression that begins at the place. E7: the thing is a type; E36: it has no such
    /// member, signal or method; or a rule that it breaks as a value.
    pub fn member<C: Calls>(
        self,
        alloc: Global,
        around: &Around<'a>,
        place: Place,
        name: &Name,
    ) -> Result<Thing<'a>, Refusal>
        ensures { GivesAs thing_in result (things.after_dot (around_in around.now) place name.now (thing_in self.entry)) }
    {
        match self {
            Thing::Block {
                path,
                signals,
                at: _,
            } => signal_named(path, name, signals),
            Thing::TypeName { ty: _, at } => Err(Refusal::Rule { rule: 7, at }),
            Thing::Value(t) => value_member(alloc, around, name, t),
            Thing::Subroutine {
                callee,
                object,
                is_direct,
                at,
            } => {
                let value = bare_subroutine::<C>(
                    alloc, around, place, callee, object, is_direct, at,
                );
                member_of_value(alloc, around, name, value)
            }
            Thing::Method {
                method,
                object,
                at: _,
            } => {
                let value = bare_method::<C>(alloc, around, place, method, object);
                member_of_value(alloc, around, name, value)
            }
            Thing::ItsResult {
                callee: _,
                object: _,
                variable,
                at,
            } => {
                let value = result_value(around, at, Box::into_inner(variable));
                member_of_value(alloc, around, name, value)
            }
            Thing::Signal {
                block,
                place: number,
                signal,
                at,
            } => {
                let value = signal_read(alloc, around, block, number, signal, at);
                member_of_value(alloc, around, name, value)
            }
        }
    }

    /// What a call of the thing calls, in an expression that begins at the place. E7: it is no subroutine and no method; or a rule that the
    /// call breaks.
    pub fn called<C: Calls>(
        self,
        alloc: Global,
        around: &Around,
        place: Place,
        is_value: bool,
        args: Seq<Arg>,
    ) -> Result<Called, Refusal>
        ensures { Gives result (things.called_thing (around_in around.now) place is_value (thing_in self.entry) args) }
    {
        match self {
            Thing::Subroutine {
                callee,
                object,
                is_direct,
                at: _,
            } => C::subroutine_called(
                alloc, around, place, is_value, callee, object, is_direct, args,
            ),
            Thing::Method {
                method,
                object,
                at: _,
            } => {
                let object = Box::into_inner(object);
                C::method_called(alloc, around, place, is_value, method, object, args)
            }
            Thing::ItsResult {
                callee,
                object,
                variable: _,
                at: _,
            } => C::subroutine_called(alloc, around, place, is_value, callee, object, false, args),
            Thing::Value(t) => not_called(t.at, args.as_slice()),
            Thing::Block {
                path: _,
                signals: _,
                at,
            } => not_called(at, args.as_slice()),
            Thing::Signal {
                block: _,
                place: _,
                signal: _,
                at,
            } => not_called(at, args.as_slice()),
            Thing::TypeName { ty: _, at } => not_called(at, args.as_slice()),
        }
    }

    /// What the thing is as a target; none where it is no target.
    pub fn into_target(self, alloc: Global, around: &Around) -> Result<Option<Typed>, Refusal>
        ensures ok { IfOk result (λ t. t ≡ expressions.as_target (around_in around.now) (Good (thing_in self.entry))) }
        ensures err { IfErr result (λ e. e ≡ Memory) }
    {
        match self {
            Thing::Value(t) => Ok(Some(t)),
            Thing::ItsResult {
                callee: _,
                object: _,
                variable,
                at: _,
            } => Ok(Some(Box::into_inner(variable))),
            Thing::Signal {
                block,
                place,
                signal,
                at,
            } => some_signal(alloc, around, block, place, signal, at),
            Thing::Subroutine {
                callee: _,
                object: _,
                is_direct: _,
                at: _,
            } => Ok(None),
            Thing::Method {
                method: _,
                object: _,
                at: _,
            } => Ok(None),
            Thing::Block {
                path: _,
                signals: _,
                at: _,
            } => Ok(None),
            Thing::TypeName { ty: _, at: _ } => Ok(None),
        }
    }
}

/// E7: no subroutine, and what its arguments break by themselves.
fn not_called(at: Place, args: &[Arg]) -> Result<Called, Refusal>
    ensures { Gives result (things.not_called at args.now) }
{
    where_also(Err(Refusal::Rule { rule: 7, at }), values_stand(args))
}
