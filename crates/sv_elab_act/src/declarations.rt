// The variables of blocks (IEEE 1800-2017, 6.21 and 9.3).
ghost use Rattle.std.specs.Prelude.{◌≡◌, map, IfOk, OnOk};
ghost use Rattle.sv_tree.specs.StmtView as view;
ghost use Rattle.sv_names.specs.Checked.{given};
ghost use Rattle.sv_names.specs.Named as names;
ghost use Rattle.sv_names.specs.Writers as writers;
ghost use Rattle.sv_names.specs.Views.{around_in};
ghost use Rattle.sv_elab_touch.specs.Touched.{Touched};
ghost use Rattle.sv_elab_act.specs.Acts as acts;

use crate::inits::add_init;
use std::alloc::Global;
use sv_elab_writers::Touch;
use sv_names::{Around, Checked, Fault, Named, Refusal, Ty};
use sv_tree::{Decl, Declarator, Name};
use sv_value::{NoMemory, Seq};

/// The type that a variable has.
fn type_in(alloc: Global, named: &Named) -> Result<Ty, NoMemory>
    ensures { IfOk result (λ t. t ≡ writers.variable_type named.now) }
{
    match named {
        Named::Variable(_, ty) => ty.copy(alloc),
        Named::Local { ty, .. } => ty.copy(alloc),
        _ => Ok(Ty::Nothing),
    }
}

/// The type of the variable of a name.
#[tactic(auto, using(crate::proofs::VariableLaws::type_at_level))]
fn variable_type(alloc: Global, name: &Name, around: &Around) -> Result<Checked<Ty>, NoMemory>
    ensures { IfOk result (λ t. t ≡ given writers.variable_type (names.meaning (around_in around.now) name.now)) }
{
    match around.meaning(name) {
        Ok(meaning) => {
            let ty = type_in(alloc, meaning.named)?;
            Ok(Checked::Good(ty))
        }
        Err(Refusal::Rule { rule, at }) => Ok(Checked::Broken(Fault { at, rule })),
        Err(Refusal::Memory) => Err(NoMemory::Memory),
    }
}

/// Appends what the initializer of a declared variable writes and calls.
#[tactic(auto, using(sv_elab_touch::proofs::TouchedLaws::touched_none))]
fn add_declarator(
    alloc: Global,
    declarator: &Declarator,
    around: &Around,
    touches: &mut Seq<Touch>,
) -> Result<(), NoMemory>
    ensures { OnOk result (Touched touches.old touches.new
        (writers.declarator_touches (around_in around.now) (view.declarator declarator.now))) }
{
    match &declarator.init {
        None => Ok(()),
        Some(init) => {
            let ty = variable_type(alloc, &declarator.name, around)?;
            add_init(alloc, &ty, init, around, touches)
        }
    }
}

/// Appends what the initializers of a declaration write and call.
#[tactic(auto, using(sv_elab_touch::proofs::TouchedLaws::turn_touched, sv_elab_touch::proofs::TouchedLaws::all_touched))]
fn add_declaration(
    alloc: Global,
    declaration: &Decl,
    around: &Around,
    touches: &mut Seq<Touch>,
) -> Result<(), NoMemory>
    ensures { OnOk result (Touched touches.old touches.new
        (acts.declarators_touches (around_in around.now) (view.decl declaration.now))) }
{
    let mut left = declaration.names.as_slice();
    while let [declarator, rest @ ..] = left {
        add_declarator(alloc, declarator, around, touches)?;
        left = rest;
    }
    Ok(())
}

/// Appends what the initializers of the variables of a block write and call.
#[tactic(auto, using(sv_elab_touch::proofs::TouchedLaws::turn_touched, sv_elab_touch::proofs::TouchedLaws::all_touched))]
pub fn add_declarations(
    alloc: Global,
    declarations: &[Decl],
    around: &Around,
    touches: &mut Seq<Touch>,
) -> Result<(), NoMemory>
    ensures { OnOk result (Touched touches.old touches.new
        (writers.decls_touches (around_in around.now) (map view.decl declarations.now))) }
{
    let mut left = declarations;
    while let [declaration, rest @ ..] = left {
        add_declaration(alloc, declaration, around, touches)?;
        left = rest;
    }
    Ok(())
}
