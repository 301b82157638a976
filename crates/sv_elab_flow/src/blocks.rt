// Blocks in their scopes (IEEE 1800-2017, 6.21, 9.3.1 and 9.3.4): E5.
ghost use Rattle.std.specs.Prelude.{◌≡◌, List, ◌∷◌, map, not, IfOk, IfErr};
ghost use Rattle.sv_flat.specs.declared.class.Routine.{Routine as routine};
ghost use Rattle.sv_flat.specs.declared.object.Object.{Object as object};
ghost use Rattle.sv_names.specs.declared.checked.Checked.{Checked as checked};
ghost use Rattle.sv_names.specs.declared.refusal.Refusal.TheVariants.{Memory};
ghost use Rattle.sv_names.specs.declared.scope.Scope.{Scope as scope_type};
ghost use Rattle.sv_names.specs.Blocks as blocks;
ghost use Rattle.sv_names.specs.Checked as rules;
ghost use Rattle.sv_names.specs.Code as code;
ghost use Rattle.sv_names.specs.Emits.{Emits};
ghost use Rattle.sv_names.specs.Given.{Gives};
ghost use Rattle.sv_names.specs.Statements as statements;
ghost use Rattle.sv_names.specs.Types as types;
ghost use Rattle.sv_names.specs.Views.{around_in};
ghost use Rattle.sv_elab_flow.specs.Parts as parts;
ghost use Rattle.sv_elab_flow.specs.Parts.{EmitsRoutine};

use crate::around::place;
use crate::code::plain;
use std::alloc::Global;
use sv_elab_value::rule;
use sv_flat::{Declared, Form, Stmt};
use sv_names::{Around, Refusal, Scope, same_bytes};
use sv_tree::{Name, Stmt as TreeStmt};
use sv_value::{RoutineId, Seq};

// ---- labels

/// E5: a name stands once more.
fn repeats(name: &Name, end: &Name) -> Result<(), Refusal>
    ensures { Gives result (rules.rule 5 end.now.at (not (types.same_bytes name.now.text end.now.text))) }
{
    rule(5, end.at, !same_bytes(name.text.bytes(), end.text.bytes()))
}

/// E5: an end label repeats the name of the block, or its label.
pub fn end_label(
    name: &Option<Name>,
    label: &Option<Name>,
    end: &Option<Name>,
) -> Result<(), Refusal>
    ensures { Gives result (blocks.end_label (blocks.first_name name.now label.now) end.now) }
{
    match end {
        None => Ok(()),
        Some(end) => match name {
            Some(name) => repeats(name, end),
            None => match label {
                Some(label) => repeats(label, end),
                None => rule(5, end.at, true),
            },
        },
    }
}

// ---- scopes

/// A scope in front of those around it.
pub fn enclosed<'a>(
    alloc: Global,
    scope: &'a Scope,
    outer: &[&'a Scope],
) -> Result<Vec<&'a Scope>, Refusal>
    ensures ok { IfOk result (λ scopes. map (λ s. s.now) scopes.items ≡ scope.now ∷ map (λ s. s.now) outer.now) }
    ensures err { IfErr result (λ e. e ≡ Memory) }
{
    let mut scopes = Vec::new(alloc);
    scopes.push(scope)?;
    for s in outer {
        scopes.push(*s)?;
    }
    Ok(scopes)
}

/// In a scope of its own, which stands in front.
pub fn inside<'a>(around: &Around<'a>, scopes: &'a [&'a Scope]) -> Around<'a>
    ensures { (scope : scope_type) → map (λ s. s.now) scopes.now ≡ scope ∷ (around_in around.now).scopes
        → around_in result ≡ blocks.inside scope (around_in around.now) }
{
    Around {
        scopes,
        blocks: 0,
        ..*around
    }
}

// ---- blocks

/// A block with the variables that it declares.
pub fn block(
    alloc: Global,
    s: &TreeStmt,
    locals: Seq<Declared>,
    body: Result<RoutineId, Refusal>,
) -> Result<Seq<Stmt>, Refusal>
    ensures { (rs rs' : List routine) (os os' : List object) (x : checked code.Code)
        → EmitsRoutine (parts.place_of s.now) rs rs' os os' body x
        → Emits rs rs' os os' result (statements.block_given (parts.place_of s.now) locals x) }
{
    match body {
        Ok(body) => plain(alloc, place(s), Form::Block { locals, body }),
        Err(e) => Err(e),
    }
}
