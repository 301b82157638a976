// The paths of the scopes of blocks and loops (own): a scope without a name is named by its number among those of the scope around it.
ghost use Rattle.std.specs.Prelude.{◌≡◌, ◌++◌, suc, map, option_map, IfOk, OnOk};
ghost use Rattle.sv_names.specs.Blocks as blocks;
ghost use Rattle.sv_names.specs.Code as code;
ghost use Rattle.sv_names.specs.Views.{around_in};
ghost use Rattle.sv_elab_block.specs.Paths as paths_by;

use std::alloc::Global;
use sv_names::{Around, Path, Scope, copy_path};
use sv_tree::Name;
use sv_value::{NoMemory, Text};

// ---- numbers

/// Appends at most so many decimal digits of a number, the last ones.
#[tactic(auto, using(crate::proofs::PathLaws::no_digit, crate::proofs::PathLaws::one_digit, crate::proofs::PathLaws::more_digits))]
fn add_digits(most: u32, number: u64, text: &mut Text) -> Result<(), NoMemory>
    ensures { OnOk result (text.new ≡ text.old ++ code.digits most number) }
{
    if most == 0 {
        return Ok(());
    }
    let higher = number / 10;
    let digit = b'0' + (number % 10) as u8;
    if higher == 0 {
        return text.push(digit);
    }
    add_digits(most - 1, higher, text)?;
    text.push(digit)
}

/// The number of a scope behind so many others, as decimal digits.
#[tactic(auto, using(crate::proofs::PathLaws::numbered))]
fn number_name(alloc: Global, before: u32) -> Result<Text, NoMemory>
    ensures { IfOk result (λ t. t ≡ code.decimal (suc before)) }
{
    let mut text = Text::new(alloc);
    add_digits(8, u64::from(before) + 1, &mut text)?;
    Ok(text)
}

// ---- paths

/// The name of a scope behind so many others, or its number.
fn last_name(alloc: Global, before: u32, name: Option<&Name>) -> Result<Text, NoMemory>
    ensures { IfOk result (λ t. t ≡ paths_by.last_name before (option_map (λ n. n.now) name.entry)) }
{
    match name {
        None => number_name(alloc, before),
        Some(name) => {
            let mut text = Text::new(alloc);
            text.push_all(name.text.bytes())?;
            Ok(text)
        }
    }
}

/// The path of the nearest scope.
fn nearest_path<'a>(scopes: &[&'a Scope]) -> &'a [Text]
    ensures { result.now ≡ paths_by.nearest_path (map (λ s. s.now) scopes.now) }
{
    match scopes {
        [] => &[],
        [nearest, _outer @ ..] => {
            let scope: &'a Scope = *nearest;
            scope.path.as_slice()
        }
    }
}

/// The path of a scope, by its name or else by its number.
#[tactic(auto, using(crate::proofs::PathLaws::path_is))]
pub fn inner_path(alloc: Global, around: &Around, name: Option<&Name>) -> Result<Path, NoMemory>
    ensures { IfOk result (λ p. p ≡ blocks.inner_path (around_in around.now) (option_map (λ n. n.now) name.entry)) }
{
    let mut path = copy_path(alloc, nearest_path(around.scopes))?;
    let last = last_name(alloc, around.blocks, name)?;
    path.push(last)?;
    Ok(path)
}
