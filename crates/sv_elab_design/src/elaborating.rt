// From trees to the flat design, or to the first rule that they break (IEEE 1800-2017, 3.12 and 23.3).
ghost use Rattle.std.specs.Prelude.{◌≡◌, ◌∷◌, [], ℕ, List, IfOk, length, map, option_map};
ghost use Rattle.sv_tree.specs.UnitView.{description};
ghost use Rattle.sv_names.specs.declared.checked.Checked.{Checked as checked};
ghost use Rattle.sv_names.specs.Checked.{◌where_also◌};
ghost use Rattle.sv_names.specs.Design as design;
ghost use Rattle.sv_names.specs.Given.{Gives};
ghost use Rattle.sv_names.specs.Instances as instances;
ghost use Rattle.sv_names.specs.Items.{GivenParts as given_parts};
ghost use Rattle.sv_names.specs.Views.{around_in, numbers_in};
ghost use Rattle.sv_elab_scope.specs.Rows.{group_in};
ghost use Rattle.sv_elab_walk.specs.Insts.{walked_in};
ghost use Rattle.sv_elab_whole.specs.Collected.{GivesParts, IsGiven};
ghost use Rattle.sv_elab_whole.specs.Numbering.{IsForeseen};
ghost use Rattle.sv_elab_design.specs.Elaborating as words;

use std::alloc::Global;
use sv_elab_comb::watching;
use sv_elab_item::add_given;
use sv_elab_parts::SoFar;
use sv_elab_scope::Group;
use sv_elab_unit::{Units, roots};
use sv_elab_walk::{Walked, walked};
use sv_elab_whole::{
    all_met_stand, classes_in, classes_of, file_group, foreseen_numbers, instances_in, is_foreseen,
    no_numbers, nowhere, numbers_of, parts_from, programs_in, scale_of, scales_agree, scopes_of,
};
use sv_flat::{Parts, Scale};
use sv_names::{Around, Dollar, Numbers, Refusal, Returns, answer, first, where_also};
use sv_tree::{Description, Timescale};
use sv_value::{NoMemory, Place};

/// E4: there is a root.
fn some_root(alloc: Global, units: &Units, top: Option<&[u8]>) -> Result<(), Refusal>
    ensures { Gives result (instances.some_root (instances.roots (map description units.now) (option_map (λ x. x.now) top.entry))) }
{
    let all = roots(alloc, units, top)?;
    if !all.as_slice().is_empty() {
        return Ok(());
    }
    let at = Place {
        file: 0,
        line: 1,
        col: 1,
    };
    Err(Refusal::Rule { rule: 4, at })
}

/// What all items give, where so many subroutines are to come.
fn given_with<'f>(
    alloc: Global,
    units: &Units,
    files: &'f Around<'f>,
    group: &Group,
    walked: &'f [Walked],
    places: usize,
) -> Result<SoFar, Refusal>
    ensures { GivesParts places result
        (design.given_parts (map description units.now) (around_in files.now) (group_in group.now) (map walked_in walked.now)) }
{
    let mut so_far = SoFar::new(alloc, places)?;
    match add_given(alloc, units, files, group, walked, &mut so_far) {
        Ok(()) => Ok(so_far),
        Err(e) => Err(e),
    }
}

/// What all items give, which further rules guard.
fn and_met(given: Result<SoFar, Refusal>, met: Result<(), Refusal>) -> Result<SoFar, Refusal>
    ensures { (n : ℕ) (x : checked (List given_parts)) (y : checked (Unit {0})) → GivesParts n given x → Gives met y
        → GivesParts n result (x where_also y) }
{
    match given {
        Ok(so_far) => match met {
            Ok(()) => Ok(so_far),
            Err(f) => Err(f),
        },
        Err(e) => match met {
            Ok(()) => Err(e),
            Err(f) => Err(first(e, f)),
        },
    }
}

/// What all items give with these numbers, where so many subroutines are to come.
fn given_by(
    alloc: Global,
    units: &Units,
    scale: Scale,
    group: &Group,
    walked: &[Walked],
    numbers: &Numbers,
    places: usize,
) -> Result<SoFar, Refusal>
    ensures { GivesParts places result (design.given_parts (map description units.now)
        (instances.file_around (numbers_in numbers.now) scale (group_in group.now)) (group_in group.now) (map walked_in walked.now)) }
{
    let (dollar, returns) = (Dollar::NoDollar, Returns::Outside);
    let outer = nowhere(numbers, scale, &dollar, &returns);
    let scopes = scopes_of(alloc, group)?;
    let classes = classes_of(alloc, group)?;
    let files = Around {
        scopes: scopes.as_slice(),
        classes: classes.as_slice(),
        ..outer
    };
    given_with(alloc, units, &files, group, &*walked, places)
}

/// The design of what was given, behind so many places.
fn finished(
    alloc: Global,
    scale: Scale,
    walked: &[Walked],
    places: usize,
    given: SoFar,
) -> Result<Parts, NoMemory>
    ensures { IfOk result (λ p. (gs : List given_parts) → IsGiven places given gs
        → p ≡ design.finished scale (map walked_in walked.now) places gs) }
{
    let instances = instances_in(alloc, walked)?;
    let parts = parts_from(alloc, scale, instances, places, given)?;
    let watched = watching(alloc, parts)?;
    Ok(watched)
}

/// The numbers of the parts that were given.
fn numbers_over(
    alloc: Global,
    group: &Group,
    walked: &[Walked],
    first: SoFar,
) -> Result<Numbers, NoMemory>
    ensures { IfOk result (λ n. (places : ℕ) (gs : List given_parts) → IsGiven places first gs
        → numbers_in n ≡ words.numbers_over (group_in group.now) (map walked_in walked.now) gs) }
{
    let classes = classes_in(alloc, group, walked)?;
    let programs = programs_in(alloc, walked)?;
    let numbers = numbers_of(alloc, classes.as_slice(), programs, first)?;
    Ok(numbers)
}

/// The design with the numbers that its parts have, where these were given first with other numbers.
fn numbered(
    alloc: Global,
    units: &Units,
    scale: Scale,
    group: &Group,
    walked: &[Walked],
    first: SoFar,
) -> Result<Parts, Refusal>
    ensures { (n : ℕ) (gs : List given_parts) → IsGiven n first gs → Gives result
        (design.numbered scale (map description units.now) (group_in group.now) (map walked_in walked.now) (words.paths gs)) }
{
    let places = first.subroutine_paths.as_slice().len();
    let numbers = numbers_over(alloc, group, walked, first)?;
    match given_by(alloc, units, scale, group, walked, &numbers, places) {
        Ok(given) => {
            let parts = finished(alloc, scale, walked, places, given)?;
            Ok(parts)
        }
        Err(e) => Err(e),
    }
}

/// The design of what was given with the numbers that are foreseen, where its parts have these; else all is given once more.
fn numbered_well(
    alloc: Global,
    units: &Units,
    scale: Scale,
    group: &Group,
    walked: &[Walked],
    numbers: &Numbers,
    first: SoFar,
) -> Result<Parts, Refusal>
    ensures { IsForeseen (map description units.now) (map walked_in walked.now) numbers.now
        → (gs : List given_parts) → IsGiven (length numbers.now.subroutines) first gs
        → Gives result (words.numbered_well scale (map description units.now) (group_in group.now) (map walked_in walked.now) gs) }
{
    let (objects, subroutines) = (numbers.objects.paths(), numbers.subroutines.paths());
    if is_foreseen(objects, subroutines, &first) {
        let parts = finished(alloc, scale, walked, subroutines.len(), first)?;
        Ok(parts)
    } else {
        numbered(alloc, units, scale, group, walked, first)
    }
}

/// The design of what is walked.
fn design_over<'f>(
    alloc: Global,
    units: &Units,
    scale: Scale,
    files: &'f Around<'f>,
    group: &Group,
    walked: &'f [Walked],
) -> Result<Parts, Refusal>
    ensures { around_in files.now ≡ instances.file_around design.no_numbers scale (group_in group.now)
        → Gives result (design.design_over scale (map description units.now) (group_in group.now) (map walked_in walked.now)) }
{
    let numbers = foreseen_numbers(alloc, units.all(), walked)?;
    let places = numbers.subroutines.paths().len();
    let given = given_by(alloc, units, scale, group, walked, &numbers, places);
    let met = all_met_stand(alloc, units.all(), files, group, walked);
    match and_met(given, met) {
        Ok(first) => numbered_well(alloc, units, scale, group, walked, &numbers, first),
        Err(e) => Err(e),
    }
}

/// The design over the scope of the files.
fn with_files(
    alloc: Global,
    units: &Units,
    scale: Scale,
    top: Option<&[u8]>,
) -> Result<Parts, Refusal>
    ensures { Gives result (words.with_files scale (map description units.now) (option_map (λ x. x.now) top.entry)) }
{
    let numbers = no_numbers(alloc)?;
    let (dollar, returns) = (Dollar::NoDollar, Returns::Outside);
    let outer = nowhere(&numbers, scale, &dollar, &returns);
    let group = file_group(alloc, &outer, units.all())?;
    let scopes = scopes_of(alloc, &group)?;
    let classes = classes_of(alloc, &group)?;
    let files = Around {
        scopes: scopes.as_slice(),
        classes: classes.as_slice(),
        ..outer
    };
    let walked = walked(alloc, &*units, &files, top)?;
    design_over(alloc, units, scale, &files, &group, walked.as_slice())
}

/// The design, with the rules on time scales, and that there is a root.
fn elaborated(
    alloc: Global,
    units: &Units,
    scales: &[Timescale],
    top: Option<&[u8]>,
) -> Result<Parts, Refusal>
    ensures { Gives result (design.elaborated (map description units.now) scales.now (option_map (λ x. x.now) top.entry)) }
{
    let parts = with_files(alloc, units, scale_of(scales), top);
    let agreed = where_also(parts, answer(scales_agree(scales)));
    where_also(agreed, some_root(alloc, units, top))
}

/// The flat design of the descriptions of all files, with their time scales in the order of the text, under the unit that is named or under all that
/// are nowhere instantiated; or the first rule that is broken, by place and then by number (E1 to E58).
pub fn elaborate(
    alloc: Global,
    units: &[Description],
    scales: &[Timescale],
    top: Option<&[u8]>,
) -> Result<Parts, Refusal>
    ensures { Gives result (design.elaborated (map description units.now) scales.now (option_map (λ x. x.now) top.entry)) }
{
    let units = Units::new(alloc, units)?;
    elaborated(alloc, &units, scales, top)
}
