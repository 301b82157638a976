// The types that are written (IEEE 1800-2017, 6.18): E6, E7, E11 to E13, E15, E43.
ghost use Rattle.std.specs.Prelude.{◌≡◌, option_map};
ghost use Rattle.sv_tree.specs.StmtView.{type, implied as implied_in, range as range_in};
ghost use Rattle.sv_names.specs.declared.checked.Checked.{Checked as checked};
ghost use Rattle.sv_names.specs.declared.named.Named.{Named as named};
ghost use Rattle.sv_names.specs.declared.ty.Ty.{Ty as ty};
ghost use Rattle.sv_names.specs.declared.ty.Ty.TheVariants as tys;
ghost use Rattle.sv_names.specs.Checked.{◌▷◌, ◌where_also◌, given};
ghost use Rattle.sv_names.specs.Declarations as declarations;
ghost use Rattle.sv_names.specs.Entries as entries;
ghost use Rattle.sv_names.specs.Views.{around_in, meaning_in};
ghost use Rattle.sv_names.specs.Given.{Gives, GivesAs};
ghost use Rattle.sv_elab_type.specs.Written as written_types;

use crate::elements::item_of;
use crate::enums::{enum_over, plain_enum, waiting_scope, with_scope};
use crate::vectors::{is_signed, vector_type};
use std::alloc::Global;
use sv_elab_expr::sv_elab_operator::{atom_type, has_four_states};
use sv_names::{Around, Meaning, Named, Refusal, Ty, copy_path, first, plain_vector, whole};
use sv_tree::{AtomWord, ImpliedType, Name, Range, Sign, WrittenType};
use sv_value::{Integral, Place, Text};

/// The place of the first token of a type.
pub fn place_of_type(ty: &WrittenType) -> Place
    ensures { result ≡ entries.place_of_type (type ty.now) }
{
    match ty {
        WrittenType::Vector { at, .. } => *at,
        WrittenType::Atom { at, .. } => *at,
        WrittenType::Text(at) => *at,
        WrittenType::Event(at) => *at,
        WrittenType::Semaphore(at) => *at,
        WrittenType::Mailbox(at) => *at,
        WrittenType::MailboxOf(at, _) => *at,
        WrittenType::Named(name) => name.at,
        WrittenType::Enum(at, _) => *at,
        WrittenType::EnumOf { at, .. } => *at,
    }
}

/// A type that has a width of its own.
fn atom_of(word: AtomWord, sign: Sign) -> Ty
    ensures { result ≡ written_types.atom_of word sign }
{
    let own = atom_type(word);
    let signed = is_signed(own.signed, sign);
    Ty::Vector {
        integral: Integral { signed, ..own },
        bounds: whole(own.width),
        is_written: false,
    }
}

/// E7: what a name stands for, as a type.
fn type_named(alloc: Global, at: Place, meaning: Meaning) -> Result<Ty, Refusal>
    ensures { Gives result (declarations.type_named at (meaning_in meaning.entry)) }
{
    match meaning.named {
        Named::TypeName(ty) => {
            let ty = ty.copy(alloc)?;
            Ok(ty)
        }
        Named::ClassName(class) => {
            let class = copy_path(alloc, class.as_slice())?;
            Ok(Ty::Class(class))
        }
        _ => Err(Refusal::Rule { rule: 7, at }),
    }
}

/// E7: what a name stands for as a type, where it breaks no rule before and is declared as a type.
fn type_meant(
    alloc: Global,
    at: Place,
    meaning: Result<Meaning, Refusal>,
    stands: Result<(), Refusal>,
) -> Result<Ty, Refusal>
    ensures { (m : checked named) (y : checked (Unit {0})) → GivesAs meaning_in meaning.entry m → Gives stands y
        → Gives result (m where_also y ▷ declarations.type_named at) }
{
    match meaning {
        Ok(meaning) => match stands {
            Ok(()) => type_named(alloc, at, meaning),
            Err(f) => Err(f),
        },
        Err(e) => match stands {
            Ok(()) => Err(e),
            Err(f) => Err(first(e, f)),
        },
    }
}

/// E6, E7: the type of a name.
fn named_type(alloc: Global, around: &Around, name: &Name) -> Result<Ty, Refusal>
    ensures { Gives result (written_types.named_type (around_in around.now) name.now) }
{
    let meaning = around.meaning(name);
    let stands = around.type_stands(7, name.at, name.text.bytes());
    type_meant(alloc, name.at, meaning, stands)
}

/// A range that is written, if one is.
pub(crate) fn range_of(range: &Option<Box<Range>>) -> Option<&Range>
    ensures { option_map (λ r. range_in r.now) result ≡ option_map (λ r. range_in r.value) range.now }
{
    match range {
        None => None,
        Some(range) => Some(range),
    }
}

/// A mailbox of messages of one type.
fn mailbox_of(alloc: Global, at: Place, t: Result<Ty, Refusal>) -> Result<Ty, Refusal>
    ensures { (x : checked ty) → Gives t x → Gives result (given tys.MailboxOf (x ▷ declarations.may_be_item at)) }
{
    match item_of(alloc, at, t) {
        Ok(of) => Ok(Ty::MailboxOf(of)),
        Err(e) => Err(e),
    }
}

/// The type that is written, in the scope with this path.
pub fn type_of(
    alloc: Global,
    around: &Around,
    path: &[Text],
    written: &WrittenType,
) -> Result<Ty, Refusal>
    ensures { Gives result (declarations.type_of (around_in around.now) path.now (type written.now)) }
{
    match written {
        WrittenType::Vector {
            word,
            sign,
            range,
            ..
        } => {
            let signed = is_signed(false, *sign);
            vector_type(
                alloc,
                around,
                signed,
                has_four_states(*word),
                range_of(range),
            )
        }
        WrittenType::Atom { word, sign, .. } => Ok(atom_of(*word, *sign)),
        WrittenType::Text(_) => Ok(Ty::Text),
        WrittenType::Event(_) => Ok(Ty::Event),
        WrittenType::Semaphore(_) => Ok(Ty::Semaphore),
        WrittenType::Mailbox(_) => Ok(Ty::Mailbox),
        WrittenType::MailboxOf(_, of) => {
            let t = type_of(alloc, around, path, of);
            mailbox_of(alloc, place_of_type(of), t)
        }
        WrittenType::Named(name) => named_type(alloc, around, name),
        WrittenType::Enum(at, _) => plain_enum(alloc, path, *at),
        WrittenType::EnumOf { at, base, items } => {
            let scope = waiting_scope(alloc, path, items)?;
            let scopes = with_scope(alloc, &scope, around.scopes)?;
            let inside = Around {
                scopes: scopes.as_slice(),
                ..*around
            };
            let t = type_of(alloc, &inside, path, base);
            enum_over(alloc, path, *at, place_of_type(base), t)
        }
    }
}

/// The type that is written, or else logic: of one bit where nothing is written.
pub fn implied(
    alloc: Global,
    around: &Around,
    path: &[Text],
    ty: &ImpliedType,
) -> Result<Ty, Refusal>
    ensures { Gives result (declarations.implied (around_in around.now) path.now (implied_in ty.now)) }
{
    match ty {
        ImpliedType::Unwritten => Ok(plain_vector(1, false, true)),
        ImpliedType::Vector { sign, range, .. } => {
            vector_type(
                alloc,
                around,
                is_signed(false, *sign),
                true,
                range_of(range),
            )
        }
        ImpliedType::Written(written) => type_of(alloc, around, path, written),
    }
}
