// The declarations of a scope (IEEE 1800-2017, 23.9).
ghost use Rattle.std.specs.Prelude.{◌≡◌, ◌++◌, ◌∷◌, [], IfOk, option_map};
ghost use Rattle.std.specs.Vec.Iter.{into_iter_items};
ghost use Rattle.sv_names.specs.Index as changed;
ghost use Rattle.sv_names.specs.Index.{places_from, or_old, first_value, more_values, is_block, some_block};
ghost use Rattle.sv_names.specs.Named as names;
ghost use Rattle.sv_names.specs.Views.{found_in};

use crate::name_index::{NameIndex, index_of};
use crate::{Checked, Found, Known, Named};
use std::alloc::Global;
use std::marker::Model;
use std::vec;
use sv_value::{NoMemory, Seq};

/// The declarations of a scope in order. They are seen as their list; a name is found without a walk along it.
pub struct Declarations {
    items: Seq<Known>,
    index: NameIndex,
    places: Seq<u32>,
    has_block: bool,
}

impl Drop for Declarations {
    fn drop(self) {
        let Declarations {
            items: _,
            index: _,
            places: _,
            has_block: _,
        } = self;
    }
}

impl Model for Declarations {
    ghost use Rattle.std.specs.Prelude.{◌≡◌, List};
    ghost use Rattle.std.specs.Coded.{codes};
    ghost use Rattle.sv_flat.specs.contracts.expr.Expr as expr;
    ghost use Rattle.sv_names.specs.declared.named.Known.{Known};

    ghost Value = { List Known };

    ghost coded = { Prim.hlevel (codes, expr.the_row.coded) };

    ghost view = { λ d. d.items };

    ghost use Rattle.sv_names.specs.Index.{IsIndexOf, names_of, places_from, some_block};

    ghost invariant = { λ d. IsIndexOf d.index (names_of d.items) × (d.places ≡ places_from 0 d.items) × (d.has_block ≡ some_block d.items) };
}

impl Declarations {
    /// The declarations given.
    pub fn new(alloc: Global, known: Seq<Known>) -> Result<Declarations, NoMemory>
        ensures { IfOk result (λ d. d ≡ known) }
    {
        let index = index_of(alloc, known.as_slice())?;
        let places = places_of(alloc, known.as_slice())?;
        let has_block = has_block(known.as_slice());
        Ok(Declarations {
            items: known,
            index,
            places,
            has_block,
        })
    }

    /// The same declarations, and one more behind them.
    pub fn with_last(self, alloc: Global, last: Known) -> Result<Declarations, NoMemory>
        ensures { IfOk result (λ d. d ≡ self ++ last ∷ []) }
    {
        let Declarations {
            mut items,
            index: _,
            places: _,
            has_block: _,
        } = self;
        items.push(last)?;
        Declarations::new(alloc, items)
    }

    /// The declarations as a slice.
    pub fn as_slice(&self) -> &[Known]
        ensures { result.now ≡ self.now }
    {
        self.items.as_slice()
    }

    /// Whether one of them is a clocking block.
    pub fn has_block(&self) -> bool
        ensures { result ≡ some_block self.now }
    {
        self.has_block
    }

    /// The same declarations with other values, where there are such.
    pub fn with_values(
        self,
        alloc: Global,
        values: Seq<Option<Checked<Named>>>,
    ) -> Result<Declarations, NoMemory>
        ensures { IfOk result (λ d. d ≡ changed.with_values self values) }
    {
        let Declarations {
            items,
            index,
            places: _,
            has_block: _,
        } = self;
        let items = with_values(alloc, items, values)?;
        let places = places_of(alloc, items.as_slice())?;
        let has_block = has_block(items.as_slice());
        Ok(Declarations {
            items,
            index,
            places,
            has_block,
        })
    }
}

/// The declaration of a name in a scope: the first, where the name is declared twice.
pub fn declared_in<'a>(up: u32, name: &[u8], known: &'a Declarations) -> Option<Found<'a>>
    ensures { option_map found_in result ≡ names.declared_in up 0 name.now known.now }
{
    match known.index.get(name) {
        None => None,
        Some(position) => {
            let position = *position;
            let places = known.places.as_slice();
            let items = known.items.as_slice();
            Some(Found {
                up,
                place: places[position],
                known: &items[position],
            })
        }
    }
}

/// Whether it is a clocking block.
fn is_block(value: &Checked<Named>) -> bool
    ensures { result ≡ is_block value.now }
{
    matches!(value, Checked::Good(Named::ClockingBlock(_, _)))
}

/// Whether one of these declarations is.
fn has_block(known: &[Known]) -> bool
    ensures { result ≡ some_block known.now }
{
    for declaration in known {
        if is_block(&declaration.value) {
            return true;
        }
    }
    false
}

/// Where the variables of each declaration stand.
fn places_of(alloc: Global, known: &[Known]) -> Result<Seq<u32>, NoMemory>
    ensures { IfOk result (λ places. places ≡ places_from 0 known.now) }
{
    let mut places = Seq::new(alloc);
    let mut place: u32 = 0;
    for declaration in known {
        places.push(place)?;
        place = place.saturating_add(declaration.size());
    }
    Ok(places)
}

/// Declarations with other values, where there are such.
fn with_values(
    alloc: Global,
    known: Seq<Known>,
    values: Seq<Option<Checked<Named>>>,
) -> Result<Seq<Known>, NoMemory>
    ensures { IfOk result (λ ks. ks ≡ changed.with_values known values) }
{
    let mut renewed = Seq::new(alloc);
    let mut left = known.into_vec().into_iter();
    let mut values = values.into_vec().into_iter();
    while let Some(first) = left.next() {
        let value = next_value(&mut values);
        renewed.push(with_value(first, value))?;
    }
    Ok(renewed)
}

/// The first of values, where there is one.
fn next_value<T: Drop>(values: &mut vec::IntoIter<Option<T>>) -> Option<T>
    ensures value { result ≡ first_value (into_iter_items values.old) }
    ensures rest { into_iter_items values.new ≡ more_values (into_iter_items values.old) }
{
    match values.next() {
        Some(value) => value,
        None => None,
    }
}

/// With another value.
fn with_value(known: Known, value: Option<Checked<Named>>) -> Known
    ensures { result ≡ changed.with_value known value }
{
    let Known {
        name,
        kind,
        value: old,
    } = known;
    Known {
        name,
        kind,
        value: replaced(old, value),
    }
}

/// The new value, where there is one.
fn replaced<T: Drop>(old: T, new: Option<T>) -> T
    ensures { result ≡ or_old old new }
{
    match new {
        None => old,
        Some(new) => new,
    }
}
