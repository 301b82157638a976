// The default clocking of a unit (IEEE 1800-2017, 14.12): E7, E48.
ghost use Rattle.std.specs.Prelude.{◌≡◌, map, flat_map, option_map};
ghost use Rattle.sv_tree.specs.UnitView.{item as item_in};
ghost use Rattle.sv_names.specs.Items as items;
ghost use Rattle.sv_elab_scope.specs.Rows.{group_in};
ghost use Rattle.sv_elab_plain.specs.Parts as parts;

use sv_elab_scope::Group;
use sv_names::{Checked, Fault, Named, declared_in};
use sv_tree::Item;
use sv_value::{Place, Text};

/// The path of the clocking block of a name.
fn block_path<'a>(group: &'a Group, name: &[u8]) -> Option<&'a [Text]>
    ensures { option_map (λ p. p.now) result ≡ items.block_path (group_in group.now) name.now }
{
    match declared_in(0, name, &group.scope.known) {
        None => None,
        Some(found) => match &found.known.value {
            Checked::Good(Named::ClockingBlock(path, _)) => Some(path.as_slice()),
            _ => None,
        },
    }
}

/// The default clocking of a unit with these items, as far as they are looked through.
fn default_among<'a>(group: &'a Group, all: &[Item]) -> Option<&'a [Text]>
    ensures { option_map (λ p. p.now) result ≡ items.default_in (group_in group.now) (map item_in all.now) }
{
    let mut left = all;
    while let [one, rest @ ..] = left {
        match one {
            Item::Clocking(block) => match block.default {
                Some(_) => return block_path(group, block.name.text.bytes()),
                None => {}
            },
            Item::DefaultClocking(_, name) => return block_path(group, name.text.bytes()),
            _ => {}
        }
        left = rest;
    }
    None
}

/// The default clocking of a unit with these items. Where the unit declares no clocking block, they are not looked through.
#[tactic(auto, using(crate::proofs::BlockLaws::no_default))]
pub fn default_in<'a>(group: &'a Group, all: &[Item]) -> Option<&'a [Text]>
    ensures { option_map (λ p. p.now) result ≡ items.default_in (group_in group.now) (map item_in all.now) }
{
    if group.scope.known.has_block() {
        default_among(group, all)
    } else {
        None
    }
}

/// Where an item makes a default clocking.
fn default_word(one: &Item) -> Option<Place>
    ensures { parts.places_of result ≡ items.default_words (item_in one.now) }
{
    match one {
        Item::Clocking(block) => block.default,
        Item::DefaultClocking(at, _) => Some(*at),
        _ => None,
    }
}

/// E48: a unit has a second default clocking.
#[tactic(auto, using(crate::proofs::DefaultLaws::no_word, crate::proofs::DefaultLaws::first_word, crate::proofs::DefaultLaws::second_word))]
pub fn one_default(all: &[Item]) -> Checked<()>
    ensures { result ≡ items.at_most_one (flat_map items.default_words (map item_in all.now)) }
{
    let mut has_one = false;
    let mut left = all;
    while let [one, rest @ ..] = left {
        match default_word(one) {
            None => {}
            Some(at) => {
                if has_one {
                    return Checked::Broken(Fault { at, rule: 48 });
                }
                has_one = true;
            }
        }
        left = rest;
    }
    Checked::Good(())
}
