// The names of the virtual methods of a class, those of the bases first (IEEE 1800-2017, 8.20).
ghost use Rattle.std.specs.Prelude.{◌≡◌, ◌++◌, ◌∷◌, [], ◌&&◌, not, map, IfOk, OnOk};
ghost use Rattle.sv_tree.specs.UnitView.{class_item, method};
ghost use Rattle.sv_names.specs.Entries as entries;
ghost use Rattle.sv_names.specs.Groups as groups;
ghost use Rattle.sv_names.specs.Types as types;
ghost use Rattle.sv_elab_declare.specs.Alone.{class_in as class_path};
ghost use Rattle.sv_elab_class.specs.Heads.{head_in};

use crate::heads::ClassHead;
use crate::lines::{base_of, class_of};
use std::alloc::Global;
use sv_elab_declare::is_constructor;
use sv_names::{ClassInfo, class_in, same_bytes};
use sv_tree::{ClassItem, Method, Name};
use sv_value::{NoMemory, Seq, Text};

// ---- the methods of one class

/// Whether a text stands in a list.
fn among(text: &[u8], list: &[Text]) -> bool
    ensures { result ≡ types.among text.now list.now }
{
    for one in list {
        if same_bytes(text, one.bytes()) {
            return true;
        }
    }
    false
}

/// Whether a method is a virtual one that has no slot yet; constructors have none.
fn is_new_slot(of: &Method, slots: &[Text]) -> bool
    ensures { result ≡ (of.now.qualifiers.is_virtual && not (entries.is_constructor (method of.now).routine.head)
        && not (types.among of.now.routine.head.name.text slots.now)) }
{
    let head = &of.routine.head;
    of.qualifiers.is_virtual && !is_constructor(head) && !among(head.name.text.bytes(), slots)
}

/// Appends a slot.
fn add_name(alloc: Global, name: &Name, slots: &mut Seq<Text>) -> Result<(), NoMemory>
    ensures { OnOk result (slots.new ≡ slots.old ++ name.now.text ∷ []) }
{
    let mut text = Text::new(alloc);
    text.push_all(name.text.bytes())?;
    slots.push(text)
}

/// Appends the slot of a further virtual method that an item declares.
fn add_virtual(alloc: Global, one: &ClassItem, slots: &mut Seq<Text>) -> Result<(), NoMemory>
    ensures { OnOk result (slots.new ≡ slots.old ++ groups.virtual_name slots.old (class_item one.now)) }
{
    match one {
        ClassItem::Method(method) => {
            if is_new_slot(method, slots.as_slice()) {
                return add_name(alloc, &method.routine.head.name, slots);
            }
            Ok(())
        }
        ClassItem::Pure(method) => {
            if among(method.head.name.text.bytes(), slots.as_slice()) {
                return Ok(());
            }
            add_name(alloc, &method.head.name, slots)
        }
        ClassItem::Property(_) => Ok(()),
        ClassItem::Typedef(_) => Ok(()),
        ClassItem::Announce(_) => Ok(()),
        ClassItem::Null => Ok(()),
    }
}

/// Appends the slots of further virtual methods that items declare.
fn add_slots(alloc: Global, items: &[ClassItem], slots: &mut Seq<Text>) -> Result<(), NoMemory>
    ensures { OnOk result (slots.new ≡ groups.slots_over slots.old (map class_item items.now)) }
{
    let mut left = items;
    while let [one, rest @ ..] = left {
        add_virtual(alloc, one, slots)?;
        left = rest;
    }
    Ok(())
}

// ---- those of the bases

/// The same texts, in memory of their own.
fn copy_texts(alloc: Global, texts: &[Text]) -> Result<Seq<Text>, NoMemory>
    ensures { IfOk result (λ ts. ts ≡ texts.now) }
{
    let mut copy = Seq::new(alloc);
    for text in texts {
        let text = text.copy(alloc)?;
        copy.push(text)?;
    }
    Ok(copy)
}

/// The slots of a class outside, where it is known.
#[tactic(auto, using(crate::proofs::SlotLaws::known_is))]
fn slots_known(alloc: Global, classes: &[&ClassInfo], path: &[Text]) -> Result<Seq<Text>, NoMemory>
    ensures { IfOk result (λ ss. ss ≡ groups.slots_known (map (λ k. k.now) classes.now) path.now) }
{
    match class_in(classes, path) {
        None => Ok(Seq::new(alloc)),
        Some(class) => copy_texts(alloc, class.slots.as_slice()),
    }
}

/// The slots of a class of a unit or of the files, or of one outside; of so many classes at most.
#[tactic(auto, using(crate::proofs::SlotLaws::slots_step, crate::proofs::SlotLaws::slots_none, crate::proofs::SlotLaws::slots_zero))]
pub fn slots_of(
    alloc: Global,
    most: u128,
    classes: &[&ClassInfo],
    heads: &[ClassHead],
    path: Option<&[Text]>,
) -> Result<Seq<Text>, NoMemory>
    ensures { IfOk result (λ ss. ss
        ≡ groups.slots_of most (map (λ k. k.now) classes.now) (map head_in heads.now) (class_path path.entry)) }
{
    if most == 0 {
        return Ok(Seq::new(alloc));
    }
    let Some(path) = path else {
        return Ok(Seq::new(alloc));
    };
    match class_of(path, heads) {
        None => slots_known(alloc, classes, path),
        Some(head) => {
            let base = base_of(heads, head);
            let mut slots = slots_of(alloc, most - 1, classes, heads, base)?;
            add_slots(alloc, &head.tree.items, &mut slots)?;
            Ok(slots)
        }
    }
}
