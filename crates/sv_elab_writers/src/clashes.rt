// Two writers of one object (IEEE 1800-2017, 6.5, 9.2.2.2 and 10.3): E20, E22, E23.
ghost use Rattle.std.specs.Prelude.{◌≡◌, List, map, flat_map, IfOk, OnOk};
ghost use Rattle.sv_names.specs.Checked as rules;
ghost use Rattle.sv_names.specs.Checked.{all};
ghost use Rattle.sv_names.specs.Writers as writers;
ghost use Rattle.sv_elab_writers.specs.Laws as laws;
ghost use Rattle.sv_elab_writers.specs.Marks.{HasWrites};
ghost use Rattle.sv_elab_writers.specs.Views.{writer_in, write_in, initialized_in, Written};

use crate::marks::{Marked, marked};
use crate::writes::Write;
use crate::{Initialized, Writer};
use std::alloc::Global;
use sv_names::{Checked, Fault, and_guard, mark_of, same_path, same_place};
use sv_value::{NoMemory, Place, Seq, Text};

/// What two writes of one object may not be.
#[derive(Clone, Copy)]
pub(crate) enum Law {
    /// A continuous one and a further one (10.3).
    Continuous,
    /// Of two processes, one of which lets no other write (9.2.2.2).
    Alone,
}

/// The rule at a place, where it is broken there.
fn rule(rule: u8, at: Place, is_broken: bool) -> Checked<()>
    ensures { result ≡ rules.rule rule at is_broken }
{
    if is_broken {
        Checked::Broken(Fault { at, rule })
    } else {
        Checked::Good(())
    }
}

/// Whether one place stands before another one.
fn place_before(a: Place, b: Place) -> bool
    ensures { result ≡ rules.place_before a b }
{
    if a.file != b.file {
        a.file < b.file
    } else if a.line != b.line {
        a.line < b.line
    } else {
        a.col < b.col
    }
}

/// Whether it writes again and again.
fn is_continuous(writer: Writer) -> bool
    ensures { result ≡ writers.is_continuous (writer_in writer) }
{
    match writer {
        Writer::Continuously => true,
        Writer::Alone | Writer::Shared | Writer::NoProcess => false,
    }
}

/// Whether no other process may write.
pub(crate) fn is_alone(writer: Writer) -> bool
    ensures { result ≡ writers.is_alone (writer_in writer) }
{
    match writer {
        Writer::Alone => true,
        Writer::Continuously | Writer::Shared | Writer::NoProcess => false,
    }
}

/// Whether two writes are of one continuous writer.
fn same_continuous(v: Write, w: Write) -> bool
    ensures { result ≡ writers.same_continuous (write_in v.entry) (write_in w.entry) }
{
    is_continuous(v.writer) && is_continuous(w.writer) && v.process == w.process
}

/// Whether a write comes before another one, by place and then by number of process.
fn comes_first(v: Write, w: Write) -> bool
    ensures { result ≡ writers.comes_first (write_in v.entry) (write_in w.entry) }
{
    place_before(v.at, w.at) || (same_place(v.at, w.at) && v.process < w.process)
}

/// Whether a later write clashes with a continuous one, or a continuous one with another one before it.
fn clashes_continuous(w: Write, v: Write) -> bool
    ensures { result ≡ laws.clashes_continuous (write_in w.entry) (write_in v.entry) }
{
    (is_continuous(v.writer) || is_continuous(w.writer))
        && place_before(v.at, w.at)
        && same_path(v.object, w.object)
        && !same_continuous(v, w)
}

/// Whether a later write of another process clashes with one that stands alone, or the other way round.
fn clashes_alone(w: Write, v: Write) -> bool
    ensures { result ≡ laws.clashes_alone (write_in w.entry) (write_in v.entry) }
{
    (is_alone(v.writer) || is_alone(w.writer))
        && v.process != w.process
        && comes_first(v, w)
        && same_path(v.object, w.object)
}

/// Whether a write clashes with one of all.
fn has_clash(law: Law, writes: &[Write], w: Write) -> bool
    ensures { result ≡ writers.some (laws.clashes law (write_in w.entry)) (map write_in writes.now) }
{
    for v in writes {
        let clashes = match law {
            Law::Continuous => clashes_continuous(w, *v),
            Law::Alone => clashes_alone(w, *v),
        };
        if clashes {
            return true;
        }
    }
    false
}

/// Whether a write lets no other beside it.
fn is_strict(law: Law, writer: Writer) -> bool
    ensures { result ≡ laws.is_strict law (writer_in writer) }
{
    match law {
        Law::Continuous => is_continuous(writer),
        Law::Alone => is_alone(writer),
    }
}

/// Appends a write, where it lets no other beside it.
#[tactic(auto, using(crate::proofs::StrictLaws::kept, crate::proofs::StrictLaws::left_out))]
fn add_strict<'a>(law: Law, write: Write<'a>, strict: &mut Seq<Write<'a>>) -> Result<(), NoMemory>
    ensures { OnOk result (Written strict.old strict.new (laws.strict_of law (write_in write.entry))) }
{
    if is_strict(law, write.writer) {
        return strict.push(write);
    }
    Ok(())
}

/// The writes that let no other beside them.
#[tactic(auto, using(crate::proofs::WrittenLaws::turn_written))]
fn strict_ones<'a>(
    alloc: Global,
    law: Law,
    writes: &[Write<'a>],
) -> Result<Seq<Write<'a>>, NoMemory>
    ensures { IfOk result (λ ws. map write_in ws ≡ flat_map (laws.strict_of law) (map write_in writes.now)) }
{
    let mut strict = Seq::new(alloc);
    let mut left = writes;
    while let [one, rest @ ..] = left {
        add_strict(law, *one, &mut strict)?;
        left = rest;
    }
    Ok(strict)
}

/// The writes that let no other beside them, at the marks of their objects.
fn strict_marked<'a>(alloc: Global, law: Law, writes: &[Write<'a>]) -> Result<Marked<'a>, NoMemory>
    ensures { IfOk result (λ m. HasWrites m (flat_map (laws.strict_of law) (map write_in writes.now))) }
{
    let strict = strict_ones(alloc, law, writes)?;
    marked(alloc, strict.as_slice())
}

/// Whether a write clashes with one of those that are kept.
fn clashes_marked(law: Law, marked: &Marked, w: Write) -> bool
    ensures { (ws : List writers.Write) → HasWrites marked.now ws → result ≡ writers.some (laws.clashes law (write_in w.entry)) ws }
{
    match marked.get(&mark_of(w.object)) {
        Some(writes) => has_clash(law, writes.as_slice(), w),
        None => false,
    }
}

/// Whether a write clashes with one of all. One that lets others beside it is compared with those alone that do not.
fn clashes_among(law: Law, all: &Marked, strict: &Marked, w: Write) -> bool
    ensures { (ws : List writers.Write) → HasWrites all.now ws → HasWrites strict.now (flat_map (laws.strict_of law) ws)
        → result ≡ writers.some (laws.clashes law (write_in w.entry)) ws }
{
    if is_strict(law, w.writer) {
        return clashes_marked(law, all, w);
    }
    clashes_marked(law, strict, w)
}

/// The rule for one write, over all writes and those that let no other beside them.
fn stands(law: Law, all: &Marked, strict: &Marked, w: Write) -> Checked<()>
    ensures { (ws : List writers.Write) → HasWrites all.now ws → HasWrites strict.now (flat_map (laws.strict_of law) ws)
        → result ≡ laws.stands law ws (write_in w.entry) }
{
    let is_broken = clashes_among(law, all, strict, w);
    match law {
        Law::Continuous => rule(20, w.at, is_broken),
        Law::Alone => rule(22, w.at, is_broken),
    }
}

/// Whether a write lets no other beside it.
fn has_strict(law: Law, writes: &[Write]) -> bool
    ensures { result ≡ writers.some (laws.strict law) (map write_in writes.now) }
{
    for w in writes {
        if is_strict(law, w.writer) {
            return true;
        }
    }
    false
}

/// The rule for each write. Where all let others beside them, none breaks it.
#[tactic(auto, using(crate::proofs::StrictLaws::none_strict))]
pub(crate) fn all_stand(alloc: Global, law: Law, writes: &[Write]) -> Result<Checked<()>, NoMemory>
    ensures { IfOk result (λ c. c ≡ laws.all_stand law (map write_in writes.now)) }
{
    if !has_strict(law, writes) {
        return Ok(Checked::Good(()));
    }
    each_stands(alloc, law, writes)
}

/// The rule for each write, over the marks of all.
fn each_stands(alloc: Global, law: Law, writes: &[Write]) -> Result<Checked<()>, NoMemory>
    ensures { IfOk result (λ c. c ≡ laws.all_stand law (map write_in writes.now)) }
{
    let all = marked(alloc, writes)?;
    let strict = strict_marked(alloc, law, writes)?;
    let mut guards = Checked::Good(());
    for w in writes {
        guards = and_guard(guards, stands(law, &all, &strict, *w));
    }
    Ok(guards)
}

/// Whether an object is written continuously by one of these.
fn is_continued(object: &[Text], writes: &[Write]) -> bool
    ensures { result ≡ writers.some (laws.continues object.now) (map write_in writes.now) }
{
    for v in writes {
        if is_continuous(v.writer) && same_path(v.object, object) {
            return true;
        }
    }
    false
}

/// Whether an object is written continuously.
fn is_written_continuously(object: &[Text], marked: &Marked) -> bool
    ensures { (ws : List writers.Write) → HasWrites marked.now ws → result ≡ writers.some (laws.continues object.now) ws }
{
    match marked.get(&mark_of(object)) {
        Some(writes) => is_continued(object, writes.as_slice()),
        None => false,
    }
}

/// No variable with an initializer is written continuously.
#[tactic(auto, using(crate::proofs::StrictLaws::none_continued))]
pub(crate) fn none_initialized(
    alloc: Global,
    writes: &[Write],
    variables: &[Initialized],
) -> Result<Checked<()>, NoMemory>
    ensures { IfOk result (λ c. c ≡ all (writers.not_initialized (map write_in writes.now)) (map initialized_in variables.now)) }
{
    if !has_strict(Law::Continuous, writes) {
        return Ok(Checked::Good(()));
    }
    none_continued(alloc, writes, variables)
}

/// The same, over the marks of all writes.
fn none_continued(
    alloc: Global,
    writes: &[Write],
    variables: &[Initialized],
) -> Result<Checked<()>, NoMemory>
    ensures { IfOk result (λ c. c ≡ all (writers.not_initialized (map write_in writes.now)) (map initialized_in variables.now)) }
{
    let marked = marked(alloc, writes)?;
    let mut guards = Checked::Good(());
    for one in variables {
        let is_broken = is_written_continuously(one.object.as_slice(), &marked);
        guards = and_guard(guards, rule(23, one.at, is_broken));
    }
    Ok(guards)
}
