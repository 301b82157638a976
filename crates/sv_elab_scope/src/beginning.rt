// Declarations before the first round: all wait (own).
ghost use Rattle.std.specs.Prelude.{◌≡◌, ◌++◌, IfOk, OnOk};
ghost use Rattle.sv_names.specs.Rounds as rounds;
ghost use Rattle.sv_elab_scope.specs.Views.{entry_in};
ghost use Rattle.sv_elab_scope.specs.Starting as starting;

use crate::declared::{Declared, Entry};
use crate::waiting::waits;
use std::alloc::Global;
use sv_names::{Declarations, Known};
use sv_tree::Name;
use sv_value::{NoMemory, Seq};

/// Whether a declaration is `typedef class`, which is settled with the class.
fn is_announcement(entry: &Entry) -> bool
    ensures { result ≡ rounds.is_announcement (entry_in entry.now).what }
{
    matches!(&entry.what, Declared::Announcement)
}

/// Appends a declaration, unless it is an announcement.
fn keep<'a>(entry: Entry<'a>, kept: &mut Seq<Entry<'a>>) -> Result<(), NoMemory>
    ensures { OnOk result (kept.new ≡ kept.old ++ starting.kept entry.entry) }
{
    if is_announcement(&entry) {
        return Ok(());
    }
    kept.push(entry)?;
    Ok(())
}

/// Declarations without announcements of classes.
pub fn without_announcements<'a>(
    alloc: Global,
    entries: Seq<Entry<'a>>,
) -> Result<Seq<Entry<'a>>, NoMemory>
    ensures { IfOk result (λ es. es ≡ starting.without_announcements entries.entry) }
{
    let mut kept = Seq::new(alloc);
    let mut left = entries.into_vec().into_iter();
    while let Some(entry) = left.next() {
        keep(entry, &mut kept)?;
    }
    Ok(kept)
}

/// The same name.
fn share_name(name: &Name) -> Result<Name, NoMemory>
    ensures { IfOk result (λ n. n ≡ name.now) }
{
    let text = name.text.share()?;
    Ok(Name { at: name.at, text })
}

/// A declaration that waits.
fn waiting_one(entry: &Entry) -> Result<Known, NoMemory>
    ensures { IfOk result (λ k. k ≡ starting.waiting_one entry.now) }
{
    let name = share_name(entry.name)?;
    Ok(Known {
        name,
        kind: entry.what.kind(),
        value: waits(),
    })
}

/// The declarations of a scope, all waiting.
pub fn all_waiting(alloc: Global, entries: &[Entry]) -> Result<Declarations, NoMemory>
    ensures { IfOk result (λ ks. ks ≡ starting.all_waiting entries.now) }
{
    let mut known = Seq::new(alloc);
    for entry in entries {
        let declaration = waiting_one(entry)?;
        known.push(declaration)?;
    }
    let known = Declarations::new(alloc, known)?;
    Ok(known)
}
