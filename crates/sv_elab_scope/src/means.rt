// What declarations stand for, by which the rounds are made.
ghost use Rattle.std.specs.Prelude.{◌≡◌, Bool, IfOk};
ghost use Rattle.sv_names.specs.declared.checked.Checked.{Checked as checked};
ghost use Rattle.sv_names.specs.declared.named.Named.{Named as named};
ghost use Rattle.sv_names.specs.Types.{Path as path};
ghost use Rattle.sv_names.specs.Named.{Around as around};
ghost use Rattle.sv_names.specs.Views.{around_in};
ghost use Rattle.sv_names.specs.Entries as entries;
ghost use Rattle.sv_elab_scope.specs.Views.{entry_in};
ghost use Rattle.sv_elab_scope.specs.Stages.{is_last};

use crate::declared::Entry;
use crate::stage::Stage;
use std::alloc::Global;
use sv_names::{Around, Checked, Named};
use sv_value::{NoMemory, Text};

/// What a declaration stands for, in a scope by itself or in one of a unit.
pub trait Means {
    /// What a declaration stands for at the end or before, where it stands, in the scope with this path.
    ghost meant: { Bool → around → path → entries.Entry → checked named };

    /// What a declaration stands for.
    fn value(
        alloc: Global,
        stage: Stage,
        around: &Around,
        path: &[Text],
        entry: &Entry,
    ) -> Result<Checked<Named>, NoMemory>
        ensures { IfOk result (λ v. v ≡ meant (is_last stage) (around_in around.now) path.now (entry_in entry.now)) };
}
