// The table of the subroutines, with an index by their paths.
ghost use Rattle.std.specs.Prelude.{◌≡◌, ℕ, IfOk, length, map};
ghost use Rattle.sv_names.specs.Writers as writers;
ghost use Rattle.sv_elab_writers.specs.Views.{touch_in, row_in};
ghost use Rattle.sv_elab_writers.specs.Tables as words;

use crate::{Row, Touch};
use std::alloc::Global;
use std::marker::Model;
use sv_names::{Path, PathIndex, copy_path};
use sv_value::{NoMemory, Seq, Text};

/// The touches of the subroutines. They are seen as their list; those of one are found without a walk along it.
#[derive(Drop)]
pub(crate) struct Table<'a> {
    rows: Seq<Row<'a>>,
    paths: PathIndex,
}

impl<'a> Model for Table<'a> {
    ghost use Rattle.std.specs.Prelude.{◌≡◌, List};
    ghost use Rattle.std.specs.Coded.{codes};
    ghost use Rattle.sv_elab_writers.specs.declared.rows.Row.{Row};

    ghost Value = { List Row };

    ghost coded = { Prim.hlevel (codes) };

    ghost view = { λ x. x.rows };

    ghost use Rattle.sv_elab_writers.specs.Tables.{paths_of};

    ghost invariant = { λ x. x.paths ≡ paths_of x.rows };
}

/// The paths of the subroutines.
fn paths_of(alloc: Global, rows: &[Row]) -> Result<Seq<Path>, NoMemory>
    ensures { IfOk result (λ ps. ps ≡ words.paths_of rows.now) }
{
    let mut paths = Seq::new(alloc);
    let mut left = rows;
    while let [one, rest @ ..] = left {
        let path = copy_path(alloc, one.path)?;
        paths.push(path)?;
        left = rest;
    }
    Ok(paths)
}

/// The same subroutines in a list of their own.
fn copied<'a>(alloc: Global, rows: &[Row<'a>]) -> Result<Seq<Row<'a>>, NoMemory>
    ensures { IfOk result (λ rs. rs ≡ rows.now) }
{
    let mut copy = Vec::new(alloc);
    copy.extend_from_slice(rows)?;
    Ok(Seq::from_vec(copy))
}

impl<'a> Table<'a> {
    /// The table of these subroutines.
    pub(crate) fn new(alloc: Global, rows: &[Row<'a>]) -> Result<Table<'a>, NoMemory>
        ensures { IfOk result (λ t. t ≡ rows.now) }
    {
        let paths = paths_of(alloc, rows)?;
        let rows = copied(alloc, rows)?;
        let paths = PathIndex::new(alloc, paths)?;
        Ok(Table { rows, paths })
    }

    /// How many subroutines there are.
    pub(crate) fn len(&self) -> usize
        ensures { result ≡ length self.now }
    {
        self.rows.as_slice().len()
    }

    /// The touches of the subroutine of a path.
    pub(crate) fn touches_at(&self, path: &[Text]) -> &'a [Touch]
        ensures { map touch_in result.now ≡ writers.touches_at path.now (map row_in self.now) }
    {
        let position = self.paths.position(path);
        match self.rows.as_slice().get(position) {
            None => &[],
            Some(row) => row.touches,
        }
    }
}
