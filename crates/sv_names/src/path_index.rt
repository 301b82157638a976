// Paths in order, each with its position.
ghost use Rattle.std.specs.Prelude.{◌≡◌, IfOk, drop};
ghost use Rattle.sv_names.specs.Types as types;

use crate::path_marks::{MarkIndex, mark_of, marks_of};
use crate::{Path, same_path};
use std::alloc::Global;
use std::marker::Model;
use sv_value::{NoMemory, Seq, Text};

/// Paths in order. They are seen as their list; a path is found without a walk along it.
pub struct PathIndex {
    paths: Seq<Path>,
    first: MarkIndex,
}

impl Drop for PathIndex {
    fn drop(self) {
        let PathIndex { paths: _, first: _ } = self;
    }
}

impl Model for PathIndex {
    ghost use Rattle.std.specs.Prelude.{List};
    ghost use Rattle.std.specs.Coded.{codes};
    ghost use Rattle.sv_names.specs.Types.{Path};

    ghost Value = { List Path };

    ghost coded = { Prim.hlevel (codes) };

    ghost view = { λ x. x.paths };

    ghost use Rattle.sv_names.specs.Marks.{Marks, marks_of};

    ghost invariant = { λ x. Marks x.first (marks_of x.paths) };
}

impl PathIndex {
    /// The paths given.
    pub fn new(alloc: Global, paths: Seq<Path>) -> Result<PathIndex, NoMemory>
        ensures { IfOk result (λ x. x ≡ paths) }
    {
        let first = marks_of(alloc, paths.as_slice())?;
        Ok(PathIndex { paths, first })
    }

    /// The paths.
    pub fn paths(&self) -> &[Path]
        ensures { result.now ≡ self.now }
    {
        self.paths.as_slice()
    }

    /// The position of a path; of one that is not among them how many there are.
    pub fn position(&self, path: &[Text]) -> usize
        ensures { result ≡ types.position_of 0 path.now self.now }
    {
        let paths = self.paths.as_slice();
        match self.first.get(&mark_of(path)) {
            None => paths.len(),
            Some(first) => position_from(*first, path, paths),
        }
    }
}

/// Where a path stands first in a list from a position on; of one that does not, how many there are.
fn position_from(first: usize, path: &[Text], paths: &[Path]) -> usize
    ensures { result ≡ types.position_of first path.now (drop first paths.now) }
{
    let mut position = first;
    while position < paths.len() {
        if same_path(path, paths[position].as_slice()) {
            return position;
        }
        position += 1;
    }
    position
}
