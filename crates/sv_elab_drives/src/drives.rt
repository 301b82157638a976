// The nets that are driven so far.
ghost use Rattle.std.specs.Prelude.{◌≡◌, ◌++◌, ◌∷◌, [], IfOk, OnOk, OnErr};
ghost use Rattle.sv_names.specs.Clockings as clockings;
ghost use Rattle.sv_elab_drives.specs.Counts.{CountsOf};

use crate::counts::{Counts, count, times_of};
use std::alloc::Global;
use std::marker::Model;
use sv_names::Path;
use sv_value::{NoMemory, Seq, Text};

/// The nets that are driven so far, each as often as it has drivers. They are seen as their list; how often a net stands in it is told
/// without a walk along it.
pub struct Drives {
    nets: Seq<Path>,
    counts: Counts,
    others: Seq<Path>,
}

impl Drop for Drives {
    fn drop(self) {
        let Drives {
            nets: _,
            counts: _,
            others: _,
        } = self;
    }
}

impl Model for Drives {
    ghost use Rattle.std.specs.Prelude.{List};
    ghost use Rattle.std.specs.Coded.{codes};
    ghost use Rattle.sv_names.specs.Types.{Path};

    ghost Value = { List Path };

    ghost coded = { Prim.hlevel (codes) };

    ghost view = { λ x. x.nets };

    ghost use Rattle.sv_elab_drives.specs.Counts.{CountsOf};

    ghost invariant = { λ x. CountsOf x.counts x.others x.nets };
}

/// Appends a net to a list that is counted.
fn add(
    alloc: Global,
    net: Path,
    nets: &mut Seq<Path>,
    counts: &mut Counts,
    others: &mut Seq<Path>,
) -> Result<(), NoMemory>
    ensures net { OnOk result (nets.new ≡ nets.old ++ net ∷ []) }
    ensures counted { CountsOf counts.old others.old nets.old → OnOk result (CountsOf counts.new others.new nets.new) }
{
    count(alloc, net.as_slice(), counts, others)?;
    nets.push(net)
}

impl Drives {
    /// No nets.
    pub fn new(alloc: Global) -> Drives
        ensures { result ≡ [] }
    {
        Drives {
            nets: Seq::new(alloc),
            counts: Counts::new(alloc),
            others: Seq::new(alloc),
        }
    }

    /// How often a net is driven so far.
    pub fn times(&self, net: &[Text]) -> Result<u32, NoMemory>
        ensures { IfOk result (λ n. n ≡ clockings.times_in net.now self.now) }
    {
        times_of(net, &self.counts, self.others.as_slice())
    }

    /// Appends a net. Where memory runs out, none is left.
    pub fn push(&mut self, alloc: Global, net: Path) -> Result<(), NoMemory>
        ensures ok { OnOk result (self.new ≡ self.old ++ net ∷ []) }
        ensures err { OnErr result (self.new ≡ []) }
    {
        match add(
            alloc,
            net,
            &mut self.nets,
            &mut self.counts,
            &mut self.others,
        ) {
            Ok(()) => Ok(()),
            Err(e) => {
                self.nets = Seq::new(alloc);
                self.counts = Counts::new(alloc);
                self.others = Seq::new(alloc);
                Err(e)
            }
        }
    }

    /// Appends nets.
    pub fn append(&mut self, alloc: Global, nets: Seq<Path>) -> Result<(), NoMemory>
        ensures { OnOk result (self.new ≡ self.old ++ nets) }
    {
        for net in nets.into_vec() {
            self.push(alloc, net)?;
        }
        Ok(())
    }
}
