// Laws of the runs of built designs: each function's contract is the law, and there is nothing to run.
ghost use Rattle.sv_flat.specs.declared.design.Parts.{Parts};
ghost use Rattle.sv_flat.specs.Laws.{EachIsDirected};
ghost use Rattle.sv_built.specs.Built.{IsBuilt};

/// Two finite lists of numbers below 2^32 direct each legal run of a built design, so no order that the scheduler may take is out
/// of reach (IEEE 1800-2017, 4.7).
pub fn built_is_directed()
    ensures { (d : Parts) → IsBuilt d → EachIsDirected d }
{}
