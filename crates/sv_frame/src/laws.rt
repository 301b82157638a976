// A law of the runs of built designs: the contract is the law, and there is nothing to run.
ghost use Rattle.sv_flat.specs.declared.design.Parts.{Parts};
ghost use Rattle.sv_built.specs.Built.{IsBuilt};
ghost use Rattle.sv_frame.specs.Framed.{IsFramed};

/// In two configurations of runs in which the reach of a process is equal it has the same effects at its next step, and before the
/// wakes of its changes these leave the same fault or none, an equal reach, and the same records; the same processes are ready,
/// the same is scheduled, and `$finish` runs in both or in neither.
pub fn frame()
    ensures { (d : Parts) → IsBuilt d → IsFramed d }
{}
