// What holds of the files that are read.
ghost use Rattle.std.specs.Prelude.{◌≡◌, ◌≢◌, List, ℕ, Option, Some};
ghost use Rattle.sv_flat.specs.declared.design.Parts.{Parts};
ghost use Rattle.sv_simulate.specs.declared.front.FrontFault.{FrontFault};
ghost use Rattle.sv_simulate.specs.declared.front.FrontFault.TheVariants.{Memory};
ghost use Rattle.sv_words.specs.declared.words.Limits.{Limits};
ghost use Rattle.sv_simulate.specs.Said.{Said, Says};
ghost use Rattle.sv_simulate.specs.Source.{IsSource, Explains};

/// No files have two designs under one root.
pub fn one_design()
    ensures { (texts : List (List ℕ)) (top : Option (List ℕ)) (d e : Parts) → IsSource texts top d → IsSource texts top e → d ≡ e }
{}

/// No files have two faults under one root.
pub fn one_fault()
    ensures { (texts : List (List ℕ)) (top : Option (List ℕ)) (f g : FrontFault) → Explains texts top f → Explains texts top g
        → f ≢ Memory → g ≢ Memory → f ≡ g }
{}

/// No files with a design have a fault under the same root; memory alone may run out.
pub fn fault_or_design()
    ensures { (texts : List (List ℕ)) (top : Option (List ℕ)) (d : Parts) (f : FrontFault) → IsSource texts top d → Explains texts top f
        → f ≡ Memory }
{}

/// To words there is one thing to say, by the files that a shelf tells and within limits.
pub fn one_said()
    ensures { (l : Limits) (words : List (List ℕ)) (files : List ℕ → Option (List ℕ)) (s t : Said)
        → Says l words (Some files) s → Says l words (Some files) t → s ≡ t }
{}
