// The array that a `foreach` walks (IEEE 1800-2017, 12.7.3): E7.
ghost use Rattle.std.specs.Prelude.{◌≡◌, IfOk, IfErr};
ghost use Rattle.sv_names.specs.declared.refusal.Refusal.TheVariants.{Memory};
ghost use Rattle.sv_names.specs.Statements as statements;
ghost use Rattle.sv_names.specs.Views.{around_in};

use std::alloc::Global;
use sv_elab_flow::walked;
use sv_elab_variable::sv_elab_write::value_of_name;
use sv_names::{Around, Checked, Refusal, Typed};
use sv_tree::Name;

/// The array that a `foreach` walks. E7: it is none.
pub fn walked_array(alloc: Global, name: &Name, around: &Around) -> Result<Checked<Typed>, Refusal>
    ensures ok { IfOk result (λ t. t ≡ statements.walked_array (around_in around.now) name.now) }
    ensures err { IfErr result (λ e. e ≡ Memory) }
{
    match value_of_name(alloc, name, around)? {
        Checked::Good(t) => Ok(walked(name.at, t)),
        Checked::Broken(f) => Ok(Checked::Broken(f)),
    }
}
