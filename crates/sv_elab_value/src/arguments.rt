// What arguments break by themselves, and the first of them (IEEE 1800-2017, 13.5).
ghost use Rattle.std.specs.Prelude.{◌≡◌, ◌∷◌, List, IfOk, IfErr};
ghost use Rattle.sv_names.specs.declared.argument.Arg.{Arg as arg};
ghost use Rattle.sv_names.specs.declared.refusal.Refusal.TheVariants.{Memory};
ghost use Rattle.sv_names.specs.Arguments as arguments;
ghost use Rattle.sv_names.specs.Checked.{◌▷◌, ◌where_also◌, rule};
ghost use Rattle.sv_names.specs.Types as types;
ghost use Rattle.sv_names.specs.Given.{Gives};
ghost use Rattle.sv_elab_value.specs.Arguments as parts;

use sv_names::{Arg, Checked, Fault, Refusal, Taken, Typed, and_guard, answer, judged};
use sv_value::Seq;

/// E42: no whole array.
fn value_stands(value: &Checked<Typed>) -> Result<(), Refusal>
    ensures { Gives result (value.now ▷ (λ t. rule 42 t.at (types.is_array t.ty))) }
{
    match value {
        Checked::Good(t) => {
            if t.ty.is_array() {
                Err(Refusal::Rule { rule: 42, at: t.at })
            } else {
                Ok(())
            }
        }
        Checked::Broken(Fault { at, rule }) => Err(Refusal::Rule {
            rule: *rule,
            at: *at,
        }),
    }
}

/// What an argument breaks by itself.
fn arg_stands(a: &Arg) -> Result<(), Refusal>
    ensures { Gives result (arguments.value_of_arg a.now ▷ (λ t. rule 42 t.at (types.is_array t.ty))) }
{
    match &a.taken {
        Taken::Value(value) => value_stands(value),
        Taken::Target(_) => Err(Refusal::Rule { rule: 31, at: a.at }),
    }
}

/// What arguments break by themselves, and one more.
#[tactic(auto, using(sv_names::proofs::Joined::next_guarded))]
fn and_stands(stands: Checked<()>, a: &Arg) -> Result<Checked<()>, Refusal>
    ensures ok { IfOk result (λ c. (as' : List arg) → c where_also arguments.values_stand as' ≡ stands where_also arguments.values_stand (a.now ∷ as')) }
    ensures err { IfErr result (λ e. e ≡ Memory) }
{
    let next = judged(arg_stands(a))?;
    Ok(and_guard(stands, next))
}

/// What arguments break by themselves.
pub fn values_stand(args: &[Arg]) -> Result<(), Refusal>
    ensures { Gives result (arguments.values_stand args.now) }
{
    let mut stands = Checked::Good(());
    for a in args {
        stands = and_stands(stands, a)?;
    }
    answer(stands)
}

/// The first two arguments, where there are so many.
pub fn first_two(args: Seq<Arg>) -> Option<(Arg, Arg)>
    ensures { result ≡ parts.first_two args }
{
    let mut args = args.into_vec().into_iter();
    match args.next() {
        None => None,
        Some(first) => match args.next() {
            None => None,
            Some(second) => Some((first, second)),
        },
    }
}
