// Lists one after the other.
ghost use Rattle.std.specs.Prelude.{◌≡◌, [], ◌∷◌, ◌++◌, IfOk, IfErr};
ghost use Rattle.sv_names.specs.declared.refusal.Refusal.TheVariants.{Memory};

use sv_names::Refusal;
use sv_value::Seq;

/// One list, and then another.
pub fn joined<T: Drop>(front: Seq<T>, back: Seq<T>) -> Result<Seq<T>, Refusal>
    ensures ok { IfOk result (λ list. list ≡ front ++ back) }
    ensures err { IfErr result (λ e. e ≡ Memory) }
{
    let mut all = front.into_vec();
    let mut rest = back.into_vec();
    all.append(&mut rest)?;
    Ok(Seq::from_vec(all))
}

/// A list, and one more item behind it.
pub fn put_last<T: Drop>(list: Seq<T>, next: T) -> Result<Seq<T>, Refusal>
    ensures ok { IfOk result (λ all. all ≡ list ++ next ∷ []) }
    ensures err { IfErr result (λ e. e ≡ Memory) }
{
    let mut all = list.into_vec();
    all.push(next)?;
    Ok(Seq::from_vec(all))
}
