// Names and values in memory of their own.
ghost use Rattle.std.specs.Prelude.{◌≡◌, ◌∷◌, ◌++◌, [], map, IfOk};
ghost use Rattle.sv_names.specs.declared.checked.Checked.{Checked as checked};
ghost use Rattle.sv_names.specs.Given.{Gives};
ghost use Rattle.sv_names.specs.Types as types;

use std::alloc::Global;
use sv_names::{Checked, Fault, Path, Refusal, Scope, copy_path, same_bytes};
use sv_tree::Name;
use sv_value::{NoMemory, Text};

/// The same name.
pub fn share_name(name: &Name) -> Result<Name, NoMemory>
    ensures { IfOk result (λ n. n ≡ name.now) }
{
    let text = name.text.share()?;
    Ok(Name { at: name.at, text })
}

/// A name in the scope with this path.
pub fn within(alloc: Global, path: &[Text], name: &Name) -> Result<Path, NoMemory>
    ensures { IfOk result (λ p. p ≡ path.now ++ name.now.text ∷ []) }
{
    let mut whole = copy_path(alloc, path)?;
    let mut text = Text::new(alloc);
    text.push_all(name.text.bytes())?;
    whole.push(text)?;
    Ok(whole)
}

/// What a function answers, as a value that may break a rule.
pub fn known<A: Drop>(a: Result<A, Refusal>) -> Result<Checked<A>, NoMemory>
    ensures { (x : checked A) → Gives a x → IfOk result (λ c. c ≡ x) }
{
    match a {
        Ok(x) => Ok(Checked::Good(x)),
        Err(Refusal::Rule { rule, at }) => Ok(Checked::Broken(Fault { at, rule })),
        Err(Refusal::Memory) => Err(NoMemory::Memory),
    }
}

/// A scope in front of others.
pub fn with_scope<'a>(
    alloc: Global,
    scope: &'a Scope,
    around: &[&'a Scope],
) -> Result<Vec<&'a Scope>, NoMemory>
    ensures { IfOk result (λ ss. map (λ s. s.now) ss.items ≡ scope.now ∷ map (λ s. s.now) around.now) }
{
    let mut scopes = Vec::new(alloc);
    scopes.push(scope)?;
    scopes.extend_from_slice(around)?;
    Ok(scopes)
}

/// Whether a text stands in a list.
pub fn among(text: &[u8], list: &[Text]) -> bool
    ensures { result ≡ types.among text.now list.now }
{
    match list {
        [] => false,
        [one, rest @ ..] => same_bytes(text, one.bytes()) || among(text, rest),
    }
}
