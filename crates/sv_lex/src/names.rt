// Names and system names (IEEE 1800-2017, 5.6).

ghost use Rattle.std.specs.Prelude.{◌≡◌, ◌≤◌, length};
ghost use Rattle.sv_tree.specs.Longest.{longest};
ghost use Rattle.sv_tree.specs.Tokens.{is_name, is_system_name};

use crate::letters::{is_letter, lifted, name_run};

/// The length of the longest name, or 0.
#[tactic(auto, using(crate::proofs::Prefixes::longest_short, crate::proofs::Forms::name_prefix))]
pub fn name_length(s: &[u8]) -> usize
    ensures value { result ≡ longest is_name s.now }
    ensures within { result ≤ length s.now }
{
    match s {
        [c, rest @ ..] => { if is_letter(*c) { 1 + name_run(rest) } else { 0 } }
        [] => 0,
    }
}

/// The length of the longest system name, or 0.
#[tactic(auto, using(crate::proofs::Prefixes::longest_short, crate::proofs::Forms::system_name_prefix))]
pub fn system_name_length(s: &[u8]) -> usize
    ensures value { result ≡ longest is_system_name s.now }
    ensures within { result ≤ length s.now }
{
    match s {
        [c, rest @ ..] => {
            if *c == b'$' {
                lifted(name_length(rest))
            } else {
                0
            }
        }
        [] => 0,
    }
}
