// Lists of choices, as they stand on the command line.
ghost use Rattle.std.specs.Prelude.{◌≡◌, ◌<◌, ◌≤◌, ◌^◌, ◌-◌, ◌∷◌, IfOk, IfSome, Some, true, is_some, length};
ghost use Rattle.sv_words.specs.Words.{choice_list, number_within, between_commas};
ghost use Rattle.std.specs.List.{prefix_len};
ghost use Rattle.sv_words.specs.Parts.{is_no_comma, parts_left};

use crate::digits::{is_number, number_of};
use std::alloc::{AllocError, Global};

/// The most numbers of a list.
const MOST_CHOICES: usize = 65_536;

/// The number of a choice: of 1 to 20 digits, below 2^32.
#[tactic(auto, unfolding(crate::specs::Words::number_within))]
fn choice(digits: &[u8]) -> Option<u32>
    ensures { result ≡ number_within (2 ^ 32 - 1) digits.now }
{
    if !is_number(20, digits) {
        return None;
    }
    let number = number_of(digits);
    if number > u32::MAX as u128 {
        return None;
    }
    Some(number as u32)
}

/// How many bytes stand before the first comma.
#[tactic(auto, using(crate::proofs::ChoiceLemmas::within))]
fn length_of_part(list: &[u8]) -> usize
    ensures length { result ≡ prefix_len is_no_comma list.now }
    ensures within { result ≤ length list.now }
{
    list.iter().take_while(|b| **b != b',').count()
}

/// What stands before the first comma, and what stands behind it, if there is one.
#[tactic(auto, using(crate::proofs::ChoiceLemmas::one_part, crate::proofs::ChoiceLemmas::part_and_rest))]
fn first_part(list: &[u8]) -> (&[u8], Option<&[u8]>)
    ensures parts { between_commas list.now ≡ result.0.now ∷ parts_left result.1 }
    ensures shorter { IfSome result.1 (λ rest. length rest.now < length list.now) }
{
    let end = length_of_part(list);
    if end == list.len() {
        return (list, None);
    }
    (&list[..end], Some(&list[end + 1..]))
}

/// Whether a word is a list of choices: none, or at most 65,536 numbers below 2^32 between commas.
#[tactic(auto, unfolding(crate::specs::Words::choice_list))]
pub fn is_choice_list(list: &[u8]) -> bool
    ensures { result ≡ is_some (choice_list list.now) }
{
    if list.is_empty() {
        return true;
    }
    let mut count: usize = 0;
    let mut left = Some(list);
    while let Some(rest) = left {
        let (part, more) = first_part(rest);
        if choice(part).is_none() {
            return false;
        }
        count += 1;
        left = more;
    }
    count <= MOST_CHOICES
}

/// The numbers of a list of choices.
#[tactic(auto, unfolding(crate::specs::Words::choice_list))]
pub fn choices(alloc: Global, list: &[u8]) -> Result<Vec<u32>, AllocError>
    requires { is_some (choice_list list.now) ≡ true }
    ensures { IfOk result (λ numbers. choice_list list.now ≡ Some numbers.items) }
{
    let mut numbers = Vec::new(alloc);
    if list.is_empty() {
        return Ok(numbers);
    }
    let mut left = Some(list);
    while let Some(rest) = left {
        let (part, more) = first_part(rest);
        let Some(number) = choice(part) else {
            unreachable!();
        };
        numbers.push(number)?;
        left = more;
    }
    Ok(numbers)
}
