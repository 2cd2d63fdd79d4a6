// The numbers that words write.
ghost use Rattle.std.specs.Prelude.{◌≡◌, ◌^◌, ◌<◌, ◌∷◌, [], length, IfOk, IfSome};
ghost use Rattle.std.specs.Option.{option_map, option_map_or};
ghost use Rattle.dialog_tool.specs.Command as spec;
ghost use Rattle.dialog_tool.specs.Command.{between_commas};

use std::alloc::{AllocError, Global};

const MOST_DICE: usize = 1024;

// The number that a word writes, where it is from the first of these to the second.
#[tactic(auto, using(crate::proofs::DigitLemmas::too_great))]
pub fn number_of(least: u64, most: u64, word: &str) -> Option<u64>
    requires { most < 2 ^ 60 }
    ensures { result ≡ spec.number_within least most word.now }
{
    let digits = word.as_bytes();
    if digits.is_empty() {
        return None;
    }
    let mut value = 0;
    for c in digits {
        if !c.is_ascii_digit() {
            return None;
        }
        if value > most {
            return None;
        }
        value = 10 * value + (*c - b'0') as u64;
    }
    if least <= value && value <= most {
        Some(value)
    } else {
        None
    }
}

fn die_of(word: &str) -> Option<u16>
    ensures { result ≡ spec.number_within 0 65535 word.now }
{
    let number = number_of(0, 65_535, word)?;
    Some(number as u16)
}

// What stands before the first comma, and what stands behind it, if there is one.
fn cut(word: &str) -> (&str, Option<&str>)
    ensures parts { between_commas word.now ≡ result.0.now ∷ option_map_or (λ rest. between_commas rest.now) result.1 [] }
    ensures shorter { IfSome result.1 (λ rest. length rest.now < length word.now) }
{
    match word.split_once(',') {
        Some((part, rest)) => (part, Some(rest)),
        None => (word, None),
    }
}

/// The dice that a word writes.
pub fn dice_of(alloc: Global, word: &str) -> Result<Option<Vec<u16>>, AllocError>
    ensures dice { IfOk result (λ dice. option_map (λ d. d.items) dice ≡ spec.dice_of word.now) }
    ensures some { IfOk result (λ dice. IfSome dice (λ d. 0 < length d.items)) }
{
    let mut dice = Vec::new(alloc);
    let mut rest = Some(word);
    while let Some(words) = rest {
        let (part, behind) = cut(words);
        match die_of(part) {
            Some(die) if dice.len() < MOST_DICE => dice.push(die)?,
            _ => return Ok(None),
        }
        rest = behind;
    }
    Ok(Some(dice))
}
