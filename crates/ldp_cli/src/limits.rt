ghost use Rattle.std.specs.Prelude.{◌≡◌, ◌≤◌, map, string_bytes, IfSome, None, codes};
ghost use Rattle.std.specs.Prelude.{bytes_eq, if◌then◌else◌};
ghost use Rattle.ldp_design.specs.Limits.{most_budget, IsTolerance};
ghost use Rattle.ldp_cli.specs.Limits.{limits_in, budget_in, share_in, budget_alone, share_alone};
ghost use Rattle.ldp_cli.specs.Limits.{budget_and_share, AreLimits};

use ldp_design::{MOST_BUDGET, MOST_TOLERANCE};
use ldp_quantity::read_between;
use ldp_spelling::read_whole;

/// The nodes that a search may look at where no word says how many.
const USUAL_BUDGET: u32 = 200_000;

/// How many nodes a search may look at, and the distortion beyond which cells are counted, in units
/// of 10^-9 ppm.
#[derive(Clone, Copy, Debug, PartialEq, Eq)]
pub struct Limits {
    pub budget: u32,
    pub tolerance: Option<i128>,
}

/// What the words after the files say, if they are in a form and each number is in its range.
pub fn limits_of(words: &[String]) -> Option<Limits>
    ensures value { result ≡ limits_in (map string_bytes words.now) }
    ensures range { IfSome result AreLimits }
{
    match words {
        [] => Some(Limits {
            budget: USUAL_BUDGET,
            tolerance: None,
        }),
        [name, value] => one_limit(name.as_str(), value.as_bytes()),
        [first, nodes, second, ppm] => {
            if first.as_str() == "--budget" && second.as_str() == "--share" {
                budget_and_share(nodes.as_bytes(), ppm.as_bytes())
            } else {
                None
            }
        }
        _ => None,
    }
}

fn one_limit(name: &str, value: &[u8]) -> Option<Limits>
    ensures value { result ≡ (if bytes_eq name.now (codes "--budget") then budget_alone value.now
        else if bytes_eq name.now (codes "--share") then share_alone value.now
        else None) }
    ensures range { IfSome result AreLimits }
{
    if name == "--budget" {
        return Some(Limits {
            budget: budget(value)?,
            tolerance: None,
        });
    }
    if name == "--share" {
        return Some(Limits {
            budget: USUAL_BUDGET,
            tolerance: Some(share(value)?),
        });
    }
    None
}

fn budget_and_share(nodes: &[u8], ppm: &[u8]) -> Option<Limits>
    ensures value { result ≡ budget_and_share nodes.now ppm.now }
    ensures range { IfSome result AreLimits }
{
    let budget = budget(nodes)?;
    let share = share(ppm)?;
    Some(Limits {
        budget,
        tolerance: Some(share),
    })
}

fn budget(word: &[u8]) -> Option<u32>
    ensures value { result ≡ budget_in word.now }
    ensures range { IfSome result (λ budget. (1 ≤ budget) × (budget ≤ most_budget)) }
{
    let budget = read_whole(word, 1, u64::from(MOST_BUDGET))?;
    Some(budget as u32)
}

fn share(word: &[u8]) -> Option<i128>
    ensures value { result ≡ share_in word.now }
    ensures range { IfSome result IsTolerance }
{
    read_between(word, 9, 0, i128::from(MOST_TOLERANCE)).ok()
}
