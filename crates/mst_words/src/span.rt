//! Spans of time.
ghost use Rattle.std.specs.Prelude.{◌<◌, List, ℕ, MatchOption};
ghost use Rattle.mst_words.specs.Spans.{HasUnit, IsManyOf, IsSpan};

/// What stands before the letter of a unit, and the milliseconds of that unit.
fn parts_of(word: &str) -> Option<(&str, u64)>
    ensures { MatchOption result ((count : List ℕ) (unit : ℕ) → ¬ HasUnit word.now count unit) (λ parts. HasUnit word.now parts.0.now parts.1) }
{
    if let Some(count) = word.strip_suffix('s') {
        return Some((count, 1_000));
    }
    if let Some(count) = word.strip_suffix('m') {
        return Some((count, 60_000));
    }
    if let Some(count) = word.strip_suffix('h') {
        return Some((count, 3_600_000));
    }
    if let Some(count) = word.strip_suffix('d') {
        return Some((count, 86_400_000));
    }
    None
}

/// The milliseconds of this many of a unit.
fn many_of(count: &str, unit: u64) -> Option<u64>
    requires { 0 < unit }
    ensures { MatchOption result ((span : ℕ) → ¬ IsManyOf count.now unit span) (IsManyOf count.now unit) }
{
    let Ok(count) = count.parse::<u64>() else {
        return None;
    };
    count.checked_mul(unit)
}

/// The milliseconds of a number and a unit, as `30d`. It takes no memory.
pub fn milliseconds_of(word: &str) -> Option<u64>
    ensures { MatchOption result ((span : ℕ) → ¬ IsSpan word.now span) (IsSpan word.now) }
{
    let Some((count, unit)) = parts_of(word) else {
        return None;
    };
    many_of(count, unit)
}
