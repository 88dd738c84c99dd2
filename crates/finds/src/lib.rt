// The results of reports: what may be reported, and how they are joined.
#![tactic(auto)]

ghost use Rattle.std.specs.Prelude.{◌≡◌, [], ◌∷◌};
ghost use Rattle.rules.specs.Joining.{none, first_of, last_of, join_all, reportable, passing, same_finds, is_none};
ghost use Rattle.finds.specs.Held.{held_join};

use rules::Finds;

pub fn none() -> Finds
    ensures { result ≡ none }
{
    Finds::default()
}

// Three tests without a branch between them, as in `nodes::formed::blank_ok`, which a scan of unused slots calls.
#[tactic(auto, unfolding(rules::specs::Joining::same_finds))]
pub fn is_none(f: Finds) -> bool
    ensures { result ≡ is_none f }
{
    (f.count == 0) & (f.first == 0) & (f.last == 0)
}

// Whether a result that is kept could have been reported.
#[tactic(auto, unfolding(rules::specs::Joining::reportable))]
pub fn passes(f: Finds) -> bool
    ensures { result ≡ passing f }
{
    f.count <= Finds::MOST
        && f.first <= Finds::MOST
        && f.last <= Finds::MOST
        && (f.count != 0 || f.first == 0 && f.last == 0)
}

// Whether a report may have these numbers: else 33.
#[tactic(auto, unfolding(rules::specs::Joining::reportable))]
pub fn is_reportable(count: i32, first: i32, last: i32) -> bool
    ensures { result ≡ reportable count first last }
{
    match (
        u32::try_from(count),
        u32::try_from(first),
        u32::try_from(last),
    ) {
        (Ok(count), Ok(first), Ok(last)) => passes(Finds { count, first, last }),
        _ => false,
    }
}

fn first_of(f: Finds, after: u32) -> u32
    ensures { result ≡ first_of f after }
{
    if f.count == 0 { after } else { f.first }
}

fn last_of(f: Finds, before: u32) -> u32
    ensures { result ≡ last_of f before }
{
    if f.count == 0 { before } else { f.last }
}

// The three joined. No count past 32 bits is ever asked for: the largest stands in for it.
#[tactic(auto, using(crate::proofs::Held::three_count, crate::proofs::Held::three_first, crate::proofs::Held::three_last), unfolding(crate::specs::Held::held_join))]
pub fn join_held(own: Finds, left: Finds, right: Finds) -> Finds
    ensures { result ≡ held_join own left right }
{
    Finds {
        count: own
            .count
            .saturating_add(left.count)
            .saturating_add(right.count),
        first: first_of(own, first_of(left, first_of(right, 0))),
        last: last_of(right, last_of(left, last_of(own, 0))),
    }
}

// Whether a result is the three joined. Three counts of any size make a sum in 64 bits.
#[tactic(auto, using(crate::proofs::Held::three_count), unfolding(rules::specs::Joining::same_finds, crate::specs::Held::held_join))]
pub fn is_joined(f: Finds, own: Finds, left: Finds, right: Finds) -> bool
    ensures { result ≡ same_finds f (join_all (own ∷ left ∷ right ∷ [])) }
{
    let sum = u64::from(own.count) + u64::from(left.count) + u64::from(right.count);
    u64::from(f.count) == sum && f == join_held(own, left, right)
}
