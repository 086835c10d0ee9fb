ghost use Rattle.std.specs.Prelude.{◌≡◌, ℕ, ◌+◌, ◌-◌, ◌<◌, ◌≤◌, true, false, ◌++◌, map, length, take, replicate, pos, Some, None, MatchResult, ◌==◌, unsigned_abs};
ghost use Rattle.std.specs.List.{list_all};
ghost use Rattle.knots.specs.Lawful.{piece_refusal, Stores, first_knots, is_count, is_knot, times, repeats_well, first_outside, first_fall, first_ill_repeated};
ghost use Rattle.refusals.specs.declared.piece.PieceFault.TheVariants.{Count, KnotCount, KnotRange, KnotFalls, KnotRepeats};

use crate::degree::Degree;
use crate::list::{KnotList, LawfulList, MOST_KNOTS};
use refusals::piece::PieceFault;

// A piece of degree d has from d + 1 to 64 control points.
fn judge_count(degree: Degree, count: usize) -> Result<(), PieceFault>
    ensures { MatchResult result
        (λ _. (is_count degree.value count ≡ true) × (count ≤ 64))
        (λ e. (is_count degree.value count ≡ false) × (e ≡ Count)) }
{
    if (degree.value + 1..=64).contains(&count) {
        Ok(())
    } else {
        Err(PieceFault::Count)
    }
}

// As many knots as control points, degree and one together.
fn judge_knot_count(degree: Degree, count: usize, knots: usize) -> Result<(), PieceFault>
    requires { count ≤ 64 }
    ensures { MatchResult result
        (λ _. knots ≡ count + degree.value + 1)
        (λ e. ((knots == count + degree.value + 1) ≡ false) × (e ≡ KnotCount)) }
{
    if knots == count + degree.value + 1 {
        Ok(())
    } else {
        Err(PieceFault::KnotCount)
    }
}

// A knot is 0 to 1,048,576; it is stored in 32 bits.
fn judged_knot(knot: i64, place: usize) -> Result<u32, PieceFault>
    ensures { MatchResult result
        (λ k. (is_knot knot ≡ true) × (knot ≡ pos k))
        (λ e. (is_knot knot ≡ false) × (e ≡ KnotRange place)) }
{
    match u32::try_from(knot) {
        Ok(k @ 0..=1_048_576) => Ok(k),
        _ => Err(PieceFault::KnotRange(place)),
    }
}

// How often a value stands in a knot list.
fn occurrences(x: u32, knots: &[u32]) -> usize
    ensures { result ≡ times x knots.now }
{
    knots.iter().map(|knot| usize::from(*knot == x)).sum()
}

// The first and the last value stand degree + 1 times, any other at most degree times.
fn repeats_well(degree: Degree, knots: &[u32], x: u32) -> bool
    requires { 0 < length knots.now }
    ensures { result ≡ repeats_well degree.value knots.now x }
{
    let seen = occurrences(x, knots);
    if x == knots[0] || x == knots[knots.len() - 1] {
        seen == degree.value + 1
    } else {
        seen <= degree.value
    }
}

// The knots as they are stored, with 0 after them.
fn narrowed(knots: &[i64]) -> Result<[u32; MOST_KNOTS], PieceFault>
    requires { length knots.now ≤ 70 }
    ensures { MatchResult result
        (λ stored. (first_outside knots.now ≡ None)
        × (stored ≡ map unsigned_abs knots.now ++ replicate (70 - length knots.now) 0)
        × (take (length knots.now) stored ≡ map unsigned_abs knots.now)
        × (knots.now ≡ map pos (map unsigned_abs knots.now)))
        (λ e. (i : ℕ) × (first_outside knots.now ≡ Some i) × (e ≡ KnotRange i)) }
{
    let mut stored = [0; MOST_KNOTS];
    for (i, knot) in knots.iter().enumerate() {
        stored[i] = judged_knot(*knot, i)?;
    }
    Ok(stored)
}

// No knot is below the one before.
#[tactic(auto, using(crate::proofs::Judging::fall_found, crate::proofs::Judging::fall_none))]
fn judge_order(knots: &[u32]) -> Result<(), PieceFault>
    ensures { MatchResult result
        (λ _. first_fall knots.now ≡ None)
        (λ e. (i : ℕ) × (first_fall knots.now ≡ Some i) × (e ≡ KnotFalls i)) }
{
    for (i, knot) in knots.iter().enumerate() {
        if i > 0 && *knot < knots[i - 1] {
            return Err(PieceFault::KnotFalls(i));
        }
    }
    Ok(())
}

// Whether each value stands as often as it may.
fn all_repeat_well(degree: Degree, knots: &[u32]) -> bool
    ensures { result ≡ list_all (repeats_well degree.value knots.now) knots.now }
{
    knots.iter().all(|knot| repeats_well(degree, knots, *knot))
}

// No value stands too often or too seldom.
#[tactic(auto, using(crate::proofs::Judging::none_ill, crate::proofs::Judging::some_ill))]
fn judge_repeats(degree: Degree, knots: &[u32]) -> Result<(), PieceFault>
    ensures { MatchResult result
        (λ _. first_ill_repeated degree.value knots.now ≡ None)
        (λ e. (i : ℕ) × (first_ill_repeated degree.value knots.now ≡ Some i) × (e ≡ KnotRepeats)) }
{
    if all_repeat_well(degree, knots) {
        Ok(())
    } else {
        Err(PieceFault::KnotRepeats)
    }
}

// The list of what nothing refuses, which is lawful.
#[tactic(auto, using(crate::proofs::Lawfuls::lawful))]
fn listed(degree: usize, count: usize, knots: [u32; MOST_KNOTS]) -> LawfulList
    requires { piece_refusal (pos degree) count (map pos (first_knots degree count knots)) ≡ None }
    ensures { (result.list.degree ≡ degree) × (result.list.count ≡ count) × (result.list.knots ≡ knots) }
{
    LawfulList {
        list: KnotList {
            degree,
            count,
            knots,
        },
    }
}

// Judges degree, number of control points and knots as the caller has them, and stores them
// where they are lawful: causes 4 to 9, the smallest number first.
pub fn judge(degree: i64, count: usize, knots: &[i64]) -> Result<LawfulList, PieceFault>
    ensures judged { MatchResult result
        (λ l. (piece_refusal degree count knots.now ≡ None) × Stores degree count knots.now l.list)
        (λ e. piece_refusal degree count knots.now ≡ Some e) }
{
    let degree = Degree::try_from(degree)?;
    judge_count(degree, count)?;
    judge_knot_count(degree, count, knots.len())?;
    let stored = narrowed(knots)?;
    let in_use = &stored[..knots.len()];
    judge_order(in_use)?;
    judge_repeats(degree, in_use)?;
    Ok(listed(degree.value, count, stored))
}
