//! Sets by the runs of code points that a property's table has.
ghost use Rattle.std.specs.Prelude.{◌≡◌, ◌<◌, ◌≤◌, ◌-◌, ◌%◌, ◌++◌, ◌∷◌, [], ℕ, IfOk, OnOk, nat_lt};
ghost use Rattle.std.specs.Prelude.{if◌then◌else◌, length};
ghost use Rattle.unicode.specs.Steps.{IsPartition, is_between, run_value};
ghost use Rattle.rbbi_sets.specs.Covers.{covers};
ghost use Rattle.rbbi_sets.specs.Rising.{AreRising};
ghost use Rattle.rbbi_props.specs.inner.RunStarts.{start_of};

use rbbi_sets::{CodeRange, CodeSet};
use std::alloc::{AllocError, Global};

/// How many values there are. A run is the code point after it, times this, and its value.
const VALUES: u32 = 2048;

/// The code points whose value is from `first` to `last`. Of runs that follow one another, all with
/// such a value, one range is made.
pub(crate) fn set_of_runs(
    alloc: Global,
    runs: &[u32],
    first: u32,
    last: u32,
) -> Result<CodeSet, AllocError>
    requires partition { IsPartition runs.now }
    requires ordered { first ≤ last }
    ensures form { IfOk result (λ found. AreRising found) }
    ensures members { IfOk result (λ found. (c : ℕ) → c ≤ 0x10FFFF →
        covers found c ≡ is_between first last (run_value runs.now c)) }
{
    let mut ranges = Vec::new(alloc);
    // From this run on all have such a value.
    let mut from = 0;
    for i in 0..runs.len() {
        if !has_value(runs[i], first, last) {
            push_runs(&mut ranges, runs, from, i)?;
            from = i + 1;
        }
    }
    push_runs(&mut ranges, runs, from, runs.len())?;
    Ok(CodeSet::from_rising(ranges))
}

/// Whether the value of a run is from `first` to `last`, by one comparison.
fn has_value(run: u32, first: u32, last: u32) -> bool
    requires { first ≤ last }
    ensures { result ≡ is_between first last (run % 2048) }
{
    (run % VALUES).wrapping_sub(first) <= last - first
}

/// Adds the code points of the runs from one up to another as a range, if there are any.
fn push_runs(
    ranges: &mut Vec<CodeRange>,
    runs: &[u32],
    from: usize,
    to: usize,
) -> Result<(), AllocError>
    requires within { to ≤ length runs.now }
    requires some { from < to → 0 < start_of runs.now to }
    ensures { OnOk result (ranges.new.items ≡ (if nat_lt from to
        then ranges.old.items
        ++ record { low = start_of runs.now from; high = start_of runs.now to - 1 } ∷ []
        else ranges.old.items)) }
{
    if from < to {
        let low = start_of_run(runs, from);
        let high = start_of_run(runs, to) - 1;
        ranges.push(CodeRange { low, high })?;
    }
    Ok(())
}

/// The first code point of a run, or past the last run the one after it.
fn start_of_run(runs: &[u32], number: usize) -> u32
    requires { number ≤ length runs.now }
    ensures { result ≡ start_of runs.now number }
{
    if number == 0 {
        return 0;
    }
    runs[number - 1] / VALUES
}
