//! Lists of numbers, and what they add up to.

ghost use Rattle.std.specs.Prelude.{◌≡◌, ◌<◌, ◌≤◌, ◌+◌, ◌-◌, ◌==◌, ◌^◌, ℕ, length, true, not, OnOk, slice_set, vec_len};
ghost use Rattle.mark_list.specs.Marks.{at, count_before, is_marked, one_if, sum_before};

use umix_base::Memory;

/// Makes the list of numbers at least so long. The new ones are 0.
pub(crate) fn lengthen(numbers: &mut Vec<usize>, size: usize) -> Result<(), Memory>
    ensures same { (i : ℕ) → at numbers.new.items i ≡ at numbers.old.items i }
    ensures longer { vec_len numbers.old ≤ vec_len numbers.new }
    ensures most { vec_len numbers.new ≤ vec_len numbers.old + (size - vec_len numbers.old) }
    ensures ok { OnOk result (size ≤ vec_len numbers.new) }
{
    if numbers.len() < size {
        numbers.resize(size, 0)?;
    }
    Ok(())
}

/// Makes the list of marks at least so long. The new ones aren't set.
pub(crate) fn lengthen_marks(marks: &mut Vec<bool>, size: usize) -> Result<(), Memory>
    ensures same { (i : ℕ) → is_marked marks.new.items i ≡ is_marked marks.old.items i }
    ensures longer { vec_len marks.old ≤ vec_len marks.new }
    ensures most { vec_len marks.new ≤ vec_len marks.old + (size - vec_len marks.old) }
    ensures ok { OnOk result (size ≤ vec_len marks.new) }
{
    if marks.len() < size {
        marks.resize(size, false)?;
    }
    Ok(())
}

/// The sum of the numbers from one place to before another.
pub(crate) fn sum_between(numbers: &[usize], from: usize, to: usize) -> usize
    requires order { from ≤ to }
    requires there { to ≤ length numbers.now }
    requires small { sum_before numbers.now to < 2 ^ 64 }
    ensures { sum_before numbers.now from + result ≡ sum_before numbers.now to }
{
    let mut sum: usize = 0;
    for place in from..to {
        sum += numbers[place];
    }
    sum
}

/// Where the sum passes so much, counted from a place on, and how much of it is left there.
pub(crate) fn find_sum(numbers: &[usize], from: usize, much: usize) -> (usize, usize)
    requires { sum_before numbers.now from + much < sum_before numbers.now (length numbers.now) }
    ensures there { result.0 < length numbers.now }
    ensures left { result.1 < at numbers.now result.0 }
    ensures is { sum_before numbers.now result.0 + result.1 ≡ sum_before numbers.now from + much }
{
    let mut left = much;
    for place in from..numbers.len() {
        let number = numbers[place];
        if left < number {
            return (place, left);
        }
        left -= number;
    }
    unreachable!()
}

/// How many marks are set from one place to before another.
pub(crate) fn count_between(marks: &[bool], from: usize, to: usize) -> usize
    requires order { from ≤ to }
    requires there { to ≤ length marks.now }
    ensures { count_before marks.now from + result ≡ count_before marks.now to }
{
    let mut count: usize = 0;
    for place in from..to {
        count += number_of(marks[place]);
    }
    count
}

/// Whether no mark is set from one place to before another.
pub(crate) fn none_between(marks: &[bool], from: usize, to: usize) -> bool
    requires order { from ≤ to }
    requires there { to ≤ length marks.now }
    ensures { result ≡ (count_before marks.now from == count_before marks.now to) }
{
    for place in from..to {
        if marks[place] {
            return false;
        }
    }
    true
}

/// The place of the mark that comes after so many, counted from a place on.
pub(crate) fn mark_after(marks: &[bool], from: usize, many: usize) -> usize
    requires { count_before marks.now from + many < count_before marks.now (length marks.now) }
    ensures there { result < length marks.now }
    ensures set { is_marked marks.now result ≡ true }
    ensures is { count_before marks.now result ≡ count_before marks.now from + many }
{
    let mut left = many;
    for place in from..marks.len() {
        let number = number_of(marks[place]);
        if left < number {
            return place;
        }
        left -= number;
    }
    unreachable!()
}

/// How many are set, after one more was set or one is so no more.
pub(crate) fn next_count(number: usize, set: bool) -> usize
    requires low { one_if (not set) ≤ number }
    requires high { number + one_if set < 2 ^ 64 }
    ensures { result + one_if (not set) ≡ number + one_if set }
{
    match set {
        true => number + 1,
        false => number - 1,
    }
}

/// Such a count at one place of a list, after one more was set or one is so no more.
pub(crate) fn count_mark(numbers: &mut Vec<usize>, place: usize, set: bool)
    requires there { place < length numbers.old.items }
    requires low { one_if (not set) ≤ at numbers.old.items place }
    requires high { at numbers.old.items place + one_if set < 2 ^ 64 }
    ensures { (number : ℕ) × (number + one_if (not set) ≡ at numbers.old.items place + one_if set)
        × (numbers.new.items ≡ slice_set numbers.old.items place number) }
{
    numbers[place] = next_count(numbers[place], set);
}

/// 1 for a mark that is set, and 0 for one that isn't.
fn number_of(mark: bool) -> usize
    ensures { result ≡ one_if mark }
{
    match mark {
        true => 1,
        false => 0,
    }
}
