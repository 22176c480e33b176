//! The values of a list that pass a test, of which each is behind all that don't.

ghost use Rattle.std.specs.Prelude.{◌≡◌, ◌≤◌, Bool, true, false, not, filter, length};
ghost use Rattle.std.specs.List.Sorted.{IsPartitionPoint, IsPartitionedBy};
ghost use Rattle.smil_model.specs.Rising.{IsRising};

/// A test of values. Its meaning is whether a value passes.
pub trait Test<T> {
    ghost passes: { Self → T → Bool };

    /// Whether a value passes.
    fn passes(&self, value: T) -> bool
        ensures { result ≡ passes self.now value };
}

/// The values that pass a test, where all stand behind those that don't. It takes a fixed number of
/// steps where none or the last one alone passes, as mostly, and else log n steps for n values.
#[inline(always)]
pub fn passing<T: Copy, P: Test<T> + Copy>(values: &[T], test: P) -> &[T]
    requires { IsPartitionedBy (λ value. not (P.passes test value)) values.now }
    ensures part { result.now ≡ filter (P.passes test) values.now }
    ensures rising { (at_most : T → T → Bool) → IsRising at_most values.now
        → IsRising at_most result.now }
{
    let place = first_passing(values, test);
    &values[place..]
}

// The place of the first value that passes, or how many there are.
#[inline(always)]
fn first_passing<T: Copy, P: Test<T> + Copy>(values: &[T], test: P) -> usize
    requires { IsPartitionedBy (λ value. not (P.passes test value)) values.now }
    ensures bound { result ≤ length values.now }
    ensures point { IsPartitionPoint (λ value. not (P.passes test value) ≡ true)
        (λ value. not (P.passes test value) ≡ false) values.now result }
{
    let count = values.len();
    if count == 0 {
        return 0;
    }
    if !test.passes(values[count - 1]) {
        return count;
    }
    if count == 1 {
        return 0;
    }
    if !test.passes(values[count - 2]) {
        return count - 1;
    }
    search(values, test)
}

// The place of the first value that passes, or how many there are, by binary search.
#[inline(never)]
fn search<T: Copy, P: Test<T> + Copy>(values: &[T], test: P) -> usize
    requires { IsPartitionedBy (λ value. not (P.passes test value)) values.now }
    ensures bound { result ≤ length values.now }
    ensures point { IsPartitionPoint (λ value. not (P.passes test value) ≡ true)
        (λ value. not (P.passes test value) ≡ false) values.now result }
{
    values.partition_point(|value| !test.passes(*value))
}
