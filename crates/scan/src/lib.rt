// Scans of a table, for entries of any width: the lowest index of a value, and whether some count is above a limit.
// A search examines blocks of 64 entries without branching, so that it is done with vector instructions; from the first
// block that has a hit it examines blocks of 16, and from the first of those with a hit it searches one by one.
#![tactic(auto)]

ghost use Rattle.std.specs.Prelude.{◌≡◌, ◌<◌, ◌≤◌, Bool, ltb, length, unwrap_or, IfSome};
ghost use Rattle.std.specs.List.{position};
ghost use Rattle.scan.specs.Scan.{lowest, some, Skipped};

// Tells whether some entry passes the test. It does not branch. (`any` of the iterator and `contains` of the slice do: to
// search blocks by `contains` takes twice the time at 4,096 entries.)
fn any<T: Copy, F: Fn(T) -> bool>(xs: &[T], test: F) -> bool
    requires { F.IsAlwaysCallable test }
    ensures { (f : T → Bool) → ((x : T) (b : Bool) → F.post test x b → b ≡ f x) → result ≡ some f xs.now }
{
    xs.iter()
        .map(|x| test(*x))
        .fold(false, |found, here| found | here)
}

// The start of the first block of that size in which x stands, or of what is left after the last whole block.
fn skip<T: Copy + PartialEq>(xs: &[T], size: usize, x: T) -> usize
    requires { 1 ≤ size }
    ensures { Skipped (λ y. T.eq y x) xs.now result }
{
    xs.chunks_exact(size)
        .take_while(|block| !any(*block, |y| y == x))
        .count()
        * size
}

// The lowest index at which x stands. It searches one by one.
fn search<T: Copy + PartialEq>(xs: &[T], x: T) -> Option<usize>
    ensures { result ≡ position (λ y. T.eq y x) xs.now }
{
    xs.iter().position(|y| *y == x)
}

// The lowest index at which x stands.
pub fn index_of<T: Copy + PartialEq>(xs: &[T], x: T) -> Option<usize>
    ensures place { unwrap_or result (length xs.now) ≡ lowest (λ y. T.eq y x) xs.now }
    ensures inside { IfSome result (λ i. i < length xs.now) }
{
    let far = skip(xs, 64, x);
    let near = far + skip(&xs[far..], 16, x);
    let i = search(&xs[near..], x)?;
    Some(near + i)
}

// Some count is above the limit.
pub fn any_above(counts: &[u32], limit: u32) -> bool
    ensures { result ≡ some (λ count. ltb limit count) counts.now }
{
    any(counts, |count| limit < count)
}
