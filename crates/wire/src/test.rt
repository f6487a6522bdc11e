// Choices as values, for chains of them.
ghost use Rattle.std.specs.Prelude.{◌≡◌};
ghost use Rattle.wire.specs.Tests.{if_eq};

// a where m is n, else b: a number of its own, where a branch would be one more goal.
pub fn choose(m: usize, n: usize, a: usize, b: usize) -> usize
    ensures { result ≡ if_eq m n a b }
{
    if m == n {
        return a;
    }
    b
}
