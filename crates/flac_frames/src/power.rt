// Powers of two.
ghost use Rattle.std.specs.Prelude.{◌≡◌, ◌^◌, ◌<◌};

#[inline]
pub(crate) fn power_of_two(n: u32) -> u64
    requires { n < 64 }
    ensures { result ≡ 2 ^ n }
{
    1 << n
}
