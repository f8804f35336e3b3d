// Numbers that look like chance, from a seed.
ghost use Rattle.std.specs.Prelude.{◌≡◌};
ghost use Rattle.rv_make.specs.Draws.{drawn, draw_of};

// The number after this one.
pub(crate) fn drawn(number: u32) -> u32
    ensures { result ≡ drawn number }
{
    ((u64::from(number) * 1_103_515_245 + 12_345) % 2_147_483_648) as u32
}

// What a draw gives that leaves this number.
pub(crate) fn draw_of(number: u32) -> u32
    ensures { result ≡ draw_of number }
{
    number / 65_536
}
