//! The numbers that a demonstration draws.
ghost use Rattle.std.specs.Prelude.{◌≡◌, ◌<◌};
ghost use Rattle.demo.specs.Draws.{draw, next_draw, draw_bound};

/// Every draw is below this number.
pub(crate) const DRAW_BOUND: u32 = 65_537;

/// What is drawn after a draw.
pub(crate) fn next_draw(draw: u32) -> u32
    requires { draw < draw_bound }
    ensures is { result ≡ next_draw draw }
    ensures small { result < draw_bound }
{
    (75 * draw + 74) % DRAW_BOUND
}

/// The draw at a place of the sequence that begins with this number.
pub(crate) fn draw_at(number: u64, place: u32) -> u32
    ensures is { result ≡ draw number place }
    ensures small { result < draw_bound }
{
    let mut draw = (number % u64::from(DRAW_BOUND)) as u32;
    for _ in 0..place {
        draw = next_draw(draw);
    }
    draw
}
