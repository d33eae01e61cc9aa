//! How many threads a demonstration has, and what each of them does.
ghost use Rattle.std.specs.Prelude.{◌≡◌, ◌<◌, ◌≤◌};
ghost use Rattle.stride_isa.specs.Limits.{thread_limit};
ghost use Rattle.demo.specs.Demo.{amount_of, place_of, rounds_of, thread_count, total_rounds, turns};

use crate::draws::draw_at;

/// The place of a thread's first draw, or after the last thread the place of the order's first draw.
pub(crate) fn place_of(thread: u8) -> u32
    requires { thread ≤ thread_limit }
    ensures { result ≡ place_of thread }
{
    2 + 2 * u32::from(thread)
}

/// How many threads the demonstration of a number has.
pub(crate) fn thread_count(number: u64) -> u8
    ensures is { result ≡ thread_count number }
    ensures some { 2 ≤ result }
    ensures few { result ≤ thread_limit }
{
    2 + (draw_at(number, 1) % 15) as u8
}

/// How many rounds a thread makes.
pub(crate) fn rounds_of(number: u64, thread: u8) -> u32
    requires { thread < thread_limit }
    ensures is { result ≡ rounds_of number thread }
    ensures few { result ≤ 500 }
{
    10 + draw_at(number, place_of(thread)) % 491
}

/// What a thread adds to the total in each round.
pub(crate) fn amount_of(number: u64, thread: u8) -> u32
    requires { thread < thread_limit }
    ensures { result ≡ amount_of number thread }
{
    1 + draw_at(number, place_of(thread) + 1) % 1000
}

// How many rounds all threads make together.
fn total_rounds(number: u64) -> u32
    ensures is { result ≡ total_rounds number }
    ensures few { result ≤ 8000 }
{
    let mut total = 0;
    for thread in 0..thread_count(number) {
        total += rounds_of(number, thread);
    }
    total
}

/// How many members of the order are drawn, and how many times it names all threads then.
pub(crate) fn turns(number: u64) -> usize
    ensures is { result ≡ turns number }
    ensures few { result ≤ 512000 }
{
    64 * total_rounds(number) as usize
}
