//! The order of a demonstration.
ghost use Rattle.std.specs.Prelude.{◌≡◌, ◌+◌, ◌*◌, ◌%◌, ◌<◌, ◌≤◌, ◌++◌, IfOk, replicate};
ghost use Rattle.std.specs.List.{concat, range_with_len};
ghost use Rattle.stride_isa.specs.Limits.{thread_limit};
ghost use Rattle.demo.specs.Demo.{demo_order, drawn_part, thread_count, turns};
ghost use Rattle.demo.specs.Laws.{IsDemoOrder};

use crate::draws::{draw_at, next_draw};
use crate::laws::demo_orders_name_threads;
use crate::sizes::{place_of, thread_count, turns};
use std::alloc::Global;
use stride_base::{List, NoMemory};

// The thread that a draw names.
fn drawn_thread(draw: u32, threads: u8) -> u8
    requires { 0 < threads }
    ensures { result ≡ draw % threads }
{
    (draw % u32::from(threads)) as u8
}

// Appends the threads that are drawn.
fn push_drawn(order: &mut List<u8>, number: u64)
    requires { turns number ≤ order.old.spare }
    ensures items { order.new.items ≡ order.old.items ++ drawn_part number }
    ensures spare { order.new.spare + turns number ≡ order.old.spare }
{
    let threads = thread_count(number);
    let mut draw = draw_at(number, place_of(threads) - 1);
    for _ in 0..turns(number) {
        draw = next_draw(draw);
        order.push_spare(drawn_thread(draw, threads));
    }
}

// Appends the number of each thread.
fn push_each(order: &mut List<u8>, threads: u8)
    requires { threads ≤ order.old.spare }
    ensures items { order.new.items ≡ order.old.items ++ range_with_len 0 threads }
    ensures spare { order.new.spare + threads ≡ order.old.spare }
{
    for thread in 0..threads {
        order.push_spare(thread);
    }
}

// Appends the number of each thread so many times.
fn push_even(order: &mut List<u8>, threads: u8, times: usize)
    requires { times * threads ≤ order.old.spare }
    ensures items { order.new.items ≡ order.old.items ++ concat (replicate times (range_with_len 0 threads)) }
{
    for _ in 0..times {
        push_each(order, threads);
    }
}

/// The order of the demonstration of a number: only want of memory refuses it. All of it is reserved before the first member.
pub fn demo_order(alloc: Global, number: u64) -> Result<List<u8>, NoMemory>
    ensures is { IfOk result (λ order. order.items ≡ demo_order number) }
    ensures named { IfOk result (λ order. IsDemoOrder (thread_count number) (turns number) order.items) }
{
    demo_orders_name_threads();
    let threads = thread_count(number);
    let turns = turns(number);
    let mut order = List::new(alloc);
    order.reserve(turns + turns * usize::from(threads))?;
    push_drawn(&mut order, number);
    push_even(&mut order, threads, turns);
    Ok(order)
}
