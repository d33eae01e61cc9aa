//! `read_order`: the order that a text spells.
ghost use Rattle.std.specs.Prelude.{◌≡◌, ◌+◌, ◌≤◌, ◌++◌, length, replicate, IfOk, IfSome, IfNone, OnOk, Some, None};
ghost use Rattle.std.specs.Option.{option_map};
ghost use Rattle.assembler.specs.Answers.{IsAnswer};
ghost use Rattle.assembler.specs.Orders.{halves, order_spelled, repeated_of, times_of};
ghost use Rattle.assembler.specs.OrderReading.{line_words, with_word, with_words};
ghost use Rattle.assembler.specs.Words.{words_of};

use crate::asm_error::{AsmError, AsmKind};
use crate::lines::take_line;
use crate::numbers::number_up_to;
use crate::words::{before_comment, take_word};
use std::alloc::Global;
use stride_base::limits::{INPUT_LIMIT, ORDER_LIMIT};
use stride_base::{List, NoMemory};

/// A thread and how many times in a row it is named.
#[derive(Clone, Copy)]
struct Run {
    thread: u8,
    times: usize,
}

/// What stands before the first `*` of a word, and what stands after it, if there is one.
#[tactic(auto, using(crate::proofs::OrderLemmas::star_steps))]
fn split_star(word: &[u8]) -> (&[u8], Option<&[u8]>)
    ensures front { result.0.now ≡ (halves word.now).front }
    ensures back { option_map (λ count. count.now) result.1 ≡ (halves word.now).back }
{
    for (i, byte) in word.iter().enumerate() {
        if *byte == b'*' {
            return (word.split_at(i).0, Some(word.split_at(i + 1).1));
        }
    }
    (word, None)
}

/// How many times a word with this count names a thread.
fn times_in(count: Option<&[u8]>) -> Option<usize>
    ensures times { result ≡ times_of (option_map (λ c. c.now) count.entry) }
    ensures few { IfSome result (λ times. times ≤ ORDER_LIMIT) }
{
    let Some(digits) = count else {
        return Some(1);
    };
    let Some(times) = number_up_to(ORDER_LIMIT as u64, digits) else {
        return None;
    };
    if times >= 1 {
        Some(times as usize)
    } else {
        None
    }
}

// What a word of an order says, `t` or `t*n`, of whatever length.
fn spelled_run(word: &[u8]) -> Option<Run>
    ensures run { IfSome result (λ run. repeated_of word.now ≡ Some (record { thread = run.thread; times = run.times })) }
    ensures few { IfSome result (λ run. run.times ≤ ORDER_LIMIT) }
    ensures none { IfNone result (repeated_of word.now ≡ None) }
{
    let (front, back) = split_star(word);
    let Some(thread) = number_up_to(u64::from(u8::MAX), front) else {
        return None;
    };
    let Some(times) = times_in(back) else {
        return None;
    };
    Some(Run {
        thread: thread as u8,
        times,
    })
}

/// What a word of an order says, `t` or `t*n`. The commonest words are one digit.
#[tactic(auto, using(crate::proofs::OrderLemmas::digit_run))]
fn run_of(word: &[u8]) -> Option<Run>
    ensures run { IfSome result (λ run. repeated_of word.now ≡ Some (record { thread = run.thread; times = run.times })) }
    ensures few { IfSome result (λ run. run.times ≤ ORDER_LIMIT) }
    ensures none { IfNone result (repeated_of word.now ≡ None) }
{
    match word {
        [digit @ b'0'..=b'9'] => Some(Run {
            thread: *digit - b'0',
            times: 1,
        }),
        _ => spelled_run(word),
    }
}

// The room is asked for once, so that a long run costs no more than its bytes; one member alone needs no loop.
fn push_run(order: &mut List<u8>, run: Run) -> Result<(), NoMemory>
    ensures { OnOk result (order.new.items ≡ order.old.items ++ replicate run.times run.thread) }
{
    if run.times == 1 {
        return order.push(run.thread);
    }
    order.reserve(run.times)?;
    for _ in 0..run.times {
        order.push_spare(run.thread);
    }
    Ok(())
}

fn push_word(order: &mut List<u8>, word: &[u8], line: u32) -> Result<(), AsmError>
    ensures added { IsAnswer (λ _. order.new.items) result (with_word order.old.items (record { line = line; word = word.now })) }
    ensures within { OnOk result (length order.new.items ≤ ORDER_LIMIT) }
{
    let Some(run) = run_of(word) else {
        return Err(AsmError::Bad {
            kind: AsmKind::BadNumber,
            line,
        });
    };
    if order.len() + run.times > ORDER_LIMIT {
        return Err(AsmError::Bad {
            kind: AsmKind::TooMany,
            line,
        });
    }
    push_run(order, run)?;
    Ok(())
}

fn push_line(order: &mut List<u8>, line: &[u8], number: u32) -> Result<(), AsmError>
    requires { length order.old.items ≤ ORDER_LIMIT }
    ensures added { IsAnswer (λ _. order.new.items) result (with_words order.old.items (line_words number (words_of line.now))) }
    ensures within { OnOk result (length order.new.items ≤ ORDER_LIMIT) }
{
    let mut rest = before_comment(line);
    while let Some((word, after)) = take_word(rest) {
        push_word(order, word, number)?;
        rest = after;
    }
    Ok(())
}

/// The order that the text spells, whose first line has this number, or its first word that is refused.
#[tactic(auto, using(crate::proofs::OrderLemmas::line_steps))]
pub fn read_order(alloc: Global, text: &[u8], first_line: u32) -> Result<List<u8>, AsmError>
    requires short { length text.now ≤ INPUT_LIMIT }
    requires from_one { 1 ≤ first_line }
    requires small { first_line ≤ INPUT_LIMIT + 1 }
    ensures spelled { IsAnswer (λ order. order.items) result (order_spelled first_line text.now) }
    ensures within { IfOk result (λ order. length order.items ≤ ORDER_LIMIT) }
{
    let mut order = List::new(alloc);
    let mut number = first_line;
    let mut rest = text;
    while let Some((line, after)) = take_line(rest) {
        push_line(&mut order, line, number)?;
        number += 1;
        rest = after;
    }
    Ok(order)
}
