//! `OrderSplit`: where the line `order` splits an input.

/// Where an input is split into a program's text and an order.
#[derive(Clone, Copy, Debug, PartialEq, Eq)]
pub struct OrderSplit {
    /// How many bytes stand before the line `order`.
    pub program_end: usize,
    /// How many bytes stand before the order, which is what follows that line.
    pub order_start: usize,
    /// The number of the order's first line, where lines are counted from 1.
    pub order_line: u32,
}
