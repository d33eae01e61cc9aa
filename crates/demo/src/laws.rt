//! Laws of demonstrations, each as the contract of a function that does nothing.
ghost use Rattle.demo.specs.Laws.{DemoProgramsAreValid, DemoOrdersNameThreads, DrawsArePowers};

/// The program of every demonstration is valid and small.
pub fn demo_programs_are_valid()
    ensures { DemoProgramsAreValid }
{}

/// Each member of the order of every demonstration names a thread of its program, and the order is not long.
pub fn demo_orders_name_threads()
    ensures { DemoOrdersNameThreads }
{}

/// The draws are the powers of 75, times one more than the number, less one, as far as remainders tell.
pub fn draws_are_powers()
    ensures { DrawsArePowers }
{}
