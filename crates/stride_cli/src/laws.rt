//! Laws of answers, each as the contract of a function that does nothing.
ghost use Rattle.stride_cli.specs.Laws.{AnAnswer, OneAnswer, ReplaysAreRuns, SimulationsAreRuns};
ghost use Rattle.stride_cli.specs.LiveLaws.{BundlesAreReplayed};

/// Words and the bytes of an input have an answer.
pub fn an_answer()
    ensures { AnAnswer }
{
    command_words::line_or_none();
    stride_isa::some_verdict();
    demo::demo_programs_are_valid();
    demo::demo_orders_name_threads();
    log_format::fuel_is_in_range();
    interleavings::driven_is_a_history();
    interleavings::driven_is_followed();
    linkage::links_or_refusal();
    event_order::least_or_cycle();
    event_order::extensions_are_runs();
    event_order::followed_are_in_range();
    history_laws::recordings_are_histories();
    history_laws::histories_have_orders();
}

/// The words and the bytes of an input have one answer at most.
pub fn one_answer()
    ensures { OneAnswer }
{
    command_words::one_reading();
    stride_isa::one_verdict();
    linkage::one_first_refusal();
    linkage::one_linking();
    event_order::one_cycle();
    event_order::one_least();
    event_order::cycles_exclude();
}

/// Whatever bytes `replay` is done with, they spell a bundle, and the report tells of a run in which each thread makes exactly
/// the events of its log, with its output and its end.
pub fn replays_are_runs()
    ensures { ReplaysAreRuns }
{
    command_words::one_reading();
    event_order::extensions_are_runs();
    log_format::fuel_is_in_range();
}

/// Whatever bytes `sim` is done with, they spell a program with an order that names its threads, and the report tells of the
/// recording that the order gives and of a run in which each thread makes exactly its recorded events, with its output and its end.
pub fn simulations_are_runs()
    ensures { SimulationsAreRuns }
{
    command_words::one_reading();
    interleavings::driven_is_followed();
    event_order::extensions_are_runs();
}

/// Whatever bytes `bundle` is done with are the bundle of a recording of the program that its input spells. `infer` is done with
/// them, and `replay` with the run in which each thread makes exactly its recorded events, with its recorded output and end.
pub fn bundles_are_replayed()
    ensures { BundlesAreReplayed }
{
    command_words::one_reading();
    stride_isa::one_verdict();
    log_format::spelling_is_read();
    event_order::followed_are_in_range();
    history_laws::recordings_are_histories();
    history_laws::histories_are_linked();
    history_laws::histories_are_ordered();
    history_laws::recordings_are_runs();
}
