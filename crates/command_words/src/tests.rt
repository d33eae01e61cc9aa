//! What no clause says: that words are read with ample memory, and which, by tables of words.
use super::*;
use std::alloc::Global;
use std::process::Abort;
use std::test::Fail;

fn plain(command: Command) -> Settings {
    Settings {
        command,
        fuel: None,
        patience: None,
    }
}

fn demo(number: u64, live: bool) -> Settings {
    plain(Command::Demo { number, live })
}

fn run(fuel: Option<u32>, patience: Option<u32>) -> Settings {
    Settings {
        command: Command::Run,
        fuel,
        patience,
    }
}

/// Each of the words is read as the settings beside them.
fn all_read(rt: &impl Abort, alloc: Global, lines: &[(&[&str], Settings)]) {
    for (words, settings) in lines {
        assert_eq!(rt; read_words(alloc, words), Ok(*settings));
        assert_eq!(rt; what_is_wrong(words), None);
    }
}

/// Each of the words is refused, for the fault beside them.
fn all_refused(rt: &impl Abort, alloc: Global, faulty: &[(&[&str], Fault<'_>)]) {
    for (words, fault) in faulty {
        assert_eq!(rt; read_words(alloc, words), Err(Refusal::Usage));
        assert_eq!(rt; what_is_wrong(words), Some(*fault));
    }
}

#[test]
fn lines_are_read(rt: HostRuntime) {
    let lines: [(&[&str], Settings); 22] = [
        (&["check"], plain(Command::Check)),
        (&["follow"], plain(Command::Follow)),
        (&["sim"], plain(Command::Sim)),
        (&["run"], plain(Command::Run)),
        (&["bundle"], plain(Command::Bundle)),
        (&["infer"], plain(Command::Infer)),
        (&["replay"], plain(Command::Replay)),
        (&["show"], plain(Command::Show)),
        (&["upgrade"], plain(Command::Upgrade)),
        (&["demo", "0"], demo(0, false)),
        (
            &["demo", "18446744073709551615", "live"],
            demo(u64::MAX, true),
        ),
        (
            &["demo", "--fuel", "1", "007", "--", "live"],
            Settings {
                fuel: Some(1),
                ..demo(7, true)
            },
        ),
        (&["--fuel=5", "run"], run(Some(5), None)),
        (&["run", "--fuel", "005"], run(Some(5), None)),
        (&["--", "run"], run(None, None)),
        (&["run", "--"], run(None, None)),
        (&["--fuel", "1", "run"], run(Some(1), None)),
        (&["--fuel", "1000000", "run"], run(Some(1_000_000), None)),
        (
            &["--patience", "10000000", "run"],
            run(None, Some(10_000_000)),
        ),
        (&["run", "--patience=2", "--fuel=3"], run(Some(3), Some(2))),
        (
            &["--patience", "2", "run", "--fuel", "3", "--"],
            run(Some(3), Some(2)),
        ),
        (
            &["check", "--patience=1"],
            Settings {
                patience: Some(1),
                ..plain(Command::Check)
            },
        ),
    ];
    all_read(&rt, rt.alloc(), &lines);
}

#[test]
fn other_words_are_refused(rt: HostRuntime) {
    let faulty: [(&[&str], Fault<'_>); 47] = [
        (&[], Fault::NoCommand),
        (&["--"], Fault::NoCommand),
        (&["nothing"], Fault::UnknownCommand { word: "nothing" }),
        (&["Run"], Fault::UnknownCommand { word: "Run" }),
        (&[""], Fault::UnknownCommand { word: "" }),
        (&["-"], Fault::UnknownOption { word: "-" }),
        (&["help"], Fault::UnknownCommand { word: "help" }),
        (&["--help"], Fault::UnknownOption { word: "--help" }),
        (&["--version"], Fault::UnknownOption { word: "--version" }),
        (&["-x", "run"], Fault::UnknownOption { word: "-x" }),
        (&["-h"], Fault::UnknownOption { word: "-h" }),
        (
            &["--fue", "5", "run"],
            Fault::UnknownOption { word: "--fue" },
        ),
        (&["--=5", "run"], Fault::UnknownOption { word: "--=5" }),
        (
            &["-fuel", "5", "run"],
            Fault::UnknownOption { word: "-fuel" },
        ),
        (&["run", "run"], Fault::OneTooMany { word: "run" }),
        (&["run", "live"], Fault::OneTooMany { word: "live" }),
        (&["run", ""], Fault::OneTooMany { word: "" }),
        (&["run", "-"], Fault::UnknownOption { word: "-" }),
        (&["run", "--", "-x"], Fault::OneTooMany { word: "-x" }),
        (
            &["run", "--", "--fuel=1"],
            Fault::OneTooMany { word: "--fuel=1" },
        ),
        (
            &["--", "--fuel", "1", "run"],
            Fault::UnknownCommand { word: "--fuel" },
        ),
        (&["--", "run", "--"], Fault::OneTooMany { word: "--" }),
        (&["--", "--", "run"], Fault::UnknownCommand { word: "--" }),
        (
            &["run", "--fuel"],
            Fault::NoValue {
                option: Setting::Fuel,
            },
        ),
        (
            &["--fuel", "--", "run"],
            Fault::NoValue {
                option: Setting::Fuel,
            },
        ),
        (
            &["--fuel", "--patience", "1", "run"],
            Fault::NoValue {
                option: Setting::Fuel,
            },
        ),
        (
            &["--fuel", "5", "--fuel", "5", "run"],
            Fault::Twice {
                option: Setting::Fuel,
            },
        ),
        (
            &["--patience=5", "run", "--patience", "5"],
            Fault::Twice {
                option: Setting::Patience,
            },
        ),
        (
            &["--fuel", "0", "run"],
            Fault::OutOfRange {
                option: Setting::Fuel,
            },
        ),
        (
            &["--fuel", "1000001", "run"],
            Fault::OutOfRange {
                option: Setting::Fuel,
            },
        ),
        (
            &["--patience=10000001", "run"],
            Fault::OutOfRange {
                option: Setting::Patience,
            },
        ),
        (
            &["--fuel=18446744073709551617", "run"],
            Fault::OutOfRange {
                option: Setting::Fuel,
            },
        ),
        (
            &["--fuel=+5", "run"],
            Fault::OutOfRange {
                option: Setting::Fuel,
            },
        ),
        (
            &["--fuel", "-5", "run"],
            Fault::OutOfRange {
                option: Setting::Fuel,
            },
        ),
        (
            &["--fuel=", "run"],
            Fault::OutOfRange {
                option: Setting::Fuel,
            },
        ),
        (
            &["--fuel", "", "run"],
            Fault::OutOfRange {
                option: Setting::Fuel,
            },
        ),
        (
            &["--fuel", "-", "run"],
            Fault::OutOfRange {
                option: Setting::Fuel,
            },
        ),
        (
            &["--fuel=5=6", "run"],
            Fault::OutOfRange {
                option: Setting::Fuel,
            },
        ),
        (
            &["--fuel=-5", "run"],
            Fault::OutOfRange {
                option: Setting::Fuel,
            },
        ),
        (
            &["--fuel=--", "run"],
            Fault::OutOfRange {
                option: Setting::Fuel,
            },
        ),
        (
            &["--patience=--fuel", "run"],
            Fault::OutOfRange {
                option: Setting::Patience,
            },
        ),
        (&["demo"], Fault::NoNumber),
        (&["demo", "live"], Fault::NoNumber),
        (&["demo", "+1"], Fault::NoNumber),
        (&["demo", "18446744073709551616"], Fault::NoNumber),
        (
            &["demo", "1", "lively"],
            Fault::OneTooMany { word: "lively" },
        ),
        (
            &["demo", "1", "live", "live"],
            Fault::OneTooMany { word: "live" },
        ),
    ];
    all_refused(&rt, rt.alloc(), &faulty);
}

#[test]
fn faults_are_told(rt: HostRuntime) -> Result<(), Fail> {
    let told = [
        (Fault::NoCommand, "no command is given"),
        (Fault::UnknownCommand { word: "rum" }, "`rum` is no command"),
        (
            Fault::UnknownCommand { word: "a\nb" },
            "`a\\nb` is no command",
        ),
        (Fault::UnknownOption { word: "-x" }, "`-x` is no option"),
        (
            Fault::NoValue {
                option: Setting::Fuel,
            },
            "`--fuel` has no value",
        ),
        (
            Fault::Twice {
                option: Setting::Fuel,
            },
            "`--fuel` stands twice",
        ),
        (
            Fault::OutOfRange {
                option: Setting::Fuel,
            },
            "`--fuel` takes a number from 1 to 1000000",
        ),
        (
            Fault::NoNumber,
            "`demo` takes a number from 0 to 18446744073709551615",
        ),
        (
            Fault::OneTooMany { word: "live" },
            "the command takes no word `live`",
        ),
        (
            Fault::OutOfRange {
                option: Setting::Patience,
            },
            "`--patience` takes a number from 1 to 10000000",
        ),
    ];
    for (fault, text) in &told {
        assert_eq!(rt; format!(in rt.alloc(); "{fault}")?.as_str(), *text);
    }
    Ok(())
}
