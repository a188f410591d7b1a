use cfn_cli::{CliFault, Command, Format, parse};
use std::alloc::Global;
use std::test::Fail;

const MOST_BUDGET: u64 = 9_223_372_036_854_775_807;

fn is_usage(alloc: Global, words: &[&str]) -> bool {
    match parse(alloc, words) {
        Err(CliFault::Usage) => true,
        _ => false,
    }
}

fn solves(alloc: Global, words: &[&str], workers: u8, budget: u64) -> bool {
    match parse(alloc, words) {
        Ok(Command::Solve(asked)) => {
            asked.file.as_str() == "a"
                && asked.certificate.as_str() == "b"
                && asked.workers == workers
                && asked.budget == budget
        }
        _ => false,
    }
}

fn asks_progress(alloc: Global, words: &[&str]) -> Option<bool> {
    match parse(alloc, words) {
        Ok(Command::Solve(asked)) => Some(asked.progress),
        _ => None,
    }
}

fn seconds_asked(alloc: Global, words: &[&str]) -> Option<Option<u64>> {
    match parse(alloc, words) {
        Ok(Command::Solve(asked)) => Some(asked.seconds),
        _ => None,
    }
}

fn checks(alloc: Global, words: &[&str]) -> bool {
    match parse(alloc, words) {
        Ok(Command::Check(asked)) => {
            asked.file.as_str() == "a" && asked.certificate.as_str() == "b"
        }
        _ => false,
    }
}

/// How many assignments the words ask for, with which limits, where they list the cheapest of `a` into `b`.
fn lists(alloc: Global, words: &[&str]) -> Option<(u16, u64, Option<u64>)> {
    match parse(alloc, words) {
        Ok(Command::KBest(asked)) => {
            if asked.file.as_str() != "a" || asked.certificate.as_str() != "b" {
                return None;
            }
            Some((asked.count, asked.budget, asked.seconds))
        }
        _ => None,
    }
}

fn checks_best(alloc: Global, words: &[&str], complete: bool) -> bool {
    match parse(alloc, words) {
        Ok(Command::CheckBest(asked)) => {
            asked.file.as_str() == "a"
                && asked.certificate.as_str() == "b"
                && asked.complete == complete
        }
        _ => false,
    }
}

fn migrates(alloc: Global, words: &[&str], out: &str) -> bool {
    match parse(alloc, words) {
        Ok(Command::Migrate(asked)) => {
            asked.file.as_str() == "a"
                && asked.certificate.as_str() == "b"
                && asked.out.as_str() == out
        }
        _ => false,
    }
}

/// Whether the words merge `c` and then so many others into `b`, for `a`.
fn merges(alloc: Global, words: &[&str], others: usize) -> bool {
    match parse(alloc, words) {
        Ok(Command::Merge(asked)) => {
            let Some(first) = asked.certificates.first() else {
                return false;
            };
            asked.file.as_str() == "a"
                && asked.out.as_str() == "b"
                && first.as_str() == "c"
                && asked.certificates.len() - 1 == others
        }
        _ => false,
    }
}

/// Whether the words solve `a` into `b` with a record under that name.
fn records(alloc: Global, words: &[&str], recording: &str) -> bool {
    match parse(alloc, words) {
        Ok(Command::Recorded(asked)) => {
            asked.recording.as_str() == recording
                && asked.solve.file.as_str() == "a"
                && asked.solve.certificate.as_str() == "b"
        }
        _ => false,
    }
}

/// The format of the file, where the words replay `r` for `a` into `b`.
fn replays(alloc: Global, words: &[&str]) -> Option<Format> {
    match parse(alloc, words) {
        Ok(Command::Replay(asked)) => {
            if asked.file.as_str() != "a"
                || asked.recording.as_str() != "r"
                || asked.certificate.as_str() != "b"
            {
                return None;
            }
            Some(asked.format)
        }
        _ => None,
    }
}

fn says_normal(alloc: Global, words: &[&str]) -> bool {
    match parse(alloc, words) {
        Ok(Command::Normal(asked)) => asked.file.as_str() == "f",
        _ => false,
    }
}

fn tries(alloc: Global, words: &[&str], seed: u32, size: u32, workers: u8) -> bool {
    match parse(alloc, words) {
        Ok(Command::Trial(asked)) => {
            asked.seed == seed && asked.size == size && asked.workers == workers
        }
        _ => false,
    }
}

fn costs(alloc: Global, words: &[&str], values: &[u32]) -> bool {
    match parse(alloc, words) {
        Ok(Command::Cost(asked)) => {
            asked.file.as_str() == "f" && asked.values.as_slice() == values
        }
        _ => false,
    }
}

/// The format that is asked for, of a command that has one.
fn format(alloc: Global, words: &[&str]) -> Option<Format> {
    match parse(alloc, words) {
        Ok(Command::Solve(asked)) => Some(asked.format),
        Ok(Command::Check(asked)) => Some(asked.format),
        Ok(Command::KBest(asked)) => Some(asked.format),
        Ok(Command::CheckBest(asked)) => Some(asked.format),
        Ok(Command::Cost(asked)) => Some(asked.format),
        Ok(Command::Normal(asked)) => Some(asked.format),
        _ => None,
    }
}

#[test]
fn format_is_read(rt: HostRuntime) {
    let alloc = rt.alloc();
    for words in [
        ["w", "solve", "a", "b"].as_slice(),
        &["w", "check", "a", "b"],
        &["w", "kbest", "a", "1", "b"],
        &["w", "checkbest", "a", "b"],
        &["w", "cost", "f", "0"],
        &["w", "normal", "f"],
    ] {
        assert!(rt; format(alloc, words) == Some(Format::Wcsp), "{words:?}");
    }
    for words in [
        ["w", "solve", "--wcnf", "a", "b"].as_slice(),
        &["w", "check", "a", "b", "--wcnf"],
        &["w", "kbest", "a", "1", "--wcnf", "b"],
        &["w", "checkbest", "--wcnf", "a", "b"],
        &["w", "cost", "f", "--wcnf", "0"],
        &["w", "normal", "f", "--wcnf"],
    ] {
        assert!(rt; format(alloc, words) == Some(Format::Wcnf), "{words:?}");
    }
}

#[test]
fn progress_is_asked_for(rt: HostRuntime) {
    let alloc = rt.alloc();
    assert!(rt; asks_progress(alloc, &["w", "solve", "a", "b"]) == Some(false));
    assert!(rt; asks_progress(alloc, &["w", "solve", "a", "b", "--progress"]) == Some(true));
    assert!(rt;
        asks_progress(alloc, &["w", "solve", "--progress", "a", "--wcnf", "b"]) == Some(true)
    );
}

#[test]
fn limit_of_time_is_read(rt: HostRuntime) {
    let alloc = rt.alloc();
    assert!(rt; seconds_asked(alloc, &["w", "solve", "a", "b"]) == Some(None));
    assert!(rt; seconds_asked(alloc, &["w", "solve", "a", "b", "--seconds", "0"]) == Some(Some(0)));
    assert!(rt;
        seconds_asked(alloc, &["w", "solve", "--seconds=1000000000", "a", "b"])
            == Some(Some(1_000_000_000))
    );
}

#[test]
fn solve_is_read(rt: HostRuntime) {
    let alloc = rt.alloc();
    assert!(rt; solves(alloc, &["w", "solve", "a", "b"], 1, MOST_BUDGET));
    assert!(rt;
        solves(
            alloc,
            &["w", "solve", "a", "b", "--workers", "8", "--budget", "5"],
            8,
            5
        )
    );
    assert!(rt; solves(alloc, &["w", "solve", "--budget=5", "a", "b"], 1, 5));
    assert!(rt;
        solves(
            alloc,
            &["w", "solve", "a", "--workers=64", "b"],
            64,
            MOST_BUDGET
        )
    );
    assert!(rt;
        solves(
            alloc,
            &["w", "solve", "a", "b", "--budget", "9223372036854775807"],
            1,
            MOST_BUDGET
        )
    );
}

#[test]
fn check_is_read(rt: HostRuntime) {
    let alloc = rt.alloc();
    assert!(rt; checks(alloc, &["w", "check", "a", "b"]));
    assert!(rt; !checks(alloc, &["w", "check", "b", "a"]));
}

#[test]
fn k_best_is_read(rt: HostRuntime) {
    let alloc = rt.alloc();
    for (words, asked) in [
        (
            ["w", "kbest", "a", "1", "b"].as_slice(),
            (1, MOST_BUDGET, None),
        ),
        (
            &["w", "kbest", "a", "+1000", "b"],
            (1000, MOST_BUDGET, None),
        ),
        (
            &["w", "kbest", "a", "7", "b", "--budget", "0"],
            (7, 0, None),
        ),
        (
            &["w", "kbest", "--seconds=0", "a", "7", "b"],
            (7, MOST_BUDGET, Some(0)),
        ),
    ] {
        assert!(rt; lists(alloc, words) == Some(asked), "{words:?}");
    }
}

#[test]
fn check_best_is_read(rt: HostRuntime) {
    let alloc = rt.alloc();
    let words = ["w", "checkbest", "a", "b", "--complete"];
    assert!(rt; checks_best(alloc, &words[..4], false));
    assert!(rt; checks_best(alloc, &words, true));
    assert!(rt; !checks_best(alloc, &["w", "checkbest", "b", "a"], false));
    assert!(rt; !checks_best(alloc, &["w", "check", "a", "b"], false));
    assert!(rt; !checks(alloc, &["w", "checkbest", "a", "b"]));
}

#[test]
fn cost_is_read(rt: HostRuntime) {
    let alloc = rt.alloc();
    assert!(rt; costs(alloc, &["w", "cost", "f", "0", "1", "2"], &[0, 1, 2]));
    assert!(rt; costs(alloc, &["w", "cost", "f", "4294967295"], &[4_294_967_295]));
}

#[test]
fn normal_and_trial_are_read(rt: HostRuntime) {
    let alloc = rt.alloc();
    assert!(rt; says_normal(alloc, &["w", "normal", "f"]));
    assert!(rt; tries(alloc, &["w", "trial", "7", "20"], 7, 20, 1));
    assert!(rt;
        tries(
            alloc,
            &["w", "trial", "65536", "200", "--workers", "64"],
            65_536,
            200,
            64
        )
    );
    assert!(rt; tries(alloc, &["w", "trial", "--workers=8", "0", "1"], 0, 1, 8));
}

#[test]
fn migrate_is_read(rt: HostRuntime) {
    let alloc = rt.alloc();
    assert!(rt; migrates(alloc, &["w", "migrate", "a", "b", "c"], "c"));
    assert!(rt; migrates(alloc, &["w", "migrate", "a", "b", "b"], "b"));
}

#[test]
fn reads_merge(rt: HostRuntime) {
    let alloc = rt.alloc();
    assert!(rt; merges(alloc, &["w", "merge", "a", "b", "c"], 0));
    assert!(rt; merges(alloc, &["w", "merge", "a", "b", "c", "b", "d", "--wcnf"], 2));
    assert!(rt; parse(alloc, &["w", "merge", "a", "b"]).is_err());
    assert!(rt; parse(alloc, &["w", "merge", "a", "a", "c"]).is_err());
}

#[test]
fn record_is_asked_for(rt: HostRuntime) {
    let alloc = rt.alloc();
    for words in [
        ["w", "solve", "a", "b", "--record", "r"].as_slice(),
        &["w", "solve", "--record=r", "a", "b"],
        &[
            "w",
            "solve",
            "a",
            "--record",
            "r",
            "b",
            "--workers",
            "4",
            "--wcnf",
            "--progress",
        ],
    ] {
        assert!(rt; records(alloc, words, "r"), "{words:?}");
    }
    assert!(rt; records(alloc, &["w", "solve", "a", "b", "--record", "c"], "c"));
    assert!(rt; !records(alloc, &["w", "solve", "a", "b"], "r"));
}

#[test]
fn replay_is_read(rt: HostRuntime) {
    let alloc = rt.alloc();
    assert!(rt; replays(alloc, &["w", "replay", "a", "r", "b"]) == Some(Format::Wcsp));
    assert!(rt; replays(alloc, &["w", "replay", "a", "r", "b", "--wcnf"]) == Some(Format::Wcnf));
    assert!(rt; replays(alloc, &["w", "replay", "--wcnf", "a", "r", "b"]) == Some(Format::Wcnf));
    assert!(rt; replays(alloc, &["w", "replay", "a", "b", "r"]).is_none());
}

#[test]
fn other_words_are_usage(rt: HostRuntime) {
    let alloc = rt.alloc();
    for words in [
        ["w"].as_slice(),
        &[],
        &["w", "--help"],
        &["w", "-h"],
        &["w", "--version"],
        &["w", "-V"],
        &["w", "help"],
        &["w", "help", "solve"],
        &["w", "check", "a"],
        &["w", "check", "a", "b", "c"],
        &["w", "check", "a", "b", "--budget", "1"],
        &["w", "kbest"],
        &["w", "kbest", "a", "b"],
        &["w", "kbest", "a", "0", "b"],
        &["w", "kbest", "a", "1001", "b"],
        &["w", "kbest", "a", "-1", "b"],
        &["w", "kbest", "a", "b", "1"],
        &["w", "kbest", "a", "1", "a"],
        &["w", "kbest", "a", "1", "b", "c"],
        &["w", "kbest", "a", "1", "b", "--workers", "1"],
        &[
            "w",
            "kbest",
            "a",
            "1",
            "b",
            "--budget",
            "9223372036854775808",
        ],
        &["w", "kbest", "a", "1", "b", "--seconds", "1000000001"],
        &["w", "kbest", "a", "1", "b", "--progress"],
        &["w", "checkbest"],
        &["w", "checkbest", "a"],
        &["w", "checkbest", "a", "b", "c"],
        &["w", "checkbest", "a", "b", "--budget", "1"],
        &["w", "checkbest", "a", "b", "--workers", "1"],
        &["w", "checkbest", "a", "b", "--wcnf=true"],
        &["w", "checkbest", "a", "b", "--complete=true"],
        &["w", "check", "a", "b", "--complete"],
        &["w", "check-best", "a", "b"],
        &["w", "solve"],
        &["w", "solve", "a"],
        &["w", "solve", "a", "a"],
        &["w", "solve", "a", "--budget", "1", "a"],
        &["w", "solve", "a", "b", "c"],
        &["w", "solve", "a", "b", "--help"],
        &["w", "solve", "a", "b", "--progress=true"],
        &["w", "check", "a", "b", "--progress"],
        &["w", "solve", "a", "b", "--workers", "65"],
        &["w", "solve", "a", "b", "--workers", "0"],
        &["w", "solve", "a", "b", "--workers", "8", "--workers", "8"],
        &["w", "solve", "a", "b", "--budget", "-1"],
        &["w", "solve", "a", "b", "--budget=-1"],
        &["w", "solve", "a", "b", "--budget", "9223372036854775808"],
        &["w", "solve", "a", "b", "--budget"],
        &["w", "solve", "a", "b", "--seconds", "1000000001"],
        &["w", "solve", "a", "b", "--seconds", "-1"],
        &["w", "solve", "a", "b", "--seconds", "1.5"],
        &["w", "solve", "a", "b", "--seconds"],
        &["w", "check", "a", "b", "--seconds", "1"],
        &["w", "solve", "a", "b", "--record"],
        &["w", "solve", "a", "b", "--record", "b"],
        &["w", "solve", "a", "b", "--record", "a"],
        &["w", "solve", "a", "a", "--record", "r"],
        &["w", "solve", "a", "b", "--record", "r", "--record", "r"],
        &["w", "solve", "a", "b", "--record=r", "--record=s"],
        &["w", "rebase", "a", "b", "c", "--record", "r"],
        &["w", "check", "a", "b", "--record", "r"],
        &["w", "kbest", "a", "1", "b", "--record", "r"],
        &["w", "replay"],
        &["w", "replay", "a", "r"],
        &["w", "replay", "a", "r", "b", "c"],
        &["w", "replay", "a", "a", "b"],
        &["w", "replay", "a", "r", "a"],
        &["w", "replay", "a", "r", "r"],
        &["w", "replay", "a", "a", "a"],
        &["w", "replay", "a", "r", "r", "--wcnf"],
        &["w", "replay", "a", "r", "b", "--workers", "1"],
        &["w", "replay", "a", "r", "b", "--wcnf=true"],
        &["w", "normal"],
        &["w", "normal", "a", "--wcnf=true"],
        &["w", "normal", "a", "--wcnf", "--wcnf"],
        &["w", "trial", "7", "1", "--wcnf"],
        &["w", "migrate", "a", "b", "c", "--wcnf"],
        &["w", "normal", "a", "b"],
        &["w", "normal", "a", "--workers", "1"],
        &["w", "trial", "7"],
        &["w", "trial", "65537", "1"],
        &["w", "trial", "7", "0"],
        &["w", "trial", "7", "201"],
        &["w", "trial", "7", "1", "--workers", "65"],
        &["w", "trial", "7", "1", "--budget", "1"],
        &["w", "migrate", "a", "b"],
        &["w", "migrate", "a", "b", "a"],
        &["w", "migrate", "a", "b", "c", "d"],
        &["w", "cost"],
        &["w", "cost", "f"],
        &["w", "cost", "f", "4294967296"],
        &["w", "cost", "f", "1", "x"],
    ] {
        assert!(rt; is_usage(alloc, words), "{words:?}");
    }
}
