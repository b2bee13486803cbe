//! The words of the command line that name a job.

use campaign::{At, NamedInjections, NamedPoint, Options};
use jobs::{Job, MostInjections, job_named};
use report::{Ends, Shard, View};

/// The words of `run` that name a job, and the job.
#[derive(Clone, Copy)]
struct Named {
    words: &'static [&'static str],
    file: &'static str,
    at: Option<u32>,
    handler: Option<&'static str>,
    state: bool,
}

const NAMED: [Named; 11] = [
    Named {
        words: &["rtosim", "run", "app.toml"],
        file: "app.toml",
        at: None,
        handler: None,
        state: false,
    },
    Named {
        words: &["rtosim", "run", "--", "-a"],
        file: "-a",
        at: None,
        handler: None,
        state: false,
    },
    Named {
        words: &["rtosim", "run", "-"],
        file: "-",
        at: None,
        handler: None,
        state: false,
    },
    Named {
        words: &["rtosim", "run", "a", "--at", "3", "--handler", "h"],
        file: "a",
        at: Some(3),
        handler: Some("h"),
        state: false,
    },
    Named {
        words: &["rtosim", "run", "--handler=H_1", "--at=1000000", "a"],
        file: "a",
        at: Some(1_000_000),
        handler: Some("H_1"),
        state: false,
    },
    Named {
        words: &["rtosim", "run", "--at", "010", "a", "--handler", ""],
        file: "a",
        at: Some(10),
        handler: Some(""),
        state: false,
    },
    Named {
        words: &["rtosim", "run", "a", "--at=-0"],
        file: "a",
        at: Some(0),
        handler: None,
        state: false,
    },
    Named {
        words: &["rtosim", "run", "a", "--at", "+7"],
        file: "a",
        at: Some(7),
        handler: None,
        state: false,
    },
    Named {
        words: &["rtosim", "run", "a", "--handler", "h"],
        file: "a",
        at: None,
        handler: Some("h"),
        state: false,
    },
    Named {
        words: &["rtosim", "run", "a", "--state"],
        file: "a",
        at: None,
        handler: None,
        state: true,
    },
    Named {
        words: &["rtosim", "run", "--state", "--at=2", "a", "--handler", "h"],
        file: "a",
        at: Some(2),
        handler: Some("h"),
        state: true,
    },
];

#[test]
fn words_that_name_a_job(rt: HostRuntime) {
    for named in NAMED {
        let file = named.file;
        let state = named.state;
        let job = match (named.at, named.handler) {
            (None, None) => Job::Run {
                file,
                point: None,
                state,
            },
            (Some(step), Some(handler)) => Job::Run {
                file,
                point: Some(NamedPoint::one(step, handler)),
                state,
            },
            _ => Job::RunUnpaired { file },
        };
        assert!(rt; job_named(rt.alloc(), named.words).ok() == Some(job));
    }
}

#[test]
fn words_that_name_a_point(rt: HostRuntime) {
    let words = ["rtosim", "run", "app.toml", "--point", " 3 h  3 g 7 h"];
    let first = At {
        step: 3,
        handler: "h",
    };
    let second = At {
        step: 3,
        handler: "g",
    };
    let third = At {
        step: 7,
        handler: "h",
    };
    let job = Job::Run {
        file: "app.toml",
        point: Some(NamedPoint {
            injections: NamedInjections::Three(first, second, third),
        }),
        state: false,
    };
    assert!(rt; job_named(rt.alloc(), &words).ok() == Some(job));
}

/// The words of `explore` that name a job, and how many injections and which handlers they name.
#[derive(Clone, Copy)]
struct NamedExploration {
    words: &'static [&'static str],
    injections: u32,
    handlers: Option<&'static str>,
}

const EXPLORATIONS: [NamedExploration; 3] = [
    NamedExploration {
        words: &["rtosim", "explore", "app.toml"],
        injections: 1,
        handlers: None,
    },
    NamedExploration {
        words: &[
            "rtosim",
            "explore",
            "--injections=3",
            "app.toml",
            "--handlers",
            "h",
        ],
        injections: 3,
        handlers: Some("h"),
    },
    NamedExploration {
        words: &[
            "rtosim",
            "explore",
            "app.toml",
            "--handlers=Uart_1,b",
            "--injections",
            "0",
        ],
        injections: 0,
        handlers: Some("Uart_1,b"),
    },
];

#[test]
fn words_that_name_an_exploration(rt: HostRuntime) {
    for named in EXPLORATIONS {
        let Some(injections) = MostInjections::new(named.injections) else {
            panic!(rt; "no number");
        };
        let job = Job::Explore {
            file: "app.toml",
            injections,
            handlers: named.handlers,
        };
        assert!(rt; job_named(rt.alloc(), named.words).ok() == Some(job));
    }
}

/// The words of `campaign` that name a job, and the job: how many workers, the stride, how many points a block has, and whether
/// it is quiet.
#[derive(Clone, Copy)]
struct NamedCampaign {
    words: &'static [&'static str],
    options: (u32, u32, u32),
    quiet: bool,
}

const CAMPAIGNS: [NamedCampaign; 7] = [
    NamedCampaign {
        words: &["rtosim", "campaign", "app.toml"],
        options: (1, 64, 512),
        quiet: false,
    },
    NamedCampaign {
        words: &["rtosim", "campaign", "app.toml", "--quiet"],
        options: (1, 64, 512),
        quiet: true,
    },
    NamedCampaign {
        words: &["rtosim", "campaign", "--quiet", "app.toml"],
        options: (1, 64, 512),
        quiet: true,
    },
    NamedCampaign {
        words: &["rtosim", "campaign", "app.toml", "--workers", "64"],
        options: (64, 64, 512),
        quiet: false,
    },
    NamedCampaign {
        words: &["rtosim", "campaign", "--stride=65536", "app.toml"],
        options: (1, 65_536, 512),
        quiet: false,
    },
    NamedCampaign {
        words: &["rtosim", "campaign", "app.toml", "--block=01000000"],
        options: (1, 64, 1_000_000),
        quiet: false,
    },
    NamedCampaign {
        words: &[
            "rtosim",
            "campaign",
            "--block",
            "1",
            "--quiet",
            "--stride",
            "1",
            "app.toml",
            "--workers",
            "2",
        ],
        options: (2, 1, 1),
        quiet: true,
    },
];

#[test]
fn words_that_name_a_campaign(rt: HostRuntime) {
    for named in CAMPAIGNS {
        let (workers, stride, block) = named.options;
        let job = Job::Campaign {
            file: "app.toml",
            view: View::plain(),
            shard: Shard::whole(),
            options: Options {
                workers,
                stride,
                block,
            },
            quiet: named.quiet,
        };
        assert!(rt; job_named(rt.alloc(), named.words).ok() == Some(job));
    }
}

/// The words of `campaign` that say what is written, and the view and the shard that they name.
#[derive(Clone, Copy)]
struct NamedView {
    words: &'static [&'static str],
    ends: Ends,
    heads: bool,
    shard: (u32, u32),
}

const VIEWS: [NamedView; 4] = [
    NamedView {
        words: &[
            "rtosim", "campaign", "app.toml", "--only", "failing", "--heads",
        ],
        ends: Ends::FAILING,
        heads: true,
        shard: (1, 1),
    },
    NamedView {
        words: &["rtosim", "campaign", "--only=stuck,pass,stuck", "app.toml"],
        ends: Ends {
            pass: true,
            stuck: true,
            ..Ends::NONE
        },
        heads: false,
        shard: (1, 1),
    },
    NamedView {
        words: &["rtosim", "campaign", "app.toml", "--shard", "3/3"],
        ends: Ends::EVERY,
        heads: false,
        shard: (3, 3),
    },
    NamedView {
        words: &[
            "rtosim",
            "campaign",
            "--shard=01/1000000",
            "--only",
            "check,misuse,ticks,steps",
            "app.toml",
        ],
        ends: Ends {
            pass: false,
            stuck: false,
            ..Ends::EVERY
        },
        heads: false,
        shard: (1, 1_000_000),
    },
];

#[test]
fn words_that_name_a_view(rt: HostRuntime) {
    for named in VIEWS {
        let (number, count) = named.shard;
        let Some(shard) = Shard::new(number, count) else {
            panic!(rt; "no shard");
        };
        let job = Job::Campaign {
            file: "app.toml",
            view: View {
                ends: named.ends,
                heads: named.heads,
            },
            shard,
            options: Options::default(),
            quiet: false,
        };
        assert!(rt; job_named(rt.alloc(), named.words).ok() == Some(job));
    }
}

const REFUSED: [&str; 16] = [
    "--only=",
    "--only=good",
    "--only=pass,",
    "--only=,pass",
    "--only=PASS",
    "--only=pass;check",
    "--shard=",
    "--shard=1",
    "--shard=0/3",
    "--shard=4/3",
    "--shard=1/0",
    "--shard=+1/3",
    "--shard=1/3/4",
    "--shard=1/1000001",
    "--shard=1/4294967297",
    "--shard= 1/3",
];

#[test]
fn values_that_are_refused(rt: HostRuntime) {
    for value in REFUSED {
        let words = ["rtosim", "campaign", "app.toml", value];
        assert!(rt; job_named(rt.alloc(), &words).is_err(), "{value}");
    }
}

const REFUSED_WORDS: [(&str, &str); 12] = [
    ("explore", "--injections=4"),
    ("explore", "--injections="),
    ("explore", "--handlers="),
    ("explore", "--handlers=h,h"),
    ("explore", "--handlers=h,"),
    ("explore", "--handlers=h g"),
    ("explore", "--handlers=1h"),
    ("run", "--point="),
    ("run", "--point=all h"),
    ("run", "--point=1 h 0 h"),
    ("run", "--point=1 h 1 h 1 h 1 h"),
    ("run", "--point=1000001 h"),
];

#[test]
fn words_that_are_refused(rt: HostRuntime) {
    for (command, value) in REFUSED_WORDS {
        let words = ["rtosim", command, "app.toml", value];
        assert!(rt; job_named(rt.alloc(), &words).is_err(), "{value}");
    }
    let words = [
        "rtosim",
        "run",
        "a",
        "--point",
        "0 h",
        "--at",
        "0",
        "--handler",
        "h",
    ];
    assert!(rt; job_named(rt.alloc(), &words).is_err());
}
