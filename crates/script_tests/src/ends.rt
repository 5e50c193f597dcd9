//! Runs that meet a limit.
ghost use Rattle.silo_threads.specs.Clusters.{IsConfig};

use script_runs::Unfinished;
use script_tasks::{Detail, ProgramFault, run_config, run_on_silos};
use silo_threads::Config;
use stream_script::Counted;

/// What a run has too little of. A run of the usual size has too few rules for a script with 65 of them.
#[derive(Clone, Copy)]
pub enum Small {
    Rules,
    Events,
    Rises,
    History,
    Rounds,
    Looks,
}

/// A script with one rule more than a queue may have, between two lines that are refused.
const RULES: &[u8] = b"unsub 0:7\n\
    rule k0 o\nrule k1 o\nrule k2 o\nrule k3 o\nrule k4 o\nrule k5 o\nrule k6 o\nrule k7 o\nrule k8 o\n\
    rule k9 o\nrule k10 o\nrule k11 o\nrule k12 o\nrule k13 o\nrule k14 o\nrule k15 o\nrule k16 o\n\
    rule k17 o\nrule k18 o\nrule k19 o\nrule k20 o\nrule k21 o\nrule k22 o\nrule k23 o\nrule k24 o\n\
    rule k25 o\nrule k26 o\nrule k27 o\nrule k28 o\nrule k29 o\nrule k30 o\nrule k31 o\nrule k32 o\n\
    rule k33 o\nrule k34 o\nrule k35 o\nrule k36 o\nrule k37 o\nrule k38 o\nrule k39 o\nrule k40 o\n\
    rule k41 o\nrule k42 o\nrule k43 o\nrule k44 o\nrule k45 o\nrule k46 o\nrule k47 o\nrule k48 o\n\
    rule k49 o\nrule k50 o\nrule k51 o\nrule k52 o\nrule k53 o\nrule k54 o\nrule k55 o\nrule k56 o\n\
    rule k57 o\nrule k58 o\nrule k59 o\nrule k60 o\nrule k61 o\nrule k62 o\nrule k63 o\nrule k64 o\n\
    unsub 0:8\n";

/// A script with three events, behind a line that is refused.
const EVENTS: &[u8] =
    b"unsub 0:7\nsub o/k g/x latest\npub o/k \"a\"\npub o/k \"b\"\npub o/k \"c\"\n";

/// A script whose third event is published behind two lines that are done, and is one too many.
pub const STORY: &[u8] =
    b"unsub 0:1\nsub o/k g/x latest\npub o/k \"a\" \"b\"\npub o/k \"c\"\nunsub 0:2\n";

/// A run of a script that has too little of something, and why there is no report then. Each prints the line that was
/// refused before it came to the limit.
struct End {
    small: Small,
    silos: u32,
    script: &'static [u8],
    why: Unfinished,
}

// Of rises there is one, which is that of the activation: a loop is refused the turn, and nobody else meets a limit.
static ENDS: [End; 7] = [
    End {
        small: Small::Rules,
        silos: 2,
        script: RULES,
        why: Unfinished::Limit,
    },
    End {
        small: Small::Events,
        silos: 2,
        script: EVENTS,
        why: Unfinished::Limit,
    },
    End {
        small: Small::Events,
        silos: 2,
        script: STORY,
        why: Unfinished::Limit,
    },
    End {
        small: Small::Rises,
        silos: 1,
        script: EVENTS,
        why: Unfinished::Limit,
    },
    End {
        small: Small::History,
        silos: 2,
        script: EVENTS,
        why: Unfinished::Limit,
    },
    End {
        small: Small::Rounds,
        silos: 2,
        script: EVENTS,
        why: Unfinished::RoundLimit,
    },
    End {
        small: Small::Looks,
        silos: 2,
        script: EVENTS,
        why: Unfinished::NotQuiet,
    },
];

/// The same cluster with too little of something. A loop that may begin no round ends at its first step, and a drain that
/// may not look gives up at once.
pub fn lessened(config: Config, small: Small) -> Config
    requires { IsConfig config }
    ensures { IsConfig result }
{
    let mut config = config;
    match small {
        Small::Rules => {}
        Small::Events => config.limits.events = 2,
        Small::Rises => config.limits.rises = 1,
        Small::History => config.history = 10,
        Small::Rounds => config.rounds = 0,
        Small::Looks => config.looks = 0,
    }
    config
}

fn is_unfinished(ended: &Result<(), ProgramFault>, why: Unfinished) -> bool {
    match ended {
        Err(fault) => {
            matches!(fault, ProgramFault::Unfinished(found) if *found == why) && fault.status() == 4
        }
        Ok(()) => false,
    }
}

#[test]
fn a_run_that_meets_a_limit_ends_with_status_four(rt: HostRuntime) {
    for end in &ENDS {
        let mut source = Counted::new(end.script);
        let mut written = Vec::new(rt.alloc());
        let config = lessened(run_config(1, 4, end.silos), end.small);
        let ended = run_on_silos(
            &rt,
            rt.alloc(),
            &config,
            Detail::Events,
            &mut source,
            &mut written,
        );
        assert!(rt; is_unfinished(&ended, end.why));
        assert!(rt; written.as_slice() == b"refused 1\n".as_slice());
    }
}
