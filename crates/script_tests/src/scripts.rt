//! What runs of scripts print that end with a report.
use crate::tasks::{Doing, task_of};
use script_tasks::perform_task;

/// Two streams, a rule, silos that come and go, and lines that are refused. A start lies past all that was published:
/// which earlier ones are gone depends on how far the silos are when the queue moves.
const STORY: &[u8] = b"sub o/k g/x latest
rule log o
rule log o
pub o/k \"a\" \"b\"
up 3
up 3
pub o/m \"c\"
down 0
pub o/k
unsub 0:2
unsub 0:7
drain
sub o/k g/y from 2.0
unsub 0:1
unsub 0:1
down 9
pub o/k \"d\"
";

const TOLD: &[u8] = b"refused 3
refused 6
refused 9
refused 10
refused 11
refused 15
refused 16
report
0:1 closed
0:2 o/k g/y 2.0 1
  2.0 \"d\"
0:log@o/k o/k log/k 0.0 3
  0.0 \"a\"
  0.1 \"b\"
  2.0 \"d\"
0:log@o/m o/m log/m 0.0 1
  1.0 \"c\"
";

const COUNTED: &[u8] = b"refused 3
refused 6
refused 9
refused 10
refused 11
refused 15
refused 16
report
0:1 closed
0:2 o/k g/y 2.0 1
0:log@o/k o/k log/k 0.0 3
0:log@o/m o/m log/m 0.0 1
";

/// Where all silos live none can come, and all but one can go.
const SIXTEEN: &[u8] =
    b"sub o/k g/x latest\nup 15\ndown 9\npub o/k \"a\"\ndown 0\nup 9\npub o/k \"b\"";

/// 65 events and a start at the first one, which a cache of one block has lost by then.
const MISSED: &[u8] = b"sub o/k g/x latest\n\
    pub o/k \"e\"\npub o/k \"e\"\npub o/k \"e\"\npub o/k \"e\"\npub o/k \"e\"\npub o/k \"e\"\npub o/k \"e\"\n\
    pub o/k \"e\"\npub o/k \"e\"\npub o/k \"e\"\npub o/k \"e\"\npub o/k \"e\"\npub o/k \"e\"\npub o/k \"e\"\n\
    pub o/k \"e\"\npub o/k \"e\"\npub o/k \"e\"\npub o/k \"e\"\npub o/k \"e\"\npub o/k \"e\"\npub o/k \"e\"\n\
    pub o/k \"e\"\npub o/k \"e\"\npub o/k \"e\"\npub o/k \"e\"\npub o/k \"e\"\npub o/k \"e\"\npub o/k \"e\"\n\
    pub o/k \"e\"\npub o/k \"e\"\npub o/k \"e\"\npub o/k \"e\"\npub o/k \"e\"\npub o/k \"e\"\npub o/k \"e\"\n\
    pub o/k \"e\"\npub o/k \"e\"\npub o/k \"e\"\npub o/k \"e\"\npub o/k \"e\"\npub o/k \"e\"\npub o/k \"e\"\n\
    pub o/k \"e\"\npub o/k \"e\"\npub o/k \"e\"\npub o/k \"e\"\npub o/k \"e\"\npub o/k \"e\"\npub o/k \"e\"\n\
    pub o/k \"e\"\npub o/k \"e\"\npub o/k \"e\"\npub o/k \"e\"\npub o/k \"e\"\npub o/k \"e\"\npub o/k \"e\"\n\
    pub o/k \"e\"\npub o/k \"e\"\npub o/k \"e\"\npub o/k \"e\"\npub o/k \"e\"\npub o/k \"e\"\npub o/k \"e\"\n\
    pub o/k \"e\"\npub o/k \"e\"\n\
    drain\nsub o/k g/y from 0.0\nunsub 0:1\n";

/// Two streams that fall into the queues 37 and 42 of 64.
const WIDE: &[u8] = b"sub o/k g/x latest
sub o/0 g/y latest
rule log o
pub o/k \"a\"
down 1
pub o/0 \"b\" \"c\"
up 1
drain
pub o/k \"d\"
unsub 63:1
";

const WIDE_TOLD: &[u8] = b"refused 10
report
37:1 o/k g/x 0.0 2
  0.0 \"a\"
  1.0 \"d\"
37:log@o/k o/k log/k 0.0 2
  0.0 \"a\"
  1.0 \"d\"
42:1 o/0 g/y 0.0 2
  0.0 \"b\"
  0.1 \"c\"
42:log@o/0 o/0 log/0 0.0 2
  0.0 \"b\"
  0.1 \"c\"
";

/// A script, where it is run, and what it prints.
struct Story {
    queues: u32,
    blocks: u32,
    silos: u32,
    script: &'static [u8],
    printed: &'static [u8],
}

/// On any number of silos a script prints the same. At the end stand lines that say nothing, a drain before anything, and
/// nothing at all.
static STORIES: [Story; 10] = [
    Story {
        queues: 1,
        blocks: 4,
        silos: 1,
        script: STORY,
        printed: TOLD,
    },
    Story {
        queues: 1,
        blocks: 4,
        silos: 2,
        script: STORY,
        printed: TOLD,
    },
    Story {
        queues: 1,
        blocks: 4,
        silos: 3,
        script: STORY,
        printed: TOLD,
    },
    Story {
        queues: 1,
        blocks: 4,
        silos: 16,
        script: SIXTEEN,
        printed: b"refused 2\nreport\n0:1 o/k g/x 0.0 2\n  0.0 \"a\"\n  1.0 \"b\"\n",
    },
    Story {
        queues: 1,
        blocks: 1,
        silos: 2,
        script: MISSED,
        printed: b"miss 68\nreport\n0:1 closed\n",
    },
    Story {
        queues: 64,
        blocks: 4,
        silos: 2,
        script: WIDE,
        printed: WIDE_TOLD,
    },
    Story {
        queues: 2,
        blocks: 4,
        silos: 2,
        script: b"",
        printed: b"report\n",
    },
    Story {
        queues: 2,
        blocks: 4,
        silos: 2,
        script: b"drain\n",
        printed: b"report\n",
    },
    Story {
        queues: 2,
        blocks: 4,
        silos: 2,
        script: b"# a story\n\nunsub 1:1",
        printed: b"refused 3\nreport\n",
    },
    Story {
        queues: 2,
        blocks: 4,
        silos: 2,
        script: b"drain\ndown 1\ndown 0\ndrain",
        printed: b"refused 3\nreport\n",
    },
];

/// What is printed of stories without the lines of events.
static SUMMARIES: [Story; 3] = [
    Story {
        queues: 1,
        blocks: 4,
        silos: 2,
        script: STORY,
        printed: COUNTED,
    },
    Story {
        queues: 1,
        blocks: 4,
        silos: 1,
        script: b"sub o/k g/x latest\npub o/k \"  a\" \"\"\nunsub 0:2\n",
        printed: b"refused 3\nreport\n0:1 o/k g/x 0.0 2\n",
    },
    Story {
        queues: 2,
        blocks: 4,
        silos: 2,
        script: b"",
        printed: b"report\n",
    },
];

#[test]
fn a_run_prints_what_its_script_says(rt: HostRuntime) {
    for story in &STORIES {
        let task = task_of(Doing::Running, story.queues, story.blocks, story.silos);
        let mut printed = Vec::new(rt.alloc());
        let ended = perform_task(&rt, rt.alloc(), task, story.script, &mut printed);
        assert!(rt; ended.is_ok());
        assert!(rt; printed.as_slice() == story.printed);
    }
}

#[test]
fn a_summary_has_no_events(rt: HostRuntime) {
    for story in &SUMMARIES {
        let task = task_of(Doing::Summarizing, story.queues, story.blocks, story.silos);
        let mut printed = Vec::new(rt.alloc());
        let ended = perform_task(&rt, rt.alloc(), task, story.script, &mut printed);
        assert!(rt; ended.is_ok());
        assert!(rt; printed.as_slice() == story.printed);
    }
}
