//! Scripts in files that the words name.
use crate::words::owned;
use script_tasks::{ProgramFault, perform_words};
use std::fs;
use std::test::Fail;
use stream_script::{Fault, FaultKind, SimError};

/// A script with a faulty line in its middle. 64 events leave no room for one more in a cache of one block, so that what
/// is oldest leaves it; with the usual four blocks the replies are others.
const READINGS: &[u8] =
    b"# 65 readings of a meter, of which a cache of one block has room for 64\npub meters/a \
    \"0\" \"1\" \"2\" \"3\" \"4\" \"5\" \"6\" \"7\" \"8\" \"9\" \"10\" \"11\" \"12\" \"13\" \"14\" \"15\" \
    \"16\" \"17\" \"18\" \"19\" \"20\" \"21\" \"22\" \"23\" \"24\" \"25\" \"26\" \"27\" \"28\" \"29\" \"30\" \"31\" \
    \"32\" \"33\" \"34\" \"35\" \"36\" \"37\" \"38\" \"39\" \"40\" \"41\" \"42\" \"43\" \"44\" \"45\" \"46\" \"47\" \
    \"48\" \"49\" \"50\" \"51\" \"52\" \"53\" \"54\" \"55\" \"56\" \"57\" \"58\" \"59\" \"60\" \"61\" \"62\" \"63\"\n\
    pub meters/a \"64\"\npull 0 0 256\npull 0 0 256\nsub meters/a clerk/a from 0.0\ndeliver 0 0:nobody/\n\
    pub meters/a \"65\"\ndrain\n";

const WITH_ONE_BLOCK: &[u8] = b"0 published 0\n0 published 1\n0 pulled 64 low 0.0 high 1.0\n\
    0 pulled 1 low 1.0 high 2.0\n0 miss 0.0 low 1.0 high 2.0\n";

const WITH_FOUR_BLOCKS: &[u8] =
    b"0 published 0\n0 published 1\n0 pulled 65 low 0.0 high 2.0\n0 dry\n\
    0 subscribed 1\n";

const FAULTY: SimError = SimError::ScriptFault(Fault {
    line: 7,
    kind: FaultKind::BadNumber,
});

/// Words, what is printed, and the fault and the status that they end with.
struct Call {
    words: &'static [&'static str],
    printed: &'static [u8],
    fault: SimError,
    status: u8,
}

static CALLS: [Call; 3] = [
    Call {
        words: &["streams", "sim", "nowhere.script"],
        printed: b"",
        fault: SimError::ReadFault,
        status: 3,
    },
    Call {
        words: &["streams", "sim", "--blocks=1", "readings.script"],
        printed: WITH_ONE_BLOCK,
        fault: FAULTY,
        status: 1,
    },
    Call {
        words: &["streams", "sim", "readings.script"],
        printed: WITH_FOUR_BLOCKS,
        fault: FAULTY,
        status: 1,
    },
];

/// Whether the words have ended as the row says.
fn is_ended(ended: &Result<(), ProgramFault>, call: &Call) -> bool {
    match ended {
        Err(fault) => {
            matches!(fault, ProgramFault::Script(found) if *found == call.fault)
                && fault.status() == call.status
        }
        Ok(()) => false,
    }
}

#[test]
fn a_file_is_read(rt: HostRuntime) -> Result<(), Fail> {
    fs::write(&rt, "readings.script", READINGS)?;
    for call in &CALLS {
        let words = owned(rt.alloc(), call.words)?;
        let mut printed = Vec::new(rt.alloc());
        let ended = perform_words(&rt, words.as_slice(), &mut printed);
        assert!(rt; is_ended(&ended, call));
        assert!(rt; printed.as_slice() == call.printed);
    }
    Ok(())
}
