//! What a directory answers, as text.
use crate::rows::assert_row;
use activation_directory::{Directory, DirectoryOp as Op};
use std::alloc::{AllocError, Global};
use std::process::Abort;
use stream_ident::GrainId;

/// What is asked of a directory. A grain is named by two bytes: its kind and its key.
#[derive(Clone, Copy)]
enum Call {
    /// A silo enters a grain.
    Enter(&'static [u8; 2], u8),
    /// A permit for a grain is given back.
    Leave(&'static [u8; 2], u64),
    /// A grain is taken out.
    Unplace(&'static [u8; 2]),
    /// A silo goes down.
    Down(u8),
}

fn grain(rt: &impl Abort, name: &[u8; 2]) -> GrainId {
    GrainId::new(&name[..1], &name[1..]).expect(rt, "a grain")
}

/// The operation of a call.
fn op(rt: &impl Abort, call: Call) -> Op {
    match call {
        Call::Enter(name, silo) => Op::Enter {
            grain: grain(rt, name),
            silo,
        },
        Call::Leave(name, permit) => Op::Leave {
            grain: grain(rt, name),
            permit,
        },
        Call::Unplace(name) => Op::Unplace {
            grain: grain(rt, name),
        },
        Call::Down(silo) => Op::Down { silo },
    }
}

/// Whether the reply to a call reads so. One want of memory is answered by asking again.
fn is_told(
    rt: &impl Abort,
    alloc: Global,
    directory: &mut Directory,
    call: Call,
    wanted: &str,
) -> bool {
    let reply = match directory.step(alloc, op(rt, call)) {
        Ok(reply) => reply,
        Err(AllocError) => directory.step(alloc, op(rt, call)).expect(rt, "memory"),
    };
    let text = format!(in alloc; "{reply:?}").expect(rt, "memory");
    text.as_str() == wanted
}

/// Asks a new directory of so many permits. The replies have to read so.
fn check(rt: &impl Abort, alloc: Global, case: usize, permits: u64, rows: &[(Call, &str)]) {
    assert!(rt; permits <= 1000);
    let mut directory = Directory::new(alloc, permits);
    for (row, (call, wanted)) in rows.iter().enumerate() {
        let is_told = is_told(rt, alloc, &mut directory, *call, wanted);
        assert_row(rt, case, row, is_told);
    }
}

/// One grain that is entered, given back, taken out, and lost with its silo.
const ONE_GRAIN: [(Call, &str); 13] = [
    (Call::Enter(b"gx", 0), "Entered { permit: 1 }"),
    (Call::Enter(b"gx", 0), "Busy"),
    (Call::Enter(b"gx", 1), "Elsewhere { silo: 0 }"),
    (Call::Leave(b"gx", 9), "NotYours"),
    (Call::Leave(b"gx", 1), "Left"),
    (Call::Leave(b"gx", 1), "NotYours"),
    (Call::Unplace(b"gx"), "Unplaced"),
    (Call::Unplace(b"gx"), "NotPlaced"),
    (Call::Enter(b"gx", 1), "Entered { permit: 2 }"),
    (Call::Unplace(b"gx"), "Busy"),
    (
        Call::Down(1),
        "Released { grain: GrainId { kind: g, key: x }, left: 0 }",
    ),
    (Call::Down(1), "NoneLeft"),
    (Call::Leave(b"gx", 2), "NotYours"),
];

/// The grains of a silo are taken out in their order, and the last permit stays the last.
const SILOS: [(Call, &str); 9] = [
    (Call::Enter(b"gy", 7), "Entered { permit: 1 }"),
    (Call::Enter(b"gx", 7), "Entered { permit: 2 }"),
    (Call::Enter(b"fz", 3), "Entered { permit: 3 }"),
    (Call::Leave(b"gx", 2), "Left"),
    (Call::Enter(b"gx", 7), "Spent"),
    (
        Call::Down(7),
        "Released { grain: GrainId { kind: g, key: x }, left: 1 }",
    ),
    (Call::Enter(b"gx", 7), "Spent"),
    (
        Call::Down(7),
        "Released { grain: GrainId { kind: g, key: y }, left: 0 }",
    ),
    (
        Call::Down(3),
        "Released { grain: GrainId { kind: f, key: z }, left: 0 }",
    ),
];

/// The only permit.
const ONE_PERMIT: [(Call, &str); 2] = [
    (Call::Enter(b"gx", 0), "Entered { permit: 1 }"),
    (Call::Enter(b"gy", 0), "Spent"),
];

/// How many permits there are, and what is asked.
static CASES: [(u64, &[(Call, &str)]); 3] = [(10, &ONE_GRAIN), (3, &SILOS), (1, &ONE_PERMIT)];

#[test]
fn grains_are_placed(rt: HostRuntime) {
    for (case, (permits, rows)) in CASES.iter().enumerate() {
        check(&rt, rt.alloc(), case, *permits, rows);
    }
}
