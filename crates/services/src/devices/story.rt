//! What devices and an operator do, one after another.

/// How many devices there are.
pub const DEVICES: usize = 600;

/// What one of them does.
pub enum Step {
    /// The devices from one number to another send a reading, which depends on the round.
    Send {
        round: usize,
        from: usize,
        to: usize,
    },
    /// Somebody waits until all readings are handled.
    Settle,
    /// An operator takes a silo down.
    TakeSiloDown(u8),
}

/// The steps, each with what is printed when it is done.
pub static STORY: [(Step, &str); 6] = [
    (
        Step::Send {
            round: 0,
            from: 0,
            to: DEVICES,
        },
        "",
    ),
    (
        Step::Settle,
        "600 devices have sent a reading: all readings are handled\n",
    ),
    // A silo goes while readings come in.
    (
        Step::Send {
            round: 1,
            from: 0,
            to: DEVICES / 2,
        },
        "",
    ),
    (
        Step::TakeSiloDown(2),
        "silo 2 has gone while readings came in\n",
    ),
    // The devices that haven't yet sent their second reading do so.
    (
        Step::Send {
            round: 1,
            from: DEVICES / 2,
            to: DEVICES,
        },
        "",
    ),
    (
        Step::Settle,
        "600 devices have sent another one: all readings are handled\n",
    ),
];
