//! What the replies said.
use step_core::{Op, Pending, Reply};
use stream_ident::{GrainId, SubName, Token};

/// The token of the first event.
const FIRST: Token = Token { seq: 0, idx: 0 };

/// A turn that a worker was given.
#[derive(Clone, Copy)]
pub struct GivenTurn {
    /// Its grain.
    pub grain: GrainId,
    /// The activation that began it.
    pub activation: u64,
    /// Its number.
    pub turn: u64,
}

/// An event that a subscription has handled.
#[derive(Clone, Copy)]
pub struct HandledEvent {
    /// The subscription.
    pub sub: SubName,
    /// The token of the event.
    pub token: Token,
}

/// What the replies said, so that operations which answer them can be made.
#[derive(Drop)]
pub struct Heard {
    /// The last generation that a reply gave.
    pub generation: u64,
    /// The number of the last explicit subscription, 0 before the first.
    pub explicit: u32,
    /// The token that the cache began with, by the last reply that gave it.
    pub low: Token,
    /// A grain for which there was something to do.
    pub grain: GrainId,
    /// A subscription for which there was something to do.
    pub sub: SubName,
    /// The last turn, which may have ended.
    pub turn: GivenTurn,
    /// The turn before the last.
    pub turn_before: GivenTurn,
    /// The last event that could be acknowledged, and may have been.
    pub handled: HandledEvent,
    /// The event before the last.
    pub handled_before: HandledEvent,
}

impl Heard {
    /// What counts as heard before the first reply.
    pub fn nothing(grain: &GrainId) -> Heard {
        Heard {
            generation: 0,
            explicit: 0,
            low: FIRST,
            grain: *grain,
            sub: SubName::Explicit(1),
            turn: first_turn(grain),
            turn_before: first_turn(grain),
            handled: first_handled(),
            handled_before: first_handled(),
        }
    }

    /// Hears the reply to an operation.
    pub fn hear(&mut self, op: &Op, reply: &Reply) {
        match reply {
            Reply::Subscribed { number } => {
                self.explicit = *number;
            }
            Reply::Moved { generation, .. } => {
                self.generation = *generation;
            }
            Reply::Pulled { low, .. } => {
                self.low = *low;
            }
            Reply::Pressed { by } => {
                self.sub = *by;
            }
            Reply::Next(grain) => {
                self.grain = *grain;
            }
            Reply::NotQuiet(why) => self.hear_pending(why),
            Reply::Turn {
                activation,
                turn,
                ..
            } => self.hear_turn(op, *activation, *turn),
            Reply::Committed { sub, token } => self.handle(sub, *token),
            Reply::DueSub { sub, ack } => self.hear_due(sub, *ack),
            _ => {}
        }
    }

    /// Hears why the partition isn't quiet.
    fn hear_pending(&mut self, why: &Pending) {
        match why {
            Pending::Behind => {}
            Pending::Deliverable(sub) => {
                self.sub = *sub;
            }
            Pending::Waiting(grain) | Pending::Running(grain) => {
                self.grain = *grain;
            }
        }
    }

    /// Hears that a turn was given.
    fn hear_turn(&mut self, op: &Op, activation: u64, turn: u64) {
        let Op::Begin { grain, .. } = op else {
            return;
        };
        self.turn_before = self.turn;
        self.turn = GivenTurn {
            grain: *grain,
            activation,
            turn,
        };
    }

    /// Hears that something is due.
    fn hear_due(&mut self, sub: &SubName, ack: Option<Token>) {
        self.sub = *sub;
        if let Some(token) = ack {
            self.handle(sub, token);
        }
    }

    /// Hears that an event of a subscription was handled, or that a reply gives it again.
    fn handle(&mut self, sub: &SubName, token: Token) {
        self.handled_before = self.handled;
        self.handled = HandledEvent { sub: *sub, token };
    }
}

/// The turn that a partition gives first, if to this grain.
fn first_turn(grain: &GrainId) -> GivenTurn {
    GivenTurn {
        grain: *grain,
        activation: 1,
        turn: 1,
    }
}

/// The event that a partition handles first, if for this subscription.
fn first_handled() -> HandledEvent {
    HandledEvent {
        sub: SubName::Explicit(1),
        token: FIRST,
    }
}
