//! The calls of a cluster in threads, as a service makes them. Which of its calls memory is refused to, or which loop of a
//! silo, is by chance: it ends without a loop that is left, and with a report that is right or without memory.
use crate::came::{Came, Stop, check, with_memory};
use std::alloc::{AllocError, Global};
use std::sync::Arc;
use streams::{
    CloseError, Closed, Config, Counting, GrainId, Host, Payload, PublishError, Service,
    SettleError, SiloError, StartFrom, StreamId, SubscribeError,
};

/// The call that is tried.
#[derive(Clone, Copy, PartialEq, Eq)]
pub(crate) enum Change {
    /// The service is opened.
    Open,
    /// A silo comes.
    Up,
    /// A silo goes.
    Down,
    /// A producer is made, and taken back.
    Producer,
    /// The service is closed.
    Close,
}

const REPORT: &[u8] = b"report\n0:1 o/k g/x 0.0 2\n  0.0 \"a\"\n  1.0 \"a\"\n";

/// A gate that its owner shares with a service.
type Shared = Arc<Counting, Global>;

/// A service of one queue and two silos.
fn open<R: Host>(rt: R, gate: &Shared) -> Result<Service<R, Counting>, AllocError> {
    Service::open(rt, &Config::new(1, 2), Arc::try_clone(gate)?)
}

/// Publishes an event.
fn publish<R: Host>(service: &mut Service<R, Counting>) -> Result<(), Stop> {
    let stream = StreamId::new(b"o", b"k")?;
    match service.publish(stream, &[Payload::new(b"a")?]) {
        Ok(_token) => Ok(()),
        Err(PublishError::Memory | PublishError::Ended { .. }) => Err(Stop::Memory),
        Err(_) => Err(Stop::Wrong("an event isn't published")),
    }
}

/// A grain subscribes, and an event is published.
fn begin<R: Host>(service: &mut Service<R, Counting>) -> Result<(), Stop> {
    let stream = StreamId::new(b"o", b"k")?;
    let grain = GrainId::new(b"g", b"x")?;
    match service.subscribe(stream, grain, StartFrom::Latest) {
        Ok(_subscription) => publish(service),
        Err(SubscribeError::Memory | SubscribeError::Ended { .. }) => Err(Stop::Memory),
        Err(_) => Err(Stop::Wrong("a grain doesn't subscribe")),
    }
}

/// Waits until all is handled, and closes a service. Where a change of its silos was broken off, something may be left to
/// do.
fn close<R: Host>(mut service: Service<R, Counting>, is_halted: bool) -> Result<(), Stop> {
    match service.settle() {
        Ok(()) | Err(SettleError::Ended) => {}
        Err(_) => return Err(Stop::Wrong("a service settles otherwise")),
    }
    let Closed {
        report,
        partitions: _partitions,
    } = service.close();
    match report {
        Ok(report) => check(report.as_slice() == REPORT, "the report is another one"),
        Err(CloseError::NotQuiet { .. }) => check(is_halted, "something is left to do"),
        Err(CloseError::Memory) => Err(Stop::Memory),
        Err(_) => Err(Stop::Wrong("a service is closed otherwise")),
    }
}

/// Publishes one more event, and closes a service.
fn go_on<R: Host>(mut service: Service<R, Counting>, is_halted: bool) -> Result<(), Stop> {
    publish(&mut service)?;
    close(service, is_halted)
}

/// Opens a service that was refused, and lets it live.
fn open_again<R: Host>(rt: R, gate: &Shared) -> Result<(), Stop> {
    check(
        Arc::strong_count(gate) == 1,
        "a service that was refused is left",
    )?;
    let mut service = open(rt, gate)?;
    begin(&mut service)?;
    go_on(service, false)
}

/// Goes on after a change of silos. Where memory was refused to it, they don't change any more.
fn follow_change<R: Host>(
    mut service: Service<R, Counting>,
    changed: Result<(), SiloError>,
) -> Result<Came, Stop> {
    match changed {
        Ok(()) => {
            go_on(service, false)?;
            Ok(Came::Done)
        }
        Err(SiloError::Memory) => {
            check(
                service.silo_up(5) == Err(SiloError::Halted),
                "a silo comes after a change that was refused",
            )?;
            with_memory(go_on(service, true))
        }
        Err(SiloError::Ended { .. }) => Err(Stop::Memory),
        Err(_) => Err(Stop::Wrong("the silos change otherwise")),
    }
}

/// A producer is taken back, and the service goes on. Where it was refused, no pass is missing.
fn follow_producer<R: Host>(mut service: Service<R, Counting>) -> Result<Came, Stop> {
    match service.producer() {
        Ok(producer) => {
            service.take_back(producer);
            go_on(service, false)?;
            Ok(Came::Done)
        }
        Err(AllocError) => with_memory(go_on(service, false)),
    }
}

/// Goes on to a close, and tells whether memory was refused to it or to a loop.
fn follow_close<R: Host>(mut service: Service<R, Counting>) -> Result<Came, Stop> {
    publish(&mut service)?;
    match close(service, false) {
        Ok(()) => Ok(Came::Done),
        Err(Stop::Memory) => Ok(Came::Refused),
        Err(stop) => Err(stop),
    }
}

/// Lets a service live, in which a change is tried.
fn live<R: Host>(rt: R, gate: &Shared, change: Change) -> Result<Came, Stop> {
    let mut service = match open(rt, gate) {
        Ok(service) => service,
        Err(AllocError) if change == Change::Open => return with_memory(open_again(rt, gate)),
        Err(AllocError) => return Err(Stop::Memory),
    };
    begin(&mut service)?;
    match change {
        Change::Open => follow_change(service, Ok(())),
        Change::Up => {
            let changed = service.silo_up(2);
            follow_change(service, changed)
        }
        Change::Down => {
            let changed = service.silo_down(0);
            follow_change(service, changed)
        }
        Change::Producer => follow_producer(service),
        Change::Close => follow_close(service),
    }
}

/// Tries a call of a service.
pub(crate) fn try_change<R: Host>(rt: R, change: Change) -> Result<Came, Stop> {
    let gate = Arc::new(rt.alloc(), Counting)?;
    let came = live(rt, &gate, change)?;
    check(Arc::strong_count(&gate) == 1, "a loop is left")?;
    Ok(came)
}
