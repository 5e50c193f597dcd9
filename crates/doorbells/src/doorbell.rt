//! The doorbell that loops wait at, and the hints that it has for them.
use crate::desk::{Desk, QueueSet, flags, set};
use crate::loop_end::LoopEnd;
use crate::ringing::rings;
use activation_directory::DirectoryReply;
use std::alloc::{AllocError, Global};
use std::sync::atomic::{AtomicBool, AtomicU64, Ordering};
use std::sync::{Mutex, Wait};
use step_core::{Answer, Reply};
use stream_ident::MOST_SILOS;
use turnstile::Refusal;

/// A count of what happened, at which those who found nothing to do wait for more. It wraps.
///
/// It is rung after each answer for which [`rings`] or [`directory_rings`] holds, by [`end`](Doorbell::end), and by
/// whoever tells a loop to stop. Beside it each silo has a desk for its agent and one for its workers, each with a count
/// of its own, which rises after the answers that concern these loops, and with hints that say at which queues to look
/// first.
///
/// A hint that is wrong or late costs time and never an event: a loop looks at all its queues before it waits. No
/// contract says that the doorbell wakes anybody.
#[derive(Drop)]
pub struct Doorbell {
    // where those wait whom anything concerns
    all: Desk,
    ended: AtomicBool,
    end: Mutex<Option<LoopEnd>>,
    agents: Vec<Desk>,
    workers: Vec<Desk>,
    places: Vec<Place>,
}

/// Where the loops of a queue are.
#[derive(Drop)]
struct Place {
    // the silo whose agent has the queue
    holder: AtomicU64,
    // for each silo whether a grain of the queue was found there
    grains: Vec<AtomicBool>,
    // whether the agent has found a mailbox full
    full: AtomicBool,
    // how many turns the workers that were told last had handled by then
    handled: AtomicU64,
}

impl Place {
    /// A queue on silo 0, none of whose grains was found anywhere.
    fn new(alloc: Global) -> Result<Place, AllocError> {
        Ok(Place {
            holder: AtomicU64::new(0),
            grains: flags(alloc, usize::from(MOST_SILOS))?,
            full: AtomicBool::new(false),
            handled: AtomicU64::new(0),
        })
    }
}

/// Whom answers at a queue concern.
#[derive(Clone, Copy, Debug, PartialEq, Eq)]
struct News {
    // whoever waits at the doorbell
    rings: bool,
    // the queue's agent, also where it waits for room in a mailbox
    agent: bool,
    begun: bool,
    // workers
    workers: bool,
    // the agent has found a mailbox full
    full: bool,
}

impl News {
    /// They concern nobody.
    const NONE: News = News {
        rings: false,
        agent: false,
        begun: false,
        workers: false,
        full: false,
    };

    /// Whom this answer concerns.
    fn of(answer: &Answer) -> News {
        let rings = rings(answer);
        let workers = matches!(answer.outcome(), Reply::Delivered { .. });
        let own = matches!(answer.outcome(), Reply::Pulled { .. } | Reply::Acked);
        News {
            rings,
            agent: rings && !workers && !own,
            begun: matches!(answer.outcome(), Reply::Turn { .. }),
            workers,
            full: matches!(answer.outcome(), Reply::MailboxFull),
        }
    }

    /// Also what this answer concerns.
    fn add(&mut self, news: News) {
        self.rings |= news.rings;
        self.agent |= news.agent;
        self.begun |= news.begun;
        self.workers |= news.workers;
        self.full |= news.full;
    }
}

/// A desk for each silo.
fn desks(alloc: Global, queues: usize) -> Result<Vec<Desk>, AllocError> {
    let mut desks = Vec::with_capacity(alloc, usize::from(MOST_SILOS))?;
    for _ in 0..MOST_SILOS {
        desks.push(Desk::new(alloc, queues, 0)?)?;
    }
    Ok(desks)
}

impl Doorbell {
    /// A doorbell for so many queues, which are on silo 0, whose count begins with this number.
    ///
    /// # Errors
    /// The call failed to allocate.
    pub fn new(alloc: Global, queues: usize, count: u64) -> Result<Doorbell, AllocError> {
        let agents = desks(alloc, queues)?;
        let workers = desks(alloc, queues)?;
        let mut places = Vec::with_capacity(alloc, queues)?;
        for _ in 0..queues {
            places.push(Place::new(alloc)?)?;
        }
        Ok(Doorbell {
            all: Desk::new(alloc, 0, count)?,
            ended: AtomicBool::new(false),
            end: Mutex::new(None),
            agents,
            workers,
            places,
        })
    }

    /// Counts one more everywhere, and wakes all that wait. Each loop looks at all its queues.
    pub fn ring<R: Wait>(&self, rt: &R) {
        for desk in &self.agents {
            desk.ring(rt);
        }
        for desk in &self.workers {
            desk.ring(rt);
        }
        self.all.ring(rt);
    }

    /// Tells whoever waits that a queue may never get quiet: a loop has ended by itself, a silo went and its queues
    /// weren't given to others, or not all loops of one that came could be started. That can be seen before those who wait look again.
    pub fn end<R: Wait>(&self, rt: &R) {
        self.ended.store(true, Ordering::SeqCst);
        self.ring(rt);
    }

    /// A loop has ended by itself.
    pub fn end_by<R: Wait>(&self, rt: &R, end: LoopEnd) {
        let mut first = self.end.lock(rt);
        if first.is_none() {
            *first = Some(end);
        }
        drop(first);
        self.end(rt);
    }

    /// What has ended a loop by itself, the first that did. No contract says so: a service tells its caller by it what
    /// happened, and what is promised of an end stands with the loops.
    pub fn loop_end<R: Wait>(&self, rt: &R) -> Option<LoopEnd> {
        *self.end.lock(rt)
    }

    /// Whether a loop has ended by itself, a silo went and its queues weren't given to others, or not all loops of one
    /// that came could be started. Then a queue may never get quiet.
    pub fn has_ended(&self) -> bool {
        self.ended.load(Ordering::SeqCst)
    }

    /// The count, to be remembered before looking for something to do.
    pub fn now<R: Wait>(&self, rt: &R) -> u64 {
        self.all.now(rt)
    }

    /// Waits while the count is this one and `stop` isn't set. Whoever sets `stop` rings after it.
    pub fn wait_past<R: Wait>(&self, rt: &R, seen: u64, stop: &AtomicBool) {
        self.all.wait_past(rt, seen, stop);
    }

    /// Tells whom an answer that a caller got at a queue concerns.
    pub fn tell<R: Wait>(&self, rt: &R, queue: usize, answer: &Answer) {
        let mut news = News::of(answer);
        // Where a caller ends a turn that it has begun itself, its grain may be ready again, and no worker knows.
        news.workers |= matches!(answer.outcome(), Reply::Committed { .. } | Reply::Closed);
        self.spread(rt, queue, news);
    }

    /// The agent of a silo has the queue from now on. It is told, and so are all.
    pub fn moved<R: Wait>(&self, rt: &R, queue: usize, silo: u8) {
        if let Some(place) = self.places.get(queue) {
            place.holder.store(u64::from(silo), Ordering::SeqCst);
        }
        self.hint_agent(silo, queue, true);
        self.hint_workers(silo, queue, true);
        self.ring(rt);
    }

    /// The loops of a silo run from now on.
    pub fn opens(&self, silo: u8) {
        if let Some(desk) = self.workers(silo) {
            desk.open(true);
        }
    }

    /// The loops of a silo are told to stop: nothing is left to its workers any more.
    pub fn closes(&self, silo: u8) {
        if let Some(desk) = self.workers(silo) {
            desk.open(false);
        }
    }

    /// Leaves a hint that a queue may have something for a silo's agent, or takes it away. Nobody is woken. A hint may be
    /// wrong, so this changes what a loop looks at first, and nothing else.
    pub fn hint_agent(&self, silo: u8, queue: usize, is_hinted: bool) {
        if let Some(desk) = self.agents.get(usize::from(silo)) {
            desk.hint(queue, is_hinted);
        }
    }

    /// Hints that a queue may have something for a silo's workers, or that it has nothing, as
    /// [`hint_agent`](Doorbell::hint_agent) does.
    pub fn hint_workers(&self, silo: u8, queue: usize, is_hinted: bool) {
        if let Some(desk) = self.workers.get(usize::from(silo)) {
            desk.hint(queue, is_hinted);
        }
    }

    /// The desk of a silo's agent, where there is such a silo.
    pub fn agent(&self, silo: u8) -> Option<&Desk> {
        self.agents.get(usize::from(silo))
    }

    /// The desk of a silo's workers, where there is such a silo.
    pub fn workers(&self, silo: u8) -> Option<&Desk> {
        self.workers.get(usize::from(silo))
    }

    // Hints are left before a count rises, and that before anybody is woken: whoever waits has seen the hint or the count.
    fn spread<R: Wait>(&self, rt: &R, queue: usize, news: News) {
        if let Some(place) = self.places.get(queue) {
            self.tell_loops(rt, queue, place, news);
        }
        if news.rings {
            self.all.ring(rt);
        }
    }

    // Tells the loops that the news concern.
    fn tell_loops<R: Wait>(&self, rt: &R, queue: usize, place: &Place, news: News) {
        if news.full {
            place.full.store(true, Ordering::SeqCst);
        }
        let has_room = news.begun && place.full.swap(false, Ordering::SeqCst);
        if news.agent || has_room {
            if let Some(desk) = self.agent(holder_of(place)) {
                desk.tell(rt, queue);
            }
        }
        if news.workers {
            self.tell_workers(rt, queue, place);
        }
    }

    // Tells the workers of the silos on which grains of the queue were found, or else those of the silo that has it.
    fn tell_workers<R: Wait>(&self, rt: &R, queue: usize, place: &Place) {
        let mut is_told = false;
        for (has_grain, desk) in place.grains.iter().zip(self.workers.iter()) {
            if has_grain.load(Ordering::SeqCst) && desk.is_open() {
                desk.tell(rt, queue);
                is_told = true;
            }
        }
        if let Some(desk) = self.workers(holder_of(place)) {
            if !is_told {
                desk.tell(rt, queue);
            }
            if is_stuck(place, desk) {
                self.call_for_help(rt, queue);
            }
        }
    }

    // Tells the workers of a silo at which one waits.
    fn call_for_help<R: Wait>(&self, rt: &R, queue: usize) {
        for desk in &self.workers {
            if desk.is_waited_at() {
                desk.tell(rt, queue);
                return;
            }
        }
    }

    /// The hints for a silo's agent, where there are some, which are taken away. Where there are none it looks for some time.
    pub fn watch_for_agent(&self, silo: u8) -> Option<QueueSet> {
        self.agent(silo)?.watch(true)
    }

    /// The hints for a silo's workers, where there are some. Where there are none it looks for some time.
    pub fn watch_for_workers(&self, silo: u8) -> Option<QueueSet> {
        self.workers(silo)?.watch(false)
    }

    /// Whether there is a hint for a silo's workers.
    pub fn has_work(&self, silo: u8) -> bool {
        match self.workers(silo) {
            Some(desk) => !desk.hinted(false).is_empty(),
            None => false,
        }
    }

    /// A worker of the silo begins to handle the events of a turn.
    pub fn begin_handling(&self, silo: u8) {
        if let Some(desk) = self.workers(silo) {
            desk.begin();
        }
    }

    /// A worker of the silo has handled the events of a turn.
    pub fn end_handling(&self, silo: u8) {
        if let Some(desk) = self.workers(silo) {
            desk.end();
        }
    }

    /// A worker of the silo has looked for a ready grain at the queue. Where it has found one there may be more, so the
    /// silo's other worker is to look there too.
    pub fn looked(&self, silo: u8, queue: usize, has_found: bool) {
        if has_found {
            self.hint_workers(silo, queue, true);
        }
    }

    /// A worker of the silo has given a permit back.
    pub fn left<R: Wait>(&self, rt: &R, silo: u8) {
        if let Some(desk) = self.workers(silo) {
            desk.left(rt);
        }
    }

    /// What came of a ready grain at the queue, for whose permit a worker of the silo asked.
    pub fn hear_entering<R: Wait>(
        &self,
        rt: &R,
        silo: u8,
        queue: usize,
        answer: &Result<DirectoryReply, Refusal>,
    ) {
        match *answer {
            Ok(DirectoryReply::Entered { .. }) => self.entered(queue, silo),
            // It was found on another silo, whose workers are told.
            Ok(DirectoryReply::Elsewhere { silo: other }) => {
                self.entered(queue, other);
                if let Some(desk) = self.workers(other) {
                    desk.tell(rt, queue);
                }
            }
            Ok(DirectoryReply::Busy) => {
                if let Some(desk) = self.workers(silo) {
                    desk.busy(queue);
                }
            }
            _ => {}
        }
    }

    // A grain of the queue was entered on this silo.
    fn entered(&self, queue: usize, silo: u8) {
        if let Some(place) = self.places.get(queue) {
            set(&place.grains, usize::from(silo), true);
        }
    }
}

// The silo whose agent has the queue.
fn holder_of(place: &Place) -> u8 {
    let holder = place.holder.load(Ordering::SeqCst);
    holder.min(u64::from(MOST_SILOS)) as u8
}

// Whether all workers at a desk are in handlers, and have handled no turn since this queue told somebody last.
fn is_stuck(place: &Place, desk: &Desk) -> bool {
    match desk.all_handle() {
        Some(handled) => place.handled.swap(handled, Ordering::SeqCst) == handled,
        None => false,
    }
}

/// Rings for calls at the doorbell, at once or where a turn that is kept ends.
#[derive(Drop)]
pub struct Bell {
    keeps: bool,
    news: News,
}

impl Bell {
    /// Rings at once.
    pub fn new() -> Bell {
        Bell {
            keeps: false,
            news: News::NONE,
        }
    }

    /// Waits from now on.
    pub fn keep(&mut self) {
        self.keeps = true;
    }

    /// Tells whom an answer at a queue concerns.
    pub fn hear<R: Wait>(&mut self, rt: &R, doorbell: &Doorbell, queue: usize, answer: &Answer) {
        let news = News::of(answer);
        if self.keeps {
            self.news.add(news);
        } else {
            doorbell.spread(rt, queue, news);
        }
    }

    /// Tells those who wait at the doorbell, where an answer of the directory concerns them.
    pub fn ring<R: Wait>(&mut self, rt: &R, doorbell: &Doorbell, rings: bool) {
        if self.keeps {
            self.news.rings |= rings;
        } else if rings {
            doorbell.all.ring(rt);
        }
    }

    /// Tells whom what was heard meanwhile concerns, and waits no more.
    pub fn leave<R: Wait>(&mut self, rt: &R, doorbell: &Doorbell, queue: usize) {
        self.keeps = false;
        doorbell.spread(rt, queue, self.news);
        self.news = News::NONE;
    }
}
