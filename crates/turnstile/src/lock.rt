//! The table by which the calls of a turnstile take turns.
ghost use Rattle.std.specs.Prelude.{◌≡◌, ℕ, ◌<◌, [], ◌∷◌, false, length, Some};

use crate::history::StoredHistory;
use crate::replays::Replays;
use crate::rule::{Draw, Look, Note, OneHistory, Seen, Serve, Slot};
use crate::view::{Held, Opening};
use atomic_table::{Seat, Table};
use crossbeam_utils::Backoff;
use std::alloc::Global;
use std::sync::Wait;
use std::sync::atomic::{AtomicU64, Ordering};

// The words: how many passes were made, the next ticket, the ticket that is served, and how many entries
// the history has.
pub const PASSES: usize = 0;

const TICKET: usize = 1;

const SERVING: usize = 2;

const COUNT: usize = 3;

// How often a newcomer looks whether anybody is here, before it draws a ticket all the same.
const MOST_LOOKS: u32 = 10_000;

/// The table of a turnstile, and how many entries its history may have.
#[derive(Drop)]
pub struct Lock<T: Replays> {
    pub table: Table<Slot<T>, Seen<T>, Opening<T>, OneHistory<T>, Global>,
    pub limit: u64,
    // How many have come and not gone. No proof speaks of it: it only has newcomers wait without a ticket, so that a
    // thread that isn't running holds up nobody.
    pub crowd: AtomicU64,
    pub ghost shape: { (table.shared.table_id.words ≡ 4) × (table.shared.table_id.slots ≡ 1) },
    pub ghost limited: { limit ≡ table.shared.key.limit },
}

impl<T: Replays> Lock<T> {
    ghost use Rattle.turnstile.specs.Plays.{Turn, Begun, MayLeave, MayNote, gone, items_of};
    ghost use Rattle.turnstile.specs.Turns.{start_of};

    // Comes, draws a ticket, and waits until it is served.
    fn enter<R: Wait>(&self, rt: &R, seat: &mut Seat<Slot<T>, Seen<T>>)
        requires table { seat.old.table_id ≡ self.now.table.shared.table_id }
        requires idle { (seat.old.me.1 ≡ []) × (seat.old.me.0.tickets ≡ []) × (seat.old.me.0.come ≡ false) × (0 < length seat.old.me.0.numbers) }
        ensures same { (seat.new.table_id ≡ seat.old.table_id) × (seat.new.id ≡ seat.old.id) }
        ensures turn { (t : ℕ) × Turn T.History.entries T.state_of T.replied T.after (record seat.old.me.0 { tickets = t ∷ [] }) seat.new.me }
    {
        self.come();
        let ticket = self.table.shared.fetch_add::<Draw>(seat, TICKET, 1);
        let backoff = Backoff::new();
        for _ in rt.forever() {
            if self.table.shared.load::<Look<T>>(seat, SERVING) == ticket {
                return;
            }
            backoff.snooze();
        }
        unreachable!()
    }

    // Waits for the turn, and takes the value out.
    pub fn begin<R: Wait>(&self, rt: &R, seat: &mut Seat<Slot<T>, Seen<T>>) -> Held<T, T::History>
        requires table { (seat.old.table_id ≡ self.now.table.shared.table_id) × (seat.old.me.0.start ≡ Some (start_of T.state_of self.now.table.shared.key)) }
        requires idle { (seat.old.me.1 ≡ []) × (seat.old.me.0.tickets ≡ []) × (seat.old.me.0.come ≡ false) × (0 < length seat.old.me.0.numbers) }
        ensures same { (seat.new.table_id ≡ seat.old.table_id) × (seat.new.id ≡ seat.old.id) }
        ensures begun { Begun T.History.entries T.state_of T.replied T.after (start_of T.state_of self.now.table.shared.key) seat.old.me.0 result seat.new.me }
    {
        self.enter(rt, seat);
        self.table.shared.exchange(seat, 0, None).unwrap()
    }

    // Gives the turn up, with nothing added.
    pub fn leave(&self, seat: &mut Seat<Slot<T>, Seen<T>>, held: Held<T, T::History>)
        requires table { seat.old.table_id ≡ self.now.table.shared.table_id }
        requires held { MayLeave T.History.entries T.state_of T.replied T.after (start_of T.state_of self.now.table.shared.key) held seat.old.me }
        ensures same { (seat.new.table_id ≡ seat.old.table_id) × (seat.new.id ≡ seat.old.id) }
        ensures gone { seat.new.me ≡ gone T.History.entries held seat.old.me }
    {
        let _none = self.table.shared.exchange(seat, 0, Some(held));
        self.table.shared.fetch_add::<Serve>(seat, SERVING, 1);
        self.crowd.fetch_sub(1, Ordering::SeqCst);
    }

    // Waits until nobody is here, though not for ever, and comes.
    fn come(&self) {
        let backoff = Backoff::new();
        for _ in 0..MOST_LOOKS {
            if self.crowd.load(Ordering::SeqCst) == 0 {
                break;
            }
            backoff.snooze();
        }
        self.crowd.fetch_add(1, Ordering::SeqCst);
    }

    // Adds the last entry of what is held to what all see.
    #[inline(never)]
    pub fn note(&self, seat: &mut Seat<Slot<T>, Seen<T>>, held: &Slot<T>, count: u64)
        requires table { seat.old.table_id ≡ self.now.table.shared.table_id }
        requires held { MayNote T.History.entries T.replied T.after (start_of T.state_of self.now.table.shared.key) held.now seat.old.me }
        requires count { count ≡ length (items_of T.History.entries held.now) }
        ensures same { (seat.new.table_id ≡ seat.old.table_id) × (seat.new.id ≡ seat.old.id) }
        ensures noted { seat.new.me ≡ (record seat.old.me.0 { seen = items_of T.History.entries held.now }, seat.old.me.1) }
    {
        self.table
            .shared
            .compare_exchange_with::<Note<T>>(seat, COUNT, count - 1, count, held);
    }
}
