//! What a subscriber asks: the end of a subscription.
ghost use Rattle.std.specs.Prelude.{◌≡◌, ◌<◌, false, filter, length, not};
ghost use Rattle.stream_ident.specs.Name.{same_grain};
ghost use Rattle.stream_ident.specs.SubName.{same_sub};
ghost use Rattle.stream_model.specs.declared.plain.Subscription.{Subscription};
ghost use Rattle.stream_model.specs.Places.{change_at};
ghost use Rattle.stream_model.specs.Publishing.{unsubscribe, without};
ghost use Rattle.stream_ident.specs.Words.{changed_value};

use crate::positions::is_same_sub;
use crate::records::{place_of_grain, place_of_sub, sub_in};
use stream_ident::{GrainId, SubName};
use stream_model::{Delivery, Grain, PlainPartition, Reply, Sequence, Subscription};

/// An explicit subscription ends: its deliveries leave the mailbox, and a turn that runs stays. It takes no
/// memory.
pub fn unsubscribe(p: &mut PlainPartition, sub: SubName) -> Reply
    ensures { (p.new, result) ≡ unsubscribe p.old sub }
{
    let Some(place) = place_of_sub(&p.subs, &sub) else {
        return Reply::NoSuch;
    };
    let found = sub_in(&p.subs, &sub, place);
    if let SubName::Implicit { .. } = sub {
        return Reply::Implicit;
    }
    if !found.is_open {
        return Reply::Closed;
    }
    let grain = found.grain;
    let handled = found.handled.as_slice().len();
    close(&mut p.subs, place);
    drop_deliveries(&mut p.grains, &grain, &sub);
    Reply::Unsubscribed { handled }
}

/// Closes the subscription at a place.
fn close(subs: &mut Sequence<(SubName, Subscription)>, place: usize)
    requires { place < length subs.old }
    ensures { subs.new ≡ change_at (λ (r : Subscription). record r { is_open = false }) place subs.old }
{
    let sub = &mut subs.items[place].1;
    sub.is_open = false;
}

/// Takes the deliveries of a subscription out of the mailbox of a grain, where the grain has a record.
fn drop_deliveries(grains: &mut Sequence<(GrainId, Grain)>, id: &GrainId, sub: &SubName)
    ensures { grains.new ≡ changed_value same_grain id.now (without sub.now) grains.old }
{
    let Some(at) = place_of_grain(grains, id) else {
        return;
    };
    drop_deliveries_at(grains, at, sub);
}

/// Takes the deliveries of a subscription out of the mailbox of the grain at a place.
fn drop_deliveries_at(grains: &mut Sequence<(GrainId, Grain)>, at: usize, sub: &SubName)
    requires { at < length grains.old }
    ensures { grains.new ≡ change_at (without sub.now) at grains.old }
{
    let grain = &mut grains.items[at].1;
    let mailbox = &mut grain.mailbox;
    keep_others(&mut mailbox.items, sub);
}

/// Keeps the deliveries of other subscriptions, in their order.
fn keep_others(mailbox: &mut Vec<Delivery>, sub: &SubName)
    ensures { mailbox.new.items ≡ filter (λ d. not (same_sub sub.now d.sub)) mailbox.old.items }
{
    mailbox.retain(|delivery| !is_same_sub(sub, &delivery.sub));
}
