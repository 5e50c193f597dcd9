//! Tests of a partition and of what it stands on, through their public calls: names, the queue of a stream, the log,
//! searches of tags, whose answers are compared with those of plain loops, the subscriptions that rules make, streams of
//! one tag, and a partition as a whole with its runs of operations, its drains, and each of its limits. The other parts
//! are asked through the whole, here and by the scripts of `stream_examples`: their contracts are equations, which the
//! proof of the whole rests on.
#![tactic(auto)]

#[cfg(test)]
mod identities;
#[cfg(test)]
mod log;
#[cfg(test)]
mod mapper;
#[cfg(test)]
mod names;
#[cfg(test)]
mod partition;
#[cfg(test)]
mod queue_log;
#[cfg(test)]
mod random;
#[cfg(test)]
mod registry;
#[cfg(test)]
mod rows;
#[cfg(test)]
mod shared_tags;
#[cfg(test)]
mod tags;
