//! Tests of a cluster, through its public calls: in threads, refused memory and threads, under load, and parked. With it
//! they test the parts that it is made of beside its partitions and its loops: its callers, the crew of a silo, the
//! operator, the end, and the producer of a script.
#![tactic(auto)]

#[cfg(test)]
mod asking;
#[cfg(test)]
mod by_cluster;
#[cfg(test)]
mod cases;
#[cfg(test)]
mod drawn;
#[cfg(test)]
mod gates;
#[cfg(test)]
mod idle;
#[cfg(test)]
mod in_parallel;
#[cfg(test)]
mod leaving;
#[cfg(test)]
mod load;
#[cfg(test)]
mod own_turns;
#[cfg(test)]
mod parked;
#[cfg(test)]
mod parked_ends;
#[cfg(test)]
mod parked_refusals;
#[cfg(test)]
mod parts;
#[cfg(test)]
mod producer;
#[cfg(test)]
mod refusals;
#[cfg(test)]
mod replayed;
#[cfg(test)]
mod running;
#[cfg(test)]
mod scarce;
#[cfg(test)]
mod spread;
#[cfg(test)]
mod stopped;
#[cfg(test)]
mod stops;
#[cfg(test)]
mod story;
#[cfg(test)]
mod told;
