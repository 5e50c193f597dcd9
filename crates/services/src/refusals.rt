//! What a service is asked where nothing more is taken, and what it answers.
use anyhow::Result;
use streams::{Counting, Encode, GrainId, Host, Service, StartFrom, StreamId, StreamToken};

/// The service and a producer publish one more event, a grain subscribes, and what is refused is printed.
pub fn ask_for_more<R: Host + Print>(
    rt: &R,
    service: &mut Service<R, Counting>,
    stream: StreamId,
) -> Result<()> {
    if let Err(refused) = service.publish(stream, &["sugar".encode()?]) {
        println!(rt; "not published: {refused}")?;
    }
    if let Err(refused) = publish_beside(service, stream) {
        println!(rt; "not published by a producer: {refused}")?;
    }
    let auditor = GrainId::new(b"auditor", b"ann")?;
    if let Err(refused) = service.subscribe(stream, auditor, StartFrom::Latest) {
        println!(rt; "not subscribed: {refused}")?;
    }
    Ok(())
}

// A producer publishes one event.
fn publish_beside<R: Host>(
    service: &mut Service<R, Counting>,
    stream: StreamId,
) -> Result<StreamToken> {
    let sugar = "sugar".encode()?;
    let mut producer = service.producer()?;
    let published = producer.publish(stream, &[sugar]);
    service.take_back(producer);
    Ok(published?)
}
