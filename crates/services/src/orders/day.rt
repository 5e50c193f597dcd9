//! What customers, auditors and operators ask in a day.

/// What is asked.
pub enum Request {
    /// A customer asks for a desk.
    OpenDesk,
    /// A customer asks that the desk closes.
    CloseDesk,
    /// A customer orders. An order is its price in cents, a space, and what it is.
    Order(&'static [&'static str]),
    /// An auditor looks at all orders of a customer.
    Audit,
    /// Somebody waits until all orders are handled.
    Settle,
    /// An operator starts a silo.
    StartSilo(u8),
    /// An operator takes a silo down.
    TakeSiloDown(u8),
}

/// What is asked in the day, one after another, each with whom it is about.
pub static DAY: [(&str, Request); 25] = [
    // Each customer gets a desk.
    ("ann", Request::OpenDesk),
    ("bob", Request::OpenDesk),
    ("dora", Request::OpenDesk),
    ("carla", Request::OpenDesk),
    // The first orders come in, and two that are refused.
    ("ann", Request::Order(&["1250 tea", "300 milk"])),
    ("bob", Request::Order(&["4000 a coat"])),
    ("carla", Request::Order(&["800 a book"])),
    ("carla", Request::Order(&["2500 a lamp"])),
    ("dora", Request::Order(&[])),
    ("dora", Request::Order(&["bread"])),
    // Carla leaves, and an auditor looks at all that Ann has ordered.
    ("all orders", Request::Settle),
    ("carla", Request::CloseDesk),
    ("ann", Request::Audit),
    // A silo goes while orders come in, the last one can't go, and the first comes again.
    ("ann", Request::Order(&["450 sugar"])),
    ("bob", Request::Order(&["1500 gloves", "2200 a hat"])),
    ("silo 0", Request::TakeSiloDown(0)),
    ("silo 1", Request::TakeSiloDown(1)),
    ("dora", Request::Order(&["275 bread"])),
    ("silo 0", Request::StartSilo(0)),
    ("bob", Request::Order(&["900 socks"])),
    // An auditor asks for orders of Carla's that are gone. What she orders now, nobody handles but the auditor.
    ("carla", Request::Audit),
    ("carla", Request::CloseDesk),
    ("carla", Request::Order(&["1100 a scarf"])),
    ("dora", Request::Order(&["325 butter"])),
    ("all orders", Request::Settle),
];
