ghost use Rattle.std.specs.Prelude.{◌≡◌, ◌<◌, ◌≤◌, ◌++◌, ◌∷◌, [], length, IfOk};

use std::alloc::Global;
use std::marker::Model;
use tr_base::NoMemory;
use tr_inbox::Delivery;

/// The most deliveries in an outbox.
const MOST: usize = 64;

/// The deliveries of one step, in order: at most 64. Its block is allocated once, so that only `new`
/// can run out of memory. A call of `Mail` that sends first takes out the deliveries of the step before.
#[derive(Debug, Drop)]
pub struct Outbox {
    deliveries: Vec<Delivery>,
}

impl Model for Outbox {
    ghost use Rattle.std.specs.Prelude.{◌≤◌, List, length, vec_capacity};
    ghost use Rattle.tr_inbox.specs.declared.Delivery.{Delivery};

    ghost Value = { List Delivery };

    ghost view = { λ o. o.deliveries.items };

    ghost invariant = { λ o. (length o.deliveries.items ≤ 64) × (64 ≤ vec_capacity o.deliveries) };
}

impl Outbox {
    /// An outbox without a delivery.
    pub fn new(alloc: Global) -> Result<Outbox, NoMemory>
        ensures { IfOk result (λ out. out ≡ []) }
    {
        Ok(Outbox {
            deliveries: Vec::with_capacity(alloc, MOST)?,
        })
    }

    /// Removes all deliveries.
    pub fn clear(&mut self)
        ensures { self.new ≡ [] }
    {
        self.deliveries.clear();
    }

    /// Adds a delivery.
    pub fn push(&mut self, delivery: Delivery)
        requires { length self.old < MOST }
        ensures { self.new ≡ self.old ++ delivery ∷ [] }
    {
        self.deliveries.push_reserved(delivery);
    }

    /// The deliveries, in order.
    pub fn as_slice(&self) -> &[Delivery]
        ensures deliveries { result.now ≡ self.now }
        ensures limit { length self.now ≤ MOST }
    {
        self.deliveries.as_slice()
    }

    /// The number of deliveries.
    pub fn len(&self) -> usize
        ensures count { result ≡ length self.now }
        ensures limit { result ≤ MOST }
    {
        self.deliveries.len()
    }
}
