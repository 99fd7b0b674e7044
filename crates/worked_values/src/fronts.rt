//! Offers that a front keeps.

use pareto::{Front, Ranked};

/// A price and a waiting time: one offer is at most another where it is at most in both.
#[derive(Clone, Copy, Debug, PartialEq, Eq)]
struct Offer {
    price: u32,
    days: u32,
}

impl Ranked for Offer {
    ghost use Rattle.worked_values.specs.work.Offers.{is_offer_at_most, offers-reflexive, offers-transitive};

    ghost is_at_most = { λ a b. is_offer_at_most a.price a.days b.price b.days };

    fn at_most(&self, other: &Offer) -> bool {
        self.price <= other.price && self.days <= other.days
    }

    ghost reflexive = { λ a. offers-reflexive a.price a.days };

    ghost transitive = { λ a b c. offers-transitive a.price a.days b.price b.days c.price c.days };
}

#[test]
fn keeps_the_offers_that_no_other_covers(rt: HostRuntime) {
    let mut front = Front::new(rt.alloc());
    let rounds: [((u32, u32), &[(u32, u32)]); 6] = [
        ((5, 5), &[(5, 5)]),
        ((3, 9), &[(5, 5), (3, 9)]),
        ((5, 6), &[(5, 5), (3, 9)]),
        ((9, 1), &[(5, 5), (3, 9), (9, 1)]),
        ((3, 4), &[(9, 1), (3, 4)]),
        ((3, 4), &[(9, 1), (3, 4)]),
    ];
    for ((price, days), kept) in rounds {
        let offered = front.offer(Offer { price, days });
        assert!(rt; offered.is_ok(), "{price} {days} is answered");
        let items = front.items();
        assert_eq!(rt; items.len(), kept.len(), "at {price} {days}");
        for (item, want) in items.iter().zip(kept) {
            assert_eq!(rt; (item.price, item.days), *want, "at {price} {days}");
        }
    }
}
