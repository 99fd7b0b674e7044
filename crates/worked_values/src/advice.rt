//! Sets of candidates that are advised, by queries that like some.

ghost use Rattle.std.specs.Prelude.{◌≡◌, ◌≤◌};
ghost use Rattle.worked_values.specs.work.Likings.{liked};

use advisor::{Advice, Pricer, Quote, advise};
use pg_base::Memory;
use std::marker::Model;
use std::test::Fail;

/// Two queries. The first costs 3 with candidate 0 and else 5, the second 3 with candidate 1 and else 5. They count how
/// often they are priced, which contracts do not see.
#[derive(Drop)]
struct Likings {
    asked: u32,
}

impl Model for Likings {
    ghost Value = { Unit {0} };

    ghost view = { λ l. tt };
}

/// What a query costs with a set.
fn liked(q: u8, s: u16) -> u64
    ensures price { result ≡ liked q s }
    ensures below { result ≤ 5 }
{
    let concern = if q == 0 { 1u16 } else { 2u16 };
    if s & concern == 0 { 5 } else { 3 }
}

impl Pricer for Likings {
    ghost use Rattle.worked_values.specs.work.Likings.{IsLiked, concern, liked-depends, liked-unique};

    ghost count = { λ p. 2 };

    ghost concerns = { λ p q. concern q };

    ghost priced = { λ p q s o. IsLiked q s o };

    fn queries(&self) -> u8 {
        2
    }

    fn relevant(&self, q: u8) -> u16 {
        if q == 0 { 1 } else { 2 }
    }

    fn price(&mut self, q: u8, s: u16) -> Result<Quote, Memory> {
        self.asked = self.asked.saturating_add(1);
        let cost = Some(liked(q, s));
        Ok(Quote { cost, used: s })
    }

    ghost unique = { λ p q s a b. liked-unique q s a b };

    ghost depends = { λ p q s o. liked-depends q s o };
}

#[test]
fn the_first_of_equal_sets_is_advised_and_no_price_asked_twice(
    rt: HostRuntime,
) -> Result<(), Fail> {
    let table = [(0, 0, 10, 4), (1, 1, 8, 4), (2, 3, 6, 4), (3, 3, 6, 4)];
    for (k, set, sum, asked) in table {
        let mut likings = Likings { asked: 0 };
        let found = advise(rt.alloc(), &mut likings, 3, k)?;
        assert_eq!(rt;
            (found, likings.asked),
            (Some(Advice { set, sum }), asked),
            "{k}"
        );
    }
    Ok(())
}
