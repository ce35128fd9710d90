//! A side rule and a tally written outside the crates of the traits: any crate may add one.
mod latest;
mod opener;

use crate::rounds::{THREE, round_of};
use latest::LatestFinish;
use opener::Opener;
use orders::order::Order;
use orders::verdict::Verdict;
use std::test::Fail;

#[test]
fn an_order_under_the_rule_and_the_tally(rt: HostRuntime) -> Result<(), Fail> {
    let round = round_of(THREE)?;
    let doors = [1, 3, 2];
    let Some(order) = Order::of(&round, &doors) else {
        return Err(Fail::new("no order"));
    };
    assert_eq!(rt; order.verdict(&Opener { n: 3, door: 1 }), Verdict::Allowed);
    assert_eq!(rt;
        order.verdict(&Opener { n: 3, door: 2 }),
        Verdict::Breaks(1)
    );
    assert_eq!(rt; order.cost(&LatestFinish), 8);
    Ok(())
}
