//! How many orders the lister gives, and which comes next.
use crate::rounds::round_of;
use lister::list::{Listed, list};
use lister::next::next_order;
use rules::both::Both;
use rules::keepers::Keepers;
use rules::pairs::Pairs;
use std::test::Fail;
use tallies::driving::Driving;
use tallies::late::LateDoors;

/// How many lists come from this one on, each after the one before it.
fn count_from(doors: &mut [usize; 4]) -> usize {
    for seen in 1..100 {
        let before = *doors;
        if !next_order(doors) || *doors <= before {
            return seen;
        }
    }
    0
}

#[test]
fn four_doors_have_24_orders(rt: HostRuntime) {
    let mut doors = [1, 2, 3, 4];
    assert_eq!(rt; count_from(&mut doors), 24);
    assert_eq!(rt; doors, [4, 3, 2, 1]);
}

#[test]
fn the_next_order(rt: HostRuntime) {
    let mut doors = [2, 4, 3, 1];
    assert!(rt; next_order(&mut doors));
    assert_eq!(rt; doors, [3, 1, 2, 4]);
}

#[test]
fn the_last_order_stays(rt: HostRuntime) {
    let mut doors = [3, 2, 1];
    assert!(rt; !next_order(&mut doors));
    assert_eq!(rt; doors, [3, 2, 1]);
}

/// Eight doors that are open all day, with a minute of work at each.
const EIGHT: &[u8] =
    b"round\t8\t0\t0\ndoor\t1\t0\t9999\t0\t1\t0\ndoor\t2\t0\t9999\t0\t1\t0\ndoor\t3\t0\t9999\t0\t1\t0\ndoor\t4\t0\t9999\t0\t1\t0\ndoor\t5\t0\t9999\t0\t1\t0\ndoor\t6\t0\t9999\t0\t1\t0\ndoor\t7\t0\t9999\t0\t1\t0\ndoor\t8\t0\t9999\t0\t1\t0\ndrive\t0\t0\t0\t0\t0\t0\t0\t0\t0\ndrive\t1\t-\t0\t0\t0\t0\t0\t0\t0\ndrive\t2\t0\t-\t0\t0\t0\t0\t0\t0\ndrive\t3\t0\t0\t-\t0\t0\t0\t0\t0\ndrive\t4\t0\t0\t0\t-\t0\t0\t0\t0\ndrive\t5\t0\t0\t0\t0\t-\t0\t0\t0\ndrive\t6\t0\t0\t0\t0\t0\t-\t0\t0\ndrive\t7\t0\t0\t0\t0\t0\t0\t-\t0\ndrive\t8\t0\t0\t0\t0\t0\t0\t0\t-\n";

/// Seven such doors, of which 5 comes ahead of 2.
const SEVEN: &[u8] =
    b"round\t7\t0\t0\ndoor\t1\t0\t9999\t0\t1\t0\ndoor\t2\t0\t9999\t0\t1\t0\ndoor\t3\t0\t9999\t0\t1\t0\ndoor\t4\t0\t9999\t0\t1\t0\ndoor\t5\t0\t9999\t0\t1\t0\ndoor\t6\t0\t9999\t0\t1\t0\ndoor\t7\t0\t9999\t0\t1\t0\ndrive\t0\t0\t0\t0\t0\t0\t0\t0\ndrive\t1\t-\t0\t0\t0\t0\t0\t0\ndrive\t2\t0\t-\t0\t0\t0\t0\t0\ndrive\t3\t0\t0\t-\t0\t0\t0\t0\ndrive\t4\t0\t0\t0\t-\t0\t0\t0\ndrive\t5\t0\t0\t0\t0\t-\t0\t0\ndrive\t6\t0\t0\t0\t0\t0\t-\t0\ndrive\t7\t0\t0\t0\t0\t0\t0\t-\nfirst\t5\t2\n";

/// All orders of the eight doors, and of the seven one in two.
#[test]
fn open_doors_have_all_orders_and_a_pair_halves_them(rt: HostRuntime) -> Result<(), Fail> {
    for (text, count) in [(EIGHT, 40_320), (SEVEN, 2_520)] {
        let round = round_of(text)?;
        let orders = list(rt.alloc(), &round, &Pairs::of(&round), &Driving)?;
        assert_eq!(rt; orders.len(), count);
    }
    Ok(())
}

/// Four doors that are open all day, 1 and 3 of one keeper, 2 and 4 of none.
const KEPT: &[u8] =
    b"round\t4\t0\t0\ndoor\t1\t0\t9999\t0\t1\t0\ndoor\t2\t0\t9999\t0\t1\t0\ndoor\t3\t0\t9999\t0\t1\t0\ndoor\t4\t0\t9999\t0\t1\t0\ndrive\t0\t0\t0\t0\t0\ndrive\t1\t-\t0\t0\t0\ndrive\t2\t0\t-\t0\t0\ndrive\t3\t0\t0\t-\t0\ndrive\t4\t0\t0\t0\t-\nkeeper\t1\t99\nkeeper\t3\t99\n";

/// The orders in which 1 and 3 do not stand side by side.
static APART: [[usize; 4]; 12] = [
    [1, 2, 3, 4],
    [1, 2, 4, 3],
    [1, 4, 2, 3],
    [1, 4, 3, 2],
    [2, 1, 4, 3],
    [2, 3, 4, 1],
    [3, 2, 1, 4],
    [3, 2, 4, 1],
    [3, 4, 1, 2],
    [3, 4, 2, 1],
    [4, 1, 2, 3],
    [4, 3, 2, 1],
];

/// Whether these are the orders in which 1 and 3 do not stand side by side.
fn is_apart(orders: &[Listed<u32>]) -> bool {
    for (order, doors) in orders.iter().zip(&APART) {
        if &order.doors[..4] != doors.as_slice() {
            return false;
        }
    }
    orders.len() == APART.len()
}

#[test]
fn a_keeper_lets_in_with_another_door_between(rt: HostRuntime) -> Result<(), Fail> {
    let round = round_of(KEPT)?;
    let orders = list(rt.alloc(), &round, &Keepers::of(&round), &Driving)?;
    assert!(rt; is_apart(orders.as_slice()));
    Ok(())
}

/// Nine doors on a grid of 5, with pairs, key boxes and keepers.
const NINE: &[u8] =
    b"round\t9\t0\t6\t5\ndoor\t1\t77\t139\t106\t9\t2\ndoor\t2\t215\t248\t253\t8\t-2\ndoor\t3\t23\t102\t74\t22\t2\ndoor\t4\t264\t349\t337\t13\t-2\ndoor\t5\t149\t219\t214\t17\t0\ndoor\t6\t213\t319\t298\t21\t1\ndoor\t7\t84\t135\t134\t20\t2\ndoor\t8\t174\t226\t225\t6\t-1\ndoor\t9\t253\t341\t292\t5\t1\ndrive\t0\t16\t6\t36\t34\t34\t28\t12\t15\t34\ndrive\t1\t-\t18\t19\t38\t12\t34\t15\t20\t28\ndrive\t2\t29\t-\t23\t3\t32\t13\t37\t22\t16\ndrive\t3\t20\t19\t-\t28\t21\t16\t19\t17\t28\ndrive\t4\t30\t30\t19\t-\t18\t23\t7\t17\t28\ndrive\t5\t10\t18\t19\t31\t-\t11\t34\t31\t3\ndrive\t6\t26\t22\t40\t6\t20\t-\t15\t40\t15\ndrive\t7\t20\t30\t23\t33\t26\t28\t-\t6\t21\ndrive\t8\t13\t10\t27\t17\t5\t7\t22\t-\t12\ndrive\t9\t4\t29\t16\t5\t40\t7\t24\t5\t-\nfirst\t9\t4\nfirst\t1\t7\nfirst\t5\t9\nkeeper\t2\t7\nkeeper\t3\t7\nkeeper\t7\t12\nkeeper\t8\t12\n";

/// Ten doors with a pair, key boxes and keepers.
const TEN: &[u8] =
    b"round\t10\t0\t5\ndoor\t1\t112\t178\t179\t9\t-1\ndoor\t2\t299\t384\t335\t21\t0\ndoor\t3\t30\t122\t100\t12\t1\ndoor\t4\t138\t228\t213\t9\t-1\ndoor\t5\t12\t60\t100\t7\t1\ndoor\t6\t218\t262\t275\t17\t0\ndoor\t7\t158\t225\t213\t22\t-1\ndoor\t8\t259\t329\t334\t22\t0\ndoor\t9\t63\t144\t140\t23\t1\ndoor\t10\t0\t73\t29\t24\t0\ndrive\t0\t10\t25\t29\t21\t15\t34\t30\t39\t10\t19\ndrive\t1\t-\t22\t6\t24\t36\t23\t5\t11\t21\t19\ndrive\t2\t19\t-\t4\t25\t40\t28\t5\t39\t20\t33\ndrive\t3\t16\t13\t-\t17\t24\t36\t18\t17\t11\t32\ndrive\t4\t9\t27\t14\t-\t20\t35\t9\t25\t23\t15\ndrive\t5\t17\t15\t17\t33\t-\t27\t37\t11\t13\t11\ndrive\t6\t12\t23\t29\t24\t37\t-\t40\t29\t35\t31\ndrive\t7\t40\t40\t33\t11\t13\t30\t-\t4\t28\t13\ndrive\t8\t32\t15\t5\t17\t39\t19\t16\t-\t20\t29\ndrive\t9\t20\t9\t8\t39\t27\t21\t9\t27\t-\t38\ndrive\t10\t25\t37\t6\t27\t8\t18\t10\t21\t9\t-\nfirst\t10\t5\nkeeper\t1\t3\nkeeper\t2\t8\nkeeper\t3\t8\nkeeper\t7\t3\n";

/// Rounds, with their two allowed orders, the later doors behind each, and what they cost.
static FEW: [(&[u8], [([usize; 16], (u32, u32)); 2]); 2] = [
    (
        NINE,
        [
            (
                [3, 1, 7, 5, 8, 2, 6, 9, 4, 10, 11, 12, 13, 14, 15, 16],
                (1, 8),
            ),
            (
                [3, 1, 7, 5, 8, 2, 9, 6, 4, 10, 11, 12, 13, 14, 15, 16],
                (0, 0),
            ),
        ],
    ),
    (
        TEN,
        [
            (
                [10, 5, 3, 9, 1, 4, 7, 6, 8, 2, 11, 12, 13, 14, 15, 16],
                (3, 28),
            ),
            (
                [10, 5, 9, 3, 1, 4, 7, 6, 8, 2, 11, 12, 13, 14, 15, 16],
                (3, 30),
            ),
        ],
    ),
];

/// Whether just these orders are listed, with these costs.
fn are_listed(orders: &[Listed<(u32, u32)>], want: &[([usize; 16], (u32, u32))]) -> bool {
    for (order, (doors, cost)) in orders.iter().zip(want) {
        if order.doors != *doors || order.cost != *cost {
            return false;
        }
    }
    orders.len() == want.len()
}

#[test]
fn few_orders_of_many_doors_are_found(rt: HostRuntime) -> Result<(), Fail> {
    for (text, want) in &FEW {
        let round = round_of(text)?;
        let (rule, tally) = (Both::of(&round), LateDoors::of(&round));
        let orders = list(rt.alloc(), &round, &rule, &tally)?;
        assert!(rt; are_listed(orders.as_slice(), want));
    }
    Ok(())
}
