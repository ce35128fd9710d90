//! Reports of orders as they are printed, worked out by hand and by a second calculation, and orders that are refused.
use crate::rounds::{QUARTER, THREE, round_of, text_of};
use order_report::named::order_named;
use order_report::report::{NoOrder, Report};
use std::alloc::Global;
use std::test::Fail;

/// Doors that change boxes, where 1 comes ahead of 3: with 1, 3, 2 the van would hold less than nothing.
const LOAD: &[u8] =
    b"round\t3\t0\t2\ndoor\t1\t0\t100\t40\t4\t1\ndoor\t2\t0\t100\t40\t4\t1\ndoor\t3\t0\t100\t40\t4\t-2\ndrive\t0\t6\t6\t6\ndrive\t1\t-\t6\t6\ndrive\t2\t6\t-\t6\ndrive\t3\t6\t6\t-\nfirst\t1\t3\n";

const LOAD_REPORT: &str =
    "finish\t1\t10\nfinish\t3\t20\nfinish\t2\t30\nallowed\tno\trule\t3\ndriving\t18\nlate\t0\t0\n";

/// Sixteen doors, the drive from i to j being 10 i + j minutes.
const FAR: &[u8] =
    b"round\t16\t5\t20\ndoor\t1\t0\t9999\t1000\t5\t-1\ndoor\t2\t0\t9999\t1000\t5\t-1\ndoor\t3\t0\t9999\t1000\t5\t-1\ndoor\t4\t0\t9999\t1000\t5\t-1\ndoor\t5\t0\t9999\t1000\t5\t-1\ndoor\t6\t0\t9999\t1000\t5\t-1\ndoor\t7\t0\t9999\t1000\t5\t-1\ndoor\t8\t0\t9999\t1000\t5\t-1\ndoor\t9\t0\t9999\t1000\t5\t1\ndoor\t10\t0\t9999\t1000\t5\t1\ndoor\t11\t0\t9999\t1000\t5\t1\ndoor\t12\t0\t9999\t1000\t5\t1\ndoor\t13\t0\t9999\t1000\t5\t1\ndoor\t14\t0\t9999\t1000\t5\t1\ndoor\t15\t0\t9999\t1000\t5\t1\ndoor\t16\t0\t9999\t1000\t5\t1\ndrive\t0\t1\t2\t3\t4\t5\t6\t7\t8\t9\t10\t11\t12\t13\t14\t15\t16\ndrive\t1\t-\t12\t13\t14\t15\t16\t17\t18\t19\t20\t21\t22\t23\t24\t25\t26\ndrive\t2\t21\t-\t23\t24\t25\t26\t27\t28\t29\t30\t31\t32\t33\t34\t35\t36\ndrive\t3\t31\t32\t-\t34\t35\t36\t37\t38\t39\t40\t41\t42\t43\t44\t45\t46\ndrive\t4\t41\t42\t43\t-\t45\t46\t47\t48\t49\t50\t51\t52\t53\t54\t55\t56\ndrive\t5\t51\t52\t53\t54\t-\t56\t57\t58\t59\t60\t61\t62\t63\t64\t65\t66\ndrive\t6\t61\t62\t63\t64\t65\t-\t67\t68\t69\t70\t71\t72\t73\t74\t75\t76\ndrive\t7\t71\t72\t73\t74\t75\t76\t-\t78\t79\t80\t81\t82\t83\t84\t85\t86\ndrive\t8\t81\t82\t83\t84\t85\t86\t87\t-\t89\t90\t91\t92\t93\t94\t95\t96\ndrive\t9\t91\t92\t93\t94\t95\t96\t97\t98\t-\t100\t101\t102\t103\t104\t105\t106\ndrive\t10\t101\t102\t103\t104\t105\t106\t107\t108\t109\t-\t111\t112\t113\t114\t115\t116\ndrive\t11\t111\t112\t113\t114\t115\t116\t117\t118\t119\t120\t-\t122\t123\t124\t125\t126\ndrive\t12\t121\t122\t123\t124\t125\t126\t127\t128\t129\t130\t131\t-\t133\t134\t135\t136\ndrive\t13\t131\t132\t133\t134\t135\t136\t137\t138\t139\t140\t141\t142\t-\t144\t145\t146\ndrive\t14\t141\t142\t143\t144\t145\t146\t147\t148\t149\t150\t151\t152\t153\t-\t155\t156\ndrive\t15\t151\t152\t153\t154\t155\t156\t157\t158\t159\t160\t161\t162\t163\t164\t-\t166\ndrive\t16\t161\t162\t163\t164\t165\t166\t167\t168\t169\t170\t171\t172\t173\t174\t175\t-\nfirst\t16\t1\nfirst\t9\t2\nfirst\t3\t12\n";

/// Driven from 16 down to 1, a pair is broken.
const FAR_REPORT: &str =
    "finish\t16\t21\nfinish\t15\t201\nfinish\t14\t370\nfinish\t13\t528\nfinish\t12\t675\nfinish\t11\t811\nfinish\t10\t936\nfinish\t9\t1050\nfinish\t8\t1153\nfinish\t7\t1245\nfinish\t6\t1326\nfinish\t5\t1396\nfinish\t4\t1455\nfinish\t3\t1503\nfinish\t2\t1540\nfinish\t1\t1566\nallowed\tno\trule\t12\ndriving\t1486\nlate\t9\t3234\n";

/// With 1, 2, 3 the third of the three doors is done after it closes.
const CLOSES_REPORT: &str =
    "finish\t1\t2\nfinish\t2\t6\nfinish\t3\t9\nallowed\tno\tcloses\t3\ndriving\t0\nlate\t1\t3\n";

/// On a grid of 1 door 4 would be done in time, at 180.
const QUARTER_REPORT: &str =
    "finish\t2\t60\nfinish\t1\t130\nfinish\t4\t185\nfinish\t3\t220\nallowed\tno\tcloses\t4\ndriving\t115\nlate\t2\t95\n";

/// Four doors, ten minutes from each other, of which one keeper has 1 and 2.
const KEPT: &[u8] =
    b"round\t4\t0\t0\ndoor\t1\t0\t100\t30\t5\t0\ndoor\t2\t0\t100\t30\t5\t0\ndoor\t3\t0\t100\t30\t5\t0\ndoor\t4\t0\t100\t30\t5\t0\ndrive\t0\t10\t10\t10\t10\ndrive\t1\t-\t10\t10\t10\ndrive\t2\t10\t-\t10\t10\ndrive\t3\t10\t10\t-\t10\ndrive\t4\t10\t10\t10\t-\nkeeper\t1\t7\nkeeper\t2\t7\n";

/// Doors without a keeper may follow each other, and the yard.
const TWICE_REPORT: &str =
    "finish\t3\t15\nfinish\t4\t30\nfinish\t1\t45\nfinish\t2\t60\nallowed\tno\trule\t2\ndriving\t40\nlate\t2\t45\n";

/// The keeper may let in again once another door was visited.
const BETWEEN_REPORT: &str =
    "finish\t2\t15\nfinish\t3\t30\nfinish\t1\t45\nfinish\t4\t60\nallowed\tyes\ndriving\t40\nlate\t2\t45\n";

/// What is said of the order that the words of a line name, or why they name none.
fn shown(heap: Global, text: &[u8], line: &str) -> Result<String, Fail> {
    let round = round_of(text)?;
    let words: Vec<&str> = line.split(' ').collect(heap)?;
    let doors = match order_named(&round, words.as_slice(), heap)? {
        Ok(doors) => doors,
        Err(fault) => return Ok(text_of(heap, fault)?),
    };
    match Report::of(&round, doors.as_slice(), heap)? {
        Some(report) => Ok(text_of(heap, report)?),
        None => Ok(text_of(heap, NoOrder)?),
    }
}

/// Rounds, with an order by its words, and its report.
static REPORTS: [(&[u8], &str, &str); 6] = [
    (THREE, "1 2 3", CLOSES_REPORT),
    (LOAD, "1 3 2", LOAD_REPORT),
    (QUARTER, "2 1 4 3", QUARTER_REPORT),
    (KEPT, "3 4 1 2", TWICE_REPORT),
    (KEPT, "2 3 1 4", BETWEEN_REPORT),
    (FAR, "16 15 14 13 12 11 10 9 8 7 6 5 4 3 2 1", FAR_REPORT),
];

#[test]
fn a_report_is_shown_in_lines(rt: HostRuntime) -> Result<(), Fail> {
    for (text, line, report) in &REPORTS {
        assert_eq!(rt; shown(rt.alloc(), text, line)?.as_str(), *report);
    }
    Ok(())
}

/// Rounds, with words that name no order, and what is told of them.
static FAULTS: [(&[u8], &str, &str); 8] = [
    (
        THREE,
        "3 3 4 0",
        "'4' is no door of this round: its doors are 1 to 3, in digits with no leading zero",
    ),
    (
        THREE,
        "1 +2 3",
        "'+2' is no door of this round: its doors are 1 to 3, in digits with no leading zero",
    ),
    (
        THREE,
        "1 2 ",
        "'' is no door of this round: its doors are 1 to 3, in digits with no leading zero",
    ),
    (
        FAR,
        "1 17",
        "'17' is no door of this round: its doors are 1 to 16, in digits with no leading zero",
    ),
    (THREE, "2 3 3 2", "door 3 comes twice"),
    (FAR, "16 1 16", "door 16 comes twice"),
    (THREE, "3", "door 1 is missing"),
    (
        FAR,
        "16 15 14 13 12 11 9 8 7 6 5 4 3 2 1",
        "door 10 is missing",
    ),
];

#[test]
fn the_first_fault_of_the_words_is_told(rt: HostRuntime) -> Result<(), Fail> {
    for (text, line, told) in &FAULTS {
        assert_eq!(rt; shown(rt.alloc(), text, line)?.as_str(), *told);
    }
    Ok(())
}
