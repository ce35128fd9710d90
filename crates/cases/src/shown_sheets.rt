//! Sheets as they are printed, worked out by hand or by other programs.
use crate::rounds::{QUARTER, THREE, round_of, text_of};
use layers::refusal::Refusal;
use round_sheet::sheet::{EMPTY, RECORDS, Sheet};
use std::alloc::Global;
use std::test::Fail;

const THREE_SHEET: &str = "bound\t1\t1\nrefine\twhole\nmust\t1\t2\nmust\t1\t3\nmust\t3\t2\n";

/// The three doors, the second of which closes at 7.
const NONE: &[u8] =
    b"round\t3\t0\t0\ndoor\t1\t0\t3\t3\t2\t0\ndoor\t2\t4\t7\t7\t2\t0\ndoor\t3\t3\t8\t6\t3\t0\ndrive\t0\t0\t0\t0\ndrive\t1\t-\t0\t0\ndrive\t2\t0\t-\t0\ndrive\t3\t0\t0\t-\n";

const NONE_SHEET: &str =
    "bound\tnone\nrefine\twhole\nmust\t1\t2\nmust\t1\t3\nmust\t2\t1\nmust\t2\t3\nmust\t3\t1\nmust\t3\t2\n";

/// Three doors with a minute of work at each, of which one keeper has 2 and 3. Door 2 closes at 1, so that 2, 1, 3 alone is allowed.
const KEPT: &[u8] =
    b"round\t3\t0\t0\ndoor\t1\t0\t9999\t1\t1\t0\ndoor\t2\t0\t1\t1\t1\t0\ndoor\t3\t0\t9999\t2\t1\t0\ndrive\t0\t0\t0\t0\ndrive\t1\t-\t0\t0\ndrive\t2\t0\t-\t0\ndrive\t3\t0\t0\t-\nkeeper\t2\t5\nkeeper\t3\t5\n";

/// Without the keeper the bound is 1 and 2, and the first must is missing.
const KEPT_SHEET: &str = "bound\t2\t2\nrefine\twhole\nmust\t1\t3\nmust\t2\t1\nmust\t2\t3\n";

/// Five doors, where pairs, load and hours each decide: without any one of them the sheet is another.
const DECIDED: &[u8] =
    b"round\t5\t0\t7\ndoor\t1\t104\t190\t151\t12\t2\ndoor\t2\t34\t159\t90\t16\t2\ndoor\t3\t4\t96\t80\t14\t2\ndoor\t4\t14\t113\t81\t11\t-1\ndoor\t5\t147\t196\t176\t8\t-2\ndrive\t0\t29\t9\t36\t16\t33\ndrive\t1\t-\t39\t23\t23\t39\ndrive\t2\t29\t-\t15\t3\t25\ndrive\t3\t29\t38\t-\t3\t36\ndrive\t4\t25\t27\t9\t-\t33\ndrive\t5\t33\t38\t29\t25\t-\nfirst\t3\t1\nfirst\t4\t1\nfirst\t3\t2\nfirst\t4\t2\nfirst\t3\t5\n";

const DECIDED_SHEET: &str =
    "bound\t2\t36\nrefine\twhole\nmust\t1\t5\nmust\t2\t1\nmust\t2\t5\nmust\t3\t1\nmust\t3\t2\nmust\t3\t4\nmust\t3\t5\nmust\t4\t1\nmust\t4\t2\nmust\t4\t5\n";

/// On a grid of 1 the bound is 0 and 0, and the fourth must is missing.
const QUARTER_SHEET: &str =
    "bound\t1\t5\nrefine\twhole\nmust\t2\t1\nmust\t2\t3\nmust\t2\t4\nmust\t4\t1\nmust\t4\t3\n";

/// Five doors, where pairs, load, hours and the grid of 15 each decide: without any one of them the sheet is another.
const LIFTED: &[u8] =
    b"round\t5\t0\t3\t15\ndoor\t1\t87\t147\t133\t10\t-1\ndoor\t2\t36\t95\t73\t20\t2\ndoor\t3\t104\t202\t140\t10\t2\ndoor\t4\t0\t85\t59\t22\t0\ndoor\t5\t69\t183\t131\t9\t0\ndrive\t0\t9\t2\t22\t2\t19\ndrive\t1\t-\t3\t26\t4\t20\ndrive\t2\t13\t-\t15\t5\t10\ndrive\t3\t17\t28\t-\t22\t8\ndrive\t4\t13\t5\t15\t-\t24\ndrive\t5\t22\t6\t9\t12\t-\nfirst\t5\t3\nfirst\t4\t5\n";

const LIFTED_SHEET: &str =
    "bound\t1\t20\nrefine\twhole\nmust\t1\t3\nmust\t2\t1\nmust\t2\t3\nmust\t2\t5\nmust\t4\t1\nmust\t4\t2\nmust\t4\t3\nmust\t4\t5\nmust\t5\t3\n";

/// The round of rounds/keepers.txt. Without its keepers the bound is 0 and 0, and the first must is missing.
const TWO_KEEPERS: &[u8] =
    b"round\t5\t0\t0\ndoor\t1\t30\t210\t105\t25\t0\ndoor\t2\t90\t270\t195\t30\t0\ndoor\t3\t0\t120\t105\t30\t0\ndoor\t4\t90\t270\t180\t15\t0\ndoor\t5\t30\t120\t120\t15\t0\ndrive\t0\t20\t20\t25\t15\t10\ndrive\t1\t-\t5\t20\t5\t5\ndrive\t2\t5\t-\t25\t10\t10\ndrive\t3\t20\t25\t-\t20\t25\ndrive\t4\t5\t10\t20\t-\t5\ndrive\t5\t5\t10\t25\t5\t-\nfirst\t1\t4\nkeeper\t1\t7\nkeeper\t2\t7\nkeeper\t4\t12\nkeeper\t5\t12\n";

const TWO_KEEPERS_SHEET: &str =
    "bound\t1\t5\nrefine\twhole\nmust\t1\t2\nmust\t1\t4\nmust\t3\t1\nmust\t3\t2\nmust\t3\t4\nmust\t5\t2\nmust\t5\t4\n";

/// Five doors, where pairs, load, hours, the grid of 15 and the keepers each decide: without any one of them the sheet is another.
const SPACED: &[u8] =
    b"round\t5\t2\t4\t15\ndoor\t1\t71\t182\t160\t21\t1\ndoor\t2\t54\t150\t118\t14\t1\ndoor\t3\t10\t138\t43\t18\t-2\ndoor\t4\t33\t120\t79\t11\t2\ndoor\t5\t52\t167\t79\t11\t-2\ndrive\t0\t13\t24\t18\t11\t8\ndrive\t1\t-\t17\t5\t22\t8\ndrive\t2\t25\t-\t11\t13\t9\ndrive\t3\t13\t10\t-\t9\t10\ndrive\t4\t14\t16\t19\t-\t4\ndrive\t5\t4\t19\t11\t3\t-\nfirst\t5\t1\nfirst\t4\t5\nkeeper\t2\t12\nkeeper\t4\t7\nkeeper\t5\t12\n";

const SPACED_SHEET: &str =
    "bound\t2\t111\nrefine\twhole\nmust\t3\t2\nmust\t4\t1\nmust\t4\t5\nmust\t5\t1\n";

/// Sixteen doors, of which layer 9 gets full.
const FULL: &[u8] =
    b"round\t16\t2\t7\ndoor\t1\t0\t206\t217\t8\t0\ndoor\t2\t233\t356\t485\t19\t-1\ndoor\t3\t307\t490\t509\t10\t-2\ndoor\t4\t203\t291\t268\t16\t-1\ndoor\t5\t308\t388\t478\t9\t-2\ndoor\t6\t131\t159\t285\t20\t2\ndoor\t7\t179\t409\t327\t23\t2\ndoor\t8\t77\t347\t205\t14\t-1\ndoor\t9\t0\t154\t75\t12\t-1\ndoor\t10\t30\t148\t72\t15\t2\ndoor\t11\t155\t215\t274\t6\t1\ndoor\t12\t214\t414\t492\t22\t0\ndoor\t13\t0\t173\t137\t9\t0\ndoor\t14\t0\t167\t134\t7\t-1\ndoor\t15\t360\t591\t431\t22\t2\ndoor\t16\t309\t592\t517\t5\t-2\ndrive\t0\t19\t23\t25\t37\t25\t40\t23\t8\t24\t3\t4\t36\t18\t20\t40\t36\ndrive\t1\t-\t10\t8\t22\t36\t31\t28\t38\t34\t16\t3\t20\t5\t19\t31\t11\ndrive\t2\t29\t-\t35\t25\t25\t14\t30\t26\t20\t4\t3\t33\t29\t17\t23\t20\ndrive\t3\t32\t20\t-\t19\t18\t16\t27\t28\t35\t19\t21\t21\t25\t35\t18\t37\ndrive\t4\t26\t22\t22\t-\t18\t34\t3\t7\t9\t33\t36\t20\t33\t18\t3\t38\ndrive\t5\t28\t38\t23\t10\t-\t23\t28\t39\t14\t11\t27\t11\t3\t23\t13\t26\ndrive\t6\t7\t7\t14\t37\t8\t-\t17\t23\t39\t30\t28\t17\t37\t17\t38\t7\ndrive\t7\t13\t37\t4\t12\t9\t29\t-\t31\t30\t34\t28\t12\t30\t24\t28\t27\ndrive\t8\t24\t7\t14\t4\t22\t38\t4\t-\t22\t7\t10\t8\t20\t3\t32\t22\ndrive\t9\t27\t25\t30\t32\t27\t37\t27\t25\t-\t11\t30\t29\t21\t7\t4\t24\ndrive\t10\t13\t6\t6\t14\t33\t13\t23\t25\t32\t-\t19\t40\t7\t35\t3\t24\ndrive\t11\t29\t21\t12\t28\t19\t5\t9\t4\t35\t20\t-\t36\t38\t26\t24\t25\ndrive\t12\t15\t35\t3\t4\t35\t40\t32\t12\t32\t38\t34\t-\t5\t15\t14\t24\ndrive\t13\t20\t17\t12\t9\t11\t14\t25\t35\t35\t29\t20\t21\t-\t14\t37\t20\ndrive\t14\t10\t33\t17\t31\t31\t25\t27\t9\t22\t4\t37\t38\t10\t-\t5\t40\ndrive\t15\t33\t31\t36\t17\t7\t33\t17\t34\t20\t7\t39\t37\t39\t35\t-\t18\ndrive\t16\t19\t22\t21\t11\t34\t13\t22\t33\t20\t26\t25\t3\t39\t12\t3\t-\nfirst\t6\t1\nfirst\t9\t1\nfirst\t4\t2\nfirst\t8\t2\nfirst\t5\t3\nfirst\t6\t3\nfirst\t8\t3\nfirst\t9\t3\nfirst\t10\t3\nfirst\t14\t3\nfirst\t1\t4\nfirst\t9\t4\nfirst\t10\t4\nfirst\t11\t4\nfirst\t14\t4\nfirst\t4\t5\nfirst\t8\t5\nfirst\t9\t5\nfirst\t11\t5\nfirst\t1\t7\nfirst\t6\t7\nfirst\t8\t7\nfirst\t10\t7\nfirst\t13\t7\nfirst\t6\t8\nfirst\t14\t9\nfirst\t14\t10\nfirst\t10\t11\nfirst\t13\t11\nfirst\t14\t11\nfirst\t1\t12\nfirst\t6\t12\nfirst\t13\t12\nfirst\t9\t13\nfirst\t9\t15\nfirst\t12\t15\nfirst\t4\t16\nfirst\t5\t16\nfirst\t9\t16\n";

const FULL_SHEET: &str =
    "bound\t1\t15\nrefine\tfull\t9\nmust\t1\t2\nmust\t1\t3\nmust\t1\t4\nmust\t1\t5\nmust\t1\t7\nmust\t1\t8\nmust\t1\t11\nmust\t1\t12\nmust\t1\t15\nmust\t1\t16\nmust\t6\t1\nmust\t6\t2\nmust\t6\t3\nmust\t6\t4\nmust\t6\t5\nmust\t6\t7\nmust\t6\t8\nmust\t6\t11\nmust\t6\t12\nmust\t6\t15\nmust\t6\t16\nmust\t9\t1\nmust\t9\t2\nmust\t9\t3\nmust\t9\t4\nmust\t9\t5\nmust\t9\t6\nmust\t9\t7\nmust\t9\t8\nmust\t9\t11\nmust\t9\t12\nmust\t9\t13\nmust\t9\t15\nmust\t9\t16\nmust\t10\t1\nmust\t10\t2\nmust\t10\t3\nmust\t10\t4\nmust\t10\t5\nmust\t10\t6\nmust\t10\t7\nmust\t10\t8\nmust\t10\t11\nmust\t10\t12\nmust\t10\t13\nmust\t10\t15\nmust\t10\t16\nmust\t11\t2\nmust\t11\t3\nmust\t11\t4\nmust\t11\t5\nmust\t11\t7\nmust\t11\t8\nmust\t11\t12\nmust\t11\t15\nmust\t11\t16\nmust\t13\t1\nmust\t13\t2\nmust\t13\t3\nmust\t13\t4\nmust\t13\t5\nmust\t13\t6\nmust\t13\t7\nmust\t13\t8\nmust\t13\t11\nmust\t13\t12\nmust\t13\t15\nmust\t13\t16\nmust\t14\t1\nmust\t14\t2\nmust\t14\t3\nmust\t14\t4\nmust\t14\t5\nmust\t14\t6\nmust\t14\t7\nmust\t14\t8\nmust\t14\t9\nmust\t14\t10\nmust\t14\t11\nmust\t14\t12\nmust\t14\t13\nmust\t14\t15\nmust\t14\t16\n";

/// Five doors that may be driven in any order.
const FREE: &[u8] =
    b"round\t5\t0\t0\ndoor\t1\t0\t9999\t9999\t1\t0\ndoor\t2\t0\t9999\t9999\t1\t0\ndoor\t3\t0\t9999\t9999\t1\t0\ndoor\t4\t0\t9999\t9999\t1\t0\ndoor\t5\t0\t9999\t9999\t1\t0\ndrive\t0\t0\t0\t0\t0\t0\ndrive\t1\t-\t0\t0\t0\t0\ndrive\t2\t0\t-\t0\t0\t0\ndrive\t3\t0\t0\t-\t0\t0\ndrive\t4\t0\t0\t0\t-\t0\ndrive\t5\t0\t0\t0\t0\t-\n";

/// Ten pairs of doors, each with two that may be last, do not fit in 16 nodes.
const FREE_SHEET: &str = "bound\t0\t0\nrefine\tfull\t2\n";

/// The printed sheet of the round of a text.
fn shown(heap: Global, text: &[u8]) -> Result<String, Fail> {
    let round = round_of(text)?;
    let mut records = [EMPTY; RECORDS];
    let sheet = Sheet::of(&round, &mut records)?;
    Ok(text_of(heap, sheet)?)
}

/// Rounds, with their sheets.
static SHEETS: [(&[u8], &str); 10] = [
    (THREE, THREE_SHEET),
    (NONE, NONE_SHEET),
    (KEPT, KEPT_SHEET),
    (TWO_KEEPERS, TWO_KEEPERS_SHEET),
    (DECIDED, DECIDED_SHEET),
    (QUARTER, QUARTER_SHEET),
    (LIFTED, LIFTED_SHEET),
    (SPACED, SPACED_SHEET),
    (FULL, FULL_SHEET),
    (FREE, FREE_SHEET),
];

#[test]
fn a_sheet_is_shown_in_lines(rt: HostRuntime) -> Result<(), Fail> {
    for (text, sheet) in &SHEETS {
        assert_eq!(rt; shown(rt.alloc(), text)?.as_str(), *sheet);
    }
    Ok(())
}

#[test]
fn a_full_layer_is_not_settled(rt: HostRuntime) -> Result<(), Fail> {
    let round = round_of(FREE)?;
    let mut records = [EMPTY; RECORDS];
    assert!(rt; !Sheet::of(&round, &mut records)?.settled);
    Ok(())
}

#[test]
fn a_short_list_is_refused(rt: HostRuntime) -> Result<(), Fail> {
    let round = round_of(FREE)?;
    let mut short = [EMPTY; 80];
    assert_eq!(rt; Sheet::of(&round, &mut short), Err(Refusal::Short));
    let mut enough = [EMPTY; 81];
    assert!(rt; Sheet::of(&round, &mut enough).is_ok());
    Ok(())
}
