//! The state of a list of doors, under any rule.
ghost use Rattle.std.specs.Prelude.{◌≡◌, ℕ};
ghost use Rattle.doors.specs.Orders.{CanFollow};
ghost use Rattle.rules.specs.Rules.{state_of, IsExact};

use crate::rule::Rule;

/// Start, stepped through the doors. Where they are a part order that keeps the rule, it bars exactly the doors that break it.
pub fn state_of<R: Rule>(rule: &R, doors: &[usize]) -> R::State
    ensures value { result ≡ state_of (R.Rule.sense rule.now) doors.now }
    ensures exact { (n j : ℕ) → R.Rule.serves rule.now n → CanFollow n doors.now j
        → R.Rule.keeps rule.now doors.now
        → IsExact (R.Rule.keeps rule.now) doors.now j ((R.Rule.sense rule.now).bars result j) }
{
    let mut s = rule.start();
    for j in doors {
        s = rule.step(s, *j);
    }
    s
}
