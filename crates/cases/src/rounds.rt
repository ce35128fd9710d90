//! Rounds that several tests go by, rounds of texts, and texts of what is shown.
use round::table::Round;
use std::alloc::{AllocError, Global};
use std::fmt::Display;
use std::test::Fail;
use text::reading::read_bounded;

/// Three doors with hours, and no drives. One order is allowed: 1, 3, 2.
pub(crate) const THREE: &[u8] =
    b"round\t3\t0\t0\ndoor\t1\t0\t3\t3\t2\t0\ndoor\t2\t4\t9\t7\t2\t0\ndoor\t3\t3\t8\t6\t3\t0\ndrive\t0\t0\t0\t0\ndrive\t1\t-\t0\t0\ndrive\t2\t0\t-\t0\ndrive\t3\t0\t0\t-\n";

/// Four doors on a grid of 15. Two orders are allowed: 2, 4, 1, 3 and 2, 4, 3, 1.
pub(crate) const QUARTER: &[u8] =
    b"round\t4\t0\t1\t15\ndoor\t1\t105\t240\t200\t25\t0\ndoor\t2\t0\t120\t95\t15\t1\ndoor\t3\t135\t225\t190\t25\t0\ndoor\t4\t45\t180\t120\t20\t-1\ndrive\t0\t10\t40\t10\t15\ndrive\t1\t-\t40\t5\t30\ndrive\t2\t40\t-\t10\t40\ndrive\t3\t5\t10\t-\t5\ndrive\t4\t30\t40\t5\t-\nfirst\t4\t3\n";

/// The round of a text that is accepted.
pub(crate) fn round_of(text: &[u8]) -> Result<Round, Fail> {
    let mut round = Round::fresh();
    read_bounded(&mut round, text)?;
    Ok(round)
}

/// What is shown of a value.
pub(crate) fn text_of<D: Display + Drop>(heap: Global, shown: D) -> Result<String, AllocError> {
    format!(in heap; "{shown}")
}
