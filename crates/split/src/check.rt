//! What is refused before a node is parted, or two are joined.
ghost use Rattle.std.specs.Prelude.{◌≡◌, ◌≤◌, Err, MatchResult};
ghost use Rattle.split.specs.Steps.{place_check, node_check};
ghost use Rattle.split.specs.Asked.{Placed, Numbered};

use layers::refusal::Refusal;

/// Whether a list of `len` records has room for a diagram of n doors, and the layer lies between the first and the end.
pub(crate) fn check_place(n: usize, width: usize, len: usize, layer: usize) -> Result<(), Refusal>
    requires { n ≤ 16 }
    ensures { MatchResult result (λ _. Placed n width len layer)
        (λ e. place_check n width len layer ≡ Err e) }
{
    if !(1..=128).contains(&width) {
        return Err(Refusal::Width);
    }
    if len < n * width + 1 {
        return Err(Refusal::Short);
    }
    if !(1..n).contains(&layer) {
        return Err(Refusal::NoLayer);
    }
    Ok(())
}

/// Whether a layer of `count` nodes has that one.
pub(crate) fn check_node(count: usize, node: usize) -> Result<(), Refusal>
    ensures { MatchResult result (λ _. Numbered count node) (λ e. node_check count node ≡ Err e) }
{
    if !(1..=count).contains(&node) {
        return Err(Refusal::NoNode);
    }
    Ok(())
}
