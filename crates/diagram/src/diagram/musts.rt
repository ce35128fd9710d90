//! All musts of a diagram.
ghost use Rattle.std.specs.Prelude.{◌≡◌, ◌≢◌, ℕ, slice_index};
ghost use Rattle.doors.specs.Orders.{IsDoor};
ghost use Rattle.doors.specs.Sets.{has};
ghost use Rattle.layers.specs.Claim.{MustMeans};
ghost use Rattle.diagram.specs.Musts.{must_of, musts};
ghost use Rattle.diagram.specs.Words.{round_of, width_of, records_of};

use super::Diagram;
use doors::DoorSet;

impl<'a, 'n, S: Copy, V: Copy> Diagram<'a, 'n, S, V> {
    /// All musts: element i is the set of the doors j of which must(i, j) is yes, and none where i is no door.
    pub fn musts(&self) -> [DoorSet; 17]
        ensures sets { let n = (round_of self.now).n in
            result ≡ musts n (width_of self.now) (records_of self.now) }
        // door j is in set i exactly when must(i, j) is answered yes
        ensures each { let n = (round_of self.now).n in
            (i j : ℕ) → has (slice_index result i) j
            ≡ must_of n (width_of self.now) (records_of self.now) i j }
        // and so, of two doors, exactly when j stands ahead of i on none of the paths
        ensures paths { let n = (round_of self.now).n in
            (i j : ℕ) → IsDoor n i → IsDoor n j → i ≢ j
            → MustMeans n (width_of self.now) i j (records_of self.now)
            (has (slice_index result i) j) }
    {
        self.reading_form().musts()
    }
}
