ghost use Rattle.std.specs.Prelude.{◌≡◌};
ghost use Rattle.domain.specs.declared.attributes.Bounds.{Bounds as Numbers};

use crate::attributes::Bounds;

/// What a row of regions holds: anything that has the plain numbers of a box, which are all that a split reads of it.
pub trait HasBounds {
    /// The plain numbers.
    ghost bounds: { Self → Numbers };

    fn bounds(&self) -> Bounds
        ensures value { result ≡ bounds self.now };
}

impl HasBounds for Bounds {
    ghost bounds = { λ b. b };

    fn bounds(&self) -> Bounds {
        *self
    }
}
