// The strategies that stand apart, and the band that is co-pol.
ghost use Rattle.std.specs.Prelude.{◌≡◌};
ghost use Rattle.spec.specs.Copol.{first_is_copol, second_is_copol};
ghost use Rattle.spec.specs.Strategies.{is_clahe, is_tamed};

use types::{AutoscaleStrategy, CoPol};

// Whether the band is equalised by tiles.
pub(crate) fn is_clahe(strategy: AutoscaleStrategy) -> bool
    ensures { result ≡ is_clahe strategy }
{
    matches!(strategy, AutoscaleStrategy::Clahe)
}

// Whether a picture has windows of its own and no stretch.
pub(crate) fn is_tamed(strategy: AutoscaleStrategy) -> bool
    ensures { result ≡ is_tamed strategy }
{
    matches!(strategy, AutoscaleStrategy::Tamed)
}

// Whether band 1 is co-pol.
pub(crate) fn first_is_copol(copol: CoPol) -> bool
    ensures { result ≡ first_is_copol copol }
{
    matches!(copol, CoPol::Band1)
}

// Whether band 2 is co-pol.
pub(crate) fn second_is_copol(copol: CoPol) -> bool
    ensures { result ≡ second_is_copol copol }
{
    matches!(copol, CoPol::Band2)
}
