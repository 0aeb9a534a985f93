//! Whether a band lies in another.
ghost use Rattle.std.specs.Prelude.{◌≡◌};
ghost use Rattle.eon_model.specs.Wider.{band_lies_in};

use flex_grid::band::Band;

/// Whether each part of the band lies in a part of the other.
pub(crate) fn lies_in(band: &Band, wider: &Band) -> bool
    ensures { result ≡ band_lies_in band.now wider.now }
{
    for i in 0..band.parts() {
        if !wider.within(&band.part(i)) {
            return false;
        }
    }
    true
}
