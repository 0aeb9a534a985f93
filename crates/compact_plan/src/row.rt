//! How far up each fibre is taken.

ghost use Rattle.std.specs.Prelude.{◌≡◌, ◌<◌, ◌≤◌, ℕ, length};
ghost use Rattle.compact_plan.specs.Tops.{IsTopOver, Raises};

// How many fibres a number of one byte tells apart.
pub(crate) const FIBRES: usize = 256;

// The greatest of the floor and of the tops of these fibres.
pub(crate) fn top_over(tops: &[u16], fibres: &[u8], floor: u16) -> u16
    requires { length tops.now ≡ 256 }
    ensures { IsTopOver tops.now fibres.now floor result }
{
    let mut top = floor;
    for fibre in fibres {
        top = top.max(tops[usize::from(*fibre)]);
    }
    top
}

// On these fibres all is taken up to the height.
pub(crate) fn raise(tops: &mut [u16], fibres: &[u8], height: u16)
    requires { length tops.old ≡ 256 }
    ensures { Raises tops.old tops.new fibres.now height }
{
    for fibre in fibres {
        let i = usize::from(*fibre);
        tops[i] = tops[i].max(height);
    }
}
