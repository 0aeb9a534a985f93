//! Words of 64 bits, and what is read from them.
ghost use Rattle.std.specs.Prelude.{◌≡◌, ◌+◌, ◌-◌, ◌*◌, ◌%◌, ◌==◌, ◌<◌, ◌≤◌, ◌+ℤ◌, pos, if◌then◌else◌};
ghost use Rattle.eon_model.specs.Grid.{span_of, unit_count};
ghost use Rattle.eon_model.specs.LoadGenerator.{next_word, above_bits, choice_of, class_made, starts_move, before_next};

use eon_model::Class;
use flex_grid::band::Band;

/// The word behind this one. The first word is the seed.
pub fn next_word(word: u64) -> u64
    ensures { result ≡ next_word word }
{
    word.wrapping_mul(6364136223846793005)
        .wrapping_add(1442695040888963407)
}

/// The four highest bits.
pub(crate) fn choice_of(word: u64) -> u64
    ensures value { result ≡ choice_of word }
    ensures few { result < 16 }
{
    word >> 60
}

// Whether the word chooses a `push` or a `make`.
fn starts_move(word: u64) -> bool
    ensures { result ≡ starts_move word }
{
    let choice = choice_of(word);
    choice == 10 || choice == 11
}

/// What the line behind the one of this word has to finish: the word itself where its line was a `push` or a `make` that
/// the word chose, and else 0. `before` is what this line had to finish.
pub fn before_next(before: u64, word: u64) -> u64
    ensures { result ≡ before_next before word }
{
    if before == 0 && starts_move(word) {
        word
    } else {
        0
    }
}

/// The number of one of the first `i` services.
pub(crate) fn earlier_number(word: u64, i: u32) -> u64
    requires { 1 ≤ i }
    ensures { result ≡ 1 + above_bits 8 word % i }
{
    1 + (word >> 8) % u64::from(i)
}

/// The number of one of so many, by the bits from bit 8 on.
pub(crate) fn number_below(word: u64, many: u8) -> u8
    requires { 1 ≤ many }
    ensures value { result ≡ above_bits 8 word % many }
    ensures below { result < many }
{
    ((word >> 8) % u64::from(many)) as u8
}

/// The number of a node other than `a`, where there are more.
pub(crate) fn other_node(word: u64, a: u8, nodes: u8) -> u8
    requires { a < nodes }
    ensures value { result ≡ (if nodes == 1 then a else (a + 1 + above_bits 16 word % (nodes - 1)) % nodes) }
    ensures below { result < nodes }
{
    if nodes == 1 {
        return a;
    }
    let further = (word >> 16) % u64::from(nodes - 1);
    ((u64::from(a) + 1 + further) % u64::from(nodes)) as u8
}

/// The rate in Gbit/s: 100, 200, 300 or 400.
pub(crate) fn rate_of(word: u64) -> u64
    ensures value { result ≡ 100 * (1 + above_bits 24 word % 4) }
    ensures few { result ≤ 400 }
{
    100 * (1 + (word >> 24) % 4)
}

/// Bare for one word in four.
pub(crate) fn class_of(word: u64) -> Class
    ensures { result ≡ class_made word }
{
    if (word >> 32) % 4 == 0 {
        Class::Bare
    } else {
        Class::Shared
    }
}

// How many units lie from the lowest to the highest of the band, gaps among them.
fn units(band: &Band) -> u16
    ensures count { result ≡ unit_count (span_of band.now) }
    ensures some { 1 ≤ result }
{
    (i32::from(band.hi()) - i32::from(band.lo()) + 1) as u16
}

// The unit at this place, counted from the lowest of the band.
fn unit_at(band: &Band, place: u16) -> i16
    requires { place < unit_count (span_of band.now) }
    ensures { result ≡ (span_of band.now).lo +ℤ pos place }
{
    (i32::from(band.lo()) + i32::from(place)) as i16
}

/// A unit from the lowest to the highest of the band.
pub(crate) fn centre_of(word: u64, band: &Band) -> i16
    ensures { result ≡ (span_of band.now).lo +ℤ pos (above_bits 16 word % unit_count (span_of band.now)) }
{
    let place = (word >> 16) % u64::from(units(band));
    unit_at(band, place as u16)
}
