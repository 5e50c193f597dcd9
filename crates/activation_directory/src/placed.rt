//! The grains that are placed.
ghost use Rattle.std.specs.Prelude.{◌≡◌, ◌+◌, IfSome};
ghost use Rattle.stream_ident.specs.Name.{grain_lt};
ghost use Rattle.stream_ident.specs.Words.{lesser};
ghost use Rattle.activation_directory.specs.Placed.{count_on, least_on, without};

use crate::place::Place;
use indexmap::IndexMap;
use stream_ident::GrainId;

/// The least grain that is placed on a silo, and how many grains are, by one walk.
pub(crate) fn on_silo(placed: &IndexMap<GrainId, Place>, silo: u8) -> (Option<GrainId>, usize)
    ensures least { result.0 ≡ least_on silo placed.now.entries }
    ensures count { result.1 ≡ count_on silo placed.now.entries }
    ensures others { IfSome result.0 (λ grain. result.1 ≡ count_on silo (without placed.now.entries grain) + 1) }
{
    let mut least = None;
    let mut count = 0;
    for index in (0..placed.len()).rev() {
        if let Some((grain, place)) = placed.get_index(index) {
            if place.silo == silo {
                least = Some(lesser(grain, &least));
                count += 1;
            }
        }
    }
    (least, count)
}

/// The lesser of two grains, where there are two.
fn lesser(grain: &GrainId, other: &Option<GrainId>) -> GrainId
    ensures { result ≡ lesser grain_lt grain.now other.now }
{
    match other {
        Some(other) if other.is_before(grain) => *other,
        _ => *grain,
    }
}
