//! The shares of components, at the positions that are printed.

ghost use Rattle.std.specs.Prelude.{◌≡◌, ◌≤◌, ◌^◌, All, IfOk, map, unsigned_abs};
ghost use Rattle.measure.specs.Measures.{IsWithin, coordinates, vector_of};
ghost use Rattle.component_walk.specs.Shares.{CanMove, off_layer as six_off_layer, share_at};

use crate::components::Component;
use crate::sweep::Swept;
use iso_base::{Memory, PAD_SHIFT};
use measure::Share;
use std::alloc::Global;

/// An area as wide as a share has it.
fn widen(area: &[i64; 3]) -> [i128; 3]
    requires { IsWithin (2 ^ 60) (vector_of area.now) }
    ensures value { result ≡ coordinates (vector_of area.now) }
    ensures within { IsWithin (2 ^ 80) (vector_of result) }
{
    [
        i128::from(area[0]),
        i128::from(area[1]),
        i128::from(area[2]),
    ]
}

/// Six times a volume from the first point off the layer.
fn off_layer(six: i128, area: &[i128; 3]) -> i128
    requires six { unsigned_abs six ≤ 2 ^ 100 }
    requires area { IsWithin (2 ^ 80) (vector_of area.now) }
    ensures { result ≡ six_off_layer six (vector_of area.now) }
{
    six - PAD_SHIFT as i128 * (area[0] + area[1] + area[2])
}

/// The share of a component. With a pad, its positions are the stored ones less the layer.
fn share_of(padded: bool, component: &Component<Swept>) -> Share
    requires { CanMove component.now }
    ensures { result ≡ share_at padded component.now }
{
    let Swept { six, area, border } = component.tally;
    let area = widen(&area);
    Share {
        least: component.least,
        six: if padded { off_layer(six, &area) } else { six },
        area,
        border,
    }
}

/// The shares of components, in order.
pub fn shares_of(
    alloc: Global,
    padded: bool,
    components: &[Component<Swept>],
) -> Result<Vec<Share>, Memory>
    requires { All CanMove components.now }
    ensures { IfOk result (λ ss. ss.items ≡ map (share_at padded) components.now) }
{
    let mut shares = Vec::with_capacity(alloc, components.len())?;
    for component in components {
        shares.push(share_of(padded, component))?;
    }
    Ok(shares)
}
