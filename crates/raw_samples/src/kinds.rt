//! The samples of a volume in bytes, in the type of their kind and byte order.
ghost use Rattle.std.specs.Prelude.{◌≡◌};

use crate::in_bytes::InBytes;
use crate::sample_format::{
    Signed8, Signed16Big, Signed16Little, Signed32Big, Signed32Little, Unsigned8, Unsigned16Big,
    Unsigned16Little, Unsigned32Big, Unsigned32Little,
};

/// The samples of a volume in bytes, by their kind and byte order.
#[derive(Drop)]
pub enum RawSamples<'a> {
    Unsigned8(InBytes<'a, Unsigned8>),
    Signed8(InBytes<'a, Signed8>),
    Unsigned16Little(InBytes<'a, Unsigned16Little>),
    Unsigned16Big(InBytes<'a, Unsigned16Big>),
    Signed16Little(InBytes<'a, Signed16Little>),
    Signed16Big(InBytes<'a, Signed16Big>),
    Unsigned32Little(InBytes<'a, Unsigned32Little>),
    Unsigned32Big(InBytes<'a, Unsigned32Big>),
    Signed32Little(InBytes<'a, Signed32Little>),
    Signed32Big(InBytes<'a, Signed32Big>),
}

/// Does the same with the samples of a volume in bytes whatever their kind and byte order, which are asked for once.
/// `with_samples!(raw, samples => f(&samples))` names them `samples`, a value whose type has `Samples`.
#[macro_export]
macro_rules! with_samples {
    ($raw:expr, $samples:ident => $body:expr) => {
        match $raw {
            $crate::RawSamples::Unsigned8($samples) => $body,
            $crate::RawSamples::Signed8($samples) => $body,
            $crate::RawSamples::Unsigned16Little($samples) => $body,
            $crate::RawSamples::Unsigned16Big($samples) => $body,
            $crate::RawSamples::Signed16Little($samples) => $body,
            $crate::RawSamples::Signed16Big($samples) => $body,
            $crate::RawSamples::Unsigned32Little($samples) => $body,
            $crate::RawSamples::Unsigned32Big($samples) => $body,
            $crate::RawSamples::Signed32Little($samples) => $body,
            $crate::RawSamples::Signed32Big($samples) => $body,
        }
    };
}
