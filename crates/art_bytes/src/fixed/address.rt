//! The addresses.
ghost use Rattle.std.specs.Prelude.{◌≡◌, length};
ghost use Rattle.std.specs.Net.Addr.{ipv4_octets, ipv6_octets};
ghost use Rattle.art_bytes.specs.Keys.{AreBytes};
ghost use Rattle.art_bytes.specs.lemmas.AddressLaws.{ipv4_bytes, ipv6_bytes};

use super::{FixedBytes, array_of};
use std::net::{Ipv4Addr, Ipv6Addr};

/// An address, which is its octets.
pub trait Address: FixedBytes {}

impl Address for Ipv4Addr {}

impl FixedBytes for Ipv4Addr {
    type Array = [u8; 4];

    ghost WIDTH = { 4 };

    const WIDTH: usize = 4;

    ghost is_value = { λ a. AreBytes (ipv4_octets a) × (length (ipv4_octets a) ≡ 4) };

    ghost fixed_bytes = { ipv4_octets };

    ghost have_bytes = { ipv4_bytes };

    fn placeholder() -> Ipv4Addr {
        Ipv4Addr::UNSPECIFIED
    }

    fn to_array(self) -> [u8; 4] {
        self.octets()
    }

    fn checked_from_slice(bytes: &[u8]) -> Option<Ipv4Addr> {
        Some(Ipv4Addr::from_octets(array_of(bytes)))
    }
}

impl Address for Ipv6Addr {}

impl FixedBytes for Ipv6Addr {
    type Array = [u8; 16];

    ghost WIDTH = { 16 };

    const WIDTH: usize = 16;

    ghost is_value = { λ a. AreBytes (ipv6_octets a) × (length (ipv6_octets a) ≡ 16) };

    ghost fixed_bytes = { ipv6_octets };

    ghost have_bytes = { ipv6_bytes };

    fn placeholder() -> Ipv6Addr {
        Ipv6Addr::UNSPECIFIED
    }

    fn to_array(self) -> [u8; 16] {
        let octets = self.octets();
        octets
    }

    fn checked_from_slice(bytes: &[u8]) -> Option<Ipv6Addr> {
        let octets = array_of(bytes);
        Some(Ipv6Addr::from_octets(octets))
    }
}
