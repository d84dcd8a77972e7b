//! Full keys, taken apart.
ghost use Rattle.std.specs.Prelude.{◌≡◌, take, drop};
ghost use Rattle.std.specs.Int.{from_be_bytes, w32};
ghost use Rattle.art_engine.specs.Keys.{number_of_bytes};
ghost use Rattle.art_engine.specs.Stored.{IsFullKey};

use art_lines::command::fields::NUMBER_KEY;

/// The tenant and the key of a full key.
pub(crate) fn split_full_key(full: &[u8]) -> (u32, &[u8])
    requires { IsFullKey full.now }
    ensures tenant { result.0 ≡ from_be_bytes w32 (take 4 full.now) }
    ensures key { result.1.now ≡ drop 4 full.now }
{
    let tenant = u32::from_be_bytes([full[0], full[1], full[2], full[3]]);
    (tenant, &full[4..])
}

/// The tenant and the number whose bytes these are.
pub(crate) fn split_number_key(key: &[u8; NUMBER_KEY]) -> (u32, i64)
    ensures tenant { result.0 ≡ from_be_bytes w32 (take 4 key.now) }
    ensures number { result.1 ≡ number_of_bytes (drop 4 key.now) }
{
    let tenant = u32::from_be_bytes([key[0], key[1], key[2], key[3]]);
    let bytes = [
        key[4], key[5], key[6], key[7], key[8], key[9], key[10], key[11],
    ];
    let flipped = u64::from_be_bytes(bytes) ^ (1 << 63);
    (tenant, flipped.cast_signed())
}
