// What the clock gives for a new image.
ghost use Rattle.std.specs.Prelude.{◌≡◌, slice_index};
ghost use Rattle.uuid.specs.Parts.{variant_of};
ghost use Rattle.uuid.specs.Uuid.{version_num};

use rand_pcg::Pcg64;
use std::time::{Duration, SystemTime, UNIX_EPOCH};
use uuid::{Uuid, Variant};

/// The time since 1970, or none where the clock fails or stands before it.
pub fn time(rt: &HostRuntime) -> Duration {
    match SystemTime::now(rt) {
        Ok(now) => now.duration_since(UNIX_EPOCH).unwrap_or(Duration::ZERO),
        Err(_) => Duration::ZERO,
    }
}

/// A random uuid of version 4, for a number of nanoseconds of the clock.
pub fn fresh_uuid(nanoseconds: u128) -> [u8; 16]
    ensures version { version_num result ≡ 4 }
    ensures variant { variant_of (slice_index result 8) ≡ Variant.RFC4122 }
{
    Uuid::new_v4(&mut Pcg64::new(nanoseconds, 0)).into_bytes()
}
