//! Reference epochs.
ghost use Rattle.std.specs.Prelude.{◌≡◌, ◌<◌};
ghost use Rattle.num_time.specs.Numbers.{epoch_second_of};

use jiff_core::civil::Date;

/// The second, from 1970-01-01 00:00 on, at which a reference epoch begins: 1 January for an even
/// one, 1 July for an odd one (VDIF 1.1.1, reference epochs).
pub fn epoch_second(e: u8) -> i64
    requires { e < 64 }
    ensures { result ≡ epoch_second_of e }
{
    let year = 2000 + i16::from(e / 2);
    let month = if e % 2 == 0 { 1 } else { 7 };
    86_400 * i64::from(Date::constrain(year, month, 1).to_unix_epoch_day())
}
