//! The numbers of a row always fit their places in bytes.

ghost use Rattle.std.specs.Prelude.{◌<◌, ◌^◌};
ghost use Rattle.row_model.specs.Bounds.{IsStamp, IsStampOrNone};

use fleet_rows::RowEntry;

/// The sequence of a row has 64 bits, and so have its stamps.
pub(crate) fn know_numbers_fit(row: &RowEntry)
    ensures seq { row.now.seq < 2 ^ 64 }
    ensures created { IsStampOrNone row.now.create_ts }
    ensures expires { IsStampOrNone row.now.expire_ts }
{
    know_number_fits(row.seq);
    know_stamp_fits(row.create_ts);
    know_stamp_fits(row.expire_ts);
}

fn know_number_fits(number: u64)
    ensures { number < 2 ^ 64 }
{}

fn know_stamp_fits(stamp: Option<i64>)
    ensures { IsStampOrNone stamp }
{
    if let Some(number) = stamp {
        know_signed_fits(number);
    }
}

fn know_signed_fits(number: i64)
    ensures { IsStamp number }
{}
