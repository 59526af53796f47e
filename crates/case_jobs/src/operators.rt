//! Merge operators that refuse some operands.

ghost use Rattle.std.specs.Prelude.{◌≡◌, [], ◌∷◌};
ghost use Rattle.case_jobs.specs.Operators.{is_accepted, lacks};

use bytes::Bytes;
use fleet_fold::MergeOperator;
use fleet_rows::{MergeOperatorError, Text};
use std::alloc::Global;

// Every merged value has fewer bytes than this.
const LEN_LIMIT: usize = 1 << 32;

fn lacks(bytes: &[u8], byte: u8) -> bool
    ensures { result ≡ lacks byte bytes.now }
{
    bytes.iter().all(|&other| other != byte)
}

// Whether there are fewer than 2^32 bytes, and the unwanted byte is not among them.
fn is_accepted(bytes: &[u8], unwanted: u8) -> bool
    ensures { result ≡ is_accepted (unwanted ∷ []) bytes.now }
{
    bytes.len() < LEN_LIMIT && lacks(bytes, unwanted)
}

/// An operator that joins bytes. It refuses with the text `no` if the joined bytes have the
/// unwanted byte, or if there are 2^32 of them or more.
#[derive(Clone, Copy, Debug)]
pub struct Sifting {
    pub unwanted: u8,
}

impl MergeOperator for Sifting {
    ghost use Rattle.case_jobs.specs.Operators.{sifting_operator, sifted_is_lawful};

    ghost settings = { λ s. s.unwanted ∷ [] };

    ghost merged = { sifting_operator };

    ghost lawful = { sifted_is_lawful };

    fn merge(
        &self,
        alloc: Global,
        _key: &Bytes,
        existing_value: Option<Bytes>,
        value: Bytes,
    ) -> Result<Bytes, MergeOperatorError> {
        let before = match &existing_value {
            Some(bytes) => bytes.as_slice(),
            None => &[],
        };
        let mut joined = before.to_vec(alloc)?;
        joined.extend_from_slice(value.as_slice())?;
        if !is_accepted(&joined, self.unwanted) {
            return Err(MergeOperatorError::Callback {
                message: Text::new(String::from_str(alloc, "no")?),
            });
        }
        Ok(Bytes::from_vec(joined)?)
    }
}

/// An operator that keeps the newest operand. It refuses one that has the byte 254, or 2^32 bytes
/// or more, with the text `no`. It refuses any other that has the byte 255 with the text `never`.
#[derive(Clone, Copy, Debug)]
pub struct Newest;

impl MergeOperator for Newest {
    ghost use Rattle.case_jobs.specs.Operators.{newest, newest_is_lawful};

    ghost settings = { λ _. [] };

    ghost merged = { λ _. newest };

    ghost lawful = { λ _. newest_is_lawful };

    fn merge(
        &self,
        alloc: Global,
        _key: &Bytes,
        _existing_value: Option<Bytes>,
        value: Bytes,
    ) -> Result<Bytes, MergeOperatorError> {
        if !is_accepted(value.as_slice(), 254) {
            return Err(MergeOperatorError::Callback {
                message: Text::new(String::from_str(alloc, "no")?),
            });
        }
        if !lacks(value.as_slice(), 255) {
            return Err(MergeOperatorError::Callback {
                message: Text::new(String::from_str(alloc, "never")?),
            });
        }
        Ok(value)
    }
}
