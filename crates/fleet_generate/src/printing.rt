//! Appends parts of lines to a text.

ghost use Rattle.std.specs.Prelude.{◌≡◌, ◌++◌, ◌<◌, [], ◌∷◌, OnOk, string_bytes};
ghost use Rattle.script_model.specs.Generated.{generated_job, generated_sources};
ghost use Rattle.script_model.specs.Script.{script_text};
ghost use Rattle.script_model.specs.Words.{bytes_text, nodes_text};

use std::alloc::{AllocError, Global};

/// Appends a byte in two lower-case hexadecimal digits.
pub(crate) fn append_byte(alloc: Global, byte: u8, out: &mut String) -> Result<(), AllocError>
    ensures { OnOk result
        (string_bytes out.new ≡ string_bytes out.old ++ bytes_text (byte ∷ [])) }
{
    out.push_str(hex::encode(alloc, &[byte])?.as_str())
}

// Appends the sources of the job after this many rounds.
fn append_sources(rounds: u64, out: &mut String) -> Result<(), AllocError>
    requires { rounds < 2000 }
    ensures { OnOk result (string_bytes out.new ≡ string_bytes out.old
        ++ nodes_text (generated_sources rounds)) }
{
    out.push_str("l")?;
    out.write(3 * rounds + 3)?;
    out.push_str(",l")?;
    out.write(3 * rounds + 2)?;
    out.push_str(",l")?;
    out.write(3 * rounds + 1)?;
    if rounds == 0 {
        return Ok(());
    }
    out.push_str(",r1")
}

/// Appends the lines that compact the flushes of the round after this many rounds.
pub(crate) fn append_job(rounds: u64, out: &mut String) -> Result<(), AllocError>
    requires { rounds < 2000 }
    ensures { OnOk result (string_bytes out.new ≡ string_bytes out.old
        ++ script_text (generated_job rounds)) }
{
    out.push_str("submit - 1 ")?;
    append_sources(rounds, out)?;
    out.push_str("\npoll 1\nclaim 1\nfinish 1 ")?;
    out.write(rounds + 1)?;
    out.push_str("\npoll 1\n")
}
