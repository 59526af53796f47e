//! Makes whole scripts.

ghost use Rattle.std.specs.Prelude.{◌≡◌, ◌≤◌, IfOk, IsOkUnless};
ghost use Rattle.fleet_rows.specs.declared.errors.SlateDBError.TheVariants as SlateDBError;
ghost use Rattle.script_model.specs.Script.{script_text};
ghost use Rattle.script_model.specs.Generated.{generated_lines};

use crate::generator::Generator;
use fleet_rows::SlateDBError;
use std::alloc::Global;

/// The text of a script of this many rounds, at most 2,000. The number is the first state of the
/// generator.
pub fn make_script(alloc: Global, number: u64, rounds: u64) -> Result<Vec<u8>, SlateDBError>
    requires { rounds ≤ 2000 }
    ensures script { IfOk result
        (λ text. text.items ≡ script_text (generated_lines number rounds)) }
    ensures memory { IsOkUnless result SlateDBError.Memory }
{
    let mut text = String::from_str(alloc, "start coordinator 1\nstart worker 1\n")?;
    let mut generator = Generator::new(number);
    'rounds: for round in 0..rounds {
        generator.append_round(alloc, round, &mut text)?;
    }
    Ok(text.into_bytes())
}

#[cfg(test)]
mod tests {
    use super::make_script;

    #[test]
    fn scripts_have_their_sizes(rt: HostRuntime) {
        let sizes = [
            (0, 0, 2, 35),
            (7, 1, 11, 310),
            (7, 3, 29, 864),
            (12_345_678_901_234_567_890, 5, 47, 1457),
            (7, 2000, 18_002, 682_781),
        ];
        for (number, rounds, lines, bytes) in sizes {
            let Ok(text) = make_script(rt.alloc(), number, rounds) else {
                panic!(rt; "out of memory");
            };
            assert_eq!(rt; text.len(), bytes);
            assert_eq!(rt; text.iter().filter(|byte| **byte == b'\n').count(), lines);
        }
    }
}
