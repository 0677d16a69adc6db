//! Scripts in one field.

ghost use Rattle.std.specs.Prelude.{◌≡◌, [], ◌∷◌, ◌++◌, IfOk, OnOk};
ghost use Rattle.strm_vectors.specs.Scripts.{so_far, spelled, spelling};

use anyhow::{Result, bail};
use std::alloc::Global;

/// The bytes of a script that stands in one field of a line, where `\n` is the end of one of its own lines, and `\\` a backslash. It is an error
/// where a backslash stands before another byte or at the end, where the field has an end of a line itself, or where memory is refused.
pub fn script_in(alloc: Global, field: &str) -> Result<Vec<u8>>
    ensures { IfOk result (λ script. spelled script.items ≡ field.now) }
{
    let mut script = Vec::new(alloc);
    take_field(&mut script, field)?;
    Ok(script)
}

// Takes a field into an empty script.
fn take_field(script: &mut Vec<u8>, field: &str) -> Result<()>
    requires { script.old.items ≡ [] }
    ensures { OnOk result (spelled script.new.items ≡ field.now) }
{
    let mut behind = false;
    for byte in field.as_bytes() {
        behind = take_byte(script, behind, *byte)?;
    }
    if behind {
        bail!("a backslash at the end of a script");
    }
    Ok(())
}

// Takes the next byte of a field, behind a backslash or not; whether it is a backslash that waits for the next one.
#[tactic(auto, using(crate::proofs::SpelledRows::behind_more, crate::proofs::SpelledRows::plain_more))]
fn take_byte(script: &mut Vec<u8>, behind: bool, byte: u8) -> Result<bool>
    ensures { IfOk result (λ waits. so_far script.new.items waits ≡ so_far script.old.items behind ++ byte ∷ []) }
{
    if behind {
        script.push(escaped(byte)?)?;
        return Ok(false);
    }
    match byte {
        b'\\' => Ok(true),
        b'\n' => bail!("a line's end in a script"),
        byte => {
            script.push(byte)?;
            Ok(false)
        }
    }
}

// The byte that stands behind a backslash in a field.
fn escaped(byte: u8) -> Result<u8>
    ensures { IfOk result (λ meant. spelling meant ≡ 92 ∷ byte ∷ []) }
{
    match byte {
        b'n' => Ok(b'\n'),
        b'\\' => Ok(b'\\'),
        _ => bail!("a backslash in a script before another byte than n and a backslash"),
    }
}
